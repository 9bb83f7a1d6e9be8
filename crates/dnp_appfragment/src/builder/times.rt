//! Common times, and rows whose times are given after one.

use super::{Builder, Full};
use crate::common::{common_of, is_same, is_timed, time_octets};
use crate::header::{Header, Range};
use crate::listed::After;
use crate::row_source::RowSource;
use crate::written::Relative;
use dnp_objects::Row;
use dnp_objects::laws::a_relative_row_is_read;

impl Builder {
    ghost use Rattle.std.specs.Prelude.{◌≡◌, ◌<◌, ◌≤◌, ◌↔◌, length, map, All, IsErr, IsTrue, OnOk, OnErr};
    ghost use Rattle.std.specs.Option.{IsSomeAnd, unwrap_or};
    ghost use Rattle.dnp_objects.specs.Relative.{FitsRelative};
    ghost use Rattle.dnp_objects.specs.declared.limits.TheConstants.{MAX_FRAGMENT, MAX_TIME};
    ghost use Rattle.dnp_appfragment.specs.Table as table;
    ghost use Rattle.dnp_appfragment.specs.Headers.{IsHeaderAt};
    ghost use Rattle.dnp_appfragment.specs.Seen.{head};
    ghost use Rattle.dnp_appfragment.specs.Built as built;
    ghost use Rattle.dnp_appfragment.specs.Written as written;

    /// The common time after which the times of 2.3 are given now, in ms, if there is one.
    pub fn common_time(&self) -> Option<u64>
        ensures { result ≡ built.context_of self.now }
    {
        self.common
    }

    /// Whether the header can stand in the fragment after what was put: `Header::fits`, its common time is the one that
    /// it would be read with there, and of 2.3 each object's time is under 2^48 ms.
    pub fn takes(&self, header: &Header<'_>) -> bool
        ensures { IsTrue result ↔ IsHeaderAt (table.form_of self.now.function) (built.context_of self.now) (head header.now) }
    {
        header.fits(self.function)
            && is_same(
                header.common,
                common_of(self.common, header.group, header.variation),
            )
            && is_timed(header)
    }

    /// Puts a common time into a response, in ms: 51.1, alone under its header. Times of 2.3 are given after it.
    ///
    /// Full, where the fragment would pass 2,048 octets; nothing is put then.
    pub fn common(&mut self, time: u64) -> Result<(), Full>
        requires response { IsTrue (table.is_response self.old.function) }
        requires low { time < MAX_TIME }
        ensures ok { OnOk result (self.new ≡ built.with_header self.old (written.common_head time)) }
        ensures full { IsErr result ↔ (MAX_FRAGMENT < built.size (built.with_header self.old (written.common_head time))) }
        ensures err { OnErr result (self.new ≡ self.old) }
        ensures function { self.new.function ≡ self.old.function }
    {
        let octets = time_octets(time);
        let range = Range::Count { wide: false, n: 1 };
        self.header(&Header::new(51, 1, range, &octets))
    }

    /// Puts a row into a response as an event whose time is given after the common one, 2.3, after its index. It joins
    /// the header before it, where that is of the same object and no `break_run` came between.
    /// `dnp_objects::fits_relative` is the test of what the row has to be.
    ///
    /// Full, where the fragment would pass 2,048 octets; nothing is put then.
    pub fn relative(&mut self, row: &Row) -> Result<(), Full>
        requires response { IsTrue (table.is_response self.old.function) }
        requires fits { IsSomeAnd (built.context_of self.old) (λ common. FitsRelative common row.now) }
        ensures ok { OnOk result (self.new ≡ built.with_object self.old (written.relative (unwrap_or (built.context_of self.old) 0) row.now)) }
        ensures full { IsErr result
            ↔ (MAX_FRAGMENT < built.size (built.with_object self.old (written.relative (unwrap_or (built.context_of self.old) 0) row.now))) }
        ensures err { OnErr result (self.new ≡ self.old) }
        ensures function { self.new.function ≡ self.old.function }
    {
        // (a law, for the proof: it does nothing)
        a_relative_row_is_read();
        // (there is one, where such a row fits)
        let common = self.common.unwrap_or(0);
        self.put(&Relative { row, common })
    }
    /// Puts rows into a response as events whose times are given after the common one, one by one as `relative` puts them,
    /// up to the first that does not fit; answers how many are put.
    pub fn relatives<R: RowSource + Copy>(&mut self, rows: R) -> usize
        requires response { IsTrue (table.is_response self.old.function) }
        requires fits { IsSomeAnd (built.context_of self.old) (λ common. All (FitsRelative common) (R.rows rows)) }
        ensures count { result ≡ built.objects_put self.old (map (written.relative (unwrap_or (built.context_of self.old) 0)) (R.rows rows)) }
        ensures few { result ≤ length (R.rows rows) }
        ensures put { self.new ≡ built.with_objects self.old (map (written.relative (unwrap_or (built.context_of self.old) 0)) (R.rows rows)) }
        ensures function { self.new.function ≡ self.old.function }
    {
        // (a law, for the proof: it does nothing)
        a_relative_row_is_read();
        // (there is one, where such rows fit)
        let common = self.common.unwrap_or(0);
        self.put_list(&After { common }, rows)
    }
}
