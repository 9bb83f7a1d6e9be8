//! The headers of a fragment, one after the other.

use crate::checked::checked_header;
use crate::common::common_after;
use crate::fault::AppFault;
use crate::header::{Header, a_slice_is_of_octets};
use crate::reading::header_at;
use crate::table::Form;
use std::marker::Model;

/// The headers of a fragment that are left, with their objects: parts of its octets, of which
/// nothing is copied.
#[derive(Debug, Drop)]
pub struct Headers<'a> {
    form: Form,
    /// The common time that the headers passed leave.
    common: Option<u64>,
    rest: &'a [u8],
}

impl<'a> Model for Headers<'a> {
    ghost use Rattle.std.specs.Prelude.{IsTrue};
    ghost use Rattle.dnp_appfragment.specs.Left.{Left, headers_left, is_whole};

    ghost Value = { Left };

    ghost view = { λ h. record { rest = h.rest; headers = headers_left h.form h.common h.rest.now } };

    ghost invariant = { λ h. IsTrue (is_whole h.form h.common h.rest.now) };
}

impl<'a> Headers<'a> {
    ghost use Rattle.std.specs.Prelude.{◌≡◌, IfOk, IsTrue, drop};
    ghost use Rattle.dnp_appfragment.specs.Headers.{begin};
    ghost use Rattle.dnp_appfragment.specs.Left.{is_whole, headers_of};
    ghost use Rattle.dnp_appfragment.specs.Places.{EndsWith};
    ghost use Rattle.dnp_appfragment.specs.Seen.{Gives};
    ghost use Rattle.dnp_appfragment.specs.Reading.{headers_at};

    /// The headers that divide the octets.
    pub(crate) fn new(form: Form, octets: &'a [u8]) -> Result<Headers<'a>, AppFault>
        ensures gives { Gives (λ l. l.headers) result (headers_at form octets.now) }
        ensures rest { IfOk result (λ l. l.rest ≡ octets.entry) }
    {
        let mut common = None;
        let mut rest = octets;
        while !rest.is_empty() {
            // (a law, for the proof: it does nothing)
            a_slice_is_of_octets(rest);
            let (header, after) = header_at(form, common, rest)?;
            common = common_after(common, &header);
            rest = after;
        }
        Ok(Headers {
            form,
            common: None,
            rest: octets,
        })
    }

    /// The headers that divide the octets, which are known to be divided: nothing is looked at.
    pub(crate) fn known(form: Form, octets: &'a [u8]) -> Headers<'a>
        requires { IsTrue (is_whole form begin octets.now) }
        ensures headers { result.headers ≡ headers_of form octets.now }
        ensures rest { result.rest ≡ octets.entry }
    {
        Headers {
            form,
            common: None,
            rest: octets,
        }
    }

    /// The headers from the k-th on, counted from 0, and none past the end. They lie in the same
    /// octets.
    pub fn after(&self, k: usize) -> Headers<'a>
        ensures headers { result.headers ≡ drop k self.now.headers }
        ensures place { EndsWith self.now.rest result.rest }
    {
        let mut left = Headers {
            form: self.form,
            common: self.common,
            rest: self.rest,
        };
        for passed in 0..k {
            let _ = passed;
            if left.next().is_none() {
                return left;
            }
        }
        left
    }
}

impl<'a> Iterator for Headers<'a> {
    ghost use Rattle.std.specs.Iterator.{item_count};
    ghost use Rattle.dnp_appfragment.specs.Places.{YieldsHeader};

    type Item = Header<'a>;

    ghost next_gives = { YieldsHeader };

    ghost remaining = { item_count (λ l. l.headers) };

    // (in each loop over headers, as rows are)
    #[inline(always)]
    fn next(&mut self) -> Option<Header<'a>> {
        if self.rest.is_empty() {
            return None;
        }
        // (a law, for the proof: it does nothing)
        a_slice_is_of_octets(self.rest);
        let (header, rest) = checked_header(self.form, self.common, self.rest);
        self.common = common_after(self.common, &header);
        self.rest = rest;
        Some(header)
    }
}
