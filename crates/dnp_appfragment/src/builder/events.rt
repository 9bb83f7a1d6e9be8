//! Rows of one object, put one after another.

use super::Builder;
use crate::listed::{Listed, RowObject, Whole};
use crate::row_source::RowSource;
use dnp_objects::Kind;
use dnp_objects::laws::a_written_row_fills_its_object;

impl Builder {
    ghost use Rattle.std.specs.Prelude.{◌≡◌, ◌≤◌, ◌<◌, ◌^◌, ℕ, [], length, take, map, All, IsSome, IsTrue, false};
    ghost use Rattle.dnp_objects.specs.Events.{IsEvent};
    ghost use Rattle.dnp_objects.specs.Objects.{object_size};
    ghost use Rattle.dnp_appfragment.specs.Table as table;
    ghost use Rattle.dnp_appfragment.specs.Headers.{IsHeaderAt, is_common};
    ghost use Rattle.dnp_appfragment.specs.Built as built;
    ghost use Rattle.dnp_appfragment.specs.Written as written;
    ghost use Rattle.dnp_appfragment.specs.steps.Listed.{all_after, many_of, one_of, one_object};

    /// Puts rows as this object, each after its index, as many as fit; answers how many.
    #[inline(always)]
    pub(super) fn put_list<R: RowSource + Copy, O: RowObject + Copy>(
        &mut self,
        object: &O,
        rows: R,
    ) -> usize
        requires response { IsTrue (table.is_response self.old.function) }
        requires can { O.can object.now }
        requires fits { All (O.fits object.now) (R.rows rows) }
        requires stands { (n : ℕ) → n ≤ length (R.rows rows) → n < 2 ^ 16
            → IsHeaderAt (table.form_of self.old.function) (built.context_of self.old)
            (many_of (O.one object.now) n (all_after (O.spelled object.now) (take n (R.rows rows)))) }
        requires sized { IsSome (object_size (O.one object.now).group (O.one object.now).variation) }
        requires other { is_common (many_of (O.one object.now) 1 []) ≡ false }
        ensures count { result ≡ built.objects_put self.old (map (one_of (O.one object.now) (O.spelled object.now)) (R.rows rows)) }
        ensures few { result ≤ length (R.rows rows) }
        ensures put { self.new ≡ built.with_objects self.old (map (one_of (O.one object.now) (O.spelled object.now)) (R.rows rows)) }
        ensures function { self.new.function ≡ self.old.function }
    {
        // (what is so of every builder, for the proof: it does nothing)
        let _ = &self.run;
        let size = object.size();
        let count = rows.len().min(self.room_for(object.run()) / size);
        if count == 0 {
            return 0;
        }
        let listed = Listed::<R, O> {
            rows: &rows,
            object,
            count: count as u16,
        };
        self.put(&listed).unwrap();
        count
    }

    /// Puts rows of a kind as events, all with a time or all without, as this object, as many as fit; answers how many.
    #[inline(always)]
    fn put_events<R: RowSource + Copy, const GROUP: u8, const VARIATION: u8>(
        &mut self,
        kind: Kind,
        has_time: bool,
        rows: R,
    ) -> usize
        requires response { IsTrue (table.is_response self.old.function) }
        requires object { one_object kind has_time ≡ (GROUP, VARIATION) }
        requires fits { All IsEvent (R.rows rows) }
        requires same { All (written.IsOf kind has_time) (R.rows rows) }
        ensures count { result ≡ built.objects_put self.old (map written.event (R.rows rows)) }
        ensures few { result ≤ length (R.rows rows) }
        ensures put { self.new ≡ built.with_objects self.old (map written.event (R.rows rows)) }
        ensures function { self.new.function ≡ self.old.function }
    {
        // (a law, for the proof: it does nothing)
        a_written_row_fills_its_object();
        self.put_list(&Whole::<GROUP, VARIATION> {}, rows)
    }

    /// Puts rows of one kind into a response as events, all with a time or all without, one by one as `event` puts them, up
    /// to the first that does not fit; answers how many are put.
    pub fn events<R: RowSource + Copy>(&mut self, kind: Kind, has_time: bool, rows: R) -> usize
        requires response { IsTrue (table.is_response self.old.function) }
        requires fits { All IsEvent (R.rows rows) }
        requires same { All (written.IsOf kind has_time) (R.rows rows) }
        ensures count { result ≡ built.objects_put self.old (map written.event (R.rows rows)) }
        ensures few { result ≤ length (R.rows rows) }
        ensures put { self.new ≡ built.with_objects self.old (map written.event (R.rows rows)) }
        ensures function { self.new.function ≡ self.old.function }
    {
        // (each by its numbers in the type, so that the compiler knows how many octets an object has)
        match (kind, has_time) {
            (Kind::Binary, true) => self.put_events::<R, 2, 2>(kind, has_time, rows),
            (Kind::Binary, false) => self.put_events::<R, 2, 1>(kind, has_time, rows),
            (Kind::Counter, true) => self.put_events::<R, 22, 5>(kind, has_time, rows),
            (Kind::Counter, false) => self.put_events::<R, 22, 1>(kind, has_time, rows),
            (Kind::Analog, true) => self.put_events::<R, 32, 3>(kind, has_time, rows),
            (Kind::Analog, false) => self.put_events::<R, 32, 1>(kind, has_time, rows),
        }
    }
}
