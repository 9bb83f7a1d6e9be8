//! Rows of one object, each after its index, which stand under one header.
ghost use Rattle.std.specs.Prelude.{◌≡◌, ◌+◌, ◌≤◌, ◌<◌, ◌++◌, true, ℕ, List, length, take, IsSome, Some, None, ⊤};
ghost use Rattle.arrayvec.specs.ArrayVec.{array_vec_len};
ghost use Rattle.dnp_objects.specs.Objects.{object_size as size_of};
ghost use Rattle.dnp_objects.specs.Relative.{FitsRelative, relative_octets};
ghost use Rattle.dnp_objects.specs.Rows.{Fits, written as written_as};
ghost use Rattle.dnp_objects.specs.declared.row.Row.{Row as RowValue};
ghost use Rattle.dnp_appfragment.specs.declared.header.Range.TheVariants as range;
ghost use Rattle.dnp_appfragment.specs.declared.run.Run.{Run as RunValue};
ghost use Rattle.dnp_appfragment.specs.steps.Listed.{CanList, after_index, all_after, many_of};

use crate::putting::push_number;
use crate::row_source::RowSource;
use crate::run::Run;
use crate::written::{BEHIND_INDEX, Object, indexed_of};
use arrayvec::ArrayVec;
use dnp_objects::laws::a_written_row_fills_its_object;
use dnp_objects::{MAX_FRAGMENT, Row, append_object, append_relative, object_size};

/// As which object rows go, each after its index.
pub(crate) trait RowObject {
    /// What is required of the object.
    ghost can: { Self → Type 0 };

    /// A header of one.
    ghost one: { Self → RunValue };

    /// What is required of a row.
    ghost fits: { Self → RowValue → Type 0 };

    /// The octets of a row, without its index.
    ghost spelled: { Self → RowValue → List ℕ };

    /// The header of one.
    fn run(&self) -> Run
        ensures value { result ≡ one self.now }
        ensures indexed { result.range ≡ range.Indexed true 1 };

    /// How many octets each has, with its index.
    fn size(&self) -> usize
        requires { can self.now }
        ensures each { (row : RowValue) → fits self.now row → length (after_index (spelled self.now) row) ≡ result }
        ensures some { 2 ≤ result }
        ensures small { result ≤ 255 };

    /// Appends a row after its index.
    fn append(&self, row: &Row, octets: &mut ArrayVec<u8, MAX_FRAGMENT>)
        requires fits { fits self.now row.now }
        requires room { array_vec_len octets.old + length (after_index (spelled self.now) row.now) ≤ MAX_FRAGMENT }
        ensures { octets.new.items ≡ octets.old.items ++ after_index (spelled self.now) row.now };
}

/// Rows as this object, their times, if they have any, whole. The object stands in the type, so that the compiler knows
/// how many octets each part of a row has.
#[derive(Clone, Copy)]
pub(crate) struct Whole<const GROUP: u8, const VARIATION: u8> {}

impl<const GROUP: u8, const VARIATION: u8> RowObject for Whole<GROUP, VARIATION> {
    ghost can = { λ o. IsSome (size_of GROUP VARIATION) };

    ghost one = { λ o. record { group = GROUP; variation = VARIATION; range = range.Indexed true 1; common = None } };

    ghost fits = { λ o row. Fits GROUP VARIATION row };

    ghost spelled = { λ o row. written_as GROUP VARIATION row };

    #[inline]
    fn run(&self) -> Run {
        Run {
            group: GROUP,
            variation: VARIATION,
            range: BEHIND_INDEX,
            common: None,
        }
    }

    #[inline]
    fn size(&self) -> usize {
        // (a law, for the proof: it does nothing)
        a_written_row_fills_its_object();
        2 + object_size(GROUP, VARIATION).unwrap()
    }

    #[inline]
    fn append(&self, row: &Row, octets: &mut ArrayVec<u8, MAX_FRAGMENT>) {
        // (all of the row is read before anything is written)
        let (index, row) = (row.index, *row);
        push_number(octets, true, index);
        append_object(GROUP, VARIATION, &row, octets);
    }
}

/// Binaries with their times after this common one, 2.3.
#[derive(Clone, Copy)]
pub(crate) struct After {
    pub common: u64,
}

impl RowObject for After {
    ghost can = { λ o. ⊤ };

    ghost one = { λ o. record { group = 2; variation = 3; range = range.Indexed true 1; common = Some o.common } };

    ghost fits = { λ o row. FitsRelative o.common row };

    ghost spelled = { λ o row. relative_octets o.common row };

    #[inline]
    fn run(&self) -> Run {
        Run {
            group: 2,
            variation: 3,
            range: BEHIND_INDEX,
            common: Some(self.common),
        }
    }

    #[inline]
    fn size(&self) -> usize {
        5
    }

    #[inline]
    fn append(&self, row: &Row, octets: &mut ArrayVec<u8, MAX_FRAGMENT>) {
        // (all of the row is read before anything is written)
        let (number, row) = (row.index, *row);
        push_number(octets, true, number);
        append_relative(&row, self.common, octets);
    }
}

/// The first so many rows as this object.
#[derive(Clone, Copy)]
pub(crate) struct Listed<'a, R, O> {
    pub rows: &'a R,
    pub object: &'a O,
    pub count: u16,
}

impl<'a, R: RowSource + Copy, O: RowObject + Copy> Object for Listed<'a, R, O> {
    ghost can_put = { λ l. O.can l.object.now
        × CanList (O.fits l.object.now) (O.spelled l.object.now) l.count (R.rows l.rows.now) };

    ghost head = { λ l. many_of (O.one l.object.now) l.count
        (all_after (O.spelled l.object.now) (take l.count (R.rows l.rows.now))) };

    #[inline]
    fn run(&self) -> Run {
        Run {
            range: indexed_of(self.count),
            ..self.object.run()
        }
    }

    #[inline]
    fn size(&self) -> usize {
        self.count as usize * self.object.size()
    }

    #[inline]
    fn append(&self, octets: &mut ArrayVec<u8, MAX_FRAGMENT>) {
        // (copies, so that neither the rows nor the object need an address)
        let (rows, object) = (*self.rows, *self.object);
        for place in 0..self.count as usize {
            object.append(&rows.row(place), octets);
        }
    }
}
