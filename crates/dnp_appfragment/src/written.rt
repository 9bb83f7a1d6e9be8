//! What rows are written as in a fragment.
ghost use Rattle.std.specs.Prelude.{◌≡◌, ◌+◌, ◌≤◌, ◌↔◌, ◌++◌, IsTrue, length, true};
ghost use Rattle.arrayvec.specs.ArrayVec.{array_vec_len};
ghost use Rattle.dnp_objects.specs.Relative.{FitsRelative};
ghost use Rattle.dnp_objects.specs.Rows.{Fits, written};
ghost use Rattle.dnp_appfragment.specs.declared.header.Range.TheVariants as range;
ghost use Rattle.dnp_appfragment.specs.Headers.{Head, NumbersFit};
ghost use Rattle.dnp_appfragment.specs.steps.Building.{run_head};
ghost use Rattle.dnp_appfragment.specs.Written as spec;

use crate::header::Range;
use crate::listed::{After, RowObject, Whole};
use crate::putting::push_number;
use crate::run::Run;
use arrayvec::ArrayVec;
use dnp_objects::laws::a_written_row_fills_its_object;
use dnp_objects::{MAX_FRAGMENT, Row, append_object, fits_object, object_size};

/// The range of one object after its index: qualifier 28.
pub(crate) const BEHIND_INDEX: Range = Range::Indexed { wide: true, n: 1 };

/// Whether the row can be put as a present value, as this object: of binary inputs 1.2, of binary
/// outputs 10.2 (a binary), of counters 20.1, of analog inputs 30.1. It is of the object's kind, a binary's
/// value is 0 or 1 and its flags lack bit 7, a counter's value has 32 bits, an analog's 32 with its
/// sign. The time is ignored.
pub fn fits_point(group: u8, variation: u8, row: &Row) -> bool
    ensures { IsTrue result ↔ spec.FitsPoint group variation row.now }
{
    matches!((group, variation), (1, 2) | (10, 2) | (20, 1) | (30, 1))
        && fits_object(group, variation, row)
}

/// How many octets a present value has as this object.
fn point_size(group: u8, variation: u8, row: &Row) -> usize
    requires { spec.FitsPoint group variation row.now }
    ensures value { result ≡ length (written group variation row.now) }
    ensures small { result ≤ 11 }
{
    // (a law, for the proof: it does nothing)
    a_written_row_fills_its_object();
    object_size(group, variation).unwrap()
}

/// An object that is put into a fragment, as a header of its own or after others.
pub(crate) trait Object {
    /// What is required of it.
    ghost can_put: { Self → Type 0 };

    /// The header of its own.
    ghost head: { Self → Head };

    /// The header's object and range.
    fn run(&self) -> Run
        ensures value { run_head (head self.now).octets result ≡ head self.now }
        ensures fits { NumbersFit result.range };

    /// How many octets it has, with the index before it.
    fn size(&self) -> usize
        requires { can_put self.now }
        ensures value { result ≡ length (head self.now).octets }
        ensures small { result ≤ MAX_FRAGMENT };

    /// Appends its octets.
    fn append(&self, octets: &mut ArrayVec<u8, MAX_FRAGMENT>)
        requires can { can_put self.now }
        requires room { array_vec_len octets.old + length (head self.now).octets ≤ MAX_FRAGMENT }
        ensures { octets.new.items ≡ octets.old.items ++ (head self.now).octets };
}

/// A row as this object, after its index: qualifier 28. The object stands in the type, so that the compiler knows
/// how many octets each part has.
#[derive(Clone, Copy)]
pub(crate) struct Event<'a, const GROUP: u8, const VARIATION: u8> {
    pub row: &'a Row,
}

impl<'a, const GROUP: u8, const VARIATION: u8> Object for Event<'a, GROUP, VARIATION> {
    ghost can_put = { λ e. Fits GROUP VARIATION e.row.now };

    ghost head = { λ e. spec.indexed GROUP VARIATION e.row.now.index (written GROUP VARIATION e.row.now) };

    #[inline]
    fn run(&self) -> Run {
        Whole::<GROUP, VARIATION> {}.run()
    }

    #[inline]
    fn size(&self) -> usize {
        // (a law, for the proof: it does nothing)
        a_written_row_fills_its_object();
        Whole::<GROUP, VARIATION> {}.size()
    }

    #[inline]
    fn append(&self, octets: &mut ArrayVec<u8, MAX_FRAGMENT>) {
        Whole::<GROUP, VARIATION> {}.append(self.row, octets);
    }
}

/// The range from an index to an index: qualifier 01.
#[inline]
pub(crate) fn span_of(first: u16, last: u16) -> Range
    ensures value { result ≡ range.Span true first last }
    ensures fits { NumbersFit result }
{
    Range::Span {
        wide: true,
        first,
        last,
    }
}

/// The range of so many objects, each after its index: qualifier 28.
#[inline]
pub(crate) fn indexed_of(n: u16) -> Range
    ensures value { result ≡ range.Indexed true n }
    ensures fits { NumbersFit result }
{
    Range::Indexed { wide: true, n }
}

/// A row as a present value, as this object, in a range of its index: qualifier 01. It holds the row itself, so that a
/// loop over points needs no memory for it.
#[derive(Clone, Copy)]
pub(crate) struct Point {
    pub group: u8,
    pub variation: u8,
    pub row: Row,
}

impl Object for Point {
    ghost can_put = { λ p. spec.FitsPoint p.group p.variation p.row };

    ghost head = { λ p. spec.point p.group p.variation p.row };

    #[inline]
    fn run(&self) -> Run {
        Run {
            group: self.group,
            variation: self.variation,
            range: span_of(self.row.index, self.row.index),
            common: None,
        }
    }

    #[inline]
    fn size(&self) -> usize {
        point_size(self.group, self.variation, &self.row)
    }

    #[inline]
    fn append(&self, octets: &mut ArrayVec<u8, MAX_FRAGMENT>) {
        append_object(self.group, self.variation, &self.row, octets);
    }
}

/// An object of these octets after its index: qualifier 28.
#[derive(Clone, Copy)]
pub(crate) struct Indexed<'a> {
    pub group: u8,
    pub variation: u8,
    pub index: u16,
    pub octets: &'a [u8],
}

impl<'a> Object for Indexed<'a> {
    ghost can_put = { λ o. length o.octets.now ≤ 11 };

    ghost head = { λ o. spec.indexed o.group o.variation o.index o.octets.now };

    #[inline]
    fn run(&self) -> Run {
        Run {
            group: self.group,
            variation: self.variation,
            range: BEHIND_INDEX,
            common: None,
        }
    }

    #[inline]
    fn size(&self) -> usize {
        2 + self.octets.len()
    }

    #[inline]
    fn append(&self, octets: &mut ArrayVec<u8, MAX_FRAGMENT>) {
        push_number(octets, true, self.index);
        octets.try_extend_from_slice(self.octets).unwrap();
    }
}

/// A row after a common time, 2.3, after its index: qualifier 28.
#[derive(Clone, Copy)]
pub(crate) struct Relative<'a> {
    pub row: &'a Row,
    pub common: u64,
}

impl<'a> Object for Relative<'a> {
    ghost can_put = { λ o. FitsRelative o.common o.row.now };

    ghost head = { λ o. spec.relative o.common o.row.now };

    #[inline]
    fn run(&self) -> Run {
        let common = self.common;
        After { common }.run()
    }

    #[inline]
    fn size(&self) -> usize {
        let common = self.common;
        After { common }.size()
    }

    #[inline]
    fn append(&self, octets: &mut ArrayVec<u8, MAX_FRAGMENT>) {
        let common = self.common;
        After { common }.append(self.row, octets);
    }
}
