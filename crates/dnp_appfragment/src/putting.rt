//! The octets of fragments and headers, appended to a fragment or written over its front.
ghost use Rattle.std.specs.Prelude.{◌≡◌, ◌+◌, ◌≤◌, ◌<◌, true, false, if◌then◌else◌, [], ◌∷◌, ◌++◌, length, drop};
ghost use Rattle.arrayvec.specs.ArrayVec.{array_vec_len};
ghost use Rattle.dnp_appfragment.specs.Headers as spec;
ghost use Rattle.dnp_appfragment.specs.Seen.{head};
ghost use Rattle.dnp_appfragment.specs.Control.{IsControl, control_octet};
ghost use Rattle.dnp_appfragment.specs.Table.{function_octet, is_response};
ghost use Rattle.dnp_appfragment.specs.Built.{front_size};
ghost use Rattle.dnp_appfragment.specs.steps.Overwriting.{written_over};
ghost use Rattle.dnp_appfragment.specs.steps.Building.{run_head};

use crate::control::Control;
use crate::function::Function;
use crate::header::{Header, Range};
use crate::iin::Iin;
use crate::range::qualifier_of;
use crate::run::Run;
use arrayvec::ArrayVec;
use dnp_objects::MAX_FRAGMENT;

/// Appends a number in one octet, or in two, the low one first.
#[inline]
pub(crate) fn push_number(octets: &mut ArrayVec<u8, MAX_FRAGMENT>, wide: bool, number: u16)
    requires fits { number < spec.limit wide }
    requires room { array_vec_len octets.old + length (spec.number wide number) ≤ MAX_FRAGMENT }
    ensures items { octets.new.items ≡ octets.old.items ++ spec.number wide number }
    ensures len { array_vec_len octets.new ≡ array_vec_len octets.old + length (spec.number wide number) }
{
    if wide {
        octets.push((number % 256) as u8);
        octets.push((number / 256) as u8);
    } else {
        octets.push(number as u8);
    }
}

/// Appends the octets of a range.
fn push_range(octets: &mut ArrayVec<u8, MAX_FRAGMENT>, range: Range)
    requires fits { spec.NumbersFit range }
    requires room { array_vec_len octets.old + length (spec.range_octets range) ≤ MAX_FRAGMENT }
    ensures { octets.new.items ≡ octets.old.items ++ spec.range_octets range }
{
    match range {
        Range::All => {}
        Range::Span { wide, first, last } => {
            push_number(octets, wide, first);
            push_number(octets, wide, last);
        }
        Range::Count { wide, n } | Range::Indexed { wide, n } => push_number(octets, wide, n),
    }
}

/// How many octets a range has.
pub(crate) fn range_size(range: Range) -> usize
    ensures size { result ≡ length (spec.range_octets range) }
    ensures small { result ≤ 4 }
{
    match range {
        Range::All => 0,
        Range::Span { wide, .. } => if wide { 4 } else { 2 },
        Range::Count { wide, .. } | Range::Indexed { wide, .. } => if wide { 2 } else { 1 },
    }
}

/// How many octets a header has with its objects.
pub(crate) fn header_size(header: &Header<'_>) -> usize
    ensures { result ≡ length (spec.header_octets (head header.now)) }
{
    3 + range_size(header.range) + header.octets.len()
}

/// Appends a header, whose objects are to follow.
pub(crate) fn push_run(octets: &mut ArrayVec<u8, MAX_FRAGMENT>, run: Run)
    requires fits { spec.NumbersFit run.range }
    requires room { array_vec_len octets.old + length (spec.header_octets (run_head [] run)) ≤ MAX_FRAGMENT }
    ensures { octets.new.items ≡ octets.old.items ++ spec.header_octets (run_head [] run) }
{
    octets.push(run.group);
    octets.push(run.variation);
    octets.push(qualifier_of(run.range));
    push_range(octets, run.range);
}

/// Appends a header with its objects.
pub(crate) fn push_header(octets: &mut ArrayVec<u8, MAX_FRAGMENT>, header: &Header<'_>)
    requires fits { spec.NumbersFit header.now.range }
    requires room { array_vec_len octets.old + length (spec.header_octets (head header.now)) ≤ MAX_FRAGMENT }
    ensures { octets.new.items ≡ octets.old.items ++ spec.header_octets (head header.now) }
{
    octets.push(header.group);
    octets.push(header.variation);
    octets.push(qualifier_of(header.range));
    push_range(octets, header.range);
    octets.try_extend_from_slice(header.octets).unwrap();
}

/// Writes a number over the two octets at `at`, the low one first.
pub(crate) fn write_number(octets: &mut ArrayVec<u8, MAX_FRAGMENT>, at: usize, number: u16)
    requires { at + 2 ≤ array_vec_len octets.old }
    ensures { octets.new.items ≡ written_over octets.old.items at (spec.number true number) }
{
    octets[at] = (number % 256) as u8;
    octets[at + 1] = (number / 256) as u8;
}

/// Appends room for the front of a fragment, 2 octets and in a response 4, and answers how many.
pub(crate) fn push_front(octets: &mut ArrayVec<u8, MAX_FRAGMENT>, is_response: bool) -> usize
    requires { octets.old.items ≡ [] }
    ensures size { result ≡ (if is_response then 4 else 2) }
    ensures room { array_vec_len octets.new ≡ result }
{
    octets.push(0);
    octets.push(0);
    if is_response {
        octets.push(0);
        octets.push(0);
    }
    octets.len()
}

/// Writes the front of a fragment over the room for it.
pub(crate) fn write_front(
    octets: &mut ArrayVec<u8, MAX_FRAGMENT>,
    control: Control,
    function: Function,
    iin: Iin,
)
    requires { front_size function ≤ array_vec_len octets.old }
    ensures request { is_response function ≡ false
        → octets.new.items ≡ control_octet control ∷ function_octet function ∷ drop 2 octets.old.items }
    ensures response { is_response function ≡ true
        → octets.new.items ≡ control_octet control ∷ function_octet function ∷ iin.one ∷ iin.two ∷ drop 4 octets.old.items }
    ensures control { IsControl control }
{
    octets[0] = control.octet();
    octets[1] = function.octet();
    if function.is_response() {
        octets[2] = iin.one;
        octets[3] = iin.two;
    }
}
