//! Object headers with their objects.
ghost use Rattle.std.specs.Prelude.{◌<◌, ◌^◌, All, length};

use crate::function::Function;
use crate::laws::{objects_say_rows_and_commands, rows_are_events, what_is_there_is_said};
use crate::objects::{command_at, header_row_at};
use crate::range::{count_of, is_range, objects_size, qualifier_of};
use crate::row_walk::RowWalk;
use crate::table::{allows, form_of, takes_of};
use dnp_objects::{Command, Row, Status};

/// Which objects a header speaks of (IEEE Std 1815-2012, application layer: qualifier and range).
/// `wide` numbers have two octets in the fragment, and others one.
#[derive(Clone, Copy, Debug, PartialEq, Eq, Hash)]
pub enum Range {
    /// All of them (qualifier 06).
    All,
    /// Those of the indexes `first` to `last` (00, or wide 01).
    Span { wide: bool, first: u16, last: u16 },
    /// So many (07, or wide 08).
    Count { wide: bool, n: u16 },
    /// So many, each after its index (17, or wide 28).
    Indexed { wide: bool, n: u16 },
}

/// An object header, with the octets of its objects as they stand in the fragment (IEEE Std
/// 1815-2012, application layer: object headers). In a READ no objects follow.
#[derive(Clone, Copy, Debug, PartialEq, Eq)]
pub struct Header<'a> {
    /// The objects' group.
    pub group: u8,
    /// The objects' variation.
    pub variation: u8,
    /// Which objects, or how many.
    pub range: Range,
    /// The octets of the objects, with their indexes where the range has any.
    pub octets: &'a [u8],
    /// The common time after which the objects' times are given, in ms: of 2.3 that of the last header
    /// before it in the fragment that has any, of others none.
    pub common: Option<u64>,
}

/// An octet is below 2^8, wherever it is read, and a slice has fewer than 2^63 of them.
pub(crate) fn a_slice_is_of_octets(octets: &[u8])
    ensures each { All (λ octet. octet < 2 ^ 8) octets.now }
    ensures few { length octets.now < 2 ^ 63 }
{}

impl<'a> Header<'a> {
    ghost use Rattle.std.specs.Prelude.{◌≡◌, ◌≤◌, ◌↔◌, ℕ, IsTrue, IsSome, IfSome, Some, slice_get};
    ghost use Rattle.dnp_objects.specs.Events.{IsEvent};
    ghost use Rattle.dnp_objects.specs.declared.row.Row.{Row as RowValue};
    ghost use Rattle.dnp_objects.specs.declared.command.Command.{Command as CommandValue};
    ghost use Rattle.dnp_appfragment.specs.Objects.{IsRow, IsCommand, HasRows, HasCommands};
    ghost use Rattle.dnp_appfragment.specs.EventRows.{header_rows, is_event_header};
    ghost use Rattle.dnp_appfragment.specs.Headers.{IsHeader, count_of, head_of};
    ghost use Rattle.dnp_appfragment.specs.Meaning.{row_in, command_in};
    ghost use Rattle.dnp_appfragment.specs.Table.{form_of};
    ghost use Rattle.dnp_appfragment.specs.Seen.{head};

    /// The header of this object and range, whose objects are these octets, without a common time.
    #[inline(always)]
    pub const fn new(group: u8, variation: u8, range: Range, octets: &'a [u8]) -> Header<'a>
        ensures value { head result ≡ head_of group variation range octets.now }
        ensures octets { result.octets ≡ octets.entry }
    {
        Header {
            group,
            variation,
            range,
            octets,
            common: None,
        }
    }

    /// How many objects the range names, 0 to 65,536; all is none. In a READ a count is the most
    /// that are asked for.
    pub fn count(&self) -> usize
        ensures value { result ≡ count_of self.now.range }
        ensures small { result ≤ 65536 }
    {
        count_of(self.range)
    }

    /// Whether the header can stand in a fragment of this function: the object takes its qualifier
    /// there, the range's stop is not under its start, its numbers fit in one octet where they are
    /// not wide, and the octets are as many as the range says.
    pub fn fits(&self, function: Function) -> bool
        ensures { IsTrue result ↔ IsHeader (form_of function) (head self.now) }
    {
        let form = form_of(function);
        let Some(takes) = takes_of(form, self.group, self.variation) else {
            return false;
        };
        let size = objects_size(form, self.group, self.variation, self.range);
        allows(takes, qualifier_of(self.range)) && is_range(self.range) && self.octets.len() == size
    }

    /// Whether its objects are events: those of the groups 2, 22 and 32.
    pub fn is_event(&self) -> bool
        ensures { result ≡ is_event_header (head self.now) }
    {
        matches!(self.group, 2 | 22 | 32)
    }

    /// Row k of the header, counted from 0, or `None` where there are fewer objects or octets, or
    /// the object is no row that is read. Its index is counted from the range's start, or stands
    /// before it. Packed bits, 1.1, are binaries with the flags 01. Octets after the row's are
    /// ignored.
    pub fn row(&self, k: usize) -> Option<Row>
        ensures value { result ≡ row_in (head self.now) k }
        ensures found { IfSome result (IsRow (head self.now) k) }
        ensures only { (row : RowValue) → IsRow (head self.now) k row → result ≡ Some row }
        // In a response each row that the range names is there.
        ensures there { HasRows (head self.now) → k < count_of self.now.range → IsSome result }
    {
        // (laws, for the proof: they do nothing)
        objects_say_rows_and_commands();
        what_is_there_is_said();
        a_slice_is_of_octets(self.octets);
        header_row_at(self, k)
    }

    /// The rows of the header, in order: as the k-th item it gives what `row(k)` gives, and it ends
    /// before the first k where that gives none. To go through all of them is quicker so. Each can be
    /// reported as an event.
    #[inline(always)]
    pub fn rows(&self) -> RowWalk<'a>
        ensures items { (k : ℕ) → slice_get result k ≡ row_in (head self.now) k }
        ensures few { length result ≤ count_of self.now.range }
        // In a response they are as many as the range names.
        ensures counted { HasRows (head self.now) → length result ≡ count_of self.now.range }
        ensures all { result ≡ header_rows (head self.now) }
        ensures events { All IsEvent result }
    {
        // (laws, for the proof: they do nothing)
        objects_say_rows_and_commands();
        rows_are_events();
        a_slice_is_of_octets(self.octets);
        RowWalk::new(self)
    }

    /// Command k of the header, counted from 0, with its status, or `None` where there are fewer
    /// objects or octets, or the object is no command.
    #[inline(always)]
    pub fn command(&self, k: usize) -> Option<(Command, Status)>
        ensures value { result ≡ command_in (head self.now) k }
        ensures found { IfSome result (IsCommand (head self.now) k) }
        ensures only { (answer : CommandValue × ℕ) → IsCommand (head self.now) k answer → result ≡ Some answer }
        // In any fragment each command that the range names is there.
        ensures there { HasCommands (head self.now) → k < count_of self.now.range → IsSome result }
    {
        command_at(self.group, self.variation, self.range, self.octets, k)
    }
}
