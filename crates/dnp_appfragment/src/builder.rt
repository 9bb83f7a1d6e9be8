//! Fragments that are built.

use crate::common::common_after;
use crate::control::Control;
use crate::function::Function;
use crate::header::Header;
use crate::iin::Iin;
use crate::points::Points;
use crate::putting::{
    header_size, push_front, push_header, push_run, range_size, write_front, write_number,
};
use crate::row_source::RowSource;
use crate::run::{Run, longer};
use crate::table::Form;
use crate::written::{Event, Indexed, Object, Point, span_of};
use arrayvec::ArrayVec;
use dnp_objects::laws::a_written_row_fills_its_object;
use dnp_objects::{Command, Kind, MAX_FRAGMENT, Row, Status, object_size, write_command};
use std::marker::Model;

mod events;
mod times;

/// There is no room in the 2,048 octets of a fragment.
#[derive(Clone, Copy, Debug, PartialEq, Eq, Hash)]
pub struct Full;

/// A fragment that is being built (IEEE Std 1815-2012, application layer), of at most 2,048 octets.
///
/// A clause sees its function, the headers that are ended, and the run: the header that the next
/// object may join.
#[derive(Debug, Drop)]
pub struct Builder {
    function: Function,
    /// The fragment so far: room for its front, and the headers with their objects as they are sent.
    octets: ArrayVec<u8, MAX_FRAGMENT>,
    /// How many octets the front and the ended headers have: there the run's header begins.
    ended: usize,
    run: Option<Run>,
    /// The common time that the headers so far leave.
    common: Option<u64>,
}

impl Model for Builder {
    ghost use Rattle.std.specs.Prelude.{◌≡◌};
    ghost use Rattle.dnp_appfragment.specs.Built.{Built, context_of};
    ghost use Rattle.dnp_appfragment.specs.steps.Building.{built_in, IsLaid};

    ghost Value = { Built };

    ghost view = { λ b. built_in b.function b.octets.items b.ended b.run };

    ghost invariant = { λ b. IsLaid b.function b.octets.items b.ended b.run
        × (b.common ≡ context_of (built_in b.function b.octets.items b.ended b.run)) };
}

impl Builder {
    ghost use Rattle.std.specs.Prelude.{◌≡◌, ◌≤◌, ◌<◌, ◌↔◌, ◌+◌, ◌-◌, ◌^◌, [], length, map, All, IsErr, IsSome, IsTrue, true, false, OnOk, OnErr, None};
    ghost use Rattle.std.specs.Borrow.{sem};
    ghost use Rattle.std.specs.Option.{IsSomeAnd};
    ghost use Rattle.dnp_objects.specs.Rows.{Fits};
    ghost use Rattle.dnp_appfragment.specs.steps.Building.{run_head};
    ghost use Rattle.dnp_appfragment.specs.steps.Spans.{row_head};
    ghost use Rattle.dnp_objects.specs.Objects.{object_size};
    ghost use Rattle.dnp_objects.specs.Events.{IsEvent};
    ghost use Rattle.dnp_appfragment.specs.Table as table;
    ghost use Rattle.dnp_appfragment.specs.Headers.{IsHeaderAt, NumbersFit, header_octets, is_common};
    ghost use Rattle.dnp_appfragment.specs.Seen.{head};
    ghost use Rattle.dnp_appfragment.specs.Built as built;
    ghost use Rattle.dnp_appfragment.specs.Lending.{StaysAsItWas};
    ghost use Rattle.dnp_appfragment.specs.Written as written;
    ghost use Rattle.dnp_appfragment.specs.Fragments.{IsRequest, IsResponse, request_octets, response_octets};

    /// A fragment of this function without headers. `is_response` tells a response's function from
    /// a request's.
    pub fn new(function: Function, is_response: bool) -> Builder
        requires { table.is_response function ≡ is_response }
        ensures { result ≡ record { function = function; ended = []; run = None } }
    {
        let mut octets = ArrayVec::new();
        let ended = push_front(&mut octets, is_response);
        Builder {
            function,
            octets,
            ended,
            run: None,
            common: None,
        }
    }

    /// Starts over, with a fragment of this function without headers, as `new` makes one: so that one
    /// builder serves for many fragments.
    pub fn restart(&mut self, function: Function, is_response: bool)
        requires { table.is_response function ≡ is_response }
        ensures { self.new ≡ record { function = function; ended = []; run = None } }
    {
        self.break_run();
        self.function = function;
        self.common = None;
        self.octets.clear();
        self.ended = push_front(&mut self.octets, is_response);
    }

    /// How many octets still fit into the fragment's 2,048, of which its front has 2, or in a response
    /// 4.
    pub fn left(&self) -> usize
        ensures { result + built.size self.now ≡ MAX_FRAGMENT }
    {
        MAX_FRAGMENT - self.octets.len()
    }

    /// Ends the last header: the next object begins a new one.
    pub fn break_run(&mut self)
        ensures { self.new ≡ built.broken self.old }
    {
        self.ended = self.octets.len();
        self.run = None;
    }

    /// Puts a header with its objects, which no object joins. `Header::fits` is the test of what is
    /// required. Full, where the fragment would pass 2,048 octets; nothing is put then.
    pub fn header(&mut self, header: &Header<'_>) -> Result<(), Full>
        requires { IsHeaderAt (table.form_of self.old.function) (built.context_of self.old) (head header.now) }
        ensures ok { OnOk result (self.new ≡ built.with_header self.old (head header.now)) }
        ensures full { IsErr result ↔ (MAX_FRAGMENT < built.size (built.with_header self.old (head header.now))) }
        ensures err { OnErr result (self.new ≡ self.old) }
        ensures function { self.new.function ≡ self.old.function }
    {
        let size = header_size(header);
        if self.left() < size {
            return Err(Full);
        }
        self.break_run();
        self.common = common_after(self.common, header);
        push_header(&mut self.octets, header);
        self.ended += size;
        Ok(())
    }

    /// Puts an object, which comes as a header of its own. Its octets are written where they stay. It
    /// stands in its callers, since each puts another object.
    #[inline(always)]
    fn put<O: Object + Copy>(&mut self, object: &O) -> Result<(), Full>
        requires can { O.can_put object.now }
        requires fits { NumbersFit (O.head object.now).range
            → IsHeaderAt (table.form_of self.old.function) (built.context_of self.old) (O.head object.now) }
        requires other { is_common (O.head object.now) ≡ false }
        requires sized { IsSome (object_size (O.head object.now).group (O.head object.now).variation) }
        ensures ok { OnOk result (self.new ≡ built.with_object self.old (O.head object.now)) }
        ensures full { IsErr result ↔ (MAX_FRAGMENT < built.size (built.with_object self.old (O.head object.now))) }
        ensures err { OnErr result (self.new ≡ self.old) }
        ensures function { self.new.function ≡ self.old.function }
    {
        let begun = object.run();
        let size = object.size();
        match longer(self.run, begun) {
            Some(longer) => {
                if self.left() < size {
                    return Err(Full);
                }
                object.append(&mut self.octets);
                let (place, number) = longer.end();
                write_number(&mut self.octets, self.ended + 3 + place, number);
                self.run = Some(longer);
                Ok(())
            }
            None => {
                // (a copy, so that the object itself needs no address)
                let object = *object;
                self.begin(&object)
            }
        }
    }

    /// Puts an object as a header of its own, which the next one may join. It stands apart from `put`,
    /// since most objects join.
    #[inline(never)]
    fn begin<O: Object>(&mut self, object: &O) -> Result<(), Full>
        requires can { O.can_put object.now }
        requires fits { NumbersFit (O.head object.now).range
            → IsHeaderAt (table.form_of self.old.function) (built.context_of self.old) (O.head object.now) }
        requires other { is_common (O.head object.now) ≡ false }
        ensures ok { OnOk result (self.new ≡ built.with_run self.old None (O.head object.now)) }
        ensures full { IsErr result ↔ (MAX_FRAGMENT < built.size self.old + length (header_octets (O.head object.now))) }
        ensures err { OnErr result (self.new ≡ self.old) }
        ensures function { self.new.function ≡ self.old.function }
    {
        let begun = object.run();
        let size = object.size();
        if self.left() < 3 + range_size(begun.range) + size {
            return Err(Full);
        }
        self.break_run();
        push_run(&mut self.octets, begun);
        object.append(&mut self.octets);
        self.run = Some(begun);
        Ok(())
    }

    /// Puts a row into a response as an event: with a time as 2.2, 22.5 or 32.3, and else as 2.1,
    /// 22.1 or 32.1, after its index. It joins the header before it, where that is of the same
    /// object and no `break_run` came between. `dnp_objects::is_event` is the test of what the row has to
    /// be.
    ///
    /// Full, where the fragment would pass 2,048 octets; nothing is put then.
    #[inline(always)]
    pub fn event(&mut self, row: &Row) -> Result<(), Full>
        requires response { IsTrue (table.is_response self.old.function) }
        requires fits { IsEvent row.now }
        ensures ok { OnOk result (self.new ≡ built.with_object self.old (written.event row.now)) }
        ensures full { IsErr result ↔ (MAX_FRAGMENT < built.size (built.with_object self.old (written.event row.now))) }
        ensures err { OnErr result (self.new ≡ self.old) }
        ensures function { self.new.function ≡ self.old.function }
    {
        // (a law, for the proof: it does nothing)
        a_written_row_fills_its_object();
        match (row.kind, row.time) {
            (Kind::Binary, Some(_)) => self.put(&Event::<2, 2> { row }),
            (Kind::Binary, None) => self.put(&Event::<2, 1> { row }),
            (Kind::Counter, Some(_)) => self.put(&Event::<22, 5> { row }),
            (Kind::Counter, None) => self.put(&Event::<22, 1> { row }),
            (Kind::Analog, Some(_)) => self.put(&Event::<32, 3> { row }),
            (Kind::Analog, None) => self.put(&Event::<32, 1> { row }),
        }
    }

    /// Puts a row into a response as a present value, as this object: 1.2, 10.2, 20.1 or 30.1, in a
    /// range of indexes. It joins the header before it, where that is of the same object, ends at
    /// the index before it, and no `break_run` came between. `fits_point` is the test of what object
    /// and row have to be.
    ///
    /// Full, where the fragment would pass 2,048 octets; nothing is put then.
    pub fn point(&mut self, group: u8, variation: u8, row: &Row) -> Result<(), Full>
        requires response { IsTrue (table.is_response self.old.function) }
        requires fits { written.FitsPoint group variation row.now }
        ensures ok { OnOk result (self.new ≡ built.with_object self.old (written.point group variation row.now)) }
        ensures full { IsErr result ↔ (MAX_FRAGMENT < built.size (built.with_object self.old (written.point group variation row.now))) }
        ensures err { OnErr result (self.new ≡ self.old) }
        ensures function { self.new.function ≡ self.old.function }
    {
        // (a law, for the proof: it does nothing)
        a_written_row_fills_its_object();
        self.put(&Point {
            group,
            variation,
            row: *row,
        })
    }

    /// How many octets of objects fit into the fragment where an object of this run is put: under the
    /// last header, if it joins that, or else under a new one.
    fn room_for(&self, object: Run) -> usize
        ensures { result ≡ MAX_FRAGMENT - built.size (built.with_object self.now (run_head [] object)) }
    {
        match longer(self.run, object) {
            Some(_) => self.left(),
            None => self.left().saturating_sub(3 + range_size(object.range)),
        }
    }

    /// Puts rows as present values of this object, as many as fit; answers how many.
    #[inline(always)]
    fn put_points<R: RowSource + Copy, const GROUP: u8, const VARIATION: u8>(
        &mut self,
        first: u16,
        rows: R,
    ) -> usize
        requires response { IsTrue (table.is_response self.old.function) }
        requires object { table.IsInTable Form.Response GROUP VARIATION 1 }
        requires sized { IsSomeAnd (object_size GROUP VARIATION) (λ size. 1 ≤ size) }
        requires fits { All (Fits GROUP VARIATION) (R.rows rows) }
        requires in_order { written.InOrder first (R.rows rows) }
        requires narrow { first + length (R.rows rows) ≤ 2 ^ 16 }
        ensures count { result ≡ built.objects_put self.old (map (row_head GROUP VARIATION) (R.rows rows)) }
        ensures few { result ≤ length (R.rows rows) }
        ensures put { self.new ≡ built.with_objects self.old (map (row_head GROUP VARIATION) (R.rows rows)) }
        ensures function { self.new.function ≡ self.old.function }
    {
        // (a law, for the proof: it does nothing)
        a_written_row_fills_its_object();
        let begun = Run {
            group: GROUP,
            variation: VARIATION,
            range: span_of(first, first),
            common: None,
        };
        let size = object_size(GROUP, VARIATION).unwrap();
        let count = rows.len().min(self.room_for(begun) / size);
        if count == 0 {
            return 0;
        }
        let last = first + (count - 1) as u16;
        let points = Points::<R, GROUP, VARIATION> {
            rows: &rows,
            count,
            first,
            last,
        };
        self.put(&points).unwrap();
        count
    }

    /// Puts rows of consecutive indexes into a response as present values, as this object, one by one as
    /// `point` puts them, up to the first that does not fit; answers how many are put. `first` is the
    /// index of the first row.
    pub fn points<R: RowSource + Copy>(
        &mut self,
        group: u8,
        variation: u8,
        first: u16,
        rows: R,
    ) -> usize
        requires response { IsTrue (table.is_response self.old.function) }
        requires fits { All (written.FitsPoint group variation) (R.rows rows) }
        requires in_order { written.InOrder first (R.rows rows) }
        requires narrow { first + length (R.rows rows) ≤ 2 ^ 16 }
        ensures count { result ≡ built.objects_put self.old (map (written.point group variation) (R.rows rows)) }
        ensures few { result ≤ length (R.rows rows) }
        ensures put { self.new ≡ built.with_objects self.old (map (written.point group variation) (R.rows rows)) }
        ensures function { self.new.function ≡ self.old.function }
    {
        // (each by its numbers in the type, so that the compiler knows how many octets an object has)
        if group == 1 && variation == 2 {
            self.put_points::<R, 1, 2>(first, rows)
        } else if group == 10 && variation == 2 {
            self.put_points::<R, 10, 2>(first, rows)
        } else if group == 20 && variation == 1 {
            self.put_points::<R, 20, 1>(first, rows)
        } else if group == 30 && variation == 1 {
            self.put_points::<R, 30, 1>(first, rows)
        } else {
            0
        }
    }

    /// Puts a command with its status, after its index, into a fragment that carries commands:
    /// 12.1, 41.1 or 41.2. It joins the header before it, where that is of the same object and no
    /// `break_run` came between. `Function::carries_commands` is the test of what the function has
    /// to be.
    ///
    /// Full, where the fragment would pass 2,048 octets; nothing is put then.
    pub fn command(&mut self, command: &Command, status: Status) -> Result<(), Full>
        requires carries { IsTrue (built.carries_commands self.old.function) }
        ensures ok { OnOk result (self.new ≡ built.with_object self.old (written.order command.now status)) }
        ensures full { IsErr result ↔ (MAX_FRAGMENT < built.size (built.with_object self.old (written.order command.now status))) }
        ensures err { OnErr result (self.new ≡ self.old) }
        ensures function { self.new.function ≡ self.old.function }
    {
        let (group, variation) = command.object();
        let octets = write_command(command, status);
        self.put(&Indexed {
            group,
            variation,
            index: command.index(),
            octets: &octets,
        })
    }

    /// The fragment with this control octet and, in a response, these internal indications.
    pub fn finish(mut self, control: Control, iin: Iin) -> ArrayVec<u8, MAX_FRAGMENT>
        ensures request { table.is_response self.function ≡ false → IsRequest result.items (built.asked self control) }
        ensures request_octets { table.is_response self.function ≡ false
            → result.items ≡ request_octets (built.asked self control) }
        ensures response { table.is_response self.function ≡ true → IsResponse result.items (built.answered self control iin) }
        ensures response_octets { table.is_response self.function ≡ true
            → result.items ≡ response_octets (built.answered self control iin) }
    {
        write_front(&mut self.octets, control, self.function, iin);
        self.octets
    }

    /// Lends the fragment with this control octet and, in a response, these internal indications. The
    /// builder stays as it was: more may be put into it, or it is started over.
    pub fn fragment(&mut self, control: Control, iin: Iin) -> &[u8]
        ensures* stays { sem 𝓛 (StaysAsItWas self.entry) }
        ensures request { table.is_response self.old.function ≡ false → IsRequest result.now (built.asked self.old control) }
        ensures request_octets { table.is_response self.old.function ≡ false
            → result.now ≡ request_octets (built.asked self.old control) }
        ensures response { table.is_response self.old.function ≡ true
            → IsResponse result.now (built.answered self.old control iin) }
        ensures response_octets { table.is_response self.old.function ≡ true
            → result.now ≡ response_octets (built.answered self.old control iin) }
    {
        write_front(&mut self.octets, control, self.function, iin);
        &self.octets
    }
}
