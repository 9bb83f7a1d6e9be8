//! A fragment that is written, item by item, as far as they fit.

ghost use Rattle.std.specs.Prelude.{◌≡◌, ◌<◌, false, true, IsTrue};
ghost use Rattle.dnp_appfragment.specs.Table.{is_response};
ghost use Rattle.dnp_appfragment.specs.Written.{FitsPoint};
ghost use Rattle.dnp_outstation.specs.Items.{first_place, event_of, present_of, passed, place_after};
ghost use Rattle.dnp_appfragment.specs.declared.function.Function.TheVariants as function;
ghost use Rattle.dnp_outstation.specs.steps.Filling.{put, fits, ended, empty_from, empty_for, is_same_run};

use crate::offer::grouping::Waiting;
use crate::offer::place::ReadPlace;
use dnp_appfragment::{Builder, Function};
use dnp_eventbuf::Numbered;
use dnp_objects::{LANES, Row};

/// What stands under the last header of the fragment.
#[derive(Clone, Copy, Debug)]
pub enum Run {
    NoRun,
    /// Events of the lane of this number, their times told after this common time, if there is one.
    OfLane(usize, Option<u64>),
    /// Present values of this header of the READ, this group and this block.
    OfBlock(usize, u8, usize),
}

impl Run {
    /// Whether events of this lane stand there, their times told after this common time or none.
    pub(crate) fn is_lane(&self, lane: usize, common: Option<u64>) -> bool
        ensures { result ≡ is_same_run self.now (Run.OfLane lane common) }
    {
        match self {
            Run::OfLane(other, after) => *other == lane && *after == common,
            Run::NoRun => false,
            Run::OfBlock(_, _, _) => false,
        }
    }

    /// Whether present values of this header of the READ, this group and this block stand there.
    pub(crate) fn is_block(&self, header: usize, group: u8, block: usize) -> bool
        ensures { result ≡ is_same_run self.now (Run.OfBlock header group block) }
    {
        match self {
            Run::OfBlock(h, g, b) => *h == header && (*g == group && *b == block),
            Run::NoRun => false,
            Run::OfLane(_, _) => false,
        }
    }
}

/// A fragment so far: its headers, what stands under the last one, where the READ has come to, of each lane
/// the last id in it, and the rows that wait to be put.
#[derive(Debug, Drop)]
pub struct Writer {
    pub builder: Builder,
    pub run: Run,
    pub place: ReadPlace,
    pub upto: [u64; LANES],
    pub waiting: Waiting,
}

impl ReadPlace {
    /// One item more of this header was given.
    fn pass(&mut self, header: usize)
        ensures { self.new ≡ passed self.old header }
    {
        let before = if self.header == header { self.count } else { 0 };
        self.header = header;
        self.count = before.saturating_add(1);
    }

    /// A row of a lane was given for this header.
    pub(crate) fn pass_event(&mut self, header: usize, lane: usize, x: &Numbered)
        requires { lane < LANES }
        ensures { self.new ≡ place_after self.old (event_of header lane x.now) }
    {
        self.pass(header);
        self.given[lane] = x.id;
    }
}

impl Writer {
    /// An empty fragment of a response, for a READ that begins.
    pub(crate) fn new() -> Writer
        ensures { result ≡ empty_from first_place }
    {
        Writer {
            builder: Builder::new(Function::Response, true),
            run: Run::NoRun,
            place: ReadPlace {
                header: 0,
                count: 0,
                given: [0; LANES],
            },
            upto: [0; LANES],
            waiting: Waiting::Nothing,
        }
    }

    /// Starts over, with an empty fragment of this function for what has come to this place.
    fn begin(&mut self, function: Function, place: ReadPlace)
        requires { is_response function ≡ true }
        ensures { self.new ≡ empty_for function place }
    {
        self.builder.restart(function, true);
        self.run = Run::NoRun;
        self.place = place;
        self.upto = [0; LANES];
        self.waiting = Waiting::Nothing;
    }

    /// Starts over, with an empty fragment for a READ that has come to this place: so that one writer
    /// serves for many fragments.
    pub(crate) fn restart(&mut self, place: ReadPlace)
        ensures { self.new ≡ empty_from place }
    {
        self.begin(Function::Response, place);
    }

    /// Starts over, with an empty unsolicited response.
    pub(crate) fn restart_unsolicited(&mut self)
        ensures { self.new ≡ empty_for function.UnsolicitedResponse first_place }
    {
        let place = ReadPlace {
            header: 0,
            count: 0,
            given: [0; LANES],
        };
        self.begin(Function::UnsolicitedResponse, place);
    }

    /// Puts a present value as this object, by group and variation, if it fits; answers whether it does.
    #[tactic(auto, using(crate::proofs::OfferLemmas::heads_broken))]
    pub(crate) fn put_present(
        &mut self,
        header: usize,
        object: (u8, u8),
        block: usize,
        row: &Row,
    ) -> bool
        requires response { IsTrue (is_response self.old.builder.function) }
        requires fits { FitsPoint object.0 object.1 row.now }
        ensures fits { IsTrue result → self.new ≡ put self.old (present_of header (record { object = object; block = block; row = row.now })) }
        ensures room { result ≡ fits (put self.old (present_of header (record { object = object; block = block; row = row.now }))) }
        ensures full { result ≡ false → ended false self.new ≡ ended false self.old }
        ensures response { self.new.builder.function ≡ self.old.builder.function }
        ensures given { self.new.place.given ≡ self.old.place.given }
        ensures waiting { self.new.waiting ≡ self.old.waiting }
    {
        let (group, variation) = object;
        let joins = self.run.is_block(header, group, block);
        if !joins {
            self.builder.break_run();
        }
        if self.builder.point(group, variation, row).is_err() {
            return false;
        }
        if !joins {
            self.run = Run::OfBlock(header, group, block);
        }
        self.place.pass(header);
        true
    }
}
