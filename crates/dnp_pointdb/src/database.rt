//! The points of a station, by kind and index.

ghost use Rattle.std.specs.Prelude.{◌≡◌, ◌≤◌, true, OnErr, IfOk, IfErr, IfSome, Ok, Err, map};
ghost use Rattle.std.specs.Option.{option_map};
ghost use Rattle.dnp_objects.specs.Events.{IsEvent};
ghost use Rattle.dnp_pointdb.specs.declared.fault.ChangeFault.{ChangeFault as FaultValue};
ghost use Rattle.dnp_pointdb.specs.PointPlaces.{IsPlace};
ghost use Rattle.dnp_pointdb.specs.Database as spec;
ghost use Rattle.dnp_pointdb.specs.Plan as plan_words;
ghost use Rattle.dnp_pointdb.specs.Ranges.{is_in_range};
ghost use Rattle.dnp_pointdb.specs.Sound.{IsSoundDatabase, IsSoundPoint, AreSoundBlocks};

use crate::bank::Bank;
use crate::fault::ChangeFault;
use crate::place::PointPlace;
use crate::plan::PointPlan;
use crate::reading::Reading;
use crate::state::{BlockState, PointState};
use dnp_objects::{CLASSES, KINDS, Kind, LaneRow};
use std::alloc::{AllocError, Global};
use std::marker::Model;

/// The points of a plan with their last readings and their last reports (IEEE Std 1815-2012,
/// application layer: event classes, deadbands; object library: flags). It decides which changes
/// are events.
///
/// A point is looked up by a search among the blocks of its kind, in logarithmic time. Only `new`
/// allocates. A clause sees the blocks of each kind with the states of their points.
#[derive(Debug)]
pub struct PointDb {
    /// The points of each kind, by the kind's number.
    banks: [Bank; KINDS],
}

impl Model for PointDb {
    ghost use Rattle.dnp_pointdb.specs.Database.{Database};
    ghost use Rattle.dnp_pointdb.specs.Sound.{IsSoundDatabase};

    ghost Value = { Database };

    ghost view = { λ database. record { banks = database.banks } };

    ghost invariant = { λ database. IsSoundDatabase (record { banks = database.banks }) };
}

impl Drop for PointDb {
    /// One call for whoever lets it go: its parts are looked at here alone.
    fn drop(self) {
        let PointDb { banks: _ } = self;
    }
}

impl PointDb {
    ghost use Rattle.dnp_pointdb.specs.Database as spec;
    ghost use Rattle.dnp_pointdb.specs.Plan.{Plan};

    /// The points of the plan, of which nothing was read: each reading and each last report has the
    /// value 0 and the flags 02 (RESTART), and no time. An error says that it ran out of memory.
    pub fn new(alloc: Global, plan: PointPlan) -> Result<PointDb, AllocError>
        ensures value { IfOk result (λ database. database ≡ spec.new_database plan) }
        ensures sound { IfOk result IsSoundDatabase }
    {
        let banks = [
            bank_of(alloc, &plan, Kind::Binary)?,
            bank_of(alloc, &plan, Kind::Counter)?,
            bank_of(alloc, &plan, Kind::Analog)?,
        ];
        Ok(PointDb { banks })
    }

    /// The points of a kind.
    fn bank(&self, kind: Kind) -> &Bank
        ensures value { result.now ≡ spec.blocks_of self.now kind }
        ensures sound { IsSoundDatabase self.now }
    {
        &self.banks[kind.number()]
    }

    /// The blocks of a kind, in the plan's order, as they stand. Each has at most 1,024 points,
    /// whose readings are in range and whose indices are below 65,536, and no two share an index.
    pub fn blocks(&self, kind: Kind) -> &[BlockState]
        ensures value { result.now ≡ spec.blocks_of self.now kind }
        ensures sound { IsSoundDatabase self.now }
        ensures sound_blocks { AreSoundBlocks kind result.now }
    {
        self.bank(kind).blocks()
    }

    /// The point of this kind and index as it stands, if the plan has it.
    pub fn state(&self, kind: Kind, index: u16) -> Option<PointState>
        ensures value { result ≡ spec.state_at self.now kind index }
        ensures sound { IsSoundDatabase self.now }
        ensures sound_point { IfSome result (IsSoundPoint kind) }
    {
        self.bank(kind).state(index)
    }

    /// The last reading of the point, if the plan has it. It is in range: `change` and `set` would
    /// take it.
    pub fn reading(&self, kind: Kind, index: u16) -> Option<Reading>
        ensures value { result
            ≡ option_map (λ state. state.reading) (spec.state_at self.now kind index) }
        ensures in_range { IfSome result (λ reading. is_in_range kind reading ≡ true) }
    {
        self.state(kind, index).map(|state| state.reading)
    }

    /// The class of the point, 0 to 3, if the plan has it.
    pub fn class_of(&self, kind: Kind, index: u16) -> Option<u8>
        ensures value { result
            ≡ option_map (λ state. state.point.class) (spec.state_at self.now kind index) }
        ensures highest { IfSome result (λ class. class ≤ CLASSES) }
    {
        self.state(kind, index).map(|state| state.point.class)
    }

    /// What `change` answers, with nothing changed: the row that it makes, or none.
    pub fn would(
        &self,
        kind: Kind,
        index: u16,
        reading: Reading,
    ) -> Result<Option<LaneRow>, ChangeFault>
        ensures answer { result ≡ spec.answer_of self.now kind index reading }
        ensures carried { IfOk result (λ made. IfSome made (λ x.
            (x.row.kind ≡ x.lane.kind) × IsEvent x.row)) }
        ensures fault { IfErr result (spec.IsFirst self.now kind index reading) }
        ensures only_fault { (fault : FaultValue) → spec.IsFirst self.now kind index reading fault
            → result ≡ Err fault }
        ensures sound { IsSoundDatabase self.now }
    {
        self.bank(kind).would(kind, index, reading)
    }

    /// Where the point stands, if `change` would take the reading, or what it refuses it with.
    pub fn check(&self, kind: Kind, index: u16, reading: Reading) -> Result<PointPlace, ChangeFault>
        ensures place { IfOk result (IsPlace self.now kind index) }
        ensures in_range { IfOk result (λ _. is_in_range kind reading ≡ true) }
        ensures fault { IfErr result (λ fault. spec.answer_of self.now kind index reading ≡ Err fault) }
    {
        self.bank(kind).check(kind, index, reading)
    }

    /// What `change` answers for the point that `check` has found, with nothing changed.
    pub fn event_at(
        &self,
        at: PointPlace,
        kind: Kind,
        index: u16,
        reading: Reading,
    ) -> Option<LaneRow>
        requires place { IsPlace self.now kind index at }
        requires in_range { is_in_range kind reading ≡ true }
        ensures answer { spec.answer_of self.now kind index reading ≡ Ok result }
        ensures carried { IfSome result (λ x. (x.row.kind ≡ x.lane.kind) × IsEvent x.row) }
    {
        self.bank(kind).event_at(at, kind, index, reading)
    }

    /// Changes the point that `check` has found, as `change` does; `made` is what `event_at` answers for it.
    pub fn change_at(
        &mut self,
        at: PointPlace,
        kind: Kind,
        index: u16,
        reading: Reading,
        made: &Option<LaneRow>,
    )
        requires place { IsPlace self.old kind index at }
        requires in_range { is_in_range kind reading ≡ true }
        requires made { spec.answer_of self.old kind index reading ≡ Ok made.now }
        ensures after { self.new ≡ spec.changed_of self.old kind index reading }
        ensures sound { IsSoundDatabase self.new }
    {
        self.banks[kind.number()].change_at(at, kind, index, reading, made);
    }

    /// Takes in a new reading of a point, and answers the event that it is, with its lane, or none.
    ///
    /// It is an event if the point has class 1, 2 or 3, and either the flags differ from those last
    /// reported or the value differs from the one last reported by more than the deadband. Then it
    /// is the last report from now on, and may be appended to its lane. The reading becomes the
    /// point's either way.
    ///
    /// Refused is, first of all, a point that the plan lacks (`NoPoint`), then a value or flags
    /// that no object of the kind can carry (`ValueRange`: a binary other than 0 or 1, or with bit 7
    /// in its flags, a counter outside 0 to 2^32 - 1, an analog outside -2^31 to 2^31 - 1), and then
    /// a time of 2^48 ms or more (`TimeRange`). After a refusal nothing has changed.
    pub fn change(
        &mut self,
        kind: Kind,
        index: u16,
        reading: Reading,
    ) -> Result<Option<LaneRow>, ChangeFault>
        ensures answer { result ≡ spec.answer_of self.old kind index reading }
        ensures carried { IfOk result (λ made. IfSome made (λ x.
            (x.row.kind ≡ x.lane.kind) × IsEvent x.row)) }
        ensures after { self.new ≡ spec.changed_of self.old kind index reading }
        ensures fault { IfErr result (spec.IsFirst self.old kind index reading) }
        ensures only_fault { (fault : FaultValue) → spec.IsFirst self.old kind index reading fault
            → result ≡ Err fault }
        ensures err { OnErr result (self.new ≡ self.old) }
        ensures sound { IsSoundDatabase self.new }
    {
        self.banks[kind.number()].change(kind, index, reading)
    }

    /// Takes in a new reading of a point that is no event: the last report stays. The refusals are
    /// those of `change`.
    pub fn set(&mut self, kind: Kind, index: u16, reading: Reading) -> Result<(), ChangeFault>
        ensures answer { result ≡ spec.set_answer_of self.old kind index reading }
        ensures after { self.new ≡ spec.set_of self.old kind index reading }
        ensures fault { IfErr result (spec.IsFirst self.old kind index reading) }
        ensures only_fault { (fault : FaultValue) → spec.IsFirst self.old kind index reading fault
            → result ≡ Err fault }
        ensures err { OnErr result (self.new ≡ self.old) }
        ensures sound { IsSoundDatabase self.new }
    {
        self.banks[kind.number()].set(kind, index, reading)
    }

    /// The device after a block can't be reached: in the block with this number in the plan, from
    /// 0, of each kind that has one, each reading loses the flag ONLINE and gets COMM_LOST. The
    /// last reports stay.
    pub fn mark_lost(&mut self, block: usize)
        ensures after { self.new ≡ spec.lost_of self.old block }
        ensures sound { IsSoundDatabase self.new }
    {
        lose_in(&mut self.banks, block);
    }

    /// Sets each reading and each last report back to the value 0 with the flags 02 (RESTART) and
    /// no time.
    pub fn restart(&mut self)
        ensures after { self.new ≡ spec.restarted self.old }
        ensures sound { IsSoundDatabase self.new }
    {
        restart_each(&mut self.banks);
    }
}

/// The points of this kind of the plan, of which nothing was read.
fn bank_of(alloc: Global, plan: &PointPlan, kind: Kind) -> Result<Bank, AllocError>
    ensures { IfOk result (λ bank. bank ≡ map spec.new_block (plan_words.blocks_of plan.now kind)) }
{
    Bank::new(alloc, plan.blocks(kind))
}

/// The communication of the block with this number was lost, in each bank that has one.
fn lose_in(banks: &mut [Bank; KINDS], number: usize)
    ensures { banks.new ≡ map (λ blocks. spec.updated spec.lost_block blocks number) banks.old }
{
    for bank in banks {
        bank.lose(number);
    }
}

/// Nothing was read of any point of the banks.
fn restart_each(banks: &mut [Bank; KINDS])
    ensures { banks.new ≡ map (map spec.restarted_block) banks.old }
{
    for bank in banks {
        bank.restart();
    }
}
