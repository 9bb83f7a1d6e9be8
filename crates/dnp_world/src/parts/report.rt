//! What became of all rows and commands.

ghost use Rattle.std.specs.Prelude.{◌≡◌, ◌≢◌, ◌++◌, ◌^◌, ◌-◌, ◌<◌, Err, IfOk, OnOk, length, map as all_of, min, take};
ghost use Rattle.dnp_concentrator.specs.PerCentre.{at, per_centre};
ghost use Rattle.dnp_eventbuf.specs.Sides.{ForEach};
ghost use Rattle.dnp_eventbuf.specs.EventBuffer.{lost_in};
ghost use Rattle.dnp_world.specs.Causes.{TellsDevice};
ghost use Rattle.dnp_world.specs.Kept.{lane_rows_of};
ghost use Rattle.dnp_world.specs.ReportShown.{AreById, IsDroppedOf, IsJournalOf, IsQueueOf, Shows, all_in, lists_of};
ghost use Rattle.dnp_world.specs.Stations.{listed_from};
ghost use Rattle.dnp_world.specs.SystemParts.{substation_of};
ghost use Rattle.dnp_world.specs.Systems.{at_substation};
ghost use Rattle.dnp_world.specs.Wholes.{seen_by};

use super::Parts;
use crate::reading::{
    all_rows, journal_rows, numbered_below, put_rows_of, queue_lost, queue_rows, rows_below,
};
use crate::report::Report;
use crate::stored::Stored;
use crate::substation::Substation;
use dnp_concentrator::{Cause, Listed};
use dnp_controls::Book;
use dnp_eventbuf::{CENTRES, JournalStore, Numbered, PairLanes};
use dnp_objects::{Command, Row};
use std::alloc::{AllocError, Global};

/// A list of rows for each centre.
type RowsForEach = (Listed<(u8, Row)>, Listed<(u8, Row)>);

/// How many substations a report can name: each number is an octet.
const NUMBERS: usize = 256;

/// A copy of the list.
fn copied<T: Copy>(alloc: Global, list: &[(u8, T)]) -> Result<Listed<(u8, T)>, AllocError>
    ensures { IfOk result (λ copy. copy ≡ list.now) }
{
    Ok(Listed::new(Vec::from_slice(alloc, list)?))
}

/// What a report reads of stores and lanes.
#[derive(Drop)]
struct StoredRows {
    journal: RowsForEach,
    queue: RowsForEach,
    buffered: Listed<(u8, Row)>,
}

/// Copies of the lists of what became of rows of substations.
#[derive(Drop)]
struct RowCopies {
    confirmed: Listed<(u8, Row)>,
    overwritten: Listed<(u8, Row)>,
    gone: Listed<(u8, Row)>,
}

/// Copies of the lists of what became of commands to substations.
#[derive(Drop)]
struct CommandCopies {
    issued: Listed<(u8, Command)>,
    operated: Listed<(u8, Command)>,
}

/// What a report reads of what became of rows and commands.
#[derive(Drop)]
struct Copies {
    dropped: RowsForEach,
    rows: RowCopies,
    commands: CommandCopies,
}

/// Puts the rows in the lanes of the substation of this number after the list, lane by lane.
fn put_buffered(
    alloc: Global,
    below: &mut Substation,
    substation: u8,
    list: &mut Vec<(u8, Row)>,
) -> Result<(), Cause>
    ensures same { substation_of below.new ≡ substation_of below.old }
    ensures rows { OnOk result (list.new.items ≡ list.old.items ++ at_substation substation (lane_rows_of (substation_of below.old))) }
    ensures named { result ≢ Err Cause.Exhausted }
    ensures device { result ≢ Err Cause.Device }
{
    let rows = all_rows(alloc, below.outstation.lanes())?;
    put_rows_of(list, substation, rows.as_slice())?;
    Ok(())
}

/// The rows in the lanes of the first substations, one after the other, as many as a report can name.
fn buffered_rows(alloc: Global, substations: &mut [Substation]) -> Result<Vec<(u8, Row)>, Cause>
    ensures same { all_of substation_of substations.new ≡ all_of substation_of substations.old }
    ensures rows { IfOk result (λ rows. rows.items ≡ listed_from lane_rows_of 0 (take NUMBERS (all_of substation_of substations.old))) }
    ensures named { result ≢ Err Cause.Exhausted }
    ensures device { result ≢ Err Cause.Device }
{
    let mut list = Vec::new(alloc);
    let count = substations.len().min(NUMBERS);
    for number in 0..count {
        put_buffered(alloc, &mut substations[number], number as u8, &mut list)?;
    }
    Ok(list)
}

impl<Q: PairLanes, J: JournalStore, A: Book, B: Book> Parts<Q, J, A, B> {
    /// The rows of the centre's journal, as they stand above.
    fn journal_for(&mut self, alloc: Global, centre: u8) -> Result<Vec<Numbered>, Cause>
        requires { centre < CENTRES }
        ensures held { ⟦<Self as Stored>⟧.well self.new → ⟦<Self as Stored>⟧.well self.old }
        ensures same { ⟦<Self as Stored>⟧.well self.new → self.new.system ≡ self.old.system }
        ensures rows { ⟦<Self as Stored>⟧.well self.new → IfOk result (λ rows. rows.items ≡ (seen_by centre self.old.system).centre.journal.rows) }
        ensures device { TellsDevice (⟦<Self as Stored>⟧.is_stopped self.old) (⟦<Self as Stored>⟧.is_stopped self.new) (result ≡ Err Cause.Device) }
        ensures named { result ≢ Err Cause.Exhausted }
    {
        let journal = self.centres.at_mut(centre).journal();
        journal_rows(alloc, journal)
    }

    /// The rows of the centre's journal.
    fn journal_below(&mut self, alloc: Global, centre: u8) -> Result<Vec<(u8, Row)>, Cause>
        requires { centre < CENTRES }
        ensures held { ⟦<Self as Stored>⟧.well self.new → ⟦<Self as Stored>⟧.well self.old }
        ensures same { ⟦<Self as Stored>⟧.well self.new → self.new.system ≡ self.old.system }
        ensures rows { ⟦<Self as Stored>⟧.well self.new → IfOk result (λ rows. IsJournalOf (seen_by centre self.old.system) rows.items) }
        ensures device { TellsDevice (⟦<Self as Stored>⟧.is_stopped self.old) (⟦<Self as Stored>⟧.is_stopped self.new) (result ≡ Err Cause.Device) }
        ensures named { result ≢ Err Cause.Exhausted }
    {
        let rows = self.journal_for(alloc, centre)?;
        Ok(numbered_below(alloc, &self.map, rows.as_slice())?)
    }

    /// The rows of the queue for the centre, by their ids, as they stand above.
    fn queue_for(&mut self, alloc: Global, centre: u8) -> Result<Vec<Numbered>, Cause>
        requires { centre < CENTRES }
        ensures held { ⟦<Self as Stored>⟧.well self.new → ⟦<Self as Stored>⟧.well self.old }
        ensures same { ⟦<Self as Stored>⟧.well self.new → self.new.system ≡ self.old.system }
        ensures rows { ⟦<Self as Stored>⟧.well self.new → IfOk result (λ rows. AreById (all_in (seen_by centre self.old.system).concentrator.queue) rows.items) }
        ensures device { TellsDevice (⟦<Self as Stored>⟧.is_stopped self.old) (⟦<Self as Stored>⟧.is_stopped self.new) (result ≡ Err Cause.Device) }
        ensures named { result ≢ Err Cause.Exhausted }
    {
        let queue = self.concentrator.queue();
        queue_rows(alloc, queue, centre)
    }

    /// The rows of the queue for the centre, by their ids.
    fn queue_below(&mut self, alloc: Global, centre: u8) -> Result<Vec<(u8, Row)>, Cause>
        requires { centre < CENTRES }
        ensures held { ⟦<Self as Stored>⟧.well self.new → ⟦<Self as Stored>⟧.well self.old }
        ensures same { ⟦<Self as Stored>⟧.well self.new → self.new.system ≡ self.old.system }
        ensures rows { ⟦<Self as Stored>⟧.well self.new → IfOk result (λ rows. IsQueueOf (seen_by centre self.old.system) rows.items) }
        ensures device { TellsDevice (⟦<Self as Stored>⟧.is_stopped self.old) (⟦<Self as Stored>⟧.is_stopped self.new) (result ≡ Err Cause.Device) }
        ensures named { result ≢ Err Cause.Exhausted }
    {
        let rows = self.queue_for(alloc, centre)?;
        Ok(numbered_below(alloc, &self.map, rows.as_slice())?)
    }

    /// How many rows the lanes of the queue for the centre count as lost.
    fn lost_for(&mut self, centre: u8) -> u64
        requires { centre < CENTRES }
        ensures same { self.new ≡ self.old }
        ensures value { ⟦<Self as Stored>⟧.well self.new → result ≡ min (lost_in (seen_by centre self.old.system).concentrator.queue) (2 ^ 64 - 1) }
    {
        let queue = self.concentrator.queue();
        queue_lost(queue, centre)
    }

    /// The rows of both centres' journals.
    fn journals_below(&mut self, alloc: Global) -> Result<RowsForEach, Cause>
        ensures held { ⟦<Self as Stored>⟧.well self.new → ⟦<Self as Stored>⟧.well self.old }
        ensures same { ⟦<Self as Stored>⟧.well self.new → self.new.system ≡ self.old.system }
        ensures rows { ⟦<Self as Stored>⟧.well self.new → IfOk result (λ lists. ForEach (λ centre. IsJournalOf (seen_by centre self.old.system) (at centre (per_centre lists)))) }
        ensures device { TellsDevice (⟦<Self as Stored>⟧.is_stopped self.old) (⟦<Self as Stored>⟧.is_stopped self.new) (result ≡ Err Cause.Device) }
        ensures named { result ≢ Err Cause.Exhausted }
    {
        let first = self.journal_below(alloc, 0)?;
        let second = self.journal_below(alloc, 1)?;
        Ok((Listed::new(first), Listed::new(second)))
    }

    /// The rows of the queue for each centre, by their ids.
    fn queues_below(&mut self, alloc: Global) -> Result<RowsForEach, Cause>
        ensures held { ⟦<Self as Stored>⟧.well self.new → ⟦<Self as Stored>⟧.well self.old }
        ensures same { ⟦<Self as Stored>⟧.well self.new → self.new.system ≡ self.old.system }
        ensures rows { ⟦<Self as Stored>⟧.well self.new → IfOk result (λ lists. ForEach (λ centre. IsQueueOf (seen_by centre self.old.system) (at centre (per_centre lists)))) }
        ensures device { TellsDevice (⟦<Self as Stored>⟧.is_stopped self.old) (⟦<Self as Stored>⟧.is_stopped self.new) (result ≡ Err Cause.Device) }
        ensures named { result ≢ Err Cause.Exhausted }
    {
        let first = self.queue_below(alloc, 0)?;
        let second = self.queue_below(alloc, 1)?;
        Ok((Listed::new(first), Listed::new(second)))
    }

    /// The rows that full lanes of the queue for each centre dropped.
    fn dropped_below(&self, alloc: Global) -> Result<RowsForEach, AllocError>
        ensures rows { IfOk result (λ lists. ForEach (λ centre. IsDroppedOf (seen_by centre self.now.system) (at centre (per_centre lists)))) }
        ensures counted { IfOk result (λ lists. ForEach (λ centre. length (at centre (per_centre lists)) < 2 ^ 64)) }
    {
        let first = rows_below(alloc, &self.map, self.history.dropped.first.as_slice())?;
        let second = rows_below(alloc, &self.map, self.history.dropped.second.as_slice())?;
        Ok((Listed::new(first), Listed::new(second)))
    }

    /// How many rows the lanes of the queue for each centre count as lost.
    fn lost_for_each(&mut self) -> (u64, u64)
        ensures same { self.new ≡ self.old }
        ensures value { ⟦<Self as Stored>⟧.well self.new → ForEach (λ centre.
            at centre (per_centre result) ≡ min (lost_in (seen_by centre self.old.system).concentrator.queue) (2 ^ 64 - 1)) }
    {
        (self.lost_for(0), self.lost_for(1))
    }

    /// The rows in the lanes of the first substations, as many as a report can name.
    fn buffered(&mut self, alloc: Global) -> Result<Listed<(u8, Row)>, Cause>
        ensures same { self.new ≡ self.old }
        ensures rows { IfOk result (λ rows. rows ≡ listed_from lane_rows_of 0 (take NUMBERS self.old.system.substations)) }
        ensures named { result ≢ Err Cause.Exhausted }
        ensures device { result ≢ Err Cause.Device }
    {
        let rows = buffered_rows(alloc, &mut self.substations)?;
        Ok(Listed::new(rows))
    }

    /// The rows of the journals and of the queue for each centre, and those in the lanes of substations.
    fn stored_below(&mut self, alloc: Global) -> Result<StoredRows, Cause>
        ensures held { ⟦<Self as Stored>⟧.well self.new → ⟦<Self as Stored>⟧.well self.old }
        ensures same { ⟦<Self as Stored>⟧.well self.new → self.new.system ≡ self.old.system }
        ensures journal { ⟦<Self as Stored>⟧.well self.new → IfOk result (λ stored. ForEach (λ centre. IsJournalOf (seen_by centre self.old.system) (at centre (per_centre stored.journal)))) }
        ensures queue { ⟦<Self as Stored>⟧.well self.new → IfOk result (λ stored. ForEach (λ centre. IsQueueOf (seen_by centre self.old.system) (at centre (per_centre stored.queue)))) }
        ensures buffered { IfOk result (λ stored. stored.buffered ≡ listed_from lane_rows_of 0 (take NUMBERS self.old.system.substations)) }
        ensures device { TellsDevice (⟦<Self as Stored>⟧.is_stopped self.old) (⟦<Self as Stored>⟧.is_stopped self.new) (result ≡ Err Cause.Device) }
        ensures named { result ≢ Err Cause.Exhausted }
    {
        let buffered = self.buffered(alloc)?;
        let journal = self.journals_below(alloc)?;
        let queue = self.queues_below(alloc)?;
        Ok(StoredRows {
            journal,
            queue,
            buffered,
        })
    }

    /// Copies of the lists of what became of rows of substations.
    fn row_copies(&self, alloc: Global) -> Result<RowCopies, AllocError>
        ensures confirmed { IfOk result (λ rows. rows.confirmed ≡ self.now.system.history.confirmed) }
        ensures overwritten { IfOk result (λ rows. rows.overwritten ≡ self.now.system.history.overwritten) }
        ensures gone { IfOk result (λ rows. rows.gone ≡ self.now.system.history.gone) }
    {
        Ok(RowCopies {
            confirmed: copied(alloc, self.history.confirmed.as_slice())?,
            overwritten: copied(alloc, self.history.overwritten.as_slice())?,
            gone: copied(alloc, self.history.gone.as_slice())?,
        })
    }

    /// Copies of the lists of what became of commands to substations.
    fn command_copies(&self, alloc: Global) -> Result<CommandCopies, AllocError>
        ensures issued { IfOk result (λ commands. commands.issued ≡ self.now.system.history.issued) }
        ensures operated { IfOk result (λ commands. commands.operated ≡ self.now.system.history.operated) }
    {
        Ok(CommandCopies {
            issued: copied(alloc, self.history.issued.as_slice())?,
            operated: copied(alloc, self.history.operated.as_slice())?,
        })
    }

    /// The rows that full lanes of the queue dropped, and copies of the lists of what became of rows and commands.
    fn copies(&self, alloc: Global) -> Result<Copies, AllocError>
        ensures dropped { IfOk result (λ copies. ForEach (λ centre. IsDroppedOf (seen_by centre self.now.system) (at centre (per_centre copies.dropped)))) }
        ensures counted { IfOk result (λ copies. ForEach (λ centre. length (at centre (per_centre copies.dropped)) < 2 ^ 64)) }
        ensures confirmed { IfOk result (λ copies. copies.rows.confirmed ≡ self.now.system.history.confirmed) }
        ensures overwritten { IfOk result (λ copies. copies.rows.overwritten ≡ self.now.system.history.overwritten) }
        ensures gone { IfOk result (λ copies. copies.rows.gone ≡ self.now.system.history.gone) }
        ensures issued { IfOk result (λ copies. copies.commands.issued ≡ self.now.system.history.issued) }
        ensures operated { IfOk result (λ copies. copies.commands.operated ≡ self.now.system.history.operated) }
    {
        let dropped = self.dropped_below(alloc)?;
        let rows = self.row_copies(alloc)?;
        let commands = self.command_copies(alloc)?;
        Ok(Copies {
            dropped,
            rows,
            commands,
        })
    }

    /// What became of all rows and commands so far.
    pub(crate) fn report(&mut self, alloc: Global) -> Result<Report, Cause>
        ensures held { ⟦<Self as Stored>⟧.well self.new → ⟦<Self as Stored>⟧.well self.old }
        ensures same { ⟦<Self as Stored>⟧.well self.new → self.new.system ≡ self.old.system }
        ensures shows { ⟦<Self as Stored>⟧.well self.new → IfOk result (λ report. ForEach (λ centre. Shows (seen_by centre self.old.system) (lists_of centre report))) }
        ensures counted { IfOk result (λ report. ForEach (λ centre. length (lists_of centre report).dropped < 2 ^ 64)) }
        ensures device { TellsDevice (⟦<Self as Stored>⟧.is_stopped self.old) (⟦<Self as Stored>⟧.is_stopped self.new) (result ≡ Err Cause.Device) }
        ensures named { result ≢ Err Cause.Exhausted }
    {
        let stored = self.stored_below(alloc)?;
        let copies = self.copies(alloc)?;
        let lost = self.lost_for_each();
        let StoredRows {
            journal,
            queue,
            buffered,
        } = stored;
        let Copies {
            dropped,
            rows,
            commands,
        } = copies;
        let RowCopies {
            confirmed,
            overwritten,
            gone,
        } = rows;
        let CommandCopies { issued, operated } = commands;
        Ok(Report {
            journal,
            queue,
            dropped,
            confirmed,
            buffered,
            overwritten,
            gone,
            issued,
            operated,
            lost,
        })
    }
}
