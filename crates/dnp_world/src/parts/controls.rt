//! A control on its way from a centre to its substation, over quiet links.

ghost use Rattle.std.specs.Prelude.{◌≡◌, ◌≢◌, ◌⊎◌, ◌<◌, ◌-◌, [], true, false, Err, IfErr, IfOk, IfSome, IsTrue, OnOk, Some, ℕ};
ghost use Rattle.std.specs.Option.{option_and_then, option_map};
ghost use Rattle.dnp_controls.specs.Book.{next_of, rows_of};
ghost use Rattle.dnp_objects.specs.Status.{success};
ghost use Rattle.dnp_world.specs.Carriers.{TellsDeviceOver};
ghost use Rattle.dnp_world.specs.Causes.{TellsDevice};
ghost use Rattle.dnp_world.specs.Centres.{HappensToAll, centre_of, has_link, is_quiet_on, is_there, may_stop, seen_at};
ghost use Rattle.dnp_world.specs.declared.event.Link.TheVariants as link;
ghost use Rattle.dnp_world.specs.steps.ControlSteps.{EndsControlBy};
ghost use Rattle.dnp_world.specs.Controls.{ControlEnds, IsAccepted, IsControlFor, IsRefusedFor, IsRefusedOn, IsTold, Passes, PassesBack, StopsBack, StopsFor, StopsOn, StopsRelaying, are_quiet_for, first_with, found_in, is_free_below, is_next_for, next_below, substation_in, status_in, status_on};
ghost use Rattle.dnp_world.specs.Wholes.{seen_by};

use super::Parts;
use crate::carrier::Carrier;
use crate::event::{Event, Link};
use crate::link_event::Way;
use crate::round_fault::ControlFault;
use crate::stored::Stored;
use dnp_concentrator::Cause;
use dnp_controls::{Book, Entry, State};
use dnp_eventbuf::{CENTRES, JournalStore, PairLanes};
use dnp_objects::Status;
use std::alloc::Global;

/// The target of all controls in a centre's book: the station below.
const STATION_BELOW: u8 = 0;

/// The first of the rows, if it is the entry of this id.
fn first_with(rows: &[Entry], id: u64) -> Option<Entry>
    ensures { result ≡ first_with id rows.now }
{
    let entry = rows.first()?;
    if entry.id == id { Some(*entry) } else { None }
}

/// The entry of this id, if the book has it.
fn entry_with<B: Book>(alloc: Global, book: &mut B, id: u64) -> Result<Option<Entry>, Cause>
    ensures held { B.honest book.new → B.honest book.old }
    ensures runs { B.honest book.new → B.is_stopped book.old ≡ false }
    ensures same { B.honest book.new → B.contents book.new ≡ B.contents book.old }
    ensures value { B.honest book.new → IfOk result (λ entry. entry ≡ found_in (B.contents book.old).entries id) }
    ensures device { TellsDevice (B.is_stopped book.old) (B.is_stopped book.new) (result ≡ Err Cause.Device) }
    ensures stopped { IsTrue (B.is_stopped book.old) → result ≡ Err Cause.Device }
    ensures memory { result ≡ Err Cause.Memory → B.asks_memory ≡ false → rows_of (B.contents book.old).entries (id - 1) 1 ≢ [] }
    ensures named { result ≢ Err Cause.Exhausted }
{
    let rows = book.rows(alloc, id.saturating_sub(1), 1)?;
    Ok(first_with(&rows, id))
}

/// The pending entry of the least id for a target, if the book has one.
fn next_for<B: Book>(alloc: Global, book: &mut B, target: u8) -> Result<Option<Entry>, Cause>
    ensures held { B.honest book.new → B.honest book.old }
    ensures runs { B.honest book.new → B.is_stopped book.old ≡ false }
    ensures same { B.honest book.new → B.contents book.new ≡ B.contents book.old }
    ensures value { B.honest book.new → IfOk result (λ entry. entry ≡ next_of (B.contents book.old).entries target) }
    ensures device { TellsDevice (B.is_stopped book.old) (B.is_stopped book.new) (result ≡ Err Cause.Device) }
    ensures stopped { IsTrue (B.is_stopped book.old) → result ≡ Err Cause.Device }
    ensures memory { result ≡ Err Cause.Memory → IsTrue B.asks_memory }
    ensures named { result ≢ Err Cause.Exhausted }
{
    Ok(book.next(alloc, target)?)
}

/// The id of the entry.
fn id_of(entry: Option<Entry>) -> Option<u64>
    ensures { result ≡ option_map (λ e. e.id) entry }
{
    match entry {
        Some(entry) => Some(entry.id),
        None => None,
    }
}

/// The status with which a control finished.
fn finished_with(state: State) -> Option<Status>
    ensures { result ≡ status_in state }
{
    match state {
        State::Finished(status) => Some(status),
        State::Pending | State::Spent => None,
    }
}

/// The status with which the entry finished.
fn status_of(entry: Option<Entry>) -> Option<Status>
    ensures { result ≡ option_and_then (λ e. status_in e.state) entry }
{
    match entry {
        Some(entry) => finished_with(entry.state),
        None => None,
    }
}

/// A status other than SUCCESS refuses a control, and is told.
fn refused_by(status: Option<Status>) -> Result<(), ControlFault>
    ensures passed { OnOk result ((told : ℕ) → status ≡ Some told → told ≡ success) }
    ensures told { IfErr result (λ fault. (told : ℕ) × (status ≡ Some told) × (told ≢ success) × (fault ≡ ControlFault.Refused told)) }
{
    match status {
        Some(status) if status != Status::SUCCESS => Err(ControlFault::Refused(status)),
        _ => Ok(()),
    }
}

impl<Q: PairLanes, J: JournalStore, A: Book, B: Book> Parts<Q, J, A, B> {
    /// The entry of this id in the centre's book.
    fn entry_above(&mut self, alloc: Global, centre: u8, id: u64) -> Result<Option<Entry>, Cause>
        requires { centre < CENTRES }
        ensures held { ⟦<Self as Stored>⟧.well self.new → ⟦<Self as Stored>⟧.well self.old }
        ensures same { ⟦<Self as Stored>⟧.well self.new → self.new.system ≡ self.old.system }
        ensures value { ⟦<Self as Stored>⟧.well self.new → IfOk result (λ entry. entry ≡ found_in (seen_by centre self.old.system).centre.orders.entries id) }
        ensures device { TellsDevice (⟦<Self as Stored>⟧.is_stopped self.old) (⟦<Self as Stored>⟧.is_stopped self.new) (result ≡ Err Cause.Device) }
    {
        let book = self.centres.at_mut(centre).book();
        entry_with(alloc, book, id)
    }

    /// The entry of this id in the concentrator's book.
    fn entry_below(&mut self, alloc: Global, id: u64) -> Result<Option<Entry>, Cause>
        ensures held { ⟦<Self as Stored>⟧.well self.new → ⟦<Self as Stored>⟧.well self.old }
        ensures same { ⟦<Self as Stored>⟧.well self.new → self.new.system ≡ self.old.system }
        ensures value { ⟦<Self as Stored>⟧.well self.new → IfOk result (λ entry. entry ≡ found_in self.old.system.concentrator.controls.entries id) }
        ensures device { TellsDevice (⟦<Self as Stored>⟧.is_stopped self.old) (⟦<Self as Stored>⟧.is_stopped self.new) (result ≡ Err Cause.Device) }
    {
        let book = self.concentrator.book();
        entry_with(alloc, book, id)
    }

    /// The centre's next pending control.
    fn next_above(&mut self, alloc: Global, centre: u8) -> Result<Option<Entry>, Cause>
        requires { centre < CENTRES }
        ensures held { ⟦<Self as Stored>⟧.well self.new → ⟦<Self as Stored>⟧.well self.old }
        ensures same { ⟦<Self as Stored>⟧.well self.new → self.new.system ≡ self.old.system }
        ensures value { ⟦<Self as Stored>⟧.well self.new → IfOk result (λ entry. entry ≡ next_of (seen_by centre self.old.system).centre.orders.entries 0) }
        ensures device { TellsDevice (⟦<Self as Stored>⟧.is_stopped self.old) (⟦<Self as Stored>⟧.is_stopped self.new) (result ≡ Err Cause.Device) }
        ensures memory { result ≡ Err Cause.Memory → IsTrue B.asks_memory }
    {
        let book = self.centres.at_mut(centre).book();
        next_for(alloc, book, STATION_BELOW)
    }

    /// The id of the concentrator's next pending control for the substation.
    fn next_below(&mut self, alloc: Global, substation: u8) -> Result<Option<u64>, Cause>
        ensures held { ⟦<Self as Stored>⟧.well self.new → ⟦<Self as Stored>⟧.well self.old }
        ensures same { ⟦<Self as Stored>⟧.well self.new → self.new.system ≡ self.old.system }
        ensures value { ⟦<Self as Stored>⟧.well self.new → IfOk result (λ id. id ≡ next_below (seen_by 0 self.old.system) substation) }
        ensures device { TellsDevice (⟦<Self as Stored>⟧.is_stopped self.old) (⟦<Self as Stored>⟧.is_stopped self.new) (result ≡ Err Cause.Device) }
        ensures memory { result ≡ Err Cause.Memory → IsTrue A.asks_memory }
    {
        let book = self.concentrator.book();
        Ok(id_of(next_for(alloc, book, substation)?))
    }

    /// The substation that the control of this id in the centre's book is for.
    fn substation_for(&mut self, alloc: Global, centre: u8, id: u64) -> Result<Option<u8>, Cause>
        requires { centre < CENTRES }
        ensures held { ⟦<Self as Stored>⟧.well self.new → ⟦<Self as Stored>⟧.well self.old }
        ensures same { ⟦<Self as Stored>⟧.well self.new → self.new.system ≡ self.old.system }
        ensures value { ⟦<Self as Stored>⟧.well self.new → IfOk result (λ substation. substation ≡ substation_in (seen_by centre self.old.system) id) }
        ensures device { TellsDevice (⟦<Self as Stored>⟧.is_stopped self.old) (⟦<Self as Stored>⟧.is_stopped self.new) (result ≡ Err Cause.Device) }
    {
        let Some(entry) = self.entry_above(alloc, centre, id)? else {
            return Ok(None);
        };
        match self.map.command_below(&entry.command) {
            Some((substation, _)) => Ok(Some(substation)),
            None => Ok(None),
        }
    }

    /// Whether the link to the centre is quiet, and that to the substation.
    fn are_quiet(&self, centre: u8, substation: Option<u8>) -> bool
        requires { centre < CENTRES }
        ensures { result ≡ are_quiet_for (seen_by centre self.now.system) substation }
    {
        match substation {
            Some(substation) => self.quiet(Link::Above(centre))
                && self.quiet(Link::Below(substation)),
            None => self.quiet(Link::Above(centre)),
        }
    }

    /// Whether the concentrator has no control pending or in progress for the substation, which is one of the plan; where a
    /// control is for none, nothing stands in its way there.
    fn is_free(&mut self, alloc: Global, substation: Option<u8>) -> Result<bool, Cause>
        requires { IfSome substation (λ s. has_link self.old.system (link.Below s) ≡ true) }
        ensures held { ⟦<Self as Stored>⟧.well self.new → ⟦<Self as Stored>⟧.well self.old }
        ensures same { ⟦<Self as Stored>⟧.well self.new → self.new.system ≡ self.old.system }
        ensures value { ⟦<Self as Stored>⟧.well self.new → IfOk result (λ free. free ≡ is_free_below (seen_by 0 self.old.system) substation) }
        ensures device { TellsDevice (⟦<Self as Stored>⟧.is_stopped self.old) (⟦<Self as Stored>⟧.is_stopped self.new) (result ≡ Err Cause.Device) }
        ensures memory { result ≡ Err Cause.Memory → IsTrue A.asks_memory }
    {
        let Some(substation) = substation else {
            return Ok(true);
        };
        let idle = self.concentrator.in_progress(substation).is_none();
        let next = self.next_below(alloc, substation)?;
        Ok(next.is_none() && idle)
    }

    /// The id of the control that is in progress on the link to this centre.
    fn in_progress_above(&self, centre: u8) -> Option<u64>
        requires { centre < CENTRES }
        ensures { result ≡ option_map (λ p. p.id) (seen_by centre self.now.system).centre.link.progress }
    {
        self.centres.at(centre).in_progress()
    }

    /// Whether the control of this id, which is for this substation of the plan, is the centre's next pending one, no other
    /// is in progress there, and the concentrator has none pending or in progress for that substation.
    fn is_next(
        &mut self,
        alloc: Global,
        centre: u8,
        id: u64,
        substation: Option<u8>,
    ) -> Result<bool, Cause>
        requires centre { centre < CENTRES }
        requires planned { IfSome substation (λ s. has_link self.old.system (link.Below s) ≡ true) }
        ensures held { ⟦<Self as Stored>⟧.well self.new → ⟦<Self as Stored>⟧.well self.old }
        ensures same { ⟦<Self as Stored>⟧.well self.new → self.new.system ≡ self.old.system }
        ensures value { ⟦<Self as Stored>⟧.well self.new → IfOk result (λ next. next ≡ is_next_for (seen_by centre self.old.system) id substation) }
        ensures device { TellsDevice (⟦<Self as Stored>⟧.is_stopped self.old) (⟦<Self as Stored>⟧.is_stopped self.new) (result ≡ Err Cause.Device) }
        ensures memory { result ≡ Err Cause.Memory → IsTrue A.asks_memory ⊎ IsTrue B.asks_memory }
    {
        let free = self.is_free(alloc, substation)?;
        let alone = self.in_progress_above(centre).unwrap_or(id) == id;
        let next = self.next_above(alloc, centre)?;
        Ok(id_of(next) == Some(id) && alone && free)
    }

    /// What became of the control of this id in the book that keeps the controls of this link.
    fn status_on(
        &mut self,
        alloc: Global,
        on: Link,
        id: Option<u64>,
    ) -> Result<Option<Status>, Cause>
        requires { is_there (centre_of on) ≡ true }
        ensures held { ⟦<Self as Stored>⟧.well self.new → ⟦<Self as Stored>⟧.well self.old }
        ensures same { ⟦<Self as Stored>⟧.well self.new → self.new.system ≡ self.old.system }
        ensures value { ⟦<Self as Stored>⟧.well self.new → IfOk result (λ status. status ≡ status_on (seen_at (centre_of on) self.old.system) on id) }
        ensures device { TellsDevice (⟦<Self as Stored>⟧.is_stopped self.old) (⟦<Self as Stored>⟧.is_stopped self.new) (result ≡ Err Cause.Device) }
    {
        let Some(id) = id else {
            return Ok(None);
        };
        let entry = match on {
            Link::Below(_) => self.entry_below(alloc, id)?,
            Link::Above(centre) => self.entry_above(alloc, centre, id)?,
        };
        Ok(status_of(entry))
    }

    /// A step of relaying over the link. Refused where it finished the control of this id with another status than
    /// SUCCESS.
    fn relay_one(&mut self, alloc: Global, on: Link, id: Option<u64>) -> Result<(), ControlFault>
        requires { is_there (centre_of on) ≡ true }
        ensures held { ⟦<Self as Stored>⟧.well self.new → ⟦<Self as Stored>⟧.well self.old }
        ensures done { ⟦<Self as Stored>⟧.well self.new → OnOk result (Passes HappensToAll (seen_at (centre_of on)) on id self.old.system self.new.system) }
        ensures ended { ⟦<Self as Stored>⟧.well self.new → IfErr result (EndsControlBy (λ status. IsTold HappensToAll (seen_at (centre_of on)) on id status self.old.system self.new.system) (StopsRelaying HappensToAll (seen_at (centre_of on)) may_stop on self.old.system self.new.system)) }
        ensures device { TellsDevice (⟦<Self as Stored>⟧.is_stopped self.old) (⟦<Self as Stored>⟧.is_stopped self.new) (result ≡ Err (ControlFault.Fault Cause.Device)) }
    {
        self.happen(alloc, &Event::Relay(on))?;
        let status = self.status_on(alloc, on, id)?;
        refused_by(status)?;
        Ok(())
    }

    /// A step of relaying over the link, and what comes of it there and back.
    fn exchange<C: Carrier>(
        &mut self,
        alloc: Global,
        on: Link,
        id: Option<u64>,
        carrier: &mut C,
    ) -> Result<(), ControlFault>
        requires { is_there (centre_of on) ≡ true }
        ensures held { ⟦<Self as Stored>⟧.well self.new → ⟦<Self as Stored>⟧.well self.old }
        ensures done { ⟦<Self as Stored>⟧.well self.new → OnOk result (PassesBack HappensToAll (seen_at (centre_of on)) on id self.old.system self.new.system) }
        ensures ended { ⟦<Self as Stored>⟧.well self.new → IfErr result (EndsControlBy (λ status. IsTold HappensToAll (seen_at (centre_of on)) on id status self.old.system self.new.system) (StopsBack HappensToAll (seen_at (centre_of on)) may_stop on id self.old.system self.new.system)) }
        ensures device { TellsDeviceOver C.refuses (⟦<Self as Stored>⟧.is_stopped self.old) (⟦<Self as Stored>⟧.is_stopped self.new) (result ≡ Err (ControlFault.Fault Cause.Device)) }
    {
        self.relay_one(alloc, on, id)?;
        self.flush(alloc, on, Way::Down, carrier)?;
        self.flush(alloc, on, Way::Up, carrier)?;
        Ok(())
    }

    /// Three steps of relaying over the link: the SELECT, the OPERATE, and what became of it.
    fn relay_through<C: Carrier>(
        &mut self,
        alloc: Global,
        on: Link,
        id: Option<u64>,
        carrier: &mut C,
    ) -> Result<(), ControlFault>
        requires { is_there (centre_of on) ≡ true }
        ensures held { ⟦<Self as Stored>⟧.well self.new → ⟦<Self as Stored>⟧.well self.old }
        ensures done { ⟦<Self as Stored>⟧.well self.new → OnOk result (IsAccepted HappensToAll (seen_at (centre_of on)) on id self.old.system self.new.system) }
        ensures ended { ⟦<Self as Stored>⟧.well self.new → IfErr result (EndsControlBy (λ status. IsRefusedOn HappensToAll (seen_at (centre_of on)) on id status self.old.system self.new.system) (StopsOn HappensToAll (seen_at (centre_of on)) may_stop on id self.old.system self.new.system)) }
        ensures device { TellsDeviceOver C.refuses (⟦<Self as Stored>⟧.is_stopped self.old) (⟦<Self as Stored>⟧.is_stopped self.new) (result ≡ Err (ControlFault.Fault Cause.Device)) }
    {
        self.exchange(alloc, on, id, carrier)?;
        self.exchange(alloc, on, id, carrier)?;
        self.relay_one(alloc, on, id)
    }

    /// The control of this id goes over the link to its centre, and then over the one to its substation.
    fn relay_all<C: Carrier>(
        &mut self,
        alloc: Global,
        centre: u8,
        id: u64,
        substation: Option<u8>,
        carrier: &mut C,
    ) -> Result<(), ControlFault>
        requires { centre < CENTRES }
        ensures held { ⟦<Self as Stored>⟧.well self.new → ⟦<Self as Stored>⟧.well self.old }
        ensures done { ⟦<Self as Stored>⟧.well self.new → OnOk result (IsControlFor HappensToAll (seen_by centre) centre substation id self.old.system self.new.system) }
        ensures ended { ⟦<Self as Stored>⟧.well self.new → IfErr result (EndsControlBy (λ status. IsRefusedFor HappensToAll (seen_by centre) centre substation id status self.old.system self.new.system) (StopsFor HappensToAll (seen_by centre) may_stop centre substation id self.old.system self.new.system)) }
        ensures device { TellsDeviceOver C.refuses (⟦<Self as Stored>⟧.is_stopped self.old) (⟦<Self as Stored>⟧.is_stopped self.new) (result ≡ Err (ControlFault.Fault Cause.Device)) }
    {
        self.relay_through(alloc, Link::Above(centre), Some(id), carrier)?;
        let Some(substation) = substation else {
            return Ok(());
        };
        let queued = self.next_below(alloc, substation)?;
        self.relay_through(alloc, Link::Below(substation), queued, carrier)
    }

    /// The control of this id, which is for this substation, goes as `clean_control` says. The link to the centre was asked
    /// already.
    fn relay_next<C: Carrier>(
        &mut self,
        alloc: Global,
        centre: u8,
        id: u64,
        substation: Option<u8>,
        carrier: &mut C,
    ) -> Result<(), ControlFault>
        requires { centre < CENTRES }
        ensures held { ⟦<Self as Stored>⟧.well self.new → ⟦<Self as Stored>⟧.well self.old }
        ensures ends { ⟦<Self as Stored>⟧.well self.new → substation ≡ substation_in (seen_by centre self.old.system) id
            → ControlEnds HappensToAll (seen_by centre) may_stop centre id self.old.system result self.new.system }
        ensures device { TellsDeviceOver C.refuses (⟦<Self as Stored>⟧.is_stopped self.old) (⟦<Self as Stored>⟧.is_stopped self.new) (result ≡ Err (ControlFault.Fault Cause.Device)) }
    {
        if !self.are_quiet(centre, substation) {
            return Err(ControlFault::NotQuiet);
        }
        if !self.is_next(alloc, centre, id, substation)? {
            return Err(ControlFault::NotNext);
        }
        self.relay_all(alloc, centre, id, substation, carrier)
    }

    /// The control of this id goes from the centre to its substation, over quiet links. Refused, with nothing changed, is
    /// first of all a link on its way that isn't quiet, and then a control that isn't the centre's next one, or one that
    /// another is before. Each unit is carried.
    pub(crate) fn clean_control<C: Carrier>(
        &mut self,
        alloc: Global,
        centre: u8,
        id: u64,
        carrier: &mut C,
    ) -> Result<(), ControlFault>
        requires { centre < CENTRES }
        ensures held { ⟦<Self as Stored>⟧.well self.new → ⟦<Self as Stored>⟧.well self.old }
        ensures ends { ⟦<Self as Stored>⟧.well self.new → ControlEnds HappensToAll (seen_by centre) may_stop centre id self.old.system result self.new.system }
        ensures device { TellsDeviceOver C.refuses (⟦<Self as Stored>⟧.is_stopped self.old) (⟦<Self as Stored>⟧.is_stopped self.new) (result ≡ Err (ControlFault.Fault Cause.Device)) }
        ensures not_quiet_above { is_quiet_on self.old.system (link.Above centre) ≡ false → result ≡ Err ControlFault.NotQuiet }
    {
        if !self.quiet(Link::Above(centre)) {
            return Err(ControlFault::NotQuiet);
        }
        let substation = self.substation_for(alloc, centre, id)?;
        self.relay_next(alloc, centre, id, substation, carrier)
    }
}
