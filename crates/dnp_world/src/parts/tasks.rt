//! The events of a system that ask tasks, and the commands that are issued and relayed.

ghost use Rattle.std.specs.Prelude.{◌≡◌, ◌⊎◌, ◌≤◌, ◌<◌, ◌∷◌, ◌↔◌, [], ℕ, List, length, true, IfErr, IfOk, IsErr, IsOk, ◌≢◌, IsTrue, MatchResult, OnErr, OnOk, Result, Ok, Err, ◌&&◌, None, Some, is_ok, is_some, slice_get};
ghost use Rattle.dnp_appfragment.specs.Fragments.{Asked, IsRequest};
ghost use Rattle.dnp_concentrator.specs.Mapped.{command_above};
ghost use Rattle.dnp_eventbuf.specs.Sides.{at};
ghost use Rattle.dnp_concentrator.specs.Relayed.{Tells, asks_book, with_request};
ghost use Rattle.dnp_concentrator.specs.Relaying.{Step};
ghost use Rattle.dnp_line.specs.Lines.{room_of};
ghost use Rattle.dnp_objects.specs.declared.command.Command.TheVariants.{Block, Set16, Set32};
ghost use Rattle.dnp_objects.specs.declared.limits.TheConstants.{MAX_ID};
ghost use Rattle.dnp_world.specs.Causes.{TellsDevice, cause_of_relaying};
ghost use Rattle.dnp_world.specs.Channels.{GoDown, state_of};
ghost use Rattle.dnp_world.specs.CommandWidths.{HasWidths};
ghost use Rattle.dnp_world.specs.OneLinkEvents.{is_own};
ghost use Rattle.dnp_world.specs.Centres.{ChangesAll, centre_of, has_link, seen_at};
ghost use Rattle.dnp_world.specs.SystemEvents.{AsksOn, IssuesBy, Reads, RelaysOn, request_of, requests_of, relaying_at};
ghost use Rattle.dnp_master.specs.Calls.{ask_answer};
ghost use Rattle.dnp_master.specs.State.{is_idle};
ghost use Rattle.dnp_world.specs.SystemRuns.{takes_reading};
ghost use Rattle.dnp_world.specs.Systems.{link_at};
ghost use Rattle.dnp_world.specs.Wholes.{seen_by};
ghost use Rattle.dnp_world.specs.declared.event.Link.TheVariants as link;

use super::Parts;
use crate::channel::Channel;
use crate::event::Link;
use crate::sending::FRAGMENT_UNITS;
use crate::stored::Stored;
use dnp_concentrator::{Cause, IssueFault, RelayedStep};
use dnp_controls::{Book, BookFault};
use dnp_eventbuf::{CENTRES, JournalStore, PairLanes};
use dnp_master::{AskFault, Task};
use dnp_objects::{Command, Kind};
use dnp_pointdb::Reading;
use std::alloc::Global;

/// The fields of a block have the widths of their types.
fn block_has_widths(index: u16, code: u8, count: u8, on_ms: u32, off_ms: u32)
    ensures { HasWidths (Block index code count on_ms off_ms) }
{}

/// So have those of a setpoint command of 16 bits.
fn short_has_widths(index: u16, value: i16)
    ensures { HasWidths (Set16 index value) }
{}

/// So have those of one of 32 bits.
fn long_has_widths(index: u16, value: i32)
    ensures { HasWidths (Set32 index value) }
{}

/// So have those of each command.
fn has_widths(command: &Command)
    ensures { HasWidths command.now }
{
    match *command {
        Command::Block {
            index,
            code,
            count,
            on_ms,
            off_ms,
        } => block_has_widths(index, code, count, on_ms, off_ms),
        Command::Set16 { index, value } => short_has_widths(index, value),
        Command::Set32 { index, value } => long_has_widths(index, value),
    }
}

/// The cause at which a list of events stops. What a book refuses of one entry is none.
fn cause_of(fault: BookFault) -> Option<Cause>
    ensures { result ≡ cause_of_relaying fault }
{
    match fault {
        BookFault::NoControl | BookFault::NotPending => None,
        BookFault::Exhausted => Some(Cause::Exhausted),
        BookFault::Memory => Some(Cause::Memory),
        BookFault::Device => Some(Cause::Device),
    }
}

/// Whether the task is one of the events' own: a command belongs to whoever keeps the commands.
fn is_own(task: &Task) -> bool
    ensures { result ≡ is_own task.now }
{
    !matches!(task, Task::Select(_) | Task::Operate(_))
}

/// What a master asks, which stands in the channel's place of a request, goes down the channel. What it refused does nothing.
fn send_asked(channel: &mut Channel, asked: &Result<(), AskFault>)
    requires { FRAGMENT_UNITS ≤ room_of channel.old.down }
    ensures { (answer : Result (List ℕ) AskFault) (request : Asked)
        → MatchResult asked.now (λ _. answer ≡ Ok channel.old.request.items) (λ fault. answer ≡ Err fault)
        → OnOk asked.now (IsRequest channel.old.request.items request)
        → GoDown (request_of answer) (state_of channel.old) (state_of channel.new) }
{
    match asked {
        Ok(()) => channel.send_request(),
        Err(_) => {}
    }
}

/// What is told of a step of relaying goes down the channel: its request, if it has one, which stands in the channel's place of
/// one.
fn send_told(channel: &mut Channel, told: &RelayedStep)
    requires { FRAGMENT_UNITS ≤ room_of channel.old.down }
    ensures { (step : Step) (seq : ℕ) → Tells seq step (with_request told.now channel.old.request)
        → GoDown (requests_of step seq) (state_of channel.old) (state_of channel.new) }
{
    match told {
        RelayedStep::Selecting(_) => channel.send_request(),
        RelayedStep::Sent(_) => channel.send_request(),
        RelayedStep::Nothing => {}
        RelayedStep::Finished(_, _) => {}
    }
}

/// What a step of relaying asks, which stands in the channel's place of a request, goes down the channel. What the book refused of
/// one entry does nothing.
fn send_relayed(
    channel: &mut Channel,
    relayed: &Result<RelayedStep, BookFault>,
) -> Result<(), Cause>
    requires { FRAGMENT_UNITS ≤ room_of channel.old.down }
    ensures sent { IfOk relayed.now (λ told. (step : Step) (seq : ℕ) → Tells seq step (with_request told channel.old.request)
        → GoDown (requests_of step seq) (state_of channel.old) (state_of channel.new)) }
    ensures same { OnErr relayed.now (state_of channel.new ≡ state_of channel.old) }
    ensures passed { OnOk result (IfErr relayed.now (λ fault. (fault ≡ BookFault.NoControl) ⊎ (fault ≡ BookFault.NotPending))) }
    ensures stopped { OnErr result (IsErr relayed.now) }
    ensures cause { IfErr result (λ cause. IfErr relayed.now (λ fault. cause_of_relaying fault ≡ Some cause)) }
    ensures device { relayed.now ≡ Err BookFault.Device → result ≡ Err Cause.Device }
{
    match relayed {
        Ok(told) => {
            send_told(channel, told);
            Ok(())
        }
        Err(fault) => match cause_of(*fault) {
            Some(cause) => Err(cause),
            None => Ok(()),
        },
    }
}

/// What stops at a control that isn't issued: nothing where there is no such output.
fn stop_for(fault: IssueFault) -> Result<(), Cause>
    ensures nothing { IsOk result ↔ (fault ≡ IssueFault.NoOutput) }
    ensures exhausted { (result ≡ Err Cause.Exhausted) ↔ (fault ≡ IssueFault.Exhausted) }
    ensures memory { (result ≡ Err Cause.Memory) ↔ (fault ≡ IssueFault.Memory) }
    ensures device { (result ≡ Err Cause.Device) ↔ (fault ≡ IssueFault.Device) }
{
    match fault {
        IssueFault::NoOutput => Ok(()),
        IssueFault::Exhausted => Err(Cause::Exhausted),
        IssueFault::Memory => Err(Cause::Memory),
        IssueFault::Device => Err(Cause::Device),
    }
}

impl<Q: PairLanes, J: JournalStore, A: Book, B: Book> Parts<Q, J, A, B> {
    /// The concentrator's master of a substation asks a task of its own. What it refuses does nothing.
    fn ask_below(&mut self, substation: u8, task: Task) -> Result<(), Cause>
        requires { has_link self.old.system (link.Below substation) ≡ true }
        ensures held { ⟦<Self as Stored>⟧.well self.new → ⟦<Self as Stored>⟧.well self.old }
        ensures done { ⟦<Self as Stored>⟧.well self.new → OnOk result (ChangesAll None (AsksOn true (link.Below substation) task) self.old.system self.new.system) }
        ensures stopped { ⟦<Self as Stored>⟧.well self.new → OnErr result (self.new.system ≡ self.old.system) }
        ensures device { TellsDevice (⟦<Self as Stored>⟧.is_stopped self.old) (⟦<Self as Stored>⟧.is_stopped self.new) (result ≡ Err Cause.Device) }
    {
        let channel = &mut self.substations[usize::from(substation)].channel;
        let Ok(()) = channel.reserve_down() else {
            return Err(Cause::Memory);
        };
        let request = &mut channel.request;
        let asked = self
            .concentrator
            .ask_below_into(request, substation, self.moment, task);
        send_asked(channel, &asked);
        Ok(())
    }

    /// This centre asks a task of its own. What it refuses does nothing.
    fn ask_above(&mut self, centre: u8, task: Task) -> Result<(), Cause>
        requires { centre < CENTRES }
        ensures held { ⟦<Self as Stored>⟧.well self.new → ⟦<Self as Stored>⟧.well self.old }
        ensures done { ⟦<Self as Stored>⟧.well self.new → OnOk result (ChangesAll (Some centre) (AsksOn true (link.Above centre) task) self.old.system self.new.system) }
        ensures stopped { ⟦<Self as Stored>⟧.well self.new → OnErr result (self.new.system ≡ self.old.system) }
        ensures device { TellsDevice (⟦<Self as Stored>⟧.is_stopped self.old) (⟦<Self as Stored>⟧.is_stopped self.new) (result ≡ Err Cause.Device) }
    {
        let channel = self.above.at_mut(centre);
        let Ok(()) = channel.reserve_down() else {
            return Err(Cause::Memory);
        };
        let request = &mut channel.request;
        let asked = self
            .centres
            .at_mut(centre)
            .ask_into(request, self.moment, task);
        send_asked(channel, &asked);
        Ok(())
    }

    /// Whether the master of the link is open and awaits no response.
    fn idle(&self, on: Link) -> bool
        requires { has_link self.now.system on ≡ true }
        ensures { result ≡ is_idle (relaying_at (seen_at (centre_of on) self.now.system) on).master }
    {
        match on {
            Link::Below(substation) => self.concentrator.idle_below(substation),
            Link::Above(centre) => self.centres.at(centre).idle(),
        }
    }

    /// Whether the master of the link asks a task of its own now.
    fn asks(&self, on: Link, task: &Task) -> bool
        requires { has_link self.now.system on ≡ true }
        ensures { is_own task.now ≡ true → result ≡ is_ok (ask_answer (relaying_at (seen_at (centre_of on) self.now.system) on).master task.now) }
    {
        self.idle(on) && task.is_good()
    }

    /// The master of the link asks a task. What it refuses does nothing, as a command does, and asks for no memory.
    pub(crate) fn ask(&mut self, on: Link, task: Task) -> Result<(), Cause>
        requires { has_link self.old.system on ≡ true }
        ensures held { ⟦<Self as Stored>⟧.well self.new → ⟦<Self as Stored>⟧.well self.old }
        ensures done { ⟦<Self as Stored>⟧.well self.new → OnOk result (ChangesAll (centre_of on) (AsksOn (is_own task) on task) self.old.system self.new.system) }
        ensures stopped { ⟦<Self as Stored>⟧.well self.new → OnErr result (self.new.system ≡ self.old.system) }
        ensures named { OnErr result ((is_own task && is_ok (ask_answer (relaying_at (seen_at (centre_of on) self.old.system) on).master task)) ≡ true) }
        ensures device { TellsDevice (⟦<Self as Stored>⟧.is_stopped self.old) (⟦<Self as Stored>⟧.is_stopped self.new) (result ≡ Err Cause.Device) }
    {
        if !is_own(&task) {
            return Ok(());
        }
        if !self.asks(on, &task) {
            return Ok(());
        }
        match on {
            Link::Below(substation) => self.ask_below(substation, task),
            Link::Above(centre) => self.ask_above(centre, task),
        }
    }

    /// A step of relaying the concentrator's controls to a substation.
    fn relay_below(&mut self, alloc: Global, substation: u8) -> Result<(), Cause>
        requires { has_link self.old.system (link.Below substation) ≡ true }
        ensures held { ⟦<Self as Stored>⟧.well self.new → ⟦<Self as Stored>⟧.well self.old }
        ensures done { ⟦<Self as Stored>⟧.well self.new → OnOk result (ChangesAll None (RelaysOn (link.Below substation)) self.old.system self.new.system) }
        ensures stopped { ⟦<Self as Stored>⟧.well self.new → OnErr result (self.new.system ≡ self.old.system) }
        ensures device { TellsDevice (⟦<Self as Stored>⟧.is_stopped self.old) (⟦<Self as Stored>⟧.is_stopped self.new) (result ≡ Err Cause.Device) }
        ensures never { result ≢ Err Cause.Exhausted }
        ensures dead { asks_book (link_at (seen_by 0 self.old.system).concentrator substation) ≡ true → IsTrue (A.is_stopped self.old.stores.controls) → IsErr result }
    {
        let channel = &mut self.substations[usize::from(substation)].channel;
        let Ok(()) = channel.reserve_down() else {
            return Err(Cause::Memory);
        };
        let request = &mut channel.request;
        let relayed = self
            .concentrator
            .relay_into(request, alloc, substation, self.moment);
        send_relayed(channel, &relayed)
    }

    /// A step of relaying this centre's controls to the concentrator.
    fn relay_above(&mut self, alloc: Global, centre: u8) -> Result<(), Cause>
        requires { centre < CENTRES }
        ensures held { ⟦<Self as Stored>⟧.well self.new → ⟦<Self as Stored>⟧.well self.old }
        ensures done { ⟦<Self as Stored>⟧.well self.new → OnOk result (ChangesAll (Some centre) (RelaysOn (link.Above centre)) self.old.system self.new.system) }
        ensures stopped { ⟦<Self as Stored>⟧.well self.new → OnErr result (self.new.system ≡ self.old.system) }
        ensures device { TellsDevice (⟦<Self as Stored>⟧.is_stopped self.old) (⟦<Self as Stored>⟧.is_stopped self.new) (result ≡ Err Cause.Device) }
        ensures never { result ≢ Err Cause.Exhausted }
        ensures dead { asks_book (seen_by centre self.old.system).centre.link ≡ true → IsTrue (B.is_stopped (at centre self.old.stores.orders.0 self.old.stores.orders.1)) → IsErr result }
    {
        let channel = self.above.at_mut(centre);
        let Ok(()) = channel.reserve_down() else {
            return Err(Cause::Memory);
        };
        let request = &mut channel.request;
        let relayed = self
            .centres
            .at_mut(centre)
            .relay_into(request, alloc, self.moment);
        send_relayed(channel, &relayed)
    }

    /// A step of relaying over the link. A master that is closed or awaits a response waits, and nothing is asked.
    pub(crate) fn relay(&mut self, alloc: Global, on: Link) -> Result<(), Cause>
        requires { has_link self.old.system on ≡ true }
        ensures held { ⟦<Self as Stored>⟧.well self.new → ⟦<Self as Stored>⟧.well self.old }
        ensures done { ⟦<Self as Stored>⟧.well self.new → OnOk result (ChangesAll (centre_of on) (RelaysOn on) self.old.system self.new.system) }
        ensures stopped { ⟦<Self as Stored>⟧.well self.new → OnErr result (self.new.system ≡ self.old.system) }
        ensures named { OnErr result (is_idle (relaying_at (seen_at (centre_of on) self.old.system) on).master ≡ true) }
        ensures device { TellsDevice (⟦<Self as Stored>⟧.is_stopped self.old) (⟦<Self as Stored>⟧.is_stopped self.new) (result ≡ Err Cause.Device) }
        ensures never { result ≢ Err Cause.Exhausted }
    {
        if !self.idle(on) {
            return Ok(());
        }
        match on {
            Link::Below(substation) => self.relay_below(alloc, substation),
            Link::Above(centre) => self.relay_above(alloc, centre),
        }
    }

    /// A substation reads a point. A reading that its points refuse does nothing.
    pub(crate) fn change(
        &mut self,
        alloc: Global,
        substation: u8,
        kind: Kind,
        index: u16,
        reading: Reading,
    ) -> Result<(), Cause>
        requires { has_link self.old.system (link.Below substation) ≡ true }
        ensures held { ⟦<Self as Stored>⟧.well self.new → ⟦<Self as Stored>⟧.well self.old }
        ensures done { ⟦<Self as Stored>⟧.well self.new → OnOk result (ChangesAll None (Reads substation kind index reading) self.old.system self.new.system) }
        ensures stopped { ⟦<Self as Stored>⟧.well self.new → OnErr result (self.new.system ≡ self.old.system) }
        ensures named { OnErr result (takes_reading (slice_get self.old.system.substations substation) kind index reading ≡ true) }
        ensures device { TellsDevice (⟦<Self as Stored>⟧.is_stopped self.old) (⟦<Self as Stored>⟧.is_stopped self.new) (result ≡ Err Cause.Device) }
    {
        let below = &mut self.substations[usize::from(substation)];
        below.change(
            &mut self.actions,
            alloc,
            self.moment,
            substation,
            kind,
            index,
            reading,
            &mut self.history.overwritten,
        )
    }

    /// A command is issued at this centre. One to no output does nothing, and asks for no memory.
    pub(crate) fn issue(
        &mut self,
        alloc: Global,
        centre: u8,
        substation: u8,
        command: &Command,
    ) -> Result<(), Cause>
        requires { centre < CENTRES }
        ensures held { ⟦<Self as Stored>⟧.well self.new → ⟦<Self as Stored>⟧.well self.old }
        ensures done { ⟦<Self as Stored>⟧.well self.new → OnOk result (ChangesAll (Some centre) (λ s t. IssuesBy (command_above s.centre.indices substation command.now) substation command.now s t) self.old.system self.new.system) }
        ensures stopped { ⟦<Self as Stored>⟧.well self.new → OnErr result (self.new.system ≡ self.old.system) }
        ensures named { OnErr result (is_some (command_above (seen_by centre self.old.system).centre.indices substation command.now) ≡ true) }
        // Exhausted only where the book has no number left; out of memory before the book is asked, or where it has one.
        ensures exhausted { ⟦<Self as Stored>⟧.well self.new → result ≡ Err Cause.Exhausted → MAX_ID ≤ (seen_by centre self.old.system).centre.orders.last_id }
        ensures exhausted_first { ⟦<Self as Stored>⟧.well self.new → result ≡ Err Cause.Memory
            → (self.new.stores ≡ self.old.stores) ⊎ ((seen_by centre self.old.system).centre.orders.last_id < MAX_ID) }
        ensures device { TellsDevice (⟦<Self as Stored>⟧.is_stopped self.old) (⟦<Self as Stored>⟧.is_stopped self.new) (result ≡ Err Cause.Device) }
    {
        has_widths(command);
        if !self.centres.at(centre).has_output(substation, command) {
            return Ok(());
        }
        self.history.issued.reserve(1)?;
        let to = self.centres.at_mut(centre);
        match to.issue(alloc, substation, command) {
            Ok(_) => {
                self.history.issued.put(substation, *command);
                Ok(())
            }
            Err(fault) => stop_for(fault),
        }
    }
}
