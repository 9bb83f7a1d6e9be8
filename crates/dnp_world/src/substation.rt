//! A substation and its link.

ghost use Rattle.std.specs.Prelude.{◌≡◌, ◌≢◌, ◌⊎◌, ◌≤◌, ◌*◌, ◌&&◌, ◌++◌, ◌∷◌, [], false, Err, List, IfErr, IfOk, IsTrue, IfSome, OnErr, OnOk, drop, is_ok, length, map, option_to_list, true};
ghost use Rattle.dnp_eventbuf.specs.EventBuffer.{dropped_by, exhausts, rows_in, without_all};
ghost use Rattle.dnp_objects.specs.declared.row.Row.{Row as RowValue};
ghost use Rattle.dnp_pointdb.specs.Database.{answer_of};
ghost use Rattle.dnp_outstation.specs.Calls.{change_of, opened_of, restarted_core, tick_of};
ghost use Rattle.dnp_line.specs.Lines.{room_of};
ghost use Rattle.dnp_outstation.specs.Connection.{closed, has_enabled_rows};
ghost use Rattle.dnp_outstation.specs.State.{is_quiet};
ghost use Rattle.dnp_world.specs.Channels.{are_quiet, cleared, hung_up_at, left_by};
ghost use Rattle.dnp_world.specs.SystemEvents.{ComesToSubstation, SubstationSteps, master_gone};
ghost use Rattle.dnp_world.specs.SystemParts.{history_of, substation_of};
ghost use Rattle.dnp_world.specs.Systems.{at_substation, station_of};
ghost use Rattle.dnp_world.specs.declared.link_event.End.TheVariants as end;

use crate::channel::Channel;
use crate::history::History;
use crate::link_event::{End, Way};
use crate::listing::rows_waiting;
use crate::room::{reserve_for_reading, reserve_for_unit};
use crate::sending::{FRAGMENT_UNITS, send_all};
use crate::substation_list::SubstationList;
use dnp_concentrator::Cause;
use dnp_controls::PlainOutputs;
use dnp_eventbuf::RingLanes;
use dnp_objects::{Kind, Row};
use dnp_outstation::link_laws::{
    a_confirm_releases_what_its_fragment_reported, commands_are_performed_as_they_are_asked,
    each_case_says_what_came,
};
use dnp_outstation::{Actions, Outstation};
use dnp_pointdb::Reading;
use std::alloc::Global;

/// A substation, with the lines between it and the concentrator.
#[derive(Drop)]
pub(crate) struct Substation {
    pub outstation: Outstation<RingLanes, PlainOutputs>,
    pub channel: Channel,
}

impl Substation {
    /// It hangs up: the line towards it is cleared, and its port is reset.
    pub fn hang_up(&mut self)
        ensures { substation_of self.new ≡ record (substation_of self.old) {
          core = closed (substation_of self.old).core;
          channel = hung_up_at end.Outstation (substation_of self.old).channel;
        } }
    {
        self.outstation.hung_up();
        self.channel.hang_up(End::Outstation);
    }

    /// Its master hangs up: the line towards that is cleared, and its port is reset.
    pub fn hang_up_master(&mut self)
        ensures { substation_of self.new ≡ record (substation_of self.old) {
          channel = hung_up_at end.Master (substation_of self.old).channel;
        } }
    {
        self.channel.hang_up(End::Master);
    }

    /// Whether the outstation is open, awaits no confirm and holds no READ, and both lines carry nothing and are whole.
    pub fn quiet(&self) -> bool
        ensures { result ≡ (is_quiet (substation_of self.now).core && are_quiet (substation_of self.now).channel) }
    {
        self.outstation.quiet() && self.channel.quiet()
    }

    /// Clears both lines and resets both ports, and then opens the outstation.
    pub fn open(&mut self, actions: &mut Actions, alloc: Global, now: u64) -> Result<(), Cause>
        ensures done { OnOk result (SubstationSteps (opened_of (station_of (substation_of self.old)) now) (cleared (substation_of self.old).channel)
            (substation_of self.old) (substation_of self.new)) }
        ensures stopped { OnErr result (substation_of self.new ≡ substation_of self.old) }
        ensures device { result ≢ Err Cause.Device }
    {
        self.channel
            .open(actions, alloc, now, &mut self.outstation, 0)
    }

    /// The outstation looks at its timers.
    pub fn tick(&mut self, actions: &mut Actions, alloc: Global, now: u64) -> Result<(), Cause>
        ensures done { OnOk result (SubstationSteps (tick_of (station_of (substation_of self.old)) now) (substation_of self.old).channel
            (substation_of self.old) (substation_of self.new)) }
        ensures stopped { OnErr result (substation_of self.new ≡ substation_of self.old) }
        ensures device { result ≢ Err Cause.Device }
    {
        self.channel
            .tick(actions, alloc, now, &mut self.outstation, 0)
    }

    /// The outstation of the substation of this number reads a point. What a full lane dropped for it is put after the list.
    /// A reading that its points refuse does nothing, and asks for no memory.
    pub fn change(
        &mut self,
        actions: &mut Actions,
        alloc: Global,
        now: u64,
        substation: u8,
        kind: Kind,
        index: u16,
        reading: Reading,
        overwritten: &mut SubstationList<Row>,
    ) -> Result<(), Cause>
        ensures refused { OnOk result (IfErr (answer_of (substation_of self.old).core.points kind index reading) (λ _.
            (substation_of self.new ≡ substation_of self.old) × (overwritten.new.items ≡ overwritten.old.items))) }
        ensures numbers { OnOk result (IfOk (answer_of (substation_of self.old).core.points kind index reading) (λ made.
            IfSome made (λ row. exhausts (substation_of self.old).lanes (row ∷ []) ≡ false))) }
        ensures done { OnOk result (IfOk (answer_of (substation_of self.old).core.points kind index reading) (λ made.
            SubstationSteps (change_of (station_of (substation_of self.old)) now kind index reading made) (substation_of self.old).channel
            (substation_of self.old) (substation_of self.new))) }
        ensures listed { OnOk result (IfOk (answer_of (substation_of self.old).core.points kind index reading) (λ made.
            overwritten.new.items ≡ overwritten.old.items
            ++ at_substation substation (change_of (station_of (substation_of self.old)) now kind index reading made).does.overwritten)) }
        ensures stopped { OnErr result (substation_of self.new ≡ substation_of self.old) }
        ensures unlisted { OnErr result (overwritten.new.items ≡ overwritten.old.items) }
        ensures named { OnErr result (is_ok (answer_of (substation_of self.old).core.points kind index reading) ≡ true) }
        ensures device { result ≢ Err Cause.Device }
        ensures exhausted { result ≡ Err Cause.Exhausted → IfOk (answer_of (substation_of self.old).core.points kind index reading) (λ made.
            IsTrue (exhausts (substation_of self.old).lanes (option_to_list made))) }
        ensures enough { 1 ≤ overwritten.old.room → 2 * FRAGMENT_UNITS ≤ room_of self.old.channel.up → result ≡ Err Cause.Memory
            → IfOk (answer_of (substation_of self.old).core.points kind index reading) (λ made.
            (has_enabled_rows (station_of (substation_of self.old)) ≡ true) ⊎ (dropped_by (substation_of self.old).lanes (option_to_list made) ≢ [])) }
    {
        let made = self.outstation.points().would(kind, index, reading);
        if made.is_err() {
            return Ok(());
        }
        let Channel {
            up,
            outstation_port,
            ..
        } = &mut self.channel;
        let Ok(()) = reserve_for_reading(up, overwritten) else {
            return Err(Cause::Memory);
        };
        self.outstation
            .change_into(actions, alloc, now, kind, index, reading)?;
        send_all(up, outstation_port, &actions.send);
        overwritten.put_all(substation, actions.overwritten.as_slice());
        Ok(())
    }

    /// The front unit comes to the substation of this number, and stays on the line where it is repeated. What is released and
    /// performed is listed.
    pub fn come_down(
        &mut self,
        actions: &mut Actions,
        alloc: Global,
        now: u64,
        substation: u8,
        repeats: bool,
        history: &mut History,
    ) -> Result<(), Cause>
        ensures done { OnOk result ((released : List RowValue) × ComesToSubstation (left_by repeats) now released (substation_of self.old) (substation_of self.new)
            × (history_of history.new ≡ record (history_of history.old) {
              confirmed = (history_of history.old).confirmed ++ at_substation substation released;
              operated = (history_of history.old).operated
                  ++ at_substation substation (drop (length (substation_of self.old).outputs.performed) (substation_of self.new).outputs.performed);
            })) }
        ensures stopped { OnErr result (substation_of self.new ≡ substation_of self.old) }
        ensures unlisted { OnErr result (history_of history.new ≡ history_of history.old) }
        ensures device { result ≢ Err Cause.Device }
    {
        let waiting = rows_waiting(self.outstation.lanes());
        reserve_for_unit(waiting, &mut history.confirmed, &mut history.operated)?;
        let before = self.outstation.outputs().operated().len();
        let answered = self
            .channel
            .come_down(actions, alloc, now, &mut self.outstation, 0)?;
        self.channel.settle(Way::Down, repeats);
        if answered {
            each_case_says_what_came();
            a_confirm_releases_what_its_fragment_reported();
            commands_are_performed_as_they_are_asked();
            history
                .confirmed
                .put_all(substation, actions.discarded.as_slice());
            let operated = self.outstation.outputs().operated();
            history.operated.put_all(substation, &operated[before..]);
        }
        Ok(())
    }

    /// The device of the substation of this number starts again: the outstation hangs up, and its lanes are emptied. Their
    /// rows are put after the list.
    pub fn restart(
        &mut self,
        alloc: Global,
        substation: u8,
        gone: &mut SubstationList<Row>,
    ) -> Result<(), Cause>
        ensures done { OnOk result (substation_of self.new ≡ record (substation_of self.old) {
          core = restarted_core (substation_of self.old).core;
          lanes = without_all (substation_of self.old).lanes;
          channel = hung_up_at end.Outstation (substation_of self.old).channel;
        }) }
        ensures listed { OnOk result (gone.new.items ≡ gone.old.items ++ at_substation substation (rows_in (substation_of self.old).lanes)) }
        ensures stopped { OnErr result (substation_of self.new ≡ substation_of self.old) }
        ensures unlisted { OnErr result (gone.new.items ≡ gone.old.items) }
        ensures device { result ≢ Err Cause.Device }
    {
        let waiting = rows_waiting(self.outstation.lanes());
        let Ok(()) = gone.reserve(waiting) else {
            return Err(Cause::Memory);
        };
        let rows = self.outstation.restart(alloc, false)?;
        self.channel.hang_up(End::Outstation);
        gone.put_all(substation, rows.as_slice());
        Ok(())
    }
}

/// The masters of all substations hang up.
pub(crate) fn hang_up_masters(substations: &mut [Substation])
    ensures { map substation_of substations.new ≡ map master_gone (map substation_of substations.old) }
{
    for substation in substations.iter_mut() {
        substation.hang_up_master();
    }
}
