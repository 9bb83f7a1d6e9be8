//! The events of a link by itself: what comes over its lines, and the calls of its stations.

ghost use Rattle.std.specs.Prelude.{◌≡◌, ◌&&◌, true, is_ok, is_some, OnErr, OnOk};
ghost use Rattle.dnp_controls.specs.Latches.{no_panel};
ghost use Rattle.dnp_line.specs.Lines.{front_of};
ghost use Rattle.dnp_master.specs.Calls.{ask_answer};
ghost use Rattle.dnp_pointdb.specs.Database.{answer_of};
ghost use Rattle.dnp_world.specs.Channels.{left_by};
ghost use Rattle.dnp_world.specs.OneLinkEvents.{ComesDown, ComesUp, HappensOn, IsStopped, StopsAt, is_own};
ghost use Rattle.dnp_world.specs.OneLinkParts.{link_of, lanes_of, sink_of};
ghost use Rattle.dnp_world.specs.declared.link_event.End.TheVariants as end;
ghost use Rattle.dnp_world.specs.declared.link_event.LinkEvent.TheVariants as event;
ghost use Rattle.dnp_world.specs.declared.link_event.Way.TheVariants as way;

use super::OneLink;
use crate::link_event::{End, Way};
use crate::listing::rows_waiting;
use crate::room::reserve_for_left;
use crate::sending::send_all;
use dnp_concentrator::{Cause, PerCentre};
use dnp_eventbuf::{Lanes, Sink};
use dnp_master::Task;
use dnp_objects::Kind;
use dnp_outstation::link_laws::{
    a_confirm_releases_what_its_fragment_reported, each_case_says_what_came,
};
use dnp_pointdb::Reading;
use std::alloc::Global;

impl<L: Lanes, S: Sink> OneLink<L, S> {
    /// The front unit comes to the outstation, and stays on the line where it is repeated. At a refusal the line and the
    /// port stay. On an empty line nothing is asked.
    fn come_down(&mut self, alloc: Global, repeats: bool) -> Result<(), Cause>
        ensures held { L.honest (lanes_of self.new) → L.honest (lanes_of self.old) }
        ensures sink { sink_of self.new ≡ sink_of self.old }
        ensures done { L.honest (lanes_of self.new) → OnOk result (ComesDown no_panel (left_by repeats (link_of L.contents self.old).channel.down) (link_of L.contents self.old) (link_of L.contents self.new)) }
        ensures stopped { L.honest (lanes_of self.new) → OnErr result (link_of L.contents self.new ≡ link_of L.contents self.old) }
        ensures there { OnErr result (is_some (front_of (link_of L.contents self.old).channel.down) ≡ true) }
    {
        if self.channel.front(Way::Down).is_none() {
            return Ok(());
        }
        let waiting = rows_waiting(self.outstation.lanes());
        self.released.reserve(waiting)?;
        let answered = self.channel.come_down(
            &mut self.actions,
            alloc,
            self.moment,
            &mut self.outstation,
            0,
        )?;
        self.channel.settle(Way::Down, repeats);
        if answered {
            each_case_says_what_came();
            a_confirm_releases_what_its_fragment_reported();
            let _ = self
                .released
                .extend_from_slice(self.actions.discarded.as_slice());
        }
        Ok(())
    }

    /// The front unit comes to the master, and stays on the line where it is repeated. At a refusal the line and the port
    /// stay. On an empty line nothing is asked. What the sink drops is listed nowhere.
    fn come_up(&mut self, alloc: Global, repeats: bool) -> Result<(), Cause>
        ensures lanes { lanes_of self.new ≡ lanes_of self.old }
        ensures sink_held { S.honest (sink_of self.new) → S.honest (sink_of self.old) }
        ensures done { S.honest (sink_of self.new) → OnOk result (ComesUp S.takes (left_by repeats (link_of L.contents self.old).channel.up) (link_of L.contents self.old) (link_of L.contents self.new)) }
        ensures stopped { S.honest (sink_of self.new) → OnErr result (IsStopped S.keeps (link_of L.contents self.old) (link_of L.contents self.new)) }
        ensures there { OnErr result (is_some (front_of (link_of L.contents self.old).channel.up) ≡ true) }
    {
        if self.channel.front(Way::Up).is_none() {
            return Ok(());
        }
        let mut dropped = PerCentre {
            first: Vec::new(alloc),
            second: Vec::new(alloc),
        };
        self.channel.come_up(
            alloc,
            0,
            self.moment,
            repeats,
            &mut self.receiver,
            &mut dropped,
        )
    }

    /// The front unit comes to the outstation. Where that refuses, the unit is lost.
    pub(crate) fn deliver_down(&mut self, alloc: Global) -> Result<(), Cause>
        ensures held { L.honest (lanes_of self.new) → L.honest (lanes_of self.old) }
        ensures sink { sink_of self.new ≡ sink_of self.old }
        ensures done { L.honest (lanes_of self.new) → OnOk result (HappensOn S.takes no_panel (link_of L.contents self.old) (event.Deliver way.Down) (link_of L.contents self.new)) }
        ensures stopped { L.honest (lanes_of self.new) → OnErr result (StopsAt S.takes S.keeps (link_of L.contents self.old) (event.Deliver way.Down) (link_of L.contents self.new)) }
        ensures there { OnErr result (is_some (front_of (link_of L.contents self.old).channel.down) ≡ true) }
    {
        if let Err(cause) = self.come_down(alloc, false) {
            self.channel.lose(Way::Down);
            return Err(cause);
        }
        Ok(())
    }

    /// The front unit comes to the master. Where its sink refuses, the unit is lost.
    pub(crate) fn deliver_up(&mut self, alloc: Global) -> Result<(), Cause>
        ensures lanes { lanes_of self.new ≡ lanes_of self.old }
        ensures sink_held { S.honest (sink_of self.new) → S.honest (sink_of self.old) }
        ensures done { S.honest (sink_of self.new) → OnOk result (HappensOn S.takes no_panel (link_of L.contents self.old) (event.Deliver way.Up) (link_of L.contents self.new)) }
        ensures stopped { S.honest (sink_of self.new) → OnErr result (StopsAt S.takes S.keeps (link_of L.contents self.old) (event.Deliver way.Up) (link_of L.contents self.new)) }
        ensures there { OnErr result (is_some (front_of (link_of L.contents self.old).channel.up) ≡ true) }
    {
        if let Err(cause) = self.come_up(alloc, false) {
            self.channel.lose(Way::Up);
            return Err(cause);
        }
        Ok(())
    }

    /// The front unit comes to the outstation, and stays on the line. Where that refuses, nothing happens.
    pub(crate) fn repeat_down(&mut self, alloc: Global) -> Result<(), Cause>
        ensures held { L.honest (lanes_of self.new) → L.honest (lanes_of self.old) }
        ensures sink { sink_of self.new ≡ sink_of self.old }
        ensures done { L.honest (lanes_of self.new) → OnOk result (HappensOn S.takes no_panel (link_of L.contents self.old) (event.Repeat way.Down) (link_of L.contents self.new)) }
        ensures stopped { L.honest (lanes_of self.new) → OnErr result (StopsAt S.takes S.keeps (link_of L.contents self.old) (event.Repeat way.Down) (link_of L.contents self.new)) }
        ensures there { OnErr result (is_some (front_of (link_of L.contents self.old).channel.down) ≡ true) }
    {
        self.come_down(alloc, true)
    }

    /// The front unit comes to the master, and stays on the line. Where its sink refuses, nothing happens.
    pub(crate) fn repeat_up(&mut self, alloc: Global) -> Result<(), Cause>
        ensures lanes { lanes_of self.new ≡ lanes_of self.old }
        ensures sink_held { S.honest (sink_of self.new) → S.honest (sink_of self.old) }
        ensures done { S.honest (sink_of self.new) → OnOk result (HappensOn S.takes no_panel (link_of L.contents self.old) (event.Repeat way.Up) (link_of L.contents self.new)) }
        ensures stopped { S.honest (sink_of self.new) → OnErr result (StopsAt S.takes S.keeps (link_of L.contents self.old) (event.Repeat way.Up) (link_of L.contents self.new)) }
        ensures there { OnErr result (is_some (front_of (link_of L.contents self.old).channel.up) ≡ true) }
    {
        self.come_up(alloc, true)
    }

    /// Both lines are cleared, both ports are reset, and both ends are opened. The outstation is asked first, since its
    /// lanes may refuse.
    pub(crate) fn open(&mut self, alloc: Global) -> Result<(), Cause>
        ensures held { L.honest (lanes_of self.new) → L.honest (lanes_of self.old) }
        ensures sink { sink_of self.new ≡ sink_of self.old }
        ensures done { L.honest (lanes_of self.new) → OnOk result (HappensOn S.takes no_panel (link_of L.contents self.old) event.Open (link_of L.contents self.new)) }
        ensures stopped { L.honest (lanes_of self.new) → OnErr result (link_of L.contents self.new ≡ link_of L.contents self.old) }
    {
        self.channel.open(
            &mut self.actions,
            alloc,
            self.moment,
            &mut self.outstation,
            0,
        )?;
        self.receiver.master.opened();
        Ok(())
    }

    /// This end hangs up: the line towards it is cleared, and its port is reset.
    pub(crate) fn hang_up(&mut self, end: End)
        ensures lanes { lanes_of self.new ≡ lanes_of self.old }
        ensures sink { sink_of self.new ≡ sink_of self.old }
        ensures done { HappensOn S.takes no_panel (link_of L.contents self.old) (event.HangUp end) (link_of L.contents self.new) }
    {
        match end {
            End::Master => self.receiver.master.hung_up(),
            End::Outstation => self.outstation.hung_up(),
        }
        self.channel.hang_up(end);
    }

    /// The outstation reads a point. A reading that its points refuse does nothing, and asks for no memory.
    pub(crate) fn change(
        &mut self,
        alloc: Global,
        kind: Kind,
        index: u16,
        reading: Reading,
    ) -> Result<(), Cause>
        ensures held { L.honest (lanes_of self.new) → L.honest (lanes_of self.old) }
        ensures sink { sink_of self.new ≡ sink_of self.old }
        ensures done { L.honest (lanes_of self.new) → OnOk result (HappensOn S.takes no_panel (link_of L.contents self.old) (event.Change kind index reading) (link_of L.contents self.new)) }
        ensures stopped { L.honest (lanes_of self.new) → OnErr result (link_of L.contents self.new ≡ link_of L.contents self.old) }
        ensures named { OnErr result (is_ok (answer_of (link_of L.contents self.old).outstation.core.points kind index reading) ≡ true) }
    {
        let made = self.outstation.points().would(kind, index, reading);
        if made.is_err() {
            return Ok(());
        }
        self.change_taken(alloc, kind, index, reading)
    }

    /// The same of a reading that the points take.
    fn change_taken(
        &mut self,
        alloc: Global,
        kind: Kind,
        index: u16,
        reading: Reading,
    ) -> Result<(), Cause>
        ensures held { L.honest (lanes_of self.new) → L.honest (lanes_of self.old) }
        ensures sink { sink_of self.new ≡ sink_of self.old }
        ensures done { L.honest (lanes_of self.new) → OnOk result (HappensOn S.takes no_panel (link_of L.contents self.old) (event.Change kind index reading) (link_of L.contents self.new)) }
        ensures stopped { L.honest (lanes_of self.new) → OnErr result (link_of L.contents self.new ≡ link_of L.contents self.old) }
    {
        reserve_for_left(&mut self.channel.up, &mut self.left)?;
        self.outstation.change_into(&mut self.actions, alloc, self.moment, kind, index, reading)?;
        send_all(
            &mut self.channel.up,
            &mut self.channel.outstation_port,
            &self.actions.send,
        );
        a_confirm_releases_what_its_fragment_reported();
        let _ = self
            .left
            .extend_from_slice(self.actions.overwritten.as_slice());
        Ok(())
    }

    /// Whether the master asks a task of its own now.
    fn asks(&self, task: &Task) -> bool
        ensures { is_own task.now ≡ true → result ≡ is_ok (ask_answer (link_of L.contents self.now).master task.now) }
    {
        self.receiver.master.idle() && task.is_good()
    }

    /// The master asks a task. What it refuses does nothing, as a command does, and asks for no memory.
    pub(crate) fn ask(&mut self, task: Task) -> Result<(), Cause>
        ensures lanes { lanes_of self.new ≡ lanes_of self.old }
        ensures sink { sink_of self.new ≡ sink_of self.old }
        ensures done { OnOk result (HappensOn S.takes no_panel (link_of L.contents self.old) (event.Ask task) (link_of L.contents self.new)) }
        ensures stopped { OnErr result (link_of L.contents self.new ≡ link_of L.contents self.old) }
        ensures named { OnErr result ((is_own task && is_ok (ask_answer (link_of L.contents self.old).master task)) ≡ true) }
    {
        if matches!(task, Task::Select(_) | Task::Operate(_)) {
            return Ok(());
        }
        if !self.asks(&task) {
            return Ok(());
        }
        self.channel.reserve_down()?;
        let request = &mut self.channel.request;
        if let Ok(()) = self.receiver.master.ask_into(request, self.moment, task) {
            self.channel.send_request();
        }
        Ok(())
    }

    /// So many milliseconds pass.
    pub(crate) fn pass(&mut self, ms: u64)
        ensures lanes { lanes_of self.new ≡ lanes_of self.old }
        ensures sink { sink_of self.new ≡ sink_of self.old }
        ensures done { HappensOn S.takes no_panel (link_of L.contents self.old) (event.Pass ms) (link_of L.contents self.new) }
    {
        self.moment = self.moment.saturating_add(ms);
    }

    /// The master looks at its timer.
    pub(crate) fn tick_master(&mut self)
        ensures lanes { lanes_of self.new ≡ lanes_of self.old }
        ensures sink { sink_of self.new ≡ sink_of self.old }
        ensures done { HappensOn S.takes no_panel (link_of L.contents self.old) (event.Tick end.Master) (link_of L.contents self.new) }
    {
        self.receiver.master.tick(self.moment);
    }

    /// The outstation looks at its timers.
    pub(crate) fn tick_outstation(&mut self, alloc: Global) -> Result<(), Cause>
        ensures held { L.honest (lanes_of self.new) → L.honest (lanes_of self.old) }
        ensures sink { sink_of self.new ≡ sink_of self.old }
        ensures done { L.honest (lanes_of self.new) → OnOk result (HappensOn S.takes no_panel (link_of L.contents self.old) (event.Tick end.Outstation) (link_of L.contents self.new)) }
        ensures stopped { L.honest (lanes_of self.new) → OnErr result (link_of L.contents self.new ≡ link_of L.contents self.old) }
    {
        a_confirm_releases_what_its_fragment_reported();
        self.channel.tick(
            &mut self.actions,
            alloc,
            self.moment,
            &mut self.outstation,
            0,
        )
    }

    /// The outstation's device starts again: the outstation hangs up, and its lanes are emptied.
    pub(crate) fn restart_outstation(&mut self, alloc: Global) -> Result<(), Cause>
        ensures held { L.honest (lanes_of self.new) → L.honest (lanes_of self.old) }
        ensures sink { sink_of self.new ≡ sink_of self.old }
        ensures done { L.honest (lanes_of self.new) → OnOk result (HappensOn S.takes no_panel (link_of L.contents self.old) (event.Restart end.Outstation) (link_of L.contents self.new)) }
        ensures stopped { L.honest (lanes_of self.new) → OnErr result (link_of L.contents self.new ≡ link_of L.contents self.old) }
    {
        let waiting = rows_waiting(self.outstation.lanes());
        let Ok(()) = self.left.reserve(waiting) else {
            return Err(Cause::Memory);
        };
        let rows = self.outstation.restart(alloc, false)?;
        self.channel.hang_up(End::Outstation);
        let _ = self.left.extend_from_slice(rows.as_slice());
        Ok(())
    }
}
