//! The lines between the two stations of a link.

ghost use Rattle.std.specs.Prelude.{option_copied, ◌≡◌, ◌≤◌, ℕ, true, false, if◌then◌else◌, Err, IfOk, OnErr, OnOk, List, [], ◌∷◌, length};
ghost use Rattle.dnp_line.specs.Lines.{front_of, quiet_line};
ghost use Rattle.dnp_line.specs.Ports.{IsShown, reset_of};
ghost use Rattle.dnp_line.specs.Ways.{HearsIfAny};
ghost use Rattle.dnp_master.specs.Calls.{receive_of};
ghost use Rattle.dnp_outstation.specs.Calls.{connection_after, opened_of, performed_in, tick_of};
ghost use Rattle.dnp_outstation.specs.Station.{actions_of};
ghost use Rattle.dnp_world.specs.Causes.{TellsDevice};
ghost use Rattle.dnp_world.specs.Channels.{state_of, are_quiet, cleared, fresh_channel, hung_up_at, left_at, left_by, line_of, lost_at, DamagesAt, GoUp, StepsUp, ComesToOutstation};
ghost use Rattle.dnp_world.specs.MasterEnds.{ComesToMaster, ListsDropped, TakesBy, lists_in, none_dropped};

use crate::ends::{MasterEnd, OutstationEnd};
use crate::event::Damaged;
use crate::link_event::{End, Way};
use crate::listing::most_dropped;
use crate::room::reserve_for_events;
use crate::sending::{FRAGMENT_UNITS, hear, send_all, shows};
use crate::stopped::stops_for;
use dnp_concentrator::{Cause, PerCentre};
use dnp_line::{Line, Port};
use dnp_linkframe::MAX_UNIT;
use dnp_master::Fragment;
use dnp_master::laws::what_comes_is_taken_or_passed_over;
use dnp_objects::Row;
use dnp_outstation::Actions;
use std::alloc::Global;

/// The lines between an outstation and its master, one each way, and the ports at their ends.
#[derive(Drop)]
pub(crate) struct Channel {
    /// The line to the outstation.
    pub down: Line,
    /// The line to the master.
    pub up: Line,
    pub outstation_port: Port,
    pub master_port: Port,
    /// The port to which a unit comes, as it was before: where what the unit completes is refused, the port is that again.
    /// It is kept, so that no unit makes room for it; between two calls it says nothing.
    pub before: Port,
    /// The request that was asked last. It is kept, so that no request makes room for a fragment; once it was sent it says
    /// nothing.
    pub request: Fragment,
}

impl Channel {
    /// Quiet lines between stations of these link addresses.
    pub fn new(alloc: Global, outstation: u16, master: u16) -> Channel
        ensures { state_of result ≡ fresh_channel outstation master }
    {
        Channel {
            down: Line::new(alloc),
            up: Line::new(alloc),
            outstation_port: Port::new(outstation, master, false),
            master_port: Port::new(master, outstation, true),
            before: Port::new(outstation, master, false),
            request: Fragment::new(),
        }
    }

    /// Clears both lines, and resets both ports. What there was room for stays.
    fn clear(&mut self)
        ensures { self.new ≡ record self.old {
          down = record self.old.down { state = quiet_line };
          up = record self.old.up { state = quiet_line };
          outstation_port = reset_of self.old.outstation_port;
          master_port = reset_of self.old.master_port;
        } }
    {
        let Channel {
            down,
            up,
            outstation_port,
            master_port,
            before: _,
            request: _,
        } = self;
        down.clear();
        up.clear();
        outstation_port.reset();
        master_port.reset();
    }

    /// Clears the line towards an end that hangs up, and resets its port.
    pub fn hang_up(&mut self, end: End)
        ensures { state_of self.new ≡ hung_up_at end (state_of self.old) }
    {
        match end {
            End::Master => {
                self.up.clear();
                self.master_port.reset();
            }
            End::Outstation => {
                self.down.clear();
                self.outstation_port.reset();
            }
        }
    }

    /// How many units stand on the line of this way.
    pub fn standing(&self, way: Way) -> usize
        ensures { result ≡ length (line_of way (state_of self.now)).units }
    {
        match way {
            Way::Down => self.down.len(),
            Way::Up => self.up.len(),
        }
    }

    /// The octets of the front unit of this way, if one stands there.
    pub fn front(&self, way: Way) -> Option<&[u8]>
        ensures { option_copied result ≡ front_of (line_of way (state_of self.now)) }
    {
        match way {
            Way::Down => self.down.front(),
            Way::Up => self.up.front(),
        }
    }

    /// Whether both lines carry nothing, and neither is broken.
    pub fn quiet(&self) -> bool
        ensures { result ≡ are_quiet (state_of self.now) }
    {
        self.down.is_empty() && !self.down.broken() && self.up.is_empty() && !self.up.broken()
    }

    /// The front unit of this way is lost.
    pub fn lose(&mut self, way: Way)
        ensures { state_of self.new ≡ lost_at way (state_of self.old) }
    {
        match way {
            Way::Down => self.down.lose(),
            Way::Up => self.up.lose(),
        }
    }

    /// The octets of the front unit of this way become these.
    pub fn damage(&mut self, way: Way, octets: &Damaged)
        ensures { DamagesAt way octets.now (state_of self.old) (state_of self.new) }
    {
        self.damage_to(way, octets.as_slice());
    }

    /// The octets of the front unit of this way become these, at most `MAX_UNIT`.
    pub fn damage_to(&mut self, way: Way, octets: &[u8])
        requires { length octets.now ≤ MAX_UNIT }
        ensures { DamagesAt way octets.now (state_of self.old) (state_of self.new) }
    {
        match way {
            Way::Down => self.down.damage(octets),
            Way::Up => self.up.damage(octets),
        }
    }

    /// The line of this way has given its front unit, which stays on it where the unit is to be repeated.
    pub fn settle(&mut self, way: Way, repeats: bool)
        ensures { state_of self.new ≡ left_at way repeats (state_of self.old) }
    {
        match (way, repeats) {
            (Way::Down, true) => {
                let _ = self.down.repeat();
            }
            (Way::Down, false) => {
                let _ = self.down.deliver();
            }
            (Way::Up, true) => {
                let _ = self.up.repeat();
            }
            (Way::Up, false) => {
                let _ = self.up.deliver();
            }
        }
    }

    /// Clears both lines and resets both ports, and then opens the outstation's end. What that does is put into the
    /// actions. Where it refuses, nothing is cleared.
    pub fn open<E: OutstationEnd>(
        &mut self,
        actions: &mut Actions,
        alloc: Global,
        now: u64,
        end: &mut E,
        number: u8,
    ) -> Result<(), Cause>
        requires { E.has number }
        ensures held { E.honest end.new → E.honest end.old }
        ensures opened { E.honest end.new → OnOk result (StepsUp (opened_of (E.state end.old number) now) (E.state end.new number) (actions_of actions.new) (cleared (state_of self.old)) (state_of self.new)) }
        ensures beside { E.follows number end.old [] end.new }
        ensures unchanged { E.honest end.new → OnErr result (E.state end.new number ≡ E.state end.old number) }
        ensures lines { OnErr result (state_of self.new ≡ state_of self.old) }
        ensures device { TellsDevice (E.is_stopped end.old) (E.is_stopped end.new) (result ≡ Err Cause.Device) }
    {
        let Ok(()) = self.up.reserve(2 * FRAGMENT_UNITS) else {
            return Err(Cause::Memory);
        };
        end.opened(number, actions, alloc, now)?;
        self.clear();
        send_all(&mut self.up, &mut self.outstation_port, &actions.send);
        Ok(())
    }

    /// The outstation's end looks at its timers. What it does is put into the actions. Where it refuses, the lines and
    /// the ports stay.
    pub fn tick<E: OutstationEnd>(
        &mut self,
        actions: &mut Actions,
        alloc: Global,
        now: u64,
        end: &mut E,
        number: u8,
    ) -> Result<(), Cause>
        requires { E.has number }
        ensures held { E.honest end.new → E.honest end.old }
        ensures ticked { E.honest end.new → OnOk result (StepsUp (tick_of (E.state end.old number) now) (E.state end.new number) (actions_of actions.new) (state_of self.old) (state_of self.new)) }
        ensures beside { E.follows number end.old [] end.new }
        ensures unchanged { E.honest end.new → OnErr result (E.state end.new number ≡ E.state end.old number) }
        ensures lines { OnErr result (state_of self.new ≡ state_of self.old) }
        ensures device { TellsDevice (E.is_stopped end.old) (E.is_stopped end.new) (result ≡ Err Cause.Device) }
    {
        let Ok(()) = self.up.reserve(2 * FRAGMENT_UNITS) else {
            return Err(Cause::Memory);
        };
        end.tick(number, actions, alloc, now)?;
        send_all(&mut self.up, &mut self.outstation_port, &actions.send);
        Ok(())
    }

    /// The outstation's end answers the fragment that its port shows. What it does is put into the actions. Where it
    /// refuses, the lines and the ports stay.
    fn answer<E: OutstationEnd>(
        &mut self,
        actions: &mut Actions,
        alloc: Global,
        now: u64,
        end: &mut E,
        number: u8,
    ) -> Result<(), Cause>
        requires { E.has number }
        ensures held { E.honest end.new → E.honest end.old }
        ensures answered { E.honest end.new → OnOk result ((fragment : List ℕ) × IsShown self.old.outstation_port fragment
            × (connection_after (E.state end.old number) (E.panel end.old number now) now fragment ≡ record { state = E.state end.new number; does = actions_of actions.new })
            × GoUp (actions_of actions.new).send (state_of self.old) (state_of self.new)
            × E.follows number end.old (performed_in (E.state end.old number).core (E.panel end.old number now) now fragment) end.new) }
        ensures unchanged { E.honest end.new → OnErr result (E.state end.new number ≡ E.state end.old number) }
        ensures kept { E.honest end.new → OnErr result (E.keeps number end.old end.new) }
        ensures lines { OnErr result (state_of self.new ≡ state_of self.old) }
        ensures device { TellsDevice (E.is_stopped end.old) (E.is_stopped end.new) (result ≡ Err Cause.Device) }
        ensures before { self.new.before ≡ self.old.before }
    {
        let Ok(()) = self.up.reserve(2 * FRAGMENT_UNITS) else {
            return Err(Cause::Memory);
        };
        end.receive(number, actions, alloc, now, self.outstation_port.fragment())?;
        send_all(&mut self.up, &mut self.outstation_port, &actions.send);
        Ok(())
    }

    /// The front unit comes to the outstation's end, and stays on the line. Whether it completed a fragment, which was
    /// answered: what the station then did is put into the actions. Where the station refuses, the lines and the ports
    /// stay.
    pub fn come_down<E: OutstationEnd>(
        &mut self,
        actions: &mut Actions,
        alloc: Global,
        now: u64,
        end: &mut E,
        number: u8,
    ) -> Result<bool, Cause>
        requires { E.has number }
        ensures held { E.honest end.new → E.honest end.old }
        ensures came { E.honest end.new → IfOk result (λ answered. ComesToOutstation (λ commands. E.follows number end.old commands end.new) (E.panel end.old number now) now (E.state end.old number) (E.state end.new number)
            (actions_of actions.new) answered (state_of self.old) (state_of self.new)) }
        ensures unchanged { E.honest end.new → OnErr result (E.state end.new number ≡ E.state end.old number) }
        ensures kept { E.honest end.new → OnErr result (E.keeps number end.old end.new) }
        ensures lines { OnErr result (state_of self.new ≡ state_of self.old) }
        ensures device { TellsDevice (E.is_stopped end.old) (E.is_stopped end.new) (result ≡ Err Cause.Device) }
    {
        let Some(unit) = self.down.front() else {
            return Ok(false);
        };
        self.outstation_port.copy_into(&mut self.before);
        let whole = hear(&mut self.outstation_port, unit);
        shows(&self.outstation_port);
        if whole {
            if let Err(cause) = self.answer(actions, alloc, now, end, number) {
                self.before.copy_into(&mut self.outstation_port);
                return Err(cause);
            }
        }
        Ok(whole)
    }

    /// The front unit comes to the master's port, and stays on the line. Whether it completed a fragment, which the port
    /// then shows.
    fn hear_up(&mut self) -> bool
        ensures heard { (fragment : List ℕ) → IsShown self.new.master_port fragment
            → HearsIfAny (front_of (state_of self.old).up) (state_of self.old).master_port (state_of self.new).master_port [] (if result then fragment ∷ [] else []) }
        ensures shown { (fragment : List ℕ) × IsShown self.new.master_port fragment }
        ensures rest { state_of self.new ≡ record (state_of self.old) { master_port = self.new.master_port } }
        ensures before { self.new.before ≡ self.old.before }
    {
        let whole = match self.up.front() {
            Some(unit) => hear(&mut self.master_port, unit),
            None => false,
        };
        shows(&self.master_port);
        whole
    }

    /// The master's end takes in the fragment that its port shows. What its stores drop for it is put after the rows. Where
    /// it refuses, the lines, the ports and the rows stay.
    fn take_up<E: MasterEnd>(
        &mut self,
        alloc: Global,
        link: u8,
        now: u64,
        end: &mut E,
        dropped: &mut PerCentre<Vec<Row>>,
    ) -> Result<(), Cause>
        requires { E.has end.old link }
        ensures held { E.honest end.new → E.honest end.old }
        ensures took { E.honest end.new → OnOk result ((fragment : List ℕ) × IsShown self.old.master_port fragment
            × TakesBy (receive_of (E.master end.old link) now fragment)
            (λ t. E.takes end.old link t end.new × ListsDropped (E.drops end.old link t) (lists_in dropped.old) (lists_in dropped.new))
            (E.stays end.old end.new × ListsDropped none_dropped (lists_in dropped.old) (lists_in dropped.new)) (state_of self.old) (state_of self.new)) }
        ensures kept { E.honest end.new → OnErr result (E.keeps end.old end.new) }
        ensures lines { OnErr result (state_of self.new ≡ state_of self.old) }
        ensures device { TellsDevice (E.is_stopped end.old) (E.is_stopped end.new) (result ≡ Err Cause.Device) }
        ensures unlisted { OnErr result (ListsDropped none_dropped (lists_in dropped.old) (lists_in dropped.new)) }
        ensures before { self.new.before ≡ self.old.before }
    {
        let fragment = self.master_port.fragment();
        reserve_for_events(&mut self.down, most_dropped(end, fragment), dropped)?;
        match end.take_in(alloc, link, now, fragment) {
            Ok((actions, other)) => {
                what_comes_is_taken_or_passed_over();
                self.confirm(actions.send);
                let _ = dropped.first.extend_from_slice(actions.dropped.as_slice());
                let _ = dropped.second.extend_from_slice(other.as_slice());
                Ok(())
            }
            Err(fault) => stops_for(fault),
        }
    }

    /// The front unit comes to the master's end, and stays on the line where it is repeated. What the stores there drop for
    /// what it brings is put after the rows. Where they refuse, the lines, the ports and the rows stay.
    pub fn come_up<E: MasterEnd>(
        &mut self,
        alloc: Global,
        link: u8,
        now: u64,
        repeats: bool,
        end: &mut E,
        dropped: &mut PerCentre<Vec<Row>>,
    ) -> Result<(), Cause>
        requires { E.has end.old link }
        ensures held { E.honest end.new → E.honest end.old }
        ensures came { E.honest end.new → OnOk result (ComesToMaster (left_by repeats) (E.master end.old link) now
            (λ t. E.takes end.old link t end.new × ListsDropped (E.drops end.old link t) (lists_in dropped.old) (lists_in dropped.new))
            (E.stays end.old end.new × ListsDropped none_dropped (lists_in dropped.old) (lists_in dropped.new)) (state_of self.old) (state_of self.new)) }
        ensures kept { E.honest end.new → OnErr result (E.keeps end.old end.new) }
        ensures lines { OnErr result (state_of self.new ≡ state_of self.old) }
        ensures device { TellsDevice (E.is_stopped end.old) (E.is_stopped end.new) (result ≡ Err Cause.Device) }
        ensures unlisted { OnErr result (ListsDropped none_dropped (lists_in dropped.old) (lists_in dropped.new)) }
    {
        self.master_port.copy_into(&mut self.before);
        if self.hear_up() {
            if let Err(cause) = self.take_up(alloc, link, now, end, dropped) {
                self.before.copy_into(&mut self.master_port);
                return Err(cause);
            }
        }
        self.settle(Way::Up, repeats);
        Ok(())
    }
}
