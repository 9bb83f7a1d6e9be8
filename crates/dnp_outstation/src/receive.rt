//! What comes from the master.

ghost use Rattle.std.specs.Prelude.{All, ◌⊎◌, ◌≡◌, ◌≢◌, ◌≤◌, [], true, false, length, IsErr, IfErr, OnOk, OnErr, IsTrue, Err};
ghost use Rattle.dnp_appfragment.specs.declared.function.Function.TheVariants as function;
ghost use Rattle.dnp_appfragment.specs.Table.{function_octet};
ghost use Rattle.dnp_eventbuf.specs.EventBuffer.{rows_in};
ghost use Rattle.dnp_outstation.specs.Calls.{connection_after, performed_in};
ghost use Rattle.dnp_outstation.specs.Connection.{is_looked_at, case_of, function_in};
ghost use Rattle.dnp_outstation.specs.declared.case.Case.TheVariants as case;
ghost use Rattle.dnp_outstation.specs.State.{is_ready, nothing};
ghost use Rattle.dnp_outstation.specs.Station.{state_of, actions_of, reads_inside, MayAsk};
ghost use Rattle.dnp_outstation.specs.Stores.{KeepsLanes, KeepsOutputs};

use crate::actions::Actions;
use crate::case::Case;
use crate::controls::is_control;
use crate::outstation_core::OutstationCore;
use dnp_controls::Outputs;
use dnp_eventbuf::{Lanes, StoreFault};
use std::alloc::Global;

impl OutstationCore {
    /// A fragment came from the master; the moment is now, in milliseconds. What it does is put into the
    /// actions, in place of what was there.
    ///
    /// Memory or Device, from the lanes or the outputs, or Exhausted, from the outputs: then nothing has
    /// changed, the actions neither.
    pub fn receive<L: Lanes, O: Outputs>(
        &mut self,
        actions: &mut Actions,
        alloc: Global,
        lanes: &mut L,
        outputs: &mut O,
        now: u64,
        octets: &[u8],
    ) -> Result<(), StoreFault>
        ensures lanes { KeepsLanes L.honest L.is_stopped L.contents L.beside L.place StoreFault.Device lanes.old lanes.new result }
        ensures outputs { KeepsOutputs O.honest O.is_stopped O.panel O.performs O.exhausts (O.may_fault StoreFault.Exhausted) StoreFault.Exhausted StoreFault.Device
            (performed_in self.old (O.panel outputs.old) now octets.now) outputs.old outputs.new result }
        ensures received { L.honest lanes.new → O.honest outputs.new → OnOk result (
            connection_after (state_of self.old (L.contents lanes.old) (O.panel outputs.old)) (O.panel outputs.old) now octets.now
            ≡ record { state = state_of self.new (L.contents lanes.new) (O.panel outputs.new); does = actions_of actions.new }) }
        ensures whole { OnOk result (All (λ fragment. 4 ≤ length fragment) (actions_of actions.new).send) }
        ensures unchanged { OnErr result (self.new ≡ self.old) }
        ensures actions_unchanged { OnErr result (actions.new ≡ actions.old) }
        ensures device { result ≡ Err StoreFault.Device → IsTrue (L.is_stopped lanes.new) ⊎ IsTrue (O.is_stopped outputs.new) }
        ensures memory { L.honest lanes.new → result ≡ Err StoreFault.Memory → L.asks_memory ≡ false
            → (rows_in (L.contents lanes.old) ≢ []) ⊎ (performed_in self.old (O.panel outputs.old) now octets.now ≢ []) }
        ensures memory_named { L.honest lanes.new → result ≡ Err StoreFault.Memory → L.asks_memory ≡ false
            → (rows_in (L.contents lanes.old) ≢ []) ⊎ IsTrue (O.may_fault StoreFault.Memory) }
        ensures faults { IfErr result (λ e. IsTrue (L.may_fault e) ⊎ IsTrue (O.may_fault e)) }
        ensures exhausted_first { L.honest lanes.new → O.honest outputs.new → result ≡ Err StoreFault.Memory → L.asks_memory ≡ false
            → (rows_in (L.contents lanes.old) ≢ []) ⊎ (O.exhausts outputs.old (performed_in self.old (O.panel outputs.old) now octets.now) → ⊥) }
        ensures looked_at { IsErr result → is_looked_at self.old octets.now ≡ true }
        ensures asks { IsErr result → self.old.times.unsolicited ≡ false → MayAsk self.old (O.panel outputs.old) now octets.now }
        ensures asks_announced { IsErr result → self.old.announced ≡ false → MayAsk self.old (O.panel outputs.old) now octets.now }
        ensures asks_stray { IsErr result → case_of self.old octets.now ≡ case.Stray → is_ready self.old ≡ true }
        ensures asks_again { IsErr result → case_of self.old octets.now ≡ case.Again → is_ready self.old ≡ true }
        ensures memory_idle { L.honest lanes.new → result ≡ Err StoreFault.Memory → L.asks_memory ≡ false → case_of self.old octets.now ≡ case.Confirms
            → (connection_after (state_of self.old (L.contents lanes.old) (O.panel outputs.old)) (O.panel outputs.old) now octets.now).does ≢ nothing }
        ensures asks_held { IsErr result → case_of self.old octets.now ≡ case.Waits → ⊥ }
        ensures asks_inside { IsErr result → self.old.times.unsolicited ≡ false → function_in octets.now ≡ function_octet function.Read
            → reads_inside (state_of self.old (L.contents lanes.old) (O.panel outputs.old)) (O.panel outputs.old) octets.now ≡ true }
    {
        match self.case(octets) {
            Case::PassedOver => {
                actions.set_nothing();
                Ok(())
            }
            Case::Stray => self.end_only(actions, alloc, lanes, now),
            Case::Confirms => self.confirm(actions, alloc, lanes, outputs, now),
            Case::ConfirmsUnsolicited => {
                self.confirm_unsolicited(actions, alloc, lanes, outputs, now)
            }
            Case::Again => self.again(actions, alloc, lanes, now, octets),
            Case::Waits => {
                self.wait(actions, octets);
                Ok(())
            }
            Case::Asks => {
                if is_control(octets) {
                    self.control(actions, alloc, lanes, outputs, now, octets)
                } else {
                    self.ask(actions, alloc, lanes, outputs, now, octets)
                }
            }
        }
    }
}
