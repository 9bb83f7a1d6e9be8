//! What a concentrator does with what comes from its centres.

ghost use Rattle.std.specs.Prelude.{◌≡◌, ◌≢◌, ◌⊎◌, ◌<◌, ◌≤◌, [], true, false, All, IsErr, IsTrue, OnOk, OnErr, Err, length};
ghost use Rattle.dnp_appfragment.specs.declared.function.Function.TheVariants as function;
ghost use Rattle.dnp_appfragment.specs.Table.{function_octet};
ghost use Rattle.dnp_eventbuf.specs.Sides.{other_than};
ghost use Rattle.dnp_eventbuf.specs.EventBuffer.{rows_in};
ghost use Rattle.dnp_outstation.specs.Calls.{connection_after, performed_in};
ghost use Rattle.dnp_outstation.specs.Connection.{case_of, function_in, is_looked_at};
ghost use Rattle.dnp_outstation.specs.State.{is_ready, nothing};
ghost use Rattle.dnp_outstation.specs.Station.{actions_of, reads_inside, MayAsk};
ghost use Rattle.dnp_outstation.specs.Stores.{KeepsOutputs};
ghost use Rattle.dnp_outstation.specs.declared.case.Case.TheVariants as case;
ghost use Rattle.dnp_concentrator.specs.BookOutputs.{book_in, panel_of, IsWell, Performs, Exhausts};
ghost use Rattle.dnp_concentrator.specs.Concentrator.{core_of, queue_of, outputs_of, book_of, indices_of, links_of, plan_above, IsBookWell, KeepsSide, above_of, panel_above, reserved_above};

use crate::concentrator::Concentrator;
use dnp_controls::Book;
use dnp_eventbuf::{CENTRES, PairLanes, Side, StoreFault};
use dnp_objects::Command;
use dnp_outstation::Actions;
use std::alloc::Global;

impl<Q: PairLanes, B: Book> Concentrator<Q, B> {
    /// What the other centres' standing selects reserve at this moment.
    fn reserved_above(&self, centre: u8, now: u64) -> Option<Command>
        requires { centre < CENTRES }
        ensures { result ≡ reserved_above centre self.now now }
    {
        self.standing_above(1 - centre, now)
    }

    /// A fragment came from this centre. What is done is put into the actions, in place of what was there. A command that is
    /// performed is added to the book; one to a point that the other centre's standing select names is answered
    /// ALREADY_ACTIVE, and not added.
    ///
    /// Refused by the queue or the book, as Memory or Device, or by the book, as Exhausted: then the actions stay too.
    pub fn receive_above(
        &mut self,
        centre: u8,
        actions: &mut Actions,
        alloc: Global,
        now: u64,
        octets: &[u8],
    ) -> Result<(), StoreFault>
        requires { centre < CENTRES }
        ensures queue { KeepsSide Q.honest Q.is_stopped Q.contents centre StoreFault.Device (queue_of self.old) (queue_of self.new) result }
        ensures outputs { KeepsOutputs (IsWell B.honest B.is_stopped) (λ o. B.is_stopped (book_in o)) (panel_of B.contents) (Performs B.contents) (Exhausts B.contents)
            true StoreFault.Exhausted StoreFault.Device (performed_in (core_of centre self.old) (panel_above B.contents centre now self.old) now octets.now) (outputs_of self.old) (outputs_of self.new) result }
        ensures other { core_of (other_than centre) self.new ≡ core_of (other_than centre) self.old }
        ensures received { Q.honest (queue_of self.new) → IsBookWell B.honest B.is_stopped self.new → OnOk result (
            connection_after (above_of Q.contents B.contents centre self.old) (panel_above B.contents centre now self.old) now octets.now
            ≡ record { state = above_of Q.contents B.contents centre self.new; does = actions_of actions.new }) }
        ensures whole { OnOk result (All (λ fragment. 4 ≤ length fragment) (actions_of actions.new).send) }
        ensures unchanged { OnErr result (core_of centre self.new ≡ core_of centre self.old) }
        ensures actions_unchanged { OnErr result (actions.new ≡ actions.old) }
        ensures book_unchanged { IsBookWell B.honest B.is_stopped self.new → OnErr result (B.contents (book_of self.new) ≡ B.contents (book_of self.old)) }
        ensures indices_unchanged { IsBookWell B.honest B.is_stopped self.new → OnErr result (indices_of self.new ≡ indices_of self.old) }
        ensures device { result ≡ Err StoreFault.Device → IsTrue (Q.is_stopped (queue_of self.new)) ⊎ IsTrue (B.is_stopped (book_of self.new)) }
        ensures memory { Q.honest (queue_of self.new) → result ≡ Err StoreFault.Memory → Q.asks_memory ≡ false
            → (rows_in (Q.contents (queue_of self.old) centre) ≢ []) ⊎ (performed_in (core_of centre self.old) (panel_above B.contents centre now self.old) now octets.now ≢ []) }
        ensures exhausted_first { Q.honest (queue_of self.new) → IsBookWell B.honest B.is_stopped self.new → result ≡ Err StoreFault.Memory → Q.asks_memory ≡ false
            → (rows_in (Q.contents (queue_of self.old) centre) ≢ [])
            ⊎ (Exhausts B.contents (outputs_of self.old) (performed_in (core_of centre self.old) (panel_above B.contents centre now self.old) now octets.now) → ⊥) }
        ensures looked_at { IsErr result → is_looked_at (core_of centre self.old) octets.now ≡ true }
        ensures asks { IsErr result → (core_of centre self.old).times.unsolicited ≡ false → MayAsk (core_of centre self.old) (panel_above B.contents centre now self.old) now octets.now }
        ensures asks_announced { IsErr result → (core_of centre self.old).announced ≡ false → MayAsk (core_of centre self.old) (panel_above B.contents centre now self.old) now octets.now }
        ensures asks_stray { IsErr result → case_of (core_of centre self.old) octets.now ≡ case.Stray → is_ready (core_of centre self.old) ≡ true }
        ensures asks_again { IsErr result → case_of (core_of centre self.old) octets.now ≡ case.Again → is_ready (core_of centre self.old) ≡ true }
        ensures memory_idle { Q.honest (queue_of self.new) → result ≡ Err StoreFault.Memory → Q.asks_memory ≡ false
            → case_of (core_of centre self.old) octets.now ≡ case.Confirms
            → (connection_after (above_of Q.contents B.contents centre self.old) (panel_above B.contents centre now self.old) now octets.now).does ≢ nothing }
        ensures asks_held { IsErr result → case_of (core_of centre self.old) octets.now ≡ case.Waits → ⊥ }
        ensures asks_inside { IsErr result → (core_of centre self.old).times.unsolicited ≡ false → function_in octets.now ≡ function_octet function.Read
            → reads_inside (above_of Q.contents B.contents centre self.old) (panel_above B.contents centre now self.old) octets.now ≡ true }
        ensures links { links_of self.new ≡ links_of self.old }
        ensures plan { plan_above self.new ≡ plan_above self.old }
    {
        let reserved = self.reserved_above(centre, now);
        let before = self.outputs.reserve(reserved);
        let mut side = Side::new(&mut self.queue, centre);
        let answer = self
            .cores
            .at_mut(centre)
            .receive(actions, alloc, &mut side, &mut self.outputs, now, octets);
        self.outputs.reserve(before);
        answer
    }
}
