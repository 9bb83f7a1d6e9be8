//! What a sink is.

ghost use Rattle.std.specs.Prelude.{◌≡◌, ◌≢◌, Bool, false, IsTrue, OnOk, IfOk, IfErr, List, [], All};
ghost use Rattle.dnp_objects.specs.Events.{IsEvent};
ghost use Rattle.dnp_eventbuf.specs.SinkCalls.{IsSinkCall};

use dnp_objects::{Row, StoreFault};
use std::alloc::Global;

/// What takes the rows of a response: a journal, or a concentrator's queue and readings.
///
/// What a sink does with rows is its own, and two relations say it: `takes` of an append that was
/// answered Ok, and `keeps` of one that was refused. They hold where the sink is honest as the call
/// ends. Which refusals a call may give holds for every sink. After Device each call that can fail
/// answers Device again, and no call promises anything of what the sink holds.
pub trait Sink {
    ghost use Rattle.dnp_objects.specs.declared.row.Row.{Row};

    /// One append of these events and static rows, for which these rows are dropped, makes the second
    /// sink of the first.
    ghost takes: { Self → List Row → List Row → List Row → Self → Type 0 };

    /// The second sink holds what the first one does.
    ghost keeps: { Self → Self → Type 0 };

    /// With these events an id or a count would pass 2^62.
    ghost exhausts: { Self → List Row → Bool };

    /// So far the store under the sink has given back what was written to it, nobody else has written,
    /// and it has not answered Device. A sink in memory is always honest.
    ghost honest: { Self → Type 0 };

    /// It has answered Device.
    ghost is_stopped: { Self → Bool };

    /// Calls may be out of memory also where no event comes and no row is answered, as those of a
    /// database may.
    ghost asks_memory: { Bool };

    /// Takes the events and the static rows beside them, all or none, and answers the rows that were
    /// dropped for them.
    ///
    /// Exhausted exactly where an id or a count would pass 2^62, else Memory or Device.
    fn append(
        &mut self,
        alloc: Global,
        events: &[Row],
        statics: &[Row],
    ) -> Result<Vec<Row>, StoreFault>
        requires { All IsEvent events.now }
        ensures call { IsSinkCall honest is_stopped keeps self.old self.new result }

        ensures taken { honest self.new → IfOk result (λ dropped. takes self.old events.now statics.now dropped.items self.new) }
        ensures not_exhausted { honest self.new → OnOk result (exhausts self.old events.now ≡ false) }
        ensures exhausted { honest self.new → IfErr result (λ e. e ≡ StoreFault.Exhausted → IsTrue (exhausts self.old events.now)) }
        ensures exhausted_first { honest self.new → IfErr result (λ e. e ≡ StoreFault.Memory → exhausts self.old events.now ≡ false) }
        ensures memory { result ≡ Err StoreFault.Memory → asks_memory ≡ false → events.now ≢ [] };

    /// A sink to which nothing happened holds what it did.
    ghost keeps_itself: { (s : Self) → keeps s s };
}
