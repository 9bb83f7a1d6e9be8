//! A plan and a script, judged and then run.

ghost use Rattle.std.specs.Prelude.{◌≡◌, ◌≢◌, Err, List};
ghost use Rattle.dnp_concentrator.specs.Plan.{KeepsLimits};
ghost use Rattle.dnp_daemons.specs.declared.script.ScriptLine.{ScriptLine};
ghost use Rattle.dnp_daemons.specs.ScriptLines.{lossless_reading_of, reading_of};
ghost use Rattle.dnp_daemons.specs.Simulations.{IsSpokenFor, PlanEnds, TextsEnd};
ghost use Rattle.dnp_daemons.specs.steps.Judging.{reading_by};
ghost use Rattle.dnp_daemons.specs.steps.Readings.{Says};

use crate::plain::plain_world;
use crate::run::ScriptStop;
use crate::run::carried::Carried;
use crate::run::onlooker::{Beside, Nobody, Onlooker};
use crate::run::reporting::run_to_report;
use crate::script::checking::ScriptText;
use crate::sim::judging::{Judged, judge, print_refusal};
use crate::sim::sql::simulate_sql;
use dnp_concentrator::Plan;
use dnp_world::{Carrier, Cause, InMemory};
use std::alloc::Global;
use std::io::Write;

mod judging;
mod sql;

/// Over which stores a script runs, all of them in memory: the concentrator's queue for both centres and its book of controls,
/// and a journal and a book of controls at each centre.
#[derive(Clone, Copy, Debug, PartialEq, Eq)]
pub enum Stores {
    /// SQL databases, as a concentrator and a centre have them in files.
    Sql,
    /// Lists.
    Plain,
}

/// The status of texts that were run.
const DONE: u8 = 0;

/// The status of texts of which one is refused.
const REFUSED: u8 = 1;

/// Runs a script on a new system of the plan, over lists, and prints the report at its end.
fn simulate_plain<C: Carrier + Drop, O: Onlooker + Drop, W: Write>(
    alloc: Global,
    plan: &Plan,
    script: &ScriptText<'_>,
    beside: Beside<C, O>,
    out: &mut W,
) -> Result<(), ScriptStop>
    requires limits { KeepsLimits plan.now }
    requires fits { (lines : List ScriptLine) × Says script.now lines }
    ensures ends { (lines : List ScriptLine) → Says script.now lines → PlanEnds plan.now lines result (W.contents out.old) (W.contents out.new) }
    ensures named { result ≢ Err (ScriptStop.Fault Cause.Exhausted) }
    ensures device { result ≢ Err (ScriptStop.Fault Cause.Device) }
{
    match plain_world(alloc, plan) {
        Ok(world) => {
            let Beside {
                carrier,
                mut onlooker,
            } = beside;
            let mut carried = Carried { world, carrier };
            run_to_report(alloc, &mut carried, script, &mut onlooker, out)
        }
        Err(_) => Err(ScriptStop::Fault(Cause::Memory)),
    }
}

/// Runs a script on a new system of the plan, over such stores, and prints the report at its end.
fn simulate<C: Carrier + Drop, O: Onlooker + Drop, W: Write>(
    alloc: Global,
    plan: &Plan,
    script: &ScriptText<'_>,
    stores: Stores,
    beside: Beside<C, O>,
    out: &mut W,
) -> Result<(), ScriptStop>
    requires limits { KeepsLimits plan.now }
    requires fits { (lines : List ScriptLine) × Says script.now lines }
    ensures ends { IsSpokenFor stores result → (lines : List ScriptLine) → Says script.now lines → PlanEnds plan.now lines result (W.contents out.old) (W.contents out.new) }
    ensures named { result ≢ Err (ScriptStop.Fault Cause.Exhausted) }
    ensures device { stores ≡ Stores.Plain → result ≢ Err (ScriptStop.Fault Cause.Device) }
{
    match stores {
        Stores::Sql => simulate_sql(alloc, plan, script, beside, out),
        Stores::Plain => simulate_plain(alloc, plan, script, beside, out),
    }
}

/// Runs a script on a new system of a plan, whose units may be carried, and prints the report at its end.
fn texts_by<C: Carrier + Drop, O: Onlooker + Drop, W: Write>(
    alloc: Global,
    plan: &str,
    script: &str,
    carried: bool,
    stores: Stores,
    beside: Beside<C, O>,
    out: &mut W,
) -> Result<u8, ScriptStop>
    ensures ends { IsSpokenFor stores result → TextsEnd (reading_by carried) plan.now script.now result (W.contents out.old) (W.contents out.new) }
    ensures named { result ≢ Err (ScriptStop.Fault Cause.Exhausted) }
    ensures device { stores ≡ Stores.Plain → result ≢ Err (ScriptStop.Fault Cause.Device) }
{
    let judged = match judge(alloc, plan, script, carried) {
        Ok(judged) => judged,
        Err(stop) => return Err(stop),
    };
    match judged {
        Judged::Good(plan) => {
            let script = ScriptText {
                text: script,
                substations: plan.substations.as_slice().len(),
                carried,
            };
            match simulate(alloc, &plan, &script, stores, beside, out) {
                Ok(()) => Ok(DONE),
                Err(stop) => Err(stop),
            }
        }
        Judged::NoPlan(number) => match print_refusal(b"plan", number, out) {
            Ok(()) => Ok(REFUSED),
            Err(stop) => Err(stop),
        },
        Judged::NoScript(number) => match print_refusal(b"line", number, out) {
            Ok(()) => Ok(REFUSED),
            Err(stop) => Err(stop),
        },
    }
}

/// Runs a script on a new system of a plan, over such stores, and prints the report at its end: what `run_script` and
/// `print_report` print. It answers 0.
///
/// Both texts are judged before anything runs, first the plan. A plan that is refused is `refused plan` and the number of
/// its `PlanTextFault`, a script `refused line` and the number of its first line that doesn't fit: that line is
/// printed, and the answer is 1.
///
/// SQL databases are asked at the end whether one of them has answered Device: then that is the fault, and what was printed
/// is not spoken for. Lists never answer it, and a fault is never that numbers have run out.
pub fn sim_text<W: Write>(
    alloc: Global,
    plan: &str,
    script: &str,
    stores: Stores,
    out: &mut W,
) -> Result<u8, ScriptStop>
    ensures ends { IsSpokenFor stores result → TextsEnd reading_of plan.now script.now result (W.contents out.old) (W.contents out.new) }
    ensures named { result ≢ Err (ScriptStop.Fault Cause.Exhausted) }
    ensures device { stores ≡ Stores.Plain → result ≢ Err (ScriptStop.Fault Cause.Device) }
{
    sim_text_seen(alloc, plan, script, stores, Nobody, out)
}

/// Runs a script as [`sim_text`] does, while somebody looks on.
pub fn sim_text_seen<O: Onlooker + Drop, W: Write>(
    alloc: Global,
    plan: &str,
    script: &str,
    stores: Stores,
    onlooker: O,
    out: &mut W,
) -> Result<u8, ScriptStop>
    ensures ends { IsSpokenFor stores result → TextsEnd reading_of plan.now script.now result (W.contents out.old) (W.contents out.new) }
    ensures named { result ≢ Err (ScriptStop.Fault Cause.Exhausted) }
    ensures device { stores ≡ Stores.Plain → result ≢ Err (ScriptStop.Fault Cause.Device) }
{
    let beside = Beside {
        carrier: InMemory,
        onlooker,
    };
    texts_by(alloc, plan, script, false, stores, beside, out)
}

/// Runs a script as [`sim_text`] does, and carries each unit of the system's lines before it comes to its end.
///
/// A line that loses, repeats or damages a unit is refused as one that doesn't fit. Where the carrier refuses a unit, the
/// script stops.
pub fn loop_text<C: Carrier + Drop, W: Write>(
    alloc: Global,
    plan: &str,
    script: &str,
    stores: Stores,
    carrier: C,
    out: &mut W,
) -> Result<u8, ScriptStop>
    ensures ends { IsSpokenFor stores result → TextsEnd lossless_reading_of plan.now script.now result (W.contents out.old) (W.contents out.new) }
    ensures named { result ≢ Err (ScriptStop.Fault Cause.Exhausted) }
    ensures device { stores ≡ Stores.Plain → result ≢ Err (ScriptStop.Fault Cause.Device) }
{
    let beside = Beside {
        carrier,
        onlooker: Nobody,
    };
    texts_by(alloc, plan, script, true, stores, beside, out)
}
