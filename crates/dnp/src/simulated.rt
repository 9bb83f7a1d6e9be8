//! `dnp sim --hours`: a network of nodes in virtual time, with what fails by a seed.

ghost use Rattle.dnp_concentrator.specs.Plan.{KeepsLimits};

use crate::looks::write_file;
use crate::numbers::number_given;
use crate::options::{Choice, valued};
use clap::ArgMatches;
use dnp_concentrator::Plan;
use dnp_inputs::network_file::network_given;
use dnp_inputs::plan_file::plan_given;
use dnp_lines::{Misuse, Wanted, Wrong};
use dnp_master::Classes;
use dnp_network::{ClassSet, Network, Polling};
use dnp_simulation::{
    FaultRates, LinkPolling, Outcome, Pollings, Settings, StoreKind, names_disks, read_decimal,
    read_faults, simulate, usual_polling,
};
use dnp_tcp::{exit, unwritten};
use std::alloc::AllocError;
use std::io;
use std::io::Write;
use std::process::ExitCode;
use std::rt::Files;

/// What is said of the options.
const HOURS: &str = "Run a network in virtual time for so long, no script; excludes --limit";

const SEED: &str = "What decides all that happens by chance; needs --hours";

const RATE: &str = "Changes a second at each substation, as 0.05; needs --hours";

const FAULTS: &str = "Faults an hour and place, as cut=2,kill=0; needs --hours";

const PICTURE: &str = "Draw the events that wait and their age (SVG); needs --hours";

const TRACE_FROM: &str = "Print each step from this moment on; needs --hours";

const NETWORK: &str = "How the links are polled (network file, TOML); needs --hours";

/// The options of a network in virtual time.
pub(crate) fn hours() -> Choice {
    valued("hours", "N", HOURS).excluding("limit")
}

/// The seed.
pub(crate) fn seed() -> Choice {
    valued("seed", "S", SEED).needing("hours")
}

/// The rate of changes.
pub(crate) fn rate() -> Choice {
    valued("rate", "EVENTS", RATE).needing("hours")
}

/// The rates of faults.
pub(crate) fn faults() -> Choice {
    valued("faults", "RATES", FAULTS).needing("hours")
}

/// The file of the picture.
pub(crate) fn picture() -> Choice {
    valued("picture", "FILE", PICTURE).needing("hours")
}

/// The moment from which on steps are printed.
pub(crate) fn trace_from() -> Choice {
    valued("trace-from", "MS", TRACE_FROM).needing("hours")
}

/// The file of the network, for how its links are polled.
pub(crate) fn polled_network() -> Choice {
    valued("network", "FILE", NETWORK).needing("hours")
}

/// Milliseconds of a thousandth of an hour.
const THOUSANDTH: u64 = 3_600;

/// The longest time, in thousandths of an hour.
const MAX_HOURS: u64 = 100_000_000;

/// A thousand million: milliseconds from one change to the next, times changes a second in millionths.
const THOUSAND_MILLION: u64 = 1_000_000_000;

/// Milliseconds from one change to the next where no rate is given, and from one command to the next.
const MINUTE: u64 = 60_000;

/// The decimal number that an option gives, from `least` to `most` parts of one. Where it gives none, what is wrong is printed.
fn decimal_given<R: Eprint>(
    rt: &R,
    given: &ArgMatches<'_>,
    option: &'static str,
    name: &'static str,
    places: u32,
    range: (u64, u64),
) -> Option<u64> {
    let text = given.get_str(option).unwrap_or("");
    let (least, most) = range;
    match read_decimal(text, places) {
        Some(number) if least <= number && number <= most => Some(number),
        _ => {
            let wrong = Wrong::Value(text, option, name, Wanted::Decimal(places));
            let _ = eprintln!(rt; "{wrong}");
            None
        }
    }
}

/// Milliseconds from one change to the next by the given rate.
fn change_ms<R: Eprint>(rt: &R, given: &ArgMatches<'_>) -> Option<u64> {
    if given.get_str("rate").is_none() {
        return Some(MINUTE);
    }
    let rate = decimal_given(rt, given, "rate", "EVENTS", 6, (1, THOUSAND_MILLION))?;
    THOUSAND_MILLION.checked_div(rate)
}

/// How often what fails, by the given words.
fn rates_given<R: Eprint>(rt: &R, given: &ArgMatches<'_>) -> Option<FaultRates> {
    let Some(text) = given.get_str("faults") else {
        return Some(FaultRates::ONCE);
    };
    let Some(rates) = read_faults(text) else {
        let wrong = Wrong::Value(text, "faults", "RATES", Wanted::Faults);
        let _ = eprintln!(rt; "{wrong}");
        return None;
    };
    if given.get_flag("plain") && names_disks(text) {
        let wrong = Wrong::Misuse(Misuse::Disks);
        let _ = eprintln!(rt; "{wrong}");
        return None;
    }
    Some(rates)
}

/// What the stores of the network are, by the given words.
fn stores_given(given: &ArgMatches<'_>) -> StoreKind {
    if given.get_flag("plain") {
        StoreKind::Lists
    } else {
        StoreKind::Disks
    }
}

/// The moment from which on steps are told, by the given words.
fn trace_given<R: Eprint>(rt: &R, given: &ArgMatches<'_>) -> Option<Option<u64>> {
    if given.get_str("trace-from").is_none() {
        return Some(None);
    }
    let from = number_given(rt, given, "trace-from", "MS", 0, u64::MAX)?;
    Some(Some(from))
}

/// The number that seeds all chance, by the given words.
fn seed_given<R: Eprint>(rt: &R, given: &ArgMatches<'_>) -> Option<u64> {
    if given.get_str("seed").is_none() {
        return Some(1);
    }
    number_given(rt, given, "seed", "S", 0, u64::MAX)
}

/// What the network is run by. Where a word is wrong, that is said.
fn settings_given<R: Eprint>(rt: &R, given: &ArgMatches<'_>) -> Option<Settings> {
    let hours = decimal_given(rt, given, "hours", "N", 3, (100, MAX_HOURS))?;
    let seed = seed_given(rt, given)?;
    let change_ms = change_ms(rt, given)?;
    let rates = rates_given(rt, given)?;
    let trace_from = trace_given(rt, given)?;
    Some(Settings {
        seed,
        length_ms: hours.saturating_mul(THOUSANDTH),
        change_ms: change_ms.max(1),
        control_ms: MINUTE,
        stores: stores_given(given),
        rates,
        trace_from,
    })
}

/// These classes, as a master polls them.
fn classes_of(classes: ClassSet) -> Classes {
    Classes([classes.zero, classes.one, classes.two, classes.three])
}

/// How the link at a place is polled, if the file of a network says this of it.
fn link_polling(plan: &Plan, place: u8, polling: &Polling) -> LinkPolling {
    let mut link = usual_polling(plan, place);
    let enables = !polling.unsolicited.is_without_events();
    link.pace.events_ms = polling.events_ms;
    link.pace.integrity_ms = polling.integrity_ms;
    link.pace.time_ms = polling.time_ms;
    link.pace.keepalive_ms = polling.keepalive_ms;
    link.pace.poll_ms = polling.poll_ms;
    link.pace.writes_time = polling.writes_time;
    link.pace.disables = enables || plan.times.unsolicited;
    link.pace.enables = enables;
    link.classes.integrity = classes_of(polling.poll);
    link.classes.events = classes_of(polling.events);
    link.classes.unsolicited = classes_of(polling.unsolicited);
    link
}

/// Takes over how the links are polled by the file of a network.
fn put_pollings(plan: &Plan, network: &Network, pollings: &mut Pollings) -> Result<(), AllocError> {
    for (place, site) in network.substations.as_slice().iter().enumerate() {
        let number = u8::try_from(place).unwrap_or(u8::MAX);
        pollings
            .below
            .push(link_polling(plan, number, &site.polling))?;
    }
    pollings.above = Some(link_polling(plan, 0, &network.centre_polling));
    Ok(())
}

/// Takes over how the links are polled by the given words. Where the network's file can't be read or is refused, that is said, and the
/// exit status is told.
fn put_given<R: AllocGlobal + Eprint + Files>(
    rt: &R,
    given: &ArgMatches<'_>,
    plan: &Plan,
    pollings: &mut Pollings,
) -> Result<Option<ExitCode>, AllocError>
    requires { KeepsLimits plan.now }
{
    let Some(path) = given.get_str("network") else {
        return Ok(None);
    };
    match network_given(rt, path, plan)? {
        Ok(network) => match put_pollings(plan, &network, pollings) {
            Ok(()) => Ok(None),
            Err(fault) => Err(fault),
        },
        Err(status) => Ok(Some(status)),
    }
}

/// How the links are polled by the given words. Where the network's file can't be read or is refused, that is said, and the exit
/// status is told.
fn pollings_given<R: AllocGlobal + Eprint + Files>(
    rt: &R,
    given: &ArgMatches<'_>,
    plan: &Plan,
) -> Result<Result<Pollings, ExitCode>, AllocError>
    requires { KeepsLimits plan.now }
{
    let mut pollings = Pollings::none(rt.alloc());
    match put_given(rt, given, plan, &mut pollings)? {
        Some(status) => Ok(Err(status)),
        None => Ok(Ok(pollings)),
    }
}

/// Runs a network by the given words, and tells the exit status.
pub(crate) fn run<R: AllocGlobal + Print + Eprint + Files>(
    rt: &R,
    given: &ArgMatches<'_>,
) -> anyhow::Result<ExitCode> {
    let Some(settings) = settings_given(rt, given) else {
        return Ok(ExitCode::from(exit::USAGE));
    };
    let plan = match plan_given(rt, given.get_str("plan").unwrap_or("")) {
        Ok(plan) => plan,
        Err(status) => return Ok(status),
    };
    let pollings = match pollings_given(rt, given, &plan)? {
        Ok(pollings) => pollings,
        Err(status) => return Ok(status),
    };
    let outcome = simulate(rt.alloc(), plan, pollings, settings)?;
    show(rt, given, &outcome)
}

/// Draws the picture of what came of a network, if it is asked for. Where its file can't be written, that is said, and the exit
/// status is told.
fn draw<R: AllocGlobal + Eprint + Files>(
    rt: &R,
    given: &ArgMatches<'_>,
    outcome: &Outcome,
) -> anyhow::Result<Option<ExitCode>> {
    match given.get_str("picture") {
        Some(path) => write_file(rt, path, outcome.picture(rt.alloc())),
        None => Ok(None),
    }
}

/// Draws and prints what came of a network, and tells the exit status.
fn show<R: AllocGlobal + Print + Eprint + Files>(
    rt: &R,
    given: &ArgMatches<'_>,
    outcome: &Outcome,
) -> anyhow::Result<ExitCode> {
    if let Some(status) = draw(rt, given, outcome)? {
        return Ok(status);
    }
    let text = outcome.said(rt.alloc(), given.get_flag("json"))?;
    match io::writer(rt).write_all(text.as_bytes()) {
        Ok(()) => Ok(status_of(outcome)),
        Err(cause) => Ok(unwritten(rt, &cause)),
    }
}

/// The exit status of what came of a network.
fn status_of(outcome: &Outcome) -> ExitCode {
    if outcome.holds() {
        ExitCode::from(exit::DONE)
    } else {
        ExitCode::from(exit::REFUSED)
    }
}
