//! The words that name the texts of a plan and a script, and how a script over them ends.

use crate::numbers::number_given;
use crate::options::{Choice, defaulted, flag};
use crate::wire::Wire;
use clap::ArgMatches;
use dnp_daemons::{ScriptStop, Stores};
use dnp_inputs::{Texts, explain, read_texts, say_stop};
use dnp_tcp::{Noted, exit, unwritten};
use std::io::{BufWriter, Write};
use std::process::ExitCode;
use std::rt::Files;

/// The most octets that `--limit` can allow: 2^40.
const MAX_LIMIT: u64 = 1 << 40;

/// What is said of the option for the limit.
const LIMIT: &str = "The most octets of the script, 1 to 1099511627776";

/// What is said of the option for the stores.
const PLAIN: &str = "Use lists instead of SQL databases in memory";

/// The option that says over which stores a script runs.
pub(crate) fn plain() -> Choice {
    flag("plain", PLAIN)
}

/// Over which stores the script runs by the given words.
pub(crate) fn stores_given(given: &ArgMatches<'_>) -> Stores {
    if given.get_flag("plain") {
        Stores::Plain
    } else {
        Stores::Sql
    }
}

/// The option that says how many octets of a script are read.
pub(crate) fn limit() -> Choice {
    defaulted("limit", "OCTETS", "67108864", LIMIT)
}

/// The texts that the given words name. Where one of them is wrong or can't be read, or the plan is refused, that is said,
/// and the exit status is told.
pub(crate) fn texts_given<R: AllocGlobal + Input + Print + Eprint + Files>(
    rt: &R,
    given: &ArgMatches<'_>,
) -> anyhow::Result<Result<Texts, ExitCode>> {
    match number_given(rt, given, "limit", "OCTETS", 1, MAX_LIMIT) {
        Some(limit) => read_texts(rt, given.get_str("plan").unwrap_or(""), limit),
        None => Ok(Err(ExitCode::from(exit::USAGE))),
    }
}

/// Writes what the buffer still holds, and gives the exit status of texts that came to this end, over this wire where the
/// units were carried. Where the output is lost, the script is refused, lines of it did nothing, or it was not run to its
/// report, that is said on standard error.
pub(crate) fn finish<R: AllocGlobal + Eprint, W: Write + Drop>(
    rt: &R,
    texts: &Texts,
    carried: Option<&Wire>,
    out: &mut BufWriter<Noted<W>>,
    ended: Result<u8, ScriptStop>,
) -> anyhow::Result<ExitCode> {
    let flushed = out.flush();
    if let Some(cause) = out.get_ref().cause() {
        return Ok(unwritten(rt, cause));
    }
    flushed?;
    match ended {
        Ok(status) => {
            explain(rt, texts, carried.is_some(), status);
            Ok(ExitCode::from(status))
        }
        Err(stop) => {
            let is_lost = carried.is_some_and(|wire| wire.cause().is_some());
            say_stop(rt, stop, is_lost);
            Ok(ExitCode::from(exit::FAULT))
        }
    }
}
