//! The words of `dnp rows`.

use crate::numbers::number_given;
use clap::ArgMatches;
use dnp_lines::{Wanted, Wrong};
use dnp_objects::MAX_ID;
use dnp_rows::{Form, Store, Whose};

/// The longest time between two looks, in milliseconds: a day.
const MAX_EVERY: u64 = 86_400_000;

/// What the words of the command line say.
#[derive(Clone, Copy)]
pub(crate) struct Words<'a> {
    /// The path of the file.
    pub path: &'a str,
    /// Which store it holds.
    pub store: Store,
    /// For which centre the rows of a queue are, 1 or 2.
    pub centre: u8,
    /// The id after which rows are printed.
    pub after: u64,
    /// Whether rows that come later are printed too.
    pub follows: bool,
    /// How often is looked for them, in milliseconds.
    pub every_ms: u64,
    /// How rows are printed.
    pub form: Form,
    /// Whose book the controls are of.
    pub whose: Whose,
    /// The files whose names stand in the lines.
    pub names: Option<NameFiles<'a>>,
}

/// The files with what people call stations and points.
#[derive(Clone, Copy)]
pub(crate) struct NameFiles<'a> {
    /// The path of the plan.
    pub plan: &'a str,
    /// The path of its network.
    pub network: &'a str,
}

/// The file that the words name, and the store in it. Where they don't name one, that is printed.
fn file_given<'a, R: Eprint>(rt: &R, given: &ArgMatches<'a>) -> Option<(&'a str, Store)> {
    let journal = given.get_str("journal");
    let queue = given.get_str("queue");
    let controls = given.get_str("controls");
    match (journal, queue, controls) {
        (Some(path), None, None) => Some((path, Store::Journal)),
        (None, Some(path), None) => Some((path, Store::Queue)),
        (None, None, Some(path)) => Some((path, Store::Controls)),
        _ => {
            let wrong = Wrong::Stores;
            let _ = eprintln!(rt; "{wrong}");
            None
        }
    }
}

/// Whose book of controls it is, where the words say so. Where they say it wrongly, that is printed.
fn whose_given<R: Eprint>(rt: &R, given: &ArgMatches<'_>) -> Option<Whose> {
    match given.get_str("of") {
        None => Some(Whose::Anyone),
        Some("centre") => Some(Whose::Centre),
        Some("concentrator") => Some(Whose::Concentrator),
        Some(word) => {
            let wrong = Wrong::Value(word, "of", "WHO", Wanted::Owner);
            let _ = eprintln!(rt; "{wrong}");
            None
        }
    }
}

/// How the words want rows printed. Where they want it in two ways, that is said.
fn form_given<R: Eprint>(rt: &R, given: &ArgMatches<'_>, whose: Whose) -> Option<Form> {
    match (given.get_flag("csv"), given.get_flag("json")) {
        (false, false) => Some(Form::Text(whose)),
        (true, false) => Some(Form::Csv),
        (false, true) => Some(Form::Json),
        (true, true) => {
            let wrong = Wrong::Together("--csv", "--json");
            let _ = eprintln!(rt; "{wrong}");
            None
        }
    }
}

/// The files with what people call stations and points, where the words give them. Where they give no book's owner with them, that is printed.
fn names_given<'a, R: Eprint>(
    rt: &R,
    given: &ArgMatches<'a>,
    store: Store,
    whose: Whose,
) -> Option<Option<NameFiles<'a>>> {
    let (Some(plan), Some(network)) = (given.get_str("plan"), given.get_str("network")) else {
        return Some(None);
    };
    if store == Store::Controls && whose == Whose::Anyone {
        let wrong = Wrong::NoOwner;
        let _ = eprintln!(rt; "{wrong}");
        return None;
    }
    Some(Some(NameFiles { plan, network }))
}

/// What the words say, or none where one is wrong, which is printed.
pub(crate) fn words_given<'a, R: Eprint>(rt: &R, given: &ArgMatches<'a>) -> Option<Words<'a>> {
    let (path, store) = file_given(rt, given)?;
    let whose = whose_given(rt, given)?;
    let form = form_given(rt, given, whose)?;
    let names = names_given(rt, given, store, whose)?;
    let centre = number_given(rt, given, "centre", "N", 1, 2)?;
    let after = number_given(rt, given, "after", "ID", 0, MAX_ID)?;
    let every_ms = number_given(rt, given, "every", "MS", 1, MAX_EVERY)?;
    Some(Words {
        path,
        store,
        centre: u8::try_from(centre).ok()?,
        after,
        follows: given.get_flag("follow"),
        every_ms,
        form,
        whose,
        names,
    })
}
