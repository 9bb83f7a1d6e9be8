//! The options of the subcommands, and what `clap` has to know of them. A [`Command`] is owned by few functions with few ways
//! out, since letting one go is dear to prove: a subcommand is a list of its options, which own nothing.

use clap::{Arg, ArgAction, ArgMatches, Command};
use dnp_lines::Wrong;
use std::alloc::{AllocError, Global};

/// What comes with an option.
#[derive(Clone, Copy)]
enum Takes {
    /// Nothing.
    Nothing,
    /// A value, which this stands for in the help text.
    Value(&'static str),
    /// A value that has to be given.
    Needed(&'static str),
    /// A value that has to be given, unless the option with the second text is.
    NeededUnless(&'static str, &'static str),
    /// A value that is the second text where none is given.
    Defaulted(&'static str, &'static str),
    /// A value that has to be given, without the option's name before it.
    Bare(&'static str),
}

/// An option of a subcommand.
#[derive(Clone, Copy)]
pub(crate) struct Choice {
    /// Its name.
    name: &'static str,
    /// What comes with it.
    takes: Takes,
    /// What its help text says.
    help: &'static str,
    /// An option that can't be given with it.
    excluded: Option<&'static str>,
    /// An option that has to be given with it.
    needed: Option<&'static str>,
}

impl Choice {
    /// The option, where another can't be given with it.
    pub(crate) fn excluding(self, other: &'static str) -> Choice {
        Choice {
            excluded: Some(other),
            ..self
        }
    }

    /// The option, where another has to be given with it.
    pub(crate) fn needing(self, other: &'static str) -> Choice {
        Choice {
            needed: Some(other),
            ..self
        }
    }
}

/// An option that takes this.
fn taking(name: &'static str, takes: Takes, help: &'static str) -> Choice {
    Choice {
        name,
        takes,
        help,
        excluded: None,
        needed: None,
    }
}

/// An option with a value, which `value` stands for in the help text.
pub(crate) fn valued(name: &'static str, value: &'static str, help: &'static str) -> Choice {
    taking(name, Takes::Value(value), help)
}

/// An option with a value that has to be given.
pub(crate) fn required(name: &'static str, value: &'static str, help: &'static str) -> Choice {
    taking(name, Takes::Needed(value), help)
}

/// An option with a value that has to be given, unless `other` is, with which it can't be given.
pub(crate) fn required_unless(
    name: &'static str,
    value: &'static str,
    other: &'static str,
    help: &'static str,
) -> Choice {
    taking(name, Takes::NeededUnless(value, other), help).excluding(other)
}

/// An option with a value that is `default` where none is given.
pub(crate) fn defaulted(
    name: &'static str,
    value: &'static str,
    default: &'static str,
    help: &'static str,
) -> Choice {
    taking(name, Takes::Defaulted(value, default), help)
}

/// An option without a value.
pub(crate) fn flag(name: &'static str, help: &'static str) -> Choice {
    taking(name, Takes::Nothing, help)
}

/// A value that has to be given, without a name before it.
pub(crate) fn bare(name: &'static str, value: &'static str, help: &'static str) -> Choice {
    taking(name, Takes::Bare(value), help)
}

/// The option that names the plan's file.
pub(crate) fn plan() -> Choice {
    required("plan", "FILE", "The plan of the system, as TOML")
}

/// The option that names the network's file.
pub(crate) fn network() -> Choice {
    valued(
        "network",
        "FILE",
        "The hosts and names of the stations, as TOML; needs --plan",
    )
}

/// An option of this name with a value, which `value` stands for in the help text. A number below 0 is its value too, so that it
/// is judged as one, and not taken for an option that there isn't.
fn named<'a>(arg: Arg<'a>, name: &'static str, value: &'static str) -> Arg<'a> {
    arg.long(name)
        .value_name(value)
        .allow_negative_numbers(true)
}

/// What `clap` has to know of an option by itself.
fn alone<'a>(alloc: Global, choice: &Choice) -> Arg<'a> {
    let arg = Arg::new(alloc, choice.name).help(choice.help);
    match choice.takes {
        Takes::Nothing => arg.long(choice.name).action(ArgAction::SetTrue),
        Takes::Value(value) | Takes::NeededUnless(value, _) => named(arg, choice.name, value),
        Takes::Needed(value) => named(arg, choice.name, value).required(true),
        Takes::Defaulted(value, default) => named(arg, choice.name, value).default_value(default),
        Takes::Bare(value) => arg.value_name(value).required(true),
    }
}

/// What `clap` has to know of an option.
fn arg_of<'a>(alloc: Global, choice: &Choice) -> Result<Arg<'a>, AllocError> {
    let arg = match choice.excluded {
        Some(other) => alone(alloc, choice).conflicts_with(other)?,
        None => alone(alloc, choice),
    };
    match (choice.takes, choice.needed) {
        (Takes::NeededUnless(_, other), _) => arg.required_unless_present(other),
        (_, Some(other)) => arg.requires_arg(other),
        (_, None) => Ok(arg),
    }
}

/// A command with one option more.
fn with_choice<'a>(
    alloc: Global,
    command: Command<'a>,
    choice: &Choice,
) -> Result<Command<'a>, AllocError> {
    match arg_of(alloc, choice) {
        Ok(arg) => command.arg(arg),
        Err(fault) => Err(fault),
    }
}

/// What `clap` has to know of a subcommand with this name, what it does in a line, what its help text says after the
/// options, and the options.
pub(crate) fn subcommand<'a>(
    alloc: Global,
    name: &'static str,
    about: &'static str,
    after: &'static str,
    choices: &[Choice],
) -> Result<Command<'a>, AllocError> {
    let mut command = Command::new(alloc, name).about(about).after_help(after);
    for choice in choices {
        command = with_choice(alloc, command, choice)?;
    }
    Ok(command)
}

/// The pace of a program without `--every`, unless `--forever` is given, which needs it or `--network`. That is printed.
pub(crate) fn without_every<R: Eprint, P: Drop>(
    rt: &R,
    given: &ArgMatches<'_>,
    pace: P,
) -> Option<P> {
    if given.get_flag("forever") && given.get_str("network").is_none() {
        let wrong = Wrong::Needs("--forever", "--every");
        let _ = eprintln!(rt; "{wrong}");
        return None;
    }
    Some(pace)
}
