//! A command line that is wrong.

use dnp_orders::{CodeDoubt, ToldFault};

/// What the value of an option should be, or why it can't be what it is.
#[derive(Clone, Copy)]
pub enum Wanted<'a> {
    /// A decimal number from this one to that one.
    Number(u64, u64),
    /// A decimal number with at most so many digits behind its point.
    Decimal(u32),
    /// Kinds of faults and how often they come.
    Faults,
    /// A link address.
    LinkAddress,
    /// An IP address.
    IpAddress,
    /// `yes` or `no`.
    YesOrNo,
    /// Digits of classes.
    Classes,
    /// A time of the clock.
    Time,
    /// A time between rounds.
    Interval,
    /// Points of a group.
    Points,
    /// The owner of a book.
    Owner,
    /// A substation of the plan.
    Substation,
    /// A substation of the plan, which has so many.
    SubstationBelow(usize),
    /// An output of the substation with this number, which has so many.
    Output(u8, u16),
    /// A setpoint of the substation with this number, which has so many.
    Setpoint(u8, u16),
    /// The words of a command, in which this is wrong.
    Order(ToldFault<'a>),
    /// A code of which this is to be doubted.
    Certain(CodeDoubt),
}

/// Why the files that `dnp sim` is to write can't be those.
#[derive(Clone, Copy)]
pub enum Misuse {
    /// A chart or a capture would go to standard output.
    Standard,
    /// The trace and the report would both go there.
    Both,
    /// Two of them are one file.
    OneFile,
    /// One of them is the plan.
    Plan,
    /// Disks would fail, though the stores are lists.
    Disks,
}

/// Why two options can't be given together, with what to do.
#[derive(Clone, Copy)]
pub enum Apart {
    /// What is listened to comes by itself, so that nothing is asked again.
    Listening,
    /// What isn't confirmed is sent again.
    Unconfirmed,
    /// A table has no lines with JSON or times.
    Untabled,
}

/// What is wrong with a command line.
#[derive(Clone, Copy)]
pub enum Wrong<'a> {
    /// A word is not UTF-8.
    NotText,
    /// This value of the option with this name, whose value help calls so.
    Value(&'a str, &'a str, &'a str, Wanted<'a>),
    /// This is no host and port.
    Place(&'a str),
    /// Both centres would have this port.
    SamePorts(u64),
    /// The book of controls would have the file at this path, which is that of the option with this name.
    SameFile(&'a str, &'a str),
    /// Not all substations have a port from this one on.
    NoPorts(u16),
    /// The network in the file at this path has no second centre.
    NoCentre(&'a str),
    /// These can't be given together.
    Together(&'a str, &'a str),
    /// These can't be given together, for this reason.
    Apart(&'a str, &'a str, Apart),
    /// The first needs the second.
    Needs(&'a str, &'a str),
    /// No store is named, or more than one.
    Stores,
    /// A book of controls is to be printed with names, and whose it is isn't said.
    NoOwner,
    /// These files can't be written.
    Misuse(Misuse),
}

/// A word that a subcommand doesn't take: what `clap` says up to the word, how the words of the subcommand are meant, and what `clap`
/// says of its usage.
#[derive(Clone, Copy)]
pub struct Untaken<'a>(pub &'a str, pub &'a str, pub &'a str);
