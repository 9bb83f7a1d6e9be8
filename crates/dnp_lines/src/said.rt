//! The texts of the lines that the program says by itself, all of them.

use crate::input::{
    AtLine, AtOctet, Given, Line, Meant, Misfit, NotToml, Of, Own, Refused, Starved, TextPlace,
};
use crate::running::{Begun, Doing, Found, LookedUp, SentCode, Version, Whose};
use crate::wrong::{Apart, Misuse, Untaken, Wanted, Wrong};
use dnp_orders::CodeNames;
use sqlite::{Error, ErrorCode};
use std::fmt;
use std::fmt::{Display, Formatter, Write};

impl<'a> Line<'a> {
    /// What is said of a store.
    fn put_store<W: Write>(&self, f: &mut Formatter<W>) -> fmt::Result {
        match *self {
            Line::Other(path, wanted, found, option) => write!(
                f,
                "{path}: no {wanted}: a {found} is there, whose rows '{option}' prints"
            ),
            Line::NoDatabase(path, store) => {
                let error = Error::SqliteFailure(ErrorCode::NotADatabase);
                write!(f, "{path}: no {store}: {error}")
            }
            Line::NotMade(path, store) => write!(
                f,
                "{path}: no {store} was made there: remove the file, and let '--new' make one"
            ),
            Line::OldForm(path, store) => write!(
                f,
                "{path}: a {store} of an earlier release, for one centre: let '--migrate' bring it to the form for two"
            ),
            Line::Behind(path, last) => write!(
                f,
                "{path}: its last id is {last}: another file than the one that ids were taken from"
            ),
            Line::NoStore(path, store) => write!(f, "{path}: no {store}, or not whole"),
            _ => Ok(()),
        }
    }
}

impl<'a> Display for Line<'a> {
    fn fmt<W: Write>(&self, f: &mut Formatter<W>) -> fmt::Result {
        f.write_str("dnp: ")?;
        match *self {
            Line::Over(name, most) => write!(f, "{name}: over {most} octets"),
            Line::OverLimit(limit) => write!(
                f,
                "standard input: over the {limit} octets that '--limit' allows"
            ),
            Line::NotText(path) => write!(f, "{path}: not UTF-8, where a text belongs"),
            Line::NoMemory(path) => write!(f, "{path}: out of memory"),
            Line::Changed(path) => write!(f, "{path}: changed each time while it was read"),
            Line::Replay(path, line, misfit) => write!(f, "{path}: line {line}: {misfit}"),
            _ => self.put_store(f),
        }
    }
}

impl<'a, T: Display> Display for Own<'a, T> {
    fn fmt<W: Write>(&self, f: &mut Formatter<W>) -> fmt::Result {
        write!(f, "dnp: {}", self.0)
    }
}

impl<'a, T: Display> Display for Of<'a, T> {
    fn fmt<W: Write>(&self, f: &mut Formatter<W>) -> fmt::Result {
        write!(f, "dnp: {}: {}", self.0, self.1)
    }
}

impl<'a, T: Display> Display for AtOctet<'a, T> {
    fn fmt<W: Write>(&self, f: &mut Formatter<W>) -> fmt::Result {
        write!(f, "dnp: standard input: octet {}: {}", self.0, self.1)
    }
}

impl<'a, T: Display> Display for AtLine<'a, T> {
    fn fmt<W: Write>(&self, f: &mut Formatter<W>) -> fmt::Result {
        write!(f, "dnp: standard input: line {}: {}", self.0, self.1)
    }
}

impl<'a, T: Display> Display for Starved<'a, T> {
    fn fmt<W: Write>(&self, f: &mut Formatter<W>) -> fmt::Result {
        write!(f, "dnp: {}: out of memory", self.0)
    }
}

/// What a network is that is no TOML.
pub const NETWORK: &str = "the network is no TOML";

/// What has failed where the wire of `dnp loopback` did.
pub const WIRE: &str = "the connection to this program itself";

impl<'a, T: Display> Display for NotToml<'a, T> {
    fn fmt<W: Write>(&self, f: &mut Formatter<W>) -> fmt::Result {
        let TextPlace { line, column } = self.1;
        write!(
            f,
            "dnp: {}: line {line}, column {column}: {}: {}",
            self.0, self.2, self.3
        )
    }
}

impl Display for Misfit {
    fn fmt<W: Write>(&self, f: &mut Formatter<W>) -> fmt::Result {
        f.write_str(match self {
            Misfit::NotText => "the file is not UTF-8",
            Misfit::Ms => "word 1: a whole number of milliseconds from the start belongs there",
            Misfit::Falls => "word 1: it falls below that of the line before",
            Misfit::Verb => "word 2: change belongs there",
            Misfit::Kind => "word 3: binary, counter or analog belongs there",
            Misfit::Index => "word 4: a whole number from 0 to 65535 belongs there",
            Misfit::Value => "word 5: a whole number belongs there",
            Misfit::Flags => "word 6: a word of two hexadecimal digits belongs there",
            Misfit::Time => {
                "word 7: a time in milliseconds below 281474976710656, - or now belongs there"
            }
            Misfit::Words => "word 8: nothing belongs behind MS change KIND I VALUE FLAGS TIME",
            Misfit::Again => "word 1: with '--repeat' the last change has to be due after 0 ms",
        })
    }
}

impl<'a> Display for Refused<'a> {
    fn fmt<W: Write>(&self, f: &mut Formatter<W>) -> fmt::Result {
        match self {
            Refused::Plan(number) => write!(f, "refused plan {number}"),
            Refused::Line(line) => write!(f, "refused line {line}"),
            Refused::Capture(name) => write!(f, "refused capture {name}"),
        }
    }
}

impl<'a> Display for Version<'a> {
    fn fmt<W: Write>(&self, f: &mut Formatter<W>) -> fmt::Result {
        match self.1 {
            Some(build) => write!(f, "dnp {} ({build})", self.0),
            None => write!(f, "dnp {}", self.0),
        }
    }
}

impl<'a> Display for Begun<'a> {
    fn fmt<W: Write>(&self, f: &mut Formatter<W>) -> fmt::Result {
        let build = self.1.unwrap_or("build unknown");
        write!(f, "started: dnp {} ({build})", self.0)
    }
}

impl Display for Doing {
    fn fmt<W: Write>(&self, f: &mut Formatter<W>) -> fmt::Result {
        match self {
            Doing::Checking(octets) => {
                write!(f, "dnp: checking the script of {octets} octets ..")
            }
            Doing::Running(percent) => write!(f, "dnp: running the script: {percent} %"),
        }
    }
}

impl Display for SentCode {
    fn fmt<W: Write>(&self, f: &mut Formatter<W>) -> fmt::Result {
        let code = self.0;
        let names = CodeNames(code);
        write!(f, "code {code} = 0x{code:02X}: {names}")
    }
}

impl Display for Whose {
    fn fmt<W: Write>(&self, f: &mut Formatter<W>) -> fmt::Result {
        match self {
            Whose::Concentrator => f.write_str("concentrator"),
            Whose::Substation(number) => write!(f, "substation {number}"),
        }
    }
}

impl Display for LookedUp<'_> {
    fn fmt<W: Write>(&self, f: &mut Formatter<W>) -> fmt::Result {
        let LookedUp {
            path,
            whose,
            key,
            endpoint,
            ms,
            ..
        } = *self;
        match self.found {
            Found::At(address) => write!(f, "{endpoint} is {address}: looked up in {ms} ms"),
            Found::Nowhere => write!(
                f,
                "{path}: {whose}, {key}: {endpoint} has no address: looked up in {ms} ms"
            ),
            Found::Failed(cause) => write!(
                f,
                "{path}: {whose}, {key}: {endpoint} can't be looked up: {cause}, after {ms} ms"
            ),
        }
    }
}

/// What stands behind each line of a command line that is wrong.
const HINT: &str = "\n\nFor more information, try '--help'.";

impl<'a> Display for Wanted<'a> {
    fn fmt<W: Write>(&self, f: &mut Formatter<W>) -> fmt::Result {
        match self {
            Wanted::Number(least, most) => {
                write!(f, "not a decimal number from {least} to {most}")
            }
            Wanted::Decimal(places) => write!(
                f,
                "not a decimal number in its range with at most {places} digits behind the point"
            ),
            Wanted::Faults => f.write_str(
                "not kinds as cut, half, freeze, refuse, kill, clock, delay, stop and full, each maybe with '=' and a rate from 0 to 1000",
            ),
            Wanted::LinkAddress => f.write_str("not a decimal number from 0 to 65519"),
            Wanted::IpAddress => f.write_str("not an IP address"),
            Wanted::YesOrNo => f.write_str("not 'yes' or 'no'"),
            Wanted::Classes => f.write_str("not digits of 0 to 3, each once"),
            Wanted::Time => f.write_str("not 'now', nor a decimal number below 2^48"),
            Wanted::Interval => f.write_str("not a time as 500ms, 5s, 2m or 1h, a day at most"),
            Wanted::Points => {
                f.write_str("not a group, a variation and indices, as 30.1:0-9 or 1.2:7")
            }
            Wanted::Owner => f.write_str("'centre' or 'concentrator' belongs there"),
            Wanted::Substation => f.write_str("the plan has no such substation"),
            Wanted::SubstationBelow(count) => {
                write!(f, "the plan has no substation from {count} on")
            }
            Wanted::Output(substation, count) => write!(
                f,
                "substation {substation} of the plan has no output from {count} on"
            ),
            Wanted::Setpoint(substation, count) => write!(
                f,
                "substation {substation} of the plan has no setpoint from {count} on"
            ),
            Wanted::Order(told) => write!(f, "{told}"),
            Wanted::Certain(doubt) => write!(f, "{doubt} ('--raw' sends it all the same)"),
        }
    }
}

impl Display for Apart {
    fn fmt<W: Write>(&self, f: &mut Formatter<W>) -> fmt::Result {
        f.write_str(match self {
            Apart::Listening => {
                "an outstation sends its events by itself while '--listen' waits, so leave out one of them"
            }
            Apart::Unconfirmed => {
                "an outstation sends an event again until it is confirmed, so leave out one of them"
            }
            Apart::Untabled => {
                "the table alone has a height, and with the other there is none, so leave out one of them"
            }
        })
    }
}

impl<'a> Wrong<'a> {
    /// The option, and what is wrong with its value.
    fn put_value<W: Write>(
        f: &mut Formatter<W>,
        text: &str,
        option: &str,
        name: &str,
        wanted: &Wanted<'_>,
    ) -> fmt::Result {
        let shown = text.escape_debug();
        write!(
            f,
            "invalid value '{shown}' for '--{option} <{name}>': {wanted}"
        )
    }

    /// What is wrong, where no value alone is.
    fn put_rest<W: Write>(&self, f: &mut Formatter<W>) -> fmt::Result {
        match *self {
            Wrong::Together(one, other) => {
                write!(f, "'{one}' and '{other}' can't be used together")
            }
            Wrong::Apart(one, other, why) => {
                write!(f, "'{one}' and '{other}' can't be used together: {why}")
            }
            Wrong::Needs(one, other) => write!(f, "'{one}' needs '{other}'"),
            Wrong::Stores => f.write_str(
                "one of '--journal <FILE>', '--queue <FILE>' and '--controls <FILE>' is needed, and no more",
            ),
            Wrong::NoOwner => f.write_str(
                "'--controls <FILE>' with '--network <FILE>' needs '--of <WHO>', since the indices of a centre's book are others than those of a concentrator's",
            ),
            Wrong::Misuse(Misuse::Standard) => {
                f.write_str("only '--trace' can go to standard output")
            }
            Wrong::Misuse(Misuse::Both) => {
                f.write_str("'--json' and '--trace -' can't be used together")
            }
            Wrong::Misuse(Misuse::OneFile) => {
                f.write_str("'--trace', '--chart' and '--capture' can't name one file")
            }
            Wrong::Misuse(Misuse::Plan) => f.write_str("the plan's file can't be written over"),
            Wrong::Misuse(Misuse::Disks) => f.write_str(
                "'--faults' can't have stop or full with '--plain', since lists are on no disk",
            ),
            _ => f.write_str("a word of the command line is not UTF-8 text"),
        }
    }
}

impl<'a> Display for Wrong<'a> {
    fn fmt<W: Write>(&self, f: &mut Formatter<W>) -> fmt::Result {
        f.write_str("error: ")?;
        match *self {
            Wrong::Value(text, option, name, wanted) => {
                Wrong::put_value(f, text, option, name, &wanted)?;
            }
            Wrong::Place(text) => {
                let shown = text.escape_debug();
                write!(
                    f,
                    "invalid value '{shown}' for '<HOST:PORT>': not a host, a colon, and a port from 1 to 65535"
                )?;
            }
            Wrong::SamePorts(port) => write!(
                f,
                "invalid value '{port}' for '--port2 <P>': it is that of --port, and each centre has a port of its own"
            )?,
            Wrong::SameFile(path, other) => {
                let shown = path.escape_debug();
                write!(
                    f,
                    "invalid value '{shown}' for '--controls <FILE>': it is that of --{other}, and each store has a file of its own"
                )?;
            }
            Wrong::NoPorts(below) => write!(
                f,
                "invalid value '{below}' for '--below <P>': the port of the plan's last substation would be over 65535"
            )?,
            Wrong::NoCentre(path) => write!(
                f,
                "invalid value '2' for '--number <N>': {path} has no second centre: listen2 is missing in [concentrator]"
            )?,
            _ => self.put_rest(f)?,
        }
        f.write_str(HINT)
    }
}

impl<'a> Display for Untaken<'a> {
    fn fmt<W: Write>(&self, f: &mut Formatter<W>) -> fmt::Result {
        write!(
            f,
            "{}' found\n\n  tip: {}\n\nUsage: {}",
            self.0, self.1, self.2
        )
    }
}

impl<'a> Display for Given<'a> {
    fn fmt<W: Write>(&self, f: &mut Formatter<W>) -> fmt::Result {
        let how = match self.1 {
            Meant::Plan => "a plan, which '--plan <FILE>' names",
            Meant::Network => "a network file, which '--network <FILE>' names",
            Meant::Points => "a table of points, which 'points' of a network file names",
            Meant::Script => "a script, which 'dnp sim' reads from standard input",
            Meant::Capture => "a capture, which '--pcap <FILE>' names",
            Meant::Octets => "octets of frames, which '--raw' reads from standard input",
            Meant::Hexadecimal => {
                "hexadecimal octets, which 'dnp decode' reads from standard input"
            }
        };
        write!(f, "dnp: {}: tip: it looks like {how}", self.0)
    }
}

/// How the words of a subcommand are meant, for one who gave it a word without an option's name.
pub fn tip_of(subcommand: &str) -> Option<&'static str> {
    match subcommand {
        "answer" => Some("the frame stands on standard input, as in 'dnp answer <FILE'"),
        "centre" => Some(
            "each file has its option's name before it, and the words of a control stand within quotation marks, as in --issue '0 trip 3 100ms'",
        ),
        "check" => Some(
            "'--plan <FILE>' names the plan, and '--network <FILE>' says where its stations are",
        ),
        "concentrate" => {
            Some("each file and each port has its option's name before it, as in '--plan <FILE>'")
        }
        "decode" => Some(
            "'--pcap <FILE>' names a capture, and all else stands on standard input, as in 'dnp decode <FILE'",
        ),
        "loopback" | "sim" => Some(
            "'--plan <FILE>' names the plan, and the script stands on standard input, as in 'dnp sim --plan plan.toml <script'",
        ),
        "outstation" => {
            Some("'--plan <FILE>' names the plan, and '--station <S>' the substation in it")
        }
        "poll" => Some(
            "the words of a command stand within quotation marks, as in --operate 'trip 3 100ms'",
        ),
        "rows" => Some(
            "'--journal <FILE>', '--queue <FILE>' or '--controls <FILE>' names the store",
        ),
        _ => None,
    }
}
