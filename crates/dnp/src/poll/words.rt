//! The words of `dnp poll`.

ghost use Rattle.std.specs.Prelude.{◌<◌, IfSome};

use crate::numbers::number_given;
use clap::ArgMatches;
use dnp_daemons::number_in;
use dnp_lines::{Apart, Wanted as Belongs, Wrong};
use dnp_master::{Classes, Task};
use dnp_objects::{Command, MAX_TIME};
use dnp_orders::{ToldFault, code_doubt, read_command};
use dnp_tcp::{Form, Instead, Listen, Points, RoundSettings};
use dnp_terminal::{Screen, Terminal};
use std::alloc::{AllocError, Global};
use std::rt::Clock;

/// The highest link address of a station: those above are for all stations, or kept for other uses (IEEE Std 1815-2012,
/// data link layer: addresses).
const MAX_STATION: u64 = 65_519;

/// The longest time between two rounds, in milliseconds: a day.
const MAX_REPEAT: u64 = 86_400_000;

/// The longest time for which a fragment is awaited, in milliseconds: an hour.
const MAX_TIMEOUT: u64 = 3_600_000;

/// The highest TCP port.
const MAX_PORT: u64 = 65_535;

/// The lines of a table where none are given: those of most terminals.
const HEIGHT: usize = 24;

/// The fewest lines of a table that can be given.
const MIN_HEIGHT: u64 = 10;

/// The most lines of a table that can be given.
const MAX_HEIGHT: u64 = 1_000;

/// All classes.
const ALL: Classes = Classes([true; 4]);

/// What the words of the command line say.
#[derive(Clone, Copy)]
pub(crate) struct Words<'a> {
    /// Who is asked in rounds, by whom, and how.
    pub rounds: RoundSettings<'a>,
    /// The classes to read, if any are.
    pub classes: Option<Classes>,
    /// Whether the restart indication is cleared.
    pub clear_restart: bool,
    /// The time to set the clock to, if it is set.
    pub time: Option<u64>,
    /// The command to select and operate, if there is one.
    pub command: Option<Command>,
}

/// Says that the value of an option is wrong, and what it should be.
fn say_wrong<R: Eprint>(rt: &R, option: &str, name: &str, text: &str, wanted: Belongs<'_>) {
    let wrong = Wrong::Value(text, option, name, wanted);
    let _ = eprintln!(rt; "{wrong}");
}

/// The classes that these digits name, each once.
fn classes_in(text: &str) -> Option<Classes> {
    let mut classes = [false; 4];
    for digit in text.as_bytes() {
        let class = usize::from(digit.checked_sub(b'0')?);
        if class > 3 || classes[class] {
            return None;
        }
        classes[class] = true;
    }
    let classes = Classes(classes);
    if classes.has_some() {
        Some(classes)
    } else {
        None
    }
}

/// A time of so many milliseconds, seconds, minutes or hours.
fn interval_in(text: &str) -> Option<u64> {
    let (digits, unit) = if let Some(digits) = text.strip_suffix("ms") {
        (digits, 1)
    } else if let Some(digits) = text.strip_suffix("s") {
        (digits, 1_000)
    } else if let Some(digits) = text.strip_suffix("m") {
        (digits, 60_000)
    } else if let Some(digits) = text.strip_suffix("h") {
        (digits, 3_600_000)
    } else {
        return None;
    };
    let ms = number_in(digits)?.checked_mul(unit)?;
    if 0 < ms && ms <= MAX_REPEAT {
        Some(ms)
    } else {
        None
    }
}

/// The points that a text names, by their group, variation and indices, as `30.1:0-9` or `1.2:7`.
fn points_in(text: &str) -> Option<Points> {
    let (object, range) = text.split_once(':')?;
    let (group, variation) = object.split_once('.')?;
    let (first, last) = range.split_once('-').unwrap_or((range, range));
    let points = Points {
        group: u8::try_from(number_in(group)?).ok()?,
        variation: u8::try_from(number_in(variation)?).ok()?,
        first: u16::try_from(number_in(first)?).ok()?,
        last: u16::try_from(number_in(last)?).ok()?,
    };
    if points.first <= points.last {
        Some(points)
    } else {
        None
    }
}

/// The time that a word names: this machine's, or so many milliseconds since 1970-01-01 00:00 UTC.
fn time_in<C: Clock>(clock: &C, text: &str) -> Option<u64>
    ensures { IfSome result (λ time. time < MAX_TIME) }
{
    let time = if text == "now" {
        u64::try_from(clock.since_1970().ok()?.as_millis()).ok()?
    } else {
        number_in(text)?
    };
    if time < MAX_TIME { Some(time) } else { None }
}

/// Whether a word says yes or no. Where it says neither, that is printed.
fn is_yes<R: Eprint>(rt: &R, text: &str) -> Option<bool> {
    match text {
        "yes" => Some(true),
        "no" => Some(false),
        _ => {
            say_wrong(rt, "confirm", "WORD", text, Belongs::YesOrNo);
            None
        }
    }
}

/// What is read, set and operated.
#[derive(Clone, Copy)]
struct Wanted {
    /// The classes to read.
    classes: Option<Classes>,
    /// The points that are read in their place.
    points: Option<Points>,
    /// The time to set the clock to.
    time: Option<u64>,
    /// The command.
    command: Option<Command>,
}

/// The classes that are to be read, if the words name any. Where they are wrong, that is printed.
fn classes_given<R: Eprint>(rt: &R, given: &ArgMatches<'_>) -> Option<Option<Classes>> {
    let Some(text) = given.get_str("classes") else {
        return Some(None);
    };
    let classes = classes_in(text);
    if classes.is_none() {
        say_wrong(rt, "classes", "DIGITS", text, Belongs::Classes);
        return None;
    }
    Some(classes)
}

/// The points that are read in place of classes, if the words give any. Where they are wrong, that is printed.
fn points_given<R: Eprint>(rt: &R, given: &ArgMatches<'_>) -> Option<Option<Points>> {
    let Some(text) = given.get_str("read") else {
        return Some(None);
    };
    if given.get_str("classes").is_some() {
        let wrong = Wrong::Together("--classes <DIGITS>", "--read <POINTS>");
        let _ = eprintln!(rt; "{wrong}");
        return None;
    }
    let points = points_in(text);
    if points.is_none() {
        say_wrong(rt, "read", "POINTS", text, Belongs::Points);
        return None;
    }
    Some(points)
}

/// The time to set the clock to, if the words give one. Where it is wrong, that is printed.
fn time_given<R: Eprint + Clock>(rt: &R, given: &ArgMatches<'_>) -> Option<Option<u64>> {
    let Some(text) = given.get_str("time") else {
        return Some(None);
    };
    let time = time_in(rt, text);
    if time.is_none() {
        say_wrong(rt, "time", "MS", text, Belongs::Time);
        return None;
    }
    Some(time)
}

/// The command that a text says. Where a word is wrong, or where no output of ours takes the code and it isn't to be sent
/// all the same, that is printed.
fn command_in<R: Eprint>(rt: &R, text: &str, is_raw: bool) -> Option<Command> {
    let command = match read_command(text) {
        Ok(command) => command,
        Err(fault) => {
            let told = Belongs::Order(ToldFault { text, fault });
            say_wrong(rt, "operate", "COMMAND", text, told);
            return None;
        }
    };
    if !is_raw && let Some(doubt) = code_doubt(text) {
        say_wrong(rt, "operate", "COMMAND", text, Belongs::Certain(doubt));
        return None;
    }
    Some(command)
}

/// The command that is to be carried out, if the words give one. Where it is wrong, that is printed.
fn command_given<R: Eprint>(rt: &R, given: &ArgMatches<'_>) -> Option<Option<Command>> {
    match given.get_str("operate") {
        Some(text) => Some(Some(command_in(rt, text, given.get_flag("raw"))?)),
        None => Some(None),
    }
}

/// What the words want read, set and operated: all classes, where they want nothing. Where one is wrong, that is printed.
fn wanted_given<R: Eprint + Clock>(rt: &R, given: &ArgMatches<'_>) -> Option<Wanted> {
    let command = command_given(rt, given)?;
    let mut classes = classes_given(rt, given)?;
    let points = points_given(rt, given)?;
    let time = time_given(rt, given)?;
    let is_anything = classes.is_some() || time.is_some() || command.is_some();
    if points.is_some() || !is_anything && !given.get_flag("clear-restart") {
        classes = Some(ALL);
    }
    Some(Wanted {
        classes,
        points,
        time,
        command,
    })
}

/// The host and the port that the words name. Where there is no port, that is printed.
fn place_given<'a, R: Eprint>(rt: &R, given: &ArgMatches<'a>) -> Option<&'a str> {
    let text = given.get_str("outstation").unwrap_or("");
    if let Some((host, port)) = text.rsplit_once(':')
        && !host.is_empty()
        && number_in(port).is_some_and(|port| 0 < port && port <= MAX_PORT)
    {
        return Some(text);
    }
    let wrong = Wrong::Place(text);
    let _ = eprintln!(rt; "{wrong}");
    None
}

/// How long to wait between rounds, and how many there are. Where a word is wrong, that is printed.
fn rounds_given<R: Eprint>(rt: &R, given: &ArgMatches<'_>) -> Option<(u64, u64)> {
    let Some(text) = given.get_str("repeat") else {
        if given.get_str("count").is_some() {
            let wrong = Wrong::Needs("--count <N>", "--repeat <TIME>");
            let _ = eprintln!(rt; "{wrong}");
            return None;
        }
        return Some((0, 1));
    };
    if given.get_str("operate").is_some() {
        let wrong = Wrong::Together("--operate <COMMAND>", "--repeat <TIME>");
        let _ = eprintln!(rt; "{wrong}");
        return None;
    }
    let Some(ms) = interval_in(text) else {
        say_wrong(rt, "repeat", "TIME", text, Belongs::Interval);
        return None;
    };
    match given.get_str("count") {
        Some(_) => Some((ms, number_given(rt, given, "count", "N", 1, u64::MAX)?)),
        None => Some((ms, u64::MAX)),
    }
}

/// The classes of events among these; all three, where there are none among them.
fn event_classes(classes: Option<Classes>) -> Classes {
    match classes {
        Some(given) if given.has(1) || given.has(2) || given.has(3) => {
            Classes([false, given.has(1), given.has(2), given.has(3)])
        }
        _ => Classes([false, true, true, true]),
    }
}

/// Says why two options can't be given together.
fn say_apart<R: Eprint>(rt: &R, one: &str, other: &str, why: Apart) {
    let wrong = Wrong::Apart(one, other, why);
    let _ = eprintln!(rt; "{wrong}");
}

/// The most lines of a table, where it is drawn. Where the word is wrong, that is printed.
fn height_given<R: Eprint>(rt: &R, given: &ArgMatches<'_>) -> Option<usize> {
    if given.get_str("height").is_none() {
        return Some(HEIGHT);
    }
    if given.get_str("repeat").is_none() {
        let wrong = Wrong::Needs("--height <N>", "--repeat <TIME>");
        let _ = eprintln!(rt; "{wrong}");
        return None;
    }
    for (name, option) in [("json", "--json"), ("times", "--times")] {
        if given.get_flag(name) {
            say_apart(rt, "--height <N>", option, Apart::Untabled);
            return None;
        }
    }
    usize::try_from(number_given(rt, given, "height", "N", MIN_HEIGHT, MAX_HEIGHT)?).ok()
}

/// How rows are shown on this screen. Where a word is wrong, that is printed.
fn form_given<R: Eprint>(rt: &R, given: &ArgMatches<'_>, screen: Screen) -> Option<Form> {
    let height = height_given(rt, given)?;
    let has_lines = given.get_flag("json") || given.get_flag("times");
    Some(if given.get_str("repeat").is_none() {
        Form::Lines
    } else if has_lines || !screen.is_terminal {
        Form::Marked
    } else {
        Form::Table(height, screen)
    })
}

/// For how long what comes unasked is listened to. Where that is wrong, it is printed.
fn listen_ms<R: Eprint>(rt: &R, given: &ArgMatches<'_>) -> Option<u64> {
    let Some(text) = given.get_str("for") else {
        return Some(u64::MAX);
    };
    let ms = interval_in(text);
    if ms.is_none() {
        say_wrong(rt, "for", "TIME", text, Belongs::Interval);
    }
    ms
}

/// What is listened to, if anything is, where these classes are read. Where a word is wrong, that is printed.
fn listen_given<R: Eprint>(
    rt: &R,
    given: &ArgMatches<'_>,
    classes: Option<Classes>,
) -> Option<Option<Listen>> {
    if !given.get_flag("listen") {
        if given.get_str("for").is_some() {
            let wrong = Wrong::Needs("--for <TIME>", "--listen");
            let _ = eprintln!(rt; "{wrong}");
            return None;
        }
        return Some(None);
    }
    if given.get_str("repeat").is_some() {
        say_apart(rt, "--listen", "--repeat <TIME>", Apart::Listening);
        return None;
    }
    if given.get_str("confirm") == Some("no") {
        say_apart(rt, "--listen", "--confirm no", Apart::Unconfirmed);
        return None;
    }
    Some(Some(Listen {
        classes: event_classes(classes),
        ms: listen_ms(rt, given)?,
    }))
}

/// What the words say, or none where one is wrong, which is printed.
pub(crate) fn words_given<'a, R: Eprint + Clock + Terminal>(
    rt: &R,
    given: &ArgMatches<'a>,
) -> Option<Words<'a>> {
    let wanted = wanted_given(rt, given)?;
    all_given(rt, given, &wanted)
}

/// What the words say beside what is wanted.
fn all_given<'a, R: Eprint + Terminal>(
    rt: &R,
    given: &ArgMatches<'a>,
    wanted: &Wanted,
) -> Option<Words<'a>> {
    let place = place_given(rt, given)?;
    let own = number_given(rt, given, "own", "ADDRESS", 0, MAX_STATION)?;
    let peer = number_given(rt, given, "peer", "ADDRESS", 0, MAX_STATION)?;
    let timeout_ms = number_given(rt, given, "timeout", "MS", 1, MAX_TIMEOUT)?;
    let confirms = is_yes(rt, given.get_str("confirm").unwrap_or(""))?;
    let (repeat_ms, count) = rounds_given(rt, given)?;
    let listen = listen_given(rt, given, wanted.classes)?;
    let form = form_given(rt, given, rt.output_screen())?;
    let rounds = RoundSettings {
        place,
        own: u16::try_from(own).ok()?,
        peer: u16::try_from(peer).ok()?,
        repeat_ms,
        count,
        confirms,
        timeout_ms,
        json: given.get_flag("json"),
        hex: given.get_flag("hex"),
        times: given.get_flag("times") || listen.is_some(),
        form,
        instead: Instead {
            points: wanted.points,
            direct: given.get_flag("direct"),
        },
        listen,
    };
    Some(Words {
        rounds,
        classes: wanted.classes,
        clear_restart: given.get_flag("clear-restart"),
        time: wanted.time,
        command: wanted.command,
    })
}

/// Puts the tasks of a round behind others, in order.
fn put_tasks(words: &Words<'_>, tasks: &mut Vec<Task>) -> Result<(), AllocError> {
    if words.clear_restart {
        tasks.push(Task::ClearRestart)?;
    }
    if let Some(time) = words.time {
        tasks.push(Task::WriteTime(time))?;
    }
    if let Some(classes) = words.classes {
        tasks.push(Task::Poll(classes))?;
    }
    if let Some(listen) = words.rounds.listen {
        tasks.push(Task::Enable(listen.classes))?;
    }
    if let Some(command) = words.command {
        tasks.push(Task::Select(command))?;
        if !words.rounds.instead.direct {
            tasks.push(Task::Operate(command))?;
        }
    }
    Ok(())
}

/// The tasks of a round, in order.
pub(crate) fn tasks_of(alloc: Global, words: &Words<'_>) -> Result<Vec<Task>, AllocError> {
    let mut tasks = Vec::new(alloc);
    match put_tasks(words, &mut tasks) {
        Ok(()) => Ok(tasks),
        Err(fault) => Err(fault),
    }
}
