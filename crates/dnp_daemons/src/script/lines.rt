//! One line of a script.

ghost use Rattle.std.specs.Prelude.{◌≡◌, ◌∷◌, [], IfOk, map};
ghost use Rattle.dnp_daemons.specs.ScriptLines.{at_link, at_end, at_way, at_link_with, at_word, reading_named, setpoint_named, block_named, change_named, issue_named, issuer_named, damage_named, at_index, line_named, reading_of};

use crate::script::ScriptLine;
use crate::script::names::{
    classes_in, end_in, flags_in, kind_in, link_in, octets_in, place_in, substation_in, time_in,
    way_in,
};
use crate::script::numbers::{
    integer_in, integer16_in, integer32_in, number_in, number8_in, number16_in, number32_in,
};
use crate::script::which::WhichCentre;
use crate::script::words::words_in;
use dnp_master::Task;
use dnp_objects::Command;
use dnp_pointdb::Reading;
use dnp_world::{Damaged, Event, Link};
use std::alloc::{AllocError, Global};

/// A line of a verb and a link.
#[tactic(auto, unfolding(crate::specs::ScriptLines::at_link))]
fn link_line(verb: &str, link: Link) -> Option<ScriptLine>
    ensures { result ≡ at_link verb.now link }
{
    match verb {
        "open" => Some(ScriptLine::One(Event::Open(link))),
        "clear" => Some(ScriptLine::One(Event::Ask(link, Task::ClearRestart))),
        "relay" => Some(ScriptLine::One(Event::Relay(link))),
        "round" => Some(ScriptLine::Round(link)),
        _ => None,
    }
}

/// A line of a verb, a link and an end of it.
#[tactic(auto, unfolding(crate::specs::ScriptLines::at_end))]
fn end_line(verb: &str, link: Link, word: &str) -> Option<ScriptLine>
    ensures { result ≡ at_end verb.now link word.now }
{
    match verb {
        "hangup" => Some(ScriptLine::One(Event::HangUp(link, end_in(word)?))),
        "tick" => Some(ScriptLine::One(Event::Tick(link, end_in(word)?))),
        _ => None,
    }
}

/// A line of a verb, a link and a way of it, or an end.
#[tactic(auto, unfolding(crate::specs::ScriptLines::at_way))]
fn way_line(verb: &str, link: Link, word: &str) -> Option<ScriptLine>
    ensures { result ≡ at_way verb.now link word.now }
{
    match verb {
        "deliver" => Some(ScriptLine::One(Event::Deliver(link, way_in(word)?))),
        "repeat" => Some(ScriptLine::One(Event::Repeat(link, way_in(word)?))),
        "lose" => Some(ScriptLine::One(Event::Lose(link, way_in(word)?))),
        "flush" => Some(ScriptLine::Flush(link, way_in(word)?)),
        _ => end_line(verb, link, word),
    }
}

/// A line of a verb, a link and one word more.
#[tactic(auto, unfolding(crate::specs::ScriptLines::at_link_with))]
fn link_line_with(verb: &str, link: Link, word: &str) -> Option<ScriptLine>
    ensures { result ≡ at_link_with verb.now link word.now }
{
    let task = match verb {
        "poll" => Task::Poll(classes_in(word)?),
        "enable" => Task::Enable(classes_in(word)?),
        "disable" => Task::Disable(classes_in(word)?),
        "time" => Task::WriteTime(number_in(word)?),
        _ => return way_line(verb, link, word),
    };
    Some(ScriptLine::One(Event::Ask(link, task)))
}

/// A line of a verb and one word.
#[tactic(auto, unfolding(crate::specs::ScriptLines::at_word))]
fn word_line(verb: &str, word: &str, substations: usize) -> Option<ScriptLine>
    ensures { result ≡ at_word substations verb.now word.now }
{
    match verb {
        "pass" => Some(ScriptLine::One(Event::Pass(number_in(word)?))),
        "control" => Some(ScriptLine::Control(WhichCentre::First, number_in(word)?)),
        "control2" => Some(ScriptLine::Control(WhichCentre::Second, number_in(word)?)),
        "restart" => Some(ScriptLine::One(Event::Restart(place_in(word, substations)?))),
        _ => link_line(verb, link_in(word, substations)?),
    }
}

/// What a point reads.
#[tactic(auto, unfolding(crate::specs::ScriptLines::reading_named))]
fn reading_in(value: &str, flags: &str, time: &str) -> Option<Reading>
    ensures { result ≡ reading_named value.now flags.now time.now }
{
    Some(Reading {
        value: integer_in(value)?,
        flags: flags_in(flags)?,
        time: time_in(time)?,
    })
}

/// A command to a setpoint.
#[tactic(auto, unfolding(crate::specs::ScriptLines::setpoint_named))]
fn setpoint_in(form: &str, index: &str, value: &str) -> Option<Command>
    ensures { result ≡ setpoint_named form.now index.now value.now }
{
    match form {
        "set16" => Some(Command::Set16 {
            index: number16_in(index)?,
            value: integer16_in(value)?,
        }),
        "set32" => Some(Command::Set32 {
            index: number16_in(index)?,
            value: integer32_in(value)?,
        }),
        _ => None,
    }
}

/// A command to a binary output.
#[tactic(auto, unfolding(crate::specs::ScriptLines::block_named))]
fn block_in(
    form: &str,
    index: &str,
    code: &str,
    count: &str,
    on_ms: &str,
    off_ms: &str,
) -> Option<Command>
    ensures { result ≡ block_named form.now index.now code.now count.now on_ms.now off_ms.now }
{
    if form != "block" {
        return None;
    }
    Some(Command::Block {
        index: number16_in(index)?,
        code: number8_in(code)?,
        count: number8_in(count)?,
        on_ms: number32_in(on_ms)?,
        off_ms: number32_in(off_ms)?,
    })
}

/// The number of the centre at which a line of this verb issues a command.
fn issuer_in(verb: &str) -> Option<u8>
    ensures { result ≡ issuer_named verb.now }
{
    match verb {
        "issue" => Some(0),
        "issue2" => Some(1),
        _ => None,
    }
}

/// The issue of a command.
#[tactic(auto, unfolding(crate::specs::ScriptLines::issue_named))]
fn issue_line(
    verb: &str,
    substation: &str,
    command: Option<Command>,
    substations: usize,
) -> Option<ScriptLine>
    ensures { result ≡ issue_named substations verb.now substation.now command }
{
    Some(ScriptLine::One(Event::Issue {
        centre: issuer_in(verb)?,
        substation: substation_in(substation, substations)?,
        command: command?,
    }))
}

/// A change of a point.
#[tactic(auto, unfolding(crate::specs::ScriptLines::change_named))]
fn change_line(
    verb: &str,
    substation: &str,
    kind: &str,
    index: &str,
    reading: Option<Reading>,
    substations: usize,
) -> Option<ScriptLine>
    ensures { result ≡ change_named substations verb.now substation.now kind.now index.now reading }
{
    if verb != "change" {
        return None;
    }
    Some(ScriptLine::One(Event::Change {
        substation: substation_in(substation, substations)?,
        kind: kind_in(kind)?,
        index: number16_in(index)?,
        reading: reading?,
    }))
}

/// The damage of a unit.
#[tactic(auto, unfolding(crate::specs::ScriptLines::damage_named))]
fn damage_line(
    alloc: Global,
    verb: &str,
    link: &str,
    way: &str,
    octets: &str,
    substations: usize,
) -> Result<Option<ScriptLine>, AllocError>
    ensures { IfOk result (λ read. read ≡ damage_named substations verb.now link.now way.now octets.now) }
{
    if verb != "damage" {
        return Ok(None);
    }
    let Some(link) = link_in(link, substations) else {
        return Ok(None);
    };
    let Some(way) = way_in(way) else {
        return Ok(None);
    };
    let Some(octets) = octets_in(octets) else {
        return Ok(None);
    };
    let damaged = Damaged::new(alloc, &octets)?;
    Ok(Some(ScriptLine::One(Event::Damage(link, way, damaged))))
}

/// A line of a verb and two words, the first of which names a link.
fn two_words_line(verb: &str, link: &str, word: &str, substations: usize) -> Option<ScriptLine>
    ensures { result ≡ line_named substations (verb.now ∷ link.now ∷ word.now ∷ []) }
{
    link_line_with(verb, link_in(link, substations)?, word)
}

/// A line of a verb, a substation, a kind or form, an index, and these words more.
fn index_line(
    verb: &str,
    substation: &str,
    form: &str,
    index: &str,
    more: &[&str],
    substations: usize,
) -> Option<ScriptLine>
    ensures { result ≡ at_index substations verb.now substation.now form.now index.now (map (λ word. word.now) more.now) }
{
    match more {
        [value] => {
            let command = setpoint_in(form, index, value);
            issue_line(verb, substation, command, substations)
        }
        [value, flags, time] => {
            let reading = reading_in(value, flags, time);
            change_line(verb, substation, form, index, reading, substations)
        }
        [code, count, on_ms, off_ms] => {
            let command = block_in(form, index, code, count, on_ms, off_ms);
            issue_line(verb, substation, command, substations)
        }
        _ => None,
    }
}

/// What words say.
fn words_line(
    alloc: Global,
    words: &[&str],
    substations: usize,
) -> Result<Option<ScriptLine>, AllocError>
    ensures { IfOk result (λ read. read ≡ line_named substations (map (λ word. word.now) words.now)) }
{
    match words {
        [verb, word] => Ok(word_line(verb, word, substations)),
        [verb, link, word] => Ok(two_words_line(verb, link, word, substations)),
        [verb, link, way, octets] => damage_line(alloc, verb, link, way, octets, substations),
        [verb, substation, form, index, more @ ..] => Ok(index_line(
            verb,
            substation,
            form,
            index,
            more,
            substations,
        )),
        _ => Ok(None),
    }
}

/// What a line says, or none where it doesn't fit. An error says that it ran out of memory.
pub(crate) fn read_line(
    alloc: Global,
    line: &str,
    substations: usize,
) -> Result<Option<ScriptLine>, AllocError>
    ensures { IfOk result (λ read. read ≡ reading_of substations line.now) }
{
    match words_in(line) {
        Some(words) => words_line(alloc, &words, substations),
        None => Ok(None),
    }
}
