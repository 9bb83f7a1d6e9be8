//! What stands at a place of a network's text, and in which line: looked up for who reads why it is refused.

use crate::network::NetworkFault;
use crate::place::{NetworkKey, NetworkPlace, Part, Stands};
use std::alloc::{AllocError, Global};
use toml::Value;

/// The most octets that are read again to find a line.
const MOST: usize = 4 * 1_024 * 1_024;

/// The table of a part, if the text has it.
fn part_of(table: &Value, part: Part) -> Option<&Value> {
    match part {
        Part::Whole => Some(table),
        Part::Defaults => table.get("defaults"),
        Part::Centre => table.get("centre"),
        Part::Concentrator => table.get("concentrator"),
        Part::Substation(number) => table.get("substation")?.get(number),
    }
}

/// Whether a part has a key of this name.
fn is_known(name: &str, part: Part) -> bool {
    for key in part.keys() {
        if key.name() == name {
            return true;
        }
    }
    false
}

/// The first key of a part that no network has there, or an empty name.
fn unknown_key(alloc: Global, table: &Value, part: Part) -> Result<String, AllocError> {
    if let Some(value) = part_of(table, part)
        && let Some(members) = value.as_table()
    {
        for name in members.keys() {
            if !is_known(name.as_str(), part) {
                return String::from_str(alloc, name.as_str());
            }
        }
    }
    Ok(String::new(alloc))
}

/// The key under which the value of a place stands: where the concentrator is found is where it listens, unless it is given, a
/// usual address is at fault for the one that is given, and the time for a whole response for that for a fragment of it.
fn key_in(table: &Value, place: &NetworkPlace) -> NetworkKey {
    let is_given = match part_of(table, place.part) {
        Some(part) => part.get(place.key.name()).is_some(),
        None => false,
    };
    match place.key {
        NetworkKey::At if !is_given => NetworkKey::Listen,
        NetworkKey::At2 if !is_given => NetworkKey::Listen2,
        NetworkKey::Master | NetworkKey::Centre | NetworkKey::Centre2 if !is_given => {
            NetworkKey::Address
        }
        NetworkKey::PollMs if !is_given => NetworkKey::ResponseMs,
        key => key,
    }
}

/// The text under the key of a place, or where the concentrator listens where nothing is said of that.
fn text_at(alloc: Global, table: &Value, place: &NetworkPlace) -> Result<String, AllocError> {
    if let Some(part) = part_of(table, place.part)
        && let Some(value) = part.get(key_in(table, place).name())
    {
        return String::from_str(alloc, value.as_str().unwrap_or(""));
    }
    String::from_str(alloc, "127.0.0.1:20100")
}

/// The text that stands at the place of a fault, where it is one: the key that is unknown, or the text under the key.
pub(crate) fn shown_at(
    alloc: Global,
    text: &str,
    fault: NetworkFault,
) -> Result<String, AllocError> {
    let NetworkFault::Wrong(place) = fault else {
        return Ok(String::new(alloc));
    };
    let Ok(table) = toml::table_from_str(alloc, text) else {
        return Ok(String::new(alloc));
    };
    let table = Value::Table(table);
    match place.stands {
        Stands::Unknown => unknown_key(alloc, &table, place.part),
        Stands::NoEndpoint(_)
        | Stands::Twice(_)
        | Stands::As(_)
        | Stands::NoClasses
        | Stands::NoWord => text_at(alloc, &table, &place),
        _ => Ok(String::new(alloc)),
    }
}

/// Whether the text says so much that a key of this name stands in a part, or for no name the part itself.
fn is_said(alloc: Global, text: &str, part: Part, name: &str) -> bool {
    let Ok(table) = toml::table_from_str(alloc, text) else {
        return false;
    };
    let table = Value::Table(table);
    match part_of(&table, part) {
        Some(_) if name.is_empty() => true,
        Some(part) => part.get(name).is_some(),
        None => false,
    }
}

/// The first line with which the text says that a key stands in a part, where it is found: the lines up to it say so, and
/// those before it don't.
fn line_in(alloc: Global, text: &str, part: Part, name: &str) -> Option<usize> {
    let sought = match (part, name) {
        (Part::Substation(_), "") => "substation",
        (_, name) => name,
    };
    let mut line: usize = 0;
    let mut start: usize = 0;
    let mut read: usize = 0;
    for words in text.split('\n') {
        line = line.saturating_add(1);
        let end = start.saturating_add(words.len());
        if words.contains(sought) {
            read = read.saturating_add(end);
            if read > MOST {
                return None;
            }
            if is_said(alloc, text.get(..end)?, part, name) {
                let is_first = !is_said(alloc, text.get(..start)?, part, name);
                return if is_first { Some(line) } else { None };
            }
        }
        start = end.saturating_add(1);
    }
    None
}

/// The line at which the text stops being TOML, if the reader of TOML tells it.
fn syntax_line(alloc: Global, text: &str) -> Option<usize> {
    let Err(fault) = toml::table_from_str(alloc, text) else {
        return None;
    };
    let span = fault.span()?;
    let mut line: usize = 1;
    for octet in text.as_bytes().iter().take(span.start) {
        if *octet == b'\n' {
            line = line.saturating_add(1);
        }
    }
    Some(line)
}

/// The line of a place: that of its key, of its table where the key is missing, and none where neither stands there.
fn place_line(
    alloc: Global,
    text: &str,
    place: &NetworkPlace,
) -> Result<Option<usize>, AllocError> {
    let Ok(table) = toml::table_from_str(alloc, text) else {
        return Ok(None);
    };
    let table = Value::Table(table);
    match place.stands {
        Stands::Count(_, _) => Ok(None),
        _ if matches!(place.key, NetworkKey::Substation) => {
            Ok(line_in(alloc, text, Part::Whole, "substation"))
        }
        Stands::Missing => match place.part {
            Part::Whole => Ok(None),
            part => Ok(line_in(alloc, text, part, "")),
        },
        Stands::Unknown => {
            let name = unknown_key(alloc, &table, place.part)?;
            Ok(line_in(alloc, text, place.part, name.as_str()))
        }
        _ => Ok(line_in(alloc, text, place.part, key_in(&table, place).name())),
    }
}

/// The line that a fault is in, counted from 1, where that is known.
pub(crate) fn line_of(
    alloc: Global,
    text: &str,
    fault: NetworkFault,
) -> Result<Option<usize>, AllocError> {
    match fault {
        NetworkFault::Syntax => Ok(syntax_line(alloc, text)),
        NetworkFault::Wrong(place) => place_line(alloc, text, &place),
        NetworkFault::Memory => Ok(None),
    }
}
