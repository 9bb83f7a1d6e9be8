//! Where and why octets are no TOML.

use dnp_lines::TextPlace;
use std::alloc::Global;

/// Where octets stop being TOML, and why.
#[derive(Clone, Copy)]
pub(crate) struct TomlFault {
    /// Where they stop.
    place: TextPlace,
    /// What the reader of TOML says of it.
    error: toml::de::Error,
}

impl TomlFault {
    /// Where and why these octets are no TOML. None where they are, or where memory ran out.
    pub(crate) fn of(alloc: Global, octets: &[u8]) -> Option<TomlFault> {
        let Err(error) = toml::table_from_slice(alloc, octets) else {
            return None;
        };
        let span = error.span()?;
        let place = place_after(octets.get(..span.start)?);
        Some(TomlFault { place, error })
    }
}

/// The place of what comes after these octets.
fn place_after(before: &[u8]) -> TextPlace {
    let mut line: usize = 1;
    let mut column: usize = 1;
    for octet in before {
        if *octet == b'\n' {
            line = line.saturating_add(1);
            column = 1;
        } else if *octet & 0xC0 != 0x80 {
            column = column.saturating_add(1);
        }
    }
    TextPlace { line, column }
}

impl TomlFault {
    /// The place.
    pub(crate) fn place(&self) -> TextPlace {
        self.place
    }

    /// Why, in words.
    pub(crate) fn reason(&self) -> &str {
        self.error.message()
    }
}
