//! Endpoints and words as they are printed.

use crate::endpoint::{Endpoint, Host};
use std::fmt;
use std::fmt::{Display, Formatter, Write};
use std::net::{Ipv4Addr, Ipv6Addr};

impl Display for Endpoint {
    /// The host and port as a text of a network has them.
    fn fmt<W: Write>(&self, f: &mut Formatter<W>) -> fmt::Result {
        let port = self.port;
        match &self.host {
            Host::V4(octets) => {
                let [a, b, c, d] = *octets;
                write!(f, "{}:{port}", Ipv4Addr::new(a, b, c, d))
            }
            Host::V6(groups) => write!(f, "[{}]:{port}", Ipv6Addr::from_segments(*groups)),
            Host::Name(name) => write!(f, "{}:{port}", name.as_str()),
        }
    }
}

/// A text for people: what is no character to be seen, as a line's end, is written by its name.
#[derive(Clone, Copy, Debug)]
pub struct PlainText<'a>(pub &'a str);

impl Display for PlainText<'_> {
    fn fmt<W: Write>(&self, f: &mut Formatter<W>) -> fmt::Result {
        for letter in self.0.chars() {
            if letter.is_control() {
                write!(f, "{}", letter.escape_debug())?;
            } else {
                f.write_char(letter)?;
            }
        }
        Ok(())
    }
}

/// A text as a field of CSV (RFC 4180): in quotes where it holds a quote, a comma or a line's end.
#[derive(Clone, Copy, Debug)]
pub struct CsvText<'a>(pub &'a str);

impl Display for CsvText<'_> {
    fn fmt<W: Write>(&self, f: &mut Formatter<W>) -> fmt::Result {
        let is_plain = self
            .0
            .as_bytes()
            .iter()
            .all(|octet| !matches!(*octet, b'"' | b',' | b'\r' | b'\n'));
        if is_plain {
            return f.write_str(self.0);
        }
        f.write_str("\"")?;
        for letter in self.0.chars() {
            if letter == '"' {
                f.write_str("\"")?;
            }
            f.write_char(letter)?;
        }
        f.write_str("\"")
    }
}

/// A text as a string of JSON.
#[derive(Clone, Copy, Debug)]
pub struct JsonText<'a>(pub &'a str);

impl Display for JsonText<'_> {
    fn fmt<W: Write>(&self, f: &mut Formatter<W>) -> fmt::Result {
        f.write_str("\"")?;
        for letter in self.0.chars() {
            match letter {
                '"' => f.write_str("\\\"")?,
                '\\' => f.write_str("\\\\")?,
                '\0'..='\u{1F}' => write!(f, "\\u{:04x}", u32::from(letter))?,
                _ => f.write_char(letter)?,
            }
        }
        f.write_str("\"")
    }
}
