//! The address to listen at, on the command line.

use crate::options::{Choice, defaulted};
use clap::ArgMatches;
use dnp_lines::{Wanted, Wrong};
use std::net::IpAddr;

/// The option that says at which address is listened: this machine alone reaches the one that it has otherwise.
pub(crate) fn bind() -> Choice {
    defaulted(
        "bind",
        "ADDRESS",
        "127.0.0.1",
        "The IP address to listen at; excludes --network",
    )
    .excluding("network")
}

/// The address at which is listened. Where the word is none, that is printed.
pub(crate) fn bind_given<R: Eprint>(rt: &R, given: &ArgMatches<'_>) -> Option<IpAddr> {
    let text = given.get_str("bind").unwrap_or("");
    match IpAddr::parse_ascii(text.as_bytes()) {
        Ok(address) => Some(address),
        Err(_) => {
            let wrong = Wrong::Value(text, "bind", "ADDRESS", Wanted::IpAddress);
            let _ = eprintln!(rt; "{wrong}");
            None
        }
    }
}
