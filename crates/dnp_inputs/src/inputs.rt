//! Inputs that are read whole.

use dnp_lines::Line;
use dnp_tcp::{exit, lost};
use std::io;
use std::io::Read;
use std::process::ExitCode;

/// The octets of an input, of which there may be so many. Where there are more, or it can't be read, why is said on standard
/// error, and the exit status is told.
pub fn octets_of<R: AllocGlobal + Eprint, S: Read + Drop>(
    rt: &R,
    name: &str,
    input: io::Result<S>,
    most: u64,
) -> Result<Vec<u8>, ExitCode> {
    let mut octets = Vec::new(rt.alloc());
    let read = match input {
        Ok(input) => input.take(most.saturating_add(1)).read_to_end(&mut octets),
        Err(cause) => Err(cause),
    };
    match read {
        Ok(_) if octets.len() as u64 > most => {
            let line = Line::Over(name, most);
            let _ = eprintln!(rt; "{line}");
            Err(ExitCode::from(exit::FAULT))
        }
        Ok(_) => Ok(octets),
        Err(cause) => Err(lost(rt, name, &cause)),
    }
}
