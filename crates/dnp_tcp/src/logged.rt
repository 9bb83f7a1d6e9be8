//! The log of a station's connections: a line on standard error for each thing that happens to one, with the time and
//! the master's address.

use crate::clock::utc;
use crate::lines::Line;
use dnp_decode::Moment;
use dnp_notices::Ends;
use dnp_terminal::{Painted, Terminal, Toned};
use std::fmt::Display;
use std::net::SocketAddr;
use std::rt::Clock;

/// Says something on standard error, with the time, and in its colour if that is a terminal. It has no clause: none says what standard
/// error takes.
pub fn say<R: Eprint + Terminal + Clock, T: Display + Toned>(rt: &R, what: &T) {
    let moment = Moment(utc(rt));
    let painted = Painted {
        screen: rt.error_screen(),
        tone: what.tone(),
        what,
    };
    let _ = eprintln!(rt; "{moment} {painted}");
}

/// Says on standard error what happened to the connection of a master at this address. It has no clause: none says what standard error
/// takes.
pub fn note<R: Eprint + Terminal + Clock, T: Display + Toned>(rt: &R, peer: SocketAddr, what: &T) {
    let moment = Moment(utc(rt));
    let painted = Painted {
        screen: rt.error_screen(),
        tone: what.tone(),
        what,
    };
    let _ = eprintln!(rt; "{moment} {peer} {painted}");
}

/// Says on standard error that a station listens at this address, with its link address and that of the master that it serves, by the
/// frames that it takes. It has no clause: none says what standard error takes.
pub fn say_listening<R: Eprint + Terminal + Clock>(rt: &R, place: SocketAddr, taken: Ends) {
    say(rt, &Line::Listening(place, taken.dest, taken.source));
}
