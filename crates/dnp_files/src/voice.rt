//! What a node's program says of its links: lines that wait for standard error.

use crate::lines::Line;
use dnp_concentrator::Cause;
use dnp_decode::Moment;
use dnp_loop::LogBuffer;
use dnp_notices::Names;
use dnp_tcp::utc;
use dnp_terminal::{Painted, Terminal, Toned};
use std::fmt::Display;
use std::net::SocketAddr;
use std::rt::Clock;

/// What says something of the links of a node.
pub(crate) struct Voice<'v, R> {
    /// What memory and the time are asked of.
    pub(crate) rt: &'v R,
    /// What people call the stations and their points.
    pub(crate) names: Names<'v>,
    /// Where the lines wait.
    pub(crate) log: &'v mut LogBuffer,
    /// Why the program can't go on, if it can't.
    pub(crate) failed: Option<Cause>,
}

impl<R> Drop for Voice<'_, R> {
    /// All is lent.
    fn drop(self) {
        let Voice {
            rt: _,
            names: _,
            log: _,
            failed: _,
        } = self;
    }
}

impl<R: AllocGlobal + Terminal + Clock> Voice<'_, R> {
    /// Says something, with the time. A line for which there is no memory is passed over.
    pub(crate) fn say<T: Display + Toned>(&mut self, what: &T) {
        let moment = Moment(utc(self.rt));
        let painted = Painted {
            screen: self.rt.error_screen(),
            tone: what.tone(),
            what,
        };
        if let Ok(line) = format!(in self.rt.alloc(); "{moment} {painted}\n") {
            self.log.add(line.as_str().as_bytes());
        }
    }

    /// Says what happened to the connection of a station at this address.
    pub(crate) fn note<T: Display + Toned>(&mut self, peer: SocketAddr, what: &T) {
        let moment = Moment(utc(self.rt));
        let painted = Painted {
            screen: self.rt.error_screen(),
            tone: what.tone(),
            what,
        };
        if let Ok(line) = format!(in self.rt.alloc(); "{moment} {peer} {painted}\n") {
            self.log.add(line.as_str().as_bytes());
        }
    }

    /// A store or memory has failed: the program can't go on.
    pub(crate) fn fail(&mut self, cause: Cause) {
        if self.failed.is_none() {
            self.failed = Some(cause);
        }
    }

    /// Says why the program can't go on, if it can't, and how many lines were lost, if any were. Whether it can go on.
    pub(crate) fn end(&mut self) -> bool {
        if let Some(cause) = self.failed {
            self.say(&Line::Failed(cause));
        }
        if self.log.may_tell_lost() {
            let lost = self.log.take_lost();
            self.say(&Line::LinesLost(lost));
        }
        self.failed.is_none()
    }
}
