//! What looks on while a station asks another one.

use dnp_concentrator::RelayedStep;
use dnp_controls::BookFault;
use dnp_master::{AskFault, Outcome, Task};
use dnp_streams::StationFault;

/// What looks on while a station asks another one on a connection. It is told what becomes of each step, and changes nothing of that.
pub(crate) trait Watcher {
    /// The station refused a call.
    fn refused(&mut self, _fault: StationFault) {}

    /// These octets are a fragment that came and that the station can't take.
    fn not_taken(&mut self, _octets: &[u8]) {}

    /// These octets are a fragment that came, and the station took it.
    fn answered(&mut self, _octets: &[u8]) {}

    /// What the station had asked has come out so.
    fn came_out(&mut self, _outcome: &Outcome) {}

    /// The station asked this task, by a request with these octets.
    fn asked(&mut self, _task: &Task, _request: &[u8]) {}

    /// This step of relaying a control was made, by a request with these octets where one is sent.
    fn relayed(&mut self, _step: &RelayedStep, _request: &[u8]) {}

    /// Time has passed, and the station closed the connection then, or it didn't.
    fn ticked(&mut self, _closed: bool) {}

    /// A control was not relayed.
    fn not_relayed(&mut self, _fault: BookFault) {}

    /// These octets were sent.
    fn sent(&mut self, _octets: &[u8]) {}

    /// These octets were read.
    fn read(&mut self, _octets: &[u8]) {}

    /// The connection is read at this moment, in milliseconds; until that one a response is awaited, if one is.
    fn waits(&mut self, _now: u64, _ends: Option<u64>) {}

    /// Whether nothing more is awaited.
    fn has_enough(&self) -> bool {
        false
    }

    /// Whether what comes is heard on where nothing is left to do.
    fn stays(&self) -> bool {
        false
    }
}

/// Takes what became of a task that was asked, by a request with these octets. Something may be left to do.
pub(crate) fn tell_asked<W: Watcher>(
    asked: Result<(), AskFault>,
    task: &Task,
    request: &[u8],
    watcher: &mut W,
) -> bool {
    if asked.is_ok() {
        watcher.asked(task, request);
    }
    false
}

/// Takes what became of a step of relaying, by a request with these octets, if it has one. Whether nothing is left to do.
pub(crate) fn tell_relayed<W: Watcher>(
    relayed: Result<RelayedStep, BookFault>,
    request: &[u8],
    watcher: &mut W,
) -> bool {
    match relayed {
        Ok(RelayedStep::Nothing) => true,
        Ok(step) => {
            watcher.relayed(&step, request);
            false
        }
        Err(fault) => {
            watcher.not_relayed(fault);
            true
        }
    }
}
