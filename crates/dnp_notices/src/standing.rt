//! Whether a station that is asked again and again answers: that it was lost is said once, and once that it is back.

ghost use Rattle.std.specs.Prelude.{◌≡◌};
ghost use Rattle.dnp_notices.specs.Standings as spec;

use crate::exchange::Mismatch;
use crate::refusal::Refusal;
use crate::strange::{Strange, is_same};
use std::io::ErrorKind;

/// How a call of a connection failed, as far as it matters whether it fails on in the same way.
#[derive(Clone, Copy, Debug)]
pub enum Failing {
    /// Nobody listens there.
    Refused,
    /// It took too long.
    Late,
    /// There is no way there.
    NoWay,
    /// In another way.
    Other,
}

impl Failing {
    /// How a call failed whose error is of this kind.
    pub fn of(kind: ErrorKind) -> Failing {
        match kind {
            ErrorKind::ConnectionRefused => Failing::Refused,
            ErrorKind::TimedOut | ErrorKind::WouldBlock => Failing::Late,
            ErrorKind::HostUnreachable | ErrorKind::NetworkUnreachable => Failing::NoWay,
            _ => Failing::Other,
        }
    }

    /// Whether two failures are of the same way.
    fn is_same(self, other: Failing) -> bool
        ensures { result ≡ spec.failing_eq self other }
    {
        match (self, other) {
            (Failing::Refused, Failing::Refused)
            | (Failing::Late, Failing::Late)
            | (Failing::NoWay, Failing::NoWay)
            | (Failing::Other, Failing::Other) => true,
            _ => false,
        }
    }
}

/// Why a poll was not answered.
#[derive(Clone, Copy, Debug)]
pub enum Trouble {
    /// No connection could be had.
    Unreached(Failing),
    /// No answer came in time.
    Silent,
    /// The connection ended before the answer.
    Ended,
    /// What came was refused.
    Refused(Refusal),
    /// A response came that is not the one that is awaited.
    Unlike(Mismatch),
    /// Frames of another station came, or for another one, or octets and no frame.
    Strange(Strange),
    /// The connection could not be read.
    Unread(Failing),
    /// The connection could not be written.
    Unwritten(Failing),
    /// The answer had no end.
    Endless,
}

impl Trouble {
    /// Why a poll was not answered on a connection that failed in nothing, if it wasn't: by why what came was refused, if it was, by
    /// what came in place of the response, if something did, and by whether all was answered, or it was waited for too long. What was
    /// refused is told first, and then a response that is not the awaited one: where something came, no answer was missing.
    pub fn of(
        refusal: Option<Refusal>,
        mismatch: Option<Mismatch>,
        strange: Option<Strange>,
        is_answered: bool,
        is_late: bool,
    ) -> Option<Trouble>
        ensures { result ≡ spec.trouble_of refusal mismatch strange is_answered is_late }
    {
        match (refusal, mismatch, strange) {
            (Some(refusal), _, _) => Some(Trouble::Refused(refusal)),
            _ if is_answered => None,
            (None, Some(mismatch), _) => Some(Trouble::Unlike(mismatch)),
            _ if !is_late => Some(Trouble::Ended),
            (None, None, Some(strange)) => Some(Trouble::Strange(strange)),
            (None, None, None) => Some(Trouble::Silent),
        }
    }

    /// Whether two troubles are the same, so that the second is nothing new.
    fn is_same(self, other: Trouble) -> bool
        ensures { result ≡ spec.trouble_eq self other }
    {
        match (self, other) {
            (Trouble::Unreached(one), Trouble::Unreached(two))
            | (Trouble::Unread(one), Trouble::Unread(two))
            | (Trouble::Unwritten(one), Trouble::Unwritten(two)) => one.is_same(two),
            (Trouble::Refused(one), Trouble::Refused(two)) => one.is_same(two),
            (Trouble::Unlike(one), Trouble::Unlike(two)) => one.is_same(two),
            (Trouble::Strange(one), Trouble::Strange(two)) => is_same(one, two),
            (Trouble::Silent, Trouble::Silent)
            | (Trouble::Ended, Trouble::Ended)
            | (Trouble::Endless, Trouble::Endless) => true,
            _ => false,
        }
    }
}

/// When something whole came last that was taken.
#[derive(Clone, Copy, Debug)]
pub struct Last {
    /// The time, in milliseconds since 1970-01-01 00:00 UTC.
    pub utc: u64,
    /// The moment, in milliseconds.
    pub moment: u64,
}

/// A poll that is over.
#[derive(Clone, Copy, Debug)]
pub struct Poll {
    /// When the station last gave a whole answer that was taken, if it ever did.
    pub last: Option<Last>,
    /// The moment at which the poll began, in milliseconds.
    pub begun: u64,
    /// The moment at which it ended.
    pub ended: u64,
    /// Why it was not answered, if it wasn't.
    pub trouble: Option<Trouble>,
}

/// Whether a station answers.
#[derive(Clone, Copy, Debug)]
pub enum Standing {
    /// Its last poll was answered, or it was not polled yet.
    There,
    /// Its last polls were not answered.
    Lost {
        /// The moment from which on it is lost, in milliseconds.
        since: u64,
        /// How many polls they are.
        tries: u64,
        /// Why the last one was not answered.
        trouble: Trouble,
    },
}

/// What is said of whether a station answers.
#[derive(Clone, Copy, Debug)]
pub enum LinkNotice {
    /// It doesn't, and why. It gave its last good answer then, if it gave one, in milliseconds since 1970-01-01 00:00 UTC.
    Lost(Option<u64>, Trouble),
    /// It doesn't still, and now for this reason.
    Still(Option<u64>, Trouble),
    /// It does again, after so many milliseconds, in which so many polls were not answered.
    Back(u64, u64),
}

impl Poll {
    /// The moment from which on the station is lost where this is the first poll that is not answered: that of its last good answer,
    /// or else that at which the poll began.
    fn since(&self) -> u64
        ensures { result ≡ spec.since self.now }
    {
        match self.last {
            Some(last) => last.moment,
            None => self.begun,
        }
    }

    /// The time of the last good answer, if there was one.
    fn last_utc(&self) -> Option<u64>
        ensures { result ≡ spec.last_utc self.now }
    {
        match self.last {
            Some(last) => Some(last.utc),
            None => None,
        }
    }
}

impl Standing {
    /// How the station stands after a poll.
    pub fn after(self, poll: &Poll) -> Standing
        ensures { result ≡ spec.after self poll.now }
    {
        match (self, poll.trouble) {
            (_, None) => Standing::There,
            (Standing::There, Some(trouble)) => Standing::Lost {
                since: poll.since(),
                tries: 1,
                trouble,
            },
            (Standing::Lost { since, tries, .. }, Some(trouble)) => Standing::Lost {
                since,
                tries: tries.saturating_add(1),
                trouble,
            },
        }
    }

    /// What is said of a station that stands so, after a poll: that it is lost or back, and, while it is lost, why, where the reason is
    /// another one.
    pub fn notice(self, poll: &Poll) -> Option<LinkNotice>
        ensures { result ≡ spec.notice self poll.now }
    {
        match (self, poll.trouble) {
            (Standing::There, None) => None,
            (Standing::There, Some(trouble)) => Some(LinkNotice::Lost(poll.last_utc(), trouble)),
            (Standing::Lost { trouble: known, .. }, Some(trouble)) => {
                if known.is_same(trouble) {
                    None
                } else {
                    Some(LinkNotice::Still(poll.last_utc(), trouble))
                }
            }
            (Standing::Lost { since, tries, .. }, None) => {
                Some(LinkNotice::Back(poll.ended.saturating_sub(since), tries))
            }
        }
    }
}
