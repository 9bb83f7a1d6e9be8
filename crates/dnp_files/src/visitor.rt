//! What is known of a centre that is served on connections that come, and what is said of it.

use crate::lines::{Line, News, OfCentre};
use crate::sites::Served;
use crate::voice::Voice;
use dnp_concentrator::Cause;
use dnp_loop::Fault;
use dnp_nodes::{Closing, Report};
use dnp_notices::{Ends, Heard, Strange, StrangeLine, news_of};
use dnp_streams::ServeFault;
use dnp_tcp::{End, Ending};
use dnp_terminal::Terminal;
use std::io;
use std::net::SocketAddr;
use std::rt::Clock;

/// A connection that is over.
#[derive(Clone, Copy)]
struct Gone {
    /// Why.
    cause: Closing,
    /// How many fragments came whole on it.
    fragments: u64,
    /// What came beside what the station takes.
    strange: Option<Strange>,
}

/// What the loop has told of the place of a centre since it was asked last.
#[derive(Clone, Copy)]
pub(crate) struct Told {
    /// How a call of a connection failed, if one did.
    pub(crate) fault: Option<Fault>,
    /// The address of the centre that has connected, if one has.
    pub(crate) accepted: Option<SocketAddr>,
    /// How accepting failed, if it did.
    pub(crate) unaccepted: Option<Fault>,
    /// Whether a connection was refused since no descriptor was left.
    pub(crate) is_refused: bool,
}

/// A centre that is served on connections that come.
#[derive(Drop)]
pub(crate) struct Visitor {
    /// Its number, from 0.
    centre: u8,
    /// Where it is served.
    served: Served,
    /// How long no fragment may come whole, in seconds.
    idle: u64,
    /// Which frames came on its connection.
    heard: Heard,
    /// How many fragments came whole on its connection.
    fragments: u64,
    /// What came last beside what the station takes, as it was said.
    strange: Option<Strange>,
    /// Its address.
    peer: Option<SocketAddr>,
    /// Its connection that is over, if that was not said yet.
    gone: Option<Gone>,
}

impl Visitor {
    /// The centre with this number, which has not connected. It is served there, and so many seconds may pass in which no fragment comes
    /// whole.
    pub(crate) fn new(centre: u8, served: Served, idle: u64) -> Visitor {
        Visitor {
            centre,
            served,
            idle,
            heard: Heard::NOTHING,
            fragments: 0,
            strange: None,
            peer: None,
            gone: None,
        }
    }

    /// A frame came with these link addresses.
    fn meets(&mut self, came: Ends) {
        self.heard = self.heard.with_frame(came, self.served.taken);
    }

    /// A connection begins.
    fn begins(&mut self) {
        self.heard = Heard::NOTHING;
        self.fragments = 0;
    }

    /// The connection is over.
    fn ends(&mut self, cause: Closing) {
        self.gone = Some(Gone {
            cause,
            fragments: self.fragments,
            strange: self.heard.strange(),
        });
        self.begins();
    }

    /// The node has told this of its link.
    pub(crate) fn told<R: AllocGlobal + Terminal + Clock>(
        &mut self,
        voice: &mut Voice<'_, R>,
        report: &Report,
    ) {
        match *report {
            Report::Connected(..) => self.begins(),
            Report::Octets(_) => self.heard = self.heard.with_octets(),
            Report::Frame(_) => self.meets(self.served.taken),
            Report::Strange(_, ends) => self.meets(Ends {
                source: ends.peer,
                dest: ends.own,
            }),
            Report::Whole(_) => self.fragments = self.fragments.saturating_add(1),
            Report::NotMade(_) => voice.fail(Cause::Memory),
            Report::Lost(_, cause) => {
                match cause {
                    Closing::Memory => voice.fail(Cause::Memory),
                    Closing::Store(cause) => voice.fail(cause),
                    _ => {}
                }
                self.ends(cause);
            }
            _ => {}
        }
    }

    /// Says something of its connection.
    fn note<R: AllocGlobal + Terminal + Clock>(&self, voice: &mut Voice<'_, R>, news: News<'_>) {
        let what = OfCentre {
            centre: self.centre,
            news,
        };
        match self.peer {
            Some(peer) => voice.note(peer, &what),
            None => voice.say(&what),
        }
    }

    /// Says what came beside what the station takes, if that is new.
    fn tell_strange<R: AllocGlobal + Terminal + Clock>(
        &mut self,
        voice: &mut Voice<'_, R>,
        now: Option<Strange>,
    ) {
        if let Some(strange) = news_of(self.strange, now) {
            let taken = self.served.taken;
            self.note(voice, News::Strange(StrangeLine { strange, taken }));
        }
        self.strange = now;
    }

    /// Says that its connection is over.
    fn tell_gone<R: AllocGlobal + Terminal + Clock>(
        &mut self,
        voice: &mut Voice<'_, R>,
        gone: Gone,
        told: &Told,
    ) {
        self.tell_strange(voice, gone.strange);
        self.strange = None;
        let error = match told.fault {
            Some(fault) => Some(fault.error()),
            None => None,
        };
        let how = self.ending(gone.cause, told, error.as_ref());
        let fragments = gone.fragments;
        self.note(voice, News::Ended(End { fragments, how }));
    }

    /// How its connection ended.
    fn ending<'e>(&self, cause: Closing, told: &Told, error: Option<&'e io::Error>) -> Ending<'e> {
        match (cause, error, told.accepted) {
            (Closing::Peer, None, _) => Ending::Master,
            (Closing::Peer, Some(error), _) => {
                Ending::Failed(ServeFault::ReadFailed, Some(error))
            }
            (Closing::Stuck, ..) => Ending::Failed(ServeFault::WriteFailed, None),
            (Closing::Idle, ..) => Ending::Idle(self.idle),
            (Closing::Replaced, _, Some(peer)) => Ending::Taken(peer),
            (Closing::Memory, ..) => Ending::Failed(ServeFault::Memory, None),
            _ => Ending::Station,
        }
    }

    /// Says that a connection could not be accepted, or was refused.
    fn tell_door<R: AllocGlobal + Terminal + Clock>(&self, voice: &mut Voice<'_, R>, told: &Told) {
        if told.is_refused {
            voice.say(&Line::Refused(self.served.place));
        }
        if let Some(fault) = told.unaccepted {
            let error = fault.error();
            voice.say(&Line::NoCaller(self.served.place, &error));
        }
    }

    /// Says at the end of a turn what has become of its connections, of which the loop has told this.
    pub(crate) fn settle<R: AllocGlobal + Terminal + Clock>(
        &mut self,
        voice: &mut Voice<'_, R>,
        told: &Told,
    ) {
        if let Some(gone) = self.gone {
            self.tell_gone(voice, gone, told);
            self.gone = None;
        }
        self.tell_door(voice, told);
        if told.accepted.is_some() {
            self.peer = told.accepted;
            self.note(voice, News::Connected);
        }
        let now = self.heard.strange();
        if !matches!(now, Some(Strange::Noise)) {
            self.tell_strange(voice, now);
        }
    }
}
