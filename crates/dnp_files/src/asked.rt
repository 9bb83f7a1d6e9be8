//! What is known of a station that is asked on connections that stand, and what is said of it: a line for what has changed. All of it comes
//! from what the node tells.

use crate::connection::{Connection, error_of, indicated, is_report, reads, trouble_of};
use crate::driving::Driving;
use crate::lines::Again;
use crate::refused::Refused;
use crate::sites::Target;
use crate::voice::Voice;
use dnp_appfragment::Iin;
use dnp_concentrator::Cause;
use dnp_loop::Fault;
use dnp_nodes::{Answer, Closing, Head, Report};
use dnp_notices::{
    Doing, Ends, Happening, Last, Line, Notice, Peer, Place, Poll, Standing, Strange, Thing,
    Trouble, WATCHED, change_of, news_of, refusal_of,
};
use dnp_objects::{Command, Status};
use dnp_pointdb::PointPlan;
use dnp_tcp::utc;
use dnp_terminal::Terminal;
use std::alloc::Global;
use std::io;
use std::rt::Clock;

/// Who is asked, where, and for how long.
#[derive(Clone, Copy)]
pub(crate) struct Whom {
    /// Who is asked.
    pub(crate) peer: Peer,
    /// Where it is asked.
    pub(crate) place: Place,
    /// The link addresses of the frames that are awaited.
    pub(crate) awaited: Ends,
    /// How long a fragment of a response is awaited, in milliseconds.
    pub(crate) response_ms: u64,
    /// How long octets that are sent may wait of which none is taken, in milliseconds.
    pub(crate) stuck_ms: u64,
}

impl Whom {
    /// A station at this place, whose link is driven so.
    pub(crate) fn at(peer: Peer, target: Target, response_ms: u64, driving: &Driving) -> Whom {
        Whom {
            peer,
            place: target.place,
            awaited: target.awaited,
            response_ms,
            stuck_ms: driving.pace.poll_ms,
        }
    }
}

/// What is known of a station, over all its connections.
#[derive(Clone, Copy)]
struct Known {
    /// Whether it answers.
    standing: Standing,
    /// How far the control there is.
    doing: Doing,
    /// The output or the setpoint that it is for, if that is known.
    output: Option<Thing>,
    /// What it indicated last.
    iin: Iin,
    /// What came last beside what is awaited, as it was said.
    strange: Option<Strange>,
    /// When something of it was last taken, if anything was.
    last: Option<Last>,
    /// The moment from which on it is asked, in milliseconds.
    begun: u64,
}

/// A station that is asked on connections that stand.
#[derive(Drop)]
pub(crate) struct Asked {
    /// Who is asked, where, and for how long.
    whom: Whom,
    /// Its points, by the plan.
    points: PointPlan,
    /// What is known of it.
    known: Known,
    /// What is known of its connection.
    link: Connection,
    /// Why it was refused since it answered last.
    refused: Refused,
    /// Why its connection ended, or did not come about, if that was not said yet.
    lost: Option<Closing>,
}

impl Asked {
    /// A station with these points that was not asked before this moment.
    pub(crate) fn new(alloc: Global, whom: Whom, points: PointPlan, now: u64) -> Asked {
        Asked {
            whom,
            points,
            known: Known {
                standing: Standing::There,
                doing: Doing::Nothing,
                output: None,
                iin: Iin::NONE,
                strange: None,
                last: None,
                begun: now,
            },
            link: Connection::NEW,
            refused: Refused::new(alloc),
            lost: None,
        }
    }

    /// Says something of it, and why a call failed, if one did.
    fn say<R: AllocGlobal + Terminal + Clock>(
        &self,
        voice: &mut Voice<'_, R>,
        output: Option<Thing>,
        notice: Notice,
        cause: Option<&io::Error>,
    ) {
        let patience_ms = match notice {
            Notice::Link(_) if matches!(self.lost, Some(Closing::Stuck)) => self.whom.stuck_ms,
            _ => self.whom.response_ms,
        };
        let line = Line {
            peer: self.whom.peer,
            names: voice.names,
            place: self.whom.place,
            awaited: self.whom.awaited,
            patience_ms,
            output,
            notice,
            cause,
        };
        voice.say(&line);
    }

    /// It has given an answer, or has given none for this reason. That is said if it is new.
    fn stands<R: AllocGlobal + Terminal + Clock>(
        &mut self,
        voice: &mut Voice<'_, R>,
        now: u64,
        trouble: Option<Trouble>,
        cause: Option<&io::Error>,
    ) {
        let poll = Poll {
            last: self.known.last,
            begun: self.known.begun,
            ended: now,
            trouble,
        };
        if let Some(notice) = self.known.standing.notice(&poll) {
            self.say(voice, None, Notice::Link(notice), cause);
        }
        self.known.standing = self.known.standing.after(&poll);
        if let Some(Trouble::Strange(strange)) = trouble {
            self.known.strange = Some(strange);
        }
    }

    /// Something happened to the control there.
    fn happens<R: AllocGlobal + Terminal + Clock>(
        &mut self,
        voice: &mut Voice<'_, R>,
        happening: &Happening,
    ) {
        if let Some(notice) = self.known.doing.notice(happening) {
            self.say(voice, self.known.output, Notice::Control(notice), None);
        }
        self.known.doing = self.known.doing.after(happening);
    }

    /// It indicates this.
    fn indicates<R: AllocGlobal + Terminal + Clock>(&mut self, voice: &mut Voice<'_, R>, iin: Iin) {
        for indication in WATCHED {
            if let Some(rises) = change_of(indication, self.known.iin, iin) {
                self.say(voice, None, Notice::Indication(indication, rises), None);
            }
        }
        self.known.iin = iin;
    }

    /// It sent a fragment that was refused, the first so many of these octets; none where they are not known. A cause that was said since
    /// it answered last is not said again.
    fn refuses<R: AllocGlobal + Terminal + Clock>(
        &mut self,
        voice: &mut Voice<'_, R>,
        now: u64,
        count: usize,
        octets: &[u8],
    ) {
        let octets = octets.get(..count).unwrap_or(&[]);
        if !octets.is_empty()
            && let Some(refusal) = refusal_of(&self.points, octets)
        {
            let trouble = self.refused.trouble_of(refusal, &self.known.standing);
            if self.link.trouble.is_none() {
                self.link.trouble = Some(trouble);
            }
            self.stands(voice, now, Some(trouble), None);
        }
    }

    /// It has answered a poll to its end.
    fn answers<R: AllocGlobal + Terminal + Clock>(
        &mut self,
        voice: &mut Voice<'_, R>,
        now: u64,
        iin: Iin,
    ) {
        self.stands(voice, now, None, None);
        self.refused.clear();
        self.indicates(voice, iin);
        self.tell_strange(voice, false);
    }

    /// What was asked came out so, by a response with these indications.
    fn ends<R: AllocGlobal + Terminal + Clock>(
        &mut self,
        voice: &mut Voice<'_, R>,
        now: u64,
        iin: Iin,
        answer: Answer,
    ) {
        match answer {
            Answer::Done if self.link.is_poll => self.answers(voice, now, iin),
            Answer::Done | Answer::Nothing => {}
            Answer::Control(code) => match Status::new(code) {
                Some(status) => self.happens(voice, &Happening::Answered(status)),
                None => self.happens(voice, &Happening::Unlike),
            },
            Answer::Unlike => self.happens(voice, &Happening::Unlike),
        }
    }

    /// A response of it came that was not refused, and with it, perhaps, a task to its end.
    fn responds<R: AllocGlobal + Terminal + Clock>(
        &mut self,
        voice: &mut Voice<'_, R>,
        now: u64,
        head: &Head,
        answer: Answer,
    ) {
        self.link.exchange = self.link.exchange.came(&head.octets());
        self.link.is_repeated = false;
        if !matches!(answer, Answer::Nothing) || is_report(head) {
            self.known.last = Some(Last {
                utc: utc(voice.rt),
                moment: now,
            });
        }
        self.ends(voice, now, head.iin, answer);
        self.indicates(voice, indicated(self.known.iin, head.iin));
    }

    /// So many rows of it were stored.
    fn tell_stored<R: AllocGlobal + Terminal + Clock>(
        &mut self,
        voice: &mut Voice<'_, R>,
        rows: usize,
    ) {
        if self.link.is_repeated {
            let peer = self.whom.peer;
            let name = voice.names.of(Thing::Station(peer));
            voice.say(&Again { peer, name, rows });
        }
    }

    /// The node has told this of its link. If a fragment was refused, it has the first of these octets.
    pub(crate) fn told<R: AllocGlobal + Terminal + Clock>(
        &mut self,
        voice: &mut Voice<'_, R>,
        now: u64,
        report: &Report,
        octets: &[u8],
    ) {
        match *report {
            Report::Connected(..) => self.link = Connection::NEW,
            Report::Octets(_) => self.link.heard = self.link.heard.with_octets(),
            Report::Frame(_) => {
                let awaited = self.whom.awaited;
                self.link.heard = self.link.heard.with_frame(awaited, awaited);
            }
            Report::Strange(_, ends) => self.link.meets(ends, self.whom.awaited),
            Report::Refused(_, count) => self.refuses(voice, now, count, octets),
            Report::Response(_, head, answer) => self.responds(voice, now, &head, answer),
            Report::Repeated(_) => self.link.is_repeated = true,
            Report::Stored(_, rows) => self.tell_stored(voice, rows),
            Report::NotMade(_) => voice.fail(Cause::Memory),
            Report::Request(_, seq) => self.link.awaits(seq),
            Report::Asked(_, task) => self.link.is_poll = reads(task),
            Report::Selecting(_, id) => self.happens(voice, &Happening::SelectSent(id)),
            Report::Operating(_, id) => self.happens(voice, &Happening::OperateSent(id)),
            Report::Lost(_, cause) => self.lost = Some(cause),
            Report::Whole(_)
            | Report::Started(_)
            | Report::Indications(..)
            | Report::DropsBegun(..)
            | Report::DropsEnded(..)
            | Report::Finished(..) => {}
        }
    }

    /// The control there is this command, if that is known.
    pub(crate) fn note_output(&mut self, command: Option<&Command>) {
        self.known.output = match command {
            Some(command) => Some(Thing::of_command(self.whom.peer, command)),
            None => None,
        };
    }

    /// Says what came beside what is awaited, if that is new; that no frame came at all is known as the connection ends.
    fn tell_strange<R: AllocGlobal + Terminal + Clock>(
        &mut self,
        voice: &mut Voice<'_, R>,
        ends: bool,
    ) {
        let now = self.link.heard.strange();
        if matches!(now, Some(Strange::Noise)) && !ends {
            return;
        }
        if let Some(strange) = news_of(self.known.strange, now) {
            self.say(voice, None, Notice::Strange(strange), None);
        }
        self.known.strange = now;
    }

    /// Says that its connection ended, or did not come about, by the failure of a call, if one failed.
    fn tell_lost<R: AllocGlobal + Terminal + Clock>(
        &mut self,
        voice: &mut Voice<'_, R>,
        now: u64,
        cause: Closing,
        fault: Option<Fault>,
    ) {
        self.happens(voice, &Happening::Closed);
        let trouble = trouble_of(cause, fault, &self.link);
        if trouble.is_some() {
            let error = error_of(cause, fault);
            self.stands(voice, now, trouble, error.as_ref());
        }
        match cause {
            Closing::Memory => voice.fail(Cause::Memory),
            Closing::Store(cause) => voice.fail(cause),
            _ => {}
        }
    }

    /// Says at the end of a turn what has become of its connection. A call for that failed so, if one did.
    pub(crate) fn settle<R: AllocGlobal + Terminal + Clock>(
        &mut self,
        voice: &mut Voice<'_, R>,
        now: u64,
        fault: Option<Fault>,
    ) {
        if let Some(cause) = self.lost {
            self.tell_lost(voice, now, cause, fault);
            self.tell_strange(voice, true);
            self.lost = None;
        }
    }
}
