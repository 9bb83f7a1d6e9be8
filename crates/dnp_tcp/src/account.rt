//! What is known of a station that is asked again and again, and what is said of it on standard error: a line for what has changed.

use crate::asking::Call;
use crate::clock::{moment, utc};
use dnp_appfragment::Iin;
use dnp_notices::{
    Doing, Happening, Last, Notice, Poll, Refusal, Standing, Strange, Thing, Trouble, WATCHED,
    change_of, news_of, output_in, refusal_of,
};
use dnp_pointdb::PointPlan;
use dnp_terminal::Terminal;
use std::io;
use std::rt::Clock;

/// What is known of a station that is asked again and again, from poll to poll.
#[derive(Drop)]
pub struct Account {
    /// The station's points, by the plan.
    points: PointPlan,
    /// Whether it answers.
    standing: Standing,
    /// How far the control there is.
    doing: Doing,
    /// The output or the setpoint that it is for, where it is known.
    output: Option<Thing>,
    /// What it indicated last.
    iin: Iin,
    /// What came last beside what was awaited.
    strange: Option<Strange>,
    /// When it last gave a whole answer that was taken, if it ever did.
    last: Option<Last>,
    /// The moment at which the poll began, in milliseconds.
    begun: u64,
}

impl Account {
    /// A station with these points that was not asked yet.
    pub fn new(points: PointPlan) -> Account {
        Account {
            points,
            standing: Standing::There,
            doing: Doing::Nothing,
            output: None,
            iin: Iin::NONE,
            strange: None,
            last: None,
            begun: 0,
        }
    }

    /// A poll begins.
    pub(crate) fn begin<C: Clock>(&mut self, clock: &C) {
        self.begun = moment(clock, self.begun);
    }

    /// A poll is over. It was not answered for this reason, if it wasn't, and for the failure of a call.
    pub(crate) fn end<R: Eprint + Terminal + Clock>(
        &mut self,
        rt: &R,
        call: &Call<'_>,
        trouble: Option<Trouble>,
        cause: Option<&io::Error>,
    ) {
        let poll = Poll {
            last: self.last,
            begun: self.begun,
            ended: moment(rt, self.begun),
            trouble,
        };
        if let Some(notice) = self.standing.notice(&poll) {
            call.say(rt, None, Notice::Link(notice), cause);
        }
        self.standing = self.standing.after(&poll);
        if let Some(Trouble::Strange(strange)) = trouble {
            self.strange = Some(strange);
        }
    }

    /// It has given a whole answer, which was taken.
    pub(crate) fn answers<C: Clock>(&mut self, clock: &C) {
        self.last = Some(Last {
            utc: utc(clock),
            moment: moment(clock, self.begun),
        });
    }

    /// It was sent a command, by a request with these octets.
    pub(crate) fn commands(&mut self, call: &Call<'_>, request: &[u8]) {
        self.output = output_in(call.peer, request);
    }

    /// Something happened to the control there.
    pub(crate) fn happens<R: Eprint + Terminal + Clock>(
        &mut self,
        rt: &R,
        call: &Call<'_>,
        happening: &Happening,
    ) {
        if let Some(notice) = self.doing.notice(happening) {
            call.say(rt, self.output, Notice::Control(notice), None);
        }
        self.doing = self.doing.after(happening);
    }

    /// It indicates this, in the answer to a poll.
    pub(crate) fn indicates<R: Eprint + Terminal + Clock>(
        &mut self,
        rt: &R,
        call: &Call<'_>,
        iin: Iin,
    ) {
        for indication in WATCHED {
            if let Some(rises) = change_of(indication, self.iin, iin) {
                call.say(rt, None, Notice::Indication(indication, rises), None);
            }
        }
        self.iin = iin;
    }

    /// This came on the connection to it beside what was awaited. It is said where it is new, and was not the reason why the poll was
    /// not answered, which is said by itself.
    pub(crate) fn heard<R: Eprint + Terminal + Clock>(
        &mut self,
        rt: &R,
        call: &Call<'_>,
        strange: Option<Strange>,
    ) {
        if let Some(news) = news_of(self.strange, strange) {
            call.say(rt, None, Notice::Strange(news), None);
        }
        self.strange = strange;
    }

    /// Why it is not taken what it sent.
    pub(crate) fn refusal_of(&self, octets: &[u8]) -> Option<Refusal> {
        refusal_of(&self.points, octets)
    }
}
