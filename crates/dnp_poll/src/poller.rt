//! A master that shows the rows of each answer.

ghost use Rattle.std.specs.Borrow.{Lends, sem};
ghost use Rattle.std.specs.Prelude.{◌≡◌, ◌<◌, ◌⊎◌, [], ◌∷◌, ℕ, List, All, IfErr, IfOk, None, OnErr, OnOk, true, false, if◌then◌else◌, length, option_to_list};
ghost use Rattle.dnp_appfragment.specs.Meaning.{response_at};
ghost use Rattle.dnp_appfragment.specs.Whole.{response as answered};
ghost use Rattle.dnp_master.specs.Calls.{is_awaited};
ghost use Rattle.dnp_outstation.specs.Station.{sent_of};
ghost use Rattle.dnp_poll.specs.Polls.{HearsPoll, Stops, closing as closing_said, is_awaiting, nothing_said, poll_seen, with_sink};
ghost use Rattle.dnp_poll.specs.contracts.poller.Poller.{the_row};
ghost use Rattle.dnp_poll.specs.declared.fault.PollFault.TheVariants as stopped;
ghost use Rattle.dnp_streams.specs.streams.Stations.{answer_of};

use crate::fault::PollFault;
use crate::instead::Instead;
use crate::rows::rows_in;
use crate::show::Show;
use crate::task_end::{TaskEnd, TaskEnds};
use dnp_appfragment::{Response, read_response};
use dnp_decode::refused_place;
use dnp_master::{Fragment, Master, Task};
use dnp_pointdb::{PointPlan, Times};
use dnp_streams::Answer;
use std::alloc::Global;

/// A master of one outstation, of which it has no plan: it shows the rows of each fragment of a response, all of them and in
/// order, and only then confirms it. What isn't awaited is neither shown nor confirmed. What is no response stops it, and so does
/// a response that doesn't come in time.
///
/// A loop over a `Link` asks tasks by it.
pub struct Poller<S> {
    /// What asks and confirms. Its plan has no points.
    pub(crate) master: Master,
    /// Whether it confirms.
    pub(crate) confirms: bool,
    /// What it sends in place of the requests of its tasks.
    pub(crate) instead: Instead,
    /// Whether it has sent a command by DIRECT_OPERATE.
    pub(crate) is_spent: bool,
    /// What shows the rows.
    pub(crate) sink: S,
    /// The task that was asked last, and how tasks came out.
    pub(crate) tasks: TaskEnds,
    /// Why it stopped last, if it ever did.
    pub(crate) fault: Option<PollFault>,
}

impl<S: Drop> Drop for Poller<S> {
    /// One call for whoever lets it go: its parts are looked at here alone.
    fn drop(self) {
        let Poller {
            master: _,
            confirms: _,
            instead: _,
            is_spent: _,
            sink: _,
            tasks: _,
            fault: _,
        } = self;
    }
}

/// Nothing is sent.
pub(crate) fn nothing() -> Answer
    ensures { answer_of result ≡ nothing_said }
{
    Answer {
        send: [None, None],
        close: false,
        taken: 0,
        outcome: None,
    }
}

/// Nothing is sent, and the connection is closed.
pub(crate) fn closing() -> Answer
    ensures { answer_of result ≡ closing_said }
{
    Answer {
        send: [None, None],
        close: true,
        taken: 0,
        outcome: None,
    }
}

/// A fragment of these octets.
fn fragment_of(octets: &[u8; 2]) -> Fragment
    ensures value { result.items ≡ octets.now }
    ensures some { 0 < length result.items }
{
    let mut fragment = Fragment::new();
    fragment.try_extend_from_slice(octets).unwrap();
    fragment
}

/// The confirm to be sent, if there is one and the poll confirms.
fn confirm_to_send(confirms: bool, confirm: Option<[u8; 2]>) -> Option<Fragment>
    ensures sent { sent_of (result ∷ None ∷ []) ≡ (if confirms then option_to_list confirm else []) }
    ensures some { All (λ fragment. 0 < length fragment) (sent_of (result ∷ None ∷ [])) }
{
    match confirm {
        Some(octets) if confirms => Some(fragment_of(&octets)),
        _ => None,
    }
}

/// A plan without points.
fn no_points(alloc: Global) -> PointPlan {
    PointPlan::new(Vec::new(alloc), Vec::new(alloc), Vec::new(alloc)).unwrap()
}

impl<S: Show> Poller<S> {
    /// A master that has asked nothing, and is closed. It waits so long for a response, in milliseconds, and for each further
    /// fragment of it.
    pub fn new(
        alloc: Global,
        confirms: bool,
        response_ms: u64,
        instead: Instead,
        sink: S,
    ) -> Poller<S>
        ensures closed { (poll_seen result).master.is_open ≡ false }
        ensures unselected { (poll_seen result).master.selected ≡ None }
        ensures confirms { (poll_seen result).confirms ≡ confirms }
        ensures instead { (poll_seen result).instead ≡ instead }
        ensures unspent { (poll_seen result).is_spent ≡ false }
        ensures waits { (poll_seen result).master.times.response_ms ≡ response_ms }
        ensures sink { (poll_seen result).sink ≡ sink }
        ensures asked { (poll_seen result).asked ≡ None }
        ensures ends { (poll_seen result).ends ≡ [] }
        ensures fault { (poll_seen result).fault ≡ None }
    {
        let times = Times {
            confirm_ms: 0,
            response_ms,
            select_ms: 0,
            retries: 0,
            unsolicited: false,
        };
        Poller {
            master: Master::new(no_points(alloc), times),
            confirms,
            instead,
            is_spent: false,
            sink,
            tasks: TaskEnds::new(alloc),
            fault: None,
        }
    }

    /// What shows the rows.
    pub fn sink(&mut self) -> &mut S
        ensures* writes_back { sem 𝓛 (Lends (the_row S.row) S.row self.entry result (with_sink self.old)) }
        ensures value { result.now ≡ (poll_seen self.old).sink }
    {
        &mut self.sink
    }

    /// How tasks came out, in the order in which they were asked.
    pub fn ends(&self) -> &[TaskEnd]
        ensures { result.now ≡ (poll_seen self.now).ends }
    {
        self.tasks.ends.as_slice()
    }

    /// Forgets how tasks came out.
    pub fn forget_ends(&mut self)
        ensures { poll_seen self.new ≡ record (poll_seen self.old) { ends = [] } }
    {
        self.tasks.ends.clear();
    }

    /// The task that was asked last.
    pub fn asked(&self) -> Option<Task>
        ensures { result ≡ (poll_seen self.now).asked }
    {
        self.tasks.task
    }

    /// Whether a response is awaited.
    pub fn is_awaiting(&self) -> bool
        ensures { result ≡ is_awaiting (poll_seen self.now).master }
    {
        self.master.is_open() && !self.master.idle()
    }

    /// Why it stopped last, if it ever did.
    pub fn fault(&self) -> Option<PollFault>
        ensures { result ≡ (poll_seen self.now).fault }
    {
        self.fault
    }

    /// Shows the rows of a response that is awaited, and only then goes on and answers the confirm.
    fn take(
        &mut self,
        alloc: Global,
        now: u64,
        response: &Response<'_>,
    ) -> Result<Answer, PollFault>
        requires { is_awaited (poll_seen self.old).master (answered response.now) ≡ true }
        ensures heard { (octets : List ℕ) → response_at octets ≡ Ok (answered response.now)
            → IfOk result (λ answer. HearsPoll S.shows (poll_seen self.old) now octets (answer_of answer) (poll_seen self.new)) }
        ensures unheard { OnErr result (poll_seen self.new ≡ record (poll_seen self.old) { sink = (poll_seen self.new).sink }) }
        ensures named { IfErr result (λ fault. (fault ≡ stopped.NotShown) ⊎ (fault ≡ stopped.Memory)) }
        ensures some { IfOk result (λ answer. All (λ fragment. 0 < length fragment) (answer_of answer).send) }
    {
        self.tasks.make_room()?;
        let rows = rows_in(alloc, response)?;
        if self.sink.show(rows.as_slice()).is_err() {
            return Err(PollFault::NotShown);
        }
        let followed = self.master.follow(now, response);
        self.tasks.keep(followed.outcome, response.iin);
        Ok(Answer {
            send: [confirm_to_send(self.confirms, followed.send), None],
            close: false,
            taken: rows.len(),
            outcome: followed.outcome,
        })
    }

    /// Hears a fragment that came.
    pub(crate) fn hear(
        &mut self,
        alloc: Global,
        now: u64,
        octets: &[u8],
    ) -> Result<Answer, PollFault>
        ensures heard { IfOk result (λ answer. HearsPoll S.shows (poll_seen self.old) now octets.now (answer_of answer) (poll_seen self.new)) }
        ensures unheard { OnErr result (poll_seen self.new ≡ record (poll_seen self.old) { sink = (poll_seen self.new).sink }) }
        ensures stops { IfErr result (Stops (poll_seen self.old) octets.now) }
        ensures some { IfOk result (λ answer. All (λ fragment. 0 < length fragment) (answer_of answer).send) }
    {
        let response = match read_response(octets) {
            Ok(response) => response,
            Err(fault) => return Err(PollFault::Answer(fault, refused_place(fault, octets))),
        };
        if !self.master.awaits(&response) {
            return Ok(nothing());
        }
        self.take(alloc, now, &response)
    }
}
