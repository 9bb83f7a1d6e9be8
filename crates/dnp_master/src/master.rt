ghost use Rattle.std.specs.Prelude.{◌≡◌};
ghost use Rattle.dnp_master.specs.State as state;

use crate::fault::AskFault;
use crate::outcome::Echo;
use crate::request::OpenRequest;
use crate::requesting::{Fragment, put_request};
use crate::task::Task;
use dnp_appfragment::{Builder, Function};
use dnp_objects::Command;
use dnp_pointdb::{PointPlan, Times};
use std::marker::Model;

/// The master of one outstation (IEEE Std 1815-2012, application layer): it asks one request at a time,
/// takes the response to it, fragment by fragment, and responses that nobody asked for, and confirms
/// what its sink has taken.
///
/// A clause sees it as a `State`: closed, or open and idle, or open with a request whose response is
/// awaited. Nothing but `receive` asks for memory.
pub struct Master {
    pub(crate) plan: PointPlan,
    pub(crate) times: Times,
    pub(crate) is_open: bool,
    /// The sequence number of the next request, or of the fragment that is awaited.
    pub(crate) seq: u8,
    pub(crate) request: Option<OpenRequest>,
    pub(crate) selected: Option<Command>,
    /// What requests are built in: kept, so that none of them makes room for a fragment.
    pub(crate) builder: Builder,
}

impl Model for Master {
    ghost use Rattle.std.specs.Prelude.{◌<◌};
    ghost use Rattle.dnp_master.specs.State.{State};

    ghost Value = { State };

    ghost view = { λ m. record {
      plan = m.plan;
      times = m.times;
      is_open = m.is_open;
      seq = m.seq;
      request = m.request;
      selected = m.selected;
    } };

    ghost invariant = { λ m. m.seq < 16 };
}

impl Drop for Master {
    /// One call for whoever lets it go: its parts are looked at here alone.
    fn drop(self) {
        let Master {
            plan: _,
            times: _,
            is_open: _,
            seq: _,
            request: _,
            selected: _,
            builder: _,
        } = self;
    }
}

impl Master {
    ghost use Rattle.std.specs.Prelude.{◌≡◌, Ok, Err, IfOk, MatchResult, OnErr, OnOk};
    ghost use Rattle.dnp_appfragment.specs.Fragments.{IsRequest};
    ghost use Rattle.dnp_master.specs.Calls.{asked, ask_answer, may_follow};
    ghost use Rattle.dnp_master.specs.Requests.{request_for};
    ghost use Rattle.dnp_master.specs.State as state;

    /// A closed master of the outstation with these points. Of the times it has its response timer by.
    pub fn new(plan: PointPlan, times: Times) -> Master
        ensures { result ≡ state.new_state plan times }
    {
        Master {
            plan,
            times,
            is_open: false,
            seq: 0,
            request: None,
            selected: None,
            builder: Builder::new(Function::Read, false),
        }
    }

    /// A connection was opened: whatever it was before, the master is idle, with sequence number 0.
    pub fn opened(&mut self)
        ensures { self.new ≡ state.opened self.old }
    {
        self.hung_up();
        self.is_open = true;
    }

    /// The connection is gone: the master is closed.
    pub fn hung_up(&mut self)
        ensures { self.new ≡ state.closed self.old }
    {
        self.is_open = false;
        self.seq = 0;
        self.request = None;
        self.selected = None;
    }

    /// Whether the master is open.
    pub fn is_open(&self) -> bool
        ensures { result ≡ self.now.is_open }
    {
        self.is_open
    }

    /// Whether the master is open and awaits no response.
    pub fn idle(&self) -> bool
        ensures { result ≡ state.is_idle self.now }
    {
        self.is_open && self.request.is_none()
    }

    /// The command that stands selected: its select was answered SUCCESS, and nothing was asked since.
    pub fn selected(&self) -> Option<Command>
        ensures { result ≡ self.now.selected }
    {
        self.selected
    }

    /// The moment, in milliseconds, at which the response timer ends; none while it doesn't run. A tick before it does
    /// nothing.
    pub fn next_deadline(&self) -> Option<u64>
        ensures { result ≡ state.next_deadline self.now }
    {
        match &self.request {
            Some(request) if self.is_open => Some(request.ends),
            _ => None,
        }
    }

    /// The moment, in milliseconds, has come: where the response timer has ended, the master closes.
    /// Whether it has closed now. It asks nothing more then before the next opening.
    pub fn tick(&mut self, now: u64) -> bool
        ensures closes { result ≡ state.is_timed_out self.old now }
        ensures after { self.new ≡ state.ticked self.old now }
    {
        let has_ended = match &self.request {
            Some(request) => self.is_open && request.ends <= now,
            None => false,
        };
        if has_ended {
            self.hung_up();
        }
        has_ended
    }

    /// Asks a task at this moment, in milliseconds: the request, to be sent; as `ask_into`.
    pub fn ask(&mut self, now: u64, task: Task) -> Result<Fragment, AskFault>
        ensures answer { MatchResult result (λ request. ask_answer self.old task ≡ Ok request.items)
            (λ fault. ask_answer self.old task ≡ Err fault) }
        // The outstation reads it as that request.
        ensures reads { IfOk result (λ request. IsRequest request.items (request_for self.old.seq task)) }
        ensures after { self.new ≡ asked self.old now task }
    {
        let mut request = Fragment::new();
        self.ask_into(&mut request, now, task)?;
        Ok(request)
    }

    /// Asks a task at this moment, in milliseconds. The request, to be sent, is put into the caller's fragment, in place of
    /// what was there.
    ///
    /// Refused is, first of all, asking while the master is closed (`Closed`), then while another
    /// response is awaited (`Busy`), then to carry out a command that doesn't stand selected
    /// (`NotSelected`), and then a task without a class, one that enables or disables class 0, or a
    /// time of 2^48 ms or more (`BadTask`). Nothing has changed then, and the fragment neither.
    pub fn ask_into(&mut self, request: &mut Fragment, now: u64, task: Task) -> Result<(), AskFault>
        ensures answer { MatchResult result (λ _. ask_answer self.old task ≡ Ok request.new.items)
            (λ fault. ask_answer self.old task ≡ Err fault) }
        // The outstation reads it as that request.
        ensures reads { OnOk result (IsRequest request.new.items (request_for self.old.seq task)) }
        ensures left { OnErr result (request.new ≡ request.old) }
        ensures after { self.new ≡ asked self.old now task }
    {
        if !self.is_open {
            return Err(AskFault::Closed);
        }
        if self.request.is_some() {
            return Err(AskFault::Busy);
        }
        if !self.may_follow(&task) {
            return Err(AskFault::NotSelected);
        }
        if !task.is_good() {
            return Err(AskFault::BadTask);
        }
        put_request(&mut self.builder, request, &task, self.seq);
        self.request = Some(OpenRequest {
            task,
            has_begun: false,
            echo: Echo::Nothing,
            ends: deadline(now, self.times.response_ms),
        });
        self.selected = None;
        Ok(())
    }

    /// Whether the task may be asked after what stands selected.
    fn may_follow(&self, task: &Task) -> bool
        ensures { result ≡ may_follow self.now.selected task.now }
    {
        match task {
            Task::Operate(command) => self.selected == Some(*command),
            _ => true,
        }
    }
}

/// When a timer of so many milliseconds ends.
pub(crate) fn deadline(now: u64, ms: u64) -> u64
    ensures { result ≡ state.deadline now ms }
{
    now.saturating_add(ms)
}
