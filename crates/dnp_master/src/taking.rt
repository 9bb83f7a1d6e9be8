//! What a response makes of the master, before the sink is asked.

ghost use Rattle.std.specs.Prelude.{◌≡◌, ◌<◌, true, None, Some, All};
ghost use Rattle.dnp_objects.specs.Events.{IsEvent};
ghost use Rattle.dnp_appfragment.specs.Whole.{response as answered};
ghost use Rattle.dnp_master.specs.Calls as spec;
ghost use Rattle.dnp_master.specs.Outcomes as outcomes;
ghost use Rattle.dnp_master.specs.State.{after, deadline as deadline_of};
ghost use Rattle.dnp_master.specs.Taking.{IsFit, WorksOut, events_taken, statics_taken, taking_of, with_next};

use crate::fault::MasterFault;
use crate::gathering::Gathered;
use crate::master::{Master, deadline};
use crate::outcome::{Echo, Outcome};
use crate::request::{Case, OpenRequest};
use crate::task::Task;
use dnp_appfragment::{Control, Function, Iin, Response, confirm, read_response};
use dnp_objects::{Command, Row};
use std::alloc::Global;

/// What changes of the master's connection, and the outcome of its task.
#[derive(Clone, Copy)]
pub(crate) struct Next {
    pub seq: u8,
    pub request: Option<OpenRequest>,
    pub selected: Option<Command>,
    pub outcome: Option<Outcome>,
}

/// What a fragment holds, and what it makes of the master once its rows are stored: what `Master::look` finds and
/// `Master::settle` settles.
#[derive(Drop)]
pub struct SeenFragment {
    pub(crate) next: Next,
    pub(crate) gathered: Gathered,
    pub(crate) send: Option<[u8; 2]>,
    pub(crate) restart: bool,
}

impl SeenFragment {
    /// The events, in order. Each can be reported as one.
    pub fn events(&self) -> &[Row]
        requires { IsFit self.now }
        ensures value { result.now ≡ events_taken self.now }
        ensures carried { All IsEvent result.now }
    {
        self.gathered.events()
    }

    /// The present values, in order.
    pub fn statics(&self) -> &[Row]
        requires { IsFit self.now }
        ensures { result.now ≡ statics_taken self.now }
    {
        self.gathered.statics()
    }
}

/// Whether it is a response that nobody asked for, whole in one fragment.
fn is_report(function: Function, control: Control) -> bool
    ensures { result ≡ spec.is_report function control }
{
    match function {
        Function::UnsolicitedResponse => control.uns && control.fir && control.fin,
        _ => false,
    }
}

/// Whether it is a fragment of a response to a request.
fn is_solicited(function: Function, control: Control) -> bool
    ensures { result ≡ spec.is_solicited function control }
{
    match function {
        Function::Response => !control.uns,
        _ => false,
    }
}

/// Whether a fragment is the next one of the response to this request.
fn is_next(seq: u8, request: &OpenRequest, control: Control) -> bool
    ensures { result ≡ spec.is_next seq request.now control }
{
    let is_in_place = if request.has_begun {
        !control.fir
    } else {
        control.fir
    };
    control.seq == seq && is_in_place
}

/// The confirm of a fragment, where it asks for one.
pub(crate) fn confirm_for(control: Control) -> Option<[u8; 2]>
    ensures { result ≡ spec.confirm_for control }
{
    if control.con {
        Some(confirm(control.seq, control.uns))
    } else {
        None
    }
}

/// Whether the device has started again.
fn indicates_restart(iin: Iin) -> bool
    ensures { result ≡ spec.indicates_restart iin }
{
    iin.one / 0x80 % 2 == 1
}

/// The command that stands selected after the response to a task.
fn selected_by(task: &Task, echo: &Echo) -> Option<Command>
    ensures { result ≡ outcomes.selected_by task.now echo.now }
{
    match task {
        Task::Select(command) => match echo {
            Echo::Same(status) if status.code() == 0 => Some(*command),
            _ => None,
        },
        _ => None,
    }
}

impl Master {
    /// What a response is to the master.
    pub(crate) fn case(&self, response: &Response<'_>) -> Case
        ensures { result ≡ spec.case_of self.now (answered response.now) }
    {
        if is_report(response.function, response.control) {
            return Case::Report;
        }
        if !is_solicited(response.function, response.control) {
            return Case::Unheeded;
        }
        match self.request {
            Some(request) if is_next(self.seq, &request, response.control) => {
                Case::Awaited(request)
            }
            _ => Case::Unheeded,
        }
    }

    /// Nothing changes.
    pub(crate) fn unchanged(&self) -> Next
        ensures state { with_next self.now result ≡ self.now }
        ensures outcome { result.outcome ≡ None }
        ensures seq { result.seq < 16 }
    {
        Next {
            seq: self.seq,
            request: self.request,
            selected: self.selected,
            outcome: None,
        }
    }

    /// The last fragment of the response to this task came.
    fn end(&self, task: &Task, echo: &Echo, iin: Iin) -> Next
        ensures state { with_next self.now result
            ≡ record self.now { seq = after self.now.seq; request = None; selected = outcomes.selected_by task.now echo.now } }
        ensures outcome { result.outcome ≡ Some (outcomes.outcome_for (outcomes.command_for task.now) echo.now iin) }
        ensures seq { result.seq < 16 }
    {
        let outcome = match task.command() {
            Some(_) => echo.outcome(),
            None => Outcome::Done(iin),
        };
        Next {
            seq: (self.seq + 1) % 16,
            request: None,
            selected: selected_by(task, echo),
            outcome: Some(outcome),
        }
    }

    /// Another fragment of the response to this task came, at this moment.
    fn go_on(&self, now: u64, task: &Task, echo: Echo) -> Next
        ensures state { with_next self.now result
            ≡ record self.now {
              seq = after self.now.seq;
              request = Some (record { task = task.now; has_begun = true; echo = echo; ends = deadline_of now self.now.times.response_ms });
            } }
        ensures outcome { result.outcome ≡ None }
        ensures seq { result.seq < 16 }
    {
        let request = OpenRequest {
            task: *task,
            has_begun: true,
            echo,
            ends: deadline(now, self.times.response_ms),
        };
        Next {
            seq: (self.seq + 1) % 16,
            request: Some(request),
            selected: self.selected,
            outcome: None,
        }
    }

    /// The next fragment of the response to this request came, at this moment.
    pub(crate) fn advance(&self, now: u64, request: &OpenRequest, response: &Response<'_>) -> Next
        ensures taking { spec.taken_as (Case.Awaited request.now) self.now now (answered response.now)
            ≡ spec.taking (answered response.now) (with_next self.now result) self.now.plan result.outcome }
        ensures seq { result.seq < 16 }
    {
        let headers = response.headers.after(0);
        let echo = request.echo.after(request.task.command(), headers);
        if response.control.fin {
            self.end(&request.task, &echo, response.iin)
        } else {
            self.go_on(now, &request.task, echo)
        }
    }

    /// A fragment is taken, with its rows, and makes this of the connection.
    fn take_rows(
        &self,
        alloc: Global,
        next: Next,
        response: &Response<'_>,
    ) -> Result<SeenFragment, MasterFault>
        requires { next.seq < 16 }
        ensures { WorksOut self.now (spec.if_from_plan self.now.plan (answered response.now)
            (spec.taking (answered response.now) (with_next self.now next) self.now.plan next.outcome)) result }
    {
        match Gathered::of(alloc, &self.plan, &response.headers) {
            Ok(gathered) => Ok(SeenFragment {
                next,
                gathered,
                send: confirm_for(response.control),
                restart: indicates_restart(response.iin),
            }),
            Err(fault) => Err(fault),
        }
    }

    /// Nothing is taken.
    fn take_nothing(&self, alloc: Global) -> SeenFragment
        ensures taking { taking_of self.now result ≡ spec.unheeded self.now }
        ensures fit { IsFit result }
    {
        SeenFragment {
            next: self.unchanged(),
            gathered: Gathered::none(alloc),
            send: None,
            restart: false,
        }
    }

    /// A response came at this moment.
    fn take_response(
        &self,
        alloc: Global,
        now: u64,
        response: &Response<'_>,
    ) -> Result<SeenFragment, MasterFault>
        ensures { WorksOut self.now (spec.response_of self.now now (answered response.now)) result }
    {
        match self.case(response) {
            Case::Unheeded => Ok(self.take_nothing(alloc)),
            Case::Report => self.take_rows(alloc, self.unchanged(), response),
            Case::Awaited(request) => {
                self.take_rows(alloc, self.advance(now, &request, response), response)
            }
        }
    }

    /// Octets came at this moment.
    #[tactic(auto, unfolding(crate::specs::Calls::receive_of))]
    pub(crate) fn take(
        &self,
        alloc: Global,
        now: u64,
        octets: &[u8],
    ) -> Result<SeenFragment, MasterFault>
        ensures { WorksOut self.now (spec.receive_of self.now now octets.now) result }
    {
        if !self.is_open {
            return Ok(self.take_nothing(alloc));
        }
        match read_response(octets) {
            Ok(response) => self.take_response(alloc, now, &response),
            Err(_) => Err(MasterFault::Malformed),
        }
    }
}
