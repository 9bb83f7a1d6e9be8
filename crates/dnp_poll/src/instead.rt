//! What a poll sends in place of the requests of its tasks.

ghost use Rattle.std.specs.Prelude.{◌≡◌, ◌%◌, ◌/◌, slice_set};
ghost use Rattle.dnp_appfragment.specs.Table.{function_octet};
ghost use Rattle.dnp_poll.specs.Instead as spec;

use dnp_appfragment::Function;
use dnp_master::{Fragment, Task};

/// The qualifier of a range whose indices have an octet each.
const SPAN: u8 = 0x00;

/// The qualifier of a range whose indices have two octets each.
const WIDE_SPAN: u8 = 0x01;

/// Points of a group in a variation, from one index to another (IEEE Std 1815-2012, application layer: object headers).
#[derive(Clone, Copy, Debug, PartialEq, Eq)]
pub struct Points {
    /// The group.
    pub group: u8,
    /// The variation; 0 is the outstation's choice.
    pub variation: u8,
    /// The first index.
    pub first: u16,
    /// The last index.
    pub last: u16,
}

/// What a poll sends in place of the requests of its tasks.
#[derive(Clone, Copy, Debug, PartialEq, Eq)]
pub struct Instead {
    /// The points that are read in place of classes, if there are any.
    pub points: Option<Points>,
    /// Whether a command goes by DIRECT_OPERATE, in place of SELECT and OPERATE.
    pub direct: bool,
}

impl Instead {
    /// Each request is that of its task.
    pub const NOTHING: Instead = Instead {
        points: None,
        direct: false,
    };

    /// Whether a task can't be asked: with DIRECT_OPERATE there is no OPERATE after a select, and once a command was sent none
    /// follows.
    pub(crate) fn bars(&self, is_spent: bool, task: &Task) -> bool
        ensures { result ≡ spec.is_barred self.now is_spent task.now }
    {
        match task {
            Task::Select(_) => self.direct && is_spent,
            Task::Operate(_) => self.direct,
            _ => false,
        }
    }

    /// Whether a task sends a command by DIRECT_OPERATE.
    pub(crate) fn operates(&self, task: &Task) -> bool
        ensures { result ≡ spec.is_direct self.now task.now }
    {
        self.direct && matches!(task, Task::Select(_))
    }

    /// Puts what is sent in place of the request of a task.
    pub(crate) fn put(&self, task: &Task, request: &mut Fragment)
        ensures { request.new.items ≡ spec.sent_for self.now task.now request.old.items }
    {
        match (task, self.points) {
            (Task::Poll(_), Some(points)) => put_read(&points, request),
            _ => {
                if self.operates(task) {
                    put_function(Function::DirectOperate, request);
                }
            }
        }
    }
}

/// Puts a READ of points behind the control octet.
fn put_read(points: &Points, request: &mut Fragment)
    ensures { request.new.items ≡ spec.read_of points.now request.old.items }
{
    let Points {
        group,
        variation,
        first,
        last,
    } = *points;
    request.truncate(1);
    let read = Function::Read.octet();
    if first < 256 && last < 256 {
        let octets = [read, group, variation, SPAN, first as u8, last as u8];
        request.try_extend_from_slice(&octets).unwrap();
    } else {
        let (first_low, first_high) = octets_of(first);
        let (last_low, last_high) = octets_of(last);
        let octets = [
            read, group, variation, WIDE_SPAN, first_low, first_high, last_low, last_high,
        ];
        request.try_extend_from_slice(&octets).unwrap();
    }
}

/// The octets of an index, the low one first.
fn octets_of(index: u16) -> (u8, u8)
    ensures low { result.0 ≡ index % 256 }
    ensures high { result.1 ≡ index / 256 }
{
    ((index % 256) as u8, (index / 256) as u8)
}

/// Puts another function into a request.
fn put_function(function: Function, request: &mut Fragment)
    ensures { request.new.items ≡ slice_set request.old.items 1 (function_octet function) }
{
    if let Some(octet) = request.get_mut(1) {
        *octet = function.octet();
    }
}
