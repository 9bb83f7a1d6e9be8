//! The requests of tasks.

ghost use Rattle.std.specs.Prelude.{◌≡◌, ◌+◌, ◌≤◌, ◌<◌, ◌++◌, [], ◌∷◌, true, ℕ, IsTrue, None, length};
ghost use Rattle.byteorder.specs.Endian.{little_bytes};
ghost use Rattle.dnp_appfragment.specs.Built.{carries_commands, context_of, heads, size, with_header};
ghost use Rattle.dnp_appfragment.specs.Fragments.{IsRequest, request_octets};
ghost use Rattle.dnp_appfragment.specs.Headers.{IsHeader, IsHeaderAt, header_octets};
ghost use Rattle.dnp_appfragment.specs.Seen.{head};
ghost use Rattle.dnp_appfragment.specs.Table.{form_of};
ghost use Rattle.dnp_appfragment.specs.Written.{order};
ghost use Rattle.dnp_appfragment.specs.declared.table.Form.TheVariants as form;
ghost use Rattle.dnp_master.specs.Requests as spec;

use crate::task::{Classes, Task};
use arrayvec::ArrayVec;
use dnp_appfragment::{Builder, Control, Function, Header, Iin, Range};
use dnp_objects::{Command, MAX_FRAGMENT, Status};

/// A fragment, of at most 2,048 octets.
pub type Fragment = ArrayVec<u8, MAX_FRAGMENT>;

/// Puts a header for which there is room.
fn put(builder: &mut Builder, header: &Header<'_>)
    requires fits { IsHeaderAt (form_of builder.old.function) (context_of builder.old) (head header.now) }
    requires room { size builder.old + length (header_octets (head header.now)) ≤ MAX_FRAGMENT }
    ensures { builder.new ≡ with_header builder.old (head header.now) }
{
    builder.header(header).unwrap();
}

/// Puts the header of a class, if it is one of these.
fn put_class(builder: &mut Builder, classes: Classes, class: u8)
    requires class { class ≤ 3 }
    requires fits { spec.has_class classes class ≡ true → IsHeader (form_of builder.old.function) (spec.class_header class) }
    requires room { size builder.old ≤ 1024 }
    ensures heads { heads builder.new ≡ heads builder.old ++ spec.headers_of_class classes class }
    ensures function { builder.new.function ≡ builder.old.function }
    ensures small { size builder.new ≤ size builder.old + 3 }
{
    if classes.has(class) {
        let header = Header::new(60, class + 1, Range::All, &[]);
        put(builder, &header);
    }
}

/// Puts the headers of these classes.
fn put_classes(builder: &mut Builder, classes: Classes)
    requires fits { (class : ℕ) → class ≤ 3 → spec.has_class classes class ≡ true → IsHeader (form_of builder.old.function) (spec.class_header class) }
    requires room { size builder.old ≤ 1000 }
    ensures heads { heads builder.new ≡ heads builder.old ++ spec.class_headers classes }
    ensures function { builder.new.function ≡ builder.old.function }
{
    put_class(builder, classes, 1);
    put_class(builder, classes, 2);
    put_class(builder, classes, 3);
    put_class(builder, classes, 0);
}

/// Puts what writes the indication of a restart 0.
fn put_no_restart(builder: &mut Builder)
    requires function { form_of builder.old.function ≡ form.Write }
    requires room { size builder.old ≤ 1024 }
    ensures { builder.new ≡ with_header builder.old spec.no_restart }
{
    let range = Range::Span {
        wide: false,
        first: 7,
        last: 7,
    };
    let header = Header::new(80, 1, range, &[0]);
    put(builder, &header);
}

/// Puts a time.
fn put_time(builder: &mut Builder, time: u64)
    requires function { form_of builder.old.function ≡ form.Write }
    requires room { size builder.old ≤ 1024 }
    ensures { builder.new ≡ with_header builder.old (spec.time_header time) }
{
    let octets = time.to_le_bytes();
    let range = Range::Count { wide: false, n: 1 };
    let header = Header::new(50, 1, range, &octets[..6]);
    put(builder, &header);
}

/// Puts a command into a request that has no headers.
fn put_command(builder: &mut Builder, command: &Command)
    requires empty { builder.old ≡ record { function = builder.old.function; ended = []; run = None } }
    requires carries { IsTrue (carries_commands builder.old.function) }
    ensures heads { heads builder.new ≡ order command.now 0 ∷ [] }
    ensures function { builder.new.function ≡ builder.old.function }
{
    builder.command(command, Status::SUCCESS).unwrap();
}

/// Puts the headers of a task into a request that has none.
fn put_headers(builder: &mut Builder, task: &Task)
    requires function { builder.old ≡ record { function = spec.function_for task.now; ended = []; run = None } }
    requires good { IsTrue (spec.is_good task.now) }
    ensures heads { heads builder.new ≡ spec.headers_for task.now }
    ensures function { builder.new.function ≡ spec.function_for task.now }
{
    match task {
        Task::Poll(classes) | Task::Enable(classes) | Task::Disable(classes) => {
            put_classes(builder, *classes);
        }
        Task::ClearRestart => put_no_restart(builder),
        Task::WriteTime(time) => put_time(builder, *time),
        Task::Select(command) | Task::Operate(command) => {
            put_command(builder, command);
        }
    }
}

/// The function of a task's request.
fn function_for(task: &Task) -> Function
    ensures { result ≡ spec.function_for task.now }
{
    match task {
        Task::Poll(_) => Function::Read,
        Task::ClearRestart | Task::WriteTime(_) => Function::Write,
        Task::Enable(_) => Function::EnableUnsolicited,
        Task::Disable(_) => Function::DisableUnsolicited,
        Task::Select(_) => Function::Select,
        Task::Operate(_) => Function::Operate,
    }
}

/// Puts octets into a fragment, for which it has room, in place of what was there.
fn refill(fragment: &mut Fragment, octets: &[u8])
    requires { length octets.now ≤ MAX_FRAGMENT }
    ensures { fragment.new.items ≡ octets.now }
{
    fragment.clear();
    fragment.try_extend_from_slice(octets).unwrap();
}

/// Puts the request of a task, with this sequence number, into a fragment, in place of what was there. It is built in a
/// builder that is kept for all requests.
pub(crate) fn put_request(builder: &mut Builder, request: &mut Fragment, task: &Task, seq: u8)
    requires seq { seq < 16 }
    requires good { IsTrue (spec.is_good task.now) }
    ensures octets { request.new.items ≡ request_octets (spec.request_for seq task.now) }
    ensures reads { IsRequest request.new.items (spec.request_for seq task.now) }
{
    builder.restart(function_for(task), false);
    put_headers(builder, task);
    let control = Control {
        fir: true,
        fin: true,
        con: false,
        uns: false,
        seq,
    };
    // What is left says that the fragment fits.
    let _left = builder.left();
    refill(request, builder.fragment(control, Iin::NONE));
}
