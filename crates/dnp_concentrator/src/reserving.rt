//! Points that another centre's select reserves.

ghost use Rattle.std.specs.Prelude.{◌≡◌, slice_get};
ghost use Rattle.dnp_appfragment.specs.Seen.{head};
ghost use Rattle.dnp_outstation.specs.Controls.{commands_in, commands_of};
ghost use Rattle.dnp_concentrator.specs.Reserving as spec;

use crate::index_kind::IndexKind;
use arrayvec::ArrayVec;
use dnp_appfragment::{Control, Function, Header, Headers, read_request};
use dnp_objects::{Command, MAX_FRAGMENT};

/// The control octet of a request of one fragment.
const WHOLE: Control = Control {
    fir: true,
    fin: true,
    con: false,
    uns: false,
    seq: 0,
};

/// Whether a command is to the point of the reserving one: to an output or a setpoint as that, of the same index.
pub(crate) fn is_reserved(reserved: &Option<Command>, command: &Command) -> bool
    ensures { result ≡ spec.is_reserved reserved.now command.now }
{
    match reserved {
        Some(other) => {
            IndexKind::of_command(other).number() == IndexKind::of_command(command).number()
                && other.index() == command.index()
        }
        None => false,
    }
}

/// The first command of a header, if it has one.
fn first_of(header: &Header<'_>) -> Option<Command>
    ensures { result ≡ slice_get (commands_of (head header.now)) 0 }
{
    for k in 0..header.count() {
        if let Some((command, _)) = header.command(k) {
            return Some(command);
        }
    }
    None
}

/// The first command of these headers, if there is one.
fn first_command(headers: Headers<'_>) -> Option<Command>
    ensures { result ≡ slice_get (commands_in headers.entry.headers) 0 }
{
    for header in headers {
        if let Some(command) = first_of(&header) {
            return Some(command);
        }
    }
    None
}

/// The command that a select names, by the octets of its objects: none, if it has none. The select is read again as the
/// request that it was.
#[inline(never)]
pub(crate) fn named_by(objects: &[u8]) -> Option<Command>
    ensures { result ≡ spec.named_by objects.now }
{
    if objects.len() > MAX_FRAGMENT - 2 {
        return None;
    }
    let mut octets = ArrayVec::<u8, MAX_FRAGMENT>::new();
    octets.push(WHOLE.octet());
    octets.push(Function::Select.octet());
    octets.try_extend_from_slice(objects).unwrap();
    let request = read_request(octets.as_slice()).ok()?;
    first_command(request.headers)
}
