//! Commands and states as the columns of a book's table.

ghost use Rattle.std.specs.Prelude.{◌≡◌};
ghost use Rattle.dnp_objects.specs.Commands.{index_of};
ghost use Rattle.dnp_store.specs.BookTables.{code_of, count_of, kind_of, off_of, on_of, state_of, status_of, value_of};

use dnp_controls::State;
use dnp_objects::Command;

/// A command's kind and fields; fields that the kind doesn't have are 0.
#[derive(Clone, Copy)]
pub(crate) struct Columns {
    /// 0 for a block, 1 and 2 for setpoints of 16 and 32 bits.
    pub(crate) kind: u32,
    /// The output's number.
    pub(crate) point: u32,
    /// A block's control code.
    pub(crate) code: u32,
    /// How many times a block operates.
    pub(crate) count: u32,
    /// How long a block's output is on, in milliseconds.
    pub(crate) on_ms: u32,
    /// How long a block's output is off, in milliseconds.
    pub(crate) off_ms: u32,
    /// A setpoint's value.
    pub(crate) value: i64,
}

/// A setpoint's columns.
fn setpoint(kind: u32, index: u16, value: i64) -> Columns
    ensures { result ≡ record { kind = kind; point = index; code = 0; count = 0; on_ms = 0; off_ms = 0; value = value } }
{
    Columns {
        kind,
        point: u32::from(index),
        code: 0,
        count: 0,
        on_ms: 0,
        off_ms: 0,
        value,
    }
}

/// The columns of a command.
pub(crate) fn columns_of(command: &Command) -> Columns
    ensures numbers { (result.kind ≡ kind_of command.now) × (result.point ≡ index_of command.now) × (result.value ≡ value_of command.now) }
    ensures block { (result.code ≡ code_of command.now) × (result.count ≡ count_of command.now) × (result.on_ms ≡ on_of command.now) × (result.off_ms ≡ off_of command.now) }
{
    match *command {
        Command::Block {
            index,
            code,
            count,
            on_ms,
            off_ms,
        } => Columns {
            kind: 0,
            point: u32::from(index),
            code: u32::from(code),
            count: u32::from(count),
            on_ms,
            off_ms,
            value: 0,
        },
        Command::Set16 { index, value } => setpoint(1, index, i64::from(value)),
        Command::Set32 { index, value } => setpoint(2, index, i64::from(value)),
    }
}

/// The number of a state, and the status that became of it, or 0.
pub(crate) fn state_columns(state: State) -> (u32, u32)
    ensures { (result.0 ≡ state_of state) × (result.1 ≡ status_of state) }
{
    match state {
        State::Pending => (0, 0),
        State::Spent => (1, 0),
        State::Finished(status) => (2, u32::from(status.code())),
    }
}
