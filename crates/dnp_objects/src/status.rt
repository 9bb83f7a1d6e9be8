//! The status octets of commands.
ghost use Rattle.std.specs.Prelude.{◌≡◌, ◌%◌, ◌<◌, ◌↔◌, ℕ, [], ◌∷◌, IsSome, IfSome};
ghost use Rattle.dnp_objects.specs.Status as code_of;

use std::marker::Model;

/// The status octet of a command (IEEE Std 1815-2012, object library: control status codes),
/// 0 to 127. Bit 7 of the octet on the wire is no part of it.
///
/// A clause sees a status as its number.
#[derive(Clone, Copy, Debug, PartialEq, Eq, PartialOrd, Ord, Hash)]
pub struct Status(u8);

impl Model for Status {
    ghost Value = { ℕ };

    ghost view = { λ status. status.0 };

    ghost invariant = { λ status. status.0 < 128 };

    ghost inverse = { λ code. record { 0 = code } };
}

/// SUCCESS.
impl Default for Status {
    ghost is_default = { λ status. status ≡ 0 };

    fn default() -> Status {
        Status::SUCCESS
    }
}

impl Status {
    /// The command was accepted, selected or done.
    pub const SUCCESS: Status = Status(0);
    /// The operate came too long after its select.
    pub const TIMEOUT: Status = Status(1);
    /// No matching select came before the operate.
    pub const NO_SELECT: Status = Status(2);
    /// The command has an error in its form.
    pub const FORMAT_ERROR: Status = Status(3);
    /// The station has no such operation for this output.
    pub const NOT_SUPPORTED: Status = Status(4);
    /// The output is busy, or the command is already in progress.
    pub const ALREADY_ACTIVE: Status = Status(5);
    /// The hardware of the output fails.
    pub const HARDWARE_ERROR: Status = Status(6);
    /// The output is switched to local control.
    pub const LOCAL: Status = Status(7);
    /// The request has too many commands.
    pub const TOO_MANY_OBJS: Status = Status(8);

    /// The status of this number, or `None` above 127.
    pub fn new(code: u8) -> Option<Status>
        ensures in_range { IsSome result ↔ (code < 128) }
        ensures value { IfSome result (λ status. status ≡ code) }
    {
        if code < 128 { Some(Status(code)) } else { None }
    }

    /// The statuses that have a name, in the order of their numbers, 0 to 8.
    pub fn named() -> [Status; 9]
        ensures { result
            ≡ code_of.success ∷ code_of.timeout ∷ code_of.no_select ∷ code_of.format_error
            ∷ code_of.not_supported ∷ code_of.already_active ∷ code_of.hardware_error
            ∷ code_of.local ∷ code_of.too_many_objs ∷ [] }
    {
        [
            Status::SUCCESS,
            Status::TIMEOUT,
            Status::NO_SELECT,
            Status::FORMAT_ERROR,
            Status::NOT_SUPPORTED,
            Status::ALREADY_ACTIVE,
            Status::HARDWARE_ERROR,
            Status::LOCAL,
            Status::TOO_MANY_OBJS,
        ]
    }

    /// The status in a status octet, whose bit 7 is ignored.
    pub(crate) fn of_octet(octet: u8) -> Status
        ensures { result ≡ octet % 128 }
    {
        Status(octet % 128)
    }

    /// The status's number, 0 to 127: the octet on the wire with bit 7 clear.
    pub fn code(self) -> u8
        ensures value { result ≡ self }
        ensures range { result < 128 }
    {
        self.0
    }
}
