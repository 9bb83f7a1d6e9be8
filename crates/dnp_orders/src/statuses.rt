//! The names of statuses.

ghost use Rattle.std.specs.Prelude.{◌≡◌};
ghost use Rattle.dnp_orders.specs.Statuses as spec;

use dnp_objects::Status;

/// The standard's name of a status (IEEE Std 1815-2012, object library: control status codes).
pub fn status_name(status: Status) -> &'static str
    ensures { result.now ≡ spec.status_name status }
{
    match status.code() {
        0 => "SUCCESS",
        1 => "TIMEOUT",
        2 => "NO_SELECT",
        3 => "FORMAT_ERROR",
        4 => "NOT_SUPPORTED",
        5 => "ALREADY_ACTIVE",
        6 => "HARDWARE_ERROR",
        7 => "LOCAL",
        8 => "TOO_MANY_OBJS",
        9 => "NOT_AUTHORIZED",
        10 => "AUTOMATION_INHIBIT",
        11 => "PROCESSING_LIMITED",
        12 => "OUT_OF_RANGE",
        13 => "DOWNSTREAM_LOCAL",
        14 => "ALREADY_COMPLETE",
        15 => "BLOCKED",
        16 => "CANCELED",
        17 => "BLOCKED_OTHER_MASTER",
        18 => "DOWNSTREAM_FAIL",
        126 => "NON_PARTICIPATING",
        127 => "UNDEFINED",
        _ => "RESERVED",
    }
}
