//! The names of the groups of objects.

ghost use Rattle.std.specs.Prelude.{◌≡◌};
ghost use Rattle.std.specs.Option.{option_map};
ghost use Rattle.dnp_standard.specs.Groups as spec;

/// What the standard calls a group (IEEE Std 1815-2012, annex A), if it has it.
#[tactic(auto, unfolding(crate::specs::Groups::groups, crate::specs::Groups::group_name))]
pub fn group_name(group: u8) -> Option<&'static str>
    ensures { option_map (λ name. name.now) result ≡ spec.group_name group }
{
    let name = match group {
        0 => "device attribute",
        1 => "binary input",
        2 => "binary input event",
        3 => "double-bit binary input",
        4 => "double-bit binary input event",
        10 => "binary output",
        11 => "binary output event",
        12 => "binary output command",
        13 => "binary output command event",
        20 => "counter",
        21 => "frozen counter",
        22 => "counter event",
        23 => "frozen counter event",
        30 => "analog input",
        31 => "frozen analog input",
        32 => "analog input event",
        33 => "frozen analog input event",
        34 => "analog input reporting deadband",
        40 => "analog output status",
        41 => "analog output",
        42 => "analog output event",
        43 => "analog output command event",
        50 => "time and date",
        51 => "time and date common time-of-occurrence",
        52 => "time delay",
        60 => "class objects",
        70 => "file control",
        80 => "internal indications",
        81 => "device storage",
        82 => "device profile",
        83 => "data set registration",
        85 => "data set prototype",
        86 => "data set descriptor",
        87 => "data set",
        88 => "data set event",
        90 => "application",
        91 => "status of requested operation",
        101 => "binary-coded decimal integer",
        102 => "unsigned integer",
        110 => "octet string",
        111 => "octet string event",
        112 => "virtual terminal output block",
        113 => "virtual terminal event data",
        120 => "authentication",
        121 => "security statistic",
        122 => "security statistic event",
        _ => return None,
    };
    Some(name)
}
