//! Internal indications that rise and fall.

ghost use Rattle.std.specs.Prelude.{◌≡◌, true, false, Some, None};
ghost use Rattle.dnp_appfragment.specs.Indications.{HasAll};

use dnp_appfragment::Iin;

/// The indications whose changes are said: those that tell of the device, and those by which it refuses what it is asked. Events that
/// wait come and go with each poll, and so nothing is said of them.
pub const WATCHED: [Iin; 10] = [
    Iin::NEED_TIME,
    Iin::LOCAL_CONTROL,
    Iin::DEVICE_TROUBLE,
    Iin::DEVICE_RESTART,
    Iin::NO_FUNC_CODE_SUPPORT,
    Iin::OBJECT_UNKNOWN,
    Iin::PARAMETER_ERROR,
    Iin::EVENT_BUFFER_OVERFLOW,
    Iin::ALREADY_EXECUTING,
    Iin::CONFIG_CORRUPT,
];

/// Whether an indication has risen from these to those, or fallen; nothing where it is as it was.
pub fn change_of(indication: Iin, before: Iin, now: Iin) -> Option<bool>
    ensures rises { result ≡ Some true → HasAll now indication × (HasAll before indication → ⊥) }
    ensures falls { result ≡ Some false → HasAll before indication × (HasAll now indication → ⊥) }
    ensures lasts { result ≡ None → HasAll before indication → HasAll now indication }
    ensures is_absent { result ≡ None → HasAll now indication → HasAll before indication }
{
    match (before.has(indication), now.has(indication)) {
        (false, true) => Some(true),
        (true, false) => Some(false),
        _ => None,
    }
}
