//! Histories of octets, which take no memory.

ghost use Rattle.std.specs.Prelude.{◌≡◌, ◌++◌};
ghost use Rattle.dnp_sessions.specs.Sessions.{noted_in};

use http_server::Log;

/// Notes octets after those that were noted before.
pub(super) fn note(history: &mut Log<u8, ()>, octets: &[u8])
    ensures { noted_in history.new.items ≡ noted_in history.old.items ++ octets.now }
{
    for octet in octets {
        *history = history.and(octet, &());
    }
}
