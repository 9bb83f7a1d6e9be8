//! Who is asked.

ghost use Rattle.std.specs.Prelude.{◌≡◌};
ghost use Rattle.dnp_notices.specs.Places as spec;

/// Who is asked.
#[derive(Clone, Copy, Debug, PartialEq, Eq)]
pub enum Peer {
    /// The substation with this number.
    Substation(u8),
    /// The concentrator.
    Concentrator,
}

impl Peer {
    /// Whether two are the same station.
    pub(crate) fn is_same(self, other: Peer) -> bool
        ensures { result ≡ spec.same_peer self other }
    {
        match (self, other) {
            (Peer::Substation(one), Peer::Substation(two)) => one == two,
            (Peer::Concentrator, Peer::Concentrator) => true,
            _ => false,
        }
    }
}
