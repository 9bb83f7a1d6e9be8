//! A fragment that is kept, to be compared with the next one.

ghost use Rattle.std.specs.Prelude.{◌≡◌, ◌⊎◌, [], bytes_eq};

use std::alloc::Global;
use std::marker::Model;

/// The octets of a fragment that is kept. A clause sees them as their list.
#[derive(Drop)]
pub(crate) struct KeptFragment {
    /// In order.
    octets: Vec<u8>,
}

impl Model for KeptFragment {
    ghost use Rattle.std.specs.Prelude.{List, ℕ};

    ghost Value = { List ℕ };

    ghost view = { λ kept. kept.octets.items };
}

impl KeptFragment {
    /// Keeps nothing yet.
    pub(crate) fn new(alloc: Global) -> KeptFragment
        ensures { result ≡ [] }
    {
        KeptFragment {
            octets: Vec::new(alloc),
        }
    }

    /// Keeps nothing more.
    pub(crate) fn clear(&mut self)
        ensures { self.new ≡ [] }
    {
        self.octets.clear();
    }

    /// Keeps these octets in place of others, or none if there is no memory for them.
    pub(crate) fn keep(&mut self, octets: &[u8])
        ensures { (self.new ≡ octets.now) ⊎ (self.new ≡ []) }
    {
        self.octets.clear();
        let _ = self.octets.extend_from_slice(octets);
    }

    /// Says whether these octets are kept.
    pub(crate) fn is(&self, octets: &[u8]) -> bool
        ensures { result ≡ bytes_eq octets.now self.now }
    {
        octets == self.octets.as_slice()
    }
}
