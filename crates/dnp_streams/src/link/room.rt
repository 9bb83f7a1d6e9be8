//! Room that the steps of links use.

ghost use Rattle.std.specs.Prelude.{◌≡◌};
ghost use Rattle.dnp_streams.specs.links.Links.{request_in};

use crate::stream::KeptAnswer;
use dnp_master::Fragment;
use std::alloc::Global;

/// Room for the steps of links, some 15 kB: a station puts its answer here, and the link spells it into its octets. It is
/// lent to each step and says nothing between two steps, so that a loop needs one for all of its links.
pub struct StepRoom {
    /// What the steps ask memory of.
    pub(super) alloc: Global,
    /// For answers to confirms, and for those while time passes: mostly nothing. They stand apart, because a place with a
    /// fragment is written whole where it is emptied, and again where it is filled after that.
    pub(super) confirmed: KeptAnswer,
    /// For answers to all else that comes.
    pub(super) answer: KeptAnswer,
    /// For answers to changes: nothing, or one report after the other.
    pub(super) changed: KeptAnswer,
    /// For a request.
    pub(super) request: Fragment,
}

impl Drop for StepRoom {
    /// One call for whoever lets it go: its parts are looked at here alone.
    fn drop(self) {
        let StepRoom {
            alloc: _,
            confirmed: _,
            answer: _,
            changed: _,
            request: _,
        } = self;
    }
}

impl StepRoom {
    /// Room in which nothing was put yet. Its steps ask memory of `alloc`.
    pub fn new(alloc: Global) -> StepRoom {
        StepRoom {
            alloc,
            confirmed: KeptAnswer::new(alloc),
            answer: KeptAnswer::new(alloc),
            changed: KeptAnswer::new(alloc),
            request: Fragment::new(),
        }
    }
    /// The request that was put here last, by a task that was asked or a control that was relayed.
    pub fn request(&self) -> &[u8]
        ensures { result.now ≡ request_in self.now }
    {
        self.request.as_slice()
    }
}
