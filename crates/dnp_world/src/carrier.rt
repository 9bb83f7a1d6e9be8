//! What carries the units of a system's lines from one station to another.

ghost use Rattle.std.specs.Prelude.{IfErr, IsOk, OnOk};

use crate::event::Link;
use crate::link_event::Way;
use dnp_concentrator::Cause;

/// Carries units from one end of a line to the other, before they come to their ends.
///
/// A clause can't say what a socket gives or takes, so a carrier says for itself what it is to have carried a unit: it itself
/// sees to it that what comes is what went, and refuses else.
pub trait Carrier {
    ghost use Rattle.std.specs.Prelude.{ℕ, List};
    ghost use Rattle.dnp_concentrator.specs.declared.cause.Cause.{Cause};
    ghost use Rattle.dnp_world.specs.declared.event.Link.{Link};
    ghost use Rattle.dnp_world.specs.declared.link_event.Way.{Way};

    /// It comes of another by carrying this unit, once, over this way of this link.
    ghost carries: { Self → Link → Way → List ℕ → Self → Type 0 };

    /// It comes of another by refusing a unit for this cause.
    ghost refuses: { Self → Cause → Self → Type 0 };

    /// Carries a unit over this way of this link. A unit that is refused is lost.
    fn carry(&mut self, on: Link, way: Way, unit: &[u8]) -> Result<(), Cause>
        ensures carried { OnOk result (carries self.old on way unit.now self.new) }
        ensures refused { IfErr result (λ cause. refuses self.old cause self.new) };
}

/// Units stay in memory, and nothing is done to carry them.
#[derive(Clone, Copy, Debug, PartialEq, Eq)]
pub struct InMemory;

impl Carrier for InMemory {
    ghost use Rattle.std.specs.Prelude.{⊤};

    ghost carries = { λ _ _ _ _ _. ⊤ };

    ghost refuses = { λ _ _ _. ⊥ };

    fn carry(&mut self, _on: Link, _way: Way, _unit: &[u8]) -> Result<(), Cause>
        ensures { IsOk result }
    {
        Ok(())
    }
}

/// What is lent carries as it does by itself.
impl<C: Carrier> Carrier for &mut C {
    ghost carries = { λ old on way unit new. C.carries old.now on way unit new.now };

    ghost refuses = { λ old cause new. C.refuses old.now cause new.now };

    fn carry(&mut self, on: Link, way: Way, unit: &[u8]) -> Result<(), Cause> {
        Carrier::carry(&mut **self, on, way, unit)
    }
}
