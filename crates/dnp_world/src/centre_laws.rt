//! Laws of what one centre sees of a whole system with two. Each function does nothing, and its contract is a law.

ghost use Rattle.std.specs.Prelude.{◌≡◌, None};
ghost use Rattle.dnp_world.specs.Behind.{Elsewhere, IsFrom};
ghost use Rattle.dnp_world.specs.BothSteady.{IssuesAs, LeavesBooks, RelaysAs, StaysBeside, side_of};
ghost use Rattle.dnp_world.specs.Centres.{SeesElsewhere, centre_at};
ghost use Rattle.dnp_world.specs.Kept.{kept_in};
ghost use Rattle.dnp_world.specs.Steady.{IsSteadyBeside};
ghost use Rattle.dnp_world.specs.SystemRuns.{Happens};
ghost use Rattle.dnp_world.specs.Systems.{System};
ghost use Rattle.dnp_world.specs.declared.event.Event.{Event};

use crate::laws::link_law;
use dnp_controls::laws::ids_go_on;
use dnp_objects::Command;
use dnp_objects::laws::equality_is_decided;

/// What stands at a centre of a steady system: its book has what came to the concentrator's over its link, and that can be sent.
pub fn what_comes_of_a_centre_is_in_its_book()
    ensures { (s : System) (el : Elsewhere) (steady : IsSteadyBeside el s) → IsFrom s.indices (side_of steady.standing.links (kept_in s)) }
{
    equality_is_decided::<u64, Command>();
    link_law();
}

/// What one centre sees of what is at the other one keeps a steady system steady, with the same links behind it, beside what stands
/// there then: where that is from there, and with what stands here makes up the concentrator's book and what was issued.
pub fn what_is_elsewhere_keeps_a_system_steady()
    ensures { (old new : System) (el others : Elsewhere) (steady : IsSteadyBeside el old) → SeesElsewhere old new → IsFrom old.indices others
        → RelaysAs others steady.standing.links new → IssuesAs others new → StaysBeside others steady.standing.links old new }
{
    ids_go_on();
}

/// An event of the concentrator and the substations leaves the commands in the concentrator's book as they are, and the centre's book.
pub fn what_no_centre_does_leaves_the_books()
    ensures { (old new : System) (event : Event) → centre_at event ≡ None → Happens old event new → LeavesBooks old new }
{}
