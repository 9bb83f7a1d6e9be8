//! Laws of the timers: each function does nothing, and its contract is a law.
ghost use Rattle.std.specs.Prelude.{◌≡◌, ◌≢◌, ◌≤◌, ℕ, Some, false, Option, List};
ghost use Rattle.dnp_objects.specs.declared.lane.LaneRow.{LaneRow};
ghost use Rattle.dnp_objects.specs.declared.row.Kind.{Kind};
ghost use Rattle.dnp_pointdb.specs.declared.reading.Reading.{Reading};
ghost use Rattle.dnp_controls.specs.Panel.{Panel};
ghost use Rattle.dnp_outstation.specs.State.{State, still};
ghost use Rattle.dnp_outstation.specs.Calls.{connection_after, tick_of, change_of, opened_of};
ghost use Rattle.dnp_outstation.specs.Timers.{IsBefore, IsSettled, next_deadline};

/// Before its next deadline an outstation does nothing by itself, and at the deadline it does.
pub fn an_outstation_waits_for_its_next_deadline()
    ensures waits { (s : State) (now : ℕ) → IsSettled s → IsBefore now s.core → tick_of s now ≡ still s }
    ensures ends { (s : State) (now ends : ℕ) → next_deadline s.core ≡ Some ends → ends ≤ now → tick_of s now ≢ still s }
{}

/// A closed outstation is settled, and each call leaves a settled one.
pub fn each_call_settles()
    ensures closed { (s : State) → s.core.is_open ≡ false → IsSettled s }
    ensures opened { (s : State) (now : ℕ) → IsSettled (opened_of s now).state }
    ensures received { (s : State) (o : Panel) (now : ℕ) (octets : List ℕ) → IsSettled s → IsSettled (connection_after s o now octets).state }
    ensures ticked { (s : State) (now : ℕ) → IsSettled (tick_of s now).state }
    ensures changed { (s : State) (now : ℕ) (kind : Kind) (index : ℕ) (reading : Reading) (made : Option LaneRow)
        → IsSettled (change_of s now kind index reading made).state }
{}
