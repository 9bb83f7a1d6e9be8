//! Room that is asked for before anything is done, each time by one call: where there is none, nothing has changed.

ghost use Rattle.std.specs.Prelude.{◌≡◌, ◌+◌, ◌*◌, ◌≤◌, IfErr, IsOk, OnOk, vec_capacity, vec_len};
ghost use Rattle.dnp_line.specs.Lines.{room_of};
ghost use Rattle.dnp_world.specs.MasterEnds.{lists_in};

use crate::sending::FRAGMENT_UNITS;
use crate::substation_list::SubstationList;
use dnp_concentrator::{Cause, PerCentre};
use dnp_controls::MAX_COMMANDS;
use dnp_line::Line;
use dnp_objects::{Command, Row};

/// Reserves room for what a substation makes of a reading: one row more on the list, and two fragments more on the line.
pub(crate) fn reserve_for_reading(
    up: &mut Line,
    overwritten: &mut SubstationList<Row>,
) -> Result<(), Cause>
    ensures line { up.new.state ≡ up.old.state }
    ensures list { overwritten.new.items ≡ overwritten.old.items }
    ensures room { OnOk result (2 * FRAGMENT_UNITS ≤ room_of up.new) }
    ensures places { OnOk result (1 ≤ overwritten.new.room) }
    ensures named { IfErr result (λ cause. cause ≡ Cause.Memory) }
    ensures enough { 1 ≤ overwritten.old.room → 2 * FRAGMENT_UNITS ≤ room_of up.old → IsOk result }
{
    overwritten.reserve(1)?;
    up.reserve(2 * FRAGMENT_UNITS)?;
    Ok(())
}

/// The same for the outstation of a link by itself, whose rows that leave stand on this list.
pub(crate) fn reserve_for_left(up: &mut Line, left: &mut Vec<Row>) -> Result<(), Cause>
    ensures line { up.new.state ≡ up.old.state }
    ensures list { left.new.items ≡ left.old.items }
    ensures room { OnOk result (2 * FRAGMENT_UNITS ≤ room_of up.new) }
    ensures places { OnOk result (vec_len left.new + 1 ≤ vec_capacity left.new) }
{
    left.reserve(1)?;
    up.reserve(2 * FRAGMENT_UNITS)?;
    Ok(())
}

/// Reserves room for what a unit may bring to a substation: so many rows more on one list, and the commands of one request on
/// the other.
pub(crate) fn reserve_for_unit(
    waiting: usize,
    confirmed: &mut SubstationList<Row>,
    operated: &mut SubstationList<Command>,
) -> Result<(), Cause>
    ensures confirmed { confirmed.new.items ≡ confirmed.old.items }
    ensures operated { operated.new.items ≡ operated.old.items }
    ensures rows { OnOk result (waiting ≤ confirmed.new.room) }
    ensures commands { OnOk result (MAX_COMMANDS ≤ operated.new.room) }
    ensures named { IfErr result (λ cause. cause ≡ Cause.Memory) }
{
    confirmed.reserve(waiting)?;
    operated.reserve(MAX_COMMANDS)?;
    Ok(())
}

/// Reserves room for what a fragment may bring to a master: so many rows more for each centre, and one fragment more on the line.
pub(crate) fn reserve_for_events(
    down: &mut Line,
    count: usize,
    dropped: &mut PerCentre<Vec<Row>>,
) -> Result<(), Cause>
    ensures line { down.new.state ≡ down.old.state }
    ensures same { lists_in dropped.new ≡ lists_in dropped.old }
    ensures room { OnOk result (FRAGMENT_UNITS ≤ room_of down.new) }
    ensures to_first { OnOk result (vec_len dropped.new.first + count ≤ vec_capacity dropped.new.first) }
    ensures to_second { OnOk result (vec_len dropped.new.second + count ≤ vec_capacity dropped.new.second) }
    ensures named { IfErr result (λ cause. cause ≡ Cause.Memory) }
{
    dropped.first.reserve(count)?;
    dropped.second.reserve(count)?;
    down.reserve(FRAGMENT_UNITS)?;
    Ok(())
}
