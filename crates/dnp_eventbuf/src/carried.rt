//! Which rows a lane takes.

ghost use Rattle.std.specs.Prelude.{◌↔◌, IsTrue};
ghost use Rattle.dnp_eventbuf.specs.FitsLane.{FitsLane};

use dnp_objects::{LaneRow, is_event};

/// Whether the lane's event object can carry the row, as `append` wants it (IEEE Std 1815-2012, object
/// library: groups 2, 22 and 32).
///
/// The row is of the lane's kind. A binary is 0 or 1 and its flags lack bit 7; a counter is 0 to
/// 2^32 - 1; an analog is -2^31 to 2^31 - 1; a time is below 2^48 ms.
pub fn is_carried(x: &LaneRow) -> bool
    ensures { IsTrue result ↔ FitsLane x.now }
{
    let index = x.row.index;
    prove!(index <= u16::MAX);
    x.row.kind == x.lane.kind && is_event(&x.row)
}
