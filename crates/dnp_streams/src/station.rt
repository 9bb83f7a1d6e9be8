//! The station behind `dnp answer`: an outstation without points and outputs, opened at the moment 0,
//! for one frame.
ghost use Rattle.std.specs.Prelude.{◌≡◌, ◌≢◌, [], List, IfOk, OnErr, OnOk, option_to_list};
ghost use Rattle.dnp_linkframe.specs.declared.frame.Frame.{Frame as FrameValue};
ghost use Rattle.dnp_outstation.specs.Station.{actions_of};
ghost use Rattle.dnp_streams.specs.Station.{responses, AreSentBack, Heeds};
ghost use Rattle.dnp_streams.specs.Units.{AreLinesOf};
ghost use Rattle.dnp_streams.specs.steps.Appended.{AreAppended};

use crate::units::{push_fragments, push_line};
use dnp_controls::NoOutputs;
use dnp_eventbuf::RingLanes;
use dnp_line::{Port, Taken};
use dnp_linkframe::Frame;
use dnp_objects::LANES;
use dnp_outstation::{Actions, Outstation};
use dnp_pointdb::{PointDb, PointPlan, Times};
use std::alloc::{AllocError, Global};

/// The station hears one frame, so no timer of it ever ends, and it sends nothing unasked.
const TIMES: Times = Times {
    confirm_ms: 5_000,
    response_ms: 10_000,
    select_ms: 5_000,
    retries: 0,
    unsolicited: false,
};

/// What the outstation, opened at the moment 0, does for a fragment that comes.
fn answered(alloc: Global, fragment: &[u8]) -> Result<Actions, AllocError>
    ensures { IfOk result (λ actions. (actions_of actions).send ≡ responses fragment.now) }
{
    let plan = PointPlan::new(Vec::new(alloc), Vec::new(alloc), Vec::new(alloc)).unwrap();
    let points = PointDb::new(alloc, plan)?;
    let lanes = RingLanes::new(alloc, [1; LANES])?;
    let mut station = Outstation::new(points, lanes, NoOutputs, TIMES);
    let Ok(_) = station.opened(alloc, 0) else {
        return Err(AllocError);
    };
    match station.receive(alloc, 0, fragment) {
        Ok(actions) => Ok(actions),
        Err(_) => Err(AllocError),
    }
}

/// Appends the line of the link layer's reply, if there is one.
fn push_reply(text: &mut Vec<u8>, taken: &Taken) -> Result<(), AllocError>
    ensures appended { OnOk result (AreAppended text.old.items (option_to_list taken.now.reply) text.new.items) }
    ensures memory { OnErr result (option_to_list taken.now.reply ≢ []) }
{
    match taken.reply_unit() {
        Some(unit) => push_line(text, &unit),
        None => Ok(()),
    }
}

/// The lines of the frames that the station sends back for a frame, the first that it hears: no text
/// where it sends none. Memory is asked for only where it heeds the frame.
pub(crate) fn respond(
    alloc: Global,
    frame: &Frame,
    own: u16,
    peer: u16,
) -> Result<Vec<u8>, AllocError>
    ensures sent { IfOk result (λ lines. (back : List FrameValue) × AreSentBack own peer frame.now back × AreLinesOf back lines.items) }
    ensures memory { OnErr result (Heeds own peer frame.now) }
{
    let mut port = Port::new(own, peer, false);
    let taken = port.take(frame);
    let mut lines = Vec::new(alloc);
    push_reply(&mut lines, &taken)?;
    if !taken.whole {
        return Ok(lines);
    }
    let actions = answered(alloc, port.fragment())?;
    push_fragments(&mut lines, &mut port, &actions.send)?;
    Ok(lines)
}
