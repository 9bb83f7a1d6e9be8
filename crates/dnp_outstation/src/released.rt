//! What the lanes say without a refusal of what they will hold after a release, if there is one.

ghost use Rattle.std.specs.Prelude.{◌≡◌, ◌<◌, ◌+◌, ◌*◌, if◌then◌else◌, [], IfSome, length};
ghost use Rattle.dnp_eventbuf.specs.EventBuffer.{lane_at, last_of};
ghost use Rattle.dnp_objects.specs.declared.limits.TheConstants.{LANES};
ghost use Rattle.dnp_outstation.specs.Connection.{has_enabled_rows};
ghost use Rattle.dnp_outstation.specs.steps.Filling.{after_release, released_to, has_rows_in};
ghost use Rattle.dnp_outstation.specs.Items.{class_lanes, enabled_lanes, last_in_class, last_in};
ghost use Rattle.dnp_outstation.specs.State.{State};

use dnp_eventbuf::laws::{a_release_is_lane_by_lane, lanes_stay_sound};
use dnp_eventbuf::{Lane, Lanes, Upto};

/// Up to which id the rows of a lane are released.
fn released_to(released: &Option<Upto>, number: usize) -> u64
    requires { number < LANES }
    ensures value { result ≡ released_to released.now number }
    ensures nine { IfSome released.now (λ upto. length upto ≡ LANES) }
{
    match released {
        Some(upto) => upto[number],
        None => 0,
    }
}

/// The last id in the lane of this number after the release, or 0.
fn last_at<L: Lanes>(lanes: &mut L, released: &Option<Upto>, number: usize) -> u64
    requires { number < LANES }
    ensures same { lanes.new ≡ lanes.old }
    ensures value { L.honest lanes.new → result ≡ last_of (lane_at (after_release (L.contents lanes.new) released.now) number).rows }
{
    a_release_is_lane_by_lane();
    let last = match Lane::numbered(number) {
        Some(lane) => lanes.last(lane),
        None => unreachable!(),
    };
    if released_to(released, number) < last {
        last
    } else {
        0
    }
}

/// The last id in the lanes of a class after the release, or 0. Classes count from 0 here.
fn last_in_class<L: Lanes>(lanes: &mut L, released: &Option<Upto>, class: usize) -> u64
    requires { class < 3 }
    ensures same { lanes.new ≡ lanes.old }
    ensures value { L.honest lanes.new → result ≡ last_in_class (after_release (L.contents lanes.new) released.now) class }
{
    let binary = last_at(lanes, released, 3 * class);
    let counter = last_at(lanes, released, 3 * class + 1);
    let analog = last_at(lanes, released, 3 * class + 2);
    binary.max(counter.max(analog))
}

/// The last id in all lanes after the release, or 0.
pub(crate) fn last_left<L: Lanes>(lanes: &mut L, released: &Option<Upto>) -> u64
    ensures same { lanes.new ≡ lanes.old }
    ensures value { L.honest lanes.new → result ≡ last_in (after_release (L.contents lanes.new) released.now) }
{
    let first = last_in_class(lanes, released, 0);
    let second = last_in_class(lanes, released, 1);
    let third = last_in_class(lanes, released, 2);
    first.max(second.max(third))
}

/// Whether a class is enabled and its lanes hold rows after the release. Classes count from 0 here.
fn has_rows<L: Lanes>(
    lanes: &mut L,
    is_enabled: bool,
    released: &Option<Upto>,
    class: usize,
) -> bool
    requires { class < 3 }
    ensures same { lanes.new ≡ lanes.old }
    ensures value { L.honest lanes.new → result ≡ has_rows_in (after_release (L.contents lanes.new) released.now) (if is_enabled then class_lanes class else []) }
{
    lanes_stay_sound();
    // Whatever the lanes say without a refusal says that ids rise from 1 on.
    let _raised = lanes.raised();
    let _over = released_to(released, 0);
    if !is_enabled {
        return false;
    }
    last_in_class(lanes, released, class) > 0
}

/// Whether the lanes of an enabled class hold rows after the release.
pub(crate) fn has_enabled_rows<L: Lanes>(
    lanes: &mut L,
    enabled: [bool; 3],
    released: &Option<Upto>,
) -> bool
    ensures same { lanes.new ≡ lanes.old }
    ensures value { L.honest lanes.new → (s : State) → s.lanes ≡ after_release (L.contents lanes.new) released.now → s.core.enabled ≡ enabled
        → result ≡ has_enabled_rows s }
    ensures rows { L.honest lanes.new → result ≡ has_rows_in (after_release (L.contents lanes.new) released.now) (enabled_lanes 0 enabled) }
{
    let first = has_rows(lanes, enabled[0], released, 0);
    let second = has_rows(lanes, enabled[1], released, 1);
    let third = has_rows(lanes, enabled[2], released, 2);
    first || second || third
}
