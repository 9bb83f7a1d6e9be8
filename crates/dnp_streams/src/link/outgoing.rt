//! Octets that are to be sent.

ghost use Rattle.std.specs.Prelude.{◌≡◌, ◌<◌, ◌≤◌, ◌+◌, ◌*◌, ◌∷◌, [], length, All, option_to_list};
ghost use Rattle.dnp_outstation.specs.Station.{sent_of};
ghost use Rattle.dnp_streams.specs.streams.Dialogues.{sendable};
ghost use Rattle.dnp_streams.specs.streams.Spelled.{sent_frames, port_after};
ghost use Rattle.dnp_streams.specs.links.Outputs.{ArePut};

use arrayvec::ArrayVec;
use dnp_line::{Port, Taken};
use dnp_linkframe::MAX_UNIT;
use dnp_outstation::Fragment;
use dnp_transport::{MAX_FRAGMENT, SEGMENT_DATA, segment_count};

/// The most octets in which a fragment is sent: those of as many units as it has segments.
const MAX_SENT: usize = (MAX_FRAGMENT + SEGMENT_DATA - 1) / SEGMENT_DATA * MAX_UNIT;

/// The most octets that one step sends: a reply of the link layer, and two fragments.
pub const MAX_STEP: usize = MAX_UNIT + 2 * MAX_SENT;

/// The most octets that wait to be sent: those of two steps.
pub const MAX_OUTPUT: usize = 2 * MAX_STEP;

/// The octets that wait to be sent.
pub(super) type Output = ArrayVec<u8, MAX_OUTPUT>;

/// Puts the units in which the port's station sends a fragment of at most [`MAX_FRAGMENT`] octets after the others,
/// and moves the port's number on.
fn put_fragment(port: &mut Port, fragment: &[u8], out: &mut Output)
    requires some { 0 < length fragment.now }
    requires fits { length fragment.now ≤ MAX_FRAGMENT }
    requires room { length out.old.items + MAX_SENT ≤ MAX_OUTPUT }
    ensures put { ArePut out.old.items (sent_frames port.old (fragment.now ∷ [])) out.new.items }
    ensures grown { length out.new.items ≤ length out.old.items + MAX_SENT }
    ensures moved { port.new ≡ port_after port.old (fragment.now ∷ []) }
{
    let count = segment_count(fragment);
    let mut unit = ArrayVec::new();
    for k in 0..count {
        port.unit_into(fragment, k, &mut unit);
        out.try_extend_from_slice(&unit).unwrap();
    }
    port.sent(count);
}

/// Puts the units of a fragment that may be there.
fn put_one(port: &mut Port, fragment: &Option<Fragment>, out: &mut Output)
    requires some { All (λ octets. 0 < length octets) (sent_of (fragment.now ∷ [])) }
    requires room { length out.old.items + MAX_SENT ≤ MAX_OUTPUT }
    ensures put { ArePut out.old.items (sent_frames port.old (sent_of (fragment.now ∷ []))) out.new.items }
    ensures grown { length out.new.items ≤ length out.old.items + MAX_SENT }
    ensures moved { port.new ≡ port_after port.old (sent_of (fragment.now ∷ [])) }
{
    if let Some(fragment) = fragment {
        put_fragment(port, fragment, out);
    }
}

/// Puts the units of those fragments that are there, in order.
pub(super) fn put_fragments(port: &mut Port, send: &[Option<Fragment>; 2], out: &mut Output)
    requires some { All (λ octets. 0 < length octets) (sent_of send.now) }
    requires room { length out.old.items + 2 * MAX_SENT ≤ MAX_OUTPUT }
    ensures put { ArePut out.old.items (sent_frames port.old (sent_of send.now)) out.new.items }
    ensures moved { port.new ≡ port_after port.old (sent_of send.now) }
{
    let [first, second] = send;
    put_one(port, first, out);
    put_one(port, second, out);
}

/// Puts the units of a request: none where it has no octets.
pub(super) fn put_request(port: &mut Port, request: &Fragment, out: &mut Output)
    requires { length out.old.items + MAX_SENT ≤ MAX_OUTPUT }
    ensures put { ArePut out.old.items (sent_frames port.old (sendable request.now.items)) out.new.items }
    ensures moved { port.new ≡ port_after port.old (sendable request.now.items) }
{
    if !request.is_empty() {
        put_fragment(port, request, out);
    }
}

/// Puts the unit of the link layer's reply, if there is one.
pub(super) fn put_reply(taken: &Taken, out: &mut Output)
    requires { length out.old.items + MAX_UNIT ≤ MAX_OUTPUT }
    ensures put { ArePut out.old.items (option_to_list taken.now.reply) out.new.items }
    ensures grown { length out.new.items ≤ length out.old.items + MAX_UNIT }
{
    if let Some(unit) = taken.reply_unit() {
        out.try_extend_from_slice(&unit).unwrap();
    }
}
