//! Laws of the words of `specs/`: each function does nothing, and its contract is a law.

ghost use Rattle.std.specs.Prelude.{◌≡◌, ℕ, ◌↔◌, Bool, IsTrue, List, [], ◌∷◌, ◌++◌, drop, slice_get, All, Contains, length, replicate};
ghost use Rattle.dnp_transport.specs.Cuts.{cut_count};
ghost use Rattle.dnp_line.specs.Lines.{quiet_line};
ghost use Rattle.dnp_line.specs.Clear.{IsClear, all_sent, all_delivered};
ghost use Rattle.dnp_linkframe.specs.declared.frame.Frame.{Frame as FrameValue};
ghost use Rattle.dnp_line.specs.Ports.{PortState, HasHistory, Takes, IsShown};
ghost use Rattle.dnp_line.specs.declared.port.Taken.{Taken as TakenValue};
ghost use Rattle.dnp_line.specs.Comes.{Comes, ComesTo, comes};
ghost use Rattle.dnp_line.specs.Flows.{AreFacing, Flows, RestMoves};
ghost use Rattle.dnp_line.specs.steps.Lower.{Lower};
ghost use Rattle.dnp_line.specs.Ways.{Way, new_way, opened_on, WayEvent, Happens, Runs};
ghost use Rattle.dnp_line.specs.Ways as WayEvent;
ghost use Rattle.dnp_line.specs.declared.line.TheConstants as limits;

use dnp_linkframe::MAX_USER_DATA;
use dnp_linkframe::laws::a_unit_spells_one_frame;
use dnp_linkstation::laws as stations;
use dnp_linkstation::laws::what_is_sent_is_for_the_peer;
use dnp_transport::laws::{a_push_goes_on, cuts_give_whole, segments_say_their_places};
use dnp_transport::{MAX_SEGMENT, laws as assemblers};

/// What the crates below promise of frames, link stations and segments, in one record.
fn what_lies_below()
    ensures { Lower }
{
    a_unit_spells_one_frame();
    what_is_sent_is_for_the_peer();
    cuts_give_whole();
    segments_say_their_places();
    a_push_goes_on();
}

/// The law of a line between two ports: the fragments that the receiver's port gave came of those that were handed to
/// the sender's port, after every run of sends, deliveries, repeats, losses, damage and clearings since the link was
/// opened.
///
/// What carries it, `Flows`, holds of a new way and is kept by each event, with what may still come; so the law goes on
/// from any moment, also where the events of several ways are mixed.
pub fn line_law()
    ensures opened { (own peer : ℕ) (from_master : Bool) → Flows (new_way own peer from_master) [] }
    ensures reopened { (old : Way) → AreFacing old.sender old.receiver → Flows (opened_on old) [] }
    ensures kept { (old new : Way) (event : WayEvent) (rest : List (List ℕ)) → Flows old rest → Happens old event new →
        (left : List (List ℕ)) × RestMoves old event new rest left × Flows new left }
    ensures came { (way : Way) (rest : List (List ℕ)) → Flows way rest → ComesTo way.given way.sent rest }
    ensures runs { (own peer : ℕ) (from_master : Bool) (events : List WayEvent) (way : Way) →
        Runs (new_way own peer from_master) events way → Comes way.given way.sent }
    ensures goes_on { (old new : Way) (events : List WayEvent) (rest : List (List ℕ)) → Flows old rest → Runs old events new →
        (left : List (List ℕ)) × Flows new left }
{
    what_lies_below();
}

/// The longest segment is the longest user data of a link frame: each segment has a frame, and each frame of user data
/// has room for no more than one.
pub fn a_segment_fills_a_frame()
    ensures { MAX_SEGMENT ≡ MAX_USER_DATA }
{}

/// Each list came of itself.
pub fn comes_of_itself<T>()
    ensures { (sent : List T) → Comes sent sent }
{}

/// What came of a list that came of a third one came of the third one: two lines in a row are a line.
pub fn comes_on<T>()
    ensures { (came sent first : List T) → Comes came sent → Comes sent first → Comes came first }
{}

/// Nothing comes of any list, and of nothing comes nothing.
pub fn nothing_comes<T>()
    ensures of_any { (sent : List T) → Comes [] sent }
    ensures of_nothing { (came : List T) → Comes came [] → came ≡ [] }
{}

/// What came of a list came still when the list has more members, after or in front. So what came of an end of a list
/// came of the list.
pub fn comes_of_more<T>()
    ensures of_an_end { (came sent : List T) (n : ℕ) → Comes came (drop n sent) → Comes came sent }
    ensures behind { (came sent more : List T) → Comes came sent → Comes came (sent ++ more) }
    ensures in_front { (came before sent : List T) → Comes came sent → Comes came (before ++ sent) }
{}

/// Where another member came first than the one that was sent first, what came did so of the others.
pub fn comes_after_another<T>()
    ensures { (member first : T) (later others : List T) → (member ≡ first → ⊥) →
        Comes (member ∷ later) (first ∷ others) → Comes (member ∷ later) others }
{}

/// Each member that came was sent.
pub fn members_were_sent<T>()
    ensures { (came sent : List T) → Comes came sent → All (Contains sent) came }
{}

/// The relation is the one that the test finds by going along both lists, for every test of equal
/// members.
pub fn comes_as_tested<T>()
    ensures { (equal : T → T → Bool) → ((x y : T) → IsTrue (equal x y) ↔ (x ≡ y)) →
        (came sent : List T) → Comes came sent ↔ IsTrue (comes equal came sent) }
{}

/// What came of a list has a rest that may still come, and only such a list has.
pub fn comes_to_a_rest<T>()
    ensures { (came sent : List T) → Comes came sent ↔ ((rest : List T) × ComesTo came sent rest) }
{}

/// What may still come is an end of what was sent.
pub fn rest_is_an_end<T>()
    ensures { (came sent rest : List T) → ComesTo came sent rest → (n : ℕ) × (rest ≡ drop n sent) }
{}

/// As long as nothing came, all that was sent may come, or nothing, if all of it is gone.
pub fn nothing_came<T>()
    ensures all { (sent : List T) → ComesTo [] sent sent }
    ensures gone { (sent : List T) → ComesTo [] sent [] }
{}

/// A member that is sent may come, after what may come already.
pub fn one_sent<T>()
    ensures { (came sent rest : List T) (member : T) → ComesTo came sent rest →
        ComesTo came (sent ++ member ∷ []) (rest ++ member ∷ []) }
{}

/// The first members of what may come may be lost.
pub fn some_lost<T>()
    ensures { (came sent rest : List T) (n : ℕ) → ComesTo came sent rest → ComesTo came sent (drop n rest) }
{}

/// All of what may come may be lost, as when a line is cleared.
pub fn cleared<T>()
    ensures { (came sent rest : List T) → ComesTo came sent rest → ComesTo came sent [] }
{}

/// A member of what may come may come next; those before it are lost, and it may come again, so that
/// a delivery and a repeat are one law.
pub fn one_came<T>()
    ensures { (came sent rest : List T) (n : ℕ) (member : T) → ComesTo came sent rest →
        slice_get rest n ≡ Some member → ComesTo (came ++ member ∷ []) sent (drop n rest) }
{}

/// What is sent on a clear way comes out, whatever the receiver's port had half built: after as many deliveries as the
/// fragments have segments the port has given these fragments and nothing else. The way is clear again then.
pub fn a_clear_way_delivers()
    ensures one { (old sent new : Way) (fragment : List ℕ) → IsClear old → Happens old (WayEvent.Send fragment) sent →
        Runs sent (replicate (cut_count (length fragment)) WayEvent.Deliver) new →
        (new.given ≡ old.given ++ fragment ∷ []) × (new.line ≡ quiet_line) × IsClear new }
    ensures many { (old sent new : Way) (fragments : List (List ℕ)) → IsClear old → Runs old (all_sent fragments) sent →
        Runs sent (all_delivered fragments) new → (new.given ≡ old.given ++ fragments) × IsClear new }
{
    what_lies_below();
}

/// A port takes each frame in one way, and shows one fragment: what it does is a function of the port, whatever made it
/// what it is. After a frame it has a history still.
pub fn a_port_takes_in_one_way()
    ensures takes { (old new other : PortState) (frame : FrameValue) (taken taken' : TakenValue) → HasHistory old →
        Takes old frame new taken → Takes old frame other taken' → (new ≡ other) × (taken ≡ taken') }
    ensures shows { (port : PortState) (octets octets' : List ℕ) → HasHistory port → IsShown port octets → IsShown port octets' → octets ≡ octets' }
    ensures goes_on { (old new : PortState) (frame : FrameValue) (taken : TakenValue) → HasHistory old → Takes old frame new taken → HasHistory new }
{
    stations::history_does_not_matter();
    assemblers::history_does_not_matter();
}

/// So many losses in a row break a line: half of the 64 numbers that segments have (IEEE Std 1815-2012, transport
/// function).
pub fn limits_have_their_values()
    ensures losses { limits.BROKEN_LOSSES ≡ 32 }
{}
