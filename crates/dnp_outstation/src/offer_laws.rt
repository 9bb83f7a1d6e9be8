//! Laws of the fragments of one response, one after the other, and of groups of its events. Each function does nothing, and its contract is a law.
ghost use Rattle.std.specs.Prelude.{◌≡◌, ◌-◌, ◌^◌, ◌++◌, ℕ, Bool, All, List, length, map, min, Option, Some, Ok};
ghost use Rattle.std.specs.List.{flat_map};
ghost use Rattle.dnp_appfragment.specs.Fragments.{Asked, IsRequest};
ghost use Rattle.dnp_appfragment.specs.Headers.{Head, NumbersFit};
ghost use Rattle.dnp_eventbuf.specs.Sound.{IsSoundBuffer};
ghost use Rattle.dnp_eventbuf.specs.EventBuffer.{without};
ghost use Rattle.dnp_objects.specs.declared.limits.TheConstants.{LANES};
ghost use Rattle.dnp_outstation.specs.declared.offer.place.ReadPlace.{ReadPlace};
ghost use Rattle.dnp_outstation.specs.Forms.{CanTell, in_groups, may_in, told_by};
ghost use Rattle.dnp_outstation.specs.Groups.{Group, IsCut, cut};
ghost use Rattle.dnp_outstation.specs.Items.{Source, Item, no_ids, first_place, part_of, part_after, items_of, items_left};
ghost use Rattle.dnp_outstation.specs.Laws.{AreFewPresent, AreHeldFrom};
ghost use Rattle.dnp_outstation.specs.Layout.{item_of};
ghost use Rattle.dnp_outstation.specs.Offer.{held_of, offered};
ghost use Rattle.dnp_outstation.specs.Said.{CanStand};

use dnp_eventbuf::laws::a_release_is_lane_by_lane;

/// A list is cut into groups in one way: all of it, in order, each group as long as its first reaches.
pub fn a_list_is_cut_in_one_way<T>()
    ensures cut { (reaches : T → T → Bool) (items : List T) → IsCut reaches items (cut reaches items) }
    ensures only { (reaches : T → T → Bool) (items : List T) (groups : List (Group T)) → IsCut reaches items groups
        → groups ≡ cut reaches items }
{}

/// What is laid in groups is the items in order. Each goes as its own object, or as 2.3 after a common time, and then it is
/// an event that can tell its own time after that, in two octets.
pub fn what_tells_its_time_after_a_common_one_can()
    ensures whole { (may : ℕ → Bool) (items : List Item) → map item_of (in_groups may items) ≡ items }
    ensures told { (may : ℕ → Bool) (items : List Item) → All (λ x. x ≡ told_by x.common x.item) (in_groups may items) }
    ensures each { (may : ℕ → Bool) (items : List Item) → All CanStand items → All CanTell (in_groups may items) }
{}

/// Nothing is skipped between the fragments of a response, and nothing is given twice: what is left before a
/// fragment is what it holds, and then what is left after it, item by item. So all fragments, one after the
/// other, hold all that the READ asks for, in order. A count that stays at the greatest number plays no part.
///
/// The rows, the present values and the headers are the same for each fragment here. A release of a fragment's
/// rows leaves what is left after it as it is. Numbers of headers are of one or two octets, as they are read.
pub fn nothing_is_skipped_between_fragments()
    ensures rest { (s : Source) (stood : ℕ) (headers : List Head) (place left : ReadPlace) → IsSoundBuffer s.lanes → AreFewPresent s
        → All (λ h. NumbersFit h.range) headers → length place.given ≡ LANES → (offered s stood place headers).left ≡ Some left
        → items_left s stood place headers ≡ held_of (may_in headers) (items_left s stood place headers) ++ items_left s stood left headers }
    ensures all { (s : Source) (stood : ℕ) (headers : List Head) (place : ReadPlace) (fragments : List (List Item)) → IsSoundBuffer s.lanes → AreFewPresent s
        → All (λ h. NumbersFit h.range) headers → length place.given ≡ LANES → AreHeldFrom s stood headers (Some place) fragments
        → flat_map (λ (held : List Item). held) fragments ≡ items_left s stood place headers }
    ensures released { (s : Source) (stood : ℕ) (headers : List Head) (place left : ReadPlace) → IsSoundBuffer s.lanes
        → length place.given ≡ LANES → (offered s stood place headers).left ≡ Some left
        → items_left (record s { lanes = without s.lanes (offered s stood place headers).upto }) stood left headers ≡ items_left s stood left headers }
    ensures read { (octets : List ℕ) (asked : Asked) → IsRequest octets asked → All (λ h. NumbersFit h.range) asked.headers }
    ensures begins { (s : Source) (stood : ℕ) (headers : List Head)
        → items_left s stood first_place headers ≡ items_of s stood no_ids 0 (map (part_of s) headers) }
    ensures count { (s : Source) (h : Head) (count : ℕ) → AreFewPresent s → NumbersFit h.range
        → part_after (min count (2 ^ 32 - 1)) (part_of s h) ≡ part_after count (part_of s h) }
{
    a_release_is_lane_by_lane();
}
