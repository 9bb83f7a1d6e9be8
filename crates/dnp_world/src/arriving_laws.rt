//! Laws of what is sent over a quiet link of a system. Each function does nothing, and its contract is a law.

ghost use Rattle.std.specs.Prelude.{◌≡◌, ℕ, true, List, [], ◌++◌};
ghost use Rattle.dnp_concentrator.specs.Relaying.{Relaying};
ghost use Rattle.dnp_world.specs.Arriving.{AreApart, Arrive, IsClearOn, UnderWay, channel_on};
ghost use Rattle.dnp_world.specs.Behind.{Elsewhere};
ghost use Rattle.dnp_world.specs.Channels.{GoDown, GoUp};
ghost use Rattle.dnp_world.specs.Rounds.{Flushes, is_quiet_on};
ghost use Rattle.dnp_world.specs.SystemEvents.{LinesChange, SendsDown};
ghost use Rattle.dnp_world.specs.SystemStanding.{IsStanding};
ghost use Rattle.dnp_world.specs.SystemRuns.{Happens};
ghost use Rattle.dnp_world.specs.Systems.{System, itself};
ghost use Rattle.dnp_world.specs.declared.event.Link.{Link};
ghost use Rattle.dnp_world.specs.declared.link_event.Way.{Way};
ghost use Rattle.dnp_world.specs.declared.link_event.Way.TheVariants.{Down, Up};

use dnp_linkframe::laws::a_unit_spells_one_frame;
use dnp_linkstation::laws::what_is_sent_is_for_the_peer;
use dnp_transport::laws::{a_push_goes_on, cuts_give_whole, segments_say_their_places};

/// What is sent over a quiet link arrives, all of it, in order, and nothing else: a quiet link is clear; what a station sends is
/// under way after what is; and after as many deliveries as units stand on a line what was under way there has arrived, each
/// fragment was answered before the next came, and the answers are under way back.
pub fn what_is_sent_arrives()
    ensures quiet { (on : Link) (s : System) (el : Elsewhere) → IsStanding el s → is_quiet_on s on ≡ true → IsClearOn on s }
    ensures sent_down { (on : Link) (fragments down up : List (List ℕ)) (old new : System) → UnderWay on down up old
        → LinesChange on (GoDown fragments) old new → UnderWay on (down ++ fragments) up new }
    ensures sent_up { (on : Link) (fragments down up : List (List ℕ)) (old new : System) → UnderWay on down up old
        → LinesChange on (GoUp fragments) old new → UnderWay on down (up ++ fragments) new }
    ensures asked { (on : Link) (fragments down up : List (List ℕ)) (link : Relaying) (old new : System) → UnderWay on down up old
        → SendsDown on fragments link old new → UnderWay on (down ++ fragments) up new }
    ensures down { (on : Link) (down up : List (List ℕ)) (old new : System) → UnderWay on down up old → Flushes Happens itself on Down old new
        → (answers : List (List ℕ)) × Arrive on Down down answers old new × UnderWay on [] (up ++ answers) new }
    ensures up { (on : Link) (down up : List (List ℕ)) (old new : System) → UnderWay on down up old → Flushes Happens itself on Up old new
        → (answers : List (List ℕ)) × Arrive on Up up answers old new × UnderWay on (down ++ answers) [] new }
    ensures apart { (on other : Link) (way : Way) (fragments answers : List (List ℕ)) (old new : System) → AreApart on other
        → Arrive other way fragments answers old new → channel_on new on ≡ channel_on old on }
    ensures sent_apart { (on other : Link) (fragments : List (List ℕ)) (link : Relaying) (old new : System) → AreApart on other
        → SendsDown other fragments link old new → channel_on new on ≡ channel_on old on }
{
    a_unit_spells_one_frame();
    what_is_sent_is_for_the_peer();
    cuts_give_whole();
    segments_say_their_places();
    a_push_goes_on();
}
