//! Laws of the words of `specs/`: each function does nothing, and its contract is a law.
ghost use Rattle.std.specs.Prelude.{◌≡◌, ◌+◌, ◌++◌, ℕ, Bool, List, []};
ghost use Rattle.dnp_line.specs.Ports.{HasHistory, IsShown, PortState};
ghost use Rattle.dnp_linkframe.specs.declared.frame.Frame.{Frame as FrameValue};
ghost use Rattle.dnp_linkframe.specs.Stream.{Gives};
ghost use Rattle.dnp_streams.specs.AnswerLine.{IsPrinted};
ghost use Rattle.dnp_streams.specs.declared.link.stage.Stage.TheVariants.{Owing, Unopened};
ghost use Rattle.dnp_streams.specs.links.Counts.{StopsLast};
ghost use Rattle.dnp_streams.specs.links.Deeds.{Came, Reply, Whole};
ghost use Rattle.dnp_streams.specs.links.Laws.{Event, HappenAll, Stands, deeds_in, fed_in};
ghost use Rattle.dnp_streams.specs.links.Links.{Does, LinkState, new_link};
ghost use Rattle.dnp_streams.specs.links.Orders.{EachPasses, FollowsAll, NeverFall, NoneEarly, OpensFirst, Standing, Step};
ghost use Rattle.dnp_streams.specs.links.Orders as orders;
ghost use Rattle.dnp_streams.specs.streams.Spelled.{AreSpelled};
ghost use Rattle.dnp_streams.specs.streams.OneWay.{OpensOneWay, ReceivesOneWay, OneOutput};
ghost use Rattle.dnp_streams.specs.streams.Outstations.{ShowOneWay, outstation_opens, outstation_receives};
ghost use Rattle.dnp_streams.specs.streams.Centres.{centre_opens, centre_receives};
ghost use Rattle.dnp_streams.specs.streams.Concentrators.{above_opens, above_receives, below_opens, below_receives};
ghost use Rattle.dnp_streams.specs.declared.address.TheConstants as address;
ghost use Rattle.dnp_streams.specs.declared.input.TheConstants as input;
ghost use Rattle.dnp_streams.specs.declared.octets.TheConstants as octets;

use crate::stream::Station;
use dnp_controls::{LatestOutputs, NoOutputs, Outputs, PlainOutputs};
use dnp_line::laws as lines;
use dnp_linkframe::laws as frames;
use dnp_transport::laws as segments;

/// What is printed, and whether the text was a frame, is a function of the text and the two addresses.
pub fn one_answer()
    ensures { (text : List ℕ) (own peer : ℕ) (line other : List ℕ) (accepted accepted' : Bool) →
        IsPrinted text own peer line accepted → IsPrinted text own peer other accepted' → (line ≡ other) × (accepted ≡ accepted') }
{
    frames::a_frame_has_one_spelling();
    frames::a_unit_spells_one_frame();
    frames::a_spelling_has_no_fault();
    frames::a_unit_has_one_first_fault();
    segments::one_fragment();
}

/// What is written to a stream is a function of the octets that are read from it, of the station, the port and the
/// moment, where the station refuses nothing, and its steps come out in one way.
pub fn one_output<S: Station>()
    ensures { OpensOneWay S.opens → ReceivesOneWay S.receives → OneOutput S.opens S.receives }
{
    lines::a_port_takes_in_one_way();
    frames::a_stream_gives_one_answer();
    frames::a_frame_has_one_spelling();
}

/// Moments of a session's steps never fall. The opening is the first step, and the only one of its kind. After each frame, and
/// after each wait, time passes at once, if that isn't still owed. No change is made before it is due, and no step comes after
/// one that closed the connection.
pub fn a_session_keeps_its_order()
    ensures moments { (old new : Standing) (steps : List Step) → FollowsAll old steps new → NeverFall old.now steps }
    ensures opens { (old new : Standing) (steps : List Step) → FollowsAll old steps new → old.stage ≡ Unopened → OpensFirst steps }
    ensures passes { (old new : Standing) (steps : List Step) → FollowsAll old steps new → (new.stage ≡ Owing → ⊥) → EachPasses steps }
    ensures due { (old new : Standing) (steps : List Step) → FollowsAll old steps new → NoneEarly steps }
    ensures stops { (old new : Standing) (steps : List Step) → FollowsAll old steps new → StopsLast (orders.deeds_in steps) }
{}

/// Whatever is done with a new link, what was handed out and what waits to be sent is what its steps sent, on the frames of
/// the octets that came.
pub fn a_link_keeps_its_law()
    ensures { (port : PortState) (events : List Event) (link : LinkState) → HappenAll (new_link port) events link
        → (handed : List ℕ) × Stands port (deeds_in events) (fed_in events) handed link }
{}

/// After a frame that completes a fragment a link's port shows that fragment; and a port shows one alone.
pub fn a_link_shows_what_it_took()
    ensures shown { (old new : LinkState) (now : ℕ) (frame : FrameValue) (fragment : List ℕ) (reply : Reply) → Does old (Came now frame (Whole fragment reply)) new
        → IsShown new.port fragment }
    ensures one { (port : PortState) (fragment other : List ℕ) → HasHistory port → IsShown port fragment → IsShown port other → fragment ≡ other }
{
    segments::history_does_not_matter();
}

/// The octets in which frames are written to a stream give its peer these frames, and nothing waits.
pub fn what_is_written_is_read()
    ensures { (frames : List FrameValue) (octets : List ℕ) → AreSpelled frames octets → Gives octets frames [] }
{
    frames::joined_spellings_give_their_frames();
}

/// The steps of an outstation come out in one way, where what its outputs show does.
pub fn an_outstation_comes_out_in_one_way<O: Outputs>()
    ensures opens { OpensOneWay outstation_opens }
    ensures receives { ShowOneWay O.panel O.performs → ReceivesOneWay (outstation_receives O.panel O.performs) }
{}

/// What outputs in memory show after commands comes out in one way, whether they keep the commands or their states alone. So
/// does what no outputs show.
pub fn plain_outputs_show_one_way()
    ensures plain { ShowOneWay ⟦<PlainOutputs as Outputs>⟧.panel ⟦<PlainOutputs as Outputs>⟧.performs }
    ensures latest { ShowOneWay ⟦<LatestOutputs as Outputs>⟧.panel ⟦<LatestOutputs as Outputs>⟧.performs }
    ensures none { ShowOneWay ⟦<NoOutputs as Outputs>⟧.panel ⟦<NoOutputs as Outputs>⟧.performs }
{}

/// The steps of a concentrator's outstation towards a centre come out in one way.
pub fn an_outstation_above_comes_out_in_one_way()
    ensures opens { OpensOneWay above_opens }
    ensures receives { ReceivesOneWay above_receives }
{}

/// The steps of a centre come out in one way.
pub fn a_centre_comes_out_in_one_way()
    ensures opens { OpensOneWay centre_opens }
    ensures receives { ReceivesOneWay centre_receives }
{}

/// The steps of a concentrator's link to a substation come out in one way.
pub fn a_link_below_comes_out_in_one_way()
    ensures opens { OpensOneWay below_opens }
    ensures receives { ReceivesOneWay below_receives }
{}

/// The named limits are these numbers: addresses above are kept for other uses (IEEE Std 1815-2012, data link layer:
/// reserved addresses), and those of a text are the library's own measures.
pub fn limits_have_their_values()
    ensures address { address.MAX_ADDRESS ≡ 65519 }
    ensures characters { octets.MAX_CHARACTERS ≡ 2000 }
    ensures input { input.MAX_INPUT ≡ 2002 }
{}
