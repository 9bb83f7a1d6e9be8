//! Laws of the words of `specs/`: each function does nothing, and its contract is a law.
ghost use Rattle.std.specs.Prelude.{◌≡◌, ℕ, List, [], ◌++◌};
ghost use Rattle.std.specs.List.{concat};
ghost use Rattle.dnp_linkframe.specs.Frames.{Spells, IsFault, IsFirstFault, frame_size};
ghost use Rattle.dnp_linkframe.specs.Stream.{Gives, SpellEach};
ghost use Rattle.dnp_linkframe.specs.declared.frame.Frame.{Frame as FrameValue};
ghost use Rattle.dnp_linkframe.specs.declared.frame.FrameFault.{FrameFault as FaultValue};
ghost use Rattle.dnp_linkframe.specs.declared.frame.TheConstants as limits;

/// No spelling of a frame is a proper beginning of another: a reader that has a whole frame need not
/// wait for more octets.
pub fn no_spelling_begins_another()
    ensures { (unit more : List ℕ) (frame other : FrameValue) → Spells unit frame → Spells (unit ++ more) other → more ≡ [] }
{}

/// A frame has one spelling.
pub fn a_frame_has_one_spelling()
    ensures { (unit other : List ℕ) (frame : FrameValue) → Spells unit frame → Spells other frame → unit ≡ other }
{}

/// A unit of octets spells one frame at most.
pub fn a_unit_spells_one_frame()
    ensures { (unit : List ℕ) (frame other : FrameValue) → Spells unit frame → Spells unit other → frame ≡ other }
{}

/// A unit that spells a frame has no fault.
pub fn a_spelling_has_no_fault()
    ensures { (unit : List ℕ) (frame : FrameValue) → Spells unit frame → (fault : FaultValue) → IsFault unit fault → ⊥ }
{}

/// A unit has one first fault at most.
pub fn a_unit_has_one_first_fault()
    ensures { (unit : List ℕ) (fault other : FaultValue) → IsFirstFault unit fault → IsFirstFault unit other → fault ≡ other }
{}

/// Any pieces give what the joined octets give: where a stream gave frames and some octets wait, and
/// these with a piece after them give further frames, the stream with the piece after it gives all of
/// them, and the same octets wait.
pub fn any_pieces_give_the_same()
    ensures { (stream held piece rest : List ℕ) (before frames : List FrameValue) → Gives stream before held → Gives (held ++ piece) frames rest → Gives (stream ++ piece) (before ++ frames) rest }
{}

/// A stream gives one list of frames, and one rest waits.
pub fn a_stream_gives_one_answer()
    ensures { (stream rest other : List ℕ) (frames others : List FrameValue) → Gives stream frames rest → Gives stream others other → (frames ≡ others) × (rest ≡ other) }
{}

/// Joined spellings give their frames, and nothing waits.
pub fn joined_spellings_give_their_frames()
    ensures { (units : List (List ℕ)) (frames : List FrameValue) → SpellEach units frames → Gives (concat units) frames [] }
{}

/// The named limits are these numbers (IEEE Std 1815-2012, data link layer: LENGTH is at most 255, and counts 5 octets
/// beside the user data), and a frame with the most user data has as many octets as a unit has at most.
pub fn limits_have_their_values()
    ensures user_data { limits.MAX_USER_DATA ≡ 250 }
    ensures unit { limits.MAX_UNIT ≡ 292 }
    ensures longest { frame_size limits.MAX_USER_DATA ≡ limits.MAX_UNIT }
{}
