//! Laws of the words of `specs/`: each function does nothing, and its contract is a law.
ghost use Rattle.std.specs.Prelude.{◌≡◌, ◌^◌, ℕ, List, [], ◌∷◌, length};
ghost use Rattle.dnp_transport.specs.Assembly.{Assembly, Idle, ArePushed, Answers, Shows};
ghost use Rattle.dnp_transport.specs.Cuts.{cut_count, cuts, begun_cuts};
ghost use Rattle.dnp_transport.specs.Laws.{CutsGiveWhole, OneFragment, WholeOrDropped, SaysItsPlace, OpenBy, WholeBy};
ghost use Rattle.dnp_transport.specs.Series.{joined, IsOpen, IsWhole};
ghost use Rattle.dnp_transport.specs.declared.assembler.Pushed.{Pushed as PushedValue};
ghost use Rattle.dnp_transport.specs.declared.header.TheConstants as header;
ghost use Rattle.dnp_transport.specs.declared.limits.TheConstants as limits;

/// Whatever was pushed before: where the segments of a fragment are pushed in order, the last push
/// completes that fragment, and each earlier one gives nothing.
pub fn cuts_give_whole()
    ensures { CutsGiveWhole }
{}

/// The pushes determine the fragment that the last of them completes.
pub fn one_fragment()
    ensures { OneFragment }
{}

/// No push both completes a fragment and drops a series.
pub fn whole_or_dropped()
    ensures { WholeOrDropped }
{}

/// What the segments of a fragment are: how many, what each one's header says and which octets it carries, and that
/// they join to the fragment.
pub fn segments_say_their_places()
    ensures places { (fragment : List ℕ) (first k : ℕ) → SaysItsPlace fragment first k }
    ensures count { (fragment : List ℕ) (first : ℕ) → length (cuts fragment first) ≡ cut_count (length fragment) }
    ensures joined { (fragment : List ℕ) (first : ℕ) → joined (begun_cuts fragment first (cut_count (length fragment))) ≡ fragment }
{}

/// What a push does to the series that was open before it. Before the first push none is, and the assembler is idle.
pub fn a_push_goes_on()
    ensures opens { (before series : List (List ℕ)) (segment : List ℕ) → IsOpen (segment ∷ before) series → OpenBy before segment series }
    ensures completes { (before : List (List ℕ)) (segment fragment : List ℕ) → IsWhole (segment ∷ before) fragment → WholeBy before segment fragment }
    ensures none_open { (series : List (List ℕ)) → IsOpen [] series → ⊥ }
    ensures idle { ArePushed [] Idle }
{}

/// Some pushes make one assembler. Which of the lists of pushes that make the same assembler was pushed does not
/// matter: the next push does the same after each, and the fragment that is shown is the same.
pub fn history_does_not_matter()
    ensures one { (pushed : List (List ℕ)) (a b : Assembly) → ArePushed pushed a → ArePushed pushed b → a ≡ b }
    ensures answers { (a : Assembly) (before other : List (List ℕ)) (segment : List ℕ) (answer answer' : PushedValue) →
        ArePushed before a → ArePushed other a → Answers (segment ∷ before) answer → Answers (segment ∷ other) answer' → answer ≡ answer' }
    ensures next { (a : Assembly) (before other : List (List ℕ)) (segment : List ℕ) (new new' : Assembly) →
        ArePushed before a → ArePushed other a → ArePushed (segment ∷ before) new → ArePushed (segment ∷ other) new' → new ≡ new' }
    ensures shown { (a : Assembly) (pushed other : List (List ℕ)) (octets octets' : List ℕ) →
        ArePushed pushed a → ArePushed other a → Shows pushed octets → Shows other octets' → octets ≡ octets' }
{}

/// The named limits are these numbers (IEEE Std 1815-2012, transport function: a segment is the user data of one frame,
/// its first octet the header; the numbers of segments have six bits).
pub fn limits_have_their_values()
    ensures fragment { limits.MAX_FRAGMENT ≡ 2048 }
    ensures segment { limits.MAX_SEGMENT ≡ 250 }
    ensures data { limits.SEGMENT_DATA ≡ 249 }
    ensures numbers { limits.SEGMENT_NUMBERS ≡ 64 }
{}

/// The named bits of a segment's header are these (IEEE Std 1815-2012, transport function: transport header).
pub fn headers_have_their_bits()
    ensures fin { header.FINAL ≡ 2 ^ 7 }
    ensures fir { header.FIRST ≡ 2 ^ 6 }
{}
