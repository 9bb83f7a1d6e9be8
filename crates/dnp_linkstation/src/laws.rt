//! Laws of the words of `specs/`: each function does nothing, and its contract is a law.
ghost use Rattle.std.specs.Prelude.{◌≡◌, ℕ, List, ◌∷◌, Bool, true, false, not, if◌then◌else◌, Some};
ghost use Rattle.dnp_linkframe.specs.declared.frame.Frame.{Frame as FrameValue};
ghost use Rattle.dnp_linkstation.specs.Control.{primary_function, frame_count_bit};
ghost use Rattle.dnp_linkstation.specs.Station.{Ends, ends, opposite, is_for, counts, expected, is_same, sent, answer, AreHeard};
ghost use Rattle.dnp_linkstation.specs.declared.station.LinkStation.{LinkStation as StationValue};
ghost use Rattle.dnp_linkstation.specs.declared.function.PrimaryFunction.TheVariants.{ConfirmedUserData, UnconfirmedUserData};
ghost use Rattle.dnp_linkstation.specs.declared.control.TheConstants as control;
ghost use Rattle.dnp_linkstation.specs.declared.function.TheConstants as number;

/// A frame of CONFIRMED_USER_DATA that comes twice in a row does not go up the second time, whatever came
/// before.
pub fn a_repeated_frame_goes_up_once()
    ensures { (e : Ends) (before : List FrameValue) (frame : FrameValue) → primary_function frame.control ≡ ConfirmedUserData → (answer e (frame ∷ before) frame).up ≡ false }
{}

/// Once the link states were reset, a frame that counts and has the expected FCB toggles the expectation,
/// and one with the other FCB leaves it.
pub fn the_expected_bit_toggles_the_expectation()
    ensures { (e : Ends) (before : List FrameValue) (frame : FrameValue) (awaited : Bool) → is_for e frame ≡ true → counts (primary_function frame.control) ≡ true → expected e before ≡ Some awaited → expected e (frame ∷ before) ≡ Some (if is_same (frame_count_bit frame.control) awaited then not awaited else awaited) }
{}

/// The frame in which a station sends user data is for its peer, and is one of UNCONFIRMED_USER_DATA.
pub fn what_is_sent_is_for_the_peer()
    ensures { (e : Ends) (user : List ℕ) → (is_for (opposite e) (sent e user) ≡ true) × (primary_function (sent e user).control ≡ UnconfirmedUserData) }
{}

/// Some frames, heard one after the other, make a station what it is, whatever it is: each station has a history.
pub fn each_station_has_a_history()
    ensures { (station : StationValue) → (heard : List FrameValue) × AreHeard heard station }
{}

/// Some frames make one station at the ends of a link. Which of the lists of frames that make the same station was
/// heard does not matter: the answer to the next frame, and the station after it, are the same after each.
pub fn history_does_not_matter()
    ensures one { (heard : List FrameValue) (a b : StationValue) → ends a ≡ ends b → AreHeard heard a → AreHeard heard b → a ≡ b }
    ensures answers { (station : StationValue) (before other : List FrameValue) (frame : FrameValue) →
        AreHeard before station → AreHeard other station → answer (ends station) before frame ≡ answer (ends station) other frame }
    ensures next { (station new new' : StationValue) (before other : List FrameValue) (frame : FrameValue) →
        AreHeard before station → AreHeard other station → ends new ≡ ends station → ends new' ≡ ends station →
        AreHeard (frame ∷ before) new → AreHeard (frame ∷ other) new' → new ≡ new' }
{}

/// The named bits of CONTROL are these, and a function is in the low four (IEEE Std 1815-2012, data link layer: control
/// field).
pub fn control_has_its_bits()
    ensures dir { control.DIR ≡ 7 }
    ensures prm { control.PRM ≡ 6 }
    ensures fcb { control.FCB ≡ 5 }
    ensures functions { control.FUNCTIONS ≡ 16 }
{}

/// The named functions have these numbers (IEEE Std 1815-2012, data link layer: function codes).
pub fn functions_have_their_numbers()
    ensures reset_link_states { number.RESET_LINK_STATES ≡ 0 }
    ensures test_link_states { number.TEST_LINK_STATES ≡ 2 }
    ensures confirmed_user_data { number.CONFIRMED_USER_DATA ≡ 3 }
    ensures unconfirmed_user_data { number.UNCONFIRMED_USER_DATA ≡ 4 }
    ensures request_link_status { number.REQUEST_LINK_STATUS ≡ 9 }
    ensures ack { number.ACK ≡ 0 }
    ensures nack { number.NACK ≡ 1 }
    ensures link_status { number.LINK_STATUS ≡ 11 }
    ensures not_supported { number.NOT_SUPPORTED ≡ 15 }
{}
