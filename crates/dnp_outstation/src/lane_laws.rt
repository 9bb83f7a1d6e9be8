//! Laws of the ids that go with a fragment, one for each lane, and of the points, which a connection leaves alone. Each
//! function does nothing, and its contract is a law.
ghost use Rattle.std.specs.Prelude.{◌≡◌, ℕ, List, [], length, Some};
ghost use Rattle.dnp_appfragment.specs.Headers.{Head};
ghost use Rattle.dnp_controls.specs.Panel.{Panel};
ghost use Rattle.dnp_objects.specs.declared.limits.TheConstants.{LANES};
ghost use Rattle.dnp_outstation.specs.declared.offer.place.ReadPlace.{ReadPlace};
ghost use Rattle.dnp_outstation.specs.Calls.{connection_after, opened_of, tick_of};
ghost use Rattle.dnp_outstation.specs.Connection.{at_end};
ghost use Rattle.dnp_outstation.specs.Content.{Content, content_of, read_content};
ghost use Rattle.dnp_outstation.specs.Controls.{content_at};
ghost use Rattle.dnp_outstation.specs.Links.{KeepsPoints};
ghost use Rattle.dnp_outstation.specs.State.{State, Step};

/// Each fragment of an answer has an id for each lane: the first one, at once or to a READ that was held, and a
/// further one.
pub fn fragments_have_an_id_for_each_lane()
    ensures answer { (s : State) (o : Panel) (now : ℕ) (octets : List ℕ) (content : Content)
        → (content_at s o now octets).content ≡ Some content → length content.upto ≡ LANES }
    ensures held { (s : State) (o : Panel) (octets : List ℕ) (content : Content)
        → (content_of s o octets).content ≡ Some content → length content.upto ≡ LANES }
    ensures further { (s : State) (o : Panel) (stood : ℕ) (place : ReadPlace) (headers : List Head)
        → length (read_content s o stood place headers).upto ≡ LANES }
{}

/// What a connection brings leaves the points and the times as they are: an opening, a fragment that comes, and time;
/// and the end of each call leaves the points.
pub fn a_connection_leaves_the_points_alone()
    ensures opened { (s : State) (now : ℕ) → KeepsPoints s.core (opened_of s now).state.core }
    ensures received { (s : State) (o : Panel) (now : ℕ) (octets : List ℕ)
        → KeepsPoints s.core (connection_after s o now octets).state.core }
    ensures ticked { (s : State) (now : ℕ) → KeepsPoints s.core (tick_of s now).state.core }
    ensures ended { (now : ℕ) (step : Step) → (at_end now step).state.core.points ≡ step.state.core.points }
{}

/// What a connection brings drops no row of the lanes: an opening, a fragment that comes, and time.
pub fn a_connection_drops_no_row()
    ensures opened { (s : State) (now : ℕ) → (opened_of s now).does.overwritten ≡ [] }
    ensures received { (s : State) (o : Panel) (now : ℕ) (octets : List ℕ) → (connection_after s o now octets).does.overwritten ≡ [] }
    ensures ticked { (s : State) (now : ℕ) → (tick_of s now).does.overwritten ≡ [] }
{}
