//! A thing for each centre.

ghost use Rattle.std.specs.Prelude.{◌≡◌, ◌<◌};
ghost use Rattle.std.specs.Borrow.{Lends, sem};
ghost use Rattle.dnp_concentrator.specs.contracts.per_centre.PerCentre.{the_row};
ghost use Rattle.dnp_concentrator.specs.PerCentre.{at, with_at};

use dnp_eventbuf::CENTRES;

/// A thing for each centre.
pub struct PerCentre<Thing> {
    /// The first centre's.
    pub first: Thing,
    /// The second centre's.
    pub second: Thing,
}

impl<Thing: Drop> Drop for PerCentre<Thing> {
    /// One call for whoever lets it go: its parts are looked at here alone.
    fn drop(self) {
        let PerCentre {
            first: _,
            second: _,
        } = self;
    }
}

impl<Thing> PerCentre<Thing> {
    /// The one for this centre.
    pub fn at(&self, centre: u8) -> &Thing
        requires { centre < CENTRES }
        ensures { result.now ≡ at centre self.now }
    {
        if centre == 0 {
            &self.first
        } else {
            &self.second
        }
    }

    /// The one for this centre, for writing.
    pub fn at_mut(&mut self, centre: u8) -> &mut Thing
        requires { centre < CENTRES }
        ensures* writes_back { sem 𝓛 (Lends (the_row Thing.row) Thing.row self.entry result (with_at centre self.old)) }
        ensures value { result.now ≡ at centre self.old }
    {
        if centre == 0 {
            &mut self.first
        } else {
            &mut self.second
        }
    }

    /// Both.
    pub fn into_both(self) -> (Thing, Thing)
        ensures first { result.0 ≡ self.first }
        ensures second { result.1 ≡ self.second }
    {
        let PerCentre { first, second } = self;
        (first, second)
    }
}
