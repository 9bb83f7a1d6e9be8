//! Which of the two centres a line of a script is of.

ghost use Rattle.std.specs.Prelude.{◌≡◌, ◌<◌};
ghost use Rattle.dnp_daemons.specs.Centres.{number_of};
ghost use Rattle.dnp_eventbuf.specs.declared.pair.TheConstants.{CENTRES as COUNT};

/// Which of the two centres.
#[derive(Clone, Copy, Debug, PartialEq, Eq)]
pub enum WhichCentre {
    /// The first, whose words have no number.
    First,
    /// The second, whose words end in a 2.
    Second,
}

impl WhichCentre {
    /// The centre's number.
    pub fn number(self) -> u8
        ensures number { result ≡ number_of self }
        ensures there { result < COUNT }
    {
        match self {
            WhichCentre::First => 0,
            WhichCentre::Second => 1,
        }
    }
}
