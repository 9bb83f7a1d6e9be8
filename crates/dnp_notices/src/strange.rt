//! What comes on a connection beside what is awaited there: frames of other stations, or no frame at all. Where a link address is wrong,
//! that is all that there is to be seen.

ghost use Rattle.std.specs.Prelude.{◌≡◌, true};
ghost use Rattle.dnp_notices.specs.Strange as spec;

/// The link addresses of a frame.
#[derive(Clone, Copy, Debug, PartialEq, Eq)]
pub struct Ends {
    /// That of the station that sent it.
    pub source: u16,
    /// That of the station that it is for.
    pub dest: u16,
}

/// What came beside what was awaited.
#[derive(Clone, Copy, Debug, PartialEq, Eq)]
pub enum Strange {
    /// A frame of another station, or for another one.
    Frame(Ends),
    /// Octets, and no frame.
    Noise,
}

/// What came on a connection so far.
#[derive(Clone, Copy, Debug, PartialEq, Eq)]
pub struct Heard {
    /// Whether octets came.
    pub octets: bool,
    /// Whether a frame came whole.
    pub frame: bool,
    /// The link addresses of the last frame that was of another station, or for another one.
    pub other: Option<Ends>,
}

impl Heard {
    /// Nothing came.
    pub const NOTHING: Heard = Heard {
        octets: false,
        frame: false,
        other: None,
    };

    /// The same, and then octets came.
    pub fn with_octets(self) -> Heard
        ensures { result ≡ record self { octets = true } }
    {
        Heard {
            octets: true,
            ..self
        }
    }

    /// The same, and then a frame came whole, where those that are awaited have these link addresses.
    pub fn with_frame(self, came: Ends, awaited: Ends) -> Heard
        ensures { result ≡ spec.with_frame self came awaited }
    {
        let other = if came.source == awaited.source && came.dest == awaited.dest {
            self.other
        } else {
            Some(came)
        };
        Heard {
            octets: self.octets,
            frame: true,
            other,
        }
    }

    /// What came beside what was awaited.
    pub fn strange(self) -> Option<Strange>
        ensures { result ≡ spec.strange self }
    {
        match self.other {
            Some(ends) => Some(Strange::Frame(ends)),
            None if self.octets && !self.frame => Some(Strange::Noise),
            None => None,
        }
    }
}

/// Whether two frames have the same link addresses, or neither is one.
pub(crate) fn is_same(one: Strange, other: Strange) -> bool
    ensures { result ≡ spec.is_same one other }
{
    match (one, other) {
        (Strange::Frame(one), Strange::Frame(other)) => {
            one.source == other.source && one.dest == other.dest
        }
        (Strange::Noise, Strange::Noise) => true,
        _ => false,
    }
}

/// What is said of what came beside what was awaited, where this came on the connection before: nothing where it is the same.
pub fn news_of(before: Option<Strange>, now: Option<Strange>) -> Option<Strange>
    ensures { result ≡ spec.news before now }
{
    match (before, now) {
        (Some(before), Some(now)) if is_same(before, now) => None,
        _ => now,
    }
}
