//! The internal indications of responses.
ghost use Rattle.std.specs.Prelude.{◌≡◌, ◌↔◌, IsTrue};

/// The internal indications of a response (IEEE Std 1815-2012, application layer): two octets, of
/// which each bit says one thing of the station. The constants have one bit each.
#[derive(Clone, Copy, Debug, PartialEq, Eq, Hash)]
pub struct Iin {
    /// The first octet, IIN1.
    pub one: u8,
    /// The second octet, IIN2.
    pub two: u8,
}

impl Iin {
    ghost use Rattle.dnp_appfragment.specs.Indications.{both, except, HasAll};

    /// Nothing is indicated.
    pub const NONE: Iin = Iin { one: 0, two: 0 };
    /// A request to all stations came.
    pub const BROADCAST: Iin = Iin { one: 0x01, two: 0 };
    /// Events of class 1 wait.
    pub const CLASS_1_EVENTS: Iin = Iin { one: 0x02, two: 0 };
    /// Events of class 2 wait.
    pub const CLASS_2_EVENTS: Iin = Iin { one: 0x04, two: 0 };
    /// Events of class 3 wait.
    pub const CLASS_3_EVENTS: Iin = Iin { one: 0x08, two: 0 };
    /// The station's clock needs to be set.
    pub const NEED_TIME: Iin = Iin { one: 0x10, two: 0 };
    /// An output is switched to local control.
    pub const LOCAL_CONTROL: Iin = Iin { one: 0x20, two: 0 };
    /// The device is in trouble.
    pub const DEVICE_TROUBLE: Iin = Iin { one: 0x40, two: 0 };
    /// The device has started again.
    pub const DEVICE_RESTART: Iin = Iin { one: 0x80, two: 0 };
    /// The station has no such function.
    pub const NO_FUNC_CODE_SUPPORT: Iin = Iin { one: 0, two: 0x01 };
    /// The station has no such object.
    pub const OBJECT_UNKNOWN: Iin = Iin { one: 0, two: 0x02 };
    /// A qualifier or a range is not the object's.
    pub const PARAMETER_ERROR: Iin = Iin { one: 0, two: 0x04 };
    /// Events were lost since there was no room.
    pub const EVENT_BUFFER_OVERFLOW: Iin = Iin { one: 0, two: 0x08 };
    /// The operation is already in progress.
    pub const ALREADY_EXECUTING: Iin = Iin { one: 0, two: 0x10 };
    /// The configuration is corrupt.
    pub const CONFIG_CORRUPT: Iin = Iin { one: 0, two: 0x20 };

    /// Whether all of these are indicated.
    pub fn has(self, indications: Iin) -> bool
        ensures { IsTrue result ↔ HasAll self indications }
    {
        self.one & indications.one == indications.one
            && self.two & indications.two == indications.two
    }

    /// These indications and those.
    pub fn with(self, indications: Iin) -> Iin
        ensures { result ≡ both self indications }
    {
        Iin {
            one: self.one | indications.one,
            two: self.two | indications.two,
        }
    }

    /// These indications without those.
    pub fn without(self, indications: Iin) -> Iin
        ensures { result ≡ except self indications }
    {
        Iin {
            one: self.one - (self.one & indications.one),
            two: self.two - (self.two & indications.two),
        }
    }
}
