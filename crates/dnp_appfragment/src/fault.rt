//! Why octets are no fragment.
ghost use Rattle.std.specs.Prelude.{◌≡◌};
ghost use Rattle.dnp_appfragment.specs.Faults.{fault_number};

/// Why octets are no fragment (IEEE Std 1815-2012, application layer). Of several causes it is the
/// first one from left to right: `Short`, `FunctionUnknown`, and then header by header
/// `HeaderCut` for fewer than three octets, `ObjectUnknown`, `QualifierUnknown`, `HeaderCut` for a
/// range that is cut, `RangeBackward`, `ObjectsCut`, `CommonTime`.
#[derive(Clone, Copy, Debug, PartialEq, Eq, Hash)]
pub enum AppFault {
    /// A request of fewer than 2 octets, or a response of fewer than 4.
    Short = 1,
    /// No function of such a fragment has this octet.
    FunctionUnknown = 2,
    /// The octets end within a header.
    HeaderCut = 3,
    /// The object takes other qualifiers under this function.
    QualifierUnknown = 4,
    /// The object is none that stands under this function.
    ObjectUnknown = 5,
    /// The range's stop is under its start.
    RangeBackward = 6,
    /// The octets end before the last of the objects that the range names.
    ObjectsCut = 7,
    /// The objects' times are given after a common time, and there is none before them, or a time is
    /// 2^48 ms or more.
    CommonTime = 8,
}

impl AppFault {
    /// Its number, 1 to 8.
    pub fn number(self) -> u8
        ensures { result ≡ fault_number self }
    {
        self as u8
    }
}
