//! The standard's names of the bits that are set in indications and in flags, for those who read them.

ghost use Rattle.std.specs.Prelude.{◌≡◌};
ghost use Rattle.dnp_decode.specs.Bits as spec;

use dnp_appfragment::Iin;
use std::fmt;
use std::fmt::{Display, Formatter, Write};

/// The bits of an octet, the lowest first.
const BITS: [u8; 8] = [0x01, 0x02, 0x04, 0x08, 0x10, 0x20, 0x40, 0x80];

/// The standard's name of an indication (IEEE Std 1815-2012, application layer: internal indications).
pub fn indication_name(indication: Iin) -> &'static str {
    match (indication.one, indication.two) {
        (0x01, 0) => "BROADCAST",
        (0x02, 0) => "CLASS_1_EVENTS",
        (0x04, 0) => "CLASS_2_EVENTS",
        (0x08, 0) => "CLASS_3_EVENTS",
        (0x10, 0) => "NEED_TIME",
        (0x20, 0) => "LOCAL_CONTROL",
        (0x40, 0) => "DEVICE_TROUBLE",
        (0x80, 0) => "DEVICE_RESTART",
        (0, 0x01) => "NO_FUNC_CODE_SUPPORT",
        (0, 0x02) => "OBJECT_UNKNOWN",
        (0, 0x04) => "PARAMETER_ERROR",
        (0, 0x08) => "EVENT_BUFFER_OVERFLOW",
        (0, 0x10) => "ALREADY_EXECUTING",
        (0, 0x20) => "CONFIG_CORRUPT",
        _ => "reserved",
    }
}

/// The names of the indications that are set, a blank before each.
#[derive(Clone, Copy)]
pub struct IinNames(pub Iin);

impl Display for IinNames {
    fn fmt<W: Write>(&self, f: &mut Formatter<W>) -> fmt::Result {
        let Iin { one, two } = self.0;
        for bit in BITS {
            if one & bit != 0 {
                let name = indication_name(Iin { one: bit, two: 0 });
                write!(f, " {name}")?;
            }
        }
        for bit in BITS {
            if two & bit != 0 {
                let name = indication_name(Iin { one: 0, two: bit });
                write!(f, " {name}")?;
            }
        }
        Ok(())
    }
}

/// What flags are of, by which their bits 5 to 7 are named.
#[derive(Clone, Copy, Debug, PartialEq, Eq)]
pub enum FlagsOf {
    /// A binary input.
    Binary,
    /// A counter.
    Counter,
    /// An analog input, or a setpoint.
    Analog,
    /// A binary output.
    Output,
}

/// The standard's name of a bit of flags, by the octet in which it alone is set (IEEE Std 1815-2012, object library: flags).
pub fn flag_name(of: FlagsOf, bit: u8) -> &'static str
    ensures { result.now ≡ spec.flag_name of bit }
{
    match (of, bit) {
        (_, 0x01) => "ONLINE",
        (_, 0x02) => "RESTART",
        (_, 0x04) => "COMM_LOST",
        (_, 0x08) => "REMOTE_FORCED",
        (_, 0x10) => "LOCAL_FORCED",
        (FlagsOf::Binary, 0x20) => "CHATTER_FILTER",
        (FlagsOf::Counter, 0x20) => "ROLLOVER",
        (FlagsOf::Analog, 0x20) => "OVER_RANGE",
        (FlagsOf::Counter, 0x40) => "DISCONTINUITY",
        (FlagsOf::Analog, 0x40) => "REFERENCE_ERR",
        (FlagsOf::Binary | FlagsOf::Output, 0x80) => "STATE",
        _ => "reserved",
    }
}

/// The names of the flags that are set, a blank before each.
#[derive(Clone, Copy)]
pub struct FlagNames {
    /// What they are of.
    pub of: FlagsOf,
    /// Their octet.
    pub flags: u8,
}

impl Display for FlagNames {
    fn fmt<W: Write>(&self, f: &mut Formatter<W>) -> fmt::Result {
        for bit in BITS {
            if self.flags & bit != 0 {
                let name = flag_name(self.of, bit);
                write!(f, " {name}")?;
            }
        }
        Ok(())
    }
}
