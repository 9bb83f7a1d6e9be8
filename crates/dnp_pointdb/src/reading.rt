//! What a point reads, and what was last reported of it.

ghost use Rattle.std.specs.Prelude.{◌≡◌};
ghost use Rattle.dnp_pointdb.specs.Ranges as range;
ghost use Rattle.dnp_pointdb.specs.Events as event;

use dnp_objects::{Kind, MAX_TIME, flags};

/// What a point reads at a moment (IEEE Std 1815-2012, object library).
#[derive(Clone, Copy, Debug, PartialEq, Eq, Hash)]
pub struct Reading {
    /// A binary's value is 0 or 1, a counter's 0 to 2^32 - 1, an analog's -2^31 to 2^31 - 1.
    pub value: i64,
    /// The flags octet. A binary's lacks bit 7.
    pub flags: u8,
    /// Milliseconds since 1970-01-01 00:00 UTC, below `MAX_TIME`, or `None`.
    pub time: Option<u64>,
}

/// What of a point's last event the next one is measured against.
#[derive(Clone, Copy, Debug, PartialEq, Eq, Hash)]
pub struct LastReport {
    /// In the range of a reading's value.
    pub value: i64,
    /// The flags octet, as a reading's.
    pub flags: u8,
}

impl Reading {
    ghost use Rattle.dnp_pointdb.specs.Ranges as range;
    ghost use Rattle.dnp_pointdb.specs.Events as event;

    /// That of a point which was never read: value 0, flags 02 (RESTART), no time.
    pub(crate) fn first() -> Reading
        ensures { result ≡ event.first_reading }
    {
        Reading {
            value: 0,
            flags: flags::RESTART,
            time: None,
        }
    }

    /// Whether an object of the kind can carry the value and the flags.
    pub(crate) fn is_carried(self, kind: Kind) -> bool
        ensures { result ≡ range.is_carried kind self }
    {
        match kind {
            Kind::Binary => (self.value == 0 || self.value == 1) && self.flags < 128,
            Kind::Counter => 0 <= self.value && self.value < 0x1_0000_0000,
            Kind::Analog => -0x8000_0000 <= self.value && self.value < 0x8000_0000,
        }
    }

    /// Whether the time is below `MAX_TIME`, or absent.
    pub(crate) fn is_in_time(self) -> bool
        ensures { result ≡ range.is_in_time self.time }
    {
        match self.time {
            None => true,
            Some(time) => time < MAX_TIME,
        }
    }
}

impl LastReport {
    ghost use Rattle.dnp_pointdb.specs.Events as event;

    /// That of a point which was never read.
    pub(crate) fn first() -> LastReport
        ensures { result ≡ event.first_report }
    {
        LastReport::of(Reading::first())
    }

    /// That of a point whose reading was just reported.
    pub(crate) fn of(reading: Reading) -> LastReport
        ensures { result ≡ event.last_report_of reading }
    {
        LastReport {
            value: reading.value,
            flags: reading.flags,
        }
    }
}
