//! Sequence numbers.

ghost use Rattle.std.specs.Prelude.{◌≡◌, ◌+◌, ◌%◌, ◌<◌};

use dnp_appfragment::Control;
use std::marker::Model;

/// The sequence number of a fragment, 0 to 15 (IEEE Std 1815-2012, application layer: application
/// control, SEQ).
#[derive(Clone, Copy)]
pub struct SequenceNumber(u8);

impl Model for SequenceNumber {
    ghost use Rattle.std.specs.Prelude.{ℕ, ◌<◌};

    ghost Value = { ℕ };

    ghost view = { λ sequence. sequence.0 };

    ghost invariant = { λ sequence. sequence.0 < 16 };

    ghost inverse = { λ number. record { 0 = number } };
}

impl SequenceNumber {
    /// The one with which a series begins.
    pub const ZERO: SequenceNumber = SequenceNumber(0);

    /// That of a control octet.
    pub fn of(control: Control) -> SequenceNumber
        ensures { result ≡ control.seq }
    {
        SequenceNumber(control.seq)
    }

    /// As a number.
    pub fn number(self) -> u8
        ensures value { result ≡ self }
        ensures small { result < 16 }
    {
        self.0
    }

    /// The one after it: after 15 comes 0.
    pub fn next(self) -> SequenceNumber
        ensures { result ≡ (self + 1) % 16 }
    {
        SequenceNumber((self.0 + 1) % 16)
    }
}
