//! Control codes in words.

ghost use Rattle.std.specs.Prelude.{◌≡◌};
ghost use Rattle.dnp_orders.specs.Codes as spec;

use dnp_controls::Operation;
use std::fmt;
use std::fmt::{Display, Formatter, Write};

/// The name of what a control code orders (IEEE Std 1815-2012, object library: group 12 variation 1).
fn operation_name(code: u8) -> &'static str
    ensures { result.now ≡ spec.operation_name code }
{
    match Operation::of(code) {
        Operation::Nul => "NUL",
        Operation::PulseOn => "PULSE_ON",
        Operation::PulseOff => "PULSE_OFF",
        Operation::LatchOn => "LATCH_ON",
        Operation::LatchOff => "LATCH_OFF",
        Operation::Other => "reserved operation",
    }
}

/// The name of the relay of a pair that bits 7 and 6 of a control code say, or nothing where they say none.
fn relay_name(code: u8) -> &'static str
    ensures { result.now ≡ spec.relay_name code }
{
    match code / 64 {
        0 => "",
        1 => "CLOSE",
        2 => "TRIP",
        _ => "reserved relay",
    }
}

/// The name of bit 4 of a control code, or nothing where it is 0.
fn queue_name(code: u8) -> &'static str
    ensures { result.now ≡ spec.queue_name code }
{
    if code / 16 % 2 == 1 { "queue" } else { "" }
}

/// The name of bit 5 of a control code, or nothing where it is 0.
fn clear_name(code: u8) -> &'static str
    ensures { result.now ≡ spec.clear_name code }
{
    if code / 32 % 2 == 1 { "clear" } else { "" }
}

/// A control code in words, as `PULSE_ON, CLOSE, queue`.
#[derive(Clone, Copy)]
pub struct CodeNames(pub u8);

impl Display for CodeNames {
    fn fmt<W: Write>(&self, f: &mut Formatter<W>) -> fmt::Result {
        f.write_str(operation_name(self.0))?;
        for name in [relay_name(self.0), queue_name(self.0), clear_name(self.0)] {
            if !name.is_empty() {
                f.write_str(", ")?;
                f.write_str(name)?;
            }
        }
        Ok(())
    }
}
