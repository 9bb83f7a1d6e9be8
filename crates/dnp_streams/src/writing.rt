//! Text on its way out, and what was written where a writer fails before its end.

ghost use Rattle.std.specs.Prelude.{◌≡◌, ℕ, List, ◌++◌, OnOk, OnErr};
ghost use Rattle.std.specs.Io.KnownBytes.{Appends};

use std::io::Write;

/// The writer failed, or took nothing of what is left.
#[derive(Clone, Copy, Debug, PartialEq, Eq)]
pub struct NotWritten;

/// Writes the whole text, by as many calls of `write` as the writer wants. A fault says that a call
/// failed or took no octet; what was written by then is a beginning of the text.
pub fn write_out<W: Write>(text: &[u8], out: &mut W) -> Result<(), NotWritten>
    ensures whole { OnOk result (Appends (W.contents out.old) (W.contents out.new) text.now) }
    ensures part { OnErr result ((part rest : List ℕ) × (text.now ≡ part ++ rest)
        × Appends (W.contents out.old) (W.contents out.new) part) }
{
    let mut rest = text;
    while !rest.is_empty() {
        match out.write(rest) {
            Ok(0) | Err(_) => return Err(NotWritten),
            Ok(n) => rest = &rest[n..],
        }
    }
    Ok(())
}
