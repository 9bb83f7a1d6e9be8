//! What a script prints of its rounds and controls.

ghost use Rattle.std.specs.Prelude.{◌≡◌, ℕ, List, ◌++◌, OnOk, OnErr, map};
ghost use Rattle.std.specs.List.{concat};
ghost use Rattle.std.specs.Io.KnownBytes.{Appends};
ghost use Rattle.dnp_daemons.specs.ScriptTexts.{above_word, outcome_line, round_line, control_line};

use crate::script::WhichCentre;
use dnp_streams::{NotWritten, write_out};
use dnp_world::Link;
use itoa::Buffer;
use std::io::Write;

/// Writes these texts, one after the other.
pub(crate) fn write_parts<W: Write>(parts: &[&[u8]], out: &mut W) -> Result<(), NotWritten>
    ensures whole { OnOk result (Appends (W.contents out.old) (W.contents out.new) (concat (map (λ part. part.now) parts.now))) }
    ensures part { OnErr result ((part rest : List ℕ) × (concat (map (λ part. part.now) parts.now) ≡ part ++ rest)
        × Appends (W.contents out.old) (W.contents out.new) part) }
{
    for part in parts {
        match write_out(part, out) {
            Ok(()) => {}
            Err(fault) => return Err(fault),
        }
    }
    Ok(())
}

/// Prints how something came out: ok, or refused by this number.
fn print_outcome<W: Write>(
    name: &[u8],
    subject: &[u8],
    refusal: Option<u8>,
    out: &mut W,
) -> Result<(), NotWritten>
    ensures whole { OnOk result (Appends (W.contents out.old) (W.contents out.new) (outcome_line name.now subject.now refusal)) }
    ensures part { OnErr result ((part rest : List ℕ) × (outcome_line name.now subject.now refusal ≡ part ++ rest)
        × Appends (W.contents out.old) (W.contents out.new) part) }
{
    match refusal {
        None => write_parts(&[name, b" ", subject, b" ok\n"], out),
        Some(number) => {
            let mut digits = Buffer::new();
            let number = digits.format(number).as_bytes();
            write_parts(&[name, b" ", subject, b" refused ", number, b"\n"], out)
        }
    }
}

/// The word for the link to the centre of this number.
fn word_above(centre: u8) -> &'static [u8]
    ensures { result.now ≡ above_word centre }
{
    if centre == 0 { b"above" } else { b"above2" }
}

/// Prints how a round came out.
pub(crate) fn print_round<W: Write>(
    link: Link,
    refusal: Option<u8>,
    out: &mut W,
) -> Result<(), NotWritten>
    ensures whole { OnOk result (Appends (W.contents out.old) (W.contents out.new) (round_line link refusal)) }
    ensures part { OnErr result ((part rest : List ℕ) × (round_line link refusal ≡ part ++ rest)
        × Appends (W.contents out.old) (W.contents out.new) part) }
{
    match link {
        Link::Below(substation) => {
            let mut digits = Buffer::new();
            print_outcome(b"round", digits.format(substation).as_bytes(), refusal, out)
        }
        Link::Above(centre) => print_outcome(b"round", word_above(centre), refusal, out),
    }
}

/// Prints how a control came out.
pub(crate) fn print_control<W: Write>(
    centre: WhichCentre,
    id: u64,
    refusal: Option<u8>,
    out: &mut W,
) -> Result<(), NotWritten>
    ensures whole { OnOk result (Appends (W.contents out.old) (W.contents out.new) (control_line centre id refusal)) }
    ensures part { OnErr result ((part rest : List ℕ) × (control_line centre id refusal ≡ part ++ rest)
        × Appends (W.contents out.old) (W.contents out.new) part) }
{
    let mut digits = Buffer::new();
    let id = digits.format(id).as_bytes();
    match centre {
        WhichCentre::First => print_outcome(b"control", id, refusal, out),
        WhichCentre::Second => print_outcome(b"control2", id, refusal, out),
    }
}
