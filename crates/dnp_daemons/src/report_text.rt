//! A report as lines of text.

ghost use Rattle.std.specs.Prelude.{◌≡◌, ℕ, ◌≤◌, List, ◌++◌, Err, OnOk, OnErr, map, vec_capacity};
ghost use Rattle.std.specs.List.{concat};
ghost use Rattle.std.specs.Io.KnownBytes.{Appends};
ghost use Rattle.dnp_daemons.specs.ReportText.{count_line, events_text, list_text, report_text};

use crate::report_text::line::{LINE_OCTETS, Worded, make_line};
use crate::run::printing::write_parts;
use dnp_concentrator::Listed;
use dnp_objects::Row;
use dnp_streams::{NotWritten, write_out};
use dnp_world::Report;
use itoa::{Buffer, Integer};
use std::alloc::Global;
use std::io::Write;

mod line;

/// Why a report was not printed.
#[derive(Clone, Copy, Debug, PartialEq, Eq)]
pub enum PrintFault {
    /// The writer failed. What was written is a beginning of the text.
    WriteFailed,
    /// Out of memory. Nothing was written.
    Memory,
}

/// Writes a line of a name and a number.
fn write_count<N: Integer, W: Write>(name: &[u8], count: N, out: &mut W) -> Result<(), NotWritten>
    ensures whole { OnOk result (Appends (W.contents out.old) (W.contents out.new) (count_line name.now (N.text count))) }
    ensures part { OnErr result ((part rest : List ℕ) × (count_line name.now (N.text count) ≡ part ++ rest)
        × Appends (W.contents out.old) (W.contents out.new) part) }
{
    let mut digits = Buffer::new();
    write_parts(&[name, b" ", digits.format(count).as_bytes(), b"\n"], out)
}

/// Writes a list: its name and length, and a line for each thing in it.
fn write_list<T: Worded, W: Write>(
    line: &mut Vec<u8>,
    name: &[u8],
    things: &[(u8, T)],
    out: &mut W,
) -> Result<(), NotWritten>
    requires { LINE_OCTETS ≤ vec_capacity line.old }
    ensures room { LINE_OCTETS ≤ vec_capacity line.new }
    ensures whole { OnOk result (Appends (W.contents out.old) (W.contents out.new) (list_text T.words name.now things.now)) }
    ensures part { OnErr result ((part rest : List ℕ) × (list_text T.words name.now things.now ≡ part ++ rest)
        × Appends (W.contents out.old) (W.contents out.new) part) }
{
    write_count(name, things.len(), out)?;
    for (substation, thing) in things {
        make_line(line, *substation, thing);
        write_out(line, out)?;
    }
    Ok(())
}

/// Writes lists of events, one below the other, each with its name.
fn write_lists<W: Write>(
    line: &mut Vec<u8>,
    lists: &[(&[u8], &Listed<(u8, Row)>)],
    out: &mut W,
) -> Result<(), NotWritten>
    requires { LINE_OCTETS ≤ vec_capacity line.old }
    ensures room { LINE_OCTETS ≤ vec_capacity line.new }
    ensures whole { OnOk result (Appends (W.contents out.old) (W.contents out.new)
        (concat (map (λ list. events_text list.0.now list.1.now) lists.now))) }
    ensures part { OnErr result ((part rest : List ℕ)
        × (concat (map (λ list. events_text list.0.now list.1.now) lists.now) ≡ part ++ rest)
        × Appends (W.contents out.old) (W.contents out.new) part) }
{
    for (name, events) in lists {
        write_list(line, name, events.as_slice(), out)?;
    }
    Ok(())
}

/// Writes the lines of a report, each made in the room of `line`.
fn write_report<W: Write>(
    line: &mut Vec<u8>,
    report: &Report,
    out: &mut W,
) -> Result<(), NotWritten>
    requires { LINE_OCTETS ≤ vec_capacity line.old }
    ensures whole { OnOk result (Appends (W.contents out.old) (W.contents out.new) (report_text report.now)) }
    ensures part { OnErr result ((part rest : List ℕ) × (report_text report.now ≡ part ++ rest)
        × Appends (W.contents out.old) (W.contents out.new) part) }
{
    let lists: [(&[u8], &Listed<(u8, Row)>); 10] = [
        (b"journal", &report.journal.0),
        (b"journal2", &report.journal.1),
        (b"queue", &report.queue.0),
        (b"queue2", &report.queue.1),
        (b"dropped", &report.dropped.0),
        (b"dropped2", &report.dropped.1),
        (b"confirmed", &report.confirmed),
        (b"buffered", &report.buffered),
        (b"overwritten", &report.overwritten),
        (b"gone", &report.gone),
    ];
    write_lists(line, &lists, out)?;
    write_list(line, b"issued", report.issued.as_slice(), out)?;
    write_list(line, b"operated", report.operated.as_slice(), out)?;
    write_count(b"lost", report.lost.0, out)?;
    write_count(b"lost2", report.lost.1, out)?;
    Ok(())
}

/// Prints a report: for each list a line of its name and length, and below it a line for each event or command, which
/// begins with a space; at the end a line of `lost` and its number, and one of `lost2`. What is of the second centre stands
/// after the same of the first, with a 2 to its name. An event is its substation, kind, index, value, flags
/// as two hexadecimal digits, and time or `-`; a command is its substation and the words with which it is issued.
///
/// The lines are written one by one: a writer whose calls are dear belongs behind a buffer.
///
/// A fault is WriteFailed where the writer failed, and what was written then is a beginning of the right text; or
/// Memory, and then nothing was written.
pub fn print_report<W: Write>(alloc: Global, report: &Report, out: &mut W) -> Result<(), PrintFault>
    ensures whole { OnOk result (Appends (W.contents out.old) (W.contents out.new) (report_text report.now)) }
    ensures part { result ≡ Err PrintFault.WriteFailed → (part : List ℕ) × (rest : List ℕ) × (report_text report.now ≡ part ++ rest) × Appends (W.contents out.old) (W.contents out.new) part }
    ensures unwritten { result ≡ Err PrintFault.Memory → out.new ≡ out.old }
{
    let Ok(mut line) = Vec::with_capacity(alloc, LINE_OCTETS) else {
        return Err(PrintFault::Memory);
    };
    match write_report(&mut line, report, out) {
        Ok(()) => Ok(()),
        Err(_) => Err(PrintFault::WriteFailed),
    }
}
