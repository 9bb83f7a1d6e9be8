//! Rows as they are printed, page by page.

ghost use Rattle.std.specs.Prelude.{◌≡◌, List, ℕ, OnOk, IfOk, IfErr, IfSome, IsSome};
ghost use Rattle.std.specs.Io.KnownBytes.{Appends};
ghost use Rattle.dnp_rows.specs.Lines.{AreLines, IsPrinted};
ghost use Rattle.dnp_rows.specs.Pages.{over, last_id, AreRising};

use crate::fault::PrintFault;
use crate::item::Item;
use crate::line::{Form, put_lines};
use crate::naming::Naming;
use crate::source::Source;
use std::alloc::Global;
use std::io::Write;

/// How many rows are read and printed at once.
const PAGE: usize = 1_000;

/// The id of the last row, where ids rise from over this one on.
fn last_in_order(items: &[Item], from: u64) -> Option<u64>
    ensures rising { IfSome result (λ last. AreRising from items.now) }
    ensures last { IfSome result (λ last. last ≡ last_id from items.now) }
    ensures found { AreRising from items.now → IsSome result }
{
    let mut last = from;
    for item in items {
        if item.id() <= last {
            return None;
        }
        last = item.id();
    }
    Some(last)
}

/// Prints rows whose ids rise from over this one on, each in a line with its name, so that they are out as the call ends, and gives the id
/// of the last.
fn print_page<N: Naming, W: Write>(
    alloc: Global,
    form: Form,
    names: &N,
    from: u64,
    items: &[Item],
    out: &mut W,
) -> Result<u64, PrintFault>
    ensures rising { OnOk result (AreRising from items.now) }
    ensures out_of_order { IfErr result (λ fault. fault ≡ PrintFault.OutOfOrder → ¬ AreRising from items.now) }
    ensures last { IfOk result (λ last. last ≡ last_id from items.now) }
    ensures lines { OnOk result ((lines : List ℕ) × AreLines (IsPrinted form (N.is_named names.now)) items.now lines × Appends (W.contents out.old) (W.contents out.new) lines) }
{
    let Some(last) = last_in_order(items, from) else {
        return Err(PrintFault::OutOfOrder);
    };
    let mut lines = Vec::new(alloc);
    if put_lines(alloc, &mut lines, form, names, items).is_err() {
        return Err(PrintFault::Memory);
    }
    if let Err(cause) = out.write_all(&lines) {
        return Err(PrintFault::Unwritten(cause));
    }
    if let Err(cause) = out.flush() {
        return Err(PrintFault::Unwritten(cause));
    }
    Ok(last)
}

/// Prints the rows over an id, each in a line, in the order of their ids, until none is left, and gives the id of the last:
/// the rows over that one are those that come later.
pub fn print_over<S: Source, N: Naming, W: Write>(
    source: &mut S,
    alloc: Global,
    form: Form,
    names: &N,
    from: u64,
    out: &mut W,
) -> Result<u64, PrintFault>
    ensures lines { S.honest source.new → OnOk result ((lines : List ℕ) × AreLines (IsPrinted form (N.is_named names.now)) (over from (S.items source.new)) lines × Appends (W.contents out.old) (W.contents out.new) lines) }
    ensures last { S.honest source.new → IfOk result (λ last. last ≡ last_id from (over from (S.items source.new))) }
{
    let mut last = from;
    let mut page = source.items_over(alloc, last, PAGE)?;
    while !page.is_empty() {
        last = print_page(alloc, form, names, last, &page, out)?;
        page = source.items_over(alloc, last, PAGE)?;
    }
    Ok(last)
}
