//! A fragment that the profile refuses, by the whole standard: what the profile has is printed as ever, what it lacks is marked so.

ghost use Rattle.std.specs.Prelude.{◌≤◌, length};

use crate::item::{Item, What};
use crate::printing::{Form, Printer};
use crate::refused::{Decoded, is_refused_fragment};
use crate::standard::{Own, Told, print_header_object, print_header_text};
use dnp_appfragment::{AppFault, Header, Headers, read_request, read_response};
use dnp_decode::{Line, object_line};
use dnp_standard::{Block, Function, Placed, Stop, Width, walk_from};
use dnp_terminal::Tone;
use std::alloc::{AllocError, Global};
use std::io;
use std::io::Write;

/// The octets of a request before its first header, and of a response, which has indications.
const BEFORE_REQUEST: usize = 2;

const BEFORE_RESPONSE: usize = 4;

/// The group of common times.
const COMMON_TIMES: u8 = 51;

/// A refused fragment, as it is printed.
#[derive(Drop)]
struct Fragment<'a> {
    /// The item that tells of the refusal.
    item: Item,
    /// Its octets.
    octets: &'a [u8],
    /// Its function.
    function: Function,
    /// Where its first header stands.
    first: usize,
    /// From which octet on it is not read by the profile.
    begin: usize,
    /// How it is printed.
    form: Form,
}

/// Where the headers of a fragment of this function begin.
fn first_header(function: Function) -> usize {
    if function.is_response() {
        BEFORE_RESPONSE
    } else {
        BEFORE_REQUEST
    }
}

impl<'a> Fragment<'a> {
    /// The fragment of this refusal, if it is one of what the standard may have: a function, an object, or a qualifier.
    fn of(item: &Item, octets: &'a [u8], form: Form) -> Option<Fragment<'a>> {
        let What::Line(Line::FragmentRefused { fault, place }) = item.what else {
            return None;
        };
        let function = Function::of_octet(*octets.get(1)?)?;
        let first = first_header(function);
        if octets.len() < first {
            return None;
        }
        let begin = match fault {
            AppFault::FunctionUnknown => first,
            AppFault::ObjectUnknown | AppFault::QualifierUnknown => place,
            _ => return None,
        };
        Some(Fragment {
            item: *item,
            octets,
            function,
            first,
            begin,
            form,
        })
    }

    /// The octets of a header with its objects.
    fn block(&self, placed: &Placed) -> &'a [u8] {
        let Placed { place, block } = *placed;
        let end = place.saturating_add(block.begin).saturating_add(block.size);
        part_of(self.octets, place, end)
    }

    /// A fragment of the same function that has this header alone, after the common time before it.
    fn alone(
        &self,
        alloc: Global,
        common: Option<&Placed>,
        placed: &Placed,
    ) -> Result<Vec<u8>, AllocError> {
        let mut alone = part_of(self.octets, 0, self.first).to_vec(alloc)?;
        if let Some(common) = common {
            alone.extend_from_slice(self.block(common))?;
        }
        alone.extend_from_slice(self.block(placed))?;
        Ok(alone)
    }

    /// Prints the fragment's own line, if the profile lacks its function.
    fn print_own<W: Write>(&self, out: &mut W) -> io::Result<()> {
        let What::Line(
            Line::FragmentRefused {
                fault: AppFault::FunctionUnknown,
                ..
            },
        ) = self.item.what
        else {
            return Ok(());
        };
        let Some(own) = Own::of(self.function, self.octets) else {
            return Ok(());
        };
        match self.form {
            Form::Json => own.print_object(self.item.at, out),
            Form::Text(screen) => own.print_text(self.item.at, screen, out),
        }
    }

    /// Prints a header that the profile lacks, and its objects.
    fn print_lacking<W: Write>(&self, placed: &Placed, out: &mut W) -> io::Result<()> {
        let at = self.item.at;
        let block = &placed.block;
        match self.form {
            Form::Json => print_header_object(at, block, out)?,
            Form::Text(screen) => print_header_text(at, block, screen, out)?,
        }
        let objects = part_of(self.block(placed), block.begin, self.block(placed).len());
        if objects.is_empty() {
            return Ok(());
        }
        let mut place = 0;
        for k in 0..u32::try_from(block.count).unwrap_or(u32::MAX) {
            let Some(told) = told_at(block, objects, k, &mut place) else {
                break;
            };
            match self.form {
                Form::Json => told.print_object(at, out)?,
                Form::Text(screen) => told.print_text(at, block, screen, out)?,
            }
        }
        Ok(())
    }

    /// Prints where the standard can't read on.
    fn print_stop<W: Write>(&self, fault: &str, place: usize, out: &mut W) -> io::Result<()> {
        let at = self.item.at;
        match self.form {
            Form::Json => writeln!(
                out,
                "{{\"at\":{at},\"layer\":\"fragment\",\"refused\":\"{fault}\",\"octet\":{place}}}"
            ),
            Form::Text(screen) => {
                let (opening, closing) = screen.escapes(Tone::Fault);
                writeln!(
                    out,
                    "{opening}{at}   fragment refused: {fault} at octet {place}{closing}"
                )
            }
        }
    }
}

/// The part of octets from one place to another: none where they have no such part.
fn part_of(octets: &[u8], begin: usize, end: usize) -> &[u8] {
    if begin <= end && end <= octets.len() {
        &octets[begin..end]
    } else {
        &[]
    }
}

/// Object k of a header, which begins at this place of the octets behind the header, if it is there; then the place is where the next
/// one begins.
fn told_at<'a>(block: &Block, objects: &'a [u8], k: u32, place: &mut usize) -> Option<Told<'a>> {
    let numbered = match block.qualifier.form {
        dnp_standard::Form::Span => Some(block.first.saturating_add(u64::from(k))),
        dnp_standard::Form::All | dnp_standard::Form::Count => None,
    };
    if let Some(bits) = block.packed(objects, k) {
        let index = Some(numbered.unwrap_or(u64::from(k)));
        return Some(Told {
            index,
            bits: Some(bits),
            octets: &[],
        });
    }
    let part = block.part_at(objects, *place)?;
    *place = part.end;
    let index = match block.qualifier.index {
        Width::Zero => numbered,
        _ => Some(part.index),
    };
    Some(Told {
        index,
        bits: None,
        octets: part_of(objects, part.begin, part.end),
    })
}

/// Appends the items of a header and its objects.
fn push_header(at: u64, header: &Header<'_>, items: &mut Vec<Item>) -> Result<(), AllocError> {
    let line = Line::Header {
        group: header.group,
        variation: header.variation,
        range: header.range,
        octets: header.octets.len(),
    };
    items.push(Item {
        at,
        what: What::Line(line),
    })?;
    if header.octets.is_empty() {
        return Ok(());
    }
    for k in 0..header.count() {
        if let Some(line) = object_line(header, k) {
            items.push(Item {
                at,
                what: What::Line(line),
            })?;
        }
    }
    Ok(())
}

/// The last of these headers.
fn last_of(headers: Headers<'_>) -> Option<Header<'_>> {
    let mut last = None;
    for header in headers {
        last = Some(header);
    }
    last
}

/// The items of the last header of a fragment with its objects, if the profile has the fragment.
fn items_of_last(
    alloc: Global,
    at: u64,
    octets: &[u8],
    is_response: bool,
) -> Result<Vec<Item>, AllocError> {
    let mut items = Vec::new(alloc);
    let headers = if is_response {
        read_response(octets).map(|response| response.headers)
    } else {
        read_request(octets).map(|request| request.headers)
    };
    if let Ok(headers) = headers
        && let Some(header) = last_of(headers)
    {
        push_header(at, &header, &mut items)?;
    }
    Ok(items)
}

/// Prints a header with its objects: as the profile has it, or as the standard has it beyond the profile.
fn print_block<W: Write>(
    alloc: Global,
    fragment: &Fragment<'_>,
    common: Option<&Placed>,
    placed: &Placed,
    out: &mut W,
) -> io::Result<()> {
    let alone = fragment.alone(alloc, common, placed)?;
    let is_response = fragment.function.is_response();
    let items = items_of_last(alloc, fragment.item.at, alone.as_slice(), is_response)?;
    if items.is_empty() {
        return fragment.print_lacking(placed, out);
    }
    Printer::new(fragment.form).print_all(items.as_slice(), out)?;
    Ok(())
}

/// Prints what the profile doesn't read of a fragment, and answers whether the standard refuses any of it.
fn print_fragment<W: Write>(
    alloc: Global,
    fragment: &Fragment<'_>,
    out: &mut W,
) -> io::Result<bool> {
    fragment.print_own(out)?;
    let walk = walk_from(
        alloc,
        fragment.function.carried(),
        fragment.octets,
        fragment.first,
    )?;
    let mut common = None;
    for placed in walk.blocks.iter() {
        if fragment.begin <= placed.place {
            print_block(alloc, fragment, common, placed, out)?;
        }
        if placed.block.object.group == COMMON_TIMES {
            common = Some(placed);
        }
    }
    match walk.stop {
        Some(Stop { fault, place }) => {
            fragment.print_stop(fault.name(), place, out)?;
            Ok(true)
        }
        None => Ok(false),
    }
}

/// How many items stand before the first that says that a fragment is refused.
fn before_refused(items: &[Item]) -> usize
    ensures { result ≤ length items.now }
{
    let mut before = 0;
    for item in items {
        if is_refused_fragment(item) {
            break;
        }
        before += 1;
    }
    before
}

/// Prints all that was decoded, each item in a line, and of each refused fragment what the whole standard has to say of it. It answers
/// whether something was refused. An error is the writer's, or says that memory ran out: what was printed before stands.
pub fn print_decoded<W: Write>(
    alloc: Global,
    decoded: &Decoded,
    form: Form,
    out: &mut W,
) -> io::Result<bool> {
    let mut refused = false;
    let mut items = decoded.items.as_slice();
    for octets in decoded.fragments.iter() {
        let (before, from) = items.split_at(before_refused(items));
        if Printer::new(form).print_all(before, &mut *out)? {
            refused = true;
        }
        let Some((item, after)) = from.split_first() else {
            return Ok(refused);
        };
        let still = match Fragment::of(item, octets.octets.as_slice(), form) {
            Some(fragment) => print_fragment(alloc, &fragment, &mut *out)?,
            None => Printer::new(form).print_all(&[*item], &mut *out)?,
        };
        if still {
            refused = true;
        }
        items = after;
    }
    if Printer::new(form).print_all(items, &mut *out)? {
        refused = true;
    }
    Ok(refused)
}
