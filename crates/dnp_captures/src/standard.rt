//! What the profile lacks in a fragment, as lines of text and as JSON objects.

use dnp_appfragment::{Control, Iin};
use dnp_decode::IinNames;
use dnp_standard::{Block, Form, Function, Width, group_name};
use dnp_terminal::{Screen, Tone};
use std::fmt::{Display, Formatter, Write};
use std::{fmt, io};

/// How a line of text is marked that tells of what the profile lacks.
const BEYOND: &str = "beyond the profile";

/// The word, if it is said.
fn said(set: bool, word: &'static str) -> &'static str {
    if set { word } else { "" }
}

/// Octets in hexadecimal, with blanks between them.
#[derive(Clone, Copy)]
struct Octets<'a>(&'a [u8]);

impl Display for Octets<'_> {
    fn fmt<W: Write>(&self, f: &mut Formatter<W>) -> fmt::Result {
        let mut blank = "";
        for octet in self.0 {
            write!(f, "{blank}{octet:02X}")?;
            blank = " ";
        }
        Ok(())
    }
}

/// What a control octet says, in words.
#[derive(Clone, Copy)]
struct Bits(Control);

impl Display for Bits {
    fn fmt<W: Write>(&self, f: &mut Formatter<W>) -> fmt::Result {
        let seq = self.0.seq;
        let fir = said(self.0.fir, " fir");
        let fin = said(self.0.fin, " fin");
        let con = said(self.0.con, " con");
        let uns = said(self.0.uns, " uns");
        write!(f, "seq {seq}{fir}{fin}{con}{uns}")
    }
}

/// What it says, as members of a JSON object.
#[derive(Clone, Copy)]
struct BitMembers(Control);

impl Display for BitMembers {
    fn fmt<W: Write>(&self, f: &mut Formatter<W>) -> fmt::Result {
        let Control {
            fir,
            fin,
            con,
            uns,
            seq,
        } = self.0;
        write!(
            f,
            "\"seq\":{seq},\"fir\":{fir},\"fin\":{fin},\"con\":{con},\"uns\":{uns}"
        )
    }
}

/// A fragment's own line: its control octet, its function, and the indications of a response.
#[derive(Clone, Copy)]
pub(crate) struct Own {
    /// What its control octet says.
    pub control: Control,
    /// Its function.
    pub function: Function,
    /// Its indications, if it is a response.
    pub iin: Option<Iin>,
}

impl Own {
    /// The line of a fragment of this function, if it isn't too short.
    pub(crate) fn of(function: Function, octets: &[u8]) -> Option<Own> {
        let (control, iin) = match octets {
            [control, _, one, two, ..] if function.is_response() => (
                control,
                Some(Iin {
                    one: *one,
                    two: *two,
                }),
            ),
            [control, ..] if !function.is_response() => (control, None),
            _ => return None,
        };
        Some(Own {
            control: Control::read(*control),
            function,
            iin,
        })
    }

    /// Prints it as a line of text.
    pub(crate) fn print_text<W: io::Write>(
        &self,
        at: u64,
        screen: Screen,
        out: &mut W,
    ) -> io::Result<()> {
        let bits = Bits(self.control);
        let name = self.function.name();
        let (opening, closing) = screen.escapes(Tone::Warning);
        match self.iin {
            Some(iin) => {
                let Iin { one, two } = iin;
                let set = IinNames(iin);
                writeln!(
                    out,
                    "{opening}{at}   response {bits}, iin {one:02X} {two:02X}{set}, {name}, {BEYOND}{closing}"
                )
            }
            None => writeln!(
                out,
                "{opening}{at}   request {bits} {name}, {BEYOND}{closing}"
            ),
        }
    }

    /// Prints it as a JSON object.
    pub(crate) fn print_object<W: io::Write>(&self, at: u64, out: &mut W) -> io::Result<()> {
        let bits = BitMembers(self.control);
        let name = self.function.name();
        match self.iin {
            Some(Iin { one, two }) => writeln!(
                out,
                "{{\"at\":{at},\"layer\":\"response\",{bits},\"function\":\"{name}\",\"iin\":[\"{one:02X}\",\"{two:02X}\"],\"profile\":false}}"
            ),
            None => writeln!(
                out,
                "{{\"at\":{at},\"layer\":\"request\",{bits},\"function\":\"{name}\",\"profile\":false}}"
            ),
        }
    }
}

/// Which objects a header speaks of.
#[derive(Clone, Copy)]
struct Range(Block);

impl Range {
    /// The number of the last object of a span.
    fn last(&self) -> u64 {
        self.0.first.saturating_add(self.0.count).saturating_sub(1)
    }
}

impl Display for Range {
    fn fmt<W: Write>(&self, f: &mut Formatter<W>) -> fmt::Result {
        let Block { first, count, .. } = self.0;
        let last = self.last();
        match self.0.qualifier.form {
            Form::All => f.write_str("all"),
            Form::Span => write!(f, "{first}..{last}"),
            Form::Count => write!(f, "x{count}"),
        }
    }
}

/// The group and the variation of a header, and which objects it speaks of.
#[derive(Clone, Copy)]
struct Head(Block);

impl Display for Head {
    fn fmt<W: Write>(&self, f: &mut Formatter<W>) -> fmt::Result {
        let group = self.0.object.group;
        let variation = self.0.object.variation;
        let range = Range(self.0);
        write!(f, "{group}.{variation} {range}")
    }
}

/// What the standard calls the objects of a header.
#[derive(Clone, Copy)]
struct Name(Block);

impl Display for Name {
    fn fmt<W: Write>(&self, f: &mut Formatter<W>) -> fmt::Result {
        let group = group_name(self.0.object.group).unwrap_or("unknown group");
        let kind = self.0.object.kind.name();
        write!(f, "{group}, {kind}")
    }
}

/// Prints a header as a line of text.
pub(crate) fn print_header_text<W: io::Write>(
    at: u64,
    block: &Block,
    screen: Screen,
    out: &mut W,
) -> io::Result<()> {
    let head = Head(*block);
    let name = Name(*block);
    let (opening, closing) = screen.escapes(Tone::Warning);
    writeln!(out, "{opening}{at}     {head} {name}, {BEYOND}{closing}")
}

/// Prints a header as a JSON object.
pub(crate) fn print_header_object<W: io::Write>(
    at: u64,
    block: &Block,
    out: &mut W,
) -> io::Result<()> {
    let group = block.object.group;
    let variation = block.object.variation;
    let name = Name(*block);
    let Block {
        first,
        count,
        size,
        ..
    } = *block;
    write!(
        out,
        "{{\"at\":{at},\"layer\":\"header\",\"group\":{group},\"variation\":{variation},"
    )?;
    match (block.qualifier.form, block.qualifier.index) {
        (Form::All, _) => write!(out, "\"range\":\"all\"")?,
        (Form::Span, _) => {
            let last = Range(*block).last();
            write!(out, "\"range\":\"span\",\"first\":{first},\"last\":{last}")?;
        }
        (Form::Count, Width::Zero) => write!(out, "\"range\":\"count\",\"count\":{count}")?,
        (Form::Count, _) => write!(out, "\"range\":\"indexed\",\"count\":{count}")?,
    }
    writeln!(
        out,
        ",\"octets\":{size},\"name\":\"{name}\",\"profile\":false}}"
    )
}

/// An object behind a header, as it is printed: the index that it has, and its bits or its octets.
#[derive(Clone, Copy)]
pub(crate) struct Told<'a> {
    /// Its index, if it has one.
    pub index: Option<u64>,
    /// Its bits, if it is packed.
    pub bits: Option<u8>,
    /// Its octets, if there are any.
    pub octets: &'a [u8],
}

impl Told<'_> {
    /// Prints it as a line of text, after its header.
    pub(crate) fn print_text<W: io::Write>(
        &self,
        at: u64,
        block: &Block,
        screen: Screen,
        out: &mut W,
    ) -> io::Result<()> {
        let head = Head(*block);
        let (opening, closing) = screen.escapes(Tone::Warning);
        write!(out, "{opening}{at}     {head}:")?;
        if let Some(index) = self.index {
            write!(out, " {index}")?;
        }
        if let Some(bits) = self.bits {
            write!(out, " = {bits}")?;
        }
        if !self.octets.is_empty() {
            let octets = Octets(self.octets);
            write!(out, " octets {octets}")?;
        }
        writeln!(out, ", {BEYOND}{closing}")
    }

    /// Prints it as a JSON object.
    pub(crate) fn print_object<W: io::Write>(&self, at: u64, out: &mut W) -> io::Result<()> {
        write!(out, "{{\"at\":{at},\"layer\":\"object\"")?;
        if let Some(index) = self.index {
            write!(out, ",\"index\":{index}")?;
        }
        if let Some(bits) = self.bits {
            write!(out, ",\"value\":{bits}")?;
        }
        if !self.octets.is_empty() {
            let octets = Octets(self.octets);
            write!(out, ",\"octets\":\"{octets}\"")?;
        }
        writeln!(out, ",\"profile\":false}}")
    }
}
