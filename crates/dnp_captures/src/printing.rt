//! The lines of the output.

ghost use Rattle.std.specs.Prelude.{◌≡◌, ◌≢◌, true, false, ◌||◌, IfOk};
ghost use Rattle.dnp_captures.specs.Items.{has_refused, refuses, some_refuses};

use crate::item::{Item, What};
use dnp_decode::{Line, Members};
use dnp_terminal::{Painted, Screen, Tone};
use std::fmt::{Display, Formatter};
use std::io::Write;
use std::{fmt, io};

/// How items are printed.
#[derive(Clone, Copy)]
pub enum Form {
    /// As JSON objects.
    Json,
    /// As lines of text, which may have colours there.
    Text(Screen),
}

/// Prints items, and remembers whether any of them was a refusal.
#[derive(Drop)]
pub struct Printer {
    /// How each is printed.
    form: Form,
    /// The object header of which no object was printed yet.
    header: Option<Item>,
    /// The object header whose objects may come.
    current: Option<Line>,
    /// Whether something was refused.
    refused: bool,
}

/// Whether the item says that something is refused.
fn is_refusal(item: &Item) -> bool
    ensures { result ≡ refuses item.now }
{
    match item.what {
        What::Line(line) => matches!(
            line,
            Line::Noise { .. }
                | Line::FrameRefused { .. }
                | Line::Cut(_)
                | Line::SegmentRefused(_)
                | Line::SeriesDropped
                | Line::FragmentRefused { .. }
        ),
        What::Text(_) | What::Packet => true,
    }
}

/// How an item is coloured: a refusal, and a frame, which what it carries stands below.
fn tone_of(item: &Item) -> Tone
    ensures fault { refuses item.now ≡ true → result ≡ Tone.Fault }
    ensures other { refuses item.now ≡ false → result ≢ Tone.Fault }
{
    if is_refusal(item) {
        return Tone::Fault;
    }
    match item.what {
        What::Line(Line::Frame { .. }) => Tone::Heading,
        _ => Tone::Plain,
    }
}

/// The blanks before a line: two for each layer above frames.
fn indent_of(line: &Line) -> &'static str {
    match line {
        Line::Noise { .. } | Line::Frame { .. } | Line::FrameRefused { .. } | Line::Cut(_) => " ",
        Line::Header { .. } => "     ",
        line if is_object(line) => "     ",
        _ => "   ",
    }
}

/// Whether the line is of an object.
fn is_object(line: &Line) -> bool {
    matches!(
        line,
        Line::Row(_)
            | Line::Output(_)
            | Line::Setpoint(_)
            | Line::Indication(_)
            | Line::Time(_)
            | Line::Common(_)
            | Line::Delay(_)
            | Line::Command(..)
    )
}

/// Prints an item as a JSON object.
fn print_object<W: Write>(item: &Item, out: &mut W) -> io::Result<()> {
    let at = item.at;
    match item.what {
        What::Line(line) => {
            let members = Members(line);
            writeln!(out, "{{\"at\":{at},{members}}}")
        }
        What::Text(column) => writeln!(
            out,
            "{{\"at\":{at},\"layer\":\"text\",\"refused\":\"Digit\",\"column\":{column}}}"
        ),
        What::Packet => writeln!(
            out,
            "{{\"at\":{at},\"layer\":\"packet\",\"refused\":\"Cut\"}}"
        ),
    }
}

/// An item as a line of text.
#[derive(Clone, Copy)]
struct Text<'a>(&'a Item);

impl Display for Text<'_> {
    fn fmt<W: fmt::Write>(&self, f: &mut Formatter<W>) -> fmt::Result {
        let at = self.0.at;
        match self.0.what {
            What::Line(line) => {
                let indent = indent_of(&line);
                write!(f, "{at}{indent}{line}")
            }
            What::Text(column) => write!(
                f,
                "{at} text refused: no hexadecimal digit in column {column}"
            ),
            What::Packet => write!(f, "{at} packet refused: the capture ends in it"),
        }
    }
}

/// Prints an item as a line of text.
fn print_text<W: Write>(item: &Item, screen: Screen, out: &mut W) -> io::Result<()> {
    let text = Painted {
        screen,
        tone: tone_of(item),
        what: &Text(item),
    };
    writeln!(out, "{text}")
}

impl Printer {
    /// A printer that has printed nothing, of items in this form.
    pub fn new(form: Form) -> Self
        ensures { has_refused result ≡ false }
    {
        Printer {
            form,
            header: None,
            current: None,
            refused: false,
        }
    }

    /// Prints all the items, each in a line, and answers whether something was refused. An error is the writer's: what it took
    /// before stands.
    #[tactic(auto, using(crate::proofs::Marks::refuses_more, crate::proofs::Marks::refuses_end))]
    pub fn print_all<W: Write>(mut self, items: &[Item], out: &mut W) -> io::Result<bool>
        ensures { IfOk result (λ refused. refused ≡ (has_refused self || some_refuses items.now)) }
    {
        for item in items {
            if is_refusal(item) {
                self.refused = true;
            }
            match self.form {
                Form::Json => print_object(item, out)?,
                Form::Text(screen) => self.print(item, screen, out)?,
            }
        }
        if let Form::Text(screen) = self.form {
            self.print_header(screen, out)?;
        }
        Ok(self.refused)
    }

    /// Prints the header of which no object was printed, if there is one.
    fn print_header<W: Write>(&mut self, screen: Screen, out: &mut W) -> io::Result<()>
        ensures { has_refused self.new ≡ has_refused self.old }
    {
        if let Some(item) = self.header.take() {
            print_text(&item, screen, out)?;
        }
        Ok(())
    }

    /// Prints an item as text: an object after its header, and a header alone where it has no objects.
    fn print<W: Write>(&mut self, item: &Item, screen: Screen, out: &mut W) -> io::Result<()>
        ensures { has_refused self.new ≡ has_refused self.old }
    {
        let What::Line(line) = item.what else {
            self.print_header(screen, out)?;
            return print_text(item, screen, out);
        };
        if is_object(&line) {
            self.header = None;
            if let Some(header) = self.current {
                let at = item.at;
                return writeln!(out, "{at}     {header}: {line}");
            }
            return print_text(item, screen, out);
        }
        self.print_header(screen, out)?;
        if let Line::Header { .. } = line {
            self.header = Some(*item);
            self.current = Some(line);
            return Ok(());
        }
        self.current = None;
        print_text(item, screen, out)
    }
}
