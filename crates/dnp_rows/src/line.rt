//! A row as a line.

ghost use Rattle.std.specs.Prelude.{◌≡◌, List, ℕ, ◌++◌, OnOk, IfSome};
ghost use Rattle.dnp_rows.specs.Dates.{IsUtc};
ghost use Rattle.dnp_rows.specs.Lines as spec;
ghost use Rattle.dnp_rows.specs.Lines.{IsLine, IsPrinted, AreLines, begins, ends, number, word, absent, queued_parts, time_parts, event_line, control_line};

use crate::command::{put_command, put_state};
use crate::item::{Event, Item, Queued, Store};
use crate::naming::Naming;
use crate::text::{make_utc, octet_digits, put_number};
use dnp_controls::Entry;
use dnp_objects::{Kind, Row};
use itoa::Integer;
use std::alloc::{AllocError, Global};

/// Whose book of controls it is, as plain text says what became of them.
#[derive(Clone, Copy, Debug, PartialEq, Eq)]
pub enum Whose {
    /// It isn't said.
    Anyone,
    /// A centre's, which the concentrator answers.
    Centre,
    /// A concentrator's, which substations answer.
    Concentrator,
}

/// How rows are printed.
#[derive(Clone, Copy, Debug, PartialEq, Eq)]
pub enum Form {
    /// As words with a space between them.
    Text(Whose),
    /// As records of CSV (RFC 4180).
    Csv,
    /// As JSON objects.
    Json,
}

/// How plain text says a part of a row.
#[derive(Clone, Copy, Debug, PartialEq, Eq)]
pub(crate) enum Said {
    /// Not at all.
    Unsaid,
    /// By its value.
    Bare,
    /// By its name and its value.
    Named,
}

/// The head of CSV, without what ends its line.
pub fn head_names(store: Store) -> &'static [u8]
    ensures { result.now ≡ spec.head_names store }
{
    match store {
        Store::Journal => b"id,kind,index,value,flags,time,utc",
        Store::Queue => b"id,centre,class,kind,index,value,flags,time,utc",
        Store::Controls => b"id,target,command,index,code,count,on_ms,off_ms,value,state,status",
    }
}

/// The texts of a part's value: in plain text, in JSON between `quote` and `quote`, and in CSV.
#[derive(Clone, Copy)]
struct Value<'a> {
    /// In plain text.
    text: &'a [u8],
    /// In JSON, where it stands between two of `quote`.
    json: &'a [u8],
    /// What stands before and after it in JSON.
    quote: &'a [u8],
    /// In CSV.
    csv: &'a [u8],
}

/// Puts a part.
fn put_part(
    out: &mut Vec<u8>,
    form: Form,
    said: Said,
    name: &str,
    value: Value<'_>,
) -> Result<(), AllocError>
    ensures { OnOk result (out.new.items ≡ out.old.items ++ spec.part form said name.now value.entry.text.now (value.entry.quote.now ++ value.entry.json.now ++ value.entry.quote.now) value.entry.csv.now) }
{
    match (form, said) {
        (Form::Json, _) => {
            out.extend_from_slice(b",\"")?;
            out.extend_from_slice(name.as_bytes())?;
            out.extend_from_slice(b"\":")?;
            out.extend_from_slice(value.quote)?;
            out.extend_from_slice(value.json)?;
            out.extend_from_slice(value.quote)
        }
        (Form::Csv, _) => {
            out.extend_from_slice(b",")?;
            out.extend_from_slice(value.csv)
        }
        (Form::Text(_), Said::Unsaid) => Ok(()),
        (Form::Text(_), Said::Bare) => {
            out.extend_from_slice(b" ")?;
            out.extend_from_slice(value.text)
        }
        (Form::Text(_), Said::Named) => {
            out.extend_from_slice(b" ")?;
            out.extend_from_slice(name.as_bytes())?;
            out.extend_from_slice(b" ")?;
            out.extend_from_slice(value.text)
        }
    }
}

/// Puts a part whose value is a number.
pub(crate) fn put_integer<N: Integer>(
    out: &mut Vec<u8>,
    form: Form,
    said: Said,
    name: &str,
    value: N,
) -> Result<(), AllocError>
    ensures { OnOk result (out.new.items ≡ out.old.items ++ number form said name.now (N.text value)) }
{
    let mut buffer = itoa::Buffer::new();
    let digits = buffer.format(value).as_bytes();
    let value = Value {
        text: digits,
        json: digits,
        quote: b"",
        csv: digits,
    };
    put_part(out, form, said, name, value)
}

/// Puts a part whose value is a word.
pub(crate) fn put_word(
    out: &mut Vec<u8>,
    form: Form,
    said: Said,
    name: &str,
    letters: &[u8],
) -> Result<(), AllocError>
    ensures { OnOk result (out.new.items ≡ out.old.items ++ word form said name.now letters.now) }
{
    let value = Value {
        text: letters,
        json: letters,
        quote: b"\"",
        csv: letters,
    };
    put_part(out, form, said, name, value)
}

/// Puts a part that has no value.
pub(crate) fn put_none(
    out: &mut Vec<u8>,
    form: Form,
    said: Said,
    name: &str,
) -> Result<(), AllocError>
    ensures { OnOk result (out.new.items ≡ out.old.items ++ spec.none form said name.now) }
{
    let value = Value {
        text: b"-",
        json: b"null",
        quote: b"",
        csv: b"",
    };
    put_part(out, form, said, name, value)
}

/// Puts what stands for a part that rows of its kind don't have.
pub(crate) fn put_absent(out: &mut Vec<u8>, form: Form) -> Result<(), AllocError>
    ensures { OnOk result (out.new.items ≡ out.old.items ++ absent form) }
{
    match form {
        Form::Csv => out.extend_from_slice(b","),
        Form::Json | Form::Text(_) => Ok(()),
    }
}

/// Puts what a line begins with.
fn put_begin(out: &mut Vec<u8>, form: Form, id: u64) -> Result<(), AllocError>
    ensures { OnOk result (out.new.items ≡ out.old.items ++ begins form id) }
{
    if form == Form::Json {
        out.extend_from_slice(b"{\"id\":")?;
    }
    put_number(out, id)
}

/// Puts what a line ends in.
fn put_end(out: &mut Vec<u8>, form: Form) -> Result<(), AllocError>
    ensures { OnOk result (out.new.items ≡ out.old.items ++ ends form) }
{
    out.extend_from_slice(match form {
        Form::Json => b"}\n",
        Form::Csv => b"\r\n",
        Form::Text(_) => b"\n",
    })
}

/// What events of a kind are called.
fn kind_name(kind: Kind) -> &'static [u8]
    ensures { result.now ≡ spec.kind_name kind }
{
    match kind {
        Kind::Binary => b"binary",
        Kind::Counter => b"counter",
        Kind::Analog => b"analog",
    }
}

/// Puts for whom an event is queued, where it is.
fn put_queued(out: &mut Vec<u8>, form: Form, queued: Option<Queued>) -> Result<(), AllocError>
    ensures { OnOk result (out.new.items ≡ out.old.items ++ queued_parts form queued) }
{
    let Some(queued) = queued else {
        return Ok(());
    };
    put_integer(out, form, Said::Named, "centre", queued.centre)?;
    put_integer(out, form, Said::Named, "class", queued.class)
}

/// Puts a time, whose text in UTC is at hand.
fn put_time(out: &mut Vec<u8>, form: Form, time: Option<u64>, utc: &[u8]) -> Result<(), AllocError>
    ensures { OnOk result (out.new.items ≡ out.old.items ++ time_parts form time utc.now) }
{
    match time {
        None => {
            put_none(out, form, Said::Unsaid, "time")?;
            put_none(out, form, Said::Bare, "utc")
        }
        Some(time) => {
            put_integer(out, form, Said::Unsaid, "time", time)?;
            put_word(out, form, Said::Bare, "utc", utc)
        }
    }
}

/// Puts the parts of an event that come after its id and before its time.
fn put_point(out: &mut Vec<u8>, form: Form, row: &Row) -> Result<(), AllocError>
    ensures { OnOk result (out.new.items ≡ out.old.items ++ spec.point_parts form row.now) }
{
    put_word(out, form, Said::Bare, "kind", kind_name(row.kind))?;
    put_integer(out, form, Said::Bare, "index", row.index)?;
    put_integer(out, form, Said::Bare, "value", row.value)?;
    put_word(out, form, Said::Bare, "flags", &octet_digits(row.flags))
}

/// Puts the line of an event that is named so, the text of whose time in UTC is at hand.
fn put_event(
    out: &mut Vec<u8>,
    form: Form,
    event: &Event,
    utc: &[u8],
    named: &[u8],
) -> Result<(), AllocError>
    ensures { OnOk result (out.new.items ≡ out.old.items ++ event_line form event.now utc.now named.now) }
{
    put_begin(out, form, event.id)?;
    put_queued(out, form, event.queued)?;
    put_point(out, form, &event.row)?;
    put_time(out, form, event.row.time, utc)?;
    out.extend_from_slice(named)?;
    put_end(out, form)
}

/// Puts the line of a control that is named so.
fn put_control(out: &mut Vec<u8>, form: Form, entry: &Entry, named: &[u8]) -> Result<(), AllocError>
    ensures { OnOk result (out.new.items ≡ out.old.items ++ control_line form entry.now named.now) }
{
    put_begin(out, form, entry.id)?;
    put_integer(out, form, Said::Named, "target", entry.target)?;
    put_command(out, form, &entry.command)?;
    put_state(out, form, entry.state)?;
    out.extend_from_slice(named)?;
    put_end(out, form)
}

/// The text of a time in UTC, in place of what stood there. Where there is no time, no more is said.
fn make_time(out: &mut Vec<u8>, time: Option<u64>) -> Result<(), AllocError>
    ensures { OnOk result (IfSome time (λ time. IsUtc time out.new.items)) }
{
    match time {
        Some(time) => make_utc(out, time),
        None => Ok(()),
    }
}

/// Puts the line of a row that is named so at the end of the octets. In between, the room for texts is used. An error says that memory ran
/// out.
pub fn put_line(
    out: &mut Vec<u8>,
    room: &mut Vec<u8>,
    form: Form,
    named: &[u8],
    item: &Item,
) -> Result<(), AllocError>
    ensures { OnOk result ((line : List ℕ) × IsLine form named.now item.now line × (out.new.items ≡ out.old.items ++ line)) }
{
    match item {
        Item::Event(event) => {
            make_time(room, event.row.time)?;
            put_event(out, form, event, room, named)
        }
        Item::Control(entry) => put_control(out, form, entry, named),
    }
}

/// Puts the lines of rows at the end of the octets. An error says that memory ran out.
pub(crate) fn put_lines<N: Naming>(
    alloc: Global,
    out: &mut Vec<u8>,
    form: Form,
    names: &N,
    items: &[Item],
) -> Result<(), AllocError>
    ensures { OnOk result ((lines : List ℕ) × AreLines (IsPrinted form (N.is_named names.now)) items.now lines × (out.new.items ≡ out.old.items ++ lines)) }
{
    let mut room = Vec::new(alloc);
    for item in items {
        let named = names.name(item);
        put_line(out, &mut room, form, named, item)?;
    }
    Ok(())
}
