//! The rows of a response.

ghost use Rattle.std.specs.Prelude.{◌≡◌, ◌++◌, OnOk, IfOk, option_to_list};
ghost use Rattle.dnp_appfragment.specs.Seen.{head};
ghost use Rattle.dnp_appfragment.specs.Whole.{response as answered};
ghost use Rattle.dnp_poll.specs.Rows as spec;

use dnp_appfragment::{Function, Header, Headers, Response};
use dnp_decode::{Line, object_line};
use dnp_objects::{Kind, Row};
use std::alloc::{AllocError, Global};

/// What a row is of (IEEE Std 1815-2012, object library).
#[derive(Clone, Copy, Debug, PartialEq, Eq)]
pub enum Family {
    /// A binary input (groups 1 and 2).
    Binary,
    /// A counter (groups 20 and 22).
    Counter,
    /// An analog input (groups 30 and 32).
    Analog,
    /// The state of a binary output (group 10).
    Output,
    /// The state of an analog output (group 40).
    Setpoint,
}

/// A row of a response, and where it stood.
#[derive(Clone, Copy, Debug, PartialEq, Eq)]
pub struct ShownRow {
    /// What its index counts.
    pub family: Family,
    /// Its index, flags, value and time.
    pub row: Row,
    /// Whether it is an event, and no present value.
    pub is_event: bool,
    /// Whether it came in a response that nobody asked for.
    pub is_unsolicited: bool,
}

/// What a row of this kind is of.
fn family_of(kind: Kind) -> Family
    ensures { result ≡ spec.family_of kind }
{
    match kind {
        Kind::Binary => Family::Binary,
        Kind::Counter => Family::Counter,
        Kind::Analog => Family::Analog,
    }
}

/// The row that an object's line says, if it says one.
fn row_of(is_event: bool, is_unsolicited: bool, line: &Line) -> Option<ShownRow>
    ensures { result ≡ spec.row_of is_event is_unsolicited line.now }
{
    let (family, row) = match *line {
        Line::Row(row) => (family_of(row.kind), row),
        Line::Output(row) => (Family::Output, row),
        Line::Setpoint(row) => (Family::Setpoint, row),
        _ => return None,
    };
    Some(ShownRow {
        family,
        row,
        is_event,
        is_unsolicited,
    })
}

/// The row that object k of a header is, if it is one.
fn row_at(is_unsolicited: bool, header: &Header<'_>, k: usize) -> Option<ShownRow>
    ensures { result ≡ spec.row_at is_unsolicited (head header.now) k }
{
    match object_line(header, k) {
        Some(line) => row_of(header.is_event(), is_unsolicited, &line),
        None => None,
    }
}

/// Appends the row that object k of a header is, if it is one.
fn push_row(
    is_unsolicited: bool,
    header: &Header<'_>,
    k: usize,
    out: &mut Vec<ShownRow>,
) -> Result<(), AllocError>
    ensures { OnOk result (out.new.items ≡ out.old.items ++ option_to_list (spec.row_at is_unsolicited (head header.now) k)) }
{
    match row_at(is_unsolicited, header, k) {
        Some(row) => {
            out.push(row)?;
            Ok(())
        }
        None => Ok(()),
    }
}

/// Appends the rows of a header, in order.
fn push_header(
    is_unsolicited: bool,
    header: &Header<'_>,
    out: &mut Vec<ShownRow>,
) -> Result<(), AllocError>
    ensures { OnOk result (out.new.items ≡ out.old.items ++ spec.header_rows is_unsolicited (head header.now)) }
{
    for k in 0..header.count() {
        push_row(is_unsolicited, header, k, out)?;
    }
    Ok(())
}

/// Appends the rows of these headers, in order.
fn push_headers(
    is_unsolicited: bool,
    headers: Headers<'_>,
    out: &mut Vec<ShownRow>,
) -> Result<(), AllocError>
    ensures { OnOk result (out.new.items ≡ out.old.items ++ spec.rows_of is_unsolicited headers.entry.headers) }
{
    for header in headers {
        push_header(is_unsolicited, &header, out)?;
    }
    Ok(())
}

/// Whether the response is one that nobody asked for.
fn is_unsolicited(function: Function) -> bool
    ensures { result ≡ spec.is_unsolicited function }
{
    matches!(function, Function::UnsolicitedResponse)
}

/// The rows of a response, all of them and in order. An error says that memory ran out.
pub(crate) fn rows_in(alloc: Global, response: &Response<'_>) -> Result<Vec<ShownRow>, AllocError>
    ensures { IfOk result (λ rows. rows.items ≡ spec.rows_in (answered response.now)) }
{
    let mut rows = Vec::new(alloc);
    push_headers(
        is_unsolicited(response.function),
        response.headers.after(0),
        &mut rows,
    )?;
    Ok(rows)
}
