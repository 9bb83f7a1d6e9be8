//! Rows that left the lanes, or that a sink dropped.

ghost use Rattle.std.specs.Prelude.{◌≡◌, ◌≤◌, ◌<◌, [], OnOk, OnErr, vec_capacity, vec_len};

use dnp_objects::Row;
use std::alloc::{AllocError, Global};
use std::marker::Model;

/// Rows, in order. A clause sees them as their list.
#[derive(Debug)]
pub struct Rows {
    pub(crate) items: Vec<Row>,
}

impl Model for Rows {
    ghost use Rattle.std.specs.Prelude.{List};
    ghost use Rattle.dnp_objects.specs.declared.row.Row.{Row};

    ghost Value = { List Row };

    ghost view = { λ rows. rows.items.items };
}

impl Drop for Rows {
    /// One call for whoever lets it go: its parts are looked at here alone.
    fn drop(self) {
        let Rows { items: _ } = self;
    }
}

impl Rows {
    ghost use Rattle.std.specs.Prelude.{◌≡◌, []};

    /// No rows.
    pub fn new(alloc: Global) -> Rows
        ensures { result ≡ [] }
    {
        Rows {
            items: Vec::new(alloc),
        }
    }

    /// These rows.
    pub fn of(items: Vec<Row>) -> Rows
        ensures { result ≡ items.items }
    {
        Rows { items }
    }

    /// Lets all rows go. The memory that they took is kept for others.
    pub fn clear(&mut self)
        ensures { self.new ≡ [] }
    {
        let_go(&mut self.items);
    }

    /// The rows, in order.
    pub fn as_slice(&self) -> &[Row]
        ensures { result.now ≡ self.now }
    {
        self.items.as_slice()
    }
}

/// Lets all rows go, and keeps the memory that they took.
fn let_go<T: Drop>(rows: &mut Vec<T>)
    ensures empty { rows.new.items ≡ [] }
    ensures room { vec_capacity rows.new ≡ vec_capacity rows.old }
{
    rows.clear();
}

/// Empties the rows, with room for so many. Memory is asked for only where that room is missing, and for no more, and
/// the rows stay where it is refused.
pub(crate) fn empty_for<T: Drop>(
    alloc: Global,
    rows: &mut Vec<T>,
    count: usize,
) -> Result<(), AllocError>
    ensures empty { OnOk result (rows.new.items ≡ []) }
    ensures len { OnOk result (vec_len rows.new ≡ 0) }
    ensures room { OnOk result (count ≤ vec_capacity rows.new) }
    ensures kept { OnErr result (rows.new.items ≡ rows.old.items) }
    ensures keeps_room { vec_capacity rows.old ≤ vec_capacity rows.new }
    ensures just { OnOk result (vec_capacity rows.old < count → vec_capacity rows.new ≡ count) }
    ensures asks { OnErr result (vec_capacity rows.old < count) }
{
    if rows.capacity() < count {
        *rows = Vec::with_capacity(alloc, count)?;
    } else {
        let_go(rows);
    }
    Ok(())
}
