//! The rows of a store in the files of a database.

ghost use Rattle.std.specs.Borrow.{Lends, sem};
ghost use Rattle.std.specs.Prelude.{◌≡◌};
ghost use Rattle.dnp_rows.specs.Stores.{stored_seen, with_files};
ghost use Rattle.dnp_rows.specs.contracts.stored.Stored.{the_row};

use crate::beside::Beside;
use crate::cells::item_of;
use crate::fault::ReadFault;
use crate::item::{Item, Store};
use crate::record::{cells_in, count_in, root_in};
use crate::snapshot::Snapshot;
use crate::source::Source;
use crate::table::{Record, records_over};
use dnp_objects::MAX_ID;
use std::alloc::Global;

/// How often the files are read at most while they change.
const TRIES: usize = 50;

/// How many rows a small table has at most: the one that lists the tables, and the one that counts their ids.
const FEW: usize = 1_000;

/// The rows of a store, read beside the program that has its files.
pub struct Stored<B> {
    /// The files.
    beside: B,
    /// Which store it is.
    store: Store,
    /// For which centre the rows of a queue are, 1 or 2.
    centre: u8,
    /// The database as it stood when it was read last.
    snapshot: Option<Snapshot>,
}

impl<B: Drop> Drop for Stored<B> {
    /// One call for whoever lets it go: its parts are looked at here alone.
    fn drop(self) {
        let Stored {
            beside: _,
            store: _,
            centre: _,
            snapshot: _,
        } = self;
    }
}

/// What a table with the rows of a store is called.
fn table_name(store: Store, centre: u8) -> &'static [u8] {
    match store {
        Store::Journal => b"journal",
        Store::Queue if centre == 2 => b"queue_b",
        Store::Queue => b"queue",
        Store::Controls => b"control",
    }
}

/// The row of a store that a record says.
fn item_in(alloc: Global, store: Store, centre: u8, record: &Record) -> Result<Item, ReadFault> {
    let cells = cells_in(alloc, &record.octets)?;
    if record.id == 0 || record.id > MAX_ID {
        return Err(ReadFault::OtherForm);
    }
    match item_of(store, centre, record.id, &cells) {
        Some(item) => Ok(item),
        None => Err(ReadFault::OtherForm),
    }
}

/// The page in which the table of this name begins, if there is one.
fn root_of<B: Beside>(
    alloc: Global,
    beside: &mut B,
    snapshot: &Snapshot,
    name: &[u8],
) -> Result<Option<u32>, ReadFault> {
    for record in &records_over(alloc, beside, snapshot, 1, 0, FEW)? {
        let root = root_in(&record.octets, name);
        if root.is_some() {
            return Ok(root);
        }
    }
    Ok(None)
}

/// The number of the form of the store in a database, if it has one.
fn form_of<B: Beside>(
    alloc: Global,
    beside: &mut B,
    snapshot: &Snapshot,
) -> Result<Option<i64>, ReadFault> {
    let Some(root) = root_of(alloc, beside, snapshot, b"form")? else {
        return Ok(None);
    };
    let records = records_over(alloc, beside, snapshot, root, 0, 1)?;
    let Some(record) = records.first() else {
        return Ok(None);
    };
    let cells = cells_in(alloc, &record.octets)?;
    Ok(cells.first().copied().unwrap_or(None))
}

/// The last id that the table of this name gave: none was given where it isn't counted.
fn last_given<B: Beside>(
    alloc: Global,
    beside: &mut B,
    snapshot: &Snapshot,
    name: &[u8],
) -> Result<u64, ReadFault> {
    let Some(root) = root_of(alloc, beside, snapshot, b"sqlite_sequence")? else {
        return Ok(0);
    };
    for record in &records_over(alloc, beside, snapshot, root, 0, FEW)? {
        if let Some(last) = count_in(&record.octets, name) {
            return Ok(last);
        }
    }
    Ok(0)
}

impl<B: Beside> Stored<B> {
    /// The rows of a store in these files; of a queue those for this centre, 1 or 2.
    pub fn new(beside: B, store: Store, centre: u8) -> Self
        ensures files { (stored_seen result).files ≡ beside }
        ensures store { (stored_seen result).store ≡ store }
        ensures centre { (stored_seen result).centre ≡ centre }
    {
        Stored {
            beside,
            store,
            centre,
            snapshot: None,
        }
    }

    /// The files, in whose place the caller may put others: the same database, opened again.
    pub fn beside_mut(&mut self) -> &mut B
        ensures* writes_back { sem 𝓛 (Lends (the_row B.row) B.row self.entry result (with_files self.old)) }
        ensures value { result.now ≡ (stored_seen self.old).files }
    {
        &mut self.beside
    }

    /// Why the database holds no such store, by the number of its form.
    fn judge(&self, form: Option<i64>) -> Result<(), ReadFault> {
        match (self.store, form) {
            (Store::Queue, Some(2)) | (Store::Journal | Store::Controls, Some(1)) => Ok(()),
            (Store::Queue, Some(1)) => Err(ReadFault::OldForm),
            _ => Err(ReadFault::OtherForm),
        }
    }

    /// The rows over an id of a database as it stood.
    fn items_of(
        &mut self,
        alloc: Global,
        snapshot: &Snapshot,
        from: u64,
        most: usize,
    ) -> Result<Vec<Item>, ReadFault> {
        let name = table_name(self.store, self.centre);
        let form = form_of(alloc, &mut self.beside, snapshot)?;
        let Some(root) = root_of(alloc, &mut self.beside, snapshot, name)? else {
            return Err(self.without(alloc, snapshot, form));
        };
        self.judge(form)?;
        let mut items = Vec::new(alloc);
        for record in &records_over(alloc, &mut self.beside, snapshot, root, from, most)? {
            let item = item_in(alloc, self.store, self.centre, record)?;
            if items.push(item).is_err() {
                return Err(ReadFault::Memory);
            }
        }
        if items.is_empty() && from > 0 {
            let last = last_given(alloc, &mut self.beside, snapshot, name)?;
            if last < from {
                return Err(ReadFault::Behind(last));
            }
        }
        Ok(items)
    }
}

impl<B: Beside> Stored<B> {
    /// Why the rows' table is missing.
    fn without(&mut self, alloc: Global, snapshot: &Snapshot, form: Option<i64>) -> ReadFault {
        match records_over(alloc, &mut self.beside, snapshot, 1, 0, 1) {
            Ok(tables) if tables.is_empty() => ReadFault::NotMade,
            Ok(_) => match self.judge(form) {
                Err(fault) => fault,
                Ok(()) => ReadFault::OtherForm,
            },
            Err(fault) => fault,
        }
    }

    /// The database as it stands: as it was read last, where nothing was committed since.
    fn current(&mut self, alloc: Global) -> Result<Snapshot, ReadFault> {
        if let Some(snapshot) = self.snapshot.take()
            && snapshot.stands(alloc, &mut self.beside)?
        {
            return Ok(snapshot);
        }
        Snapshot::read(alloc, &mut self.beside)
    }
}

/// What is read while the database is written may be of no one moment: so it is looked at again whether the database stands
/// as it stood before the read, and else all is read again.
impl<B: Beside> Source for Stored<B> {
    ghost use Rattle.std.specs.Prelude.{[]};

    // No clause says what a file gives.
    ghost items = { λ _. [] };

    ghost honest = { λ _. ⊥ };

    fn items_over(
        &mut self,
        alloc: Global,
        from: u64,
        most: usize,
    ) -> Result<Vec<Item>, ReadFault> {
        let mut fault = ReadFault::Busy;
        for _ in 0..TRIES {
            let snapshot = match self.current(alloc) {
                Ok(snapshot) => snapshot,
                Err(ReadFault::OtherForm) => {
                    fault = ReadFault::OtherForm;
                    continue;
                }
                Err(other) => return Err(other),
            };
            let items = self.items_of(alloc, &snapshot, from, most);
            if snapshot.stands(alloc, &mut self.beside)? {
                self.snapshot = Some(snapshot);
                return items;
            }
            fault = ReadFault::Busy;
        }
        Err(fault)
    }
}
