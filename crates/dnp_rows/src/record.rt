//! The values of a record, by SQLite's record format.

use crate::cells::Cell;
use crate::fault::ReadFault;
use sqlite_record::fields::Fields;
use sqlite_value::value::ValueRef;
use std::alloc::Global;

/// The values of a row, all of which are whole numbers or NULL.
pub(crate) fn cells_in(alloc: Global, record: &[u8]) -> Result<Vec<Cell>, ReadFault> {
    let mut cells = Vec::new(alloc);
    for value in Fields::new(record) {
        let cell = match value {
            ValueRef::Null => None,
            ValueRef::Int(number) => Some(number),
            _ => return Err(ReadFault::OtherForm),
        };
        if cells.push(cell).is_err() {
            return Err(ReadFault::Memory);
        }
    }
    Ok(cells)
}

/// A table, by the row of the schema that lists it: the page in which it begins, where it has this name.
pub(crate) fn root_in(record: &[u8], name: &[u8]) -> Option<u32> {
    let mut values = Fields::new(record);
    let ValueRef::Text(kind) = values.next()? else {
        return None;
    };
    let ValueRef::Text(own) = values.next()? else {
        return None;
    };
    let _of = values.next()?;
    let ValueRef::Int(root) = values.next()? else {
        return None;
    };
    if kind == b"table".as_slice() && own == name {
        u32::try_from(root).ok()
    } else {
        None
    }
}

/// The last number that a table gave, by the row that counts them, where that is of the table of this name.
pub(crate) fn count_in(record: &[u8], name: &[u8]) -> Option<u64> {
    let mut values = Fields::new(record);
    let ValueRef::Text(own) = values.next()? else {
        return None;
    };
    let ValueRef::Int(last) = values.next()? else {
        return None;
    };
    if own == name {
        u64::try_from(last).ok()
    } else {
        None
    }
}
