//! The rows of a table of a database, by the ids under which they stand (SQLite's database file format: b-tree pages).

ghost use Rattle.std.specs.Prelude.{◌≡◌, IfOk, length};
ghost use Rattle.sqlite_pages.specs.PageMap.{IsUsableSize};
ghost use Rattle.sqlite_format.specs.declared.kind.Tree.TheVariants.{Table as TableTree};

use crate::beside::Beside;
use crate::fault::ReadFault;
use crate::snapshot::Snapshot;
use sqlite_format::cell::{Key, payload_of, toggle_sign};
use sqlite_format::{Node, Tree};
use std::alloc::Global;

/// How many pages lie one above the other at most: a tree of 20 levels has more rows than there are ids.
const DEPTH: usize = 20;

/// The least and the most octets of a page that hold something.
const LEAST: usize = 480;

const MOST: usize = 65_536;

/// A row: its id, and its record, as much of it as stands in its page.
#[derive(Drop)]
pub(crate) struct Record {
    /// The id.
    pub id: u64,
    /// The record.
    pub octets: Vec<u8>,
}

/// A page of rows.
#[derive(Drop)]
struct Leaf {
    /// The number of the page.
    number: u32,
    /// Its octets.
    page: Vec<u8>,
    /// The key over which all of its rows stand.
    low: Key,
    /// The key up to which it has all rows; none where no row comes after it.
    bound: Option<Key>,
}

/// The page below in which a row stands.
#[derive(Clone, Copy)]
struct Way {
    /// The number of the page.
    child: u32,
    /// The key over which all of its rows stand.
    low: Key,
    /// The key up to which it has all rows; none where it is the last page.
    bound: Option<Key>,
}

/// The page as one of a table.
fn node_of(number: u32, page: &[u8]) -> Result<Node<'_>, ReadFault>
    ensures tree { IfOk result (λ node. node.kind.tree ≡ TableTree) }
    ensures page { IfOk result (λ node. node.bytes.now ≡ page.now) }
    ensures size { IfOk result (λ node. IsUsableSize (length page.now)) }
{
    if page.len() < LEAST || page.len() > MOST {
        return Err(ReadFault::OtherForm);
    }
    // (the first page begins with the header of the file)
    let header = if number == 1 { 100 } else { 0 };
    match Node::parse(page, header) {
        Some(node) if node.kind.tree == Tree::Table => Ok(node),
        _ => Err(ReadFault::OtherForm),
    }
}

/// The page below in which the first row over a key may stand. Keys have to rise from over `low` on.
fn child_over(node: &Node<'_>, low: Key, after: Key) -> Result<Way, ReadFault>
    requires { node.now.kind.tree ≡ TableTree }
{
    let mut last = low;
    let mut way = None;
    for place in 0..node.count {
        let (Some(key), Some(child)) = (node.key(place), node.child(place)) else {
            return Err(ReadFault::OtherForm);
        };
        if key <= last {
            return Err(ReadFault::OtherForm);
        }
        if key > after && way.is_none() {
            way = Some(Way {
                child,
                low: last,
                bound: Some(key),
            });
        }
        last = key;
    }
    Ok(way.unwrap_or(Way {
        child: node.right(),
        low: last,
        bound: None,
    }))
}

/// The page of rows in which the first row over a key may stand.
fn leaf_over<B: Beside>(
    alloc: Global,
    beside: &mut B,
    snapshot: &Snapshot,
    root: u32,
    after: Key,
) -> Result<Leaf, ReadFault> {
    let mut number = root;
    // (ids begin with 1)
    let mut low = toggle_sign(0);
    let mut bound = None;
    for _ in 0..DEPTH {
        let page = snapshot.page(alloc, beside, number)?;
        let node = node_of(number, &page)?;
        if node.kind.leaf {
            return Ok(Leaf {
                number,
                page,
                low,
                bound,
            });
        }
        let way = child_over(&node, low, after)?;
        number = way.child;
        low = way.low;
        bound = way.bound.or(bound);
    }
    Err(ReadFault::OtherForm)
}

/// Whether a key may stand after another one, in a page that has the rows up to a bound, if there is one.
fn is_next(key: Key, last: Key, bound: Option<Key>) -> bool {
    match bound {
        Some(bound) => last < key && key <= bound,
        None => last < key,
    }
}

/// Appends the rows of a page over a key, up to so many in all. Keys have to rise within what the pages above say of it.
fn append_from(
    alloc: Global,
    leaf: &Leaf,
    after: Key,
    most: usize,
    records: &mut Vec<Record>,
) -> Result<(), ReadFault> {
    let node = node_of(leaf.number, &leaf.page)?;
    let mut last = leaf.low;
    for place in 0..node.count {
        let (Some(key), Some(body)) = (node.key(place), node.body(place)) else {
            return Err(ReadFault::OtherForm);
        };
        if !is_next(key, last, leaf.bound) {
            return Err(ReadFault::OtherForm);
        }
        last = key;
        if key > after && records.len() < most {
            let record = record_in(alloc, key, body, leaf.page.len())?;
            if records.push(record).is_err() {
                return Err(ReadFault::Memory);
            }
        }
    }
    Ok(())
}

/// The row of a cell's body, in a page of so many octets.
fn record_in(alloc: Global, key: Key, body: &[u8], usable: usize) -> Result<Record, ReadFault>
    requires { IsUsableSize usable }
{
    match payload_of(Tree::Table, usable, body) {
        Some(payload) => {
            let octets = Vec::from_slice(alloc, payload.local)?;
            let id = toggle_sign(key);
            Ok(Record { id, octets })
        }
        None => Err(ReadFault::OtherForm),
    }
}

/// The rows of the table that begins in a page, over an id, in order, at most so many.
pub(crate) fn records_over<B: Beside>(
    alloc: Global,
    beside: &mut B,
    snapshot: &Snapshot,
    root: u32,
    from: u64,
    most: usize,
) -> Result<Vec<Record>, ReadFault> {
    let mut records = Vec::new(alloc);
    let mut after = toggle_sign(from);
    for _ in 0..u64::MAX {
        let leaf = leaf_over(alloc, beside, snapshot, root, after)?;
        append_from(alloc, &leaf, after, most, &mut records)?;
        match leaf.bound {
            Some(bound) if bound > after && records.len() < most => after = bound,
            _ => break,
        }
    }
    Ok(records)
}
