//! The rows of a journal's table, a page at a time, so that what an open needs of memory doesn't grow with the
//! journal.

ghost use Rattle.std.specs.Prelude.{◌≡◌, ◌⊎◌, ◌≤◌, ◌+◌, ⊤, ℕ, IsTrue, Err, OnOk, IfErr, IfOk, List, [], length, pos, slice_index_or};
ghost use Rattle.sqlite.specs.declared.types.Value.TheVariants.{Int};
ghost use Rattle.sqlite.specs.Held.{state};
ghost use Rattle.sqlite.specs.Order.{column};
ghost use Rattle.sqlite.specs.State.{HasCleanDisk};
ghost use Rattle.dnp_objects.specs.declared.limits.TheConstants as limits;
ghost use Rattle.dnp_eventbuf.specs.Archive.{Archive};
ghost use Rattle.dnp_store.specs.JournalTables.{HoldsArchive};
ghost use Rattle.dnp_eventbuf.specs.declared.numbered.Numbered.{Numbered};
ghost use Rattle.dnp_store.specs.Showing.{AreShown, HasEvents};
ghost use Rattle.dnp_store.specs.Texts.{journal_count};
ghost use Rattle.dnp_store.specs.steps.Inside.{IsInside, IsStep};
ghost use Rattle.dnp_store.specs.steps.JournalShown.{AreInOrder, Gathers, HasCount, LogsMany, ShowEvents};
ghost use Rattle.dnp_store.specs.steps.JournalPages.{AreSeen, HoldsStorable, IsPage, ShowFirst, ShowsNumber, ShowsPage};
ghost use Rattle.dnp_store.specs.steps.Stores.{Denies, Reads};

use crate::decoding::whole;
use crate::fault::Unread;
use crate::journal_decoding::{events_in, last_in_order};
use crate::store_kind::StoreKind;
use crate::stores::list;
use sqlite::{Alter, Error, Row, Transaction, params};
use std::alloc::Global;

/// How many rows a page has at most.
const PAGE: u32 = 1000;

/// The rows that were looked at so far.
#[derive(Clone, Copy)]
pub(crate) struct Gathered {
    /// The id of the last of them, or 0.
    pub(crate) last: u64,
    /// How many they are.
    pub(crate) count: u64,
}

/// The first rows of `journal` with ids over a number, by their ids.
fn read_page<S: Alter>(tx: &mut Transaction<'_, S>, from: u64) -> Result<Vec<Row>, Error>
    requires inside { IsInside S.Store tx.old.conn }
    requires from { from ≤ limits.MAX_ID }
    ensures step { IsStep S.Store tx.old.conn tx.new.conn result }
    ensures open { HasCleanDisk (state S.Store tx.new.conn.now) → OnOk result (IsTrue (state S.Store tx.old.conn.now).is_open) }
    ensures read { HasCleanDisk (state S.Store tx.new.conn.now) → IfOk result (λ rows. Reads StoreKind.Journal (state S.Store tx.old.conn.now) (state S.Store tx.new.conn.now) (λ db. (events : List Numbered) (last count : ℕ)
        → ShowEvents rows.items events → AreInOrder from last events → from ≤ last → Gathers (db 1) from count → Gathers (db 1) last (count + length events))) }
    ensures shown { HasCleanDisk (state S.Store tx.new.conn.now) → IfOk result (λ rows. Reads StoreKind.Journal (state S.Store tx.old.conn.now) (state S.Store tx.new.conn.now)
        (λ db. (a : Archive) → HoldsArchive db a → ShowFirst rows.items a from)) }
    ensures same { HasCleanDisk (state S.Store tx.new.conn.now) → OnOk result ((state S.Store tx.new.conn.now).now ≡ (state S.Store tx.old.conn.now).now) }
    ensures denies { HasCleanDisk (state S.Store tx.new.conn.now) → IfErr result (λ e. Denies StoreKind.Journal (state S.Store tx.old.conn.now) (Unread.Failed e) (λ _. ⊤)) }
{
    let from = from as i64;
    let most = PAGE;
    tx.query_all(
        "SELECT id, kind, point, flags, value, time FROM journal WHERE id > ?1 ORDER BY id LIMIT ?2",
        params![from, most],
    )
}

/// The rows that were looked at, with these, which come after them.
fn with_page(alloc: Global, rows: &[Row], so_far: Gathered) -> Result<Gathered, Unread>
    requires range { (so_far.last ≤ limits.MAX_ID) × (so_far.count ≤ so_far.last) }
    ensures range { IfOk result (λ more. (more.last ≤ limits.MAX_ID) × (more.count ≤ more.last)) }
    ensures shown { IfOk result (λ more. ShowsPage rows.now so_far.last so_far.count more.last more.count) }
    ensures named { IfErr result (λ unread. (unread ≡ Unread.Form) ⊎ (unread ≡ Unread.Memory)) }
    ensures wrong { result ≡ Err Unread.Form → IsPage rows.now so_far.last → ⊥ }
{
    let events = events_in(alloc, rows)?;
    let Some(last) = last_in_order(&events, so_far.last) else {
        return Err(Unread::Form);
    };
    let count = so_far.count + events.len() as u64;
    Ok(Gathered { last, count })
}

/// The rows that were looked at, with those of the next page, which is empty where none is left.
fn read_more<S: Alter>(
    tx: &mut Transaction<'_, S>,
    alloc: Global,
    so_far: Gathered,
) -> Result<Gathered, Unread>
    requires inside { IsInside S.Store tx.old.conn }
    requires range { (so_far.last ≤ limits.MAX_ID) × (so_far.count ≤ so_far.last) }
    ensures step { IsStep S.Store tx.old.conn tx.new.conn result }
    ensures open { HasCleanDisk (state S.Store tx.new.conn.now) → OnOk result (IsTrue (state S.Store tx.old.conn.now).is_open) }
    ensures range { IfOk result (λ more. (more.last ≤ limits.MAX_ID) × (more.count ≤ more.last)) }
    ensures grows { IfOk result (λ more. so_far.count ≤ more.count) }
    ensures read { HasCleanDisk (state S.Store tx.new.conn.now) → IfOk result (λ more. Reads StoreKind.Journal (state S.Store tx.old.conn.now) (state S.Store tx.new.conn.now)
        (λ db. Gathers (db 1) so_far.last so_far.count → Gathers (db 1) more.last more.count)) }
    ensures seen { HasCleanDisk (state S.Store tx.new.conn.now) → IfOk result (λ more. Reads StoreKind.Journal (state S.Store tx.old.conn.now) (state S.Store tx.new.conn.now)
        (λ db. (a : Archive) → HoldsArchive db a → AreSeen a so_far.last so_far.count → AreSeen a more.last more.count)) }
    ensures end { HasCleanDisk (state S.Store tx.new.conn.now) → IfOk result (λ more. Reads StoreKind.Journal (state S.Store tx.old.conn.now) (state S.Store tx.new.conn.now)
        (λ db. (a : Archive) → HoldsArchive db a → AreSeen a so_far.last so_far.count → more.count ≡ so_far.count → so_far.count ≡ length a.rows)) }
    ensures same { HasCleanDisk (state S.Store tx.new.conn.now) → OnOk result ((state S.Store tx.new.conn.now).now ≡ (state S.Store tx.old.conn.now).now) }
    ensures denies { HasCleanDisk (state S.Store tx.new.conn.now) → IfErr result (λ unread. Denies StoreKind.Journal (state S.Store tx.old.conn.now) unread HoldsStorable) }
{
    let rows = read_page(tx, so_far.last)?;
    with_page(alloc, &rows, so_far)
}

/// What `SELECT count(*)` shows of `journal`.
fn read_count<S: Alter>(tx: &mut Transaction<'_, S>) -> Result<Vec<Row>, Error>
    requires inside { IsInside S.Store tx.old.conn }
    ensures step { IsStep S.Store tx.old.conn tx.new.conn result }
    ensures open { HasCleanDisk (state S.Store tx.new.conn.now) → OnOk result (IsTrue (state S.Store tx.old.conn.now).is_open) }
    ensures read { HasCleanDisk (state S.Store tx.new.conn.now) → IfOk result (λ rows. Reads StoreKind.Journal (state S.Store tx.old.conn.now) (state S.Store tx.new.conn.now)
        (λ db. (n : ℕ) → column (slice_index_or rows.items 0 []) 0 ≡ Int (pos n) → HasCount (db 1) n)) }
    ensures shown { HasCleanDisk (state S.Store tx.new.conn.now) → IfOk result (λ rows. Reads StoreKind.Journal (state S.Store tx.old.conn.now) (state S.Store tx.new.conn.now)
        (λ db. length (db 1) ≤ limits.MAX_ID → ShowsNumber rows.items (length (db 1)))) }
    ensures answered { HasCleanDisk (state S.Store tx.new.conn.now) → IfOk result (λ rows. AreShown S.Store journal_count (state S.Store tx.old.conn.now).now rows.items) }
    ensures denies { HasCleanDisk (state S.Store tx.new.conn.now) → IfErr result (λ e. Denies StoreKind.Journal (state S.Store tx.old.conn.now) (Unread.Failed e) (λ _. ⊤)) }
{
    list(tx, "SELECT count(*) FROM journal")
}

/// Whether the only row shows this number.
fn shows_count(rows: &[Row], n: u64) -> bool
    ensures shown { IsTrue result → column (slice_index_or rows.now 0 []) 0 ≡ Int (pos n) }
    ensures found { length rows.now ≡ 1 → column (slice_index_or rows.now 0 []) 0 ≡ Int (pos n) → IsTrue result }
{
    rows.len() == 1 && whole(&rows[0], 0) == Some(n)
}

/// What was found, where the only row shows how many they are.
fn if_counted(rows: &[Row], found: Gathered) -> Result<Gathered, Unread>
    ensures same { IfOk result (λ counted. counted ≡ found) }
    ensures shown { OnOk result (column (slice_index_or rows.now 0 []) 0 ≡ Int (pos found.count)) }
    ensures wrong { IfErr result (λ _. ShowsNumber rows.now found.count → ⊥) }
{
    if shows_count(rows, found.count) {
        Ok(found)
    } else {
        Err(Unread::Form)
    }
}

/// Looks at all rows: how many they are, and the greatest id.
fn gather<S: Alter>(tx: &mut Transaction<'_, S>, alloc: Global) -> Result<Gathered, Unread>
    requires inside { IsInside S.Store tx.old.conn }
    ensures step { IsStep S.Store tx.old.conn tx.new.conn result }
    ensures range { IfOk result (λ found. (found.last ≤ limits.MAX_ID) × (found.count ≤ found.last)) }
    ensures read { HasCleanDisk (state S.Store tx.new.conn.now) → IfOk result (λ found. Reads StoreKind.Journal (state S.Store tx.old.conn.now) (state S.Store tx.new.conn.now)
        (λ db. Gathers (db 1) found.last found.count)) }
    ensures all { HasCleanDisk (state S.Store tx.new.conn.now) → IfOk result (λ found. Reads StoreKind.Journal (state S.Store tx.old.conn.now) (state S.Store tx.new.conn.now)
        (λ db. (a : Archive) → HoldsArchive db a → found.count ≡ length a.rows)) }
    ensures same { HasCleanDisk (state S.Store tx.new.conn.now) → OnOk result ((state S.Store tx.new.conn.now).now ≡ (state S.Store tx.old.conn.now).now) }
    ensures denies { HasCleanDisk (state S.Store tx.new.conn.now) → IfErr result (λ unread. Denies StoreKind.Journal (state S.Store tx.old.conn.now) unread HoldsStorable) }
{
    let mut so_far = Gathered { last: 0, count: 0 };
    'pages: loop {
        let more = read_more(tx, alloc, so_far)?;
        if more.count == so_far.count {
            return Ok(so_far);
        }
        so_far = more;
    }
}

/// Looks at the rows of `journal`, each once: how many they are, and the greatest id.
pub(crate) fn read_logged<S: Alter>(
    tx: &mut Transaction<'_, S>,
    alloc: Global,
) -> Result<Gathered, Unread>
    requires inside { IsInside S.Store tx.old.conn }
    ensures step { IsStep S.Store tx.old.conn tx.new.conn result }
    ensures open { HasCleanDisk (state S.Store tx.new.conn.now) → OnOk result (IsTrue (state S.Store tx.old.conn.now).is_open) }
    ensures range { IfOk result (λ found. (found.last ≤ limits.MAX_ID) × (found.count ≤ found.last)) }
    ensures read { HasCleanDisk (state S.Store tx.new.conn.now) → IfOk result (λ found. Reads StoreKind.Journal (state S.Store tx.old.conn.now) (state S.Store tx.new.conn.now)
        (λ db. (last : ℕ) → found.last ≤ last → LogsMany db found.count last)) }
    ensures top { HasCleanDisk (state S.Store tx.new.conn.now) → IfOk result (λ found. Reads StoreKind.Journal (state S.Store tx.old.conn.now) (state S.Store tx.new.conn.now)
        (λ db. (a : Archive) → HoldsArchive db a → found.last ≤ a.last_id)) }
    ensures events { HasCleanDisk (state S.Store tx.new.conn.now) → IfOk result (λ found. HasEvents S.Store found.count (state S.Store tx.old.conn.now).now) }
    ensures denies { HasCleanDisk (state S.Store tx.new.conn.now) → IfErr result (λ unread. Denies StoreKind.Journal (state S.Store tx.old.conn.now) unread HoldsStorable) }
{
    let found = gather(tx, alloc)?;
    let counted = read_count(tx)?;
    if_counted(&counted, found)
}
