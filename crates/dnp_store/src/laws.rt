//! Laws of the words of `specs/`: each function does nothing, and its contract is a law.

ghost use Rattle.std.specs.Prelude.{◌≡◌, ◌≢◌, ◌⊎◌, ℕ, List, Some, codes, find};
ghost use Rattle.sqlite.specs.Effect.{Database};
ghost use Rattle.sqlite.specs.Tree.{Trees};
ghost use Rattle.sqlite.specs.Table.{Table};
ghost use Rattle.sqlite_schema.specs.Names.{same_name};
ghost use Rattle.dnp_controls.specs.declared.book.Entry.{Entry};
ghost use Rattle.dnp_controls.specs.Book.{Ledger, IsSoundLedger as IsSoundBook};
ghost use Rattle.dnp_eventbuf.specs.Archive.{Archive};
ghost use Rattle.dnp_eventbuf.specs.Sound.{IsSoundBuffer};
ghost use Rattle.dnp_eventbuf.specs.EventBuffer.{EventBuffer};
ghost use Rattle.dnp_store.specs.Added.{AreMadeBy, KeepsTables, KeepsTablesBut, ListsTables, MakeAll, NoneNames, NonePoints, making_queue, making_second, making_tables};
ghost use Rattle.dnp_store.specs.declared.store_kind.StoreKind.{StoreKind};
ghost use Rattle.dnp_store.specs.BookTables.{HoldsBook};
ghost use Rattle.dnp_store.specs.JournalTables.{HoldsArchive};
ghost use Rattle.dnp_store.specs.QueueKept.{AreSound};
ghost use Rattle.dnp_store.specs.Refusals.{IsNumbered};
ghost use Rattle.dnp_store.specs.Showing.{HasEntries, HasEvents};
ghost use Rattle.dnp_store.specs.PairTables.{HoldsPair, Sides};
ghost use Rattle.dnp_store.specs.QueueTables.{HoldsBuffer};
ghost use Rattle.dnp_store.specs.Tables.{no_schema};
ghost use Rattle.dnp_store.specs.Undone.{Appends, Calls, Turns, Writes};

use sqlite::Alter;

/// A database holds one content: the lanes of a queue, the events of a journal, the entries of a book.
pub fn a_database_holds_one_content()
    ensures buffer { (db : Trees) (one other : EventBuffer) → IsSoundBuffer one → IsSoundBuffer other → HoldsBuffer db one → HoldsBuffer db other → one ≡ other }
    ensures sides { (db : Trees) (one other : Sides) → AreSound one → AreSound other → HoldsPair db one → HoldsPair db other → one ≡ other }
    ensures archive { (db : Trees) (one other : Archive) → HoldsArchive db one → HoldsArchive db other → one ≡ other }
    ensures ledger { (db : Trees) (one other : Ledger) → IsSoundBook one → IsSoundBook other → HoldsBook db one → HoldsBook db other → one ≡ other }
{}

/// What opens on what a crash left is what stood before the call, or what the call makes of it: that one of the two is held there is
/// the call's `either`, and that what opens is held there is the `found` of an open.
pub fn what_opens_is_before_or_after()
    ensures buffer { (db : Trees) (before after opened : EventBuffer) → IsSoundBuffer before → IsSoundBuffer after → IsSoundBuffer opened → HoldsBuffer db before ⊎ HoldsBuffer db after → HoldsBuffer db opened → (opened ≡ before) ⊎ (opened ≡ after) }
    ensures sides { (db : Trees) (before after opened : Sides) → AreSound before → AreSound after → AreSound opened → HoldsPair db before ⊎ HoldsPair db after → HoldsPair db opened → (opened ≡ before) ⊎ (opened ≡ after) }
    ensures archive { (db : Trees) (before after opened : Archive) → HoldsArchive db before ⊎ HoldsArchive db after → HoldsArchive db opened → (opened ≡ before) ⊎ (opened ≡ after) }
    ensures ledger { (db : Trees) (before after opened : Ledger) → IsSoundBook before → IsSoundBook after → IsSoundBook opened → HoldsBook db before ⊎ HoldsBook db after → HoldsBook db opened → (opened ≡ before) ⊎ (opened ≡ after) }
{}

/// What the store's own statements make of a database keeps the rows of each table that stood there. Those of a journal and a book, and
/// the first of a queue's, do so whatever stands beside; the last of a queue's changes `form`, and so nothing beside where no foreign
/// key names that. Those of a migration keep each table but `form` itself, where no foreign key points to it.
pub fn making_keeps_other_tables<S: Alter>()
    ensures tables { (kind : StoreKind) (before : Database) (trees : Trees) → AreMadeBy S.Store (making_tables kind) before trees → KeepsTables before trees }
    ensures queue { (first second : List ℕ) (before : Database) (trees : Trees) → NoneNames (codes "form") before.schema → AreMadeBy S.Store (making_queue first second) before trees → KeepsTables before trees }
    ensures second { (capacities : List ℕ) (before : Database) (form : Table) (trees : Trees) → find (λ t. same_name t.name (codes "form")) before.schema.tables ≡ Some form → NonePoints form.tree before.schema
        → AreMadeBy S.Store (making_second capacities) before trees → KeepsTablesBut form.tree before trees }
{}

/// They take no table away, whatever stands there.
pub fn making_lists_other_tables<S: Alter>()
    ensures tables { (kind : StoreKind) (before after : Database) → MakeAll S.Store (making_tables kind) before after → ListsTables before after }
    ensures queue { (first second : List ℕ) (before after : Database) → MakeAll S.Store (making_queue first second) before after → ListsTables before after }
    ensures second { (capacities : List ℕ) (before after : Database) → MakeAll S.Store (making_second capacities) before after → ListsTables before after }
{}

/// What a writing call made of lanes, of a journal or of a book no later calls undo: they lead back to what stood before only where it
/// changed nothing. So a step whose second call is refused after its first changed the store can't leave it as it was, as the
/// clauses on refusals want it.
pub fn no_call_undoes_another()
    ensures lanes { (count : ℕ) (before between after : EventBuffer) → Writes before between → Calls Writes count between after → after ≡ before → between ≡ before }
    ensures journal { (count : ℕ) (before between after : Archive) → Appends before between → Calls Appends count between after → after ≡ before → between ≡ before }
    ensures book { (count : ℕ) (before between after : Ledger) → Turns before between → Calls Turns count between after → after ≡ before → between ≡ before }
{}

/// A database without tables shows no number of a form, no events and no entries: so no store opens on one.
pub fn an_empty_database_shows_nothing<S: Alter>()
    ensures form { (n : ℕ) (db : Database) → IsNumbered S.Store n db → db.schema ≢ no_schema }
    ensures events { (count : ℕ) (db : Database) → HasEvents S.Store count db → db.schema ≢ no_schema }
    ensures entries { (entries : List Entry) (db : Database) → HasEntries S.Store entries db → db.schema ≢ no_schema }
{}
