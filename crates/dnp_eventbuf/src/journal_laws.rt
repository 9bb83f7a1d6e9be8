//! Laws of the words of journals: each function does nothing, and its contract is a law.
ghost use Rattle.std.specs.Prelude.{◌≡◌, ℕ, false, List, [], ◌++◌, length, map};
ghost use Rattle.dnp_objects.specs.declared.row.Row.{Row};
ghost use Rattle.dnp_eventbuf.specs.Archive.{Archive, IsSoundArchive, passes_limit, rows_over, with_events};
ghost use Rattle.dnp_eventbuf.specs.EventBuffer.{row_of};

/// An append puts the events, all and in order, after the rows that were there.
/// Appended in two calls they stand as in one.
pub fn a_journal_keeps_events_in_order()
    ensures rows { (a : Archive) (events : List Row) → map row_of (with_events a events).rows ≡ map row_of a.rows ++ events }
    ensures two { (a : Archive) (first second : List Row)
        → with_events a (first ++ second) ≡ with_events (with_events a first) second }
{}

/// An empty journal is sound, and an append that passes no limit keeps a journal sound.
pub fn a_journal_stays_sound()
    ensures made { IsSoundArchive (record { rows = []; last_id = 0 }) }
    ensures appended { (a : Archive) (events : List Row) → IsSoundArchive a → passes_limit a events ≡ false → IsSoundArchive (with_events a events) }
{}

/// The rows over id 0, as many as there are, are all.
pub fn a_journal_is_read_from_0()
    ensures { (a : Archive) → IsSoundArchive a → rows_over a 0 (length a.rows) ≡ a.rows }
{}
