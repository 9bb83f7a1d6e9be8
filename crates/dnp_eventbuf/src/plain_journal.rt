ghost use Rattle.std.specs.Prelude.{◌≡◌, ◌≢◌, ◌+◌, ◌<◌, ◌≤◌, ◌^◌, IfOk, OnErr, [], length, drop, take, filter, nat_lt};
ghost use Rattle.dnp_eventbuf.specs.Archive.{numbered, passes_limit, with_events};

use crate::journal::JournalStore;
use crate::nine::memory;
use crate::numbered::Numbered;
use crate::sink::Sink;
use dnp_objects::{Row, StoreFault};
use std::alloc::{AllocError, Global};
use std::marker::Model;

/// A journal in memory, whose ids are 1, 2, 3 and so on.
#[derive(Debug)]
pub struct PlainJournal {
    // The row with the id 1, that with the id 2, and so on.
    rows: Vec<Row>,
}

impl Model for PlainJournal {
    ghost use Rattle.std.specs.Prelude.{length};
    ghost use Rattle.dnp_eventbuf.specs.Archive.{Archive, IsSoundArchive, numbered};

    ghost Value = { Archive };

    ghost view = { λ j. record { rows = numbered 0 j.rows.items; last_id = length j.rows.items } };

    ghost invariant = { λ j. IsSoundArchive (record { rows = numbered 0 j.rows.items; last_id = length j.rows.items }) };
}

impl Drop for PlainJournal {
    /// One call for whoever lets it go: its parts are looked at here alone.
    fn drop(self) {
        let PlainJournal { rows: _ } = self;
    }
}

impl PlainJournal {
    /// A journal without rows.
    pub fn new(alloc: Global) -> Self
        ensures { result ≡ record { rows = []; last_id = 0 } }
    {
        PlainJournal {
            rows: Vec::new(alloc),
        }
    }
}

/// The rows whose ids are over `from`, where ids are places counted from 1.
fn over(rows: &[Row], from: u64) -> &[Row]
    ensures { result.now ≡ drop from rows.now }
{
    if from < rows.len() as u64 {
        rows.split_at(from as usize).1
    } else {
        &[]
    }
}

/// The rows under ids that go on from `last`.
fn number(alloc: Global, last: u64, rows: &[Row]) -> Result<Vec<Numbered>, AllocError>
    requires { last + length rows.now < 2 ^ 64 }
    ensures rows { IfOk result (λ out. out.items ≡ numbered last rows.now) }
    ensures memory { OnErr result (rows.now ≢ []) }
{
    let mut out = Vec::with_capacity(alloc, rows.len())?;
    let mut id = last;
    for row in rows {
        id += 1;
        out.push(Numbered { id, row: *row })?;
    }
    Ok(out)
}

/// The first rows with an id over `from`, at most `most`.
fn first_over(
    alloc: Global,
    rows: &[Row],
    from: u64,
    most: usize,
) -> Result<Vec<Numbered>, AllocError>
    requires { length rows.now ≤ 2 ^ 62 }
    ensures rows { IfOk result (λ out. out.items ≡ take most (filter (λ x. nat_lt from x.id) (numbered 0 rows.now))) }
    ensures memory { OnErr result (take most (filter (λ x. nat_lt from x.id) (numbered 0 rows.now)) ≢ []) }
{
    let rest = over(rows, from);
    let count = most.min(rest.len());
    number(alloc, from, rest.split_at(count).0)
}

impl Sink for PlainJournal {
    ghost use Rattle.std.specs.Prelude.{⊤, false, refl};

    ghost takes = { λ old events _ dropped new. (new ≡ with_events old events) × (dropped ≡ []) };

    ghost keeps = { λ old new. new ≡ old };

    ghost exhausts = { passes_limit };

    ghost honest = { λ _. ⊤ };

    ghost is_stopped = { λ _. false };

    ghost asks_memory = { false };

    ghost keeps_itself = { λ s. refl };

    fn append(
        &mut self,
        alloc: Global,
        events: &[Row],
        _statics: &[Row],
    ) -> Result<Vec<Row>, StoreFault> {
        // No id passes 2^62: memory ends before that, so this journal is never exhausted.
        self.rows.extend_from_slice(events).map_err(memory)?;
        Ok(Vec::new(alloc))
    }
}

impl JournalStore for PlainJournal {
    ghost use Rattle.std.specs.Prelude.{refl};

    ghost archive = { λ j. j };

    ghost takes_events = { λ old events statics dropped new taken. taken };

    ghost keeps_rows = { λ old new kept. kept };

    ghost exhausts_ids = { λ s events. refl };

    fn rows(&mut self, alloc: Global, from: u64, most: usize) -> Result<Vec<Numbered>, StoreFault> {
        let rows = first_over(alloc, &self.rows, from, most).map_err(memory)?;
        Ok(rows)
    }

    fn count(&mut self) -> u64 {
        self.rows.len() as u64
    }
}
