//! What a journal is.

ghost use Rattle.std.specs.Prelude.{◌≡◌, ◌≢◌, false, OnOk, IfOk, IfErr, List, [], length};
ghost use Rattle.dnp_eventbuf.specs.Archive.{Archive, IsSoundArchive, passes_limit, rows_over, with_events};
ghost use Rattle.dnp_eventbuf.specs.SinkCalls.{IsJournalCall};

use crate::numbered::Numbered;
use crate::sink::Sink;
use dnp_objects::StoreFault;
use std::alloc::Global;

/// A sink that keeps every event in order, under ids that rise, drops none, and passes static rows over.
pub trait JournalStore: Sink {
    ghost use Rattle.dnp_objects.specs.declared.row.Row.{Row};

    /// What the journal holds.
    ghost archive: { Self → Archive };

    /// The first rows with an id over `from`, by id, at most `most`; `from` 0 begins at the oldest.
    /// Memory, though in memory not where there is no such row, or Device.
    fn rows(&mut self, alloc: Global, from: u64, most: usize) -> Result<Vec<Numbered>, StoreFault>
        ensures call { IsJournalCall Self.honest Self.is_stopped archive self.old self.new result }

        ensures rows { Self.honest self.new → IfOk result (λ rows. rows.items ≡ rows_over (archive self.old) from most) }
        ensures same { Self.honest self.new → OnOk result (archive self.new ≡ archive self.old) }
        ensures memory { result ≡ Err StoreFault.Memory → Self.asks_memory ≡ false → rows_over (archive self.old) from most ≢ [] }
        ensures named { IfErr result (λ e. e ≢ StoreFault.Exhausted) };

    /// How many rows the journal holds.
    fn count(&mut self) -> u64
        ensures same { self.new ≡ self.old }
        ensures sound { Self.honest self.new → IsSoundArchive (archive self.new) }
        ensures value { Self.honest self.new → result ≡ length (archive self.new).rows };

    /// As a sink it puts the events after the others, and drops none.
    ghost takes_events: { (old : Self) (events statics dropped : List Row) (new : Self) → Self.takes old events statics dropped new
        → (archive new ≡ with_events (archive old) events) × (dropped ≡ []) };

    /// Where it holds the same as a sink, it holds the same rows.
    ghost keeps_rows: { (old new : Self) → Self.keeps old new → archive new ≡ archive old };

    /// As a sink it is exhausted exactly where an id would pass 2^62.
    ghost exhausts_ids: { (s : Self) (events : List Row) → Self.exhausts s events ≡ passes_limit (archive s) events };
}
