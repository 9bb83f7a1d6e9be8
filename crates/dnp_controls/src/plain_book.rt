//! A book of controls in memory.

ghost use Rattle.std.specs.Prelude.{◌≡◌, ◌≤◌, ◌+◌, ℕ, [], length, take, filter, nat_lt, false, IsSome, option_map, All};
ghost use Rattle.dnp_controls.specs.Book.{AreNumberedFrom, entry_of, in_state, is_pending, next_of};
ghost use Rattle.dnp_controls.specs.steps.Places.{IsKept};

use crate::book::{Book, BookFault, Entry, State};
use dnp_objects::{Command, Status};
use std::alloc::Global;
use std::marker::Model;

/// A book of controls in memory, whose ids are 1, 2, 3 and so on.
///
/// A clause sees its entries, in the order in which they were added. The last id used is their number.
#[derive(Debug)]
pub struct PlainBook {
    /// The entries, in the order in which they were added.
    entries: Vec<Entry>,
    /// No entry before this place is pending, so the search for a pending one begins here.
    first: usize,
}

impl Model for PlainBook {
    ghost use Rattle.std.specs.Prelude.{List};
    ghost use Rattle.dnp_controls.specs.declared.book.Entry.{Entry};
    ghost use Rattle.dnp_controls.specs.steps.Places.{IsKept};

    ghost Value = { List Entry };

    ghost view = { λ book. book.entries.items };

    ghost invariant = { λ book. IsKept book.entries.items book.first };
}

impl Drop for PlainBook {
    /// One call for whoever lets it go: its parts are looked at here alone.
    fn drop(self) {
        let PlainBook {
            entries: _,
            first: _,
        } = self;
    }
}

impl PlainBook {
    /// A book without entries.
    pub fn new(alloc: Global) -> Self
        ensures { result ≡ [] }
    {
        PlainBook {
            entries: Vec::new(alloc),
            first: 0,
        }
    }
}

/// The state of the entry of an id, if there is one.
fn state_of(entries: &[Entry], id: u64) -> Option<State>
    requires { AreNumberedFrom 1 entries.now }
    ensures { result ≡ option_map (λ entry. entry.state) (entry_of entries.now id) }
{
    if id == 0 {
        return None;
    }
    let place = (id - 1) as usize;
    if place < entries.len() {
        Some(entries[place].state)
    } else {
        None
    }
}

/// Puts the entry of an id, which is there, into a state.
fn set_state(entries: &mut [Entry], id: u64, state: State)
    requires numbered { AreNumberedFrom 1 entries.old }
    requires there { IsSome (entry_of entries.old id) }
    ensures set { entries.new ≡ in_state entries.old id state }
    ensures kept { (first : ℕ) → is_pending state ≡ false → IsKept entries.old first → IsKept entries.new first }
{
    let place = (id - 1) as usize;
    prove!(place < entries.len());
    entries[place].state = state;
}

/// The entries whose ids are over `from`.
fn over(entries: &[Entry], from: u64) -> &[Entry]
    requires { AreNumberedFrom 1 entries.now }
    ensures { result.now ≡ filter (λ entry. nat_lt from entry.id) entries.now }
{
    if from < entries.len() as u64 {
        entries.split_at(from as usize).1
    } else {
        &[]
    }
}

/// The first pending entry for a target.
fn first_pending(entries: &[Entry], target: u8) -> Option<Entry>
    ensures { result ≡ next_of entries.now target }
{
    for entry in entries {
        if entry.state.is_pending() && entry.target == target {
            return Some(*entry);
        }
    }
    None
}

/// How many entries at the front are not pending.
fn count_past(entries: &[Entry]) -> usize
    ensures bound { result ≤ length entries.now }
    ensures past { All (λ entry. is_pending entry.state ≡ false) (take result entries.now) }
{
    for (place, entry) in entries.iter().enumerate() {
        if entry.state.is_pending() {
            return place;
        }
    }
    entries.len()
}

impl Book for PlainBook {
    ghost use Rattle.std.specs.Prelude.{⊤, false};

    ghost contents = { λ entries. record { entries = entries; last_id = length entries } };

    ghost honest = { λ _. ⊤ };

    ghost is_stopped = { λ _. false };

    ghost asks_memory = { false };

    #[tactic(auto, using(crate::proofs::Moving::sound_numbered))]
    fn add(&mut self, _alloc: Global, target: u8, command: &Command) -> Result<u64, BookFault> {
        // No id passes `MAX_ID`: memory ends before that, so this book is never exhausted.
        let count = self.entries.len() as u64;
        let entry = Entry {
            id: count + 1,
            target,
            command: *command,
            state: State::Pending,
        };
        if self.entries.push(entry).is_err() {
            return Err(BookFault::Memory);
        }
        Ok(count + 1)
    }

    #[tactic(auto, using(crate::proofs::Moving::sound_numbered))]
    fn next(&mut self, _alloc: Global, target: u8) -> Result<Option<Entry>, BookFault> {
        let rest = self.entries.split_at(self.first).1;
        let past = count_past(rest);
        self.first += past;
        Ok(first_pending(rest.split_at(past).1, target))
    }

    #[tactic(auto, using(crate::proofs::Moving::sound_numbered))]
    fn spend(&mut self, _alloc: Global, id: u64) -> Result<(), BookFault> {
        match state_of(&self.entries, id) {
            None => Err(BookFault::NoControl),
            Some(State::Pending) => {
                set_state(&mut self.entries, id, State::Spent);
                Ok(())
            }
            Some(State::Spent | State::Finished(_)) => Err(BookFault::NotPending),
        }
    }

    #[tactic(auto, using(crate::proofs::Moving::sound_numbered))]
    fn finish(&mut self, _alloc: Global, id: u64, status: Status) -> Result<(), BookFault> {
        match state_of(&self.entries, id) {
            None => Err(BookFault::NoControl),
            Some(State::Pending | State::Spent) => {
                set_state(&mut self.entries, id, State::Finished(status));
                Ok(())
            }
            Some(State::Finished(_)) => Err(BookFault::NotPending),
        }
    }

    #[tactic(auto, using(crate::proofs::Moving::sound_numbered))]
    fn rows(&mut self, alloc: Global, from: u64, most: usize) -> Result<Vec<Entry>, BookFault> {
        let rest = over(&self.entries, from);
        let count = most.min(rest.len());
        if count == 0 {
            return Ok(Vec::new(alloc));
        }
        match Vec::from_slice(alloc, rest.split_at(count).0) {
            Ok(rows) => Ok(rows),
            Err(_) => Err(BookFault::Memory),
        }
    }
}
