//! Entries of a book by their ids, which rise and may leave numbers out.

ghost use Rattle.std.specs.Prelude.{◌≡◌, ◌<◌, ◌≤◌, AllPairs, All, IfOk, IfSome, false, filter, length, nat_lt, option_map, slice_index_or, take};
ghost use Rattle.dnp_controls.specs.declared.book.Entry.{Entry};
ghost use Rattle.dnp_controls.specs.Book.{entry_of, in_state, is_pending, next_of, rows_of};

use dnp_controls::{Entry, State};
use std::alloc::{AllocError, Global};

/// The place of the entry of an id, if there is one.
fn place_of(entries: &[Entry], id: u64) -> Option<usize>
    requires { AllPairs (λ x y. x.id < y.id) entries.now }
    ensures there { IfSome result (λ place. (place < length entries.now) × ((d : Entry) → (slice_index_or entries.now place d).id ≡ id)) }
    ensures missing { result ≡ None → entry_of entries.now id ≡ None }
{
    let place = entries.partition_point(|entry| entry.id < id);
    if place >= entries.len() {
        return None;
    }
    if entries[place].id == id {
        Some(place)
    } else {
        None
    }
}

/// The state of the entry of an id, if there is one.
pub(crate) fn state_of(entries: &[Entry], id: u64) -> Option<State>
    requires { AllPairs (λ x y. x.id < y.id) entries.now }
    ensures { result ≡ option_map (λ entry. entry.state) (entry_of entries.now id) }
{
    match place_of(entries, id) {
        Some(place) => Some(entries[place].state),
        None => None,
    }
}

/// Puts the entry of an id into a state.
pub(crate) fn set_state(entries: &mut [Entry], id: u64, control: State)
    requires { AllPairs (λ x y. x.id < y.id) entries.old }
    ensures { entries.new ≡ in_state entries.old id control }
{
    match place_of(entries, id) {
        Some(place) => entries[place].state = control,
        None => {}
    }
}

/// How many entries at the front are not pending.
pub(crate) fn count_past(entries: &[Entry]) -> usize
    ensures bound { result ≤ length entries.now }
    ensures past { All (λ entry. is_pending entry.state ≡ false) (take result entries.now) }
{
    for (place, entry) in entries.iter().enumerate() {
        if entry.state.is_pending() {
            return place;
        }
    }
    entries.len()
}

/// The first pending entry for a target.
pub(crate) fn first_pending(entries: &[Entry], target: u8) -> Option<Entry>
    ensures { result ≡ next_of entries.now target }
{
    for entry in entries {
        if entry.state.is_pending() && entry.target == target {
            return Some(*entry);
        }
    }
    None
}

/// The entries whose ids are over `from`.
fn over(entries: &[Entry], from: u64) -> &[Entry]
    requires { AllPairs (λ x y. x.id < y.id) entries.now }
    ensures { result.now ≡ filter (λ entry. nat_lt from entry.id) entries.now }
{
    let count = entries.partition_point(|entry| entry.id <= from);
    entries.split_at(count).1
}

/// The first entries with ids over `from`, at most `most`. Memory is asked for once, for just as many.
pub(crate) fn first_over(
    alloc: Global,
    entries: &[Entry],
    from: u64,
    most: usize,
) -> Result<Vec<Entry>, AllocError>
    requires { AllPairs (λ x y. x.id < y.id) entries.now }
    ensures { IfOk result (λ rows. rows.items ≡ rows_of entries.now from most) }
{
    let rest = over(entries, from);
    let count = most.min(rest.len());
    let first = rest.split_at(count).0;
    let mut rows = Vec::with_capacity(alloc, count)?;
    for entry in first {
        rows.push(*entry)?;
    }
    Ok(rows)
}
