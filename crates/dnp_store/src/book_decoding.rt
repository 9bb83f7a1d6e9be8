//! What rows that queries show of a book's table say.

ghost use Rattle.std.specs.Prelude.{◌≡◌, ◌<◌, ◌^◌, ◌⊎◌, ◌++◌, ◌∷◌, [], ℕ, ℤ, All, Err, IsTrue, OnOk, IfErr, IfSome, Some};
ghost use Rattle.dnp_controls.specs.declared.book.Entry.{Entry as EntryValue};
ghost use Rattle.dnp_controls.specs.declared.book.State.TheVariants.{Finished, Pending, Spent};
ghost use Rattle.dnp_objects.specs.declared.command.Command.{Command as Value};
ghost use Rattle.dnp_objects.specs.declared.command.Command.TheVariants.{Block, Set16, Set32};
ghost use Rattle.dnp_store.specs.BookTables.{FitsCommand, FitsControl, status_of};
ghost use Rattle.dnp_store.specs.steps.BookShown.{EntriesRise, HasNoEntry, ShowEntries, ShowsCommand, ShowsEntry, ShowsState};

use crate::decoding::{signed, small, whole};
use crate::fault::Unread;
use dnp_controls::{Entry, State, TARGETS};
use dnp_objects::{Command, Status};
use sqlite::Row as Shown;

/// The block that the row shows, if it has one, each value in its column's range.
fn block_in(row: &Shown) -> Option<Command>
    ensures value { IfSome result (λ command. ShowsCommand row.now command × FitsCommand command) }
    ensures found { (index code count on off : ℕ) → FitsCommand (Block index code count on off) → ShowsCommand row.now (Block index code count on off) → result ≡ Some (Block index code count on off) }
{
    if whole(row, 2)? != 0 || signed(row, 8)? != 0 {
        return None;
    }
    let index = u16::try_from(small(row, 3)?).ok()?;
    let code = u8::try_from(small(row, 4)?).ok()?;
    let count = u8::try_from(small(row, 5)?).ok()?;
    let on_ms = small(row, 6)?;
    let off_ms = small(row, 7)?;
    Some(Command::Block {
        index,
        code,
        count,
        on_ms,
        off_ms,
    })
}

/// The setpoint that the row shows, if it has one: its value is in range, and what only a block has is 0.
fn setpoint_in(row: &Shown) -> Option<Command>
    ensures value { IfSome result (λ command. ShowsCommand row.now command × FitsCommand command) }
    ensures found_16 { (index : ℕ) (value : ℤ) → FitsCommand (Set16 index value) → ShowsCommand row.now (Set16 index value) → result ≡ Some (Set16 index value) }
    ensures found_32 { (index : ℕ) (value : ℤ) → FitsCommand (Set32 index value) → ShowsCommand row.now (Set32 index value) → result ≡ Some (Set32 index value) }
{
    if whole(row, 4)? != 0 || whole(row, 5)? != 0 || whole(row, 6)? != 0 || whole(row, 7)? != 0 {
        return None;
    }
    let index = u16::try_from(small(row, 3)?).ok()?;
    let value = signed(row, 8)?;
    match small(row, 2)? {
        1 => {
            let value = i16::try_from(value).ok()?;
            Some(Command::Set16 { index, value })
        }
        2 => {
            let value = i32::try_from(value).ok()?;
            Some(Command::Set32 { index, value })
        }
        _ => None,
    }
}

/// The command that the row shows, if it has one.
fn command_in(row: &Shown) -> Option<Command>
    ensures value { IfSome result (λ command. ShowsCommand row.now command × FitsCommand command) }
    ensures found { (command : Value) → FitsCommand command → ShowsCommand row.now command → result ≡ Some command }
{
    if whole(row, 2)? == 0 {
        block_in(row)
    } else {
        setpoint_in(row)
    }
}

/// The state that the row shows, if it has one. A status is below 128, and 0 where none became of it.
fn state_in(row: &Shown) -> Option<State>
    ensures value { IfSome result (λ control. ShowsState row.now control × (status_of control < 2 ^ 7)) }
    ensures pending { ShowsState row.now Pending → result ≡ Some Pending }
    ensures spent { ShowsState row.now Spent → result ≡ Some Spent }
    ensures finished { (status : ℕ) → status < 2 ^ 7 → ShowsState row.now (Finished status) → result ≡ Some (Finished status) }
{
    let status = small(row, 10)?;
    match small(row, 9)? {
        0 if status == 0 => Some(State::Pending),
        1 if status == 0 => Some(State::Spent),
        2 => {
            let status = Status::new(u8::try_from(status).ok()?)?;
            Some(State::Finished(status))
        }
        _ => None,
    }
}

/// The id, the target, the command and the state of the entry that the row shows, if it has one, each value
/// in its column's range.
fn entry_in(row: &Shown) -> Option<(u64, u8, Command, State)>
    ensures value { IfSome result (λ x. ShowsEntry row.now (record { id = x.0; target = x.1; command = x.2; state = x.3 }) × FitsControl (record { id = x.0; target = x.1; command = x.2; state = x.3 })) }
    ensures found { (e : EntryValue) → FitsControl e → ShowsEntry row.now e → result ≡ Some (e.id, e.target, e.command, e.state) }
{
    let id = whole(row, 0)?;
    let target = u8::try_from(small(row, 1)?).ok()?;
    if target >= TARGETS {
        return None;
    }
    let command = command_in(row)?;
    let state = state_in(row)?;
    Some((id, target, command, state))
}

/// Puts the entry that the row shows after the others.
fn put_entry(entries: &mut Vec<Entry>, row: &Shown) -> Result<(), Unread>
    ensures put { OnOk result ((e : EntryValue) × ShowsEntry row.now e × FitsControl e × (entries.new.items ≡ entries.old.items ++ e ∷ [])) }
    ensures wrong { result ≡ Err Unread.Form → (e : EntryValue) → FitsControl e → ShowsEntry row.now e → ⊥ }
    ensures named { IfErr result (λ unread. (unread ≡ Unread.Form) ⊎ (unread ≡ Unread.Memory)) }
{
    if entries.reserve(1).is_err() {
        return Err(Unread::Memory);
    }
    let Some((id, target, command, state)) = entry_in(row) else {
        return Err(Unread::Form);
    };
    let _room = entries.push(Entry {
        id,
        target,
        command,
        state,
    });
    Ok(())
}

/// Puts the entries that the rows show into a list, which is empty.
pub(crate) fn put_entries(entries: &mut Vec<Entry>, rows: &[Shown]) -> Result<(), Unread>
    requires { entries.old.items ≡ [] }
    ensures shown { OnOk result (ShowEntries rows.now entries.new.items) }
    ensures fit { OnOk result (All FitsControl entries.new.items) }
    ensures wrong { result ≡ Err Unread.Form → HasNoEntry rows.now }
    ensures named { IfErr result (λ unread. (unread ≡ Unread.Form) ⊎ (unread ≡ Unread.Memory)) }
{
    for number in 0..rows.len() {
        put_entry(entries, &rows[number])?;
    }
    Ok(())
}

/// Whether the ids rise from 1 on, up to the last.
pub(crate) fn are_in_order(entries: &[Entry], last: u64) -> bool
    ensures rise { IsTrue result → EntriesRise 0 last entries.now }
    ensures found { EntriesRise 0 last entries.now → IsTrue result }
{
    let mut before = 0;
    for entry in entries {
        if entry.id <= before || entry.id > last {
            return false;
        }
        before = entry.id;
    }
    true
}
