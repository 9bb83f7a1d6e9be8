//! What the calls of a book do to its controls, in the database and in memory.

ghost use Rattle.std.specs.Prelude.{◌≡◌, ◌≢◌, ◌⊎◌, ◌+◌, ◌<◌, ◌≤◌, AllPairs, ℕ, false, not, IsTrue, IfErr, IfOk, None, OnErr, OnOk, Err};
ghost use Rattle.dnp_objects.specs.declared.limits.TheConstants as limits;
ghost use Rattle.dnp_controls.specs.Book.{Has, IsSoundLedger, added, entry_of, in_state};
ghost use Rattle.dnp_store.specs.BookKept.{IsPast};
ghost use Rattle.dnp_store.specs.BookTables.{HoldsBook, IsBook};
ghost use Rattle.dnp_store.specs.steps.Turning.{is_barred, may_turn};
ghost use Rattle.dnp_store.specs.steps.Writing.{IsWritten};

use crate::book::book_fault;
use crate::book_entries::{set_state, state_of};
use crate::book_writing::{write_added, write_turned};
use crate::fault::is_lost;
use crate::store_kind::StoreKind;
use dnp_controls::laws::ids_go_on;
use dnp_controls::{BookFault, Entry, State};
use dnp_objects::{Command, MAX_ID};
use sqlite::{Alter, Connection};

/// Whether a call answered that the device failed.
pub(crate) fn is_device<Answer>(answer: &Result<Answer, BookFault>) -> bool
    ensures device { IsTrue result → answer.now ≡ Err BookFault.Device }
    ensures other { result ≡ false → answer.now ≢ Err BookFault.Device }
{
    matches!(answer, Err(BookFault::Device))
}

/// Whether a control in the one state may come into the other.
fn may_turn(from: State, to: State) -> bool
    ensures may { result ≡ may_turn from to }
    ensures barred { not result ≡ is_barred from to }
{
    match to {
        State::Pending => false,
        State::Spent => matches!(from, State::Pending),
        State::Finished(_) => !matches!(from, State::Finished(_)),
    }
}

/// Whether the control of an id may come into a state, or why not.
fn granted(entries: &[Entry], id: u64, control: &State) -> Result<(), BookFault>
    requires { AllPairs (λ x y. x.id < y.id) entries.now }
    ensures granted { OnOk result (Has entries.now id (λ from. may_turn from control.now)) }
    ensures no_control { IfErr result (λ e. e ≡ BookFault.NoControl → entry_of entries.now id ≡ None) }
    ensures no_control_always { entry_of entries.now id ≡ None → result ≡ Err BookFault.NoControl }
    ensures barred { IfErr result (λ e. e ≡ BookFault.NotPending → Has entries.now id (λ from. is_barred from control.now)) }
    ensures barred_always { Has entries.now id (λ from. is_barred from control.now) → result ≡ Err BookFault.NotPending }
    ensures named { IfErr result (λ e. (e ≡ BookFault.NoControl) ⊎ (e ≡ BookFault.NotPending)) }
{
    match state_of(entries, id) {
        None => Err(BookFault::NoControl),
        Some(from) => {
            if may_turn(from, *control) {
                Ok(())
            } else {
                Err(BookFault::NotPending)
            }
        }
    }
}

/// Brings the control of an id into a state, where it may come into it.
pub(crate) fn turn_to<S: Alter>(
    conn: &mut Connection<S>,
    entries: &mut Vec<Entry>,
    last_id: u64,
    id: u64,
    control: &State,
) -> Result<(), BookFault>
    requires idle { conn.old.in_transaction ≡ false }
    requires sound { IsSoundLedger (record { entries = entries.old.items; last_id = last_id }) }
    requires range { last_id ≤ limits.MAX_ID }
    ensures sound { IsSoundLedger (record { entries = entries.new.items; last_id = last_id }) }
    ensures past { (first : ℕ) → IsPast entries.old.items first → IsPast entries.new.items first }
    ensures granted { OnOk result (Has entries.old.items id (λ from. may_turn from control.now)) }
    ensures turned { OnOk result (entries.new.items ≡ in_state entries.old.items id control.now) }
    ensures kept { OnErr result (entries.new.items ≡ entries.old.items) }
    ensures no_control { IfErr result (λ e. e ≡ BookFault.NoControl → entry_of entries.old.items id ≡ None) }
    ensures no_control_always { entry_of entries.old.items id ≡ None → (result ≡ Err BookFault.NoControl) × (conn.new ≡ conn.old) }
    ensures barred { IfErr result (λ e. e ≡ BookFault.NotPending → Has entries.old.items id (λ from. is_barred from control.now)) }
    ensures barred_always { Has entries.old.items id (λ from. is_barred from control.now) → (result ≡ Err BookFault.NotPending) × (conn.new ≡ conn.old) }
    ensures named { IfErr result (λ e. e ≢ BookFault.Exhausted) }
    ensures written { IsWritten {I = Unit {0}} S.Store StoreKind.Book BookFault.Device IsBook HoldsBook (λ _. record { entries = entries.old.items; last_id = last_id })
        (λ _. record { entries = in_state entries.old.items id control.now; last_id = last_id }) (λ _. record { entries = entries.new.items; last_id = last_id }) conn.old conn.new result }
{
    // (a law, for the proof: it does nothing)
    ids_go_on();
    granted(entries, id, control)?;
    if let Err(error) = write_turned(conn, id, *control) {
        let lost = is_lost(conn, &error);
        return Err(book_fault(lost));
    }
    set_state(entries, id, *control);
    Ok(())
}

/// Adds a pending control under the next id, which it answers.
pub(crate) fn add_to<S: Alter>(
    conn: &mut Connection<S>,
    entries: &mut Vec<Entry>,
    last_id: &mut u64,
    target: u8,
    command: &Command,
) -> Result<u64, BookFault>
    requires idle { conn.old.in_transaction ≡ false }
    requires sound { IsSoundLedger (record { entries = entries.old.items; last_id = last_id.old }) }
    requires range { last_id.old ≤ limits.MAX_ID }
    ensures sound { IsSoundLedger (record { entries = entries.new.items; last_id = last_id.new }) }
    ensures past { (first : ℕ) → IsPast entries.old.items first → IsPast entries.new.items first }
    ensures range { last_id.new ≤ limits.MAX_ID }
    ensures added { OnOk result (record { entries = entries.new.items; last_id = last_id.new } ≡ added (record { entries = entries.old.items; last_id = last_id.old }) target command.now) }
    ensures id { IfOk result (λ id. id ≡ last_id.old + 1) }
    ensures kept { OnErr result ((entries.new.items ≡ entries.old.items) × (last_id.new ≡ last_id.old)) }
    ensures not_exhausted { OnOk result (last_id.old < limits.MAX_ID) }
    ensures exhausted { IfErr result (λ e. e ≡ BookFault.Exhausted → limits.MAX_ID ≤ last_id.old) }
    ensures exhausted_first { IfErr result (λ e. e ≡ BookFault.Memory → last_id.old < limits.MAX_ID) }
    ensures exhausted_always { limits.MAX_ID ≤ last_id.old → (result ≡ Err BookFault.Exhausted) × (conn.new ≡ conn.old) }
    ensures named { IfErr result (λ e. (e ≢ BookFault.NoControl) × (e ≢ BookFault.NotPending)) }
    ensures written { IsWritten {I = Unit {0}} S.Store StoreKind.Book BookFault.Device IsBook HoldsBook (λ _. record { entries = entries.old.items; last_id = last_id.old })
        (λ _. added (record { entries = entries.old.items; last_id = last_id.old }) target command.now) (λ _. record { entries = entries.new.items; last_id = last_id.new }) conn.old conn.new result }
{
    // (a law, for the proof: it does nothing)
    ids_go_on();
    let last = *last_id;
    if last >= MAX_ID {
        return Err(BookFault::Exhausted);
    }
    if entries.reserve(1).is_err() {
        return Err(BookFault::Memory);
    }
    if let Err(error) = write_added(conn, target, command) {
        let lost = is_lost(conn, &error);
        return Err(book_fault(lost));
    }
    let id = last + 1;
    let entry = Entry {
        id,
        target,
        command: *command,
        state: State::Pending,
    };
    let _room = entries.push(entry);
    *last_id = id;
    Ok(id)
}
