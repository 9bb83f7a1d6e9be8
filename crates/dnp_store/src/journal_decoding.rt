//! What rows that queries show of a journal's table say.

ghost use Rattle.std.specs.Prelude.{◌≡◌, ◌<◌, ◌≤◌, ℕ, IfOk, IfSome, Some, ◌⊎◌, IfErr, Err};
ghost use Rattle.dnp_eventbuf.specs.declared.numbered.Numbered.{Numbered as NumberedValue};
ghost use Rattle.dnp_objects.specs.declared.limits.TheConstants as limits;
ghost use Rattle.dnp_store.specs.steps.JournalShown.{AreInOrder, HasNoEvent, IsStored, ShowEvents, ShowsEvent};

use crate::decoding::{signed, small, time_in, whole};
use crate::fault::Unread;
use dnp_eventbuf::Numbered;
use dnp_objects::{Kind, MAX_ID, MAX_TIME, Row};
use sqlite::Row as Shown;
use std::alloc::Global;

/// The event that the row shows, if it has one, each value in its column's range.
fn event_in(row: &Shown) -> Option<Numbered>
    ensures value { IfSome result (λ e. ShowsEvent row.now e) }
    ensures timed { IfSome result (λ e. IfSome e.row.time (λ time. time < MAX_TIME)) }
    ensures found { (e : NumberedValue) → IsStored row.now e → result ≡ Some e }
{
    let id = whole(row, 0)?;
    let kind = Kind::numbered(small(row, 1)? as usize)?;
    let index = u16::try_from(small(row, 2)?).ok()?;
    let flags = u8::try_from(small(row, 3)?).ok()?;
    let value = signed(row, 4)?;
    let time = time_in(row, 5)?;
    if time.unwrap_or(0) >= MAX_TIME {
        return None;
    }
    let row = Row {
        kind,
        index,
        flags,
        value,
        time,
    };
    Some(Numbered { id, row })
}

/// The events that the rows show.
pub(crate) fn events_in(alloc: Global, rows: &[Shown]) -> Result<Vec<Numbered>, Unread>
    ensures shown { IfOk result (λ events. ShowEvents rows.now events.items) }
    ensures wrong { result ≡ Err Unread.Form → HasNoEvent rows.now }
    ensures named { IfErr result (λ unread. (unread ≡ Unread.Form) ⊎ (unread ≡ Unread.Memory)) }
{
    let mut events = Vec::with_capacity(alloc, rows.len()).map_err(|_| Unread::Memory)?;
    for number in 0..rows.len() {
        let event = event_in(&rows[number]).ok_or(Unread::Form)?;
        events.push(event).map_err(|_| Unread::Memory)?;
    }
    Ok(events)
}

/// The last of the ids, if they rise from the one before them on, and are not over `MAX_ID`: the one before
/// them where there are none.
pub(crate) fn last_in_order(events: &[Numbered], before: u64) -> Option<u64>
    requires { before ≤ limits.MAX_ID }
    ensures range { IfSome result (λ last. (before ≤ last) × (last ≤ limits.MAX_ID)) }
    ensures order { IfSome result (λ last. AreInOrder before last events.now) }
    ensures found { (last : ℕ) → AreInOrder before last events.now → last ≤ limits.MAX_ID → result ≡ Some last }
{
    let mut last = before;
    for x in events {
        if x.id <= last || x.id > MAX_ID {
            return None;
        }
        last = x.id;
    }
    Some(last)
}
