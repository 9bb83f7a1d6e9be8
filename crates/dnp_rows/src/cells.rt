//! What the values of a stored row say.

ghost use Rattle.std.specs.Prelude.{◌≡◌, ◌<◌, ◌^◌, ◌∷◌, ◌++◌, ℕ, Option, pos, IfSome, IsSome, option_map, None};
ghost use Rattle.dnp_rows.specs.Pages.{id_of};
ghost use Rattle.dnp_objects.specs.declared.row.Row.{Row as RowValue};
ghost use Rattle.dnp_objects.specs.declared.command.Command.{Command as CommandValue};
ghost use Rattle.dnp_controls.specs.declared.book.State.{State as StateValue};
ghost use Rattle.dnp_rows.specs.Cells.{IsCommand, IsRow, IsState, IsTime, whole, point_cells, journal_cells, queue_cells, command_cells, state_cells};

use crate::item::{Event, Item, Queued, Store};
use dnp_controls::{Entry, State};
use dnp_objects::{Command, Kind, Lane, MAX_TIME, Row, Status};

/// A value of a stored row: a whole number, or none.
pub(crate) type Cell = Option<i64>;

/// The octet that a cell holds.
fn octet(cell: Cell) -> Option<u8>
    ensures value { IfSome result (λ n. cell ≡ whole n) }
    ensures found { (n : ℕ) → n < 2 ^ 8 → cell ≡ whole n → result ≡ Some n }
{
    u8::try_from(cell?).ok()
}

/// The number of 16 bits that a cell holds.
fn short(cell: Cell) -> Option<u16>
    ensures value { IfSome result (λ n. cell ≡ whole n) }
    ensures found { (n : ℕ) → n < 2 ^ 16 → cell ≡ whole n → result ≡ Some n }
{
    u16::try_from(cell?).ok()
}

/// The number of 32 bits that a cell holds.
fn word(cell: Cell) -> Option<u32>
    ensures value { IfSome result (λ n. cell ≡ whole n) }
    ensures found { (n : ℕ) → n < 2 ^ 32 → cell ≡ whole n → result ≡ Some n }
{
    u32::try_from(cell?).ok()
}

/// The time that a cell holds, or none where it is NULL.
fn time(cell: Cell) -> Option<Option<u64>>
    ensures value { IfSome result (λ time. cell ≡ option_map (λ t. pos t) time) }
    ensures in_range { IfSome result IsTime }
    ensures found { (time : Option ℕ) → IsTime time → cell ≡ option_map (λ t. pos t) time → result ≡ Some time }
{
    let Some(time) = cell else {
        return Some(None);
    };
    let time = u64::try_from(time).ok()?;
    if time < MAX_TIME {
        Some(Some(time))
    } else {
        None
    }
}

/// The six cells of an event: what is beside its id, and its point.
#[tactic(auto, using(crate::proofs::Listing::six_cells))]
fn six(cells: &[Cell]) -> Option<(Cell, [Cell; 4])>
    ensures { IfSome result (λ held. cells.now ≡ None ∷ held.0 ∷ held.1) }
{
    if cells.len() != 6 || cells[0].is_some() {
        return None;
    }
    Some((cells[1], [cells[2], cells[3], cells[4], cells[5]]))
}

/// The row of a point of this kind that cells hold.
fn point(kind: Kind, cells: &[Cell; 4]) -> Option<Row>
    ensures value { IfSome result (λ row. (row.kind ≡ kind) × (cells.now ≡ point_cells row)) }
    ensures found { (row : RowValue) → row.kind ≡ kind → IsRow row → cells.now ≡ point_cells row → result ≡ Some row }
{
    Some(Row {
        kind,
        index: short(cells[0])?,
        flags: octet(cells[1])?,
        value: cells[2]?,
        time: time(cells[3])?,
    })
}

/// The event of a journal that cells hold, under this id.
pub(crate) fn logged(id: u64, cells: &[Cell]) -> Option<Event>
    ensures { IfSome result (λ e. (e.id ≡ id) × (e.queued ≡ None) × (cells.now ≡ journal_cells e.row)) }
{
    let (kind, held) = six(cells)?;
    let kind = Kind::numbered(usize::from(octet(kind)?))?;
    let row = point(kind, &held)?;
    Some(Event {
        id,
        queued: None,
        row,
    })
}

/// The event of a queue that cells hold, under this id, for this centre.
pub(crate) fn queued(id: u64, centre: u8, cells: &[Cell]) -> Option<Event>
    ensures id { IfSome result (λ e. e.id ≡ id) }
    ensures cells { IfSome result (λ e. IfSome e.queued (λ q. (q.centre ≡ centre) × (cells.now ≡ queue_cells q.class e.row))) }
    ensures queued { IfSome result (λ e. IsSome e.queued) }
{
    let (lane, held) = six(cells)?;
    let lane = Lane::numbered(usize::from(octet(lane)?))?;
    let row = point(lane.kind, &held)?;
    let class = lane.class;
    Some(Event {
        id,
        queued: Some(Queued { centre, class }),
        row,
    })
}

/// The command that cells hold.
fn command(cells: &[Cell; 7]) -> Option<Command>
    ensures value { IfSome result (λ command. cells.now ≡ command_cells command) }
    ensures found { (command : CommandValue) → IsCommand command → cells.now ≡ command_cells command → result ≡ Some command }
{
    let [kind, index, code, count, on, off, value] = *cells;
    let index = short(index)?;
    let rest = [code, count, on, off];
    match kind {
        Some(0) if value == Some(0) => Some(Command::Block {
            index,
            code: octet(code)?,
            count: octet(count)?,
            on_ms: word(on)?,
            off_ms: word(off)?,
        }),
        Some(1) if rest == [Some(0); 4] => {
            let value = i16::try_from(value?).ok()?;
            Some(Command::Set16 { index, value })
        }
        Some(2) if rest == [Some(0); 4] => {
            let value = i32::try_from(value?).ok()?;
            Some(Command::Set32 { index, value })
        }
        _ => None,
    }
}

/// How far a control is, by the cells that say it.
fn state(cells: [Cell; 2]) -> Option<State>
    ensures value { IfSome result (λ state. cells ≡ state_cells state) }
    ensures found { (state : StateValue) → IsState state → cells ≡ state_cells state → result ≡ Some state }
{
    let status = Status::new(octet(cells[1])?)?;
    match cells[0] {
        Some(0) if status == Status::SUCCESS => Some(State::Pending),
        Some(1) if status == Status::SUCCESS => Some(State::Spent),
        Some(2) => Some(State::Finished(status)),
        _ => None,
    }
}

/// The cells of a control.
#[derive(Clone, Copy)]
struct Parts {
    /// That of its target.
    target: Cell,
    /// Those of its command.
    command: [Cell; 7],
    /// Those of how far it is.
    state: [Cell; 2],
}

/// The eleven cells of a control.
#[tactic(auto, using(crate::proofs::Listing::eleven_cells))]
fn eleven(cells: &[Cell]) -> Option<Parts>
    ensures { IfSome result (λ held. cells.now ≡ None ∷ held.target ∷ held.command ++ held.state) }
{
    if cells.len() != 11 || cells[0].is_some() {
        return None;
    }
    Some(Parts {
        target: cells[1],
        command: [
            cells[2], cells[3], cells[4], cells[5], cells[6], cells[7], cells[8],
        ],
        state: [cells[9], cells[10]],
    })
}

/// The control that cells hold, under this id.
pub(crate) fn held(id: u64, cells: &[Cell]) -> Option<Entry>
    ensures { IfSome result (λ e. (e.id ≡ id) × (cells.now ≡ None ∷ whole e.target ∷ command_cells e.command ++ state_cells e.state)) }
{
    let held = eleven(cells)?;
    Some(Entry {
        id,
        target: octet(held.target)?,
        command: command(&held.command)?,
        state: state(held.state)?,
    })
}

/// The row of a store that cells hold, under this id; of a queue for this centre.
pub(crate) fn item_of(store: Store, centre: u8, id: u64, cells: &[Cell]) -> Option<Item>
    ensures { IfSome result (λ item. id_of item ≡ id) }
{
    match store {
        Store::Journal => match logged(id, cells) {
            Some(event) => Some(Item::Event(event)),
            None => None,
        },
        Store::Queue => match queued(id, centre, cells) {
            Some(event) => Some(Item::Event(event)),
            None => None,
        },
        Store::Controls => match held(id, cells) {
            Some(entry) => Some(Item::Control(entry)),
            None => None,
        },
    }
}
