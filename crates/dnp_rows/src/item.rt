//! What stands in the files of stores.

ghost use Rattle.std.specs.Prelude.{◌≡◌};
ghost use Rattle.dnp_rows.specs.Pages.{id_of};

use dnp_controls::Entry;
use dnp_objects::Row;

/// Which store a file holds.
#[derive(Clone, Copy, Debug, PartialEq, Eq)]
pub enum Store {
    /// A journal: every event that ever came.
    Journal,
    /// A queue: the events that a centre has not confirmed yet.
    Queue,
    /// A book of controls.
    Controls,
}

/// For whom an event is queued.
#[derive(Clone, Copy, Debug, PartialEq, Eq)]
pub struct Queued {
    /// The centre, 1 or 2.
    pub centre: u8,
    /// The event's class, 1 to 3.
    pub class: u8,
}

/// An event and its id.
#[derive(Clone, Copy, Debug, PartialEq, Eq)]
pub struct Event {
    /// From 1 on.
    pub id: u64,
    /// For whom it is queued, where it is.
    pub queued: Option<Queued>,
    /// The event.
    pub row: Row,
}

/// A row of a store.
#[derive(Clone, Copy, Debug, PartialEq, Eq)]
pub enum Item {
    /// An event of a journal or a queue.
    Event(Event),
    /// A control of a book.
    Control(Entry),
}

impl Item {
    /// Its id.
    pub fn id(&self) -> u64
        ensures { result ≡ id_of self.now }
    {
        match self {
            Item::Event(event) => event.id,
            Item::Control(entry) => entry.id,
        }
    }
}
