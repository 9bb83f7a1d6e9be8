//! Controls that are issued.

ghost use Rattle.std.specs.Prelude.{◌≡◌, ◌≢◌, ◌+◌, ◌<◌, ◌≤◌, ◌↔◌, None, Err, is_some, IsTrue, IfOk, IfErr, IfSome, OnOk};
ghost use Rattle.dnp_controls.specs.Book.{added};
ghost use Rattle.dnp_objects.specs.declared.limits.TheConstants.{MAX_ID};
ghost use Rattle.dnp_concentrator.specs.Centre.{book_of, indices_of, journal_of, link_of};
ghost use Rattle.dnp_concentrator.specs.Mapped.{command_above};
ghost use Rattle.dnp_concentrator.specs.Relayed.{LeavesBook};

use crate::centre::{Centre, STATION};
use dnp_controls::{Book, BookFault};
use dnp_eventbuf::JournalStore;
use dnp_objects::Command;
use std::alloc::Global;

/// Why a control is not issued, in the order in which the causes are looked for. Nothing has changed then.
#[derive(Clone, Copy, Debug, PartialEq, Eq, Hash)]
pub enum IssueFault {
    /// The substation has no such output or setpoint.
    NoOutput = 1,
    /// The book has no number left.
    Exhausted = 2,
    /// Memory ran out.
    Memory = 3,
    /// The device under the book failed.
    Device = 4,
}

/// Adds a command to a book, for the station below.
fn add<B: Book>(alloc: Global, book: &mut B, command: &Command) -> Result<u64, IssueFault>
    ensures book { LeavesBook B.honest B.is_stopped B.contents IssueFault.Device book.old book.new result }
    ensures added { B.honest book.new → OnOk result (B.contents book.new ≡ added (B.contents book.old) 0 command.now) }
    ensures id { B.honest book.new → IfOk result (λ id. id ≡ (B.contents book.old).last_id + 1) }
    ensures named { result ≢ Err IssueFault.NoOutput }
    ensures not_exhausted { B.honest book.new → OnOk result ((B.contents book.old).last_id < MAX_ID) }
    ensures exhausted { B.honest book.new → result ≡ Err IssueFault.Exhausted → MAX_ID ≤ (B.contents book.old).last_id }
    ensures exhausted_first { B.honest book.new → result ≡ Err IssueFault.Memory → (B.contents book.old).last_id < MAX_ID }
    ensures stopped { IsTrue (B.is_stopped book.old) → result ≡ Err IssueFault.Device }
{
    match book.add(alloc, STATION, command) {
        Ok(id) => Ok(id),
        Err(BookFault::Exhausted) => Err(IssueFault::Exhausted),
        Err(BookFault::Memory) => Err(IssueFault::Memory),
        Err(_) => Err(IssueFault::Device),
    }
}

impl<J, B> Centre<J, B> {
    /// Whether the substation has the output or setpoint of a command, whose index is the substation's own: `issue` then
    /// finds it.
    pub fn has_output(&self, substation: u8, command: &Command) -> bool
        ensures { result ≡ is_some (command_above (indices_of self.now) substation command.now) }
    {
        self.map.command_above(substation, command).is_some()
    }
}

impl<J: JournalStore, B: Book> Centre<J, B> {
    /// Issues a command to a substation's output or setpoint, whose index is the substation's own: it stands
    /// in the book, pending, under the id that is answered, with the index above.
    ///
    /// Refused is, first of all, an index that the substation does not have (`NoOutput`), and then what the
    /// book refuses (`Exhausted`, `Memory`, `Device`). Whether the output can do what is commanded is not
    /// looked at: the answer to the SELECT says it.
    pub fn issue(
        &mut self,
        alloc: Global,
        substation: u8,
        command: &Command,
    ) -> Result<u64, IssueFault>
        ensures no_output { (result ≡ Err IssueFault.NoOutput)
            ↔ (command_above (indices_of self.old) substation command.now ≡ None) }
        ensures added { B.honest (book_of self.new) → OnOk result (
            IfSome (command_above (indices_of self.old) substation command.now) (λ above.
            B.contents (book_of self.new) ≡ added (B.contents (book_of self.old)) 0 above)) }
        ensures id { B.honest (book_of self.new) → IfOk result (λ id. id ≡ (B.contents (book_of self.old)).last_id + 1) }
        ensures book { LeavesBook B.honest B.is_stopped B.contents IssueFault.Device (book_of self.old) (book_of self.new) result }
        // Where the substation has no such index, the book is not asked.
        ensures unasked { result ≡ Err IssueFault.NoOutput → book_of self.new ≡ book_of self.old }
        ensures not_exhausted { B.honest (book_of self.new) → OnOk result ((B.contents (book_of self.old)).last_id < MAX_ID) }
        ensures exhausted { B.honest (book_of self.new) → result ≡ Err IssueFault.Exhausted
            → MAX_ID ≤ (B.contents (book_of self.old)).last_id }
        ensures exhausted_first { B.honest (book_of self.new) → result ≡ Err IssueFault.Memory
            → (B.contents (book_of self.old)).last_id < MAX_ID }
        ensures stopped { IsTrue (B.is_stopped (book_of self.old)) → result ≢ Err IssueFault.NoOutput → result ≡ Err IssueFault.Device }
        ensures link { link_of self.new ≡ link_of self.old }
        ensures journal { journal_of self.new ≡ journal_of self.old }
        ensures indices { indices_of self.new ≡ indices_of self.old }
    {
        match self.map.command_above(substation, command) {
            Some(above) => add(alloc, &mut self.book, &above),
            None => Err(IssueFault::NoOutput),
        }
    }
}
