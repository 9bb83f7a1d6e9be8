//! Outputs over a book.

ghost use Rattle.std.specs.Prelude.{◌==◌, ◌≡◌, ◌<◌, ◌≤◌, OnOk, IfErr, IfSome, IsSome, ⊤};
ghost use Rattle.std.specs.Borrow.{Lends, sem};
ghost use Rattle.dnp_objects.specs.Status as status;
ghost use Rattle.dnp_objects.specs.Stores.{IsStoreCall};
ghost use Rattle.dnp_concentrator.specs.Reserving.{none_reserved};
ghost use Rattle.dnp_concentrator.specs.contracts.book_outputs.BookOutputs.{the_row};
ghost use Rattle.dnp_concentrator.specs.BookOutputs.{map_in, book_in, reserved_in, with_book, with_reserved, obeys_code, can_relay, relay_check, HoldsSame, IsWell, added_for, store_fault};
ghost use Rattle.dnp_objects.specs.declared.limits.TheConstants.{MAX_ID};
ghost use Rattle.dnp_concentrator.specs.declared.limits.TheConstants.{MAX_SUBSTATIONS};
ghost use Rattle.dnp_concentrator.specs.Mapped.{command_below};

use crate::index_map::IndexMap;
use crate::limits::COMMANDS_AT_ONCE;
use crate::reserving::is_reserved;
use arrayvec::ArrayVec;
use dnp_controls::{Book, BookFault, MAX_COMMANDS, Outputs, obeys_code_rule};
use dnp_objects::{Command, Status, StoreFault};
use std::alloc::Global;

/// Outputs of a concentrator: a command is performed by being added to the book, for the substation that its index
/// is of and with the substation's own index. They show no status.
pub struct BookOutputs<B> {
    map: IndexMap,
    book: B,
    /// The command of another centre's select, whose point is reserved while a call lasts.
    reserved: Option<Command>,
}

impl<B: Drop> Drop for BookOutputs<B> {
    /// One call for whoever lets it go: its parts are looked at here alone.
    fn drop(self) {
        let BookOutputs {
            map: _,
            book: _,
            reserved: _,
        } = self;
    }
}

/// Whether a block obeys the code rule; a setpoint command has none.
fn obeys_code(command: &Command) -> bool
    ensures { result ≡ obeys_code command.now }
{
    match *command {
        Command::Block { code, count, .. } => obeys_code_rule(code, count),
        Command::Set16 { .. } | Command::Set32 { .. } => true,
    }
}

/// The fault of outputs whose book refuses to add a command. A book refuses it where it has no number left, is out of
/// memory, or its device has failed.
fn fault_of(fault: BookFault) -> StoreFault
    ensures { result ≡ store_fault fault }
{
    match fault {
        BookFault::Exhausted => StoreFault::Exhausted,
        BookFault::Memory => StoreFault::Memory,
        BookFault::NoControl | BookFault::NotPending | BookFault::Device => StoreFault::Device,
    }
}

impl<B> BookOutputs<B> {
    /// Outputs over this book, by this index map. No point is reserved.
    pub fn new(map: IndexMap, book: B) -> Self
        ensures map { map_in result ≡ map }
        ensures book { book_in result ≡ book }
        ensures reserved { reserved_in result ≡ none_reserved }
    {
        BookOutputs {
            map,
            book,
            reserved: None,
        }
    }

    /// Reserves the point of another centre's command from now on, or none; what was reserved before.
    pub fn reserve(&mut self, reserved: Option<Command>) -> Option<Command>
        ensures now { self.new ≡ with_reserved self.old reserved }
        ensures before { result ≡ reserved_in self.old }
    {
        let before = self.reserved;
        self.reserved = reserved;
        before
    }

    /// The book, as it stands.
    pub fn into_book(self) -> B
        ensures { result ≡ book_in self }
    {
        let BookOutputs {
            map: _,
            book,
            reserved: _,
        } = self;
        book
    }

    /// The index map.
    pub fn map(&self) -> &IndexMap
        ensures { result.now ≡ map_in self.now }
    {
        &self.map
    }

    /// The book, for writing.
    pub fn book(&mut self) -> &mut B
        ensures* writes_back { sem 𝓛 (Lends (the_row B.row) B.row self.entry result (with_book self.old)) }
        ensures value { result.now ≡ book_in self.old }
    {
        &mut self.book
    }

    /// Whether the command's output is a substation's, as it was looked up, and a block obeys the code rule.
    fn can_relay(&self, command: &Command, below: &Option<(u8, Command)>) -> bool
        requires { below.now ≡ command_below (map_in self.now) command.now }
        ensures { result ≡ can_relay (map_in self.now) command.now }
    {
        below.is_some() && obeys_code(command)
    }

    /// What a command is answered: NOT_SUPPORTED where its output is no substation's or a block breaks the code rule, else
    /// ALREADY_ACTIVE where another centre has its point reserved, else SUCCESS. Its output was looked up already.
    fn status_of(&self, command: &Command, below: &Option<(u8, Command)>) -> Status
        requires { below.now ≡ command_below (map_in self.now) command.now }
        ensures { result ≡ relay_check (map_in self.now) (reserved_in self.now) command.now }
    {
        if !self.can_relay(command, below) {
            Status::NOT_SUPPORTED
        } else if is_reserved(&self.reserved, command) {
            Status::ALREADY_ACTIVE
        } else {
            Status::SUCCESS
        }
    }
}

impl<B: Book> BookOutputs<B> {
    /// Adds a command to the book for its substation, as it goes there: with the substation's own index.
    fn add(&mut self, alloc: Global, below: Option<(u8, Command)>) -> Result<(), StoreFault>
        requires { IfSome below (λ found. found.0 < MAX_SUBSTATIONS) }
        ensures map { map_in self.new ≡ map_in self.old }
        ensures reserved { reserved_in self.new ≡ reserved_in self.old }
        ensures call { IsStoreCall (IsWell B.honest B.is_stopped) (λ o. B.is_stopped (book_in o)) (λ _. ⊤) (HoldsSame B.contents) (λ _ _. ⊤) StoreFault.Device (IsSome below) self.old self.new result }
        ensures added { IsWell B.honest B.is_stopped self.new → OnOk result (B.contents (book_in self.new) ≡ added_for (B.contents (book_in self.old)) below) }
        ensures not_exhausted { IsWell B.honest B.is_stopped self.new → IsSome below → OnOk result ((B.contents (book_in self.old)).last_id < MAX_ID) }
        ensures exhausted { IsWell B.honest B.is_stopped self.new → IfErr result (λ e. e ≡ StoreFault.Exhausted → MAX_ID ≤ (B.contents (book_in self.old)).last_id) }
        ensures exhausted_first { IsWell B.honest B.is_stopped self.new → IfErr result (λ e. e ≡ StoreFault.Memory → (B.contents (book_in self.old)).last_id < MAX_ID) }
    {
        if let Some((substation, command)) = below {
            if let Err(fault) = self.book.add(alloc, substation, &command) {
                return Err(fault_of(fault));
            }
        }
        Ok(())
    }
}

/// One command at a time. A command is answered NOT_SUPPORTED where its output is no substation's or a block breaks the code
/// rule, else ALREADY_ACTIVE where another centre's select has its point reserved, else SUCCESS. What performs a command is
/// the book's `add`, so that a fault of the book is the fault of the call. No output shows a status.
impl<B: Book> Outputs for BookOutputs<B> {
    ghost use Rattle.std.specs.Prelude.{true};
    ghost use Rattle.dnp_concentrator.specs.BookOutputs.{book_in, panel_of, IsWell, Performs, Exhausts};

    ghost panel = { panel_of B.contents };

    ghost performs = { Performs B.contents };

    ghost exhausts = { Exhausts B.contents };

    ghost honest = { IsWell B.honest B.is_stopped };

    ghost is_stopped = { λ o. B.is_stopped (book_in o) };

    ghost may_fault = { λ _. true };

    fn most(&self) -> usize {
        COMMANDS_AT_ONCE
    }

    fn outputs(&self) -> u16 {
        0
    }

    fn status(&self, _index: u16) -> u8 {
        0
    }

    fn check(&self, command: &Command) -> Status {
        self.status_of(command, &self.map.command_below(command))
    }

    fn operate(
        &mut self,
        alloc: Global,
        commands: &[Command],
    ) -> Result<ArrayVec<Status, MAX_COMMANDS>, StoreFault> {
        let mut statuses = ArrayVec::new();
        let [command] = commands else {
            return Ok(statuses);
        };
        let below = self.map.command_below(command);
        let status = self.status_of(command, &below);
        if status == Status::SUCCESS {
            self.add(alloc, below)?;
        }
        statuses.push(status);
        Ok(statuses)
    }
}
