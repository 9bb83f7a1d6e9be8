//! What the words of a command mean.

ghost use Rattle.std.specs.Prelude.{◌≡◌, ◌^◌, ◌<◌};
ghost use Rattle.dnp_orders.specs.Numbers.{number_below};
ghost use Rattle.dnp_orders.specs.Orders.{action_said, block_said, command_at, command_said, ended, held_said, order_said, read_at, set16_said, set32_said, substation_below, timed_said};

use crate::action::Action;
use crate::fault::{OrderFault, Wanted};
use crate::numbers::{
    code_in, integer16_in, integer32_in, number8_in, number16_in, number32_in, time_in,
};
use crate::words::{nth_word, word_at};
use dnp_objects::Command;

/// The fault of the word at a place.
fn wrong(place: usize, wanted: Wanted) -> OrderFault
    ensures { result ≡ record { place = place; wanted = wanted } }
{
    OrderFault { place, wanted }
}

/// The number of an output at a place.
fn index_at(text: &str, place: usize) -> Result<u16, OrderFault>
    ensures { result ≡ read_at text.now place Wanted.Index (number_below (2 ^ 16)) }
{
    number16_in(word_at(text, place)).ok_or(wrong(place, Wanted::Index))
}

/// The number of milliseconds at a place.
fn milliseconds_at(text: &str, place: usize) -> Result<u32, OrderFault>
    ensures { result ≡ read_at text.now place Wanted.Milliseconds (number_below (2 ^ 32)) }
{
    number32_in(word_at(text, place)).ok_or(wrong(place, Wanted::Milliseconds))
}

/// A command, where the words end before this place.
fn ended(text: &str, place: usize, command: Command) -> Result<Command, OrderFault>
    ensures { result ≡ ended text.now place command }
{
    match nth_word(text, place) {
        Some(_) => Err(wrong(place, Wanted::End)),
        None => Ok(command),
    }
}

/// The command of an action that lasts until another one, whose word stands at this place.
fn held_command(text: &str, place: usize, action: Action) -> Result<Command, OrderFault>
    requires { place < 2 }
    ensures { result ≡ held_said text.now place action }
{
    let index = index_at(text, place + 1)?;
    let command = Command::Block {
        index,
        code: action.code(),
        count: 1,
        on_ms: 0,
        off_ms: 0,
    };
    ended(text, place + 2, command)
}

/// The command of an action that lasts for a time, whose word stands at this place.
fn timed_command(text: &str, place: usize, action: Action) -> Result<Command, OrderFault>
    requires { place < 2 }
    ensures { result ≡ timed_said text.now place action }
{
    let index = index_at(text, place + 1)?;
    let on_ms = time_in(word_at(text, place + 2)).ok_or(wrong(place + 2, Wanted::Time))?;
    let command = Command::Block {
        index,
        code: action.code(),
        count: 1,
        on_ms,
        off_ms: 0,
    };
    ended(text, place + 3, command)
}

/// The command of an action, whose word stands at this place.
#[tactic(auto, unfolding(crate::specs::Orders::action_said))]
fn action_command(text: &str, place: usize, action: Action) -> Result<Command, OrderFault>
    requires { place < 2 }
    ensures { result ≡ action_said text.now place action }
{
    if action.is_timed() {
        timed_command(text, place, action)
    } else {
        held_command(text, place, action)
    }
}

/// The command of the numbers of a block, whose word stands at this place.
#[tactic(auto, unfolding(crate::specs::Orders::block_said))]
fn block_command(text: &str, place: usize) -> Result<Command, OrderFault>
    requires { place < 2 }
    ensures { result ≡ block_said text.now place }
{
    let index = index_at(text, place + 1)?;
    let code = code_in(word_at(text, place + 2)).ok_or(wrong(place + 2, Wanted::Code))?;
    let count = number8_in(word_at(text, place + 3)).ok_or(wrong(place + 3, Wanted::Count))?;
    let on_ms = milliseconds_at(text, place + 4)?;
    let off_ms = milliseconds_at(text, place + 5)?;
    let command = Command::Block {
        index,
        code,
        count,
        on_ms,
        off_ms,
    };
    ended(text, place + 6, command)
}

/// The command that sets a value of 16 bits, whose word stands at this place.
#[tactic(auto, unfolding(crate::specs::Orders::set16_said))]
fn set16_command(text: &str, place: usize) -> Result<Command, OrderFault>
    requires { place < 2 }
    ensures { result ≡ set16_said text.now place }
{
    let index = index_at(text, place + 1)?;
    let value = integer16_in(word_at(text, place + 2)).ok_or(wrong(place + 2, Wanted::Value16))?;
    ended(text, place + 3, Command::Set16 { index, value })
}

/// The command that sets a value of 32 bits, whose word stands at this place.
#[tactic(auto, unfolding(crate::specs::Orders::set32_said))]
fn set32_command(text: &str, place: usize) -> Result<Command, OrderFault>
    requires { place < 2 }
    ensures { result ≡ set32_said text.now place }
{
    let index = index_at(text, place + 1)?;
    let value = integer32_in(word_at(text, place + 2)).ok_or(wrong(place + 2, Wanted::Value32))?;
    ended(text, place + 3, Command::Set32 { index, value })
}

/// The command that the words from a place on say.
fn command_at(text: &str, place: usize) -> Result<Command, OrderFault>
    requires { place < 2 }
    ensures { result ≡ command_at text.now place }
{
    let word = word_at(text, place);
    if let Some(action) = Action::named(word) {
        return action_command(text, place, action);
    }
    match word {
        "block" => block_command(text, place),
        "set16" => set16_command(text, place),
        "set32" => set32_command(text, place),
        _ => Err(wrong(place, Wanted::Order)),
    }
}

/// The command that a text says, as `trip 3 100ms`, `set16 2 -1` or `block 3 129 1 100 0`.
///
/// # Errors
///
/// The first word that is wrong or missing, and what belongs there.
pub fn read_command(text: &str) -> Result<Command, OrderFault>
    ensures { result ≡ command_said text.now }
{
    command_at(text, 0)
}

/// The number that a word writes, where it is below this count.
fn substation_in(word: &str, count: usize) -> Option<u8>
    ensures { result ≡ substation_below count word.now }
{
    let number = number8_in(word)?;
    if usize::from(number) < count {
        Some(number)
    } else {
        None
    }
}

/// The substation and the command that a text says, as `0 trip 3 100ms`, for so many substations.
///
/// # Errors
///
/// The first word that is wrong or missing, and what belongs there.
pub fn read_order(text: &str, substations: usize) -> Result<(u8, Command), OrderFault>
    ensures { result ≡ order_said substations text.now }
{
    let wanted = Wanted::Substation(substations);
    let substation = substation_in(word_at(text, 0), substations).ok_or(wrong(0, wanted))?;
    let command = command_at(text, 1)?;
    Ok((substation, command))
}
