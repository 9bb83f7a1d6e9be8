//! Commands from the octets of objects, and back.
ghost use Rattle.std.specs.Prelude.{◌≡◌, ◌+◌, ◌⊎◌, ◌≤◌, ◌∷◌, [], ◌++◌, IfOk, IfErr, length, ℕ};
ghost use Rattle.byteorder.specs.Endian.{little_bytes};
ghost use Rattle.dnp_objects.specs.declared.command.Command.{Command as CommandValue};
ghost use Rattle.dnp_objects.specs.declared.fault.ObjectFault.{ObjectFault as FaultValue};
ghost use Rattle.dnp_objects.specs.Faults.{IsFirst};
ghost use Rattle.dnp_objects.specs.Commands.{IsCommandOf, ReadsCommand, IsCommandFault, command_octets};
ghost use Rattle.dnp_objects.specs.Parts as parts;

use crate::command::Command;
use crate::fault::ObjectFault;
use crate::status::Status;
use crate::table::{Content, content_of};
use arrayvec::ArrayVec;
use byteorder::{ByteOrder, LittleEndian};

/// The block in its octets.
fn block_of(index: u16, octets: &[u8]) -> Command
    requires { length octets.now ≡ 11 }
    ensures { result ≡ parts.block_of index octets.now }
{
    Command::Block {
        index,
        code: octets[0],
        count: octets[1],
        on_ms: LittleEndian::read_u32(&octets[2..]),
        off_ms: LittleEndian::read_u32(&octets[6..]),
    }
}

/// The analog output with a value of so many octets.
fn setpoint_of(width: u8, index: u16, octets: &[u8]) -> Command
    requires width { (width ≡ 2) ⊎ (width ≡ 4) }
    requires size { length octets.now ≡ width + 1 }
    ensures { result ≡ parts.setpoint_of width index octets.now }
{
    if width == 2 {
        Command::Set16 {
            index,
            value: LittleEndian::read_i16(octets),
        }
    } else {
        Command::Set32 {
            index,
            value: LittleEndian::read_i32(octets),
        }
    }
}

/// The block and its status.
fn read_block(index: u16, octets: &[u8]) -> (Command, Status)
    requires { length octets.now ≡ 11 }
    ensures { IsCommandOf Content.Block index octets.now result.0 result.1 }
{
    (block_of(index, octets), Status::of_octet(octets[10]))
}

/// The analog output and its status.
fn read_setpoint(width: u8, index: u16, octets: &[u8]) -> (Command, Status)
    requires width { (width ≡ 2) ⊎ (width ≡ 4) }
    requires size { length octets.now ≡ width + 1 }
    ensures { IsCommandOf (Content.Setpoint width) index octets.now result.0 result.1 }
{
    (
        setpoint_of(width, index, octets),
        Status::of_octet(octets[usize::from(width)]),
    )
}

/// The command and its status, or the first cause of a refusal.
fn read(
    group: u8,
    variation: u8,
    index: u16,
    octets: &[u8],
) -> Result<(Command, Status), ObjectFault>
    ensures found { IfOk result (ReadsCommand group variation index octets.now) }
    ensures fault { IfErr result (IsFirst (IsCommandFault group variation octets.now)) }
{
    match content_of(group, variation) {
        Some(Content::Block) if octets.len() == 11 => Ok(read_block(index, octets)),
        Some(Content::Setpoint(width)) if octets.len() == usize::from(width) + 1 => {
            Ok(read_setpoint(width, index, octets))
        }
        Some(Content::Block | Content::Setpoint(_)) => Err(ObjectFault::Cut),
        _ => Err(ObjectFault::ObjectUnknown),
    }
}

/// The command with this index, and its status, that the octets of one object of this group and
/// variation are (IEEE Std 1815-2012, object library). Bit 7 of the status octet is ignored.
///
/// Refused is, first of all, an object that carries no command (`ObjectUnknown`), and then another
/// number of octets than the object's (`Cut`).
pub fn read_command(
    group: u8,
    variation: u8,
    index: u16,
    octets: &[u8],
) -> Result<(Command, Status), ObjectFault>
    ensures found { IfOk result (ReadsCommand group variation index octets.now) }
    ensures only { (answer : CommandValue × ℕ) → ReadsCommand group variation index octets.now answer
        → result ≡ Ok answer }
    ensures fault { IfErr result (IsFirst (IsCommandFault group variation octets.now)) }
    ensures only_fault { (fault : FaultValue) → IsFirst (IsCommandFault group variation octets.now) fault
        → result ≡ Err fault }
{
    read(group, variation, index, octets)
}

/// The octets of a block and its status.
fn block_octets(code: u8, count: u8, on_ms: u32, off_ms: u32, status: Status) -> ArrayVec<u8, 11>
    ensures { result.items
        ≡ code ∷ count ∷ (little_bytes 4 on_ms ++ little_bytes 4 off_ms) ++ status ∷ [] }
{
    let mut octets = ArrayVec::new();
    octets.push(code);
    octets.push(count);
    octets.try_extend_from_slice(&on_ms.to_le_bytes()).unwrap();
    octets.try_extend_from_slice(&off_ms.to_le_bytes()).unwrap();
    octets.push(status.code());
    octets
}

/// The octets of a value and its status.
fn setpoint_octets(value: &[u8], status: Status) -> ArrayVec<u8, 11>
    requires { length value.now ≤ 10 }
    ensures { result.items ≡ value.now ++ status ∷ [] }
{
    let mut octets = ArrayVec::new();
    octets.try_extend_from_slice(value).unwrap();
    octets.push(status.code());
    octets
}

/// The octets of the command with its status as one object: of group 12 variation 1 for a block, of
/// group 41 variation 2 or 1 for an analog output of 16 or 32 bits (IEEE Std 1815-2012, object
/// library). The command's index stands elsewhere. Bit 7 of the status octet is 0.
pub fn write_command(command: &Command, status: Status) -> ArrayVec<u8, 11>
    ensures { result.items ≡ command_octets command.now status }
{
    match *command {
        Command::Block {
            index: _,
            code,
            count,
            on_ms,
            off_ms,
        } => block_octets(code, count, on_ms, off_ms, status),
        Command::Set16 { index: _, value } => setpoint_octets(&value.to_le_bytes(), status),
        Command::Set32 { index: _, value } => setpoint_octets(&value.to_le_bytes(), status),
    }
}
