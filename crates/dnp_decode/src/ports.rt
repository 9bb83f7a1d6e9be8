//! The assemblers of the directions of a stream.
ghost use Rattle.std.specs.Prelude.{◌≡◌, ◌==◌, ◌<◌, ℕ, if◌then◌else◌, IfOk, OnOk};
ghost use Rattle.dnp_transport.specs.Assembly.{Idle};
ghost use Rattle.dnp_decode.specs.steps.Remembered.{direction_of, assembly_at};

use dnp_transport::Assembler;
use std::alloc::{AllocError, Global};
use std::collections::BTreeMap;

/// The assemblers by their directions: a look-up takes as many steps as the tree is deep, whatever the addresses are.
pub(crate) type Ports = BTreeMap<u32, Box<Assembler>>;

/// The number of a direction: the station that sends, then the one that it sends to, which is under 2^16, so that no two
/// directions have one number.
pub(crate) fn direction_of(source: u16, dest: u16) -> u32
    ensures number { result ≡ direction_of source dest }
    ensures low { dest < 0x1_0000 }
{
    u32::from(source) * 0x1_0000 + u32::from(dest)
}

/// The direction's assembler, out of the ports, or a new one where there was none.
pub(crate) fn taken(
    alloc: Global,
    ports: &mut Ports,
    direction: u32,
) -> Result<Box<Assembler>, AllocError>
    ensures taken { IfOk result (λ b. b.value ≡ assembly_at ports.old direction) }
    ensures left { OnOk result ((d : ℕ) → assembly_at ports.new d ≡ (if direction == d then Idle else assembly_at ports.old d)) }
{
    match ports.remove(&direction) {
        Some(assembler) => Ok(assembler),
        None => Ok(Box::new(alloc, Assembler::new())?),
    }
}

/// Puts the direction's assembler among the ports.
pub(crate) fn put(
    ports: &mut Ports,
    direction: u32,
    assembler: Box<Assembler>,
) -> Result<(), AllocError>
    ensures { OnOk result ((d : ℕ) → assembly_at ports.new d ≡ (if direction == d then assembler.value else assembly_at ports.old d)) }
{
    ports.insert(direction, assembler)?;
    Ok(())
}
