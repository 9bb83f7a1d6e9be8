//! Lists of what became of the rows and commands of substations.

ghost use Rattle.std.specs.Prelude.{◌≡◌, ◌+◌, ◌<◌, ◌≤◌, [], ◌∷◌, ◌++◌, IsOk, OnOk, length};
ghost use Rattle.dnp_world.specs.Systems.{at_substation};

use std::alloc::{AllocError, Global};
use std::marker::Model;

/// Things beside the numbers of the substations that they are of. A clause sees them with the room that there is for more.
#[derive(Drop)]
pub(crate) struct SubstationList<T> {
    items: Vec<(u8, T)>,
}

impl<T> Model for SubstationList<T> {
    ghost use Rattle.std.specs.Prelude.{◌-◌, vec_len};
    ghost use Rattle.std.specs.Vec.{vec_capacity};
    ghost use Rattle.dnp_world.specs.Stationed.{Stationed};

    ghost Value = { Stationed T };

    ghost view = { λ list. record { items = list.items.items; room = vec_capacity list.items - vec_len list.items } };
}

impl<T: Copy> SubstationList<T> {
    /// Nothing.
    pub fn new(alloc: Global) -> SubstationList<T>
        ensures { result.items ≡ [] }
    {
        SubstationList {
            items: Vec::new(alloc),
        }
    }

    /// The things, in order.
    pub fn as_slice(&self) -> &[(u8, T)]
        ensures { result.now ≡ self.now.items }
    {
        self.items.as_slice()
    }

    /// Reserves room for this many more. An error says that it ran out of memory.
    pub fn reserve(&mut self, count: usize) -> Result<(), AllocError>
        ensures same { self.new.items ≡ self.old.items }
        ensures room { OnOk result (count ≤ self.new.room) }
        ensures enough { count ≤ self.old.room → IsOk result }
    {
        self.items.reserve(count)
    }

    /// Puts a thing of a substation after the others. There must be room.
    pub fn put(&mut self, substation: u8, thing: T)
        requires { 0 < self.old.room }
        ensures items { self.new.items ≡ self.old.items ++ (substation, thing) ∷ [] }
        ensures room { self.old.room ≤ self.new.room + 1 }
    {
        let _ = self.items.push((substation, thing));
    }

    /// Puts things of a substation after the others. There must be room for all of them.
    pub fn put_all(&mut self, substation: u8, things: &[T])
        requires { length things.now ≤ self.old.room }
        ensures { self.new.items ≡ self.old.items ++ at_substation substation things.now }
    {
        for thing in things {
            self.put(substation, *thing);
        }
    }
}
