//! Why what a station sends is refused, as it was said: the same cause is said once, wherever in a response it lies.

use dnp_notices::{Refusal, Standing, Trouble};
use std::alloc::Global;

/// How many causes are kept.
const MOST: usize = 16;

/// The causes that were said since the station answered last.
#[derive(Drop)]
pub(crate) struct Refused {
    /// The causes.
    said: Vec<Refusal>,
}

/// Whether two refusals have the same cause, at whatever place.
fn are_alike(one: Refusal, other: Refusal) -> bool {
    match (one, other) {
        (Refusal::Object(group, variation, _), Refusal::Object(group2, variation2, _)) => {
            group == group2 && variation == variation2
        }
        (Refusal::Form(fault, _), Refusal::Form(fault2, _)) => fault.number() == fault2.number(),
        (Refusal::Lacked(kind, index), Refusal::Lacked(kind2, index2))
        | (Refusal::Classless(kind, index), Refusal::Classless(kind2, index2)) => {
            kind.number() == kind2.number() && index == index2
        }
        _ => false,
    }
}

impl Refused {
    /// Nothing was said.
    pub(crate) fn new(alloc: Global) -> Refused {
        Refused {
            said: Vec::new(alloc),
        }
    }

    /// Whether one with this cause was said.
    fn has(&self, refusal: Refusal) -> bool {
        for said in self.said.iter() {
            if are_alike(*said, refusal) {
                return true;
            }
        }
        false
    }

    /// The trouble with a station that stands so, and of which this was refused: that which it is in, if this was said before.
    pub(crate) fn trouble_of(&mut self, refusal: Refusal, standing: &Standing) -> Trouble {
        match *standing {
            Standing::Lost { trouble, .. } if self.has(refusal) => trouble,
            _ => {
                self.note(refusal);
                Trouble::Refused(refusal)
            }
        }
    }

    /// This is said. If there is no memory for it, it is said again.
    fn note(&mut self, refusal: Refusal) {
        if self.said.len() < MOST {
            let _ = self.said.push(refusal);
        }
    }

    /// The station has answered.
    pub(crate) fn clear(&mut self) {
        self.said.clear();
    }
}
