//! A concentrator's controls on their way down.

ghost use Rattle.std.specs.Prelude.{◌≡◌, ◌<◌, false, None, IfOk, OnOk, OnErr, length};
ghost use Rattle.dnp_controls.specs.Moves.{AreGranted, after};
ghost use Rattle.dnp_concentrator.specs.Concentrator.{book_of, link_at, links_of, KeepsOthers, SetsLink};
ghost use Rattle.dnp_concentrator.specs.Relayed as says;
ghost use Rattle.dnp_concentrator.specs.Relaying as spec;

use crate::concentrator::Concentrator;
use crate::relayed::{Relayed, RelayedStep};
use dnp_controls::{Book, BookFault};
use dnp_eventbuf::PairLanes;
use dnp_master::Fragment;
use std::alloc::Global;

impl<Q: PairLanes, B: Book> Concentrator<Q, B> {
    /// One step of relaying the book's controls for the substation. On an open, idle link it is the first of these that
    /// fits: the control in progress whose outcome is known is finished in the book; the one whose select stands at the
    /// master is spent in the book, and only then its OPERATE is asked; the one whose select stands no longer is selected
    /// again; the least pending one for the substation is selected.
    ///
    /// Refused by the book alone, and then nothing has changed.
    pub fn relay(&mut self, alloc: Global, substation: u8, now: u64) -> Result<Relayed, BookFault>
        requires { substation < length (links_of self.old) }
        ensures told { B.honest (book_of self.new) → IfOk result (λ answer. says.Tells (link_at self.old substation).master.seq
            (spec.step_of (link_at self.old substation) (B.contents (book_of self.old)).entries substation) answer) }
        ensures link { B.honest (book_of self.new) → OnOk result (SetsLink self.old substation (spec.relaying_after (link_at self.old substation) now
            (spec.step_of (link_at self.old substation) (B.contents (book_of self.old)).entries substation)) self.new) }
        ensures ledger { B.honest (book_of self.new) → OnOk result (B.contents (book_of self.new) ≡ spec.ledger_after (B.contents (book_of self.old))
            (spec.step_of (link_at self.old substation) (B.contents (book_of self.old)).entries substation)) }
        // The book grants what the answer tells.
        ensures granted { B.honest (book_of self.new) → IfOk result (λ answer. AreGranted (B.contents (book_of self.old)) (says.moves_of answer)) }
        ensures moved { B.honest (book_of self.new) → IfOk result (λ answer.
            B.contents (book_of self.new) ≡ after (B.contents (book_of self.old)) (says.moves_of answer)) }
        // What is sent was pending, and is spent by this very call.
        ensures spent { B.honest (book_of self.new) → IfOk result (λ answer.
            says.IfSent answer (says.IsSpentBy (B.contents (book_of self.old)) (B.contents (book_of self.new)))) }
        // Where none is in progress, the pending one of the least id comes.
        ensures least { B.honest (book_of self.new) → (link_at self.old substation).progress ≡ None → IfOk result (λ answer.
            says.IfSelecting answer (says.IsLeast (B.contents (book_of self.old)).entries substation)) }
        ensures own { B.honest (book_of self.new) → says.IsOf (B.contents (book_of self.old)).entries substation (link_at self.old substation).progress
            → OnOk result (says.IsOf (B.contents (book_of self.new)).entries substation (link_at self.new substation).progress) }
        ensures unchanged { OnErr result (links_of self.new ≡ links_of self.old) }
        ensures others { KeepsOthers self.old substation self.new }
        ensures book { says.GoesByBook B.honest B.is_stopped B.contents B.asks_memory (link_at self.old substation) substation (book_of self.old) (book_of self.new) result }
    {
        let mut request = Fragment::new();
        let step = self.relay_into(&mut request, alloc, substation, now)?;
        Ok(step.with_request(request))
    }

    /// One step of relaying, as `relay` makes it, but its request, if it has one, is put into the caller's fragment, in place
    /// of what was there. Where it has none, and where the book refuses, that is left as it was.
    pub fn relay_into(
        &mut self,
        request: &mut Fragment,
        alloc: Global,
        substation: u8,
        now: u64,
    ) -> Result<RelayedStep, BookFault>
        requires { substation < length (links_of self.old) }
        ensures told { B.honest (book_of self.new) → IfOk result (λ answer. says.Tells (link_at self.old substation).master.seq
            (spec.step_of (link_at self.old substation) (B.contents (book_of self.old)).entries substation) (says.with_request answer request.new)) }
        ensures link { B.honest (book_of self.new) → OnOk result (SetsLink self.old substation (spec.relaying_after (link_at self.old substation) now
            (spec.step_of (link_at self.old substation) (B.contents (book_of self.old)).entries substation)) self.new) }
        ensures ledger { B.honest (book_of self.new) → OnOk result (B.contents (book_of self.new) ≡ spec.ledger_after (B.contents (book_of self.old))
            (spec.step_of (link_at self.old substation) (B.contents (book_of self.old)).entries substation)) }
        // The book grants what the answer tells.
        ensures granted { B.honest (book_of self.new) → IfOk result (λ answer.
            AreGranted (B.contents (book_of self.old)) (says.moves_of (says.with_request answer request.new))) }
        ensures moved { B.honest (book_of self.new) → IfOk result (λ answer.
            B.contents (book_of self.new) ≡ after (B.contents (book_of self.old)) (says.moves_of (says.with_request answer request.new))) }
        // What is sent was pending, and is spent by this very call.
        ensures spent { B.honest (book_of self.new) → IfOk result (λ answer.
            says.IfSent (says.with_request answer request.new) (says.IsSpentBy (B.contents (book_of self.old)) (B.contents (book_of self.new)))) }
        // Where none is in progress, the pending one of the least id comes.
        ensures least { B.honest (book_of self.new) → (link_at self.old substation).progress ≡ None → IfOk result (λ answer.
            says.IfSelecting (says.with_request answer request.new) (says.IsLeast (B.contents (book_of self.old)).entries substation)) }
        ensures own { B.honest (book_of self.new) → says.IsOf (B.contents (book_of self.old)).entries substation (link_at self.old substation).progress
            → OnOk result (says.IsOf (B.contents (book_of self.new)).entries substation (link_at self.new substation).progress) }
        ensures unchanged { OnErr result (links_of self.new ≡ links_of self.old) }
        ensures left { OnErr result (request.new ≡ request.old) }
        ensures left_alone { IfOk result (λ answer. says.has_request answer ≡ false → request.new ≡ request.old) }
        ensures others { KeepsOthers self.old substation self.new }
        ensures book { says.GoesByBook B.honest B.is_stopped B.contents B.asks_memory (link_at self.old substation) substation (book_of self.old) (book_of self.new) result }
    {
        let book = self.outputs.book();
        self.links[usize::from(substation)].relay_into(request, alloc, now, substation, book)
    }
}
