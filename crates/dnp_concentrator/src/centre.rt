//! A centre.

ghost use Rattle.std.specs.Prelude.{◌≡◌, ◌⊎◌, ◌↔◌, ℕ, [], false, Ok, Err, IsTrue, IsOk, IfOk, IfErr, OnOk, OnErr, MatchResult, option_map};
ghost use Rattle.std.specs.Borrow.{Lends, sem};
ghost use Rattle.std.specs.Result.{IsOkAnd};
ghost use Rattle.dnp_appfragment.specs.Fragments.{IsRequest};
ghost use Rattle.dnp_controls.specs.Moves.{AreGranted, after};
ghost use Rattle.dnp_eventbuf.specs.Archive.{passes_limit, with_events};
ghost use Rattle.dnp_master.specs.Calls.{actions_of, ask_answer, has_rows, receive_of};
ghost use Rattle.dnp_master.specs.Requests.{request_for};
ghost use Rattle.dnp_master.specs.Sinks.{IsSinkFault};
ghost use Rattle.dnp_master.specs.State as master;
ghost use Rattle.dnp_concentrator.specs.contracts.centre.Centre.{the_row};
ghost use Rattle.dnp_concentrator.specs.Centre.{book_of, indices_of, journal_of, link_of, with_book, with_journal, LeavesJournal};
ghost use Rattle.dnp_concentrator.specs.IndexMap.{IsTooWide, Overlaps};
ghost use Rattle.dnp_concentrator.specs.Plan.{KeepsLimits, map_of};
ghost use Rattle.dnp_concentrator.specs.PointsAbove.{points_above};
ghost use Rattle.dnp_concentrator.specs.Relayed as says;
ghost use Rattle.dnp_concentrator.specs.Relaying as spec;
ghost use Rattle.dnp_concentrator.specs.Restarting.{LinkRestartsAsNew};
ghost use Rattle.dnp_concentrator.specs.declared.plan.Plan.{Plan as PlanValue};

use crate::fault::MapFault;
use crate::index_map::IndexMap;
use crate::plan::Plan;
use crate::points_above::points_above;
use crate::relay::Relay;
use crate::relayed::{Relayed, RelayedStep};
use dnp_controls::{Book, BookFault};
use dnp_eventbuf::JournalStore;
use dnp_master::{AskFault, Fragment, MasterActions, MasterFault, Task};
use std::alloc::Global;

/// A centre: a master with a journal of the events that came, and a book of the controls that were issued.
///
/// A clause sees its link as `Relaying`: the master, and the control in progress. A refused call changes
/// nothing. The moment of a call, `now`, is in milliseconds.
pub struct Centre<J, B> {
    pub(crate) map: IndexMap,
    pub(crate) relay: Relay,
    pub(crate) journal: J,
    pub(crate) book: B,
}

impl<J: Drop, B: Drop> Drop for Centre<J, B> {
    /// One call for whoever lets it go: its parts are looked at here alone.
    fn drop(self) {
        let Centre {
            map: _,
            relay: _,
            journal: _,
            book: _,
        } = self;
    }
}

/// The target of all controls in a centre's book: the station below.
pub(crate) const STATION: u8 = 0;

impl<J: Drop, B: Drop> Centre<J, B> {
    /// A closed centre of a plan that keeps its limits (`Plan::keeps_limits`), over this journal and this book,
    /// as a restart leaves it.
    ///
    /// Refused is, first of all, an index above over 65,535 (`TooWide`), and then an index above of one kind that
    /// two substations would share (`Overlap`). After these it may be out of memory (`Memory`). What is refused
    /// drops journal and book.
    pub fn new(alloc: Global, plan: &Plan, journal: J, book: B) -> Result<Self, MapFault>
        requires { KeepsLimits plan.now }
        ensures link { IfOk result (λ c. link_of c ≡ spec.new_relaying (points_above plan.now) plan.now.times) }
        ensures restarts { IfOk result (λ c. LinkRestartsAsNew plan.now (link_of c)) }
        ensures indices { IfOk result (λ c. indices_of c ≡ map_of plan.now) }
        ensures journal { IfOk result (λ c. journal_of c ≡ journal) }
        ensures book { IfOk result (λ c. book_of c ≡ book) }
        ensures too_wide { (result ≡ Err MapFault.TooWide) ↔ IsTooWide (map_of plan.now) }
        ensures overlap { (result ≡ Err MapFault.Overlap) ↔ (Overlaps (map_of plan.now) × (IsTooWide (map_of plan.now) → ⊥)) }
    {
        let map = IndexMap::new(alloc, plan)?;
        let _mapped = map.substations();
        let Ok(points) = points_above(alloc, plan) else {
            return Err(MapFault::Memory);
        };
        Ok(Centre {
            map,
            relay: Relay::new(points, plan.times),
            journal,
            book,
        })
    }
}

impl<J, B> Centre<J, B> {
    /// The journal and the book, as they stand.
    pub fn into_stores(self) -> (J, B)
        ensures journal { result.0 ≡ journal_of self }
        ensures book { result.1 ≡ book_of self }
    {
        let Centre {
            map: _,
            relay: _,
            journal,
            book,
        } = self;
        (journal, book)
    }

    /// The journal, for writing.
    pub fn journal(&mut self) -> &mut J
        ensures* writes_back { sem 𝓛 (Lends (the_row J.row B.row) J.row self.entry result (with_journal self.old)) }
        ensures value { result.now ≡ journal_of self.old }
    {
        &mut self.journal
    }

    /// The book, for writing.
    pub fn book(&mut self) -> &mut B
        ensures* writes_back { sem 𝓛 (Lends (the_row J.row B.row) B.row self.entry result (with_book self.old)) }
        ensures value { result.now ≡ book_of self.old }
    {
        &mut self.book
    }

    /// Whether it is open and awaits no response.
    pub fn idle(&self) -> bool
        ensures { result ≡ master.is_idle (link_of self.now).master }
    {
        self.relay.idle()
    }

    /// The id of the control in progress, if there is one.
    pub fn in_progress(&self) -> Option<u64>
        ensures { result ≡ option_map (λ p. p.id) (link_of self.now).progress }
    {
        self.relay.in_progress()
    }

    /// A connection was opened: the centre is idle, whatever it was before, and no control is in progress.
    pub fn opened(&mut self)
        ensures link { link_of self.new ≡ spec.opened (link_of self.old) }
        ensures journal { journal_of self.new ≡ journal_of self.old }
        ensures book { book_of self.new ≡ book_of self.old }
        ensures indices { indices_of self.new ≡ indices_of self.old }
    {
        self.relay.opened();
    }

    /// The connection is gone: the centre is closed, and no control is in progress.
    pub fn hung_up(&mut self)
        ensures link { link_of self.new ≡ spec.hung_up (link_of self.old) }
        ensures journal { journal_of self.new ≡ journal_of self.old }
        ensures book { book_of self.new ≡ book_of self.old }
        ensures indices { indices_of self.new ≡ indices_of self.old }
    {
        self.relay.hung_up();
    }

    /// A restart keeps journal and book alone: the rest is as `new` makes it.
    pub fn restart(&mut self)
        ensures link { link_of self.new ≡ spec.new_relaying (link_of self.old).master.plan (link_of self.old).master.times }
        // So it is as `new` makes it over this journal and this book, whatever came: `restart_laws`.
        ensures as_new { (plan : PlanValue) → LinkRestartsAsNew plan (link_of self.old)
            → link_of self.new ≡ spec.new_relaying (points_above plan) plan.times }
        ensures journal { journal_of self.new ≡ journal_of self.old }
        ensures book { book_of self.new ≡ book_of self.old }
        ensures indices { indices_of self.new ≡ indices_of self.old }
    {
        self.hung_up();
    }

    /// The moment, in milliseconds, at which the response timer ends; none while it doesn't run.
    pub fn next_deadline(&self) -> Option<u64>
        ensures { result ≡ master.next_deadline (link_of self.now).master }
    {
        self.relay.next_deadline()
    }

    /// The moment has come: where the response timer has ended, the centre closes. Whether it has closed now.
    pub fn tick(&mut self, now: u64) -> bool
        ensures closes { result ≡ master.is_timed_out (link_of self.old).master now }
        ensures link { link_of self.new ≡ spec.ticked (link_of self.old) now }
        ensures journal { journal_of self.new ≡ journal_of self.old }
        ensures book { book_of self.new ≡ book_of self.old }
        ensures indices { indices_of self.new ≡ indices_of self.old }
    {
        self.relay.tick(now)
    }

    /// Asks a task at this moment: the request, to be sent. Refused as `Master::ask` refuses it.
    ///
    /// Of what is asked here the book knows nothing: a control that is to operate once at most is issued,
    /// and relayed. A control whose select stood is selected again.
    pub fn ask(&mut self, now: u64, task: Task) -> Result<Fragment, AskFault>
        ensures answer { MatchResult result (λ request. ask_answer (link_of self.old).master task ≡ Ok request.items)
            (λ fault. ask_answer (link_of self.old).master task ≡ Err fault) }
        ensures reads { IfOk result (λ request. IsRequest request.items (request_for (link_of self.old).master.seq task)) }
        ensures link { link_of self.new ≡ spec.asking (link_of self.old) now task }
        ensures journal { journal_of self.new ≡ journal_of self.old }
        ensures book { book_of self.new ≡ book_of self.old }
        ensures indices { indices_of self.new ≡ indices_of self.old }
    {
        self.relay.ask(now, task)
    }

    /// Asks a task at this moment, as `ask` does, but the request, to be sent, is put into the caller's fragment, in place of
    /// what was there. A refusal leaves that as it was.
    pub fn ask_into(&mut self, request: &mut Fragment, now: u64, task: Task) -> Result<(), AskFault>
        ensures answer { MatchResult result (λ _. ask_answer (link_of self.old).master task ≡ Ok request.new.items)
            (λ fault. ask_answer (link_of self.old).master task ≡ Err fault) }
        ensures reads { OnOk result (IsRequest request.new.items (request_for (link_of self.old).master.seq task)) }
        ensures left { OnErr result (request.new ≡ request.old) }
        ensures link { link_of self.new ≡ spec.asking (link_of self.old) now task }
        ensures journal { journal_of self.new ≡ journal_of self.old }
        ensures book { book_of self.new ≡ book_of self.old }
        ensures indices { indices_of self.new ≡ indices_of self.old }
    {
        self.relay.ask_into(request, now, task)
    }
}

impl<J: JournalStore, B: Book> Centre<J, B> {
    /// Takes in octets that came at this moment, as `Master::receive` does, with the same refusals: the
    /// events of a fragment that is taken are put into the journal by one append, if there are any rows, and
    /// only then it is confirmed.
    pub fn receive(
        &mut self,
        alloc: Global,
        now: u64,
        octets: &[u8],
    ) -> Result<MasterActions, MasterFault>
        ensures refused { IfErr (receive_of (link_of self.old).master now octets.now) (λ fault. result ≡ Err fault) }
        ensures named { IfErr result (λ fault. (receive_of (link_of self.old).master now octets.now ≡ Err fault)
            ⊎ (IsSinkFault fault × IsOkAnd (receive_of (link_of self.old).master now octets.now) (λ t. IsTrue (has_rows t)))) }
        ensures unchanged { OnErr result (link_of self.new ≡ link_of self.old) }
        ensures link { OnOk result (IfOk (receive_of (link_of self.old).master now octets.now) (λ t. link_of self.new ≡ spec.received (link_of self.old) t)) }
        ensures actions { J.honest (journal_of self.new) → IfOk result (λ a. IfOk (receive_of (link_of self.old).master now octets.now) (λ t. a ≡ actions_of t [])) }
        ensures stored { J.honest (journal_of self.new) → OnOk result (IfOk (receive_of (link_of self.old).master now octets.now) (λ t.
            J.archive (journal_of self.new) ≡ with_events (J.archive (journal_of self.old)) t.events)) }
        // Where there are no rows, nothing is asked of the journal, and nothing refused.
        ensures spared { IfOk (receive_of (link_of self.old).master now octets.now) (λ t. has_rows t ≡ false
            → (journal_of self.new ≡ journal_of self.old) × IsOk result) }
        ensures unasked { OnErr (receive_of (link_of self.old).master now octets.now) (journal_of self.new ≡ journal_of self.old) }
        ensures journal { LeavesJournal J.honest J.is_stopped J.archive (journal_of self.old) (journal_of self.new) result }
        // Once the journal's device has failed, no rows are taken.
        ensures stopped { IsTrue (J.is_stopped (journal_of self.old))
            → OnOk result (IfOk (receive_of (link_of self.old).master now octets.now) (λ t. has_rows t ≡ false)) }
        ensures not_exhausted { J.honest (journal_of self.new) → OnOk result (IfOk (receive_of (link_of self.old).master now octets.now) (λ t.
            IsTrue (has_rows t) → passes_limit (J.archive (journal_of self.old)) t.events ≡ false)) }
        ensures exhausted { J.honest (journal_of self.new) → IfErr result (λ fault. fault ≡ MasterFault.Exhausted
            → IfOk (receive_of (link_of self.old).master now octets.now) (λ t. IsTrue (passes_limit (J.archive (journal_of self.old)) t.events))) }
        ensures exhausted_first { J.honest (journal_of self.new) → IfErr result (λ fault. fault ≡ MasterFault.Memory → (journal_of self.new ≡ journal_of self.old)
            ⊎ IfOk (receive_of (link_of self.old).master now octets.now) (λ t. passes_limit (J.archive (journal_of self.old)) t.events ≡ false)) }
        ensures book { book_of self.new ≡ book_of self.old }
        ensures indices { indices_of self.new ≡ indices_of self.old }
    {
        self.relay.receive(alloc, now, octets, &mut self.journal)
    }

    /// One step of relaying the controls that were issued. On an open, idle link it is the first of these that
    /// fits: the control in progress whose outcome is known is finished in the book; the one whose select
    /// stands at the master is spent in the book, and only then its OPERATE is asked; the one whose select
    /// stands no longer is selected again; the least pending one is selected.
    ///
    /// Refused by the book alone, and then nothing has changed.
    pub fn relay(&mut self, alloc: Global, now: u64) -> Result<Relayed, BookFault>
        ensures told { B.honest (book_of self.new) → IfOk result (λ answer.
            says.Tells (link_of self.old).master.seq (spec.step_of (link_of self.old) (B.contents (book_of self.old)).entries 0) answer) }
        ensures link { B.honest (book_of self.new) → OnOk result (link_of self.new
            ≡ spec.relaying_after (link_of self.old) now (spec.step_of (link_of self.old) (B.contents (book_of self.old)).entries 0)) }
        ensures ledger { B.honest (book_of self.new) → OnOk result (B.contents (book_of self.new)
            ≡ spec.ledger_after (B.contents (book_of self.old)) (spec.step_of (link_of self.old) (B.contents (book_of self.old)).entries 0)) }
        // The book grants what the answer tells.
        ensures granted { B.honest (book_of self.new) → IfOk result (λ answer. AreGranted (B.contents (book_of self.old)) (says.moves_of answer)) }
        ensures moved { B.honest (book_of self.new) → IfOk result (λ answer.
            B.contents (book_of self.new) ≡ after (B.contents (book_of self.old)) (says.moves_of answer)) }
        // What is sent was pending, and is spent by this very call.
        ensures spent { B.honest (book_of self.new) → IfOk result (λ answer.
            says.IfSent answer (says.IsSpentBy (B.contents (book_of self.old)) (B.contents (book_of self.new)))) }
        // Where none is in progress, the pending one of the least id comes.
        ensures least { B.honest (book_of self.new) → (link_of self.old).progress ≡ None → IfOk result (λ answer.
            says.IfSelecting answer (says.IsLeast (B.contents (book_of self.old)).entries 0)) }
        ensures own { B.honest (book_of self.new) → says.IsOf (B.contents (book_of self.old)).entries 0 (link_of self.old).progress
            → OnOk result (says.IsOf (B.contents (book_of self.new)).entries 0 (link_of self.new).progress) }
        ensures unchanged { OnErr result (link_of self.new ≡ link_of self.old) }
        ensures book { says.GoesByBook B.honest B.is_stopped B.contents B.asks_memory (link_of self.old) 0 (book_of self.old) (book_of self.new) result }
        ensures journal { journal_of self.new ≡ journal_of self.old }
        ensures indices { indices_of self.new ≡ indices_of self.old }
    {
        let mut request = Fragment::new();
        let step = self.relay_into(&mut request, alloc, now)?;
        Ok(step.with_request(request))
    }

    /// One step of relaying, as `relay` makes it, but its request, if it has one, is put into the caller's fragment, in place
    /// of what was there. Where it has none, and where the book refuses, that is left as it was.
    pub fn relay_into(
        &mut self,
        request: &mut Fragment,
        alloc: Global,
        now: u64,
    ) -> Result<RelayedStep, BookFault>
        ensures told { B.honest (book_of self.new) → IfOk result (λ answer.
            says.Tells (link_of self.old).master.seq (spec.step_of (link_of self.old) (B.contents (book_of self.old)).entries 0) (says.with_request answer request.new)) }
        ensures link { B.honest (book_of self.new) → OnOk result (link_of self.new
            ≡ spec.relaying_after (link_of self.old) now (spec.step_of (link_of self.old) (B.contents (book_of self.old)).entries 0)) }
        ensures ledger { B.honest (book_of self.new) → OnOk result (B.contents (book_of self.new)
            ≡ spec.ledger_after (B.contents (book_of self.old)) (spec.step_of (link_of self.old) (B.contents (book_of self.old)).entries 0)) }
        // The book grants what the answer tells.
        ensures granted { B.honest (book_of self.new) → IfOk result (λ answer.
            AreGranted (B.contents (book_of self.old)) (says.moves_of (says.with_request answer request.new))) }
        ensures moved { B.honest (book_of self.new) → IfOk result (λ answer.
            B.contents (book_of self.new) ≡ after (B.contents (book_of self.old)) (says.moves_of (says.with_request answer request.new))) }
        // What is sent was pending, and is spent by this very call.
        ensures spent { B.honest (book_of self.new) → IfOk result (λ answer.
            says.IfSent (says.with_request answer request.new) (says.IsSpentBy (B.contents (book_of self.old)) (B.contents (book_of self.new)))) }
        // Where none is in progress, the pending one of the least id comes.
        ensures least { B.honest (book_of self.new) → (link_of self.old).progress ≡ None → IfOk result (λ answer.
            says.IfSelecting (says.with_request answer request.new) (says.IsLeast (B.contents (book_of self.old)).entries 0)) }
        ensures own { B.honest (book_of self.new) → says.IsOf (B.contents (book_of self.old)).entries 0 (link_of self.old).progress
            → OnOk result (says.IsOf (B.contents (book_of self.new)).entries 0 (link_of self.new).progress) }
        ensures unchanged { OnErr result (link_of self.new ≡ link_of self.old) }
        ensures left { OnErr result (request.new ≡ request.old) }
        ensures left_alone { IfOk result (λ answer. says.has_request answer ≡ false → request.new ≡ request.old) }
        ensures book { says.GoesByBook B.honest B.is_stopped B.contents B.asks_memory (link_of self.old) 0 (book_of self.old) (book_of self.new) result }
        ensures journal { journal_of self.new ≡ journal_of self.old }
        ensures indices { indices_of self.new ≡ indices_of self.old }
    {
        self.relay
            .relay_into(request, alloc, now, STATION, &mut self.book)
    }
}
