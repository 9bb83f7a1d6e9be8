//! A centre on a stream.

ghost use Rattle.std.specs.Prelude.{◌≡◌, ◌≢◌, ◌<◌, ◌⊎◌, All, Err, IfErr, IfOk, IsTrue, OnErr, OnOk, false, length};
ghost use Rattle.dnp_eventbuf.specs.Archive.{passes_limit};
ghost use Rattle.dnp_master.specs.Calls.{receive_of};
ghost use Rattle.dnp_concentrator.specs.Centre.{book_of, indices_of, journal_of, link_of};
ghost use Rattle.dnp_concentrator.specs.declared.cause.Cause.TheVariants as cause;
ghost use Rattle.dnp_streams.specs.declared.stream.station.StationFault.TheVariants as told;
ghost use Rattle.dnp_streams.specs.streams.Centres.{CentreReceives, centre_seen};
ghost use Rattle.dnp_streams.specs.streams.Masters.{RefusesRows};
ghost use Rattle.dnp_streams.specs.streams.Stations.{answer_in, answer_of};

use crate::stream::asker::Asker;
use crate::stream::kept::KeptAnswer;
use crate::stream::master::{fault_of, nothing};
use crate::stream::station::{Answer, Station, StationFault};
use dnp_concentrator::{Centre, RelayedStep};
use dnp_controls::{Book, BookFault};
use dnp_eventbuf::JournalStore;
use dnp_master::{AskFault, Fragment, Task};
use std::alloc::Global;

impl<J: JournalStore, B: Book> Station for Centre<J, B> {
    ghost use Rattle.dnp_concentrator.specs.Centre.{book_of, indices_of, journal_of};
    ghost use Rattle.dnp_concentrator.specs.declared.span.Spans.{Spans};
    ghost use Rattle.std.specs.Prelude.{List};
    ghost use Rattle.dnp_streams.specs.streams.Asking.{centre_asking};
    ghost use Rattle.dnp_streams.specs.streams.CentreLives.{centre_lives};
    ghost use Rattle.dnp_streams.specs.streams.Centres.{CentreSeen, centre_hung_up, centre_opens, centre_receives, centre_seen};

    ghost State = { CentreSeen };

    ghost state = { λ c. centre_seen J.archive B.contents c };

    ghost Kept = { List Spans };

    ghost kept = { λ c. indices_of c };

    ghost honest = { λ c. J.honest (journal_of c) × B.honest (book_of c) };

    ghost opens = { centre_opens };

    ghost receives = { centre_receives };

    ghost asking = { centre_asking };

    ghost life = { centre_lives };

    ghost hung_up_of = { centre_hung_up };

    fn opened(&mut self, _alloc: Global, _now: u64) -> Result<Answer, StationFault> {
        self.opened();
        Ok(nothing())
    }

    fn receive(&mut self, alloc: Global, now: u64, octets: &[u8]) -> Result<Answer, StationFault>
        ensures kept { indices_of self.new ≡ indices_of self.old }
        ensures held { (J.honest (journal_of self.new) × B.honest (book_of self.new)) → (J.honest (journal_of self.old) × B.honest (book_of self.old)) }
        ensures answered { (J.honest (journal_of self.new) × B.honest (book_of self.new))
            → IfOk result (λ answer. CentreReceives (centre_seen J.archive B.contents self.old) now octets.now (answer_of answer) (centre_seen J.archive B.contents self.new)) }
        ensures refused { (J.honest (journal_of self.new) × B.honest (book_of self.new))
            → IfErr result (λ fault. RefusesRows (receive_of (link_of self.old).master now octets.now)
            (λ t. passes_limit (J.archive (journal_of self.old)) t.events) fault) }
        ensures unchanged { (J.honest (journal_of self.new) × B.honest (book_of self.new))
            → OnErr result (centre_seen J.archive B.contents self.new ≡ centre_seen J.archive B.contents self.old) }
        ensures some { IfOk result (λ answer. All (λ fragment. 0 < length fragment) (answer_of answer).send) }
        // It says Device exactly where the journal has answered it, and Memory before that is asked, or where the numbers are there.
        ensures stopped { result ≡ Err (told.Cause cause.Device) → IsTrue (J.is_stopped (journal_of self.new)) }
        ensures runs_on { result ≢ Err (told.Cause cause.Device) → J.is_stopped (journal_of self.new) ≡ J.is_stopped (journal_of self.old) }
        ensures exhausted_first { J.honest (journal_of self.new) → result ≡ Err (told.Cause cause.Memory) → (journal_of self.new ≡ journal_of self.old)
            ⊎ IfOk (receive_of (link_of self.old).master now octets.now) (λ t. passes_limit (J.archive (journal_of self.old)) t.events ≡ false) }
    {
        let mut answer = KeptAnswer::new(alloc);
        Station::receive_into(&mut *self, &mut answer, alloc, now, octets)?;
        Ok(answer.into_answer())
    }

    fn receive_into(
        &mut self,
        answer: &mut KeptAnswer,
        alloc: Global,
        now: u64,
        octets: &[u8],
    ) -> Result<(), StationFault>
        ensures kept { indices_of self.new ≡ indices_of self.old }
        ensures held { (J.honest (journal_of self.new) × B.honest (book_of self.new)) → (J.honest (journal_of self.old) × B.honest (book_of self.old)) }
        ensures answered { (J.honest (journal_of self.new) × B.honest (book_of self.new))
            → OnOk result (CentreReceives (centre_seen J.archive B.contents self.old) now octets.now (answer_in answer.new) (centre_seen J.archive B.contents self.new)) }
        ensures refused { (J.honest (journal_of self.new) × B.honest (book_of self.new))
            → IfErr result (λ fault. RefusesRows (receive_of (link_of self.old).master now octets.now)
            (λ t. passes_limit (J.archive (journal_of self.old)) t.events) fault) }
        ensures unchanged { (J.honest (journal_of self.new) × B.honest (book_of self.new))
            → OnErr result (centre_seen J.archive B.contents self.new ≡ centre_seen J.archive B.contents self.old) }
        ensures left { OnErr result (answer.new ≡ answer.old) }
        ensures some { OnOk result (All (λ fragment. 0 < length fragment) (answer_in answer.new).send) }
        // It says Device exactly where the journal has answered it, and Memory before that is asked, or where the numbers are there.
        ensures stopped { result ≡ Err (told.Cause cause.Device) → IsTrue (J.is_stopped (journal_of self.new)) }
        ensures runs_on { result ≢ Err (told.Cause cause.Device) → J.is_stopped (journal_of self.new) ≡ J.is_stopped (journal_of self.old) }
        ensures exhausted_first { J.honest (journal_of self.new) → result ≡ Err (told.Cause cause.Memory) → (journal_of self.new ≡ journal_of self.old)
            ⊎ IfOk (receive_of (link_of self.old).master now octets.now) (λ t. passes_limit (J.archive (journal_of self.old)) t.events ≡ false) }
    {
        match self.receive(alloc, now, octets) {
            Ok(actions) => {
                answer.take(&actions);
                Ok(())
            }
            Err(fault) => Err(fault_of(fault)),
        }
    }

    fn hung_up(&mut self) {
        self.hung_up();
    }
}

impl<J: JournalStore, B: Book> Asker for Centre<J, B> {
    fn ask_into(&mut self, request: &mut Fragment, now: u64, task: Task) -> Result<(), AskFault> {
        self.ask_into(request, now, task)
    }

    fn relay_into(
        &mut self,
        request: &mut Fragment,
        alloc: Global,
        now: u64,
    ) -> Result<RelayedStep, BookFault> {
        self.relay_into(request, alloc, now)
    }

    fn idle(&self) -> bool {
        self.idle()
    }
}
