//! What a stream needs of a station.

ghost use Rattle.std.specs.Prelude.{◌≡◌, ◌<◌, length, All, IfErr, IfOk, OnErr, OnOk};
ghost use Rattle.dnp_streams.specs.streams.Dialogues.{Asking};
ghost use Rattle.dnp_streams.specs.streams.Lives.{Life};
ghost use Rattle.dnp_streams.specs.streams.Stations.{Opening, Receiving, answer_in, answer_of};

use crate::stream::kept::KeptAnswer;
use dnp_concentrator::Cause;
use dnp_master::Outcome;
use dnp_outstation::Fragment;
use std::alloc::Global;

/// What a call of a station answers, beside what it makes of the station.
#[derive(Drop)]
pub struct Answer {
    /// The fragments to be sent, in order.
    pub send: [Option<Fragment>; 2],
    /// Whether the station has closed the connection.
    pub close: bool,
    /// How many event rows were stored of what came: none by an outstation.
    pub taken: usize,
    /// How a task came out with what came, if one did: none does at an outstation.
    pub outcome: Option<Outcome>,
}

/// Why a station refused a call.
#[derive(Clone, Copy, Debug, PartialEq, Eq)]
pub enum StationFault {
    /// What came is malformed, or has rows of points that the station doesn't know.
    Message,
    /// One of its stores refused it, or memory did.
    Cause(Cause),
}

/// A station that serves a stream of octets through a port: an outstation, or a master with a sink.
///
/// What a call promises of the station's state holds where the station is honest as the call ends. A refused call
/// changes nothing and sends nothing. Moments are in milliseconds.
pub trait Station {
    /// What the steps of the station know of it.
    ghost State: { Type 0 };

    /// The state that it is in.
    ghost state: { Self → State };

    /// What no call changes, whatever it answers; of a station that was lent something, by which reference it holds that,
    /// so that whoever lent it knows what it is once the loan is over.
    ghost Kept: { Type 0 };

    ghost kept: { Self → Kept };

    /// So far its stores have given back what was written to them.
    ghost honest: { Self → Type 0 };

    /// How it answers an opening, and why it refuses one.
    ghost opens: { Opening State };

    /// How it answers a fragment, and why it refuses one.
    ghost receives: { Receiving State };

    /// What a hang-up makes of a state.
    ghost hung_up_of: { State → State };

    /// How it asks and relays, and when it is idle, where it is an `Asker`.
    ghost asking: { Asking State };

    /// How it lives between what comes, where it is `Living`.
    ghost life: { Life State };

    /// A connection begins.
    fn opened(&mut self, alloc: Global, now: u64) -> Result<Answer, StationFault>
        ensures kept { kept self.new ≡ kept self.old }
        ensures held { honest self.new → honest self.old }
        ensures answered { honest self.new → IfOk result (λ answer. opens.answers (state self.old) now (answer_of answer) (state self.new)) }
        ensures refused { honest self.new → IfErr result (λ fault. opens.refuses (state self.old) now fault) }
        ensures unchanged { honest self.new → OnErr result (state self.new ≡ state self.old) }
        ensures some { IfOk result (λ answer. All (λ fragment. 0 < length fragment) (answer_of answer).send) };

    /// A fragment came.
    fn receive(&mut self, alloc: Global, now: u64, octets: &[u8]) -> Result<Answer, StationFault>
        ensures kept { kept self.new ≡ kept self.old }
        ensures held { honest self.new → honest self.old }
        ensures answered { honest self.new → IfOk result (λ answer. receives.answers (state self.old) now octets.now (answer_of answer) (state self.new)) }
        ensures refused { honest self.new → IfErr result (λ fault. receives.refuses (state self.old) now octets.now fault) }
        ensures unchanged { honest self.new → OnErr result (state self.new ≡ state self.old) }
        ensures some { IfOk result (λ answer. All (λ fragment. 0 < length fragment) (answer_of answer).send) };

    /// As `receive`, but what it answers comes into the caller's answer, in place of what was there; a refusal leaves
    /// that as it was. A station that answers fragment after fragment fills the answer itself: by the body here it is
    /// moved there, two fragments by value.
    fn receive_into(
        &mut self,
        answer: &mut KeptAnswer,
        alloc: Global,
        now: u64,
        octets: &[u8],
    ) -> Result<(), StationFault>
        ensures kept { kept self.new ≡ kept self.old }
        ensures held { honest self.new → honest self.old }
        ensures answered { honest self.new → OnOk result (receives.answers (state self.old) now octets.now (answer_in answer.new) (state self.new)) }
        ensures refused { honest self.new → IfErr result (λ fault. receives.refuses (state self.old) now octets.now fault) }
        ensures unchanged { honest self.new → OnErr result (state self.new ≡ state self.old) }
        ensures left { OnErr result (answer.new ≡ answer.old) }
        ensures some { OnOk result (All (λ fragment. 0 < length fragment) (answer_in answer.new).send) }
    {
        answer.put(self.receive(alloc, now, octets)?);
        Ok(())
    }

    /// The connection ends.
    fn hung_up(&mut self)
        ensures kept { kept self.new ≡ kept self.old }
        ensures held { honest self.new → honest self.old }
        ensures hung_up { honest self.new → state self.new ≡ hung_up_of (state self.old) };
}
