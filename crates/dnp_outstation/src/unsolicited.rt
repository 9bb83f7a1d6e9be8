//! Unsolicited responses: how one begins, and what becomes of it when its timer ends.

ghost use Rattle.std.specs.Prelude.{◌≡◌, ◌≤◌, ℕ, Bool, length};
ghost use Rattle.dnp_appfragment.specs.declared.function.Function.TheVariants as function;
ghost use Rattle.dnp_appfragment.specs.Built.{heads};
ghost use Rattle.dnp_appfragment.specs.Fragments.{response_octets};
ghost use Rattle.dnp_controls.specs.Selecting.{deadline};
ghost use Rattle.dnp_outstation.specs.steps.Answering.{KeepsWhole};
ghost use Rattle.dnp_outstation.specs.Connection.{starts, unsolicited_timer};
ghost use Rattle.dnp_outstation.specs.Content.{content_from};
ghost use Rattle.dnp_outstation.specs.steps.Filling.{ended};
ghost use Rattle.dnp_outstation.specs.steps.Pushing.{started_by, timed_by};
ghost use Rattle.dnp_outstation.specs.State.{State, Step};

use crate::connection::deadline;
use crate::indications::indications;
use crate::kept::KeptFragment;
use crate::offer::writer::Writer;
use crate::session::{Session, Unsolicited};
use dnp_appfragment::{Builder, Control, Iin};
use dnp_eventbuf::Lanes;

/// What the end of a timer makes of an unsolicited response.
#[derive(Clone, Copy, PartialEq, Eq)]
pub enum AtTimer {
    /// None is awaited, or its timer runs on.
    Waits,
    /// It is sent again.
    Repeats,
    /// It was repeated often enough, or a READ waits: the connection is closed.
    Closes,
}

/// Keeps what stands in the builder, with this control octet and these indications.
fn keep_response(kept: &mut KeptFragment, builder: &mut Builder, control: Control, iin: Iin)
    requires { builder.old.function ≡ function.UnsolicitedResponse }
    ensures value { kept.new ≡ response_octets (record { control = control; function = function.UnsolicitedResponse; iin = iin; headers = heads builder.old }) }
    ensures whole { 4 ≤ length kept.new }
{
    // What is left says that the fragment fits.
    let _left = builder.left();
    kept.keep(builder.fragment(control, iin));
}

impl Session {
    /// Begins the unsolicited response that stands in the writer: keeps its octets, and awaits its confirm
    /// until `ends`.
    pub(crate) fn start<L: Lanes>(
        &mut self,
        writer: &mut Writer,
        lanes: &mut L,
        restart: bool,
        ends: u64,
    )
        requires { writer.old.builder.function ≡ function.UnsolicitedResponse }
        ensures same { lanes.new ≡ lanes.old }
        ensures started { L.honest lanes.new → (step : Step) (now : ℕ) (is_last : Bool) → step.state.lanes ≡ L.contents lanes.new
            → step.state.core.restart ≡ restart → step.state.core.session ≡ self.old → ends ≡ deadline now step.state.core.times.confirm_ms
            → starts step now (content_from (ended is_last writer.old)) ≡ started_by step self.new }
        ensures whole { 4 ≤ length self.new.unsolicited_response }
        ensures keeps { KeepsWhole self.old → KeepsWhole self.new }
    {
        let upto = writer.upto;
        let seq = self.next;
        let iin = indications(lanes, restart, &upto, 0);
        let control = Control {
            fir: true,
            fin: true,
            con: true,
            uns: true,
            seq: seq.number(),
        };
        keep_response(
            &mut self.unsolicited_response,
            &mut writer.builder,
            control,
            iin,
        );
        self.unsolicited = Some(Unsolicited {
            seq,
            upto,
            ends,
            repeats: 0,
        });
        self.next = seq.next();
    }

    /// What becomes of the unsolicited response at this moment. Where it is sent again, its repeat is counted
    /// and its confirm awaited from then on.
    pub(crate) fn time_unsolicited(&mut self, now: u64, confirm_ms: u64, retries: u8) -> AtTimer
        ensures timed { (s : State) → s.core.session ≡ self.old → s.core.times.confirm_ms ≡ confirm_ms → s.core.times.retries ≡ retries
            → unsolicited_timer s now ≡ timed_by s self.new result }
        ensures octets { self.new.unsolicited_response ≡ self.old.unsolicited_response }
        ensures keeps { KeepsWhole self.old → KeepsWhole self.new }
    {
        let holds_read = self.holds_read();
        let Some(response) = &mut self.unsolicited else {
            return AtTimer::Waits;
        };
        if now < response.ends {
            return AtTimer::Waits;
        }
        if holds_read || retries <= response.repeats {
            return AtTimer::Closes;
        }
        response.ends = deadline(now, confirm_ms);
        response.repeats += 1;
        AtTimer::Repeats
    }
}
