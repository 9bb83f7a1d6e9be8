//! Laws of what an outstation sends and does, for whoever sees a link from outside: which rows its fragments
//! report and its confirms release, what it performs, and what it doesn't touch. Each function does nothing, and its
//! contract is a law.
ghost use Rattle.std.specs.Prelude.{◌≡◌, ◌≢◌, ◌⊎◌, ◌≤◌, ◌<◌, ◌+◌, ◌^◌, ℕ, Bool, true, false, All, List, [], ◌∷◌, ◌++◌, length, Option, None, Some, IsSome};
ghost use Rattle.dnp_objects.specs.declared.lane.LaneRow.{LaneRow};
ghost use Rattle.dnp_objects.specs.declared.limits.TheConstants.{LANES};
ghost use Rattle.dnp_objects.specs.declared.row.Kind.{Kind};
ghost use Rattle.dnp_appfragment.specs.declared.function.Function.TheVariants as function;
ghost use Rattle.dnp_appfragment.specs.Control.{ControlBits};
ghost use Rattle.dnp_appfragment.specs.EventRows.{events_in as rows_said};
ghost use Rattle.dnp_appfragment.specs.Headers.{Head};
ghost use Rattle.dnp_appfragment.specs.Table.{function_octet};
ghost use Rattle.dnp_pointdb.specs.declared.reading.Reading.{Reading};
ghost use Rattle.dnp_pointdb.specs.Sound as points;
ghost use Rattle.dnp_controls.specs.Panel.{Panel};
ghost use Rattle.dnp_controls.specs.Selecting.{Select, deadline};
ghost use Rattle.dnp_eventbuf.specs.Sound.{IsSoundBuffer};
ghost use Rattle.dnp_eventbuf.specs.EventBuffer.{EventBuffer};
ghost use Rattle.dnp_outstation.specs.declared.case.Case.TheVariants as case;
ghost use Rattle.dnp_outstation.specs.declared.offer.place.ReadPlace.{ReadPlace};
ghost use Rattle.dnp_outstation.specs.declared.session.Awaited.{Awaited};
ghost use Rattle.dnp_outstation.specs.declared.session.LastRequest.{LastRequest};
ghost use Rattle.dnp_outstation.specs.declared.session.Reply.TheVariants as reply;
ghost use Rattle.dnp_outstation.specs.declared.session.Unsolicited.{Unsolicited};
ghost use Rattle.dnp_outstation.specs.Items.{Source, no_ids, items_left};
ghost use Rattle.dnp_outstation.specs.Offer.{pushed};
ghost use Rattle.dnp_outstation.specs.Laws.{IsTidy};
ghost use Rattle.dnp_outstation.specs.Said.{AreWritable};
ghost use Rattle.dnp_outstation.specs.Links.{Reports, KeepsConnection, EndsAs, begun, Performs, IsSelected, IsMade, Releases, ReleasesNone, unsolicited_confirmed, ExecutesNothing, CaseSays, IsInOrder};
ghost use Rattle.dnp_outstation.specs.State.{Core, State, Step, nothing, sending, still, with_session, holds_read};
ghost use Rattle.dnp_outstation.specs.Content.{Content, content_of, content_from, plain, read_content, source_of};
ghost use Rattle.dnp_outstation.specs.Controls.{content_at};
ghost use Rattle.dnp_outstation.specs.Connection.{has_rows, control_for, control_in, fragment_of, function_in, unsolicited_of, case_of, is_last_request, waiting, replied, discarding, starts, at_end, solicited_timer, closed};
ghost use Rattle.dnp_outstation.specs.Calls.{connection_after, tick_of, change_of, opened_of, restart_of};

use crate::laws::octets_say_what_is_held;
use dnp_appfragment::laws::{
    octets_say_a_request, octets_say_their_control_and_function, what_is_spelled_is_said,
};
use dnp_controls::laws::an_operate_is_answered_by_its_select;
use dnp_eventbuf::link_laws::{a_release_is_by_ids, each_row_stands_once};
use dnp_objects::Command;
use dnp_objects::laws::parts_are_covered;
use dnp_pointdb::laws::readings_fit_their_static_objects;

/// The octets of each fragment are read as a response with its control octet, and report the rows of the
/// lanes up to its ids: the first fragment of an answer, at once or to a READ that was held, a further one where
/// nothing that was given before is left, and an unsolicited response, the empty first one too.
pub fn fragments_report_the_rows_up_to_their_ids()
    ensures answer { (s after : State) (o : Panel) (now : ℕ) (octets : List ℕ) (seq : ℕ) (content : Content)
        → IsSoundBuffer s.lanes → AreWritable (source_of s o) → All (λ octet. octet < 2 ^ 8) octets → seq < 16
        → (content_at s o now octets).content ≡ Some content
        → Reports s.lanes (fragment_of after true seq content) (control_for true seq content) content.upto }
    ensures held { (s after : State) (o : Panel) (octets : List ℕ) (seq : ℕ) (content : Content) → IsSoundBuffer s.lanes
        → AreWritable (source_of s o) → seq < 16 → (content_of s o octets).content ≡ Some content
        → Reports s.lanes (fragment_of after true seq content) (control_for true seq content) content.upto }
    ensures further { (s : State) (o : Panel) (stood : ℕ) (place : ReadPlace) (headers : List Head) (seq : ℕ)
        → IsSoundBuffer s.lanes → AreWritable (source_of s o) → IsTidy s.lanes place.given → length place.given ≡ LANES → seq < 16
        → (let content = read_content s o stood place headers in
        Reports s.lanes (fragment_of s false seq content) (control_for false seq content) content.upto) }
    ensures unsolicited { (s : State) → IsSoundBuffer s.lanes → length s.core.enabled ≤ 3
        → s.core.session.next < 16
        → (let content = content_from (pushed s.lanes s.core.enabled) in
        Reports s.lanes (unsolicited_of s content)
        (record { fir = true; fin = true; con = true; uns = true; seq = s.core.session.next }) content.upto) }
    ensures first_unsolicited { (s : State) → IsSoundBuffer s.lanes → s.core.session.next < 16
        → Reports s.lanes (unsolicited_of s (plain 0 []))
        (record { fir = true; fin = true; con = true; uns = true; seq = s.core.session.next }) no_ids }
{
    octets_say_a_request();
    octets_say_what_is_held();
    what_is_spelled_is_said();
    a_release_is_by_ids();
    each_row_stands_once();
}

/// What a READ may give can be written where the points are sound and outputs show octets at indexes of 16 bits.
pub fn what_is_sound_can_be_written()
    ensures { (s : Source) → points.IsSoundDatabase s.points → s.panel.outputs ≤ 2 ^ 16
        → ((index : ℕ) → index < s.panel.outputs → s.panel.status index < 2 ^ 8) → AreWritable s }
{
    readings_fit_their_static_objects();
}

/// A fragment that asks for no confirm reports no rows. Where a READ has no item left, the fragment is the
/// last one, without objects and without a confirm.
pub fn what_asks_no_confirm_reports_no_rows()
    ensures none { (s : EventBuffer) (octets : List ℕ) (control : ControlBits) (upto : List ℕ)
        (reports : Reports s octets control upto) → IsSoundBuffer s → has_rows upto ≡ false
        → rows_said reports.answered.headers ≡ [] }
    ensures emptied { (s : State) (o : Panel) (stood seq : ℕ) (place : ReadPlace) (headers : List Head) (first : Bool)
        → items_left (source_of s o) stood place headers ≡ []
        → (let content = read_content s o stood place headers in (content.headers ≡ [])
        × (control_for first seq content ≡ record { fir = first; fin = true; con = false; uns = false; seq = seq })) }
{
    each_row_stands_once();
}

/// What a request makes of an outstation leaves the connection and the lanes alone, but for the select. Each
/// request has an answer, a DIRECT_OPERATE_NR alone has none. A READ is answered the same whether it was held
/// or not.
pub fn content_leaves_the_connection_alone()
    ensures keeps { (s : State) (o : Panel) (now : ℕ) (octets : List ℕ)
        → KeepsConnection s (content_at s o now octets).state }
    ensures keeps_held { (s : State) (o : Panel) (octets : List ℕ) → KeepsConnection s (content_of s o octets).state }
    ensures answers { (s : State) (o : Panel) (now : ℕ) (octets : List ℕ)
        → function_in octets ≢ function_octet function.DirectOperateNr → IsSome (content_at s o now octets).content }
    ensures answers_held { (s : State) (o : Panel) (octets : List ℕ) → IsSome (content_of s o octets).content }
    ensures silent { (s : State) (o : Panel) (now : ℕ) (octets : List ℕ)
        → function_in octets ≡ function_octet function.DirectOperateNr → (content_at s o now octets).content ≡ None }
    ensures reads { (s : State) (o : Panel) (now : ℕ) (octets : List ℕ)
        → function_in octets ≡ function_octet function.Read → content_at s o now octets ≡ content_of s o octets }
{}

/// A closed outstation looks at nothing, has no timers, and a change of a point sends nothing.
pub fn a_closed_outstation_is_silent()
    ensures received { (s : State) (o : Panel) (now : ℕ) (octets : List ℕ) → s.core.is_open ≡ false
        → connection_after s o now octets ≡ still s }
    ensures ticked { (s : State) (now : ℕ) → s.core.is_open ≡ false → tick_of s now ≡ still s }
    ensures changed { (s : State) (now : ℕ) (kind : Kind) (index : ℕ) (reading : Reading) (made : Option LaneRow)
        → s.core.is_open ≡ false → (change_of s now kind index reading made).does.send ≡ [] }
{}

/// What came is what its case says, and nothing else.
pub fn each_case_says_what_came()
    ensures { (c : Core) (octets : List ℕ) → CaseSays c octets (case_of c octets) }
{}

/// The end of a call starts an unsolicited response only where the outstation is open, awaits no confirm and
/// holds no READ. An opening starts the empty one where none was confirmed since the restart. What is sent is
/// what is kept, after all that the call has sent.
pub fn an_unsolicited_response_starts_where_none_is_awaited()
    ensures ends { (now : ℕ) (step : Step) → EndsAs now step }
    ensures opens { (s : State) (now : ℕ) → s.core.times.unsolicited ≡ true → s.core.announced ≡ false
        → opened_of s now ≡ starts (still (begun s)) now (plain 0 []) }
    ensures opens_again { (s : State) (now : ℕ) → (s.core.times.unsolicited ≡ false) ⊎ (s.core.announced ≡ true)
        → opened_of s now ≡ at_end now (still (begun s)) }
    ensures kept { (step : Step) (now : ℕ) (content : Content) → (let new = starts step now content in
        new.does.send ≡ step.does.send ++ new.state.core.session.unsolicited_response ∷ []) }
{}

/// Until its timer ends, an unsolicited response is awaited and nothing is sent. Then it goes out again octet for
/// octet, and the confirm of the same ids is awaited; where it was repeated often enough, or a READ is held, the
/// outstation closes and sends nothing.
pub fn an_unsolicited_response_is_repeated_as_it_was()
    ensures none { (s : State) (now : ℕ) → s.core.is_open ≡ true → s.core.session.unsolicited ≡ None
        → tick_of s now ≡ at_end now (still (record s { core = solicited_timer s.core now })) }
    ensures waits { (s : State) (now : ℕ) (w : Unsolicited) → s.core.is_open ≡ true
        → s.core.session.unsolicited ≡ Some w → now < w.ends
        → tick_of s now ≡ still (record s { core = solicited_timer s.core now }) }
    ensures repeats { (s : State) (now : ℕ) (w : Unsolicited) → s.core.is_open ≡ true
        → s.core.session.unsolicited ≡ Some w → w.ends ≤ now → holds_read s.core.session.last ≡ false
        → w.repeats < s.core.times.retries
        → (let core = solicited_timer s.core now in
        tick_of s now ≡ record {
          state = record s {
            core = record core {
              session = record core.session {
                unsolicited = Some (record w { ends = deadline now s.core.times.confirm_ms; repeats = w.repeats + 1 });
              };
            };
          };
          does = sending s.core.session.unsolicited_response;
        }) }
    ensures closes { (s : State) (now : ℕ) (w : Unsolicited) → s.core.is_open ≡ true
        → s.core.session.unsolicited ≡ Some w → w.ends ≤ now
        → (holds_read s.core.session.last ≡ true) ⊎ (s.core.times.retries ≤ w.repeats)
        → tick_of s now ≡ record { state = record s { core = closed s.core }; does = record nothing { close = true } } }
{}

/// A confirm that is awaited releases the rows up to the ids of the fragment that it confirms, of an unsolicited
/// response as of another; nothing else releases a row.
pub fn a_confirm_releases_what_its_fragment_reported()
    ensures solicited { (s : State) (o : Panel) (now : ℕ) (octets : List ℕ) (w : Awaited)
        → case_of s.core octets ≡ case.Confirms → s.core.session.awaited ≡ Some w
        → Releases s w.upto (connection_after s o now octets) }
    ensures unsolicited { (s : State) (o : Panel) (now : ℕ) (octets : List ℕ) (w : Unsolicited)
        → case_of s.core octets ≡ case.ConfirmsUnsolicited → s.core.session.unsolicited ≡ Some w
        → Releases s w.upto (connection_after s o now octets) }
    ensures others { (s : State) (o : Panel) (now : ℕ) (octets : List ℕ) → case_of s.core octets ≢ case.Confirms
        → case_of s.core octets ≢ case.ConfirmsUnsolicited → ReleasesNone s (connection_after s o now octets) }
    ensures ticked { (s : State) (now : ℕ) → ReleasesNone s (tick_of s now) }
    ensures changed { (s : State) (now : ℕ) (kind : Kind) (index : ℕ) (reading : Reading) (made : Option LaneRow)
        → (change_of s now kind index reading made).does.discarded ≡ [] }
    ensures opened { (s : State) (now : ℕ) → ReleasesNone s (opened_of s now) }
{}

/// A READ that comes while an unsolicited response is awaited is held, and nothing is sent. It is answered after
/// the confirm, from the lanes as its release leaves them; where none is held the confirm sends nothing.
pub fn a_held_read_is_answered_behind_the_confirm()
    ensures waits { (s : State) (o : Panel) (now : ℕ) (octets : List ℕ) → case_of s.core octets ≡ case.Waits
        → connection_after s o now octets ≡ still (record s { core = waiting s.core octets }) }
    ensures answered { (s : State) (o : Panel) (now : ℕ) (octets : List ℕ) (w : Unsolicited) (last : LastRequest)
        → case_of s.core octets ≡ case.ConfirmsUnsolicited → s.core.session.unsolicited ≡ Some w
        → s.core.session.last ≡ Some last → last.reply ≡ reply.Held
        → (let request = s.core.session.request in
        connection_after s o now octets ≡ at_end now (discarding s w.upto
        (replied now (control_in request).seq (content_of (unsolicited_confirmed s w) o request)))) }
    ensures none_held { (s : State) (o : Panel) (now : ℕ) (octets : List ℕ) (w : Unsolicited)
        → case_of s.core octets ≡ case.ConfirmsUnsolicited → s.core.session.unsolicited ≡ Some w
        → holds_read s.core.session.last ≡ false
        → connection_after s o now octets ≡ at_end now (discarding s w.upto (still (unsolicited_confirmed s w))) }
{}

/// The last request again, octet for octet, executes nothing: so a repeated OPERATE performs nothing.
pub fn a_repeated_request_executes_nothing()
    ensures again { (s : State) (o : Panel) (now : ℕ) (octets : List ℕ) → case_of s.core octets ≡ case.Again
        → ExecutesNothing s (connection_after s o now octets).state }
    ensures performs { (s : State) (o : Panel) (now : ℕ) (octets : List ℕ)
        → is_last_request s.core.session octets ≡ true → (connection_after s o now octets).state.performed ≡ s.performed }
{}

/// OPERATE, DIRECT_OPERATE and DIRECT_OPERATE_NR perform commands of their own, each at most as often as it is
/// named, and no more than one request may have. Nothing else performs any.
pub fn commands_are_performed_as_they_are_asked()
    ensures performed { (s : State) (o : Panel) (now : ℕ) (octets : List ℕ)
        → Performs o octets s.performed (connection_after s o now octets).state.performed }
    ensures only { (s : State) (o : Panel) (now : ℕ) (octets : List ℕ)
        → function_in octets ≢ function_octet function.Operate → function_in octets ≢ function_octet function.DirectOperate
        → function_in octets ≢ function_octet function.DirectOperateNr
        → (connection_after s o now octets).state.performed ≡ s.performed }
    ensures ticked { (s : State) (now : ℕ) → (tick_of s now).state.performed ≡ s.performed }
    ensures changed { (s : State) (now : ℕ) (kind : Kind) (index : ℕ) (reading : Reading) (made : Option LaneRow)
        → (change_of s now kind index reading made).state.performed ≡ s.performed }
    ensures opened { (s : State) (now : ℕ) → (opened_of s now).state.performed ≡ s.performed }
    ensures restarted { (s : State) (keep : Bool) → (restart_of s keep).performed ≡ s.performed }
{
    parts_are_covered::<Command>();
}

/// An OPERATE performs only where a select stands with the number before and equal octets, whose timer still
/// runs; and then none stands any more. A SELECT alone makes one, and each other request forgets it.
pub fn an_operate_needs_its_select()
    ensures selected { (s : State) (o : Panel) (now : ℕ) (octets : List ℕ)
        → function_in octets ≡ function_octet function.Operate
        → (connection_after s o now octets).state.performed ≢ s.performed → IsSelected s now octets }
    ensures spent { (s : State) (o : Panel) (now : ℕ) (octets : List ℕ)
        → function_in octets ≡ function_octet function.Operate
        → (connection_after s o now octets).state.performed ≢ s.performed
        → (connection_after s o now octets).state.core.session.selects ≡ None }
    ensures made { (s : State) (o : Panel) (now : ℕ) (octets : List ℕ) (select : Select)
        → (connection_after s o now octets).state.core.session.selects ≡ Some select
        → (s.core.session.selects ≡ Some select) ⊎ IsMade now octets select }
    ensures forgotten { (s : State) (o : Panel) (now : ℕ) (octets : List ℕ) → case_of s.core octets ≡ case.Asks
        → function_in octets ≢ function_octet function.Select → function_in octets ≢ function_octet function.Operate
        → (connection_after s o now octets).state.core.session.selects ≡ None }
{
    an_operate_is_answered_by_its_select();
}

/// So it is at all times: the next unsolicited number has four bits, no more classes are enabled than there are,
/// and what is held is a READ, as is what has a response of several fragments.
pub fn calls_keep_a_connection_in_order()
    ensures opened { (s : State) (now : ℕ) → IsInOrder s.core → IsInOrder (opened_of s now).state.core }
    ensures received { (s : State) (o : Panel) (now : ℕ) (octets : List ℕ) → IsInOrder s.core
        → IsInOrder (connection_after s o now octets).state.core }
    ensures ticked { (s : State) (now : ℕ) → IsInOrder s.core → IsInOrder (tick_of s now).state.core }
    ensures changed { (s : State) (now : ℕ) (kind : Kind) (index : ℕ) (reading : Reading) (made : Option LaneRow)
        → IsInOrder s.core → IsInOrder (change_of s now kind index reading made).state.core }
    ensures closed { (s : State) → IsInOrder s.core → IsInOrder (closed s.core) }
    ensures restarted { (s : State) (keep : Bool) → IsInOrder (restart_of s keep).core }
{
    octets_say_their_control_and_function();
}
