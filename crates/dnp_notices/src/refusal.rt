//! Why a master doesn't take a fragment that came, for whoever looks for the cause at the other station.

ghost use Rattle.std.specs.Prelude.{◌≡◌, ℕ, Some, Ok, Err, drop, is_some, option_map};
ghost use Rattle.dnp_appfragment.specs.declared.fault.AppFault.{AppFault as FaultValue};
ghost use Rattle.dnp_appfragment.specs.Fragments.{Answered};
ghost use Rattle.dnp_appfragment.specs.Meaning.{response_at};
ghost use Rattle.dnp_decode.specs.FragmentLines.{IsFaultPlace};
ghost use Rattle.dnp_master.specs.Rows.{is_reported};
ghost use Rattle.dnp_notices.specs.Refusals as spec;

use dnp_appfragment::{AppFault, Headers, RowWalk, read_response};
use dnp_decode::refused_place;
use dnp_objects::{Kind, Row};
use dnp_pointdb::PointPlan;

/// Why a master doesn't take a fragment that came.
#[derive(Clone, Copy, Debug)]
pub enum Refusal {
    /// An object of this group and variation stands so many octets after its beginning, and has no place in a response.
    Object(u8, u8, usize),
    /// It is no response for this fault, which lies so many octets after its beginning.
    Form(AppFault, usize),
    /// It has an event of a point that the plan lacks.
    Lacked(Kind, u16),
    /// It has an event of a point that has no events by the plan: its class is 0.
    Classless(Kind, u16),
}

impl Refusal {
    /// Whether two refusals are the same.
    pub(crate) fn is_same(self, other: Refusal) -> bool
        ensures { result ≡ spec.refusal_eq self other }
    {
        match (self, other) {
            (
                Refusal::Object(group, variation, place),
                Refusal::Object(group2, variation2, place2),
            ) => { group == group2 && variation == variation2 && place == place2 }
            (Refusal::Form(fault, place), Refusal::Form(fault2, place2)) => {
                fault.number() == fault2.number() && place == place2
            }
            (Refusal::Lacked(kind, index), Refusal::Lacked(kind2, index2)) => {
                kind.number() == kind2.number() && index == index2
            }
            (Refusal::Classless(kind, index), Refusal::Classless(kind2, index2)) => {
                kind.number() == kind2.number() && index == index2
            }
            _ => false,
        }
    }
}

/// Whether the row's point is in the plan, and has events.
fn is_reported(plan: &PointPlan, row: &Row) -> bool
    ensures { result ≡ is_reported plan.now row.now }
{
    plan.class_of(row.kind, row.index)
        .is_some_and(|class| class > 0)
}

/// The first of these events whose point has none by the plan.
fn stranger_in(plan: &PointPlan, rows: RowWalk<'_>) -> Option<Row>
    ensures { result ≡ spec.stranger plan.now rows.entry }
{
    for row in rows {
        if !is_reported(plan, &row) {
            return Some(row);
        }
    }
    None
}

/// The first event of these headers whose point has none by the plan.
fn first_stranger(plan: &PointPlan, headers: Headers<'_>) -> Option<Row>
    ensures { result ≡ spec.first_stranger plan.now headers.entry.headers }
{
    for header in headers {
        if header.is_event() {
            if let Some(row) = stranger_in(plan, header.rows()) {
                return Some(row);
            }
        }
    }
    None
}

/// What a row says whose point has no events by the plan.
fn of_stranger(plan: &PointPlan, row: &Row) -> Refusal
    ensures { result ≡ spec.of_stranger plan.now row.now }
{
    match plan.class_of(row.kind, row.index) {
        Some(_) => Refusal::Classless(row.kind, row.index),
        None => Refusal::Lacked(row.kind, row.index),
    }
}

/// What a fault says that lies at these octets, so many of the fragment's after its beginning.
fn at_place(fault: AppFault, place: usize, octets: &[u8]) -> Refusal
    ensures { result ≡ spec.at_place fault place octets.now }
{
    match (fault, octets) {
        (AppFault::ObjectUnknown, [group, variation, ..]) => {
            Refusal::Object(*group, *variation, place)
        }
        _ => Refusal::Form(fault, place),
    }
}

/// Why these octets are no response, by the fault that reading them as one has: with the place at which it lies.
#[tactic(auto, using(std::proofs::lemmas::List::drop_all))]
pub fn form_refusal(fault: AppFault, octets: &[u8]) -> Refusal
    ensures { (place : ℕ) × IsFaultPlace fault octets.now place × (result ≡ spec.at_place fault place (drop place octets.now)) }
{
    let place = refused_place(fault, octets);
    at_place(fault, place, octets.get(place..).unwrap_or(&[]))
}

/// Why a master whose station has the points of this plan doesn't take these octets as a fragment that it awaits, if it doesn't: what
/// is no response for the place at which it stops being one, and a response for its first event whose point has none by the plan.
/// `laws::a_refusal_is_told` has that this is exactly what a master refuses of what it looks at.
pub fn refusal_of(plan: &PointPlan, octets: &[u8]) -> Option<Refusal>
    ensures told { is_some result ≡ spec.is_told plan.now (response_at octets.now) }
    ensures no_response { (fault : FaultValue) → response_at octets.now ≡ Err fault → (place : ℕ) × IsFaultPlace fault octets.now place
        × (result ≡ Some (spec.at_place fault place (drop place octets.now))) }
    ensures response { (answered : Answered) → response_at octets.now ≡ Ok answered
        → result ≡ option_map (spec.of_stranger plan.now) (spec.first_stranger plan.now answered.headers) }
{
    match read_response(octets) {
        Ok(response) => match first_stranger(plan, response.headers) {
            Some(row) => Some(of_stranger(plan, &row)),
            None => None,
        },
        Err(fault) => Some(form_refusal(fault, octets)),
    }
}
