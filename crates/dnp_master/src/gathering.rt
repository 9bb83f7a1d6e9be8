//! The rows of a response that the sink is given.

ghost use Rattle.std.specs.Prelude.{◌≡◌, ◌≢◌, ◌≤◌, vec_len, ◌<◌, ◌++◌, ◌⊎◌, true, false, [], ◌∷◌, All, IsTrue, IfOk, IfErr, filter};
ghost use Rattle.std.specs.Vec.{vec_capacity};
ghost use Rattle.std.specs.List.{list_all};
ghost use Rattle.dnp_objects.specs.Events.{IsEvent};
ghost use Rattle.dnp_appfragment.specs.EventRows.{events_in};
ghost use Rattle.dnp_master.specs.steps.Gathering.{Gathers, Holds};
ghost use Rattle.dnp_master.specs.Rows as spec;
ghost use Rattle.dnp_master.specs.Taking.{events_of, statics_of};

use crate::fault::MasterFault;
use crate::known::{Known, look_up};
use dnp_appfragment::{Headers, RowWalk};
use dnp_objects::Row;
use dnp_pointdb::PointPlan;
use std::alloc::Global;

/// Rows that are being gathered.
#[derive(Drop)]
pub(crate) struct Gathering {
    rows: Vec<Row>,
    /// Whether there was no memory for one of them. From then on no row is gathered.
    is_cut: bool,
}

impl Gathering {
    /// Takes room for one row more, and for as many as are expected; answers whether there is any, which it isn't
    /// from the first refusal on. It stands apart, since it is rare.
    #[cold]
    #[inline(never)]
    fn take_room(&mut self, expected: usize) -> bool
        ensures rows { self.new.rows.items ≡ self.old.rows.items }
        ensures room { IsTrue result → vec_len self.new.rows < vec_capacity self.new.rows }
        ensures same { IsTrue result → self.new.is_cut ≡ self.old.is_cut }
        ensures cut { result ≡ false → self.new.is_cut ≡ true }
    {
        if self.is_cut || self.rows.reserve(expected.max(1)).is_err() {
            self.is_cut = true;
            return false;
        }
        true
    }

    /// Gathers a row, if there is memory for it and was for those before. Of so many rows, this one among them, more
    /// may come: where there is no room left, it is taken for all of them at once.
    #[inline(always)]
    fn put(&mut self, row: &Row, expected: usize)
        ensures gathered { Gathers self.old (row.now ∷ []) self.new }
        ensures room { vec_len self.old.rows < vec_capacity self.old.rows → self.new.is_cut ≡ self.old.is_cut }
    {
        if self.rows.len() == self.rows.capacity() && !self.take_room(expected) {
            return;
        }
        // (field by field: a row that small stores made is slow to move as a whole)
        self.rows.push_reserved(Row {
            kind: row.kind,
            index: row.index,
            flags: row.flags,
            value: row.value,
            time: row.time,
        });
    }
}

/// Whether the row's point is in the plan, and has events.
fn is_reported(plan: &PointPlan, row: &Row) -> bool
    ensures { result ≡ spec.is_reported plan.now row.now }
{
    plan.class_of(row.kind, row.index)
        .is_some_and(|class| class > 0)
}

/// Gathers events, of which so many are expected, in order. Whether each is of a point that has events; where one is
/// not, it ends there.
fn gather_rows(
    plan: &PointPlan,
    rows: RowWalk<'_>,
    expected: usize,
    gathering: &mut Gathering,
) -> bool
    ensures checked { result ≡ list_all (spec.is_reported plan.now) rows.entry }
    ensures gathered { IsTrue result → Gathers gathering.old rows.entry gathering.new }
{
    for row in rows {
        if !is_reported(plan, &row) {
            return false;
        }
        gathering.put(&row, expected);
    }
    true
}

/// Gathers the rows whose points are in the plan, in order; so many are expected.
fn gather_planned(plan: &PointPlan, rows: RowWalk<'_>, expected: usize, gathering: &mut Gathering)
    ensures { Gathers gathering.old (filter (spec.is_planned plan.now) rows.entry) gathering.new }
{
    let mut known = Known::nothing();
    for row in rows {
        if !known.has(&row) {
            match look_up(plan, row.kind, row.index) {
                Some(found) => known = found,
                None => continue,
            }
        }
        gathering.put(&row, expected);
    }
}

/// Gathers the events of these headers, in order. Whether each is of a point that has events; where
/// one is not, it ends there.
fn gather_events(plan: &PointPlan, headers: Headers<'_>, gathering: &mut Gathering) -> bool
    ensures checked { result ≡ spec.is_from_plan plan.now headers.entry.headers }
    ensures gathered { IsTrue result → Gathers gathering.old (events_in headers.entry.headers) gathering.new }
    ensures carried { IsTrue result → All IsEvent (events_in headers.entry.headers) }
{
    for header in headers {
        if !header.is_event() {
            continue;
        }
        if !gather_rows(plan, header.rows(), header.count(), gathering) {
            return false;
        }
    }
    true
}

/// Gathers the present values of these headers whose points are in the plan, in order.
fn gather_statics(plan: &PointPlan, headers: Headers<'_>, gathering: &mut Gathering)
    ensures { Gathers gathering.old (spec.statics_in plan.now headers.entry.headers) gathering.new }
{
    for header in headers {
        if !header.is_event() {
            gather_planned(plan, header.rows(), header.count(), gathering);
        }
    }
}

/// The rows of a response for the sink.
#[derive(Drop)]
pub(crate) struct Gathered {
    /// The events, and after them the present values.
    pub rows: Vec<Row>,
    /// How many events there are.
    pub events: usize,
}

impl Gathered {
    /// No rows.
    pub fn none(alloc: Global) -> Gathered
        ensures rows { result.rows.items ≡ [] }
        ensures events { result.events ≡ 0 }
    {
        Gathered {
            rows: Vec::new(alloc),
            events: 0,
        }
    }

    /// The events, in order.
    pub fn events(&self) -> &[Row]
        requires { self.now.events ≤ vec_len self.now.rows }
        ensures { result.now ≡ events_of self.now }
    {
        &self.rows[..self.events]
    }

    /// The present values, in order.
    pub fn statics(&self) -> &[Row]
        requires { self.now.events ≤ vec_len self.now.rows }
        ensures { result.now ≡ statics_of self.now }
    {
        &self.rows[self.events..]
    }

    /// The rows of these headers, all of them or none.
    ///
    /// Refused is, first of all, an event of a point that the plan lacks, or that has no class
    /// (`Stranger`), and then being out of memory for the rows
    /// (`Memory`).
    pub fn of(
        alloc: Global,
        plan: &PointPlan,
        headers: &Headers<'_>,
    ) -> Result<Gathered, MasterFault>
        ensures found { IfOk result (Holds plan.now headers.now.headers) }
        ensures named { IfErr result (λ e. (e ≡ MasterFault.Stranger) ⊎ (e ≡ MasterFault.Memory)) }
        ensures stranger { IfErr result (λ e. e ≡ MasterFault.Stranger → spec.is_from_plan plan.now headers.now.headers ≡ false) }
        ensures known { IfErr result (λ e. e ≡ MasterFault.Memory → spec.is_from_plan plan.now headers.now.headers ≡ true) }
        ensures memory { IfErr result (λ e. e ≡ MasterFault.Memory
            → events_in headers.now.headers ++ spec.statics_in plan.now headers.now.headers ≢ []) }
    {
        let mut gathering = Gathering {
            rows: Vec::new(alloc),
            is_cut: false,
        };
        if !gather_events(plan, headers.after(0), &mut gathering) {
            return Err(MasterFault::Stranger);
        }
        let events = gathering.rows.len();
        gather_statics(plan, headers.after(0), &mut gathering);
        if gathering.is_cut {
            return Err(MasterFault::Memory);
        }
        Ok(Gathered {
            rows: gathering.rows,
            events,
        })
    }
}
