//! The plan of a whole system.

ghost use Rattle.std.specs.Prelude.{◌≡◌, ◌↔◌, ◌≤◌, IsTrue, All};
ghost use Rattle.dnp_concentrator.specs.Plan.{KeepsLimits, KeepsSubLimits, KeepsTimes, IsTimer, IsCapacity, IsClass, spans_of};

use crate::limits::{INDEX_KINDS, MAX_RETRIES, MAX_SUBSTATIONS, MAX_TIMER_MS};
use crate::listed::Listed;
use crate::span::{Span, Spans};
use dnp_controls::MAX_OUTPUTS;
use dnp_eventbuf::MAX_CAPACITY;
use dnp_objects::{CLASSES, LANES};
use dnp_pointdb::{MAX_POINTS, Times};

/// What a system plans for one substation.
///
/// The type keeps none of the ranges below: `Plan::keeps_limits` is the test of them.
#[derive(Debug, Drop)]
pub struct SubPlan {
    /// How many rows each of its lanes takes, by the lane's number: 1 to 4,096.
    pub lanes: [u32; LANES],
    /// The class of each binary input, 0 to 3. At most 1,024.
    pub binary: Listed<u8>,
    /// The class of each counter, 0 to 3. At most 1,024.
    pub counter: Listed<u8>,
    /// The class of each analog input, 0 to 3. At most 1,024.
    pub analog: Listed<u8>,
    /// The deadband of each analog input, in the units of its value: as many as there are analog inputs.
    pub deadband: Listed<u32>,
    /// How many binary outputs it has, 0 to 256.
    pub outputs: u16,
    /// How many setpoints it has, 0 to 256.
    pub setpoints: u16,
    /// The index above of its index 0, by the kind's number: binary inputs, counters, analog inputs, binary
    /// outputs, setpoints.
    pub base: [u16; INDEX_KINDS],
}

/// The plan of a whole system: a concentrator, the substations below it, and two centres above it.
///
/// The type keeps none of the ranges below: `keeps_limits` is the test of them.
#[derive(Debug)]
pub struct Plan {
    /// The timers and retries of every outstation and master.
    pub times: Times,
    /// How many rows each lane of the concentrator's queue for the first centre takes, by the lane's number: 1 to 4,096.
    pub queue: [u32; LANES],
    /// The same of its queue for the second centre.
    pub queue2: [u32; LANES],
    /// The substations, each at the place of its number: 1 to 16 of them.
    pub substations: Listed<SubPlan>,
}

impl Drop for Plan {
    /// One call for whoever lets it go: its parts are looked at here alone.
    fn drop(self) {
        let Plan {
            times: _,
            queue: _,
            queue2: _,
            substations: _,
        } = self;
    }
}

/// Whether a timer runs so long: 1 ms to an hour.
fn is_timer(ms: u64) -> bool
    ensures { IsTrue result ↔ IsTimer ms }
{
    1 <= ms && ms <= MAX_TIMER_MS
}

/// Whether the timers and the retries are in their ranges.
fn keep_times(times: &Times) -> bool
    ensures { IsTrue result ↔ KeepsTimes times.now }
{
    is_timer(times.confirm_ms)
        && is_timer(times.response_ms)
        && is_timer(times.select_ms)
        && times.retries <= MAX_RETRIES
}

/// Whether each of the lanes takes 1 to 4,096 rows.
fn are_capacities(lanes: &[u32]) -> bool
    ensures { IsTrue result ↔ All IsCapacity lanes.now }
{
    lanes
        .iter()
        .all(|capacity| 1 <= *capacity && *capacity <= MAX_CAPACITY)
}

/// Whether each of the classes is 0 to 3.
fn are_classes(classes: &[u8]) -> bool
    ensures { IsTrue result ↔ All IsClass classes.now }
{
    classes.iter().all(|class| *class <= CLASSES)
}

impl SubPlan {
    /// Whether all its numbers are in their ranges, and there are as many deadbands as analog inputs.
    pub fn keeps_limits(&self) -> bool
        ensures { IsTrue result ↔ KeepsSubLimits self.now }
    {
        are_capacities(&self.lanes)
            && are_classes(self.binary.as_slice())
            && are_classes(self.counter.as_slice())
            && are_classes(self.analog.as_slice())
            && self.binary.as_slice().len() <= MAX_POINTS
            && self.counter.as_slice().len() <= MAX_POINTS
            && self.analog.as_slice().len() <= MAX_POINTS
            && self.deadband.as_slice().len() == self.analog.as_slice().len()
            && self.outputs <= MAX_OUTPUTS
            && self.setpoints <= MAX_OUTPUTS
    }

    /// Where its indices stand above.
    pub fn spans(&self) -> Spans
        ensures { result ≡ spans_of self.now }
    {
        Spans {
            binary: Span {
                base: self.base[0],
                count: self.binary.as_slice().len(),
            },
            counter: Span {
                base: self.base[1],
                count: self.counter.as_slice().len(),
            },
            analog: Span {
                base: self.base[2],
                count: self.analog.as_slice().len(),
            },
            output: Span {
                base: self.base[3],
                count: usize::from(self.outputs),
            },
            setpoint: Span {
                base: self.base[4],
                count: usize::from(self.setpoints),
            },
        }
    }
}

impl Plan {
    /// Whether all its numbers are in their ranges: what the calls that make a station of a plan want.
    pub fn keeps_limits(&self) -> bool
        ensures { IsTrue result ↔ KeepsLimits self.now }
    {
        let count = self.substations.as_slice().len();
        keep_times(&self.times)
            && are_capacities(&self.queue)
            && are_capacities(&self.queue2)
            && 1 <= count
            && count <= MAX_SUBSTATIONS
            && self
                .substations
                .as_slice()
                .iter()
                .all(|substation| substation.keeps_limits())
    }
}
