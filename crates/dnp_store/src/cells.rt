//! The cells of a row, as the statements that put it in are given them.

ghost use Rattle.std.specs.Prelude.{◌≡◌, ◌^◌, ◌<◌, IfSome, option_map, pos};
ghost use Rattle.sqlite.specs.Values.{bound};
ghost use Rattle.dnp_objects.specs.declared.limits.TheConstants as limits;
ghost use Rattle.dnp_objects.specs.Events.{IsEvent};
ghost use Rattle.dnp_store.specs.steps.Steps.{cells_of};

use dnp_objects::Row;
use sqlite_value::value::ValueRef;

/// How many rows one statement puts in at most.
pub(crate) const MANY: usize = 16;

/// How many cells a row has, its id aside.
pub(crate) const CELLS: usize = 5;

/// A time in milliseconds, as a column takes it.
pub(crate) fn whole_time(time: Option<u64>) -> Option<i64>
    requires { IfSome time (λ time. time < 2 ^ 63) }
    ensures { result ≡ option_map pos time }
{
    match time {
        Some(time) => Some(time as i64),
        None => None,
    }
}

/// A row's cells, after the number of its lane or of its kind.
pub(crate) fn cells(number: usize, row: &Row) -> [ValueRef<'static>; CELLS]
    requires number { number < limits.LANES }
    requires event { IsEvent row.now }
    ensures { bound result ≡ cells_of number row.now }
{
    let time = match whole_time(row.time) {
        Some(time) => ValueRef::Int(time),
        None => ValueRef::Null,
    };
    [
        ValueRef::Int(number as i64),
        ValueRef::Int(i64::from(row.index)),
        ValueRef::Int(i64::from(row.flags)),
        ValueRef::Int(row.value),
        time,
    ]
}
