//! Rows whose ids rise, cut at an id, and copied.

ghost use Rattle.std.specs.Prelude.{◌≡◌, ◌<◌, ◌+◌, ◌≤◌, ◌++◌, OnOk, OnErr, filter, length, map, nat_le, nat_lt, take, vec_capacity, vec_len};
ghost use Rattle.std.specs.List.{AllPairs};
ghost use Rattle.dnp_eventbuf.specs.EventBuffer.{row_of};

use crate::numbered::Numbered;
use crate::rows::empty_for;
use dnp_objects::Row;
use std::alloc::{AllocError, Global};

/// The rows with ids up to this, and those after them.
pub fn cut(rows: &[Numbered], upto: u64) -> (&[Numbered], &[Numbered])
    requires rising { AllPairs (λ x y. x.id < y.id) rows.now }
    ensures front { result.0.now ≡ filter (λ x. nat_le x.id upto) rows.now }
    ensures back { result.1.now ≡ filter (λ x. nat_lt upto x.id) rows.now }
{
    let count = rows.partition_point(|x| x.id <= upto);
    rows.split_at(count)
}

/// Adds the rows, for which there is room.
fn push_copies(rows: &[Numbered], out: &mut Vec<Numbered>)
    requires room { vec_len out.old + length rows.now ≤ vec_capacity out.old }
    ensures rows { out.new.items ≡ out.old.items ++ rows.now }
    ensures len { vec_len out.new ≡ vec_len out.old + length rows.now }
    ensures capacity { vec_capacity out.old ≤ vec_capacity out.new }
{
    match out.extend_from_slice(rows) {
        Ok(()) => {}
        Err(_) => unreachable!(),
    }
}

/// The first rows of these two runs, one after the other, at most `most`, in place of what was in `out`. Memory is
/// asked for once at most, for just as many, where `out` has no room for them.
pub fn first_into(
    alloc: Global,
    front: &[Numbered],
    back: &[Numbered],
    most: usize,
    out: &mut Vec<Numbered>,
) -> Result<(), AllocError>
    ensures rows { OnOk result (out.new.items ≡ take most (front.now ++ back.now)) }
    ensures kept { OnErr result (out.new.items ≡ out.old.items) }
    ensures memory { OnErr result (vec_capacity out.old < length (take most (front.now ++ back.now))) }
{
    let of_front = most.min(front.len());
    let of_back = (most - of_front).min(back.len());
    empty_for(alloc, out, of_front + of_back)?;
    push_copies(front.split_at(of_front).0, out);
    push_copies(back.split_at(of_back).0, out);
    Ok(())
}

/// Adds the rows without their ids, for which there is room.
pub fn push_rows(rows: &[Numbered], out: &mut Vec<Row>)
    requires room { vec_len out.old + length rows.now ≤ vec_capacity out.old }
    ensures rows { out.new.items ≡ out.old.items ++ map row_of rows.now }
    ensures len { vec_len out.new ≡ vec_len out.old + length rows.now }
    ensures capacity { vec_capacity out.new ≡ vec_capacity out.old }
{
    for x in rows {
        out.push_reserved(x.row);
    }
}
