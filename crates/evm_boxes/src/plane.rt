//! A plane that divides boxes well.

ghost use Rattle.std.specs.Prelude.{◌<◌, ◌≤◌, IfOk, IfSome};

use super::BoxRow;
use evm_rows::NoMemory;
use std::alloc::{AllocError, Global};

/// About how many boxes are looked at first for a plane (measured).
pub(crate) const SAMPLE: usize = 128;

/// A plane across an axis.
#[derive(Clone, Copy)]
pub(crate) struct Plane {
    /// The axis, counted from 0.
    pub axis: usize,
    /// The height on this axis.
    pub at: i32,
}

/// The plane, among one for each axis, of which the side with more boxes has the fewest, if that are fewer than all. It is
/// found from about `most` of the boxes alone, where they are more.
///
/// Any plane is right; this one keeps the work small. It takes memory for those boxes and for their ends on an axis.
pub(crate) fn plane_of(
    alloc: Global,
    dim: usize,
    rows: &[BoxRow],
    most: usize,
) -> Result<Option<Plane>, NoMemory>
    requires high { dim ≤ 6 }
    ensures { IfOk result (λ found. IfSome found (λ plane. plane.axis < dim)) }
{
    let sample = sample_of(alloc, rows, most)?;
    let some = sample.as_slice();
    let mut best = None;
    let mut least = some.len();
    for axis in 0..dim {
        let Some(at) = median(alloc, axis, some)? else {
            continue;
        };
        let plane = Plane { axis, at };
        let most = larger_side(plane, some);
        if most < least {
            least = most;
            best = Some(plane);
        }
    }
    Ok(best)
}

/// About `most` of the boxes, taken at even steps; all, where they are no more.
fn sample_of(alloc: Global, rows: &[BoxRow], most: usize) -> Result<Vec<BoxRow>, AllocError> {
    let step = (rows.len().saturating_sub(1) / most.max(1)).saturating_add(1);
    let mut sample = Vec::with_capacity(alloc, rows.len().min(most))?;
    for row in rows.iter().step_by(step) {
        sample.push(*row)?;
    }
    Ok(sample)
}

/// How many boxes come to that side of a plane that has more.
fn larger_side(plane: Plane, rows: &[BoxRow]) -> usize
    requires axis { plane.axis < 6 }
{
    let low = rows
        .iter()
        .filter(|row| row.lo[plane.axis] < plane.at)
        .count();
    let high = rows
        .iter()
        .filter(|row| plane.at < row.hi[plane.axis])
        .count();
    low.max(high)
}

/// A height of an axis with about as many ends of boxes below it as above, strictly between the least and the greatest end.
fn median(alloc: Global, axis: usize, rows: &[BoxRow]) -> Result<Option<i32>, NoMemory>
    requires axis { axis < 6 }
{
    let mut ends = inner_ends(alloc, axis, rows)?;
    let middle = ends.len() / 2;
    if middle < ends.len() {
        ends.select_nth_unstable(middle);
    }
    Ok(ends.as_slice().get(middle).copied())
}

/// The ends of boxes on an axis, but neither the least nor the greatest.
fn inner_ends(alloc: Global, axis: usize, rows: &[BoxRow]) -> Result<Vec<i32>, NoMemory>
    requires axis { axis < 6 }
{
    let (first, last) = hull(axis, rows);
    let mut ends = Vec::with_capacity(alloc, rows.len().saturating_mul(2))?;
    for row in rows {
        add_between(first, row.lo[axis], last, &mut ends)?;
        add_between(first, row.hi[axis], last, &mut ends)?;
    }
    Ok(ends)
}

/// Adds an end that is strictly between two numbers.
fn add_between(first: i32, end: i32, last: i32, ends: &mut Vec<i32>) -> Result<(), NoMemory> {
    if end <= first || last <= end {
        return Ok(());
    }
    match ends.push(end) {
        Ok(()) => Ok(()),
        Err(_) => Err(NoMemory),
    }
}

/// The least and the greatest end of boxes on an axis.
fn hull(axis: usize, rows: &[BoxRow]) -> (i32, i32)
    requires axis { axis < 6 }
{
    let mut first = i32::MAX;
    let mut last = i32::MIN;
    for row in rows {
        first = first.min(row.lo[axis]);
        last = last.max(row.hi[axis]);
    }
    (first, last)
}
