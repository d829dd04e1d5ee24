//! Planes that divide two solids well. Any plane is right: a good one keeps the work small.

ghost use Rattle.std.specs.Prelude.{◌≡◌, ◌<◌, IfOk, IfSome};
ghost use Rattle.evm_rows.specs.View.{vertices_of};
ghost use Rattle.evm_cutting.specs.Cuts.{IsBetween};

use evm_rows::{NoMemory, Rows, limit};
use std::alloc::Global;

/// About how many rows of each solid are looked at for a plane.
const SAMPLE: usize = 256;

/// A height on an axis, counted from 0, with about as many coordinates of both solids below it as above, neither the least nor the
/// greatest of those that are looked at; none where there is no such height. Takes memory for at most 1024 coordinates.
pub(crate) fn inner_plane(
    alloc: Global,
    a: Rows<'_>,
    b: Rows<'_>,
    axis: usize,
) -> Result<Option<i32>, NoMemory>
    requires axis { axis < (vertices_of a).dim }
    requires same { (vertices_of a).dim ≡ (vertices_of b).dim }
    ensures { IfOk result (λ o. IfSome o (λ at. IsBetween (vertices_of a.entry).dim axis at)) }
{
    let limit = limit(a.dim());
    let step = a.len().saturating_add(b.len()) / (2 * SAMPLE) + 1;
    let mut heights = Vec::with_capacity(alloc, 4 * SAMPLE)?;
    sample(&mut heights, a, axis, step)?;
    sample(&mut heights, b, axis, step)?;
    heights.sort_unstable();
    match inner_middle(alloc, heights.as_slice())? {
        Some(at) => {
            if -limit < at && at < limit {
                Ok(Some(at))
            } else {
                Ok(None)
            }
        }
        None => Ok(None),
    }
}

/// Adds the coordinate of every `step`th row on an axis, counted from 0.
fn sample(heights: &mut Vec<i32>, a: Rows<'_>, axis: usize, step: usize) -> Result<(), NoMemory>
    requires axis { axis < (vertices_of a).dim }
    requires step { 0 < step }
{
    let mut row = step / 2;
    while row < a.len() {
        heights.push(a.coord(row, axis + 1))?;
        row = row.saturating_add(step);
    }
    Ok(())
}

/// The middle one of those of ascending numbers that are neither the least nor the greatest.
fn inner_middle(alloc: Global, heights: &[i32]) -> Result<Option<i32>, NoMemory> {
    let (Some(least), Some(most)) = (heights.first(), heights.last()) else {
        return Ok(None);
    };
    let mut inner = Vec::with_capacity(alloc, heights.len())?;
    for height in heights {
        if *least < *height && *height < *most {
            inner.push(*height)?;
        }
    }
    let middle = inner.len() / 2;
    Ok(inner.as_slice().get(middle).copied())
}
