// The heights at which sections change.
ghost use Rattle.std.specs.Prelude.{◌≡◌, ◌<◌, ◌≤◌, IfOk};
ghost use Rattle.evm_rows.specs.View.{vertices_of};
ghost use Rattle.evm_faces.specs.Faces.{heights_on, cut_heights};

use evm_rows::{NoMemory, Rows, split_row};
use std::alloc::{AllocError, Global};

// The coordinate of each row on an axis, counted from 0.
fn heights_of(alloc: Global, a: Rows<'_>, axis: usize) -> Result<Vec<i32>, AllocError>
    requires { axis < (vertices_of a).dim }
    ensures { IfOk result (λ v. v.items ≡ heights_on axis (vertices_of a.entry).rows) }
{
    let mut heights = Vec::with_capacity(alloc, a.len())?;
    let mut left = a.flat;
    while left.len() != 0 {
        let (row, rest) = split_row(left, a.width, a.skip);
        heights.push(row[axis])?;
        left = rest;
    }
    Ok(heights)
}

/// The cuts of an axis, counted from 1: the heights, ascending, at which the section that begins there is not the section
/// just below. They are coordinates of points, from minus the limit up to the limit, and are the coordinates on this axis
/// of the extreme vertices, each once: the couplet of Aguilera and Ayala at a height is empty exactly where no extreme
/// vertex stands there. A solid without cells has none. Takes memory for a number a row, sorted in place.
/// The one error is want of memory.
pub fn cuts(alloc: Global, a: Rows<'_>, axis: usize) -> Result<Vec<i32>, NoMemory>
    requires deep { 2 ≤ (vertices_of a).dim }
    requires low { 0 < axis }
    requires high { axis ≤ (vertices_of a).dim }
    ensures { IfOk result (λ v. v.items ≡ cut_heights axis (vertices_of a.entry)) }
{
    let mut heights = heights_of(alloc, a, axis - 1)?;
    heights.sort_unstable();
    heights.dedup();
    Ok(heights)
}
