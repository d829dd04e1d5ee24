//! The two sides of a plane.

ghost use Rattle.std.specs.Prelude.{◌≡◌, ◌<◌, ◌<ℤ◌, neg_ℤ, pos, IfOk};
ghost use Rattle.evm_cells.specs.Limits.{limit};
ghost use Rattle.evm_rows.specs.Rows.{cells_of};
ghost use Rattle.evm_rows.specs.View.{vertices_of};
ghost use Rattle.evm_cutting.specs.Cuts.{cells_under, cells_over};

use crate::levels::{below, both_sides};
use evm_rows::{DIM_MAX, NoMemory, Rows, Solid, limit};
use evm_shapes::clip;
use std::alloc::Global;

/// What a solid has below the plane at `at` across an axis, counted from 0. The plane lies strictly within the limits of the
/// dimension. Sorts only the places that close it, and takes memory for as many numbers as the solid has, once, and for a key of 16
/// bytes a row of a side; where the view passes over numbers of its rows, it sorts and takes memory as `clip` does.
pub fn under(alloc: Global, a: Rows<'_>, axis: usize, at: i32) -> Result<Solid, NoMemory>
    requires axis { axis < (vertices_of a).dim }
    requires low { neg_ℤ (pos (limit (vertices_of a).dim)) <ℤ at }
    requires high { at <ℤ pos (limit (vertices_of a).dim) }
    ensures dim { IfOk result (λ s. s.dim ≡ (vertices_of a.entry).dim) }
    ensures cells { IfOk result (λ s. cells_of s ≡ cells_under axis at (vertices_of a.entry)) }
{
    let dim = a.dim();
    if a.skip == 0 {
        return below(alloc, a, axis, at);
    }
    let limit = limit(dim);
    let lo = [-limit; DIM_MAX];
    let mut hi = [limit; DIM_MAX];
    hi[axis] = at;
    let part = clip(alloc, a, &lo[..dim], &hi[..dim])?;
    Ok(part)
}

/// What a solid has above the plane at `at` across an axis, counted from 0. The plane lies strictly within the limits of the
/// dimension. It is the one side of what [`crate::cut_at`] makes, in the same pass and memory; where the view passes over numbers of its
/// rows, it sorts and takes memory as `clip` does.
pub fn over(alloc: Global, a: Rows<'_>, axis: usize, at: i32) -> Result<Solid, NoMemory>
    requires axis { axis < (vertices_of a).dim }
    requires low { neg_ℤ (pos (limit (vertices_of a).dim)) <ℤ at }
    requires high { at <ℤ pos (limit (vertices_of a).dim) }
    ensures dim { IfOk result (λ s. s.dim ≡ (vertices_of a.entry).dim) }
    ensures cells { IfOk result (λ s. cells_of s ≡ cells_over axis at (vertices_of a.entry)) }
{
    let dim = a.dim();
    if a.skip == 0 {
        let both = both_sides(alloc, a, axis, at)?;
        return Ok(both.high);
    }
    let limit = limit(dim);
    let mut lo = [-limit; DIM_MAX];
    let hi = [limit; DIM_MAX];
    lo[axis] = at;
    let part = clip(alloc, a, &lo[..dim], &hi[..dim])?;
    Ok(part)
}
