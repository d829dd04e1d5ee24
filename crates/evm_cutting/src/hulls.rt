//! The least box of a change, and what a solid has in it.

ghost use Rattle.std.specs.Prelude.{◌≡◌, ◌<◌, length, IfOk};
ghost use Rattle.evm_rows.specs.View.{vertices_of};
ghost use Rattle.evm_cutting.specs.Hulls.{IsLow, IsHigh, IsAround, AgreesOn};

use evm_rows::{DIM_MAX, NoMemory, Rows, Solid, limit, own, split_row};
use evm_shapes::clip;
use std::alloc::Global;

/// A solid is taken whole where it has at most this many times the rows of the change (measured).
const WHOLE: usize = 2;

// The least and the largest coordinate of the rows on an axis, counted from 0.
fn span(d: Rows<'_>, axis: usize) -> (i32, i32)
    requires { axis < (vertices_of d).dim }
    ensures low { IsLow axis result.0 (vertices_of d.entry) }
    ensures high { IsHigh axis result.1 (vertices_of d.entry) }
{
    let limit = limit(d.dim());
    let (mut least, mut largest) = (limit, -limit);
    let mut left = d.flat;
    while left.len() != 0 {
        let (row, rest) = split_row(left, d.width, d.skip);
        least = least.min(row[axis]);
        largest = largest.max(row[axis]);
        left = rest;
    }
    (least, largest)
}

/// The two ends of a box on each axis, with numbers behind those of the dimension that say nothing.
#[derive(Drop)]
pub struct Ends {
    /// The least coordinate on each axis.
    pub lo: [i32; DIM_MAX],
    /// The largest coordinate on each axis.
    pub hi: [i32; DIM_MAX],
}

/// The least box that has all rows of a change; of no rows, ends of points that are no box. Takes no memory.
pub fn hull(d: Rows<'_>) -> Ends
    ensures around { IsAround (vertices_of d.entry).dim result.lo result.hi (vertices_of d.entry) }
    ensures low { length result.lo ≡ 6 }
    ensures high { length result.hi ≡ 6 }
{
    let mut ends = Ends {
        lo: [0; DIM_MAX],
        hi: [0; DIM_MAX],
    };
    for axis in 0..d.dim() {
        let (least, largest) = span(d, axis);
        ends.lo[axis] = least;
        ends.hi[axis] = largest;
    }
    ends
}

/// What a solid has at the cells of a change: what it has in the least box of the change, or all of it where it has few rows.
pub(crate) fn window(alloc: Global, d: Rows<'_>, a: Rows<'_>) -> Result<Solid, NoMemory>
    requires { (vertices_of a).dim ≡ (vertices_of d).dim }
    ensures dim { IfOk result (λ s. s.dim ≡ (vertices_of a.entry).dim) }
    ensures agrees { IfOk result (λ s. AgreesOn (vertices_of d.entry) (vertices_of a.entry) s) }
{
    let dim = d.dim();
    if d.len() == 0 {
        return Ok(Solid::empty(alloc, dim));
    }
    if a.len() / WHOLE <= d.len() {
        let all = own(alloc, a)?;
        return Ok(all);
    }
    let ends = hull(d);
    let part = clip(alloc, a, &ends.lo[..dim], &ends.hi[..dim])?;
    Ok(part)
}
