//! The parts of a solid round a change.

ghost use Rattle.std.specs.Prelude.{◌≡◌, ◌<◌, ◌≤◌, true, [], length, take, IfOk};
ghost use Rattle.evm_cells.specs.Limits.{is_point_coord};
ghost use Rattle.evm_rows.specs.Rows.{Vertices};
ghost use Rattle.evm_rows.specs.View.{vertices_of};
ghost use Rattle.evm_watch.specs.Parts.{IsLower, IsHigher, IsRound, AreParts};

use evm_boolean::and;
use evm_cutting::{Ends, hull};
use evm_rows::{DIM_MAX, NoMemory, Rows, Solid, limit, xor};
use evm_tiles::Tiles;
use std::alloc::Global;

/// What a meter is handed of a change.
#[derive(Drop)]
pub(crate) struct Parts {
    /// The part of the solid before the change.
    pub(crate) before: Solid,
    /// What comes.
    pub(crate) gained: Solid,
    /// What goes.
    pub(crate) lost: Solid,
    /// The part of the solid after the change.
    pub(crate) after: Solid,
}

// A coordinate 1 lower, where the limits leave room.
fn lower(x: i32, dim: usize) -> i32
    requires low { 0 < dim }
    requires high { dim ≤ 6 }
    requires point { is_point_coord dim x ≡ true }
    ensures { IsLower dim x result }
{
    let limit = limit(dim);
    if x <= -limit { x } else { x - 1 }
}

// A coordinate 1 higher, where the limits leave room.
fn higher(x: i32, dim: usize) -> i32
    requires low { 0 < dim }
    requires high { dim ≤ 6 }
    requires point { is_point_coord dim x ≡ true }
    ensures { IsHigher dim x result }
{
    let limit = limit(dim);
    if limit <= x { x } else { x + 1 }
}

// A box that has every cell within 1 of those of a change.
fn round(d: Rows<'_>) -> Ends
    requires { 0 < length (vertices_of d).rows }
    ensures round { IsRound (take (vertices_of d.entry).dim result.lo)
        (take (vertices_of d.entry).dim result.hi) (vertices_of d.entry) }
    ensures low { length result.lo ≡ 6 }
    ensures high { length result.hi ≡ 6 }
{
    let least = hull(d);
    let mut ends = Ends {
        lo: [0; DIM_MAX],
        hi: [0; DIM_MAX],
    };
    let dim = d.dim();
    for axis in 0..dim {
        ends.lo[axis] = lower(least.lo[axis], dim);
        ends.hi[axis] = higher(least.hi[axis], dim);
    }
    ends
}

// The parts of a solid that does not change: none.
fn no_parts(alloc: Global, dim: usize) -> Parts
    requires low { 0 < dim }
    requires high { dim ≤ 6 }
    ensures { (whole delta : Vertices) → whole.dim ≡ dim → delta.rows ≡ []
        → AreParts whole delta result.before result.gained result.lost result.after }
{
    Parts {
        before: Solid::empty(alloc, dim),
        gained: Solid::empty(alloc, dim),
        lost: Solid::empty(alloc, dim),
        after: Solid::empty(alloc, dim),
    }
}

/// The parts of a solid within 1 of the least box of its change. Takes memory for what the solid has there.
pub(crate) fn parts_round(alloc: Global, whole: &Tiles, delta: Rows<'_>) -> Result<Parts, NoMemory>
    requires { (vertices_of delta).dim ≡ whole.now.dim }
    ensures { IfOk result
        (λ p. AreParts whole.now (vertices_of delta.entry) p.before p.gained p.lost p.after) }
{
    let dim = delta.dim();
    if delta.len() == 0 {
        return Ok(no_parts(alloc, dim));
    }
    let ends = round(delta);
    let before = whole.window(alloc, &ends.lo[..dim], &ends.hi[..dim])?;
    let after = xor(alloc, before.rows(), delta)?;
    // What goes is what the change has of the part before it; what comes is the rest of the change. Both are no larger than the change.
    let lost = and(alloc, before.rows(), delta)?;
    let gained = xor(alloc, lost.rows(), delta)?;
    Ok(Parts {
        before,
        gained,
        lost,
        after,
    })
}
