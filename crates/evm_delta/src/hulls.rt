// What a tree has near a change.

ghost use Rattle.std.specs.Prelude.{◌≡◌, ◌-◌, ◌<◌, ◌≤◌, ℕ, true, pos, length, get_or, take, IfOk};
ghost use Rattle.evm_cells.specs.Heights.{is_cut};
ghost use Rattle.evm_cells.specs.Places.{without};
ghost use Rattle.evm_rows.specs.Rows.{cells_of};
ghost use Rattle.evm_rows.specs.View.{vertices_of};
ghost use Rattle.evm_cutting.specs.Hulls.{IsAround, AgreesOn};
ghost use Rattle.evm_delta.specs.Hulls.{IsOpenBox, AgreesOver, HasNearCuts, HasColumnCuts};

use evm_cutting::{Ends, hull};
use evm_rows::{NoMemory, Rows, Solid, limit};
use evm_tiles::Tiles;
use std::alloc::Global;

// The least box of a change that has rows. Along the first axis its ends are the heights of the first and of the last row, so
// the change has cuts at both, and a window in the box no cuts of its own.
fn least_box(d: Rows<'_>) -> Ends
    requires { 0 < length (vertices_of d).rows }
    ensures around { IsAround (vertices_of d.entry).dim result.lo result.hi (vertices_of d.entry) }
    ensures low { length result.lo ≡ 6 }
    ensures high { length result.hi ≡ 6 }
    ensures first { is_cut (vertices_of d.entry).dim (cells_of (vertices_of d.entry))
        (get_or result.lo 0 (pos 0)) ≡ true }
    ensures last { is_cut (vertices_of d.entry).dim (cells_of (vertices_of d.entry))
        (get_or result.hi 0 (pos 0)) ≡ true }
{
    let mut ends = hull(d);
    ends.lo[0] = d.coord(0, 1);
    ends.hi[0] = d.coord(d.len() - 1, 1);
    ends
}

/// What a tree has in the least box of a change. It changes along the first axis only where the change does, or where the tree
/// does between.
pub(crate) fn near(alloc: Global, tree: &Tiles, d: Rows<'_>) -> Result<Solid, NoMemory>
    requires same_dim { (vertices_of d).dim ≡ tree.now.dim }
    requires some { 0 < length (vertices_of d).rows }
    ensures dim { IfOk result (λ s. s.dim ≡ tree.now.dim) }
    ensures agrees { IfOk result (λ s. AgreesOn (vertices_of d.entry) tree.now s) }
    ensures cuts { IfOk result (λ s. HasNearCuts (vertices_of d.entry) tree.now s) }
{
    let dim = d.dim();
    let ends = least_box(d);
    let part = tree.window(alloc, &ends.lo[..dim], &ends.hi[..dim])?;
    Ok(part)
}

/// The least box of a change that has rows, opened along an axis, counted from 1, to the ends of the limits: it holds whole
/// columns, so all that stands over a cell of the change.
pub(crate) fn open_box(d: Rows<'_>, axis: usize) -> Ends
    requires some { 0 < length (vertices_of d).rows }
    requires low { 0 < axis }
    requires high { axis ≤ (vertices_of d).dim }
    ensures { IsOpenBox (axis - 1) result.lo result.hi (vertices_of d.entry) }
{
    let limit = limit(d.dim());
    let mut ends = least_box(d);
    ends.lo[axis - 1] = -limit;
    ends.hi[axis - 1] = limit;
    ends
}

/// The box without its ends on an axis, counted from 1: those behind move up.
pub(crate) fn without_axis(ends: Ends, axis: usize) -> Ends
    requires low { 0 < axis }
    requires high { axis ≤ 6 }
    requires long_low { length ends.lo ≡ 6 }
    requires long_high { length ends.hi ≡ 6 }
    ensures lo { (n : ℕ) → axis ≤ n → n ≤ 6
        → take (n - 1) result.lo ≡ without (axis - 1) (take n ends.lo) }
    ensures hi { (n : ℕ) → axis ≤ n → n ≤ 6
        → take (n - 1) result.hi ≡ without (axis - 1) (take n ends.hi) }
    ensures low { length result.lo ≡ 6 }
    ensures high { length result.hi ≡ 6 }
{
    let mut rest = ends;
    rest.lo[axis - 1..].rotate_left(1);
    rest.hi[axis - 1..].rotate_left(1);
    rest
}

/// What a tree has in the opened box of a change.
pub(crate) fn near_columns(
    alloc: Global,
    tree: &Tiles,
    d: Rows<'_>,
    axis: usize,
) -> Result<Solid, NoMemory>
    requires same_dim { (vertices_of d).dim ≡ tree.now.dim }
    requires some { 0 < length (vertices_of d).rows }
    requires deep { 2 ≤ tree.now.dim }
    requires low { 0 < axis }
    requires high { axis ≤ tree.now.dim }
    ensures dim { IfOk result (λ s. s.dim ≡ tree.now.dim) }
    ensures agrees { IfOk result (λ s. AgreesOver (axis - 1) (vertices_of d.entry) tree.now s) }
    ensures cuts { IfOk result (λ s. HasColumnCuts (axis - 1) (vertices_of d.entry) tree.now s) }
{
    let dim = d.dim();
    let ends = open_box(d, axis);
    let columns = tree.window(alloc, &ends.lo[..dim], &ends.hi[..dim])?;
    Ok(columns)
}
