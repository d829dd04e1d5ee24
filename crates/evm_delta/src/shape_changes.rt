// The change of a shape.
ghost use Rattle.std.specs.Prelude.{◌≡◌, ◌+◌, ◌-◌, ◌*◌, ◌<◌, ◌≤◌, ◌↔◌, true, false, length, IfOk, IsErrOf};
ghost use Rattle.evm_rows.specs.Rows.{cells_of};
ghost use Rattle.evm_rows.specs.View.{vertices_of};
ghost use Rattle.evm_shapes.specs.Shapes.{projected_cells};
ghost use Rattle.evm_steps.specs.Cuts.{cuts_of};
ghost use Rattle.evm_delta.specs.Shapes.{Fits, op1_dim, in_range, shape_before, changed_cells, shape_change, IsShapeChange, CarriesShape};
ghost use Rattle.evm_delta.specs.Steps.{shape_cuts};

use crate::hulls::{near_columns, open_box, without_axis};
use crate::shapes::{DeltaError, Op1, shape};
use evm_rows::{NoMemory, Rows, Solid, xor};
use evm_shapes::project;
use evm_steps::{Steps, pass_slabs};
use evm_tiles::Tiles;
use std::alloc::Global;
use std::sync::ledger::Ledger;

// The projection of what stands near a change. It takes a step for each height at which that changes.
fn shadow_of<L: Ledger>(
    alloc: Global,
    part: Rows<'_>,
    axis: usize,
    steps: &mut Steps<L>,
) -> Result<Solid, NoMemory>
    requires deep { 2 ≤ (vertices_of part).dim }
    requires low { 0 < axis }
    requires high { axis ≤ (vertices_of part).dim }
    ensures dim { IfOk result (λ s. s.dim ≡ (vertices_of part.entry).dim - 1) }
    ensures cells { IfOk result (λ s. cells_of s ≡ projected_cells axis (vertices_of part.entry)) }
    ensures passed { steps.new ≡ steps.old + length (cuts_of (vertices_of part.entry)) }
{
    pass_slabs(part, steps);
    project(alloc, part, axis)
}

// The change of a projection. A cell of it can change only where some cell of the change stands over it, so only what the
// tree has in whole columns over the box of the change is looked at, before and after.
fn projection_near<L: Ledger>(
    alloc: Global,
    axis: usize,
    a: &Tiles,
    da: Rows<'_>,
    steps: &mut Steps<L>,
) -> Result<Solid, NoMemory>
    requires same_dim { (vertices_of da).dim ≡ a.now.dim }
    requires some { 0 < length (vertices_of da).rows }
    requires deep { 2 ≤ a.now.dim }
    requires low { 0 < axis }
    requires high { axis ≤ a.now.dim }
    ensures part { IfOk result
        (λ s. s ≡ shape_change (Op1.Proj axis) a.now (vertices_of da.entry)) }
    ensures few { steps.new
        ≤ steps.old + 2 * shape_cuts (Op1.Proj axis) a.now (vertices_of da.entry) }
    ensures more { steps.old ≤ steps.new }
{
    let before = near_columns(alloc, a, da, axis)?;
    let after = xor(alloc, before.rows(), da)?;
    let old_shadow = shadow_of(alloc, before.rows(), axis, steps)?;
    let new_shadow = shadow_of(alloc, after.rows(), axis, steps)?;
    let made = xor(alloc, old_shadow.rows(), new_shadow.rows())?;
    Ok(made)
}

// The dimension of the shape.
fn dim_of(op: &Op1, dim: usize) -> usize
    requires fits { Fits op.now dim }
    requires high { dim ≤ 6 }
    ensures { result ≡ op1_dim op.now dim }
{
    match op {
        Op1::Shift(_) | Op1::Mirror(_) | Op1::Swap(_, _) | Op1::Clip(_) => dim,
        Op1::Slice(_, _) | Op1::Proj(_) => dim - 1,
        Op1::Lift(_, _, _) => dim + 1,
    }
}

/// The change of a shape where its operand `a` changes by `da`, so that it becomes `a xor da`: the exclusive or of the
/// shape before and after.
///
/// The shape before is in range. All shapes but the projection carry the change over as they do a solid; for a projection
/// the window of the tree at the least box of the change, opened along the axis, is projected before and after. Where
/// nothing changes, nothing is done. Takes the memory of the calls of that shape, for a projection twice and for its window.
///
/// A projection counts a step for each height at which what it projects changes, once before and once after the change. The
/// other shapes count none.
///
/// # Errors
///
/// `Range` exactly where a shift or a lift takes some cell of `a xor da` past the limits. `NoMemory` where there is none.
pub fn delta1<L: Ledger>(
    alloc: Global,
    op: &Op1,
    a: &Tiles,
    da: Rows<'_>,
    steps: &mut Steps<L>,
) -> Result<Solid, DeltaError>
    requires same_dim { (vertices_of da).dim ≡ a.now.dim }
    requires fits { Fits op.now a.now.dim }
    requires stands { in_range op.now a.now.dim (cells_of a.now) ≡ true }
    ensures vertices { IfOk result (λ s. s ≡ shape_change op.now a.now (vertices_of da.entry)) }
    ensures dim { IfOk result (λ s. s.dim ≡ op1_dim op.now a.now.dim) }
    ensures cells { IfOk result (λ s. IsShapeChange op.now a.now (vertices_of da.entry) s) }

    // The shape before becomes the shape after.
    ensures carries { IfOk result (λ s. CarriesShape op.now a.now (vertices_of da.entry) s) }
    ensures range { IsErrOf result DeltaError.Range
        ↔ (in_range op.now a.now.dim (changed_cells a.now (vertices_of da.entry)) ≡ false) }

    // Whatever it answers.
    ensures few { steps.new
        ≤ steps.old + 6 * (1 + shape_cuts op.now a.now (vertices_of da.entry)) }
    ensures more { steps.old ≤ steps.new }
{
    if da.len() == 0 {
        return Ok(Solid::empty(alloc, dim_of(op, da.dim())));
    }
    match op {
        Op1::Proj(axis) => Ok(projection_near(alloc, *axis, a, da, steps)?),
        _ => shape(alloc, op, da),
    }
}

// The change of a projection that is at hand. Before the change, the projection of what is in the opened box is what `own` has in that
// box without the axis, so only what is there after the change is projected.
fn projection_once<L: Ledger>(
    alloc: Global,
    axis: usize,
    own: &Tiles,
    a: &Tiles,
    da: Rows<'_>,
    steps: &mut Steps<L>,
) -> Result<Solid, NoMemory>
    requires same_dim { (vertices_of da).dim ≡ a.now.dim }
    requires some { 0 < length (vertices_of da).rows }
    requires deep { 2 ≤ a.now.dim }
    requires low { 0 < axis }
    requires high { axis ≤ a.now.dim }
    requires own_dim { own.now.dim ≡ a.now.dim - 1 }
    requires own_cells { cells_of own.now ≡ shape_before (Op1.Proj axis) a.now }
    ensures part { IfOk result
        (λ s. s ≡ shape_change (Op1.Proj axis) a.now (vertices_of da.entry)) }
    ensures few { steps.new
        ≤ steps.old + shape_cuts (Op1.Proj axis) a.now (vertices_of da.entry) }
    ensures more { steps.old ≤ steps.new }
{
    let dim = da.dim();
    let ends = open_box(da, axis);
    let columns = a.window(alloc, &ends.lo[..dim], &ends.hi[..dim])?;
    let base = without_axis(ends, axis);
    let kept = own.window(alloc, &base.lo[..dim - 1], &base.hi[..dim - 1])?;
    let after = xor(alloc, columns.rows(), da)?;
    let shadow = shadow_of(alloc, after.rows(), axis, steps)?;
    let made = xor(alloc, kept.rows(), shadow.rows())?;
    Ok(made)
}

/// The change of a projection, as of [`delta1`], where the projection before is at hand: `own` is the projection of `a` along the
/// axis, counted from 1, and `a` becomes `a xor da`.
///
/// Only what stands in whole columns over the least box of the change is projected, once, after the change; before it the tree
/// `own` has what is in the shadow of that box. Where nothing changes, nothing is done. Takes the memory of both windows, and of the
/// projection of the one.
///
/// It counts a step for each height at which what it projects changes. The one error is want of memory.
pub fn projection_change<L: Ledger>(
    alloc: Global,
    axis: usize,
    own: &Tiles,
    a: &Tiles,
    da: Rows<'_>,
    steps: &mut Steps<L>,
) -> Result<Solid, NoMemory>
    requires same_dim { (vertices_of da).dim ≡ a.now.dim }
    requires fits { Fits (Op1.Proj axis) a.now.dim }
    requires own_dim { own.now.dim ≡ op1_dim (Op1.Proj axis) a.now.dim }
    requires own_cells { cells_of own.now ≡ shape_before (Op1.Proj axis) a.now }
    ensures vertices { IfOk result
        (λ s. s ≡ shape_change (Op1.Proj axis) a.now (vertices_of da.entry)) }
    ensures dim { IfOk result (λ s. s.dim ≡ op1_dim (Op1.Proj axis) a.now.dim) }

    // The projection before becomes the projection after.
    ensures carries { IfOk result
        (λ s. CarriesShape (Op1.Proj axis) a.now (vertices_of da.entry) s) }

    // Whatever it answers.
    ensures few { steps.new
        ≤ steps.old + shape_cuts (Op1.Proj axis) a.now (vertices_of da.entry) }
    ensures more { steps.old ≤ steps.new }
{
    if da.len() == 0 {
        return Ok(Solid::empty(alloc, da.dim() - 1));
    }
    let made = projection_once(alloc, axis, own, a, da, steps)?;
    Ok(made)
}
