// Shapes of one solid, by their names.
ghost use Rattle.std.specs.Prelude.{◌≡◌, ◌≤◌, ◌*◌, ◌↔◌, true, false, length, take, drop, IfOk, IsErrOf};
ghost use Rattle.std.specs.List.{list_all};
ghost use Rattle.evm_cells.specs.Boxes.{is_box};
ghost use Rattle.evm_cells.specs.Limits.{is_point_coord};
ghost use Rattle.evm_cells.specs.Shapes.{clip};
ghost use Rattle.evm_cells.specs.Vertices.{evm};
ghost use Rattle.evm_rows.specs.Rows.{cells_of};
ghost use Rattle.evm_rows.specs.View.{vertices_of};
ghost use Rattle.evm_delta.specs.Shapes.{Fits, op1_dim, op1_cells, in_range, shape_vertices, of_shape_error};
ghost use Rattle.evm_delta.specs.declared.shapes.DeltaError.TheVariants as errors;

use evm_rows::{NoMemory, Rows, Solid, limit};
use evm_script::Nums;
use evm_shapes::{ShapeError, clip, lift, mirror, project, shift, slice, swap};
use std::alloc::Global;

/// A shape of one solid. Axes are counted from 1.
#[derive(Clone, Copy, Debug, PartialEq, Eq)]
pub enum Op1 {
    /// Each cell is moved by these numbers, one an axis, each at most twice the limit in size.
    Shift(Nums),
    /// The mirror image across an axis: each cell coordinate x on it becomes -1 - x.
    Mirror(usize),
    /// Two axes are exchanged, which may be one.
    Swap(usize, usize),
    /// What is inside a box: the numbers of its lower corner, and then those of its upper one.
    Clip(Nums),
    /// The section along an axis at a cell coordinate, without that coordinate.
    Slice(usize, i32),
    /// The projection along an axis.
    Proj(usize),
    /// The prism along a new axis, from a lower end up to, but not at, an upper end.
    Lift(usize, i32, i32),
}

/// Why there is no shape, or no change of it.
#[derive(Clone, Copy, Debug, PartialEq, Eq)]
pub enum DeltaError {
    /// A shift or a lift takes some cell past the limits.
    Range,
    /// There was no memory.
    NoMemory,
}

impl From<NoMemory> for DeltaError {
    ghost from_gives = { λ _ e. e ≡ errors.NoMemory };

    fn from(_e: NoMemory) -> DeltaError {
        DeltaError::NoMemory
    }
}

impl From<ShapeError> for DeltaError {
    ghost from_gives = { λ e r. r ≡ of_shape_error e };

    fn from(e: ShapeError) -> DeltaError {
        match e {
            ShapeError::Range => DeltaError::Range,
            ShapeError::NoMemory => DeltaError::NoMemory,
        }
    }
}

// The cells in the box whose corners the numbers state.
fn clipped(alloc: Global, a: Rows<'_>, corners: &Nums) -> Result<Solid, NoMemory>
    requires both { length corners.now ≡ 2 * (vertices_of a).dim }
    requires is_box { is_box (vertices_of a).dim (take (vertices_of a).dim corners.now)
        (drop (vertices_of a).dim corners.now) ≡ true }
    ensures dim { IfOk result (λ s. s.dim ≡ (vertices_of a.entry).dim) }
    ensures rows { IfOk result
        (λ s. s.rows ≡ evm (vertices_of a.entry).dim
        (clip (vertices_of a.entry).dim (take (vertices_of a.entry).dim corners.now)
        (drop (vertices_of a.entry).dim corners.now) (cells_of (vertices_of a.entry)))) }
{
    let dim = a.dim();
    let limit = limit(dim);
    match corners.between(-limit, limit) {
        Some(found) => {
            let (lo, hi) = found.values().split_at(dim);
            clip(alloc, a, lo, hi)
        }
        None => unreachable!(),
    }
}

/// The shape of a solid, made anew. Takes the memory of the call of that shape.
///
/// # Errors
///
/// `Range` exactly where a shift or a lift takes some cell past the limits. `NoMemory` where there is none.
pub fn shape(alloc: Global, op: &Op1, a: Rows<'_>) -> Result<Solid, DeltaError>
    requires { Fits op.now (vertices_of a).dim }
    ensures vertices { IfOk result (λ s. s ≡ shape_vertices op.now (vertices_of a.entry)) }
    ensures dim { IfOk result (λ s. s.dim ≡ op1_dim op.now (vertices_of a.entry).dim) }
    ensures cells { IfOk result
        (λ s. cells_of s
        ≡ op1_cells op.now (vertices_of a.entry).dim (cells_of (vertices_of a.entry))) }
    ensures range { IsErrOf result DeltaError.Range
        ↔ (in_range op.now (vertices_of a.entry).dim (cells_of (vertices_of a.entry)) ≡ false) }
{
    match op {
        Op1::Shift(by) => Ok(shift(alloc, a, by.values())?),
        Op1::Mirror(axis) => Ok(mirror(alloc, a, *axis)?),
        Op1::Swap(i, j) => Ok(swap(alloc, a, *i, *j)?),
        Op1::Clip(corners) => Ok(clipped(alloc, a, corners)?),
        Op1::Slice(axis, at) => Ok(slice(alloc, a, *axis, *at)?),
        Op1::Proj(axis) => Ok(project(alloc, a, *axis)?),
        Op1::Lift(axis, lo, hi) => Ok(lift(alloc, a, *axis, *lo, *hi)?),
    }
}
