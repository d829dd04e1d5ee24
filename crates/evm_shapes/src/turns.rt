// Mirror images, and axes that change places.
ghost use Rattle.std.specs.Prelude.{◌≡◌, ◌-◌, ◌<◌, ◌≤◌, ◌%◌, length, map, IfOk};
ghost use Rattle.evm_cells.specs.Vertices.{evm};
ghost use Rattle.evm_rows.specs.Rows.{rows_of, cells_of};
ghost use Rattle.evm_rows.specs.View.{vertices_of};
ghost use Rattle.evm_shapes.specs.Moves.{moved, moved_dim, IsMoveOf};
ghost use Rattle.evm_cells.specs.Windows.{IsReduced};
ghost use Rattle.evm_shapes.specs.Shapes.{mirrored_cells, swapped_cells, fronted_cells};

use crate::moves::{Move, append_all_moved};
use crate::order::reduced;
use evm_rows::{NoMemory, Rows, Solid};
use std::alloc::{AllocError, Global};

// The rows of a view, moved and put in order.
fn rearranged(alloc: Global, a: Rows<'_>, step: Move) -> Result<Vec<i32>, AllocError>
    requires axes { IsMoveOf (vertices_of a).dim step }
    requires keeps { moved_dim step (vertices_of a).dim ≡ (vertices_of a).dim }
    ensures whole { IfOk result (λ v. length v.items % (vertices_of a.entry).dim ≡ 0) }
    ensures rows { IfOk result
        (λ v. IsReduced (vertices_of a.entry).dim (map (moved step) (vertices_of a.entry).rows)
        (rows_of v.items (vertices_of a.entry).dim 0)) }
{
    let dim = a.dim();
    let mut moved = Vec::with_capacity(alloc, a.flat.len())?;
    append_all_moved(&mut moved, a, step)?;
    let flat = reduced(alloc, moved.as_slice(), dim)?;
    Ok(flat)
}

/// The mirror image across an axis: each cell coordinate x on it becomes -1 - x. Axes are counted from 1. Each vertex
/// coordinate becomes its negative, and the rows are sorted once. Takes memory for the rows twice, and for a
/// reference a row while they are sorted.
pub fn mirror(alloc: Global, a: Rows<'_>, axis: usize) -> Result<Solid, NoMemory>
    requires low { 0 < axis }
    requires high { axis ≤ (vertices_of a).dim }
    ensures dim { IfOk result (λ s. s.dim ≡ (vertices_of a.entry).dim) }
    ensures rows { IfOk result
        (λ s. s.rows ≡ evm (vertices_of a.entry).dim (mirrored_cells axis (vertices_of a.entry))) }
    ensures cells { IfOk result (λ s. cells_of s ≡ mirrored_cells axis (vertices_of a.entry)) }
{
    let dim = a.dim();
    let flat = rearranged(alloc, a, Move::Mirror(axis - 1))?;
    Ok(Solid::from_rows(dim, flat))
}

/// The solid with the axes `i` and `j` exchanged, which may be one axis. Axes are counted from 1. The rows are sorted
/// once. Takes memory for the rows twice, and for a reference a row while they are sorted.
pub fn swap(alloc: Global, a: Rows<'_>, i: usize, j: usize) -> Result<Solid, NoMemory>
    requires first_low { 0 < i }
    requires first_high { i ≤ (vertices_of a).dim }
    requires second_low { 0 < j }
    requires second_high { j ≤ (vertices_of a).dim }
    ensures dim { IfOk result (λ s. s.dim ≡ (vertices_of a.entry).dim) }
    ensures rows { IfOk result
        (λ s. s.rows ≡ evm (vertices_of a.entry).dim (swapped_cells i j (vertices_of a.entry))) }
    ensures cells { IfOk result (λ s. cells_of s ≡ swapped_cells i j (vertices_of a.entry)) }
{
    let dim = a.dim();
    let flat = rearranged(alloc, a, Move::Swap(i - 1, j - 1))?;
    Ok(Solid::from_rows(dim, flat))
}

/// The solid with an axis put first, and the others after it in their order. Axes are counted from 1. The rows are sorted
/// once, as in `swap`.
pub fn fronted(alloc: Global, a: Rows<'_>, axis: usize) -> Result<Solid, NoMemory>
    requires low { 0 < axis }
    requires high { axis ≤ (vertices_of a).dim }
    ensures dim { IfOk result (λ s. s.dim ≡ (vertices_of a.entry).dim) }
    ensures rows { IfOk result
        (λ s. s.rows ≡ evm (vertices_of a.entry).dim (fronted_cells axis (vertices_of a.entry))) }
{
    let dim = a.dim();
    let flat = rearranged(alloc, a, Move::Front(axis - 1))?;
    Ok(Solid::from_rows(dim, flat))
}
