// Prisms.
ghost use Rattle.std.specs.Prelude.{◌≡◌, ◌↔◌, ◌+◌, ◌-◌, ◌<◌, ◌≤◌, ◌≤ℤ◌, ◌<ℤ◌, neg_ℤ, pos, true, false, IfOk, IsErrOf};
ghost use Rattle.std.specs.List.{list_all};
ghost use Rattle.evm_cells.specs.Limits.{limit, is_point_coord};
ghost use Rattle.evm_cells.specs.Vertices.{evm};
ghost use Rattle.evm_rows.specs.Rows.{cells_of};
ghost use Rattle.evm_rows.specs.View.{vertices_of};
ghost use Rattle.evm_shapes.specs.Shapes.{lifted_cells, is_lift_in_range};

use crate::moves::{Move, append_all_moved};
use crate::order::reduced;
use crate::shifts::{ShapeError, is_within};
use evm_rows::{NoMemory, Rows, Solid, split_row};
use std::alloc::Global;

// Whether the coordinate is one of points of dimension `dim`.
fn is_coord(x: i32, dim: usize) -> bool
    requires low { 0 < dim }
    requires high { dim ≤ 6 }
    ensures { result ≡ is_point_coord dim x }
{
    is_within(i64::from(x), dim)
}

// Whether each coordinate is.
fn are_coords(row: &[i32], dim: usize) -> bool
    requires low { 0 < dim }
    requires high { dim ≤ 6 }
    ensures { result ≡ list_all (is_point_coord dim) row.now }
{
    row.iter().all(|x| is_coord(*x, dim))
}

// Whether each coordinate of each row is.
fn all_within(a: Rows<'_>, dim: usize) -> bool
    requires low { 0 < dim }
    requires high { dim ≤ 6 }
    ensures { result ≡ list_all (list_all (is_point_coord dim)) (vertices_of a.entry).rows }
{
    let mut left = a.flat;
    while left.len() != 0 {
        let (row, rest) = split_row(left, a.width, a.skip);
        if !are_coords(row, dim) {
            return false;
        }
        left = rest;
    }
    true
}

// The prism over a solid that fits the limits: each row stands once at `lo` and once at `hi`.
fn prism(alloc: Global, a: Rows<'_>, axis: usize, lo: i32, hi: i32) -> Result<Solid, NoMemory>
    requires room { (vertices_of a).dim ≤ 5 }
    requires low { 0 < axis }
    requires high { axis ≤ (vertices_of a).dim + 1 }
    requires some { lo <ℤ hi }
    requires fits { is_lift_in_range axis lo hi (vertices_of a) ≡ true }
    ensures dim { IfOk result (λ s. s.dim ≡ (vertices_of a.entry).dim + 1) }
    ensures rows { IfOk result
        (λ s. s.rows ≡ evm ((vertices_of a.entry).dim + 1)
        (lifted_cells axis lo hi (vertices_of a.entry))) }
    ensures cells { IfOk result (λ s. cells_of s ≡ lifted_cells axis lo hi (vertices_of a.entry)) }
{
    let dim = a.dim() + 1;
    let mut raised = Vec::with_capacity(alloc, a.flat.len())?;
    append_all_moved(&mut raised, a, Move::Raise(axis - 1, lo))?;
    append_all_moved(&mut raised, a, Move::Raise(axis - 1, hi))?;
    let flat = reduced(alloc, raised.as_slice(), dim)?;
    Ok(Solid::from_rows(dim, flat))
}

/// The prism over a solid: a new axis is put in at place `axis`, counted from 1, on which the cells run from `lo` up to,
/// but not at, `hi`, both in the limits of vertices of the dimension that it has then.
///
/// Each row stands once at `lo` and once at `hi`; the two ascending lists are sorted into one. Takes memory for the rows
/// of the prism twice, and for a reference a row while they are sorted.
///
/// # Errors
///
/// `Range` exactly where some cell of the prism would be past the limit of its dimension, which is where some vertex of
/// the solid is; this is found out first, and takes no memory. `NoMemory` where there is none for the rows.
pub fn lift(alloc: Global, a: Rows<'_>, axis: usize, lo: i32, hi: i32) -> Result<Solid, ShapeError>
    requires room { (vertices_of a).dim ≤ 5 }
    requires low { 0 < axis }
    requires high { axis ≤ (vertices_of a).dim + 1 }
    requires begins { neg_ℤ (pos (limit ((vertices_of a).dim + 1))) ≤ℤ lo }
    requires some { lo <ℤ hi }
    requires ends { hi ≤ℤ pos (limit ((vertices_of a).dim + 1)) }
    ensures dim { IfOk result (λ s. s.dim ≡ (vertices_of a.entry).dim + 1) }
    ensures rows { IfOk result
        (λ s. s.rows ≡ evm ((vertices_of a.entry).dim + 1)
        (lifted_cells axis lo hi (vertices_of a.entry))) }
    ensures cells { IfOk result (λ s. cells_of s ≡ lifted_cells axis lo hi (vertices_of a.entry)) }
    ensures range { IsErrOf result ShapeError.Range
        ↔ (is_lift_in_range axis lo hi (vertices_of a.entry) ≡ false) }
{
    if !all_within(a, a.dim() + 1) {
        return Err(ShapeError::Range);
    }
    match prism(alloc, a, axis, lo, hi) {
        Ok(solid) => Ok(solid),
        Err(_) => Err(ShapeError::NoMemory),
    }
}
