// The two parts of a couplet.
ghost use Rattle.std.specs.Prelude.{◌≡◌, ◌-◌, ◌<◌, ◌≤◌, true, IfOk};
ghost use Rattle.evm_cells.specs.Limits.{is_cell_coord, is_point_coord};
ghost use Rattle.evm_cells.specs.Vertices.{evm};
ghost use Rattle.evm_rows.specs.Rows.{cells_of};
ghost use Rattle.evm_rows.specs.View.{vertices_of};
ghost use Rattle.evm_shapes.specs.Shapes.{sliced_cells};
ghost use Rattle.evm_faces.specs.Faces.{only_cells, rising_cells, falling_cells};

use evm_boolean::sub;
use evm_rows::{NoMemory, Rows, Solid, limit};
use evm_shapes::slice;
use std::alloc::Global;

// Whether cells of dimension `dim` have the coordinate.
#[tactic(auto, unfolding(evm_cells::specs::Limits::is_cell_coord))]
fn is_in_range(dim: usize, at: i32) -> bool
    requires low { 0 < dim }
    requires high { dim ≤ 6 }
    ensures { result ≡ is_cell_coord dim at }
{
    let limit = limit(dim);
    -limit <= at && at < limit
}

// The section at a height, which is empty past the limits of cells.
fn section(alloc: Global, a: Rows<'_>, axis: usize, at: i32) -> Result<Solid, NoMemory>
    requires deep { 2 ≤ (vertices_of a).dim }
    requires low { 0 < axis }
    requires high { axis ≤ (vertices_of a).dim }
    ensures dim { IfOk result (λ s. s.dim ≡ (vertices_of a.entry).dim - 1) }
    ensures cells { IfOk result (λ s. cells_of s ≡ sliced_cells axis at (vertices_of a.entry)) }
{
    if is_in_range(a.dim(), at) {
        let within = slice(alloc, a, axis, at)?;
        return Ok(within);
    }
    Ok(Solid::empty(alloc, a.dim() - 1))
}

// The cells of the section at `here` that are not in the section at `there`.
fn only_at(
    alloc: Global,
    a: Rows<'_>,
    axis: usize,
    here: i32,
    there: i32,
) -> Result<Solid, NoMemory>
    requires deep { 2 ≤ (vertices_of a).dim }
    requires low { 0 < axis }
    requires high { axis ≤ (vertices_of a).dim }
    ensures dim { IfOk result (λ s. s.dim ≡ (vertices_of a.entry).dim - 1) }
    ensures cells { IfOk result
        (λ s. cells_of s ≡ only_cells axis here there (vertices_of a.entry)) }
    ensures rows { IfOk result
        (λ s. s.rows ≡ evm ((vertices_of a.entry).dim - 1)
        (only_cells axis here there (vertices_of a.entry))) }
{
    let kept = section(alloc, a, axis, here)?;
    let taken = section(alloc, a, axis, there)?;
    let left = sub(alloc, kept.rows(), taken.rows())?;
    Ok(left)
}

/// What rises at the height `at` of an axis, counted from 1: the cells of the section that begins there that are not in
/// the section below, without this coordinate. The height is the coordinate of a point, from minus the limit up to the
/// limit; at the limits one of the two sections has no cells. This is the part of the couplet of Aguilera and Ayala that
/// bounds the solid from below; the name is this project's own. Takes memory for the two sections, as [`slice`] does, and
/// for their difference. The one error is want of memory.
pub fn rising(alloc: Global, a: Rows<'_>, axis: usize, at: i32) -> Result<Solid, NoMemory>
    requires deep { 2 ≤ (vertices_of a).dim }
    requires low { 0 < axis }
    requires high { axis ≤ (vertices_of a).dim }
    requires height { is_point_coord (vertices_of a).dim at ≡ true }
    ensures dim { IfOk result (λ s. s.dim ≡ (vertices_of a.entry).dim - 1) }
    ensures rows { IfOk result
        (λ s. s.rows ≡ evm ((vertices_of a.entry).dim - 1)
        (rising_cells axis at (vertices_of a.entry))) }
    ensures cells { IfOk result (λ s. cells_of s ≡ rising_cells axis at (vertices_of a.entry)) }
{
    let face = only_at(alloc, a, axis, at, at - 1)?;
    Ok(face)
}

/// What falls at the height `at` of an axis, counted from 1: the cells of the section just below the height that are not
/// in the section that begins there, without this coordinate. The height is the coordinate of a point, from minus the
/// limit up to the limit; at the limits one of the two sections has no cells. This is the part of the couplet of Aguilera
/// and Ayala that bounds the solid from above; the name is this project's own. Takes memory for the two sections, as
/// [`slice`] does, and for their difference. The one error is want of memory.
pub fn falling(alloc: Global, a: Rows<'_>, axis: usize, at: i32) -> Result<Solid, NoMemory>
    requires deep { 2 ≤ (vertices_of a).dim }
    requires low { 0 < axis }
    requires high { axis ≤ (vertices_of a).dim }
    requires height { is_point_coord (vertices_of a).dim at ≡ true }
    ensures dim { IfOk result (λ s. s.dim ≡ (vertices_of a.entry).dim - 1) }
    ensures rows { IfOk result
        (λ s. s.rows ≡ evm ((vertices_of a.entry).dim - 1)
        (falling_cells axis at (vertices_of a.entry))) }
    ensures cells { IfOk result (λ s. cells_of s ≡ falling_cells axis at (vertices_of a.entry)) }
{
    let face = only_at(alloc, a, axis, at - 1, at)?;
    Ok(face)
}
