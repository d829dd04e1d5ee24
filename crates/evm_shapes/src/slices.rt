// Sections along any axis.
ghost use Rattle.std.specs.Prelude.{◌≡◌, ◌-◌, ◌<◌, ◌≤◌, [], ◌∷◌, ◌++◌, true, length, IfOk, OnOk};
ghost use Rattle.evm_cells.specs.Limits.{is_cell_coord};
ghost use Rattle.evm_cells.specs.Vertices.{evm};
ghost use Rattle.evm_rows.specs.Rows.{flat_of, cells_of};
ghost use Rattle.evm_rows.specs.View.{vertices_of};
ghost use Rattle.evm_shapes.specs.Moves.{up_to};
ghost use Rattle.evm_shapes.specs.Shapes.{sliced_cells};

use crate::order::reduced;
use evm_rows::{NoMemory, Rows, Solid, split_row};
use std::alloc::{AllocError, Global};

// Appends the row without its number at `axis`, if that number is at most `at`.
fn append_up_to(out: &mut Vec<i32>, row: &[i32], axis: usize, at: i32) -> Result<(), AllocError>
    requires { axis < length row.now }
    ensures { OnOk result
        (out.new.items ≡ out.old.items ++ flat_of (up_to axis at (row.now ∷ []))) }
{
    if row[axis] <= at {
        out.extend_from_slice(&row[..axis])?;
        out.extend_from_slice(&row[axis + 1..])?;
    }
    Ok(())
}

// Appends each row up to the height `at` on an axis, without its number there.
fn append_all_up_to(out: &mut Vec<i32>, a: Rows<'_>, axis: usize, at: i32) -> Result<(), AllocError>
    requires { axis < (vertices_of a).dim }
    ensures { OnOk result
        (out.new.items ≡ out.old.items ++ flat_of (up_to axis at (vertices_of a.entry).rows)) }
{
    let mut left = a.flat;
    while left.len() != 0 {
        let (row, rest) = split_row(left, a.width, a.skip);
        append_up_to(out, row, axis, at)?;
        left = rest;
    }
    Ok(())
}

/// The section at the cell coordinate `at` of an axis, counted from 1: the cells with this coordinate there, without it.
/// Its vertices are the rows up to this height, without the coordinate, that occur an odd number of times; they are
/// sorted once. Takes memory for these rows twice, and for a reference a row while they are sorted.
pub fn slice(alloc: Global, a: Rows<'_>, axis: usize, at: i32) -> Result<Solid, NoMemory>
    requires deep { 2 ≤ (vertices_of a).dim }
    requires low { 0 < axis }
    requires high { axis ≤ (vertices_of a).dim }
    requires height { is_cell_coord (vertices_of a).dim at ≡ true }
    ensures dim { IfOk result (λ s. s.dim ≡ (vertices_of a.entry).dim - 1) }
    ensures rows { IfOk result
        (λ s. s.rows ≡ evm ((vertices_of a.entry).dim - 1)
        (sliced_cells axis at (vertices_of a.entry))) }
    ensures cells { IfOk result (λ s. cells_of s ≡ sliced_cells axis at (vertices_of a.entry)) }
{
    let dim = a.dim() - 1;
    let mut below = Vec::with_capacity(alloc, a.flat.len())?;
    append_all_up_to(&mut below, a, axis - 1, at)?;
    let flat = reduced(alloc, below.as_slice(), dim)?;
    Ok(Solid::from_rows(dim, flat))
}
