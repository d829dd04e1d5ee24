//! Solids by their cells, and the side of a plane that one is on.

ghost use Rattle.std.specs.Prelude.{◌≡◌, ◌<◌, IfOk};
ghost use Rattle.evm_rows.specs.Rows.{cells_of};
ghost use Rattle.evm_rows.specs.View.{vertices_of};
ghost use Rattle.evm_tiles.specs.Shown.{just_one, no_row_above, no_row_below};
ghost use Rattle.evm_tiles.specs.Sides.{HasSide};

use evm_rows::{NoMemory, Rows, Solid, split_row, xor};
use std::alloc::Global;

/// The cells of just one of two solids.
pub(crate) fn both(alloc: Global, a: &Solid, b: &Solid) -> Result<Solid, NoMemory>
    requires { b.now.dim ≡ a.now.dim }
    ensures dim { IfOk result (λ s. s.dim ≡ a.now.dim) }
    ensures cells { IfOk result (λ s. cells_of s ≡ just_one a.now b.now) }
{
    let made = xor(alloc, a.rows(), b.rows())?;
    Ok(made)
}

/// Where a solid lies: below a plane, above it, or maybe on both sides.
pub(crate) enum Side {
    Below,
    Above,
    Both,
}

/// Whether no row is above a height on an axis.
fn is_all_up_to(a: Rows<'_>, axis: usize, at: i32) -> bool
    requires { axis < (vertices_of a).dim }
    ensures { result ≡ no_row_above axis at (vertices_of a.entry) }
{
    let mut left = a.flat;
    while left.len() != 0 {
        let (row, rest) = split_row(left, a.width, a.skip);
        if at < row[axis] {
            return false;
        }
        left = rest;
    }
    true
}

/// Whether no row is below a height on an axis.
fn is_all_from(a: Rows<'_>, axis: usize, at: i32) -> bool
    requires { axis < (vertices_of a).dim }
    ensures { result ≡ no_row_below axis at (vertices_of a.entry) }
{
    let mut left = a.flat;
    while left.len() != 0 {
        let (row, rest) = split_row(left, a.width, a.skip);
        if row[axis] < at {
            return false;
        }
        left = rest;
    }
    true
}

/// Where a solid lies, as seen by its rows.
pub(crate) fn side_of(a: Rows<'_>, axis: usize, at: i32) -> Side
    requires { axis < (vertices_of a).dim }
    ensures { HasSide result axis at (cells_of (vertices_of a.entry)) }
{
    if is_all_up_to(a, axis, at) {
        Side::Below
    } else if is_all_from(a, axis, at) {
        Side::Above
    } else {
        Side::Both
    }
}
