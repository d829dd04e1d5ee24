//! Whether a cell is filled.
ghost use Rattle.std.specs.Prelude.{◌≡◌, true};
ghost use Rattle.evm_cells.specs.Limits.{is_cell};
ghost use Rattle.evm_cells.specs.Places.{has};
ghost use Rattle.evm_cells.specs.Vertices.{cells};
ghost use Rattle.evm_rows.specs.View.{vertices_of};

use crate::compare::{is_below, is_past};
use evm_rows::{Rows, split_row};

/// Whether the solid of a view fills a cell, which is given by its least corner.
///
/// `cell` has one coordinate for each axis of the view, in the limits of cells. A cell is filled exactly if an odd
/// number of extreme vertices is above it on no axis (this project's own). One pass over the rows, up to the first that
/// is above the cell on the first axis. It takes no memory and cannot fail.
pub fn fills(a: Rows<'_>, cell: &[i32]) -> bool
    requires { is_cell (vertices_of a).dim cell.now ≡ true }
    ensures { result ≡ has (cells (vertices_of a.entry).dim (vertices_of a.entry).rows) cell.now }
{
    let mut filled = false;
    let mut left = a.flat;
    while left.len() != 0 {
        let (row, rest) = split_row(left, a.width, a.skip);
        if is_past(row, cell) {
            break;
        }
        if is_below(row, cell) {
            filled = !filled;
        }
        left = rest;
    }
    filled
}
