//! Where a point stands.
ghost use Rattle.std.specs.Prelude.{◌≡◌, ◌%◌, ◌<◌, ◌≤◌, ℕ, true, length, count_by};
ghost use Rattle.std.specs.Int.{bit_at};
ghost use Rattle.evm_cells.specs.Limits.{is_point};
ghost use Rattle.evm_cells.specs.Vertices.{cells};
ghost use Rattle.evm_rows.specs.View.{vertices_of};
ghost use Rattle.evm_member.specs.Levels.{is_level};
ghost use Rattle.evm_member.specs.Place.{place_of};

use crate::compare::{is_past, level_with};
use crate::outcome::Place;
use evm_rows::{Rows, split_row};

// Bit k says whether an odd number of rows has the coordinate of the point on exactly the axes k, and a lesser one on all
// other axes.
fn odd_levels(a: Rows<'_>, point: &[i32]) -> u64
    requires { length point.now ≡ (vertices_of a).dim }
    ensures { (axes : ℕ)
        → bit_at result axes ≡ count_by (is_level point.now axes) (vertices_of a.entry).rows % 2 }
{
    let mut odd = 0u64;
    let mut left = a.flat;
    while left.len() != 0 {
        let (row, rest) = split_row(left, a.width, a.skip);
        if is_past(row, point) {
            break;
        }
        if let Some(axes) = level_with(row, point) {
            odd ^= 1u64 << axes;
        }
        left = rest;
    }
    odd
}

/// Where a point stands in the solid of a view: inside if all `2^n` cells round it are filled, outside if none is, else
/// on the boundary.
///
/// `point` has one coordinate for each of the n axes of the view, in the limits of points. No cell is looked at: the
/// rows that are above the point on no axis are told apart by the axes on which they have its coordinate. The cells
/// round the point are all filled, or all empty, exactly if an even number of these rows belongs to each set of axes but
/// the empty one; which of the two it is, the parity for the empty set says (this project's own). One pass over the
/// rows, up to the first that is above the point on the first axis. It takes no memory and cannot fail.
pub fn place(a: Rows<'_>, point: &[i32]) -> Place
    requires { is_point (vertices_of a).dim point.now ≡ true }
    ensures { result ≡ place_of (vertices_of a.entry).dim
        (cells (vertices_of a.entry).dim (vertices_of a.entry).rows) point.now }
{
    match odd_levels(a, point) {
        0 => Place::Outside,
        1 => Place::Inside,
        _ => Place::Boundary,
    }
}
