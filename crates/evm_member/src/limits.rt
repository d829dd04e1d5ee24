//! Which lists of numbers are cells and points.
ghost use Rattle.std.specs.Prelude.{◌≡◌, ◌<◌, ◌≤◌, ◌&&◌, int_le};
ghost use Rattle.std.specs.List.{list_all};
ghost use Rattle.evm_cells.specs.Limits.{is_cell, is_point};

use evm_rows::limit;

// Whether each number is from `low` up to `high`.
fn are_between(numbers: &[i32], low: i32, high: i32) -> bool
    ensures { result ≡ list_all (λ x. int_le low x && int_le x high) numbers.now }
{
    for x in numbers {
        if *x < low || high < *x {
            return false;
        }
    }
    true
}

/// Whether a list is a cell of dimension `dim`, as [`fills`](crate::fills) asks: it has `dim` coordinates, each from minus
/// the limit up to one less than the limit. Takes no memory.
pub fn is_cell(dim: usize, cell: &[i32]) -> bool
    requires low { 0 < dim }
    requires high { dim ≤ 6 }
    ensures { result ≡ is_cell dim cell.now }
{
    let limit = limit(dim);
    cell.len() == dim && are_between(cell, -limit, limit - 1)
}

/// Whether a list is a point of dimension `dim`, as [`place`](crate::place) asks: it has `dim` coordinates, each from
/// minus the limit up to the limit. Takes no memory.
pub fn is_point(dim: usize, point: &[i32]) -> bool
    requires low { 0 < dim }
    requires high { dim ≤ 6 }
    ensures { result ≡ is_point dim point.now }
{
    let limit = limit(dim);
    point.len() == dim && are_between(point, -limit, limit)
}
