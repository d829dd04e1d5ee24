//! The axes and the numbers that formulas state, and their limits.

ghost use Rattle.std.specs.Prelude.{◌≡◌, ◌<◌, ◌≤◌, ◌+◌, ◌-◌, ◌*◌, ◌==◌, ◌&&◌, not, true, false, length, MatchOption};
ghost use Rattle.std.specs.List.{list_all};
ghost use Rattle.evm_cells.specs.Limits.{is_cell_coord, is_point_coord};
ghost use Rattle.evm_cells.specs.Shapes.{is_shift};
ghost use Rattle.evm_cells.specs.Boxes as boxes;
ghost use Rattle.evm_model.specs.Figures.{box_fits, low_of, high_of};
ghost use Rattle.evm_model.specs.Scene as model;
ghost use Rattle.evm_script.specs.Coordinates.{is_between};

use evm_rows::limit;
use evm_script::Num;

/// Whether a number is an axis of a solid of this dimension.
pub fn is_axis(dim: usize, axis: Num) -> bool
    requires { dim ≤ 6 }
    ensures { result ≡ model.is_axis dim axis }
{
    let n = axis.value();
    1 <= n && n <= dim as i64
}

/// One less than a dimension, or none exactly where it is 2 or this is no axis of it.
pub fn less_one(dim: usize, axis: Num) -> Option<usize>
    requires { dim ≤ 6 }
    ensures { MatchOption result ((not (dim == 2) && model.is_axis dim axis) ≡ false)
        (λ n. ((not (dim == 2) && model.is_axis dim axis) ≡ true) × (n ≡ dim - 1)) }
{
    if dim != 2 && is_axis(dim, axis) {
        Some(dim - 1)
    } else {
        None
    }
}

/// One more than a dimension, or none exactly where it is 6 or this is no axis of it.
pub fn one_more(dim: usize, axis: Num) -> Option<usize>
    requires { dim ≤ 6 }
    ensures { MatchOption result ((not (dim == 6) && model.is_axis (dim + 1) axis) ≡ false)
        (λ n. ((not (dim == 6) && model.is_axis (dim + 1) axis) ≡ true) × (n ≡ dim + 1)) }
{
    if dim != 6 && is_axis(dim + 1, axis) {
        Some(dim + 1)
    } else {
        None
    }
}

/// Whether each number is from `low` to `high`.
fn are_between(numbers: &[i64], low: i64, high: i64) -> bool
    ensures { result ≡ list_all (is_between low high) numbers.now }
{
    numbers.iter().all(|n| low <= *n && *n <= high)
}

/// Whether the numbers move solids of this dimension.
#[tactic(auto, unfolding(evm_cells::specs::Shapes::is_shift))]
pub fn is_shift(dim: usize, numbers: &[i64]) -> bool
    requires low { 0 < dim }
    requires high { dim ≤ 6 }
    ensures { result ≡ is_shift dim numbers.now }
{
    let most = 2 * i64::from(limit(dim));
    numbers.len() == dim && are_between(numbers, -most, most)
}

/// Whether each side has a length and ends within the limits.
fn has_sides(low: &[i64], high: &[i64]) -> bool
    requires same { length high.now ≡ length low.now }
    requires low { 0 < length low.now }
    requires high { length low.now ≤ 6 }
    ensures { result ≡ boxes.is_box (length low.now) low.now high.now }
{
    let limit = i64::from(limit(low.len()));
    for axis in 0..low.len() {
        if low[axis] < -limit || limit < high[axis] || high[axis] <= low[axis] {
            return false;
        }
    }
    true
}

/// Whether the numbers are the lower and the upper corner of a box of this dimension.
pub fn is_box(dim: usize, numbers: &[i64]) -> bool
    requires low { 0 < dim }
    requires high { dim ≤ 6 }
    requires both { length numbers.now ≡ 2 * dim }
    ensures { result ≡ box_fits (low_of dim numbers.now) (high_of dim numbers.now) }
{
    let (low, high) = numbers.split_at(dim);
    has_sides(low, high)
}

/// Whether a number is a coordinate of cells of this dimension.
#[tactic(auto, unfolding(evm_cells::specs::Limits::is_cell_coord, evm_cells::specs::Limits::limit))]
pub fn is_height(dim: usize, at: Num) -> bool
    requires low { 0 < dim }
    requires high { dim ≤ 6 }
    ensures { result ≡ is_cell_coord dim at }
{
    let limit = i64::from(limit(dim));
    let at = at.value();
    -limit <= at && at < limit
}

/// Whether a number is a coordinate of points of this dimension.
#[tactic(auto, unfolding(evm_cells::specs::Limits::is_point_coord, evm_cells::specs::Limits::limit))]
fn is_end(dim: usize, at: Num) -> bool
    requires low { 0 < dim }
    requires high { dim ≤ 6 }
    ensures { result ≡ is_point_coord dim at }
{
    let limit = i64::from(limit(dim));
    let at = at.value();
    -limit <= at && at <= limit
}

/// Whether a prism of this dimension can run from one height up to another.
pub fn is_range(dim: usize, low: Num, high: Num) -> bool
    requires low { 0 < dim }
    requires high { dim ≤ 6 }
    ensures { result ≡ model.is_range dim low high }
{
    is_end(dim, low) && is_end(dim, high) && low.value() < high.value()
}
