//! Content and boundary content of whole solids, by cutting them in two.

ghost use Rattle.std.specs.Prelude.{◌≡◌, ◌<◌, ◌≤◌, false, length, IfOk};
ghost use Rattle.evm_cells.specs.Vertices.{cells};
ghost use Rattle.evm_cells.specs.Measures.{content, boundary};
ghost use Rattle.evm_rows.specs.Rows.{cells_of};
ghost use Rattle.evm_rows.specs.View.{vertices_of};

use crate::halves::halved;
use crate::seams::faces_between;
use evm_rows::{NoMemory, Rows, Solid, own};
use std::alloc::Global;

/// How often a solid is cut again at most.
const DEEP: usize = 64;

/// Which parts are swept and no more cut: those of few rows, and those whose sections turn over within few heights.
#[derive(Clone, Copy)]
pub(crate) struct Sweeps {
    /// The most rows that are few.
    rows: usize,
    /// The heights that are no more few: none where sections are solids, of which a sweep is dear even if they turn over quickly.
    heights: usize,
}

impl Sweeps {
    /// What was measured to serve best in a dimension.
    fn of(dim: usize) -> Sweeps {
        match dim {
            3 => Sweeps {
                rows: 1024,
                heights: 20,
            },
            4 => Sweeps {
                rows: 2048,
                heights: 0,
            },
            _ => Sweeps {
                rows: 4096,
                heights: 0,
            },
        }
    }
}

/// Whether two rows lie on one line along the first axis.
fn are_on_line(a: Rows<'_>, first: usize, second: usize) -> bool
    requires first { first < length (vertices_of a).rows }
    requires second { second < length (vertices_of a).rows }
{
    for axis in 2..a.dim() + 1 {
        if a.coord(first, axis) != a.coord(second, axis) {
            return false;
        }
    }
    true
}

/// How many heights of the first axis rows go through, from a row on until its line is met again: `most` at most, in `count` rows.
fn heights_to_next(a: Rows<'_>, row: usize, count: usize, most: usize) -> usize
    requires { row < length (vertices_of a).rows }
{
    let end = a.len().min(row.saturating_add(count));
    let mut passed = 0;
    let mut height = a.coord(row, 1);
    for next in row + 1..end {
        let at = a.coord(next, 1);
        if at != height {
            passed += 1;
            height = at;
        }
        if most <= passed || are_on_line(a, row, next) {
            return passed;
        }
    }
    passed
}

/// Whether the sections along the first axis turn over within few heights, so that a sweep is nearly linear: so it is with solids of
/// voxels. About eight rows are looked at, of which half begin what lies on their line: some of these are met again soon.
fn turns_over(a: Rows<'_>, heights: usize) -> bool {
    let step = a.len() / 8 + 1;
    let mut met = 0usize;
    let mut row = step / 2;
    while row < a.len() {
        if heights_to_next(a, row, a.len() / 32, heights) < heights {
            met += 1;
        }
        if met == 3 {
            return true;
        }
        row = row.saturating_add(step);
    }
    false
}

/// Whether a part is swept, as all of at most two axes are. A choice of speed alone.
fn is_swept(a: Rows<'_>, sweeps: Sweeps) -> bool
    ensures { result ≡ false → 3 ≤ (vertices_of a.entry).dim }
{
    a.dim() <= 2 || a.len() <= sweeps.rows || turns_over(a, sweeps.heights)
}

/// The content, of a solid that is cut `fuel` times more at most, on the axis `first` if it serves.
fn content_of(
    alloc: Global,
    solid: Solid,
    sweeps: Sweeps,
    first: usize,
    fuel: usize,
) -> Result<u128, NoMemory>
    ensures { IfOk result (λ n. n ≡ content (cells_of solid)) }
{
    if fuel == 0 || is_swept(solid.rows(), sweeps) {
        return evm_measure::content(alloc, solid.rows());
    }
    let halves = halved(alloc, &solid, first)?;
    match halves {
        Some(made) => {
            drop(solid);
            let next = made.axis + 1;
            let low = content_of(alloc, made.low, sweeps, next, fuel - 1)?;
            let high = content_of(alloc, made.high, sweeps, next, fuel - 1)?;
            Ok(low + high)
        }
        None => evm_measure::content(alloc, solid.rows()),
    }
}

/// The content: the number of unit cells. It is at most `2^120`.
///
/// The solid is cut in two by a plane near the middle of its rows, each part again on the next axis, and the contents of the parts
/// add up: a section of a part is short, where that of the whole is long (this project's own). A part is swept as `evm_measure` does
/// where it has few rows, where its sections turn over quickly, or where no plane leaves both sides clearly smaller.
///
/// Takes memory for the rows once, for the two sides of each plane on the way to a part, which come to a few times the rows at most,
/// and as `evm_measure` does for a part. The one error is want of memory.
pub fn content(alloc: Global, a: Rows<'_>) -> Result<u128, NoMemory>
    ensures { IfOk result
        (λ n. n ≡ content (cells (vertices_of a.entry).dim (vertices_of a.entry).rows)) }
{
    let sweeps = Sweeps::of(a.dim());
    if is_swept(a, sweeps) {
        return evm_measure::content(alloc, a);
    }
    let solid = own(alloc, a)?;
    content_of(alloc, solid, sweeps, 0, DEEP)
}

/// The boundary content, of a solid that is cut `fuel` times more at most, on the axis `first` if it serves.
fn boundary_of(
    alloc: Global,
    solid: Solid,
    sweeps: Sweeps,
    first: usize,
    fuel: usize,
) -> Result<u128, NoMemory>
    ensures { IfOk result (λ n. n ≡ boundary solid.dim (cells_of solid)) }
{
    if fuel == 0 || is_swept(solid.rows(), sweeps) {
        return evm_measure::boundary(alloc, solid.rows());
    }
    let halves = halved(alloc, &solid, first)?;
    match halves {
        Some(made) => {
            drop(solid);
            let next = made.axis + 1;
            let hidden = faces_between(alloc, &made.low, &made.high, made.axis, made.at)?;
            let low = boundary_of(alloc, made.low, sweeps, next, fuel - 1)?;
            let high = boundary_of(alloc, made.high, sweeps, next, fuel - 1)?;
            Ok(low + high - hidden)
        }
        None => evm_measure::boundary(alloc, solid.rows()),
    }
}

/// The boundary content: over all axes, the number of pairs of neighbouring places of which exactly one is filled. A place
/// past the limits counts as empty. It is below `2^124`.
///
/// The solid is cut as for [`content`]. Two parts have together the faces of the whole, and two more for each pair of neighbours that
/// the plane parts: these are the cells that the sections just below and just above it share, and their number is that of the sections
/// less that of their exclusive or, halved (this project's own).
///
/// Takes memory as [`content`] does, and for three sections. The one error is want of memory.
pub fn boundary(alloc: Global, a: Rows<'_>) -> Result<u128, NoMemory>
    ensures { IfOk result
        (λ n. n ≡ boundary (vertices_of a.entry).dim
        (cells (vertices_of a.entry).dim (vertices_of a.entry).rows)) }
{
    let sweeps = Sweeps::of(a.dim());
    if is_swept(a, sweeps) {
        return evm_measure::boundary(alloc, a);
    }
    let solid = own(alloc, a)?;
    boundary_of(alloc, solid, sweeps, 0, DEEP)
}

#[cfg(test)]
mod tests;
