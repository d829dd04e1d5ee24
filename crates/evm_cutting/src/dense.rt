//! Whether one recursion over sections is the shorter way: a choice of speed alone.

use crate::halves::Split;
use evm_rows::Rows;

/// Whether the sections of two solids along the first axis are seen to change fast: then the recursion takes nearly as many steps as
/// there are rows, and a cut would only add to them. Solids of few heights and many rows are such, as scans: a section has about as
/// many rows as the faces of a cube of all rows.
pub(crate) fn is_dense(a: Rows<'_>, b: Rows<'_>) -> bool {
    let dim = a.dim();
    let most = match dim {
        0..=2 => return false,
        3 => 20,
        4 => 8,
        5 => 12,
        _ => 15,
    };
    let heights = heights_of(a).saturating_add(heights_of(b));
    let mut rows: usize = 1;
    for _ in 0..dim {
        rows = rows.saturating_mul(heights / most);
    }
    rows <= a.len().saturating_add(b.len())
}

/// Whether a cut across the first axis shows that: by the rows of the sections at the plane, which both sides have beside their own.
pub(crate) fn shows_dense(a: Rows<'_>, b: Rows<'_>, left: &Split, right: &Split) -> bool {
    let count = a.len().saturating_add(b.len());
    let heights = heights_of(a).saturating_add(heights_of(b));
    let low = left.low.len().saturating_add(right.low.len());
    let high = left.high.len().saturating_add(right.high.len());
    let section = low.saturating_add(high).saturating_sub(count) / 2;
    heights.saturating_mul(section) <= count.saturating_mul(15)
}

/// How many heights of the first axis rows have.
fn heights_of(a: Rows<'_>) -> usize {
    let count = a.len();
    let mut heights: usize = 0;
    for row in 0..count {
        if row == 0 || a.coord(row - 1, 1) != a.coord(row, 1) {
            heights = heights.saturating_add(1);
        }
    }
    heights
}
