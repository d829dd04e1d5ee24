//! The heights at which boxes come or go.

ghost use Rattle.std.specs.Prelude.{◌≡◌, IfOk};
ghost use Rattle.evm_boxes.specs.Fills.{events_of, AreEvents};

use super::BoxRow;
use evm_rows::NoMemory;
use std::alloc::{AllocError, Global};

/// The heights at which boxes begin or end on the first axis, ascending, each once. It takes memory for two numbers a box;
/// the one error is want of memory.
pub(crate) fn heights_of(alloc: Global, rows: &[BoxRow]) -> Result<Vec<i32>, NoMemory>
    ensures { IfOk result (λ v. AreEvents rows.now v.items) }
{
    let mut heights = first_ends(alloc, rows)?;
    heights.sort_unstable();
    heights.dedup();
    Ok(heights)
}

/// The two ends of each box on the first axis.
fn first_ends(alloc: Global, rows: &[BoxRow]) -> Result<Vec<i32>, AllocError>
    ensures { IfOk result (λ v. v.items ≡ events_of rows.now) }
{
    let mut ends = Vec::with_capacity(alloc, rows.len().saturating_mul(2))?;
    for row in rows {
        ends.push(row.lo[0])?;
        ends.push(row.hi[0])?;
    }
    Ok(ends)
}
