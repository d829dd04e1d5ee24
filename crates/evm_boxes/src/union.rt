//! Unions of boxes.

ghost use Rattle.std.specs.Prelude.{◌≡◌, ◌<◌, ◌≤◌, length, map, All, IfOk, IsOk};
ghost use Rattle.evm_cells.specs.Boxes.{box_cells};
ghost use Rattle.evm_cells.specs.Vertices.{evm, cells};
ghost use Rattle.evm_cells.specs.Unions.{union_of};
ghost use Rattle.evm_boxes.specs.BoxRows.{ends_of, IsBoxRow};

use super::BoxRow;
use super::cut::{Sides, divide};
use super::events::join_few;
use evm_boolean::{Op2, combine};
use evm_rows::{BoxError, NoMemory, Solid, xor};
use std::alloc::Global;

/// How many boxes are joined without a cut, times the dimension: the more axes, the more a cut saves (measured).
const FEW: usize = 96;

/// The union of boxes of dimension `dim`, each with room on each axis and within the limits. Without boxes it is empty.
///
/// Where there are many boxes, a plane cuts them into those below it and those above it, each side is joined by itself,
/// and the answers are put together by one merge, since the two sides share no cell. A plane is taken if it leaves to each
/// side at most seven of eight boxes, so this goes no deeper than a logarithm of their number. Few boxes are joined by what
/// comes and goes from height to height of the first axis; on one axis alone they are united by halves.
///
/// It takes memory for the boxes of the sides that wait, 56 bytes each: commonly about two times those given, and never
/// more than seven times, in lists that grow by doubling; for a finished union of each side that waits for the other; and
/// for what the union of two solids takes. The one error is want of memory.
pub fn join(alloc: Global, dim: usize, boxes: &[BoxRow]) -> Result<Solid, NoMemory>
    requires low { 0 < dim }
    requires high { dim ≤ 6 }
    requires boxes { All (IsBoxRow dim) boxes.now }
    ensures dim { IfOk result (λ s. s.dim ≡ dim) }
    ensures rows { IfOk result (λ s. s.rows ≡ evm dim (union_of dim (map ends_of boxes.now))) }
    ensures cells { IfOk result (λ s. cells s.dim s.rows ≡ union_of dim (map ends_of boxes.now)) }
{
    match Vec::from_slice(alloc, boxes) {
        Ok(rows) => join_rows(alloc, dim, rows),
        Err(_) => Err(NoMemory),
    }
}

/// The union of boxes that it may put into another order.
pub(crate) fn join_rows(alloc: Global, dim: usize, rows: Vec<BoxRow>) -> Result<Solid, NoMemory>
    requires low { 0 < dim }
    requires high { dim ≤ 6 }
    requires boxes { All (IsBoxRow dim) rows.items }
    ensures dim { IfOk result (λ s. s.dim ≡ dim) }
    ensures rows { IfOk result (λ s. s.rows ≡ evm dim (union_of dim (map ends_of rows.items))) }
    ensures cells { IfOk result (λ s. cells s.dim s.rows ≡ union_of dim (map ends_of rows.items)) }
    ensures none { length rows.items ≡ 0 → IsOk result }
{
    let all = join_parts(alloc, dim, rows)?;
    Ok(all)
}

/// The union of boxes, cut in space while they are many.
fn join_parts(alloc: Global, dim: usize, rows: Vec<BoxRow>) -> Result<Solid, NoMemory>
    requires low { 0 < dim }
    requires high { dim ≤ 6 }
    requires boxes { All (IsBoxRow dim) rows.items }
    ensures dim { IfOk result (λ s. s.dim ≡ dim) }
    ensures rows { IfOk result (λ s. s.rows ≡ evm dim (union_of dim (map ends_of rows.items))) }
    ensures none { length rows.items ≡ 0 → IsOk result }
{
    if rows.len() <= FEW / dim {
        return join_few(alloc, dim, rows);
    }
    match divide(alloc, dim, rows.as_slice())? {
        None => join_few(alloc, dim, rows),
        Some(Sides { low, high }) => {
            drop(rows);
            let below = join_parts(alloc, dim, low)?;
            let above = join_parts(alloc, dim, high)?;
            let both = xor(alloc, below.rows(), above.rows())?;
            Ok(both)
        }
    }
}

/// The union of boxes, by halves.
pub(crate) fn unite(alloc: Global, dim: usize, boxes: &[BoxRow]) -> Result<Solid, NoMemory>
    requires low { 0 < dim }
    requires high { dim ≤ 6 }
    requires boxes { All (IsBoxRow dim) boxes.now }
    ensures dim { IfOk result (λ s. s.dim ≡ dim) }
    ensures rows { IfOk result (λ s. s.rows ≡ evm dim (union_of dim (map ends_of boxes.now))) }
    ensures none { length boxes.now ≡ 0 → IsOk result }
{
    match boxes {
        [] => Ok(Solid::empty(alloc, dim)),
        [row] => solid_of(alloc, row),
        _ => {
            let (front, back) = boxes.split_at(boxes.len() / 2);
            let left = unite(alloc, dim, front)?;
            let right = unite(alloc, dim, back)?;
            let both = combine(alloc, Op2::Or, left.rows(), right.rows())?;
            Ok(both)
        }
    }
}

/// One box.
pub(crate) fn solid_of(alloc: Global, row: &BoxRow) -> Result<Solid, NoMemory>
    requires low { 0 < row.now.dim }
    requires high { row.now.dim ≤ 6 }
    requires is_box { IsBoxRow row.now.dim row.now }
    ensures dim { IfOk result (λ s. s.dim ≡ row.now.dim) }
    ensures rows { IfOk result
        (λ s. s.rows ≡ evm row.now.dim
        (box_cells row.now.dim (ends_of row.now).lo (ends_of row.now).hi)) }
{
    match Solid::of_box(alloc, &row.lo[..row.dim], &row.hi[..row.dim]) {
        Ok(solid) => Ok(solid),
        Err(BoxError::NoMemory) => Err(NoMemory),
        Err(BoxError::Range) => unreachable!(),
    }
}
