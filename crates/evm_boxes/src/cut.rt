//! Boxes on the two sides of a plane.

ghost use Rattle.std.specs.Prelude.{◌≡◌, ℕ, ◌<◌, ◌≤◌, [], ◌∷◌, ◌++◌, length, All, IfOk, IfSome, OnOk};
ghost use Rattle.std.specs.Option.{option_to_list};
ghost use Rattle.evm_cells.specs.Windows.{is_under, is_over};
ghost use Rattle.evm_boxes.specs.BoxRows.{IsBoxRow};
ghost use Rattle.evm_boxes.specs.Cuts.{is_on, IsKept, AreSides};

use super::BoxRow;
use super::plane::{Plane, SAMPLE, plane_of};
use evm_rows::NoMemory;
use std::alloc::Global;

/// A side of a plane.
#[derive(Clone, Copy)]
pub(crate) enum Side {
    /// The cells below the plane.
    Low,
    /// The cells above it.
    High,
}

/// What boxes have on each side of a plane, as boxes.
#[derive(Drop)]
pub(crate) struct Sides {
    /// The boxes below the plane.
    pub low: Vec<BoxRow>,
    /// Those above it.
    pub high: Vec<BoxRow>,
}

/// Boxes cut by a plane, if one was found that leaves to each side at most seven of eight boxes. A box that the plane goes
/// through comes to both sides.
pub(crate) fn divide(alloc: Global, dim: usize, rows: &[BoxRow]) -> Result<Option<Sides>, NoMemory>
    requires low { 0 < dim }
    requires high { dim ≤ 6 }
    requires boxes { All (IsBoxRow dim) rows.now }
    ensures { IfOk result (λ found. IfSome found
        (λ sides. AreSides dim rows.now sides.low.items sides.high.items)) }
{
    let sides = divided(alloc, dim, rows, SAMPLE)?;
    if sides.is_some() || rows.len() <= SAMPLE {
        return Ok(sides);
    }
    divided(alloc, dim, rows, rows.len())
}

/// The same, by a plane that is found from about `most` of the boxes.
fn divided(
    alloc: Global,
    dim: usize,
    rows: &[BoxRow],
    most: usize,
) -> Result<Option<Sides>, NoMemory>
    requires low { 0 < dim }
    requires high { dim ≤ 6 }
    requires boxes { All (IsBoxRow dim) rows.now }
    ensures { IfOk result (λ found. IfSome found
        (λ sides. AreSides dim rows.now sides.low.items sides.high.items)) }
{
    match plane_of(alloc, dim, rows, most)? {
        Some(plane) => cut(alloc, dim, plane, rows),
        None => Ok(None),
    }
}

/// Boxes cut by this plane, if it leaves to each side at most seven of eight boxes.
fn cut(alloc: Global, dim: usize, plane: Plane, rows: &[BoxRow]) -> Result<Option<Sides>, NoMemory>
    requires axis { plane.axis < dim }
    requires high { dim ≤ 6 }
    requires boxes { All (IsBoxRow dim) rows.now }
    ensures { IfOk result (λ found. IfSome found
        (λ sides. AreSides dim rows.now sides.low.items sides.high.items)) }
{
    let low = side_of(alloc, dim, plane, Side::Low, rows)?;
    let high = side_of(alloc, dim, plane, Side::High, rows)?;
    let most = rows.len() - rows.len() / 8;
    if low.len() < most && high.len() < most {
        Ok(Some(Sides { low, high }))
    } else {
        Ok(None)
    }
}

/// What boxes have on a side of a plane. The list begins with room for five of eight boxes, and grows by doubling.
fn side_of(
    alloc: Global,
    dim: usize,
    plane: Plane,
    side: Side,
    rows: &[BoxRow],
) -> Result<Vec<BoxRow>, NoMemory>
    requires axis { plane.axis < dim }
    requires high { dim ≤ 6 }
    requires boxes { All (IsBoxRow dim) rows.now }
    ensures { IfOk result
        (λ kept. IsKept dim (is_on side plane.axis plane.at) rows.now kept.items) }
{
    let mut kept = Vec::with_capacity(alloc, rows.len() / 8 * 5)?;
    for row in rows {
        keep(part_of(dim, row, plane, side), &mut kept)?;
    }
    Ok(kept)
}

/// Adds a box, if there is one.
pub(crate) fn keep(part: Option<BoxRow>, kept: &mut Vec<BoxRow>) -> Result<(), NoMemory>
    ensures { OnOk result (kept.new.items ≡ kept.old.items ++ option_to_list part) }
{
    match part {
        None => Ok(()),
        Some(row) => match kept.push(row) {
            Ok(()) => Ok(()),
            Err(_) => Err(NoMemory),
        },
    }
}

/// What a box has on a side of a plane.
fn part_of(dim: usize, row: &BoxRow, plane: Plane, side: Side) -> Option<BoxRow>
    requires axis { plane.axis < dim }
    requires high { dim ≤ 6 }
    requires is_box { IsBoxRow dim row.now }
    ensures { IsKept dim (is_on side plane.axis plane.at) (row.now ∷ []) (option_to_list result) }
{
    match side {
        Side::Low => below(row, plane),
        Side::High => above(row, plane),
    }
}

/// What a box has below a plane.
fn below(row: &BoxRow, plane: Plane) -> Option<BoxRow>
    requires axis { plane.axis < 6 }
    ensures { (n : ℕ) → plane.axis < n → IsBoxRow n row.now
        → IsKept n (is_under plane.axis plane.at) (row.now ∷ []) (option_to_list result) }
{
    let end = row.hi[plane.axis].min(plane.at);
    if row.lo[plane.axis] < end {
        let mut part = *row;
        part.hi[plane.axis] = end;
        Some(part)
    } else {
        None
    }
}

/// What a box has above a plane.
fn above(row: &BoxRow, plane: Plane) -> Option<BoxRow>
    requires axis { plane.axis < 6 }
    ensures { (n : ℕ) → plane.axis < n → IsBoxRow n row.now
        → IsKept n (is_over plane.axis plane.at) (row.now ∷ []) (option_to_list result) }
{
    let start = row.lo[plane.axis].max(plane.at);
    if start < row.hi[plane.axis] {
        let mut part = *row;
        part.lo[plane.axis] = start;
        Some(part)
    } else {
        None
    }
}
