//! Unions of boxes by what comes and goes, height by height.

ghost use Rattle.std.specs.Prelude.{◌≡◌, ◌-◌, ◌<◌, ◌≤◌, List, [], ◌∷◌, ◌++◌, map, length, All, Some, IfOk, IsOk};
ghost use Rattle.std.specs.Bool.{OnTrue};
ghost use Rattle.std.specs.Option.{option_to_list};
ghost use Rattle.evm_cells.specs.Vertices.{evm};
ghost use Rattle.evm_cells.specs.Unions.{union_of};
ghost use Rattle.evm_boxes.specs.BoxRows.{ends_of, IsBoxRow};
ghost use Rattle.evm_boxes.specs.declared.BoxRow.{BoxRow};
ghost use Rattle.evm_boxes.specs.Fills.{spans, level_of, is_event, IsBase, IsFound, IsWindow, IsSection, IsMeet, IsAll, IsInside, IsHeld, IsUnheld};

use super::BoxRow;
use super::cut::{Side, keep};
use super::heights::heights_of;
use super::sweep::join_plane;
use super::union::unite;
use evm_rows::{NoMemory, Solid, append_xor, limit};
use std::alloc::Global;

/// The union of few boxes, by the heights at which boxes come or go on the first axis.
///
/// At each height the couplet is the exclusive or of the sections below and above it, and it lies within the bases of the
/// boxes that come or go there. So the two sections are looked at inside a window alone, the base of the box that comes or
/// goes; each is a union of boxes one dimension lower, which is answered likewise. No section is kept. A base that another
/// holds is left out, since it adds nothing to the section, so that each recursion has fewer boxes.
///
/// It takes memory for two numbers a box, for the bases in a window twice at each dimension, and for the answer. The one
/// error is want of memory.
pub(crate) fn join_few(alloc: Global, dim: usize, rows: Vec<BoxRow>) -> Result<Solid, NoMemory>
    requires low { 0 < dim }
    requires high { dim ≤ 6 }
    requires boxes { All (IsBoxRow dim) rows.items }
    ensures none { length rows.items ≡ 0 → IsOk result }
    ensures rows { IfOk result (λ s. s.rows ≡ evm dim (union_of dim (map ends_of rows.items))) }
    ensures dim { IfOk result (λ s. s.dim ≡ dim) }
{
    if rows.len() < 2 || dim == 1 {
        return unite(alloc, dim, rows.as_slice());
    }
    if dim == 2 {
        return join_plane(alloc, rows);
    }
    let view = rows.as_slice();
    let heights = heights_of(alloc, view)?;
    let mut out = Vec::new(alloc);
    for height in heights.as_slice() {
        let window = window_at(dim, view, *height);
        let below = bases_in(alloc, dim, view, *height, Side::Low, &window)?;
        let above = bases_in(alloc, dim, view, *height, Side::High, &window)?;
        let low = join_few(alloc, dim - 1, below)?;
        let high = join_few(alloc, dim - 1, above)?;
        out = append_xor(out, Some(*height), low.rows(), high.rows())?;
    }
    Ok(Solid::from_rows(dim, out))
}

/// A box that holds the base of each box that begins or ends at a height: that base, where it is one box, else all.
fn window_at(dim: usize, rows: &[BoxRow], height: i32) -> BoxRow
    requires low { 1 < dim }
    requires high { dim ≤ 6 }
    requires boxes { All (IsBoxRow dim) rows.now }
    ensures { IsWindow (dim - 1) height rows.now result }
{
    let mut found = None;
    for row in rows {
        found = with_event(dim, row, height, found);
    }
    match found {
        Some(window) => window,
        None => everything(dim - 1),
    }
}

/// The window that was found, if it was, and what a box asks for.
fn with_event(dim: usize, row: &BoxRow, height: i32, found: Option<BoxRow>) -> Option<BoxRow>
    requires low { 1 < dim }
    requires high { dim ≤ 6 }
    requires is_box { IsBoxRow dim row.now }
    ensures { (rows : List BoxRow) → IsFound (dim - 1) height rows found
        → IsFound (dim - 1) height (rows ++ row.now ∷ []) result }
{
    if !is_event(row, height) {
        return found;
    }
    match found {
        None => Some(base_of(dim, row)),
        Some(_) => Some(everything(dim - 1)),
    }
}

/// Whether a box begins or ends at a height.
fn is_event(row: &BoxRow, height: i32) -> bool
    ensures { result ≡ is_event height row.now }
{
    row.lo[0] == height || row.hi[0] == height
}

/// The box of all cells of a dimension.
fn everything(dim: usize) -> BoxRow
    requires low { 0 < dim }
    requires high { dim ≤ 6 }
    ensures { IsAll dim result }
{
    let limit = limit(dim);
    BoxRow {
        dim,
        lo: [-limit; 6],
        hi: [limit; 6],
    }
}

/// A box without its first axis.
fn base_of(dim: usize, row: &BoxRow) -> BoxRow
    requires low { 1 < dim }
    requires high { dim ≤ 6 }
    requires is_box { IsBoxRow dim row.now }
    ensures { IsBase dim row.now result }
{
    let (lo, hi) = (&row.lo, &row.hi);
    BoxRow {
        dim: dim - 1,
        lo: [lo[1], lo[2], lo[3], lo[4], lo[5], 0],
        hi: [hi[1], hi[2], hi[3], hi[4], hi[5], 0],
    }
}

/// The bases, inside a window, of the boxes that are just below or just above a height; the window alone, where one of
/// them fills it. A base that lies in one kept before is left out, so that the recursion has fewer boxes.
fn bases_in(
    alloc: Global,
    dim: usize,
    rows: &[BoxRow],
    height: i32,
    side: Side,
    window: &BoxRow,
) -> Result<Vec<BoxRow>, NoMemory>
    requires low { 1 < dim }
    requires high { dim ≤ 6 }
    requires boxes { All (IsBoxRow dim) rows.now }
    requires window { IsBoxRow (dim - 1) window.now }
    ensures { IfOk result
        (λ kept. IsSection (dim - 1) (level_of side height) window.now rows.now kept.items) }
{
    let mut kept = Vec::new(alloc);
    for row in rows {
        let part = base_in(dim, row, height, side, window);
        if is_just(part, window) {
            kept.clear();
            keep(part, &mut kept)?;
            return Ok(kept);
        }
        let left = unheld(dim - 1, part, kept.as_slice());
        keep(left, &mut kept)?;
    }
    Ok(kept)
}

/// A box, unless one of those kept holds it.
fn unheld(dim: usize, part: Option<BoxRow>, kept: &[BoxRow]) -> Option<BoxRow>
    requires high { dim ≤ 6 }
    requires part { All (IsBoxRow dim) (option_to_list part) }
    requires kept { All (IsBoxRow dim) kept.now }
    ensures { IsUnheld kept.now part result }
{
    match part {
        Some(row) if is_held(dim, &row, kept) => None,
        _ => part,
    }
}

/// Whether one of the boxes kept holds a box.
fn is_held(dim: usize, row: &BoxRow, kept: &[BoxRow]) -> bool
    requires high { dim ≤ 6 }
    requires is_box { IsBoxRow dim row.now }
    requires kept { All (IsBoxRow dim) kept.now }
    ensures { OnTrue result (IsHeld row.now kept.now) }
{
    for other in kept {
        if is_inside(dim, row, other) {
            return true;
        }
    }
    false
}

/// Whether a box lies in another.
fn is_inside(dim: usize, row: &BoxRow, other: &BoxRow) -> bool
    requires high { dim ≤ 6 }
    requires row { IsBoxRow dim row.now }
    requires other { IsBoxRow dim other.now }
    ensures { OnTrue result (IsInside row.now other.now) }
{
    for axis in 0..dim {
        if row.lo[axis] < other.lo[axis] || other.hi[axis] < row.hi[axis] {
            return false;
        }
    }
    true
}

/// Whether there is a box, and it is just the window.
fn is_just(part: Option<BoxRow>, window: &BoxRow) -> bool
    ensures { OnTrue result (part ≡ Some window.now) }
{
    match part {
        None => false,
        Some(row) => is_same(&row, window),
    }
}

/// Whether two boxes are the same.
fn is_same(row: &BoxRow, other: &BoxRow) -> bool
    ensures { OnTrue result (row.now ≡ other.now) }
{
    row.dim == other.dim && row.lo == other.lo && row.hi == other.hi
}

/// What the base of a box has inside a window, where the box is just below or just above a height.
fn base_in(dim: usize, row: &BoxRow, height: i32, side: Side, window: &BoxRow) -> Option<BoxRow>
    requires low { 1 < dim }
    requires high { dim ≤ 6 }
    requires is_box { IsBoxRow dim row.now }
    requires window { IsBoxRow (dim - 1) window.now }
    ensures { IsSection (dim - 1) (level_of side height) window.now (row.now ∷ [])
        (option_to_list result) }
{
    if !is_there(row, height, side) {
        return None;
    }
    meet(dim - 1, window, &base_of(dim, row))
}

/// Whether a box is just below or just above a height of the first axis.
fn is_there(row: &BoxRow, height: i32, side: Side) -> bool
    ensures { result ≡ spans (level_of side height) row.now }
{
    match side {
        Side::Low => row.lo[0] < height && height <= row.hi[0],
        Side::High => row.lo[0] <= height && height < row.hi[0],
    }
}

/// What two boxes share, if anything.
fn meet(dim: usize, left: &BoxRow, right: &BoxRow) -> Option<BoxRow>
    requires high { dim ≤ 6 }
    requires left { IsBoxRow dim left.now }
    requires right { IsBoxRow dim right.now }
    ensures { IsMeet dim left.now right.now (option_to_list result) }
{
    let mut part = *left;
    for axis in 0..dim {
        let low = part.lo[axis].max(right.lo[axis]);
        let high = part.hi[axis].min(right.hi[axis]);
        if high <= low {
            return None;
        }
        part.lo[axis] = low;
        part.hi[axis] = high;
    }
    Some(part)
}
