//! The two sides of a plane, by the order in which rows stand: only places that close a side are sorted.

ghost use Rattle.std.specs.Prelude.{◌≡◌, ◌-◌, ◌%◌, ◌<◌, ◌<ℤ◌, ◌≤◌, ◌++◌, length, map, neg_ℤ, pos, IfOk, OnOk};
ghost use Rattle.evm_cells.specs.Limits.{limit};
ghost use Rattle.evm_cells.specs.Vertices.{IsVertexList};
ghost use Rattle.evm_cells.specs.Windows.{IsReduced};
ghost use Rattle.evm_rows.specs.Groups.{IsOddPart};
ghost use Rattle.evm_rows.specs.Rows.{rows_of, flat_of, cells_of, merge_xor};
ghost use Rattle.evm_rows.specs.View.{vertices_of};
ghost use Rattle.evm_cutting.specs.Cuts.{cells_under, IsBetween};
ghost use Rattle.evm_cutting.specs.Levels.{lowered, put, IsParted, IsClosed, IsCut, IsCutInTwo};
ghost use Rattle.evm_cutting.specs.Splits.{IsSplitAt};

use crate::halves::Split;
use evm_rows::{NoMemory, Rows, Solid, extend_by_xor, first_group, odd_places, split_row};
use evm_shapes::reduced_by_keys;
use std::alloc::{AllocError, Global};

// The first rows, whose numbers at `axis` are below `at`, and the rows after them, of which the first has no such number. Rows have
// `width` numbers.
fn low_rows(flat: &[i32], width: usize, axis: usize, at: i32) -> (&[i32], &[i32])
    requires axis { axis < width }
    requires narrow { width ≤ 6 }
    requires whole { length flat.now % width ≡ 0 }
    ensures parts { IsParted axis at (rows_of flat.now width 0)
        (rows_of result.0.now width 0) (rows_of result.1.now width 0) }
    ensures low_whole { length result.0.now % width ≡ 0 }
    ensures high_whole { length result.1.now % width ≡ 0 }
{
    let mut later = flat;
    let mut taken = 0;
    while later.len() != 0 {
        let (row, rest) = split_row(later, width, 0);
        if at <= row[axis] {
            break;
        }
        later = rest;
        taken += width;
    }
    let (low, _) = flat.split_at(taken);
    (low, later)
}

// Appends each row of `places`, of `width` numbers, with the numbers of `head` and `at` before it.
fn append_put(
    out: &mut Vec<i32>,
    head: &[i32],
    at: i32,
    places: &[i32],
    width: usize,
) -> Result<(), AllocError>
    requires some { 0 < width }
    requires narrow { width ≤ 6 }
    requires whole { length places.now % width ≡ 0 }
    ensures { OnOk result
        (out.new.items ≡ out.old.items ++ flat_of (map (put head.now at) (rows_of places.now width 0))) }
{
    let mut left = places;
    while left.len() != 0 {
        let (row, rest) = split_row(left, width, 0);
        out.extend_from_slice(head)?;
        out.push(at)?;
        out.extend_from_slice(row)?;
        left = rest;
    }
    Ok(())
}

// The places of rows without their first `skip` numbers that occur there an odd number of times, ascending. Where few numbers are left
// of a row they are sorted as keys: in a small solid that takes less time than a list for each half of the rows.
fn closing_places(
    alloc: Global,
    rows: &[i32],
    width: usize,
    skip: usize,
) -> Result<Vec<i32>, AllocError>
    requires left { skip < width }
    requires narrow { width ≤ 6 }
    requires whole { length rows.now % width ≡ 0 }
    ensures whole { IfOk result (λ v. length v.items % (width - skip) ≡ 0) }
    ensures odd { IfOk result
        (λ v. IsOddPart (rows_of rows.now width skip) (rows_of v.items (width - skip) 0)) }
{
    if width - skip <= 4 {
        reduced_by_keys(alloc, rows, width, skip)
    } else {
        odd_places(alloc, rows, width, skip)
    }
}

// Appends the rows that close rows which share the numbers before `axis`: those numbers and `at`, before each place that occurs an
// odd number of times behind `axis`. Where nothing is behind it, the number of rows tells.
fn append_closing(
    alloc: Global,
    out: &mut Vec<i32>,
    rows: &[i32],
    width: usize,
    axis: usize,
    at: i32,
) -> Result<(), AllocError>
    requires axis { axis < width }
    requires narrow { width ≤ 6 }
    requires whole { length rows.now % width ≡ 0 }
    ensures { OnOk result
        (IsClosed width axis at (rows_of rows.now width 0) out.old.items out.new.items) }
{
    if rows.len() == 0 {
        return Ok(());
    }
    let (head, _) = rows.split_at(axis);
    if axis + 1 == width {
        if rows.len() / width % 2 == 1 {
            out.extend_from_slice(head)?;
            out.push(at)?;
        }
        return Ok(());
    }
    let places = closing_places(alloc, rows, width, axis + 1)?;
    append_put(out, head, at, places.as_slice(), width - axis - 1)
}

// Appends what a group of rows, which share the numbers before `axis`, has below a height: its rows `low` below it, and the rows that
// close these. The others, `high`, have the same closing rows, since lines along the axis have an even number of rows, so the fewer of
// the two are asked.
fn append_low(
    alloc: Global,
    out: &mut Vec<i32>,
    low: &[i32],
    high: &[i32],
    width: usize,
    axis: usize,
    at: i32,
) -> Result<(), AllocError>
    requires axis { axis < width }
    requires narrow { width ≤ 6 }
    requires low_whole { length low.now % width ≡ 0 }
    requires high_whole { length high.now % width ≡ 0 }
    ensures { OnOk result
        (IsCut width axis at (rows_of low.now width 0) (rows_of high.now width 0)
        out.old.items out.new.items) }
{
    out.extend_from_slice(low)?;
    if low.len() <= high.len() {
        append_closing(alloc, out, low, width, axis, at)
    } else {
        append_closing(alloc, out, high, width, axis, at)
    }
}

// Appends to `below` what a group of rows has below a height, as `append_low`, and to `above` what it has above: the closing rows and
// the others of the group, of which those at the height that are in both cancel. All of these are at the height or above, so one merge
// puts them in order.
fn append_both(
    alloc: Global,
    below: &mut Vec<i32>,
    above: &mut Vec<i32>,
    low: &[i32],
    high: &[i32],
    width: usize,
    axis: usize,
    at: i32,
) -> Result<(), AllocError>
    requires axis { axis < width }
    requires narrow { width ≤ 6 }
    requires low_whole { length low.now % width ≡ 0 }
    requires high_whole { length high.now % width ≡ 0 }
    ensures { OnOk result
        (IsCutInTwo width axis at (rows_of low.now width 0) (rows_of high.now width 0)
        below.old.items below.new.items above.old.items above.new.items) }
{
    let kept = below.len() + low.len();
    append_low(alloc, below, low, high, width, axis, at)?;
    let (_, closing) = below.as_slice().split_at(kept);
    extend_by_xor(above, None, width, closing, 0, high, 0)
}

// The rows, each number at `axis` moved down to `at` where it is above, that then stand an odd number of times.
fn rows_below(
    alloc: Global,
    flat: &[i32],
    width: usize,
    axis: usize,
    at: i32,
) -> Result<Vec<i32>, AllocError>
    requires axis { axis < width }
    requires narrow { width ≤ 6 }
    requires whole { length flat.now % width ≡ 0 }
    requires vertices { IsVertexList width (rows_of flat.now width 0) }
    ensures whole { IfOk result (λ v. length v.items % width ≡ 0) }
    ensures rows { IfOk result
        (λ v. IsReduced width (map (lowered axis at) (rows_of flat.now width 0))
        (rows_of v.items width 0)) }
{
    let mut out = Vec::with_capacity(alloc, flat.len())?;
    let mut rest = flat;
    while rest.len() != 0 {
        let (group, later) = first_group(rest, width, 0, axis);
        let (low, high) = low_rows(group, width, axis, at);
        append_low(alloc, &mut out, low, high, width, axis, at)?;
        rest = later;
    }
    Ok(out)
}

// The rows of both sides of a plane.
#[derive(Drop)]
struct Sides {
    // Those of what is below it.
    below: Vec<i32>,
    // Those of what is above it.
    above: Vec<i32>,
}

// The rows below as `rows_below`, and above them those that just one of these and the rows has.
fn rows_of_both(
    alloc: Global,
    flat: &[i32],
    width: usize,
    axis: usize,
    at: i32,
) -> Result<Sides, AllocError>
    requires axis { axis < width }
    requires narrow { width ≤ 6 }
    requires whole { length flat.now % width ≡ 0 }
    requires vertices { IsVertexList width (rows_of flat.now width 0) }
    ensures low_whole { IfOk result (λ s. length s.below.items % width ≡ 0) }
    ensures low { IfOk result
        (λ s. IsReduced width (map (lowered axis at) (rows_of flat.now width 0))
        (rows_of s.below.items width 0)) }
    ensures high_whole { IfOk result (λ s. length s.above.items % width ≡ 0) }
    ensures high { IfOk result
        (λ s. rows_of s.above.items width 0
        ≡ merge_xor (rows_of flat.now width 0) (rows_of s.below.items width 0)) }
{
    let mut below = Vec::with_capacity(alloc, flat.len())?;
    let mut above = Vec::with_capacity(alloc, flat.len())?;
    let mut rest = flat;
    while rest.len() != 0 {
        let (group, later) = first_group(rest, width, 0, axis);
        let (low, high) = low_rows(group, width, axis, at);
        append_both(alloc, &mut below, &mut above, low, high, width, axis, at)?;
        rest = later;
    }
    Ok(Sides { below, above })
}

/// What a solid has below the plane at `at` across an axis, counted from 0. The plane lies strictly within the limits of the
/// dimension.
///
/// The rows that share the numbers before the axis stand together. Of these, the rows below the plane stay as they are, and the
/// places that occur an odd number of times behind the axis, put at the plane, come after them: so all rows come out in order, and
/// they are not sorted. The places are sorted as keys where they have at most four numbers, else come by merges of halves in which
/// equal ones cancel, of the fewer rows of the two sides. Makes nothing of what is above. Takes memory for as many numbers as the solid
/// has, once, and what `reduced_by_keys` or `odd_places` takes for the rows that share numbers.
pub(crate) fn below(alloc: Global, a: Rows<'_>, axis: usize, at: i32) -> Result<Solid, NoMemory>
    requires skip { a.skip ≡ 0 }
    requires axis { axis < (vertices_of a).dim }
    requires low { neg_ℤ (pos (limit (vertices_of a).dim)) <ℤ at }
    requires high { at <ℤ pos (limit (vertices_of a).dim) }
    ensures dim { IfOk result (λ s. s.dim ≡ (vertices_of a.entry).dim) }
    ensures cells { IfOk result (λ s. cells_of s ≡ cells_under axis at (vertices_of a.entry)) }
{
    let flat = rows_below(alloc, a.flat, a.width, axis, at)?;
    Ok(Solid::from_rows(a.width, flat))
}

/// The two sides of a plane, in one pass, in which only the places that close a side are sorted.
///
/// Of the rows that share the numbers before the axis, those of what is below are as in `below`. What is above has the rows that close
/// them, merged with the group's rows at the plane or above it, where equal ones cancel: so both sides come out in order. Takes memory
/// for two times as many numbers as the solid has, once, and what closing takes in `below`.
pub(crate) fn both_sides(
    alloc: Global,
    a: Rows<'_>,
    axis: usize,
    at: i32,
) -> Result<Split, NoMemory>
    requires skip { a.skip ≡ 0 }
    requires between { IsBetween (vertices_of a).dim axis at }
    ensures { IfOk result (IsSplitAt (vertices_of a.entry) axis at) }
{
    let rows = rows_of_both(alloc, a.flat, a.width, axis, at)?;
    Ok(Split {
        axis,
        at,
        low: Solid::from_rows(a.width, rows.below),
        high: Solid::from_rows(a.width, rows.above),
    })
}
