// What is inside a box, by rows that are moved into it.
ghost use Rattle.std.specs.Prelude.{◌≡◌, ◌<◌, [], ◌++◌, ◌%◌, length, map, get_or, pos, true, IfOk, OnOk};
ghost use Rattle.std.specs.List.{list_all};
ghost use Rattle.evm_cells.specs.Boxes.{is_box};
ghost use Rattle.evm_cells.specs.Vertices.{evm};
ghost use Rattle.evm_cells.specs.Windows.{between, clamped};
ghost use Rattle.evm_rows.specs.Groups.{targets};
ghost use Rattle.evm_rows.specs.Rows.{rows_of, flat_of, cells_of};
ghost use Rattle.evm_rows.specs.View.{vertices_of};
ghost use Rattle.evm_shapes.specs.Shapes.{clipped_cells};
ghost use Rattle.evm_shapes.specs.Moves.{closed, low_rows, raised, stays_in};
ghost use Rattle.evm_shapes.specs.Order.{AreMoved};

use crate::inside::rows_inside_by_keys;
use crate::order::{lone_rows, reduced};
use evm_rows::{NoMemory, Rows, Solid, own, split_row};
use std::alloc::{AllocError, Global};

/// The number, moved between the two: the nearer of them where it is not between. Takes no memory.
#[inline(always)]
#[tactic(auto, unfolding(evm_cells::specs::Windows::between))]
fn between(x: i32, lo: i32, hi: i32) -> i32
    ensures { result ≡ between lo hi x }
{
    if x < lo {
        lo
    } else if hi < x {
        hi
    } else {
        x
    }
}

// A number of a row, moved into the box.
#[inline(always)]
pub(crate) fn moved_at(row: &[i32], lo: &[i32], hi: &[i32], k: usize) -> i32
    requires row { k < length row.now }
    requires low { k < length lo.now }
    requires high { k < length hi.now }
    ensures { result ≡ between (get_or lo.now k (pos 0)) (get_or hi.now k (pos 0))
        (get_or row.now k (pos 0)) }
{
    between(row[k], lo[k], hi[k])
}

// Appends the row, moved into the box.
fn append_clamped(out: &mut Vec<i32>, row: &[i32], lo: &[i32], hi: &[i32]) -> Result<(), AllocError>
    requires low { length lo.now ≡ length row.now }
    requires high { length hi.now ≡ length row.now }
    ensures { OnOk result (out.new.items ≡ out.old.items ++ clamped lo.now hi.now row.now) }
{
    for k in 0..row.len() {
        out.push(moved_at(row, lo, hi, k))?;
    }
    Ok(())
}

// Appends each row, moved into the box.
fn append_all_clamped(
    out: &mut Vec<i32>,
    a: Rows<'_>,
    lo: &[i32],
    hi: &[i32],
) -> Result<(), AllocError>
    requires low { length lo.now ≡ (vertices_of a).dim }
    requires high { length hi.now ≡ (vertices_of a).dim }
    ensures { OnOk result
        (out.new.items ≡ out.old.items
        ++ flat_of (map (clamped lo.now hi.now) (vertices_of a.entry).rows)) }
{
    let mut left = a.flat;
    while left.len() != 0 {
        let (row, rest) = split_row(left, a.width, a.skip);
        append_clamped(out, row, lo, hi)?;
        left = rest;
    }
    Ok(())
}

// Appends each row below the upper end on the first axis, moved into the box.
fn append_low_clamped(
    out: &mut Vec<i32>,
    a: Rows<'_>,
    lo: &[i32],
    hi: &[i32],
) -> Result<(), AllocError>
    requires low { length lo.now ≡ (vertices_of a).dim }
    requires high { length hi.now ≡ (vertices_of a).dim }
    ensures { OnOk result
        (out.new.items ≡ out.old.items
        ++ flat_of (map (clamped lo.now hi.now)
        (low_rows (get_or hi.now 0 (pos 0)) (vertices_of a.entry).rows))) }
{
    let mut left = a.flat;
    while left.len() != 0 {
        let (row, rest) = split_row(left, a.width, a.skip);
        if hi[0] <= row[0] {
            return Ok(());
        }
        append_clamped(out, row, lo, hi)?;
        left = rest;
    }
    Ok(())
}

// Appends the row, put at a height on the first axis.
fn append_raised(out: &mut Vec<i32>, row: &[i32], at: i32) -> Result<(), AllocError>
    ensures { OnOk result (out.new.items ≡ out.old.items ++ raised at row.now) }
{
    out.push(at)?;
    if row.len() != 0 {
        out.extend_from_slice(&row[1..])?;
    }
    Ok(())
}

// Appends each row, and after it the row that is put at a height.
fn append_closed(out: &mut Vec<i32>, rows: &[&[i32]], at: i32) -> Result<(), AllocError>
    ensures { OnOk result
        (out.new.items ≡ out.old.items ++ flat_of (closed at (targets rows.now))) }
{
    for i in 0..rows.len() {
        out.extend_from_slice(rows[i])?;
        append_raised(out, rows[i], at)?;
    }
    Ok(())
}

// Whether the box, with its upper ends, has the point, so that it is moved nowhere.
fn stays(row: &[i32], lo: &[i32], hi: &[i32]) -> bool
    requires low { length lo.now ≡ length row.now }
    requires high { length hi.now ≡ length row.now }
    ensures { result ≡ stays_in lo.now hi.now row.now }
{
    for k in 0..row.len() {
        if moved_at(row, lo, hi, k) != row[k] {
            return false;
        }
    }
    true
}

// Whether the box, with its upper ends, has all rows.
fn all_stay(a: Rows<'_>, lo: &[i32], hi: &[i32]) -> bool
    requires low { length lo.now ≡ (vertices_of a).dim }
    requires high { length hi.now ≡ (vertices_of a).dim }
    ensures { result ≡ list_all (stays_in lo.now hi.now) (vertices_of a.entry).rows }
{
    let mut left = a.flat;
    while left.len() != 0 {
        let (row, rest) = split_row(left, a.width, a.skip);
        if !stays(row, lo, hi) {
            return false;
        }
        left = rest;
    }
    true
}

// Whether the box is seen to miss the solid: all rows are on one side of it on the first axis, as the first row or the
// last shows.
fn misses(a: Rows<'_>, lo: &[i32], hi: &[i32]) -> bool
    requires { is_box (vertices_of a).dim lo.now hi.now ≡ true }
    ensures { result ≡ true → clipped_cells lo.now hi.now (vertices_of a.entry) ≡ [] }
{
    let count = a.len();
    if count == 0 {
        return false;
    }
    if a.coord(count - 1, 1) <= lo[0] {
        return true;
    }
    hi[0] <= a.coord(0, 1)
}

// The rows, moved into the box, that then stand an odd number of times.
fn moved_rows(alloc: Global, a: Rows<'_>, lo: &[i32], hi: &[i32]) -> Result<Vec<i32>, AllocError>
    requires { is_box (vertices_of a).dim lo.now hi.now ≡ true }
    ensures whole { IfOk result (λ v. length v.items % (vertices_of a.entry).dim ≡ 0) }
    ensures rows { IfOk result
        (λ v. AreMoved lo.now hi.now (vertices_of a.entry)
        (rows_of v.items (vertices_of a.entry).dim 0)) }
{
    let dim = a.dim();
    let mut moved = Vec::with_capacity(alloc, a.flat.len())?;
    append_all_clamped(&mut moved, a, lo, hi)?;
    let flat = reduced(alloc, moved.as_slice(), dim)?;
    Ok(flat)
}

// The same rows. Those at or above the upper end on the first axis are not read: each line along that axis has an even
// number of rows, so they come to as many there as those below it do.
fn closed_rows(alloc: Global, a: Rows<'_>, lo: &[i32], hi: &[i32]) -> Result<Vec<i32>, AllocError>
    requires { is_box (vertices_of a).dim lo.now hi.now ≡ true }
    ensures whole { IfOk result (λ v. length v.items % (vertices_of a.entry).dim ≡ 0) }
    ensures rows { IfOk result
        (λ v. AreMoved lo.now hi.now (vertices_of a.entry)
        (rows_of v.items (vertices_of a.entry).dim 0)) }
{
    let dim = a.dim();
    let mut low = Vec::with_capacity(alloc, a.flat.len())?;
    append_low_clamped(&mut low, a, lo, hi)?;
    let few = lone_rows(alloc, low.as_slice(), dim)?;
    let mut all = Vec::with_capacity(alloc, few.len().saturating_mul(dim))?;
    append_closed(&mut all, few.as_slice(), hi[0])?;
    let flat = reduced(alloc, all.as_slice(), dim)?;
    Ok(flat)
}

// Whether the last row is below a height on the first axis: a choice of speed alone.
fn ends_below(a: Rows<'_>, at: i32) -> bool {
    let count = a.len();
    count == 0 || a.coord(count - 1, 1) < at
}

// The same rows: by keys where they are that narrow, else the shorter way.
fn rows_inside(alloc: Global, a: Rows<'_>, lo: &[i32], hi: &[i32]) -> Result<Vec<i32>, AllocError>
    requires { is_box (vertices_of a).dim lo.now hi.now ≡ true }
    ensures whole { IfOk result (λ v. length v.items % (vertices_of a.entry).dim ≡ 0) }
    ensures rows { IfOk result
        (λ v. AreMoved lo.now hi.now (vertices_of a.entry)
        (rows_of v.items (vertices_of a.entry).dim 0)) }
{
    if a.dim() <= 4 {
        rows_inside_by_keys(alloc, a, lo, hi)
    } else if ends_below(a, hi[0]) {
        moved_rows(alloc, a, lo, hi)
    } else {
        closed_rows(alloc, a, lo, hi)
    }
}

/// The cells in the box from `lo` up to, but not at, `hi` on each axis, which has a length on each axis and ends within the
/// limits. Its rows are the rows of the solid, each coordinate moved into the box, that then stand an odd number of times.
/// Takes memory for the answer, and for three keys of 16 bytes a row at most; where rows have more than four numbers, for the rows
/// three times at most and for references to them. The one error is want of memory.
pub fn clip(alloc: Global, a: Rows<'_>, lo: &[i32], hi: &[i32]) -> Result<Solid, NoMemory>
    requires { is_box (vertices_of a).dim lo.now hi.now ≡ true }
    ensures dim { IfOk result (λ s. s.dim ≡ (vertices_of a.entry).dim) }
    ensures rows { IfOk result
        (λ s. s.rows ≡ evm (vertices_of a.entry).dim
        (clipped_cells lo.now hi.now (vertices_of a.entry))) }
    ensures cells { IfOk result
        (λ s. cells_of s ≡ clipped_cells lo.now hi.now (vertices_of a.entry)) }
{
    if misses(a, lo, hi) {
        return Ok(Solid::empty(alloc, a.dim()));
    }
    if all_stay(a, lo, hi) {
        let solid = own(alloc, a)?;
        return Ok(solid);
    }
    let dim = a.dim();
    let flat = rows_inside(alloc, a, lo, hi)?;
    Ok(Solid::from_rows(dim, flat))
}
