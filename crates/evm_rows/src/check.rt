// The test whether flat numbers are the rows of a vertex list.
ghost use Rattle.std.specs.Prelude.{◌≡◌, ℕ, ◌++◌, ◌-◌, ◌%◌, ◌<◌, ◌≤◌, ◌⊎◌, true, length, IfOk, IfErr, IsOk, IsErrOf, MatchBool, MatchOption};
ghost use Rattle.std.specs.List.{list_all};
ghost use Rattle.evm_cells.specs.Places.{before, ascending};
ghost use Rattle.evm_cells.specs.Limits.{is_point};
ghost use Rattle.evm_cells.specs.Vertices.{IsEven, IsVertexList};
ghost use Rattle.evm_rows.specs.Rows.{rows_of, flat_of, merge_xor};
ghost use Rattle.evm_rows.specs.Check.{IsEvenOn, HasOddLine, IsFirstOut, IsFirstFall, IsLeastOdd, IsRefusal};
ghost use Rattle.evm_rows.specs.Groups.{HasOddPlace, IsOddPart, IsPaired};
ghost use Rattle.evm_rows.specs.declared.check.RowError.{RowError};
ghost use Rattle.evm_rows.specs.declared.check.RowError.TheVariants.{NoMemory};

use crate::groups::first_group;
use crate::merge::{extend_by_rows, extend_by_xor, row_order, split_row};
use crate::solid::{Solid, limit};
use std::alloc::{AllocError, AllocFailed, Global};
use std::cmp::Ordering;

/// Why numbers are not the rows of a vertex list.
#[derive(Clone, Copy, Debug, PartialEq, Eq)]
pub enum RowError {
    /// The first row, counted from 0, with a coordinate past the limits.
    Range(usize),
    /// The first row, counted from 0, that is not greater than the row before it.
    Order(usize),
    /// The least axis, counted from 1, with a parallel line that holds an odd number of rows.
    Odd(usize),
    /// There was no memory.
    NoMemory,
}

impl From<AllocError> for RowError {
    ghost from_gives = { λ _ e. e ≡ NoMemory };

    fn from(_e: AllocError) -> RowError {
        RowError::NoMemory
    }
}

impl<T: Drop> From<AllocFailed<T>> for RowError {
    ghost from_gives = { λ _ e. e ≡ NoMemory };

    fn from(_e: AllocFailed<T>) -> RowError {
        RowError::NoMemory
    }
}

// Whether all coordinates are within the limits of the row's dimension.
fn is_within(row: &[i32]) -> bool
    requires low { 0 < length row.now }
    requires high { length row.now ≤ 6 }
    ensures { result ≡ is_point (length row.now) row.now }
{
    let limit = limit(row.len());
    for x in row {
        if *x < -limit || limit < *x {
            return false;
        }
    }
    true
}

// Whether p comes before q, of one length.
#[inline(always)]
fn comes_before(p: &[i32], q: &[i32]) -> bool
    requires { length p.now ≡ length q.now }
    ensures { result ≡ before p.now q.now }
{
    row_order(p, q) == Ordering::Less
}

// The first row with a coordinate past the limits.
fn first_outside(flat: &[i32], width: usize) -> Option<usize>
    requires some { 0 < width }
    requires narrow { width ≤ 6 }
    requires whole { length flat.now % width ≡ 0 }
    ensures { MatchOption result (list_all (is_point width) (rows_of flat.now width 0) ≡ true)
        (IsFirstOut width (rows_of flat.now width 0)) }
{
    let mut later = flat;
    let mut number = 0;
    while later.len() != 0 {
        let (row, rest) = split_row(later, width, 0);
        if !is_within(row) {
            return Some(number);
        }
        later = rest;
        number += 1;
    }
    None
}

// The first row that is not greater than the row before it, of rows without their first `skip` numbers.
fn first_unordered(flat: &[i32], width: usize, skip: usize) -> Option<usize>
    requires left { skip < width }
    requires narrow { width ≤ 6 }
    requires whole { length flat.now % width ≡ 0 }
    ensures { MatchOption result (ascending (rows_of flat.now width skip) ≡ true)
        (IsFirstFall (rows_of flat.now width skip)) }
{
    if flat.len() == 0 {
        return None;
    }
    let (mut last, mut later) = split_row(flat, width, skip);
    let mut number = 1;
    while later.len() != 0 {
        let (row, rest) = split_row(later, width, skip);
        if !comes_before(last, row) {
            return Some(number);
        }
        last = row;
        later = rest;
        number += 1;
    }
    None
}

// The two halves of rows. Of an odd number of rows the second has one more.
fn halves(flat: &[i32], width: usize) -> (&[i32], &[i32])
    requires some { 0 < width }
    requires several { width < length flat.now }
    requires whole { length flat.now % width ≡ 0 }
    ensures both { flat.now ≡ result.0.now ++ result.1.now }
    ensures first_whole { length result.0.now % width ≡ 0 }
    ensures second_whole { length result.1.now % width ≡ 0 }
    ensures first_shorter { length result.0.now < length flat.now }
    ensures second_shorter { length result.1.now < length flat.now }
{
    flat.split_at(flat.len() / width / 2 * width)
}

// The rows without their first `skip` numbers, one after another.
fn rests(alloc: Global, flat: &[i32], width: usize, skip: usize) -> Result<Vec<i32>, AllocError>
    requires left { skip < width }
    requires narrow { width ≤ 6 }
    requires whole { length flat.now % width ≡ 0 }
    ensures { IfOk result (λ v. v.items ≡ flat_of (rows_of flat.now width skip)) }
{
    let mut out = Vec::with_capacity(alloc, flat.len() / width * (width - skip))?;
    extend_by_rows(&mut out, None, flat, width, skip)?;
    Ok(out)
}

// The rows that just one of two ascending lists has, by one merge.
fn merged(alloc: Global, a: &[i32], b: &[i32], width: usize) -> Result<Vec<i32>, AllocError>
    requires some { 0 < width }
    requires narrow { width ≤ 6 }
    requires a_whole { length a.now % width ≡ 0 }
    requires b_whole { length b.now % width ≡ 0 }
    ensures { IfOk result (λ v. v.items
        ≡ flat_of (merge_xor (rows_of a.now width 0) (rows_of b.now width 0))) }
{
    let mut out = Vec::with_capacity(alloc, a.len().saturating_add(b.len()))?;
    extend_by_xor(&mut out, None, width, a, 0, b, 0)?;
    Ok(out)
}

/// The places that occur an odd number of times among the rows of flat numbers without their first `skip` numbers, ascending.
/// Rows have `width` numbers.
///
/// Rows that do not ascend are halved, and the places of the halves merged, where equal ones cancel: rows of a solid mostly do so
/// at once, since one couplet's rows are much like the next one's. Of the rows of a solid up to a height of the first axis,
/// without that coordinate, these places are the vertices of the section above the height. Takes memory for the rows at most
/// twice, which it gives back, beside the answer. The one error is want of memory.
pub fn odd_places(
    alloc: Global,
    flat: &[i32],
    width: usize,
    skip: usize,
) -> Result<Vec<i32>, AllocError>
    requires left { skip < width }
    requires narrow { width ≤ 6 }
    requires whole { length flat.now % width ≡ 0 }
    ensures whole { IfOk result (λ v. length v.items % (width - skip) ≡ 0) }
    ensures odd { IfOk result
        (λ v. IsOddPart (rows_of flat.now width skip) (rows_of v.items (width - skip) 0)) }
{
    let Some(_) = first_unordered(flat, width, skip) else {
        return rests(alloc, flat, width, skip);
    };
    let (first, second) = halves(flat, width);
    let a = odd_places(alloc, first, width, skip)?;
    let b = odd_places(alloc, second, width, skip)?;
    merged(alloc, a.as_slice(), b.as_slice(), width - skip)
}

// Whether some place occurs an odd number of times among the rows without their first `skip` numbers. Where nothing is
// left of them, their number tells.
fn has_odd_place(alloc: Global, flat: &[i32], width: usize, skip: usize) -> Result<bool, AllocError>
    requires some { 0 < width }
    requires left { skip ≤ width }
    requires narrow { width ≤ 6 }
    requires whole { length flat.now % width ≡ 0 }
    ensures { IfOk result
        (λ b. MatchBool b (HasOddPlace (rows_of flat.now width skip))
        (IsPaired (rows_of flat.now width skip))) }
{
    if skip == width {
        return Ok(flat.len() / width % 2 == 1);
    }
    let odd = odd_places(alloc, flat, width, skip)?;
    Ok(0 < odd.len())
}

// Whether some line parallel to the axis after the first `front` ones holds an odd number of rows.
fn has_odd_line(alloc: Global, flat: &[i32], width: usize, front: usize) -> Result<bool, AllocError>
    requires axis { front < width }
    requires narrow { width ≤ 6 }
    requires whole { length flat.now % width ≡ 0 }
    requires ascends { ascending (rows_of flat.now width 0) ≡ true }
    ensures { IfOk result
        (λ b. MatchBool b (HasOddLine front (rows_of flat.now width 0))
        (IsEvenOn front (rows_of flat.now width 0))) }
{
    let mut rest = flat;
    while rest.len() != 0 {
        let (group, later) = first_group(rest, width, 0, front);
        if has_odd_place(alloc, group, width, front + 1)? {
            return Ok(true);
        }
        rest = later;
    }
    Ok(false)
}

// The least axis, counted from 1, with a parallel line that holds an odd number of rows.
fn least_odd_axis(alloc: Global, flat: &[i32], width: usize) -> Result<Option<usize>, AllocError>
    requires some { 0 < width }
    requires narrow { width ≤ 6 }
    requires whole { length flat.now % width ≡ 0 }
    requires ascends { ascending (rows_of flat.now width 0) ≡ true }
    ensures { IfOk result
        (λ o. MatchOption o (IsEven width (rows_of flat.now width 0))
        (IsLeastOdd width (rows_of flat.now width 0))) }
{
    for front in 0..width {
        if has_odd_line(alloc, flat, width, front)? {
            return Ok(Some(front + 1));
        }
    }
    Ok(None)
}

impl Solid {
    /// The solid with these rows: `flat` holds row after row, each of `dim` coordinates.
    ///
    /// Answers the first refusal: `Range(row)` for the first row with a coordinate past the limits of the dimension, else
    /// `Order(row)` for the first row that is not greater than the row before it, else `Odd(axis)` for the least axis
    /// with a parallel line that holds an odd number of rows. Rows are counted from 0, axes from 1. For `Range` and
    /// `Order` it takes no memory. The test of lines merges on each axis but the last the rows of each group that
    /// shares the coordinates before, without their coordinate on that axis, so that equal ones cancel: `O(n k log k)`
    /// steps for k rows, and at most `8 (n - 1)` bytes a row beside the rows, which it gives back.
    pub fn check(alloc: Global, dim: usize, flat: Vec<i32>) -> Result<Solid, RowError>
        requires low { 0 < dim }
        requires high { dim ≤ 6 }
        requires whole { length flat.items % dim ≡ 0 }
        ensures ok { IfOk result (λ s. s ≡ record { dim = dim; rows = rows_of flat.items dim 0 }) }
        ensures vertices { IfOk result (λ s. IsVertexList s.dim s.rows) }
        ensures err { IfErr result
            (λ e. (e ≡ RowError.NoMemory) ⊎ IsRefusal dim (rows_of flat.items dim 0) e) }

        // A want of memory may stand in place of each other answer.
        ensures refused { (e : RowError) → IsRefusal dim (rows_of flat.items dim 0) e
            → IsErrOf result e ⊎ IsErrOf result RowError.NoMemory }
        ensures accepted { IsVertexList dim (rows_of flat.items dim 0)
            → IsOk result ⊎ IsErrOf result RowError.NoMemory }
    {
        if let Some(row) = first_outside(flat.as_slice(), dim) {
            return Err(RowError::Range(row));
        }
        if let Some(row) = first_unordered(flat.as_slice(), dim, 0) {
            return Err(RowError::Order(row));
        }
        if let Some(axis) = least_odd_axis(alloc, flat.as_slice(), dim)? {
            return Err(RowError::Odd(axis));
        }
        Ok(Solid::from_rows(dim, flat))
    }
}
