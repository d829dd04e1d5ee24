// The exclusive or of two views, and rows taken off flat numbers.
ghost use Rattle.std.specs.Prelude.{◌≡◌, ℕ, ◌+◌, ◌-◌, ◌%◌, ◌<◌, ◌≤◌, [], ◌∷◌, ◌++◌, length, take, drop, IfOk, OnOk, ℤ, List};
ghost use Rattle.evm_cells.specs.Places.{has};
ghost use Rattle.evm_cells.specs.Booleans.{xor, xor_cells};
ghost use Rattle.evm_cells.specs.Vertices.{cells};
ghost use Rattle.evm_rows.specs.Rows.{rows_of, flat_of, row_cmp, raised, merge_xor, xor_rows};
ghost use Rattle.evm_rows.specs.View.{vertices_of, xor_of};

use crate::solid::{NoMemory, Rows, Solid};
use std::alloc::{AllocError, Global};
use std::cmp::Ordering;

/// The first row of flat numbers without its first `skip` numbers, and the numbers after that row. Rows have `width`
/// numbers. Copies nothing.
#[inline(always)]
#[tactic(auto, using(crate::proofs::RowsLaws::row_laws))]
pub fn split_row(flat: &[i32], width: usize, skip: usize) -> (&[i32], &[i32])
    requires some { 0 < length flat.now }
    requires left { skip < width }
    requires narrow { width ≤ 6 }
    requires whole { length flat.now % width ≡ 0 }
    ensures first { rows_of flat.now width skip ≡ result.0.now ∷ rows_of result.1.now width skip }
    ensures row { result.0.now ≡ drop skip (take width flat.now) }
    ensures rest { result.1.now ≡ drop width flat.now }
    ensures whole { length result.1.now % width ≡ 0 }
    ensures shorter { length result.1.now + width ≡ length flat.now }
    ensures wide { length result.0.now + skip ≡ width }
{
    let (whole_row, rest) = flat.split_at(width);
    let (_, row) = whole_row.split_at(skip);
    (row, rest)
}

/// Appends the rows of flat numbers to `out`: each run of `width` numbers without its first `skip`.
///
/// Where nothing is left out of a row they are copied as one. Takes memory only where `out` has no room left. After want
/// of memory `out` is gone.
pub fn append_rows(
    out: Vec<i32>,
    flat: &[i32],
    width: usize,
    skip: usize,
) -> Result<Vec<i32>, NoMemory>
    requires left { skip < width }
    requires narrow { width ≤ 6 }
    requires whole { length flat.now % width ≡ 0 }
    ensures { IfOk result (λ v. v.items ≡ out.items ++ flat_of (rows_of flat.now width skip)) }
{
    let mut grown = out;
    extend_by_rows(&mut grown, None, flat, width, skip)?;
    Ok(grown)
}

/// The order of two rows of one length. Takes no memory.
#[inline(always)]
pub(crate) fn row_order(x: &[i32], y: &[i32]) -> Ordering
    requires { length x.now ≡ length y.now }
    ensures { result ≡ row_cmp x.now y.now }
{
    for i in 0..x.len() {
        if x[i] != y[i] {
            return x[i].cmp(&y[i]);
        }
    }
    Ordering::Equal
}

/// Appends a row, with the height before it if there is one. Takes memory only where `out` has no room left; the one error
/// is want of memory.
#[inline(always)]
pub(crate) fn extend_by_row(
    out: &mut Vec<i32>,
    height: Option<i32>,
    row: &[i32],
) -> Result<(), AllocError>
    ensures { OnOk result
        (out.new.items ≡ out.old.items ++ flat_of (raised height (row.now ∷ []))) }
{
    if let Some(h) = height {
        out.push(h)?;
    }
    out.extend_from_slice(row)?;
    Ok(())
}

/// Appends each row of flat numbers, with the height before it if there is one: each run of `width` numbers without its
/// first `skip`. Takes memory only where `out` has no room left; the one error is want of memory.
#[inline(always)]
pub(crate) fn extend_by_rows(
    out: &mut Vec<i32>,
    height: Option<i32>,
    flat: &[i32],
    width: usize,
    skip: usize,
) -> Result<(), AllocError>
    requires left { skip < width }
    requires narrow { width ≤ 6 }
    requires whole { length flat.now % width ≡ 0 }
    ensures { OnOk result
        (out.new.items ≡ out.old.items ++ flat_of (raised height (rows_of flat.now width skip))) }
{
    if skip == 0 && height.is_none() {
        out.extend_from_slice(flat)?;
        return Ok(());
    }
    let mut left = flat;
    while left.len() != 0 {
        let (row, rest) = split_row(left, width, skip);
        extend_by_row(out, height, row)?;
        left = rest;
    }
    Ok(())
}

// Appends the rows that just one of two ascending lists has, each with the height before it if there is one, by one merge.
// A row has `dim` numbers behind those that are passed over, `a_skip` in `a` and `b_skip` in `b`.
#[inline(always)]
fn extend_by_merge(
    out: &mut Vec<i32>,
    height: Option<i32>,
    dim: usize,
    a: &[i32],
    a_skip: usize,
    b: &[i32],
    b_skip: usize,
) -> Result<(), AllocError>
    requires some { 0 < dim }
    requires a_narrow { dim + a_skip ≤ 6 }
    requires b_narrow { dim + b_skip ≤ 6 }
    requires a_whole { length a.now % (dim + a_skip) ≡ 0 }
    requires b_whole { length b.now % (dim + b_skip) ≡ 0 }
    ensures { OnOk result
        (out.new.items ≡ out.old.items ++ flat_of (raised height
        (merge_xor (rows_of a.now (dim + a_skip) a_skip) (rows_of b.now (dim + b_skip) b_skip)))) }
{
    let a_width = dim + a_skip;
    let b_width = dim + b_skip;
    let mut left = a;
    let mut right = b;
    while left.len() != 0 && right.len() != 0 {
        let (x, after_x) = split_row(left, a_width, a_skip);
        let (y, after_y) = split_row(right, b_width, b_skip);
        match row_order(x, y) {
            Ordering::Less => {
                extend_by_row(out, height, x)?;
                left = after_x;
            }
            Ordering::Equal => {
                left = after_x;
                right = after_y;
            }
            Ordering::Greater => {
                extend_by_row(out, height, y)?;
                right = after_y;
            }
        }
    }
    extend_by_rows(out, height, left, a_width, a_skip)?;
    extend_by_rows(out, height, right, b_width, b_skip)?;
    Ok(())
}

/// Appends the rows that just one of two ascending lists has, each with the height before it if there is one, by one merge.
/// A row has `dim` numbers behind those that are passed over, `a_skip` in `a` and `b_skip` in `b`.
///
/// It is compiled apart for each `dim` from 1 to 5: there a row is compared and copied with no call. Takes memory only where
/// `out` has no room left. The one error is want of memory.
#[inline(always)]
pub fn extend_by_xor(
    out: &mut Vec<i32>,
    height: Option<i32>,
    dim: usize,
    a: &[i32],
    a_skip: usize,
    b: &[i32],
    b_skip: usize,
) -> Result<(), AllocError>
    requires some { 0 < dim }
    requires a_narrow { dim + a_skip ≤ 6 }
    requires b_narrow { dim + b_skip ≤ 6 }
    requires a_whole { length a.now % (dim + a_skip) ≡ 0 }
    requires b_whole { length b.now % (dim + b_skip) ≡ 0 }
    ensures { OnOk result
        (out.new.items ≡ out.old.items ++ flat_of (raised height
        (merge_xor (rows_of a.now (dim + a_skip) a_skip) (rows_of b.now (dim + b_skip) b_skip)))) }
{
    match dim {
        1 => extend_by_merge(out, height, 1, a, a_skip, b, b_skip),
        2 => extend_by_merge(out, height, 2, a, a_skip, b, b_skip),
        3 => extend_by_merge(out, height, 3, a, a_skip, b, b_skip),
        4 => extend_by_merge(out, height, 4, a, a_skip, b, b_skip),
        5 => extend_by_merge(out, height, 5, a, a_skip, b, b_skip),
        _ => extend_by_merge(out, height, dim, a, a_skip, b, b_skip),
    }
}

/// Appends the rows of the exclusive or of two solids of one dimension to `out`, each with the height before it if there
/// is one. They are those that just one of the two lists has, by one merge.
///
/// Takes memory only where `out` has no room left. After want of memory `out` is gone.
pub fn append_xor(
    out: Vec<i32>,
    height: Option<i32>,
    a: Rows<'_>,
    b: Rows<'_>,
) -> Result<Vec<i32>, NoMemory>
    requires { (vertices_of a).dim ≡ (vertices_of b).dim }
    ensures { IfOk result
        (λ v. v.items ≡ out.items ++ flat_of (raised height (xor_of a.entry b.entry))) }
{
    let dim = a.dim();
    let mut grown = out;
    // The merge is compiled apart for a height and for none, so that no row asks which it is.
    match height {
        None => extend_by_xor(&mut grown, None, dim, a.flat, a.skip, b.flat, b.skip)?,
        Some(h) => extend_by_xor(&mut grown, Some(h), dim, a.flat, a.skip, b.flat, b.skip)?,
    }
    Ok(grown)
}

/// The exclusive or of two solids of one dimension: the cells that just one of them has. Its rows are those that just
/// one of the two lists has, by one merge.
///
/// Takes memory for as many numbers as both have, once.
pub fn xor(alloc: Global, a: Rows<'_>, b: Rows<'_>) -> Result<Solid, NoMemory>
    requires { (vertices_of a).dim ≡ (vertices_of b).dim }
    ensures dim { IfOk result (λ s. s.dim ≡ (vertices_of a.entry).dim) }
    ensures rows { IfOk result
        (λ s. s.rows ≡ xor_rows (vertices_of a.entry).dim (vertices_of a.entry).rows
        (vertices_of b.entry).rows) }
    ensures cells { IfOk result
        (λ s. cells s.dim s.rows
        ≡ xor_cells (vertices_of a.entry).dim
        (cells (vertices_of a.entry).dim (vertices_of a.entry).rows)
        (cells (vertices_of a.entry).dim (vertices_of b.entry).rows)) }
    ensures members { IfOk result
        (λ s. (p : List ℤ)
        → has s.rows p ≡ xor (has (vertices_of a.entry).rows p)
        (has (vertices_of b.entry).rows p)) }
{
    let room = Solid::empty(alloc, a.dim());
    xor_into(room, a, b)
}

/// The exclusive or of two solids of one dimension, as `xor`, in the room of a solid that is done with. What `old` was
/// does not matter.
///
/// Takes memory only where that room is too small. After want of memory `old` is gone.
pub fn xor_into(old: Solid, a: Rows<'_>, b: Rows<'_>) -> Result<Solid, NoMemory>
    requires { (vertices_of a).dim ≡ (vertices_of b).dim }
    ensures dim { IfOk result (λ s. s.dim ≡ (vertices_of a.entry).dim) }
    ensures rows { IfOk result
        (λ s. s.rows ≡ xor_rows (vertices_of a.entry).dim (vertices_of a.entry).rows
        (vertices_of b.entry).rows) }
    ensures cells { IfOk result
        (λ s. cells s.dim s.rows
        ≡ xor_cells (vertices_of a.entry).dim
        (cells (vertices_of a.entry).dim (vertices_of a.entry).rows)
        (cells (vertices_of a.entry).dim (vertices_of b.entry).rows)) }
    ensures members { IfOk result
        (λ s. (p : List ℤ)
        → has s.rows p ≡ xor (has (vertices_of a.entry).rows p)
        (has (vertices_of b.entry).rows p)) }
{
    let mut out = old.into_flat();
    out.clear();
    out.reserve(a.flat.len().saturating_add(b.flat.len()))?;
    let flat = append_xor(out, None, a, b)?;
    Ok(Solid::from_rows(a.dim(), flat))
}

/// A solid that owns a copy of the rows of a view. Takes memory for them once.
pub fn own(alloc: Global, a: Rows<'_>) -> Result<Solid, NoMemory>
    ensures dim { IfOk result (λ s. s.dim ≡ (vertices_of a.entry).dim) }
    ensures rows { IfOk result (λ s. s.rows ≡ (vertices_of a.entry).rows) }
{
    let dim = a.dim();
    let room = Vec::with_capacity(alloc, a.len() * dim)?;
    let flat = append_rows(room, a.flat, a.width, a.skip)?;
    Ok(Solid::from_rows(dim, flat))
}
