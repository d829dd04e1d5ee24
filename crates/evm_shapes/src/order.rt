// Rows in any order, put in order.
ghost use Rattle.std.specs.Prelude.{◌≡◌, ◌%◌, ◌<◌, ◌≤◌, ◌++◌, length, drop, IfOk, OnOk};
ghost use Rattle.evm_rows.specs.Rows.{rows_of, flat_of};
ghost use Rattle.evm_rows.specs.Groups.{targets};
ghost use Rattle.evm_cells.specs.Windows.{IsReduced};
ghost use Rattle.evm_shapes.specs.Order.{starts_pair, unpaired, AreLone};

use crate::keys::reduced_by_keys;
use evm_rows::split_row;
use std::alloc::{AllocError, Global};

/// The rows of `flat`, each of `width` numbers, borrowed: a row that equals the last one that is left takes that away, so
/// that few are sorted.
pub(crate) fn lone_rows(
    alloc: Global,
    flat: &[i32],
    width: usize,
) -> Result<Vec<&[i32]>, AllocError>
    requires some { 0 < width }
    requires narrow { width ≤ 6 }
    requires whole { length flat.now % width ≡ 0 }
    ensures { IfOk result (λ v. AreLone width (rows_of flat.now width 0) (targets v.items)) }
{
    let mut rows: Vec<&[i32]> = Vec::with_capacity(alloc, flat.len() / width)?;
    let mut left = flat;
    while left.len() != 0 {
        let (row, rest) = split_row(left, width, 0);
        let count = rows.len();
        if 0 < count && rows[count - 1] == row {
            rows.truncate(count - 1);
        } else {
            rows.push(row)?;
        }
        left = rest;
    }
    Ok(rows)
}

// Whether the row at `i` and the next are equal.
fn is_paired(rows: &[&[i32]], i: usize) -> bool
    requires { i < length rows.now }
    ensures { result ≡ starts_pair (targets (drop i rows.now)) }
{
    i + 1 < rows.len() && rows[i] == rows[i + 1]
}

// Appends the rows without each pair of equal neighbours.
fn append_unpaired(out: &mut Vec<i32>, rows: &[&[i32]]) -> Result<(), AllocError>
    ensures { OnOk result (out.new.items ≡ out.old.items ++ flat_of (unpaired (targets rows.now))) }
{
    let mut i = 0;
    while i < rows.len() {
        if is_paired(rows, i) {
            i += 2;
        } else {
            out.extend_from_slice(rows[i])?;
            i += 1;
        }
    }
    Ok(())
}

// The rows that occur an odd number of times, by references that are sorted.
fn reduced_by_rows(alloc: Global, flat: &[i32], width: usize) -> Result<Vec<i32>, AllocError>
    requires some { 0 < width }
    requires narrow { width ≤ 6 }
    requires whole { length flat.now % width ≡ 0 }
    ensures whole { IfOk result (λ v. length v.items % width ≡ 0) }
    ensures rows { IfOk result
        (λ v. IsReduced width (rows_of flat.now width 0) (rows_of v.items width 0)) }
{
    let mut rows = lone_rows(alloc, flat, width)?;
    rows.sort_unstable();
    let mut out = Vec::with_capacity(alloc, rows.len().saturating_mul(width))?;
    append_unpaired(&mut out, rows.as_slice())?;
    Ok(out)
}

/// The rows of `flat`, each of `width` numbers, that occur an odd number of times, ascending. Takes memory for a key or a reference
/// of 16 bytes a row, and for the answer. The one error is want of memory.
pub fn reduced(alloc: Global, flat: &[i32], width: usize) -> Result<Vec<i32>, AllocError>
    requires some { 0 < width }
    requires narrow { width ≤ 6 }
    requires whole { length flat.now % width ≡ 0 }
    ensures whole { IfOk result (λ v. length v.items % width ≡ 0) }
    ensures rows { IfOk result
        (λ v. IsReduced width (rows_of flat.now width 0) (rows_of v.items width 0)) }
{
    if width <= 4 {
        reduced_by_keys(alloc, flat, width, 0)
    } else {
        reduced_by_rows(alloc, flat, width)
    }
}
