// Rows that share their first numbers.
ghost use Rattle.std.specs.Prelude.{◌≡◌, ◌+◌, ◌%◌, ◌<◌, ◌≤◌, true, length};
ghost use Rattle.evm_cells.specs.Places.{same, ascending};
ghost use Rattle.evm_rows.specs.Rows.{rows_of};
ghost use Rattle.evm_rows.specs.Groups.{IsFrontGroup};

use crate::merge::{row_order, split_row};
use std::cmp::Ordering;

// Whether p and q, of one length, are the same place.
#[inline(always)]
fn are_same(p: &[i32], q: &[i32]) -> bool
    requires { length p.now ≡ length q.now }
    ensures { result ≡ same p.now q.now }
{
    row_order(p, q) == Ordering::Equal
}

/// The first rows that share their first `front` numbers, and the rows after them. Rows have `width` numbers, of which the
/// first `skip` are passed over. Copies nothing.
#[inline(always)]
pub fn first_group(flat: &[i32], width: usize, skip: usize, front: usize) -> (&[i32], &[i32])
    requires some { 0 < length flat.now }
    requires axis { skip + front < width }
    requires narrow { width ≤ 6 }
    requires whole { length flat.now % width ≡ 0 }
    requires ascends { ascending (rows_of flat.now width skip) ≡ true }
    ensures group { IsFrontGroup front (rows_of flat.now width skip)
        (rows_of result.0.now width skip) (rows_of result.1.now width skip) }
    ensures group_whole { length result.0.now % width ≡ 0 }
    ensures whole { length result.1.now % width ≡ 0 }
    ensures shorter { length result.1.now < length flat.now }
{
    let (first, mut later) = split_row(flat, width, skip);
    let (head, _) = first.split_at(front);
    let mut taken = width;
    while later.len() != 0 {
        let (row, rest) = split_row(later, width, skip);
        let (start, _) = row.split_at(front);
        if !are_same(start, head) {
            break;
        }
        later = rest;
        taken += width;
    }
    let (group, _) = flat.split_at(taken);
    (group, later)
}
