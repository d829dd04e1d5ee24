// Rows that are moved one by one.
ghost use Rattle.std.specs.Prelude.{◌≡◌, ◌<◌, ◌≤◌, ◌++◌, length, map, swap, true, OnOk};
ghost use Rattle.evm_cells.specs.Places.{with_at};
ghost use Rattle.evm_cells.specs.Limits.{is_point};
ghost use Rattle.evm_cells.specs.Shapes.{negated, fronted};
ghost use Rattle.evm_rows.specs.Rows.{flat_of};
ghost use Rattle.evm_rows.specs.View.{vertices_of};
ghost use Rattle.evm_shapes.specs.Moves.{moved, IsMoveOf};

use evm_rows::{Rows, split_row};
use std::alloc::AllocError;

/// A move of a row. Axes are counted from 0.
#[derive(Clone, Copy)]
pub enum Move {
    /// The coordinate on an axis becomes its negative.
    Mirror(usize),
    /// Two coordinates are exchanged.
    Swap(usize, usize),
    /// The coordinate on an axis is put first.
    Front(usize),
    /// A coordinate is put in at an axis.
    Raise(usize, i32),
}

// Appends the row with the negative of the number at `axis`.
fn append_negated(out: &mut Vec<i32>, row: &[i32], axis: usize) -> Result<(), AllocError>
    requires axis { axis < length row.now }
    requires point { is_point (length row.now) row.now ≡ true }
    ensures { OnOk result (out.new.items ≡ out.old.items ++ negated axis row.now) }
{
    out.extend_from_slice(&row[..axis])?;
    out.push(-row[axis])?;
    out.extend_from_slice(&row[axis + 1..])?;
    Ok(())
}

// Appends the row with the numbers at `i` and `j` exchanged.
fn append_swapped(out: &mut Vec<i32>, row: &[i32], i: usize, j: usize) -> Result<(), AllocError>
    requires first { i < length row.now }
    requires second { j < length row.now }
    ensures { OnOk result (out.new.items ≡ out.old.items ++ swap row.now i j) }
{
    let start = out.len();
    out.extend_from_slice(row)?;
    out.swap(start + i, start + j);
    Ok(())
}

// Appends the row with the number at `axis` put first.
fn append_fronted(out: &mut Vec<i32>, row: &[i32], axis: usize) -> Result<(), AllocError>
    requires { axis < length row.now }
    ensures { OnOk result (out.new.items ≡ out.old.items ++ fronted axis row.now) }
{
    out.push(row[axis])?;
    out.extend_from_slice(&row[..axis])?;
    out.extend_from_slice(&row[axis + 1..])?;
    Ok(())
}

// Appends the row with `height` put in at `axis`.
fn append_raised(
    out: &mut Vec<i32>,
    row: &[i32],
    axis: usize,
    height: i32,
) -> Result<(), AllocError>
    requires { axis ≤ length row.now }
    ensures { OnOk result (out.new.items ≡ out.old.items ++ with_at axis height row.now) }
{
    out.extend_from_slice(&row[..axis])?;
    out.push(height)?;
    out.extend_from_slice(&row[axis..])?;
    Ok(())
}

// Appends the moved row.
fn append_moved(out: &mut Vec<i32>, row: &[i32], step: Move) -> Result<(), AllocError>
    requires axes { IsMoveOf (length row.now) step }
    requires point { is_point (length row.now) row.now ≡ true }
    ensures { OnOk result (out.new.items ≡ out.old.items ++ moved step row.now) }
{
    match step {
        Move::Mirror(axis) => append_negated(out, row, axis),
        Move::Swap(i, j) => append_swapped(out, row, i, j),
        Move::Front(axis) => append_fronted(out, row, axis),
        Move::Raise(axis, height) => append_raised(out, row, axis, height),
    }
}

/// Appends each row of a view, moved.
pub(crate) fn append_all_moved(
    out: &mut Vec<i32>,
    a: Rows<'_>,
    step: Move,
) -> Result<(), AllocError>
    requires axes { IsMoveOf (vertices_of a).dim step }
    ensures { OnOk result
        (out.new.items ≡ out.old.items ++ flat_of (map (moved step) (vertices_of a.entry).rows)) }
{
    let mut left = a.flat;
    while left.len() != 0 {
        let (row, rest) = split_row(left, a.width, a.skip);
        append_moved(out, row, step)?;
        left = rest;
    }
    Ok(())
}
