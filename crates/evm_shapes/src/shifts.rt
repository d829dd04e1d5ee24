// Shifts.
ghost use Rattle.std.specs.Prelude.{◌≡◌, ◌↔◌, ◌++◌, ◌<◌, ◌≤◌, ◌+ℤ◌, true, false, length, map, get_or, pos, IfOk, OnOk, IsErrOf};
ghost use Rattle.std.specs.List.{list_all};
ghost use Rattle.evm_cells.specs.Limits.{limit, is_point, is_point_coord};
ghost use Rattle.evm_cells.specs.Shapes.{added, is_shift};
ghost use Rattle.evm_cells.specs.Vertices.{evm};
ghost use Rattle.evm_rows.specs.Rows.{flat_of, cells_of};
ghost use Rattle.evm_rows.specs.View.{vertices_of};
ghost use Rattle.evm_shapes.specs.Shapes.{shifted_cells, is_shift_in_range};
ghost use Rattle.evm_shapes.specs.declared.shifts.ShapeError.{ShapeError};
ghost use Rattle.evm_shapes.specs.declared.shifts.ShapeError.TheVariants.{NoMemory};

use evm_rows::{Rows, Solid, limit, split_row};
use std::alloc::{AllocError, AllocFailed, Global};

/// Why there is no shifted solid.
#[derive(Clone, Copy, Debug, PartialEq, Eq)]
pub enum ShapeError {
    /// Some cell would leave the limits.
    Range,
    /// There was no memory.
    NoMemory,
}

impl From<AllocError> for ShapeError {
    ghost from_gives = { λ _ e. e ≡ NoMemory };

    fn from(_e: AllocError) -> ShapeError {
        ShapeError::NoMemory
    }
}

impl<T: Drop> From<AllocFailed<T>> for ShapeError {
    ghost from_gives = { λ _ e. e ≡ NoMemory };

    fn from(_e: AllocFailed<T>) -> ShapeError {
        ShapeError::NoMemory
    }
}

// The limit of coordinates.
fn limit_of(dim: usize) -> i64
    requires low { 0 < dim }
    requires high { dim ≤ 6 }
    ensures { result ≡ pos (limit dim) }
{
    i64::from(limit(dim))
}

/// Whether the number is a vertex coordinate of dimension `dim`.
pub(crate) fn is_within(x: i64, dim: usize) -> bool
    requires low { 0 < dim }
    requires high { dim ≤ 6 }
    ensures { result ≡ is_point_coord dim x }
{
    let limit = limit_of(dim);
    -limit <= x && x <= limit
}

// The moved coordinate on an axis, which may be past the limits.
fn sum(row: &[i32], by: &[i64], axis: usize) -> i64
    requires shift { is_shift (length row.now) by.now ≡ true }
    requires within { axis < length row.now }
    ensures { result ≡ get_or row.now axis (pos 0) +ℤ get_or by.now axis (pos 0) }
{
    i64::from(row[axis]) + by[axis]
}

// Whether the moved row is a point.
fn row_fits(row: &[i32], by: &[i64]) -> bool
    requires few { length row.now ≤ 6 }
    requires shift { is_shift (length row.now) by.now ≡ true }
    ensures { result ≡ is_point (length row.now) (added by.now row.now) }
{
    for k in 0..row.len() {
        if !is_within(sum(row, by, k), row.len()) {
            return false;
        }
    }
    true
}

// Whether each moved row is a point.
fn all_fit(a: Rows<'_>, by: &[i64]) -> bool
    requires shift { is_shift (vertices_of a).dim by.now ≡ true }
    ensures { result ≡ list_all (is_point (vertices_of a.entry).dim)
        (map (added by.now) (vertices_of a.entry).rows) }
{
    let mut left = a.flat;
    while left.len() != 0 {
        let (row, rest) = split_row(left, a.width, a.skip);
        if !row_fits(row, by) {
            return false;
        }
        left = rest;
    }
    true
}

// Appends the moved row.
fn append_added(out: &mut Vec<i32>, row: &[i32], by: &[i64]) -> Result<(), AllocError>
    requires shift { is_shift (length row.now) by.now ≡ true }
    requires fits { is_point (length row.now) (added by.now row.now) ≡ true }
    ensures { OnOk result (out.new.items ≡ out.old.items ++ added by.now row.now) }
{
    for k in 0..row.len() {
        out.push(sum(row, by, k) as i32)?;
    }
    Ok(())
}

// Appends each row, moved.
fn append_all_added(out: &mut Vec<i32>, a: Rows<'_>, by: &[i64]) -> Result<(), AllocError>
    requires shift { is_shift (vertices_of a).dim by.now ≡ true }
    requires fits { list_all (is_point (vertices_of a).dim)
        (map (added by.now) (vertices_of a).rows) ≡ true }
    ensures { OnOk result
        (out.new.items ≡ out.old.items ++ flat_of (map (added by.now) (vertices_of a.entry).rows)) }
{
    let mut left = a.flat;
    while left.len() != 0 {
        let (row, rest) = split_row(left, a.width, a.skip);
        append_added(out, row, by)?;
        left = rest;
    }
    Ok(())
}

/// The solid moved by `by`, one number an axis, each at most twice the limit in size. Answers `Range` exactly where some
/// moved cell is no cell, which is where some moved vertex is past the limit; this is found out first, and takes no
/// memory. The moved rows are in order, so they are not sorted. Takes memory for the rows once.
pub fn shift(alloc: Global, a: Rows<'_>, by: &[i64]) -> Result<Solid, ShapeError>
    requires { is_shift (vertices_of a).dim by.now ≡ true }
    ensures dim { IfOk result (λ s. s.dim ≡ (vertices_of a.entry).dim) }
    ensures rows { IfOk result
        (λ s. s.rows ≡ evm (vertices_of a.entry).dim (shifted_cells by.now (vertices_of a.entry))) }
    ensures cells { IfOk result (λ s. cells_of s ≡ shifted_cells by.now (vertices_of a.entry)) }
    ensures range { IsErrOf result ShapeError.Range
        ↔ (is_shift_in_range by.now (vertices_of a.entry) ≡ false) }
{
    if !all_fit(a, by) {
        return Err(ShapeError::Range);
    }
    let dim = a.dim();
    let mut out = Vec::with_capacity(alloc, a.flat.len())?;
    append_all_added(&mut out, a, by)?;
    Ok(Solid::from_rows(dim, out))
}
