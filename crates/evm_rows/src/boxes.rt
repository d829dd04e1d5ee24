// Boxes as solids.
ghost use Rattle.std.specs.Prelude.{◌≡◌, ◌↔◌, ◌<◌, ◌≤◌, ◌++◌, length, map, false, IfOk, IsErrOf, OnOk};
ghost use Rattle.evm_cells.specs.Vertices.{evm, cells};
ghost use Rattle.evm_cells.specs.Boxes.{is_box, box_cells, corners};
ghost use Rattle.evm_rows.specs.Rows.{flat_of};
ghost use Rattle.evm_rows.specs.declared.boxes.BoxError.{BoxError};
ghost use Rattle.evm_rows.specs.declared.boxes.BoxError.TheVariants.{NoMemory};

use crate::solid::{DIM_MAX, Solid, limit};
use std::alloc::{AllocError, AllocFailed, Global};

/// Why there is no solid of a box.
#[derive(Clone, Copy, Debug, PartialEq, Eq)]
pub enum BoxError {
    /// Some side has no length, or ends past the limits.
    Range,
    /// There was no memory.
    NoMemory,
}

impl From<AllocError> for BoxError {
    ghost from_gives = { λ _ e. e ≡ NoMemory };

    fn from(_e: AllocError) -> BoxError {
        BoxError::NoMemory
    }
}

impl<T: Drop> From<AllocFailed<T>> for BoxError {
    ghost from_gives = { λ _ e. e ≡ NoMemory };

    fn from(_e: AllocFailed<T>) -> BoxError {
        BoxError::NoMemory
    }
}

// Whether each side has a length and ends within the limits.
fn is_box(lo: &[i32], hi: &[i32]) -> bool
    requires same { length hi.now ≡ length lo.now }
    requires low { 0 < length lo.now }
    requires high { length lo.now ≤ 6 }
    ensures { result ≡ is_box (length lo.now) lo.now hi.now }
{
    let limit = limit(lo.len());
    for axis in 0..lo.len() {
        if lo[axis] < -limit || limit < hi[axis] || hi[axis] <= lo[axis] {
            return false;
        }
    }
    true
}

// Appends each corner of the box from `lo` to `hi`, ascending, with the coordinates of `front` before it.
fn append_corners(
    out: &mut Vec<i32>,
    front: &mut Vec<i32>,
    lo: &[i32],
    hi: &[i32],
) -> Result<(), AllocError>
    requires same { length hi.now ≡ length lo.now }
    ensures out { OnOk result
        (out.new.items ≡ out.old.items
        ++ flat_of (map (λ t. front.old.items ++ t) (corners lo.now hi.now))) }
    ensures front { OnOk result (front.new.items ≡ front.old.items) }
{
    let (Some((low, lows)), Some((high, highs))) = (lo.split_first(), hi.split_first()) else {
        out.extend_from_slice(front.as_slice())?;
        return Ok(());
    };
    front.push(*low)?;
    append_corners(out, front, lows, highs)?;
    front.pop();
    front.push(*high)?;
    append_corners(out, front, lows, highs)?;
    front.pop();
    Ok(())
}

impl Solid {
    /// The box of the cells from `lo` up to, but not at, `hi` on each axis. Its extreme vertices are its `2^n` corners.
    ///
    /// Answers `Range` exactly if on some axis `lo` is not below `hi`, or one of the two is past the limit of the
    /// dimension. Takes memory for the corners once.
    pub fn of_box(alloc: Global, lo: &[i32], hi: &[i32]) -> Result<Solid, BoxError>
        requires same { length hi.now ≡ length lo.now }
        requires low { 0 < length lo.now }
        requires high { length lo.now ≤ 6 }
        ensures dim { IfOk result (λ s. s.dim ≡ length lo.now) }
        ensures rows { IfOk result
            (λ s. s.rows ≡ evm (length lo.now) (box_cells (length lo.now) lo.now hi.now)) }
        ensures cells { IfOk result
            (λ s. cells s.dim s.rows ≡ box_cells (length lo.now) lo.now hi.now) }
        ensures range { IsErrOf result BoxError.Range
            ↔ (is_box (length lo.now) lo.now hi.now ≡ false) }
    {
        let dim = lo.len();
        if !is_box(lo, hi) {
            return Err(BoxError::Range);
        }
        let mut flat = Vec::with_capacity(alloc, dim << dim)?;
        let mut front = Vec::with_capacity(alloc, DIM_MAX)?;
        append_corners(&mut flat, &mut front, lo, hi)?;
        Ok(Solid::from_rows(dim, flat))
    }
}
