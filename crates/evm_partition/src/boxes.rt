//! Lists of boxes as flat numbers.
ghost use Rattle.std.specs.Prelude.{◌≡◌, ◌+◌, ◌*◌, ◌<◌, ◌≤◌, ◌++◌, [], ◌∷◌, length, slice_index_or, OnOk};
ghost use Rattle.evm_cells.specs.Boxes.{IsBox};
ghost use Rattle.evm_cells.specs.Unions.{Ends};
ghost use Rattle.evm_partition.specs.BoxLists.{AreBoxes, boxes_of, front_of, numbers_of, prefixed};

use evm_rows::DIM_MAX;
use std::alloc::AllocError;
use std::marker::Model;

/// Boxes of one dimension n, one after another in a flat list: 2 n numbers a box, first its lower corner and then its upper corner,
/// the first axis first. A box has the cells from the one up to, but not at, the other on each axis. Its meaning is the dimension and
/// the boxes.
///
/// The type keeps that the dimension is 1 to 6, and that each box has room on each axis and is within the limits.
#[derive(Drop)]
pub struct Boxes {
    dim: usize,
    flat: Vec<i32>,
}

impl Model for Boxes {
    ghost use Rattle.evm_partition.specs.BoxLists.{AreBoxes, BoxList, boxes_of};

    ghost Value = { BoxList };

    ghost view = { λ b. record { dim = b.dim; boxes = boxes_of b.dim b.flat.items } };

    ghost invariant = { λ b. AreBoxes b.dim b.flat.items };
}

impl Boxes {
    /// The boxes of these numbers: `flat` holds 2 `dim` numbers a box. Takes no memory.
    pub(crate) fn of_flat(dim: usize, flat: Vec<i32>) -> Boxes
        requires { AreBoxes dim flat.items }
        ensures dim { result.dim ≡ dim }
        ensures boxes { result.boxes ≡ boxes_of dim flat.items }
    {
        Boxes { dim, flat }
    }

    /// The dimension, 1 to 6. Takes no memory.
    pub fn dim(&self) -> usize
        ensures { result ≡ self.now.dim }
    {
        self.dim
    }

    /// The number of boxes. Takes no memory.
    pub fn len(&self) -> usize
        ensures { result ≡ length self.now.boxes }
    {
        self.flat.len() / (2 * self.dim)
    }

    /// The two ends of a box, counted from 0: its lower corner and its upper corner, borrowed. Takes no memory.
    pub fn ends(&self, index: usize) -> (&[i32], &[i32])
        requires { index < length self.now.boxes }
        ensures ends { (d : Ends)
            → slice_index_or self.now.boxes index d
            ≡ record { lo = result.0.now; hi = result.1.now } }
        ensures is_box { IsBox self.now.dim result.0.now result.1.now }
        ensures some { 0 < length result.0.now }
    {
        let width = 2 * self.dim;
        let row = &self.flat[index * width..(index + 1) * width];
        row.split_at(self.dim)
    }
}

/// The ends of boxes on the axes before those that are split: on each of the first `depth` axes they go from `lo` to `hi`.
#[derive(Clone, Copy)]
pub(crate) struct Front {
    lo: [i32; DIM_MAX],
    hi: [i32; DIM_MAX],
    depth: usize,
}

impl Front {
    /// The ends before the first axis: none.
    pub(crate) fn start() -> Front
        ensures depth { result.depth ≡ 0 }
        ensures ends { front_of result ≡ record { lo = []; hi = [] } }
    {
        Front {
            lo: [0; DIM_MAX],
            hi: [0; DIM_MAX],
            depth: 0,
        }
    }

    /// The ends with those on the next axis, `low` the lower.
    pub(crate) fn then(self, low: i32, high: i32) -> Front
        requires { self.depth < 6 }
        ensures depth { result.depth ≡ self.depth + 1 }
        ensures lo { (front_of result).lo ≡ (front_of self).lo ++ low ∷ [] }
        ensures hi { (front_of result).hi ≡ (front_of self).hi ++ high ∷ [] }
    {
        let mut next = self;
        next.lo[self.depth] = low;
        next.hi[self.depth] = high;
        next.depth += 1;
        next
    }

    /// Appends the box with these ends: its lower corner, then its upper one. Takes memory only where `out` has no room left.
    pub(crate) fn append_to(&self, out: &mut Vec<i32>) -> Result<(), AllocError>
        requires { self.now.depth ≤ 6 }
        ensures { OnOk result
            (out.new.items ≡ out.old.items ++ numbers_of (front_of self.now ∷ [])) }
    {
        out.extend_from_slice(&self.lo[..self.depth])?;
        out.extend_from_slice(&self.hi[..self.depth])?;
        Ok(())
    }
}
