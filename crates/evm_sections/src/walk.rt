//! The walk over the couplets of a view.
ghost use Rattle.std.specs.Prelude.{◌≡◌, ◌↔◌, ◌+◌, ◌-◌, ◌%◌, ◌<◌, ◌≤◌, IsTrue, [], ◌∷◌, length, IfSome, IfNone, IsNone, drop};
ghost use Rattle.evm_cells.specs.Vertices.{cells};
ghost use Rattle.evm_rows.specs.Rows.{rows_of, ascends};
ghost use Rattle.evm_rows.specs.View.{vertices_of};
ghost use Rattle.evm_sections.specs.Couplets.{couplets_of, couplets_in, first_height};

use evm_rows::{Rows, first_group, split_row};
use std::marker::Model;

/// A walk over the couplets of a view, from the lowest cut of the first axis up. Its meaning is the dimension of the
/// couplets, and those that are left, each as its height and its extreme vertices. It borrows the numbers of the view,
/// and holds no memory of its own.
#[derive(Drop)]
pub struct Walk<'a> {
    flat: &'a [i32],
    width: usize,
    skip: usize,
}

impl<'a> Model for Walk<'a> {
    ghost use Rattle.std.specs.Prelude.{◌+◌, ◌-◌};
    ghost use Rattle.evm_rows.specs.Rows.{rows_of};
    ghost use Rattle.evm_sections.specs.Couplets.{Course, IsWalk, couplets_of};

    ghost Value = { Course };

    ghost view = { λ w. record { dim = w.width - (w.skip + 1); left = couplets_of (rows_of w.flat.now w.width w.skip) } };

    ghost invariant = { λ w. IsWalk w.flat.now w.width w.skip };
}

impl<'a> Walk<'a> {
    /// A walk over all couplets of a view of dimension 2 or more: one for each cut, ascending. Takes no memory.
    pub fn of(a: Rows<'a>) -> Walk<'a>
        requires { 1 < (vertices_of a).dim }
        ensures dim { result.dim + 1 ≡ (vertices_of a.entry).dim }
        ensures couplets { result.left
            ≡ couplets_in result.dim (cells (vertices_of a.entry).dim (vertices_of a.entry).rows) }
        ensures left { result.left ≡ couplets_of (vertices_of a.entry).rows }
    {
        Walk {
            flat: a.flat,
            width: a.width,
            skip: a.skip,
        }
    }

    /// A second walk over the couplets that are left. Takes no memory.
    pub fn again(&self) -> Walk<'a>
        ensures { result ≡ self.now }
    {
        Walk {
            flat: self.flat,
            width: self.width,
            skip: self.skip,
        }
    }

    /// The height of the next couplet, or `None` where all were given. Takes no memory.
    pub fn height(&self) -> Option<i32>
        ensures { result ≡ first_height self.now.left }
    {
        height_of(self.flat, self.width, self.skip)
    }

    /// The next couplet with its height, or `None` exactly where all were given. The couplet is a stretch of the rows of
    /// the view, read from the second axis on: nothing is copied, and no memory is taken.
    pub fn next_couplet(&mut self) -> Option<(i32, Rows<'a>)>
        ensures dim { self.new.dim ≡ self.old.dim }
        ensures some { IfSome result
            (λ p. self.old.left ≡ (p.0, (vertices_of p.1).rows) ∷ self.new.left) }
        ensures same { IfSome result (λ p. (vertices_of p.1).dim ≡ self.old.dim) }
        ensures none { IfNone result (self.old.left ≡ []) }
        ensures ends { IsNone result ↔ (self.old.left ≡ []) }
        ensures stays { IfNone result (self.new ≡ self.old) }
    {
        if self.flat.len() == 0 {
            return None;
        }
        let (height, stretch, later) = first_stretch(self.flat, self.width, self.skip);
        let couplet = Rows {
            flat: stretch,
            width: self.width,
            skip: self.skip + 1,
        };
        self.flat = later;
        Some((height, couplet))
    }
}

// The first height, the numbers of its rows, and the numbers after them.
fn first_stretch(flat: &[i32], width: usize, skip: usize) -> (i32, &[i32], &[i32])
    requires some { 0 < length flat.now }
    requires deep { skip + 1 < width }
    requires narrow { width ≤ 6 }
    requires whole { length flat.now % width ≡ 0 }
    requires ascending { IsTrue (ascends (rows_of flat.now width skip)) }
    ensures couplets { couplets_of (rows_of flat.now width skip)
        ≡ (result.0, rows_of result.1.now width (skip + 1)) ∷ couplets_of
        (rows_of result.2.now width skip) }
    ensures stretch_whole { length result.1.now % width ≡ 0 }
    ensures whole { length result.2.now % width ≡ 0 }
    ensures ascending { IsTrue (ascends (rows_of result.2.now width skip)) }
{
    let (first, _) = split_row(flat, width, skip);
    let (stretch, later) = first_group(flat, width, skip, 1);
    (first_of(first), stretch, later)
}

/// The first coordinate of the first row, or `None` where there are no rows. Takes no memory.
#[inline(always)]
pub(crate) fn height_of(flat: &[i32], width: usize, skip: usize) -> Option<i32>
    requires left { skip < width }
    requires narrow { width ≤ 6 }
    requires whole { length flat.now % width ≡ 0 }
    ensures { result ≡ first_height (couplets_of (rows_of flat.now width skip)) }
{
    if flat.len() == 0 {
        return None;
    }
    let (row, _) = split_row(flat, width, skip);
    Some(first_of(row))
}

/// The first coordinate of a row, which has one. Takes no memory.
#[inline(always)]
pub fn first_of(row: &[i32]) -> i32
    requires { 0 < length row.now }
    ensures { row.now ≡ result ∷ drop 1 row.now }
{
    row[0]
}
