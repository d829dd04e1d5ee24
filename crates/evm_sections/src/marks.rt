//! The walk over the rows of a view of dimension 1.
ghost use Rattle.std.specs.Prelude.{◌≡◌};
ghost use Rattle.evm_cells.specs.Vertices.{cells};
ghost use Rattle.evm_rows.specs.View.{vertices_of};
ghost use Rattle.evm_sections.specs.Couplets.{couplets_of, couplets_in, first_height, AreSingle, rest_of};

use crate::walk::height_of;
use evm_rows::{Rows, split_row};
use std::marker::Model;

/// A walk over the rows of a view of dimension 1, from the lowest up. Each row is a cut, and its couplet of dimension 0
/// the one row without numbers; the meaning of the walk is the couplets that are left. It borrows the numbers of the
/// view, and holds no memory of its own.
#[derive(Drop)]
pub struct Marks<'a> {
    flat: &'a [i32],
    width: usize,
    skip: usize,
}

impl<'a> Model for Marks<'a> {
    ghost use Rattle.std.specs.Prelude.{ℤ, List};
    ghost use Rattle.evm_rows.specs.Rows.{rows_of};
    ghost use Rattle.evm_sections.specs.Couplets.{IsMarks, couplets_of};

    ghost Value = { List (ℤ × List (List ℤ)) };

    ghost view = { λ w. couplets_of (rows_of w.flat.now w.width w.skip) };

    ghost invariant = { λ w. IsMarks w.flat.now w.width w.skip };
}

impl<'a> Marks<'a> {
    /// A walk over all rows of a view of dimension 1: one for each cut, ascending. Takes no memory.
    pub fn of(a: Rows<'a>) -> Marks<'a>
        requires { (vertices_of a).dim ≡ 1 }
        ensures left { result ≡ couplets_of (vertices_of a.entry).rows }
        ensures couplets { result ≡ couplets_in 0 (cells 1 (vertices_of a.entry).rows) }
        ensures single { AreSingle result }
    {
        Marks {
            flat: a.flat,
            width: a.width,
            skip: a.skip,
        }
    }

    /// The coordinate of the next row, or `None` where all were passed. Takes no memory.
    pub fn height(&self) -> Option<i32>
        ensures { result ≡ first_height self.now }
    {
        height_of(self.flat, self.width, self.skip)
    }

    /// Goes past the next row, if there is one. Takes no memory.
    pub fn step(&mut self)
        ensures { self.new ≡ rest_of self.old }
    {
        if self.flat.len() != 0 {
            let (_, later) = split_row(self.flat, self.width, self.skip);
            self.flat = later;
        }
    }
}
