// The types: a list of rows that owns its numbers, and a view of rows that borrows them.
ghost use Rattle.std.specs.Prelude.{◌≡◌, ℕ, ◌-◌, ◌%◌, ◌<◌, ◌≤◌, length, pos};
ghost use Rattle.evm_cells.specs.Limits.{limit};
ghost use Rattle.evm_cells.specs.Vertices.{IsVertexList};
ghost use Rattle.evm_rows.specs.Rows.{rows_of};

use std::alloc::{AllocError, AllocFailed, Global};
use std::marker::Model;

/// The largest dimension of a solid.
pub const DIM_MAX: usize = 6;

/// The limit of coordinates in dimension `dim`: those of vertices go from minus the limit up to the limit, those of
/// cells up to one less.
///
/// | dimension | limit |
/// |---|---|
/// | 1 to 3 | 1073741824 |
/// | 4 | 268435456 |
/// | 5 | 4194304 |
/// | 6 | 524288 |
///
/// It never grows with the dimension, and leaves content and boundary content in 128 bits. Takes no memory.
#[tactic(auto, unfolding(evm_cells::specs::Limits::limit))]
pub fn limit(dim: usize) -> i32
    requires low { 0 < dim }
    requires high { dim ≤ 6 }
    ensures { result ≡ pos (limit dim) }
{
    if dim <= 3 {
        1_073_741_824
    } else if dim == 4 {
        268_435_456
    } else if dim == 5 {
        4_194_304
    } else {
        524_288
    }
}

/// There was no memory.
#[derive(Clone, Copy, Debug, PartialEq, Eq)]
pub struct NoMemory;

impl From<AllocError> for NoMemory {
    fn from(_e: AllocError) -> NoMemory {
        NoMemory
    }
}

impl<T: Drop> From<AllocFailed<T>> for NoMemory {
    fn from(_e: AllocFailed<T>) -> NoMemory {
        NoMemory
    }
}

/// A view of rows in a borrowed slice: each run of `width` numbers without its first `skip`. So a couplet is a stretch of
/// its parent's slice, read one coordinate further in.
///
/// The type keeps that at least one coordinate is left, that a row has at most 6 numbers, that the slice holds whole
/// rows, and that what is left of them is a vertex list: strictly ascending, in the limits, and even on every line
/// parallel to an axis (the extreme vertices of Aguilera and Ayala, 1997).
#[derive(Clone, Copy)]
pub struct Rows<'a> {
    /// The numbers, row after row.
    pub flat: &'a [i32],
    /// How many numbers a row has in the slice.
    pub width: usize,
    /// How many leading numbers of each row are passed over.
    pub skip: usize,
    pub ghost narrow: { width ≤ 6 },
    pub ghost left: { skip < width },
    pub ghost whole: { length flat.now % width ≡ 0 },
    pub ghost vertices: { IsVertexList (width - skip) (rows_of flat.now width skip) },
}

impl<'a> Rows<'a> {
    ghost use Rattle.std.specs.Prelude.{◌≡◌, ◌*◌, ◌<◌, length};
    ghost use Rattle.evm_rows.specs.View.{vertices_of};

    /// The dimension: how many coordinates of each row are left.
    pub fn dim(&self) -> usize
        ensures { result ≡ (vertices_of self.now).dim }
    {
        self.width - self.skip
    }

    /// The same view, of rows that are `width` wide. Where the compiler knows `width`, it knows from here on where a row
    /// stands. Takes no memory.
    #[inline(always)]
    pub fn of_width(self, width: usize) -> Rows<'a>
        requires width { self.width ≡ width }
        requires skip { self.skip ≡ 0 }
        ensures { vertices_of result ≡ vertices_of self.entry }
    {
        Rows {
            flat: self.flat,
            width,
            skip: 0,
        }
    }
}

impl Rows<'_> {
    ghost use Rattle.std.specs.Prelude.{◌≡◌, ◌-◌, ◌<◌, ◌≤◌, ℤ, [], length, slice_index_or};
    ghost use Rattle.evm_rows.specs.View.{vertices_of};

    /// The number of rows.
    pub fn len(&self) -> usize
        ensures { result ≡ length (vertices_of self.now).rows }
    {
        self.flat.len() / self.width
    }

    /// The coordinate of a row, counted from 0, on an axis, counted from 1.
    pub fn coord(&self, row: usize, axis: usize) -> i32
        requires row { row < length (vertices_of self.now).rows }
        requires low { 0 < axis }
        requires high { axis ≤ (vertices_of self.now).dim }
        ensures { (d : ℤ) → slice_index_or (slice_index_or (vertices_of self.now).rows row [])
            (axis - 1) d ≡ result }
    {
        self.flat[row * self.width + self.skip + (axis - 1)]
    }
}

/// A solid of dimension 1 to 6, as the ascending list of its extreme vertices. It owns their coordinates, one row after
/// another, and nothing else.
///
/// The type keeps that the rows are a vertex list, so that they are the extreme vertices of just one set of cells.
#[derive(Drop)]
pub struct Solid {
    dim: usize,
    flat: Vec<i32>,
}

impl Model for Solid {
    ghost use Rattle.evm_rows.specs.Rows.{Vertices, AreRows, rows_of};

    ghost Value = { Vertices };

    ghost view = { λ s. record { dim = s.dim; rows = rows_of s.flat.items s.dim 0 } };

    ghost invariant = { λ s. AreRows s.flat.items s.dim 0 };
}

impl Solid {
    ghost use Rattle.std.specs.Prelude.{◌≡◌, ◌≤◌, ◌<◌, ◌-◌, ◌↔◌, ℤ, [], length, slice_index_or, IfOk, IsTrue};
    ghost use Rattle.evm_cells.specs.Vertices.{evm, cells};
    ghost use Rattle.evm_rows.specs.View.{vertices_of};
    ghost use Rattle.evm_rows.specs.Rows.{AreRows, IsSolid, flat_of, rows_of};

    /// The solid of dimension `dim` without cells. Takes no memory.
    pub fn empty(alloc: Global, dim: usize) -> Solid
        requires low { 0 < dim }
        requires high { dim ≤ 6 }
        ensures dim { result.dim ≡ dim }
        ensures rows { result.rows ≡ [] }
        ensures cells { cells result.dim result.rows ≡ [] }
    {
        Solid {
            dim,
            flat: Vec::new(alloc),
        }
    }

    /// The solid of these rows, which are a vertex list: `flat` holds row after row, each of `dim` coordinates.
    pub fn from_rows(dim: usize, flat: Vec<i32>) -> Solid
        requires { AreRows flat.items dim 0 }
        ensures dim { result.dim ≡ dim }
        ensures rows { result.rows ≡ rows_of flat.items dim 0 }
    {
        Solid { dim, flat }
    }

    /// The numbers of this solid, row after row.
    pub fn into_flat(self) -> Vec<i32>
        ensures are_rows { AreRows result.items self.dim 0 }
        ensures rows { rows_of result.items self.dim 0 ≡ self.rows }
    {
        self.flat
    }

    /// What the type keeps: the rows are a vertex list of dimension 1 to 6, and so the extreme vertices of its cells. It
    /// does nothing, and is called where a proof needs these facts.
    pub fn facts(&self)
        ensures solid { IsSolid self.now }
        ensures vertices { self.now.rows ≡ evm self.now.dim (cells self.now.dim self.now.rows) }
    {
        let _read = self.dim;
    }

    /// The dimension, 1 to 6.
    pub fn dim(&self) -> usize
        ensures { result ≡ self.now.dim }
    {
        self.dim
    }

    /// The number of rows.
    pub fn len(&self) -> usize
        ensures { result ≡ length self.now.rows }
    {
        self.rows().len()
    }

    /// The coordinate of a row, counted from 0, on an axis, counted from 1.
    pub fn coord(&self, row: usize, axis: usize) -> i32
        requires row { row < length self.now.rows }
        requires low { 0 < axis }
        requires high { axis ≤ self.now.dim }
        ensures { (d : ℤ) → slice_index_or (slice_index_or self.now.rows row []) (axis - 1) d
            ≡ result }
    {
        self.rows().coord(row, axis)
    }

    /// The rows, borrowed.
    pub fn rows(&self) -> Rows<'_>
        ensures { vertices_of result ≡ self.now }
    {
        Rows {
            flat: self.flat.as_slice(),
            width: self.dim,
            skip: 0,
        }
    }

    /// The coordinates of all rows, borrowed: one row after another, `dim` numbers each.
    pub fn flat(&self) -> &[i32]
        ensures { result.now ≡ flat_of self.now.rows }
    {
        self.flat.as_slice()
    }

    /// A second solid with these rows. Takes memory for its numbers once.
    pub fn copy(&self, alloc: Global) -> Result<Solid, NoMemory>
        ensures { IfOk result (λ s. s ≡ self.now) }
    {
        let mut flat = Vec::with_capacity(alloc, self.flat.len())?;
        flat.extend_from_slice(self.flat.as_slice())?;
        Ok(Solid {
            dim: self.dim,
            flat,
        })
    }

    /// Whether the two have one dimension and the same rows, and so the same cells.
    pub fn same(&self, other: &Solid) -> bool
        ensures rows { IsTrue result ↔ (self.now ≡ other.now) }
        ensures cells { IsTrue result
            ↔ ((self.now.dim ≡ other.now.dim)
            × (cells self.now.dim self.now.rows ≡ cells other.now.dim other.now.rows)) }
    {
        self.dim == other.dim && self.flat.as_slice() == other.flat.as_slice()
    }
}
