//! The type of trees of tiles.

ghost use Rattle.std.specs.Prelude.{◌≡◌, ◌≤◌, ◌-◌, true, IfOk};
ghost use Rattle.evm_cells.specs.Limits.{is_cell_coord};
ghost use Rattle.evm_cells.specs.Boxes.{is_box};
ghost use Rattle.evm_cells.specs.Measures.{content};
ghost use Rattle.evm_cells.specs.Vertices.{evm};
ghost use Rattle.evm_rows.specs.Rows.{cells_of, IsSolid};
ghost use Rattle.evm_rows.specs.View.{vertices_of};
ghost use Rattle.evm_tiles.specs.Shown.{window_cells, section_cells, just_one, just_one_rows};

use crate::node::{DEEP, Node, changed, planted};
use evm_rows::{DIM_MAX, NoMemory, Rows, Solid, limit, own};
use evm_shapes::slice;
use std::alloc::Global;
use std::marker::Model;
use std::rc::Rc;

/// A solid as a tree of tiles: boxes that a plane cuts in two, and at the leaves the part of the solid inside them, which has few rows
/// where an edit met it. Trees share the parts in which they do not differ.
///
/// Contracts see a tree as they see the solid that it stands for.
#[derive(Drop)]
pub struct Tiles {
    dim: usize,
    root: Rc<Node>,
}

impl Model for Tiles {
    ghost use Rattle.evm_rows.specs.Rows.{Vertices};
    ghost use Rattle.evm_tiles.specs.Shown.{tiles_shown, IsShown};

    ghost Value = { Vertices };

    ghost view = { λ t. tiles_shown t.dim t.root.value };

    ghost invariant = { λ t. IsShown t.dim t.root.value };
}

impl Tiles {
    /// The tree of a solid. It is one leaf, a copy of the rows; an edit cuts the leaves that it meets. Takes memory for the rows once.
    pub fn from_rows(alloc: Global, a: Rows<'_>) -> Result<Tiles, NoMemory>
        ensures { IfOk result (λ t. t ≡ vertices_of a.entry) }
    {
        let solid = own(alloc, a)?;
        let made = Tiles::from_solid(alloc, solid)?;
        Ok(made)
    }

    /// The tree of a solid that is given away. It is one leaf; an edit cuts the leaves that it meets. Copies no rows. After want of
    /// memory the solid is gone.
    pub fn from_solid(alloc: Global, solid: Solid) -> Result<Tiles, NoMemory>
        ensures { IfOk result (λ t. t ≡ solid) }
    {
        solid.facts();
        let dim = solid.dim();
        let root = planted(alloc, solid)?;
        Ok(Tiles { dim, root })
    }

    /// What the type keeps: it stands for a vertex list of dimension 1 to 6, the extreme vertices of its cells. It does nothing,
    /// and is called where a proof needs these facts.
    pub fn facts(&self)
        ensures solid { IsSolid self.now }
        ensures vertices { self.now.rows ≡ evm self.now.dim (cells_of self.now) }
    {
        let _read = self.dim;
    }

    /// The dimension, 1 to 6.
    pub fn dim(&self) -> usize
        ensures { result ≡ self.now.dim }
    {
        self.dim
    }

    /// A second tree that shares all of this one. Takes no memory.
    ///
    /// # Errors
    ///
    /// `NoMemory` where so many trees share this one already that their count is full.
    pub fn share(&self) -> Result<Tiles, NoMemory>
        ensures { IfOk result (λ t. t ≡ self.now) }
    {
        let root = self.root.clone()?;
        Ok(Tiles {
            dim: self.dim,
            root,
        })
    }

    /// The solid. Takes memory for its rows, at each level of the tree once.
    pub fn to_rows(&self, alloc: Global) -> Result<Solid, NoMemory>
        ensures { IfOk result (λ s. s ≡ self.now) }
    {
        let made = self.root.whole(alloc, self.dim)?;
        made.facts();
        Ok(made)
    }

    /// How many cells the solid has, at most `2^120`. It is counted leaf by leaf, and no rows are put together: takes memory as
    /// [`evm_cutting::content`] does for the rows of one leaf at a time. The one error is want of memory.
    pub fn content(&self, alloc: Global) -> Result<u128, NoMemory>
        ensures { IfOk result (λ n. n ≡ content (cells_of self.now)) }
    {
        self.root.content(alloc, self.dim)
    }

    /// The cells in the box from `lo` up to, but not at, `hi` on each axis. Only the leaves whose tiles the box meets are looked at.
    /// Takes memory for the rows in them, and for the answer.
    pub fn window(&self, alloc: Global, lo: &[i32], hi: &[i32]) -> Result<Solid, NoMemory>
        requires { is_box self.now.dim lo.now hi.now ≡ true }
        ensures dim { IfOk result (λ s. s.dim ≡ self.now.dim) }
        ensures rows { IfOk result
            (λ s. s.rows ≡ evm self.now.dim (window_cells self.now lo.now hi.now)) }
        ensures cells { IfOk result (λ s. cells_of s ≡ window_cells self.now lo.now hi.now) }
    {
        let part = self.root.window(alloc, lo, hi)?;
        part.facts();
        Ok(part)
    }

    /// The exclusive or with a change. What the change does not meet is shared. Takes memory for the change, and for the leaves that it
    /// meets with the cuts above them.
    pub fn xor(&self, alloc: Global, d: Rows<'_>) -> Result<Tiles, NoMemory>
        requires { (vertices_of d).dim ≡ self.now.dim }
        ensures dim { IfOk result (λ t. t.dim ≡ self.now.dim) }
        ensures rows { IfOk result (λ t. t.rows ≡ just_one_rows self.now (vertices_of d.entry)) }
        ensures cells { IfOk result (λ t. cells_of t ≡ just_one self.now (vertices_of d.entry)) }
    {
        let change = own(alloc, d)?;
        self.xor_solid(alloc, &change)
    }

    /// The exclusive or with a change, as `xor`, where that is a solid. The change is not copied but into a leaf that it is set beside.
    /// Takes memory for the leaves that it meets with the cuts above them.
    pub fn xor_solid(&self, alloc: Global, d: &Solid) -> Result<Tiles, NoMemory>
        requires { d.now.dim ≡ self.now.dim }
        ensures dim { IfOk result (λ t. t.dim ≡ self.now.dim) }
        ensures rows { IfOk result (λ t. t.rows ≡ just_one_rows self.now d.now) }
        ensures cells { IfOk result (λ t. cells_of t ≡ just_one self.now d.now) }
    {
        let dim = self.dim;
        if d.len() == 0 {
            let made = self.share()?;
            return Ok(made);
        }
        let root = changed(alloc, &self.root, d, 0, DEEP)?;
        Ok(Tiles { dim, root })
    }

    /// The section at the cell coordinate `at` of the first axis, without that coordinate. It is cut out
    /// of a window of that height. Takes memory for the window and the answer.
    pub fn section(&self, alloc: Global, at: i32) -> Result<Solid, NoMemory>
        requires deep { 2 ≤ self.now.dim }
        requires height { is_cell_coord self.now.dim at ≡ true }
        ensures dim { IfOk result (λ s. s.dim ≡ self.now.dim - 1) }
        ensures rows { IfOk result
            (λ s. s.rows ≡ evm (self.now.dim - 1) (section_cells self.now at)) }
        ensures cells { IfOk result (λ s. cells_of s ≡ section_cells self.now at) }
    {
        let dim = self.dim;
        let limit = limit(dim);
        let mut lo = [-limit; DIM_MAX];
        let mut hi = [limit; DIM_MAX];
        lo[0] = at;
        hi[0] = at + 1;
        let thin = self.window(alloc, &lo[..dim], &hi[..dim])?;
        let part = slice(alloc, thin.rows(), 1, at)?;
        part.facts();
        Ok(part)
    }
}
