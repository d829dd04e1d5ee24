//! The sweep over the slabs of a view.
ghost use Rattle.std.specs.Prelude.{◌≡◌, ◌↔◌, ◌+◌, ◌<◌, [], ◌∷◌, IfErr, IfSome, IfNone, IfOk, IsNone};
ghost use Rattle.evm_cells.specs.Vertices.{cells};
ghost use Rattle.evm_rows.specs.View.{vertices_of};
ghost use Rattle.evm_sections.specs.Couplets.{slabs_in};

use crate::walk::Walk;
use evm_rows::{NoMemory, Rows, Solid, xor_into};
use std::alloc::Global;
use std::marker::Model;
use std::mem;

/// A slab: the range between two neighbouring cuts of the first axis. Its cells have the first coordinates from `low` up
/// to, but not at, `high`.
#[derive(Clone, Copy, Debug, PartialEq, Eq, Drop)]
pub struct Slab {
    /// The lower cut.
    pub low: i32,
    /// The higher cut.
    pub high: i32,
}

/// A sweep over the slabs of a view, from the lowest up, with the section of the slab that it stands at. Its meaning is
/// the dimension of the sections, the extreme vertices of this section, and the slabs that are left, each with the
/// extreme vertices of its section. It holds the section, and the room of the one before for the next.
#[derive(Drop)]
pub struct Sweep<'a> {
    walk: Walk<'a>,
    section: Solid,
    room: Solid,
}

impl<'a> Model for Sweep<'a> {
    ghost use Rattle.std.specs.Prelude.{◌≡◌};
    ghost use Rattle.evm_sections.specs.Couplets.{Passage, slabs_left};

    ghost Value = { Passage };

    ghost view = { λ w. record { dim = w.walk.dim; section = w.section.rows; left = slabs_left w.walk.dim w.section.rows w.walk.left } };

    ghost invariant = { λ w. w.section.dim ≡ w.walk.dim };
}

impl<'a> Sweep<'a> {
    /// A sweep over all slabs of a view of dimension 2 or more: the ranges between neighbouring cuts, ascending, those
    /// with an empty section too. It stands before the first of them, where the section is empty. Takes no memory.
    pub fn start(alloc: Global, a: Rows<'a>) -> Sweep<'a>
        requires { 1 < (vertices_of a).dim }
        ensures dim { result.dim + 1 ≡ (vertices_of a.entry).dim }
        ensures slabs { result.left
            ≡ slabs_in result.dim (cells (vertices_of a.entry).dim (vertices_of a.entry).rows) }
        ensures section { result.section ≡ [] }
    {
        let dim = a.dim() - 1;
        Sweep {
            walk: Walk::of(a),
            section: Solid::empty(alloc, dim),
            room: Solid::empty(alloc, dim),
        }
    }

    /// Goes on to the next slab and answers its range, or `None` exactly where all were given; the section is empty then.
    ///
    /// The new section is the exclusive or of the old one and the couplet between them, merged into the room of the
    /// section before. So memory is taken only where the section outgrows this room. `NoMemory` is want of memory, and
    /// leaves the sweep as it was.
    pub fn advance(&mut self, alloc: Global) -> Result<Option<Slab>, NoMemory>
        ensures dim { self.new.dim ≡ self.old.dim }
        ensures some { IfOk result
            (λ o. IfSome o (λ s. self.old.left
            ≡ (s.low, (s.high, self.new.section)) ∷ self.new.left)) }
        ensures none { IfOk result
            (λ o. IfNone o ((self.old.left ≡ [])
            × ((self.new.left ≡ []) × (self.new.section ≡ [])))) }
        ensures ends { IfOk result (λ o. IsNone o ↔ (self.old.left ≡ [])) }
        ensures err { IfErr result (λ _. self.new ≡ self.old) }
    {
        let mut ahead = self.walk.again();
        let dim = self.section.dim();
        let (Some((low, couplet)), Some(high)) = (ahead.next_couplet(), ahead.height()) else {
            self.walk = ahead;
            self.section = Solid::empty(alloc, dim);
            return Ok(None);
        };
        let room = mem::replace(&mut self.room, Solid::empty(alloc, dim));
        let section = xor_into(room, self.section.rows(), couplet)?;
        self.walk = ahead;
        self.room = mem::replace(&mut self.section, section);
        Ok(Some(Slab { low, high }))
    }

    /// The section of the last slab that was answered, borrowed; empty before the first slab and after the last. Takes
    /// no memory.
    pub fn section(&self) -> Rows<'_>
        ensures dim { (vertices_of result).dim ≡ self.now.dim }
        ensures rows { (vertices_of result).rows ≡ self.now.section }
    {
        self.section.rows()
    }
}
