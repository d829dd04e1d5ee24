//! What a meter is.

ghost use Rattle.std.specs.Prelude.{◌≡◌, ℕ, true, pos, None, Some, is_some, option_map, OnOk, OnErr};
ghost use Rattle.std.specs.declared.option.Option.{Option};
ghost use Rattle.evm_cells.specs.Localities.{Measure};
ghost use Rattle.evm_rows.specs.View.{vertices_of};
ghost use Rattle.evm_meter.specs.Meters.{measure_named, measured, IsLess, IsNearChange, moved_by};

use evm_rows::{NoMemory, Rows};
use std::alloc::Global;

/// What a meter measures of a solid.
#[derive(Clone, Copy, Debug, PartialEq, Eq)]
pub enum Kind {
    /// The content: the number of cells.
    Content,
    /// The boundary content: the number of unit faces between a cell and a place that is no cell.
    Boundary,
    /// The number of extreme vertices.
    Vertices,
}

/// A number that follows a solid through its changes.
///
/// A meter has a kind, which never changes, a **reading**, and a **pending reading**; each of the two is a number or none. A meter
/// that was made has neither. [`begin`](Meter::begin) reads a whole solid. Of a change it is handed the parts of the solid before and
/// after inside a box round the change, since each kind of measure changes by what it changes there: [`prepare`](Meter::prepare)
/// makes the pending reading, and then [`commit`](Meter::commit) makes it the reading, or [`abandon`](Meter::abandon) forgets it.
pub trait Meter: Drop {
    /// What it measures.
    ghost kind: { Self → Measure };

    /// The reading, or none before it began.
    ghost reading: { Self → Option ℕ };

    /// The reading after a change that was prepared, or none.
    ghost pending: { Self → Option ℕ };

    /// What it measures. Takes no memory.
    fn kind(&self) -> Kind
        ensures { measure_named result ≡ kind self.now };

    /// Reads a whole solid, and forgets a pending reading. The one error is want of memory, after which both readings are as before.
    fn begin(&mut self, alloc: Global, solid: Rows<'_>) -> Result<(), NoMemory>
        ensures kind { kind self.new ≡ kind self.old }
        ensures ok { OnOk result
            ((reading self.new ≡ Some (measured (kind self.old) (vertices_of solid.entry)))
            × (pending self.new ≡ None)) }
        ensures err { OnErr result
            ((reading self.new ≡ reading self.old) × (pending self.new ≡ pending self.old)) };

    /// Makes the pending reading of a change, of which `before` and `after` are the parts of the solid inside a box that has every
    /// cell within 1 of those that change, `gained` the cells that come and `lost` those that go. The reading stays. The one error is
    /// want of memory, after which nothing is pending.
    ///
    /// It is called only of a meter that has a reading and nothing pending, and only with the parts of the very solid whose reading
    /// it is: there is one solid of whose cells, all of them, the reading is the measure, of which `before` is what lies inside the
    /// box, and which the change makes one of which `after` is what lies inside. Outside the box the two are the same, so the
    /// reading with `after` measured more and `before` measured less is the measure of the whole solid after the change.
    fn prepare(
        &mut self,
        alloc: Global,
        before: Rows<'_>,
        gained: Rows<'_>,
        lost: Rows<'_>,
        after: Rows<'_>,
    ) -> Result<(), NoMemory>
        requires near { IsNearChange (kind self.old) (reading self.old)
            (vertices_of before) (vertices_of after) }
        requires free { pending self.old ≡ None }
        requires gained { IsLess (vertices_of after) (vertices_of before) (vertices_of gained) }
        requires lost { IsLess (vertices_of before) (vertices_of after) (vertices_of lost) }
        ensures kind { kind self.new ≡ kind self.old }
        ensures reading { reading self.new ≡ reading self.old }
        ensures ok { OnOk result
            (pending self.new
            ≡ moved_by (kind self.old) (vertices_of before.entry) (vertices_of after.entry)
            (reading self.old)) }
        ensures err { OnErr result (pending self.new ≡ None) };

    /// The pending reading becomes the reading, and nothing is pending. Takes no memory.
    fn commit(&mut self)
        requires { is_some (pending self.old) ≡ true }
        ensures kind { kind self.new ≡ kind self.old }
        ensures reading { reading self.new ≡ pending self.old }
        ensures pending { pending self.new ≡ None };

    /// Nothing is pending, and the reading stays. Takes no memory.
    fn abandon(&mut self)
        ensures kind { kind self.new ≡ kind self.old }
        ensures reading { reading self.new ≡ reading self.old }
        ensures pending { pending self.new ≡ None };

    /// The reading. Takes no memory.
    fn read(&self) -> i128
        requires { is_some (reading self.now) ≡ true }
        ensures { option_map pos (reading self.now) ≡ Some result };
}
