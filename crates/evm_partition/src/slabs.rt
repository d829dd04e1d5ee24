//! Splits a solid into the boxes of its stated partition.
ghost use Rattle.std.specs.Prelude.{◌≡◌, ◌+◌, ◌≤◌, ◌++◌, IfOk, OnOk};
ghost use Rattle.evm_rows.specs.View.{vertices_of};
ghost use Rattle.evm_partition.specs.BoxLists.{front_of, numbers_after, partition_of, IsPartitionOf};

use crate::boxes::{Boxes, Front};
use evm_rows::{NoMemory, Rows};
use evm_sections::{Marks, Sweep};
use std::alloc::{AllocError, Global};

/// The boxes of the stated partition of a solid, ascending by their lower corners. The empty solid has none.
///
/// Between neighbouring cuts of the first axis the section is split in the same way; in dimension 1 the boxes are the runs. So it is
/// one sweep over the slabs, and for each one over those of its section, and so on. Each level holds two sections, and the answer
/// is one list of numbers, 2 n a box, with room for as many numbers as the view has from the start. The one error is want of memory.
pub fn split(alloc: Global, a: Rows<'_>) -> Result<Boxes, NoMemory>
    ensures dim { IfOk result (λ b. b.dim ≡ (vertices_of a.entry).dim) }
    ensures boxes { IfOk result (λ b. b.boxes ≡ partition_of (vertices_of a.entry)) }
    ensures stated { IfOk result (λ b. IsPartitionOf (vertices_of a.entry) b.boxes) }
{
    let dim = a.dim();
    let mut flat = Vec::with_capacity(alloc, a.flat.len())?;
    append_boxes(alloc, a, Front::start(), &mut flat)?;
    Ok(Boxes::of_flat(dim, flat))
}

// Appends the boxes of a view, each with the ends before it.
fn append_boxes(
    alloc: Global,
    a: Rows<'_>,
    front: Front,
    out: &mut Vec<i32>,
) -> Result<(), NoMemory>
    requires { front.depth + (vertices_of a).dim ≤ 6 }
    ensures { OnOk result
        (out.new.items ≡ out.old.items ++ numbers_after (front_of front) (vertices_of a.entry)) }
{
    if a.dim() == 1 {
        append_runs(a, front, out)?;
        return Ok(());
    }
    let mut sweep = Sweep::start(alloc, a);
    while let Some(slab) = sweep.advance(alloc)? {
        let next = front.then(slab.low, slab.high);
        append_boxes(alloc, sweep.section(), next, out)?;
    }
    Ok(())
}

// The same of a view of dimension 1.
fn append_runs(a: Rows<'_>, front: Front, out: &mut Vec<i32>) -> Result<(), AllocError>
    requires line { (vertices_of a).dim ≡ 1 }
    requires depth { front.depth + 1 ≤ 6 }
    ensures { OnOk result
        (out.new.items ≡ out.old.items ++ numbers_after (front_of front) (vertices_of a.entry)) }
{
    let mut marks = Marks::of(a);
    while let Some(low) = marks.height() {
        marks.step();
        let Some(high) = marks.height() else { break };
        marks.step();
        front.then(low, high).append_to(out)?;
    }
    Ok(())
}
