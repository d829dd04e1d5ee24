//! Combinations of sections, which are counted.

ghost use Rattle.std.specs.Prelude.{◌≡◌, ◌+◌, ◌<◌, ◌≤◌, length, IfOk};
ghost use Rattle.evm_rows.specs.View.{vertices_of};
ghost use Rattle.evm_steps.specs.Combined.{combined, HasCombined};
ghost use Rattle.evm_steps.specs.Cuts.{cuts_of};

use crate::steps::Steps;
use evm_boolean::{Op2, advance, lower_of};
use evm_rows::{NoMemory, Rows, Solid, append_xor};
use evm_sections::Walk;
use std::alloc::Global;
use std::sync::ledger::Ledger;

/// The Boolean `op` of two sections of one dimension, as one step: the same as [`evm_boolean::combine`].
///
/// # Errors
///
/// `NoMemory` where memory lacks. The step is counted then too.
pub fn combine<L: Ledger>(
    alloc: Global,
    op: Op2,
    a: Rows<'_>,
    b: Rows<'_>,
    steps: &mut Steps<L>,
) -> Result<Solid, NoMemory>
    requires { (vertices_of a).dim ≡ (vertices_of b).dim }
    ensures rows { IfOk result
        (λ s. s.rows ≡ combined op (vertices_of a.entry) (vertices_of b.entry)) }
    ensures cells { IfOk result
        (λ s. HasCombined op (vertices_of a.entry) (vertices_of b.entry) s) }
    ensures dim { IfOk result (λ s. s.dim ≡ (vertices_of a.entry).dim) }

    // One step, whatever it answers.
    ensures one { steps.new ≡ steps.old + 1 }
{
    let mut rooms = Vec::new(alloc);
    let room = Solid::empty(alloc, 1);
    let solid = step(alloc, op, a, b, &mut rooms, room, steps)?;
    Ok(solid)
}

// One step, in the room of a solid that is done with. All steps of Booleans are taken here.
fn step<L: Ledger>(
    alloc: Global,
    op: Op2,
    a: Rows<'_>,
    b: Rows<'_>,
    rooms: &mut Vec<Solid>,
    room: Solid,
    steps: &mut Steps<L>,
) -> Result<Solid, NoMemory>
    requires { (vertices_of a).dim ≡ (vertices_of b).dim }
    ensures rows { IfOk result
        (λ s. s.rows ≡ combined op (vertices_of a.entry) (vertices_of b.entry)) }
    ensures dim { IfOk result (λ s. s.dim ≡ (vertices_of a.entry).dim) }
    ensures one { steps.new ≡ steps.old + 1 }
{
    steps.tick();
    evm_boolean::combine_in(alloc, op, a, b, room, rooms)
}

/// The Boolean `op` of two solids of one dimension, section by section: the same as [`evm_boolean::combine`], with a step for each
/// height at which one of them changes, and none where one of them has no rows or they have dimension 1.
///
/// # Errors
///
/// `NoMemory` where memory lacks. The steps up to there are counted then too.
pub fn combine_slabs<L: Ledger>(
    alloc: Global,
    op: Op2,
    a: Rows<'_>,
    b: Rows<'_>,
    steps: &mut Steps<L>,
) -> Result<Solid, NoMemory>
    requires { (vertices_of a).dim ≡ (vertices_of b).dim }
    ensures rows { IfOk result
        (λ s. s.rows ≡ combined op (vertices_of a.entry) (vertices_of b.entry)) }
    ensures cells { IfOk result
        (λ s. HasCombined op (vertices_of a.entry) (vertices_of b.entry) s) }
    ensures dim { IfOk result (λ s. s.dim ≡ (vertices_of a.entry).dim) }

    // No more steps than both have cuts, whatever it answers.
    ensures few { steps.new
        ≤ steps.old
        + (length (cuts_of (vertices_of a.entry)) + length (cuts_of (vertices_of b.entry))) }
    ensures more { steps.old ≤ steps.new }
{
    if a.flat.len() == 0 || b.flat.len() == 0 {
        return evm_boolean::combine(alloc, op, a, b);
    }
    if a.dim() == 1 {
        return evm_boolean::combine(alloc, op, a, b);
    }
    let solid = climb(alloc, op, a, b, steps)?;
    Ok(solid)
}

// The Boolean of two views of dimension 2 or more, by a walk over the heights of both.
fn climb<L: Ledger>(
    alloc: Global,
    op: Op2,
    a: Rows<'_>,
    b: Rows<'_>,
    steps: &mut Steps<L>,
) -> Result<Solid, NoMemory>
    requires same_dim { (vertices_of a).dim ≡ (vertices_of b).dim }
    requires deep { 1 < (vertices_of a).dim }
    ensures rows { IfOk result
        (λ s. s.rows ≡ combined op (vertices_of a.entry) (vertices_of b.entry)) }
    ensures dim { IfOk result (λ s. s.dim ≡ (vertices_of a.entry).dim) }
    ensures few { steps.new
        ≤ steps.old
        + (length (cuts_of (vertices_of a.entry)) + length (cuts_of (vertices_of b.entry))) }
    ensures more { steps.old ≤ steps.new }
{
    let dim = a.dim();
    let (mut left, mut right) = (Walk::of(a), Walk::of(b));
    let mut rooms = Vec::new(alloc);
    let mut out = Vec::new(alloc);
    let mut below_a = Solid::empty(alloc, dim - 1);
    let mut below_b = Solid::empty(alloc, dim - 1);
    let mut below = Solid::empty(alloc, dim - 1);
    let mut spare = Solid::empty(alloc, dim - 1);
    let mut other = Solid::empty(alloc, dim - 1);
    while let Some(height) = lower_of(left.height(), right.height()) {
        let (next_a, old_a) = advance(&mut left, height, below_a, spare)?;
        below_a = next_a;
        let (next_b, old_b) = advance(&mut right, height, below_b, old_a)?;
        below_b = next_b;
        let above = step(
            alloc,
            op,
            below_a.rows(),
            below_b.rows(),
            &mut rooms,
            other,
            steps,
        )?;
        out = append_xor(out, Some(height), below.rows(), above.rows())?;
        spare = old_b;
        other = below;
        below = above;
    }
    Ok(Solid::from_rows(dim, out))
}

/// Counts a step for each height at which a solid changes, for what takes its sections one by one. Takes no memory.
pub fn pass_slabs<L: Ledger>(a: Rows<'_>, steps: &mut Steps<L>)
    requires { 1 < (vertices_of a).dim }
    ensures { steps.new ≡ steps.old + length (cuts_of (vertices_of a.entry)) }
{
    let mut walk = Walk::of(a);
    while let Some(_couplet) = walk.next_couplet() {
        steps.tick();
    }
}
