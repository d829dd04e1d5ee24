// The parts of a Boolean's change, from solids that are lists of rows.

ghost use Rattle.std.specs.Prelude.{◌≡◌, ◌+◌, ◌≤◌, length, IfOk};
ghost use Rattle.evm_rows.specs.Rows.{xor_rows};
ghost use Rattle.evm_rows.specs.View.{vertices_of};
ghost use Rattle.evm_steps.specs.Cuts.{cuts_of};
ghost use Rattle.evm_delta.specs.Changes.{left_change, right_change};

use evm_boolean::Op2;
use evm_rows::{NoMemory, Rows, Solid, own, xor};
use evm_steps::{Steps, combine_slabs};
use std::alloc::Global;
use std::sync::ledger::Ledger;

/// Where a change of the left operand changes the value, with the right operand as it will be. It counts the steps of a
/// Boolean of the two; for `Xor` the change is copied, and nothing counted.
pub(crate) fn left_change<L: Ledger>(
    alloc: Global,
    op: Op2,
    da: Rows<'_>,
    b: Rows<'_>,
    steps: &mut Steps<L>,
) -> Result<Solid, NoMemory>
    requires { (vertices_of b).dim ≡ (vertices_of da).dim }
    ensures part { IfOk result
        (λ s. s ≡ left_change op (vertices_of da.entry) (vertices_of b.entry)) }
    ensures few { steps.new
        ≤ steps.old
        + (length (cuts_of (vertices_of da.entry)) + length (cuts_of (vertices_of b.entry))) }
    ensures more { steps.old ≤ steps.new }
{
    match op {
        Op2::Or => combine_slabs(alloc, Op2::Sub, da, b, steps),
        Op2::And => combine_slabs(alloc, Op2::And, da, b, steps),
        Op2::Sub => combine_slabs(alloc, Op2::Sub, da, b, steps),
        Op2::Xor => own(alloc, da),
    }
}

/// Where a change of the right operand changes the value, with the left operand as it was. It counts steps likewise.
pub(crate) fn right_change<L: Ledger>(
    alloc: Global,
    op: Op2,
    a: Rows<'_>,
    db: Rows<'_>,
    steps: &mut Steps<L>,
) -> Result<Solid, NoMemory>
    requires { (vertices_of db).dim ≡ (vertices_of a).dim }
    ensures part { IfOk result
        (λ s. s ≡ right_change op (vertices_of a.entry) (vertices_of db.entry)) }
    ensures few { steps.new
        ≤ steps.old
        + (length (cuts_of (vertices_of a.entry)) + length (cuts_of (vertices_of db.entry))) }
    ensures more { steps.old ≤ steps.new }
{
    match op {
        Op2::Or => combine_slabs(alloc, Op2::Sub, db, a, steps),
        Op2::And => combine_slabs(alloc, Op2::And, db, a, steps),
        Op2::Sub => combine_slabs(alloc, Op2::And, db, a, steps),
        Op2::Xor => own(alloc, db),
    }
}

/// The cells of just one of two parts. Where one part has no rows the answer is the other, and no row is copied.
pub(crate) fn just_one(alloc: Global, a: Solid, b: Solid) -> Result<Solid, NoMemory>
    requires { b.dim ≡ a.dim }
    ensures dim { IfOk result (λ s. s.dim ≡ a.dim) }
    ensures rows { IfOk result (λ s. s.rows ≡ xor_rows a.dim a.rows b.rows) }
{
    a.facts();
    b.facts();
    if b.len() == 0 {
        return Ok(a);
    }
    if a.len() == 0 {
        return Ok(b);
    }
    let made = xor(alloc, a.rows(), b.rows())?;
    Ok(made)
}
