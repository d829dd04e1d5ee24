// The change of a Boolean of trees of tiles.
ghost use Rattle.std.specs.Prelude.{◌≡◌, ◌+◌, ◌*◌, ◌≤◌, IfOk};
ghost use Rattle.evm_rows.specs.Rows.{Vertices};
ghost use Rattle.evm_rows.specs.View.{vertices_of};
ghost use Rattle.evm_delta.specs.Changes.{after_change, change_vertices, left_change, right_change, IsChange, Carries};
ghost use Rattle.evm_delta.specs.Steps.{near_cuts};

use crate::flat::{just_one, left_change, right_change};
use crate::hulls::near;
use evm_boolean::Op2;
use evm_rows::{NoMemory, Rows, Solid, xor};
use evm_steps::Steps;
use evm_tiles::Tiles;
use std::alloc::Global;
use std::sync::ledger::Ledger;

// Where a change of the left operand changes the value, with the right operand as it will be. Only what that operand has
// near the change is looked at, so whatever the left operand is, a step is taken at most twice for each cut near the changes.
fn left_near<L: Ledger>(
    alloc: Global,
    op: Op2,
    da: Rows<'_>,
    b: &Tiles,
    db: Rows<'_>,
    steps: &mut Steps<L>,
) -> Result<Solid, NoMemory>
    requires other { b.now.dim ≡ (vertices_of da).dim }
    requires right { (vertices_of db).dim ≡ (vertices_of da).dim }
    ensures part { IfOk result
        (λ s. s ≡ left_change op (vertices_of da.entry)
        (after_change b.now (vertices_of db.entry))) }
    ensures few { (a : Vertices) → a.dim ≡ (vertices_of da.entry).dim → steps.new
        ≤ steps.old + 2 * near_cuts a (vertices_of da.entry) b.now (vertices_of db.entry) }
    ensures more { steps.old ≤ steps.new }
{
    if da.len() == 0 {
        let none = Solid::empty(alloc, da.dim());
        return Ok(none);
    }
    let before = near(alloc, b, da)?;
    if db.len() == 0 {
        let same = left_change(alloc, op, da, before.rows(), steps)?;
        return Ok(same);
    }
    let after = xor(alloc, before.rows(), db)?;
    let part = left_change(alloc, op, da, after.rows(), steps)?;
    Ok(part)
}

// Where a change of the right operand changes the value, with the left operand as it was. The steps are as few, whatever the
// right operand and the change of the left one are.
fn right_near<L: Ledger>(
    alloc: Global,
    op: Op2,
    a: &Tiles,
    db: Rows<'_>,
    steps: &mut Steps<L>,
) -> Result<Solid, NoMemory>
    requires { (vertices_of db).dim ≡ a.now.dim }
    ensures part { IfOk result (λ s. s ≡ right_change op a.now (vertices_of db.entry)) }
    ensures few { (da b : Vertices) → da.dim ≡ a.now.dim → b.dim ≡ a.now.dim → steps.new
        ≤ steps.old + 2 * near_cuts a.now da b (vertices_of db.entry) }
    ensures more { steps.old ≤ steps.new }
{
    if db.len() == 0 {
        let none = Solid::empty(alloc, db.dim());
        return Ok(none);
    }
    let before = near(alloc, a, db)?;
    let part = right_change(alloc, op, before.rows(), db, steps)?;
    Ok(part)
}

/// The change of `op` where its operand `a` changes by `da`, so that it becomes `a xor da`, and `b` by `db`: the exclusive
/// or of the value before and after.
///
/// All four have one dimension, and so has the answer. Of each tree only the window at the least box of the other operand's
/// change is looked at, and of none for `Xor`. Takes memory for the two windows, for the two changes that are cut down, and
/// for the right window after the change.
///
/// A step is one combination of two sections. Each of the two changes is cut down by a window section by section, with a step
/// for each height at which one of them changes; `Xor`, and the merges of rows, take none.
///
/// # Errors
///
/// `NoMemory` where memory lacks; the trees stay as they are.
pub fn delta2<L: Ledger>(
    alloc: Global,
    op: Op2,
    a: &Tiles,
    da: Rows<'_>,
    b: &Tiles,
    db: Rows<'_>,
    steps: &mut Steps<L>,
) -> Result<Solid, NoMemory>
    requires left { (vertices_of da).dim ≡ a.now.dim }
    requires other { b.now.dim ≡ a.now.dim }
    requires right { (vertices_of db).dim ≡ a.now.dim }
    ensures vertices { IfOk result
        (λ s. s ≡ change_vertices op a.now (vertices_of da.entry) b.now (vertices_of db.entry)) }
    ensures cells { IfOk result
        (λ s. IsChange op a.now (vertices_of da.entry) b.now (vertices_of db.entry) s) }

    // The value before becomes the value after.
    ensures carries { IfOk result
        (λ s. Carries op a.now (vertices_of da.entry) b.now (vertices_of db.entry) s) }

    // Whatever it answers.
    ensures few { steps.new
        ≤ steps.old
        + 6 * (1 + near_cuts a.now (vertices_of da.entry) b.now (vertices_of db.entry)) }
    ensures more { steps.old ≤ steps.new }
{
    if op == Op2::Xor {
        let made = xor(alloc, da, db)?;
        return Ok(made);
    }
    let left = left_near(alloc, op, da, b, db, steps)?;
    let right = right_near(alloc, op, a, db, steps)?;
    let made = just_one(alloc, left, right)?;
    Ok(made)
}
