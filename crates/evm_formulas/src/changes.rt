//! Changes of solids that are not in place yet, and how formulas carry them on.

ghost use Rattle.std.specs.Prelude.{◌≡◌, ◌+◌, ◌*◌, ◌≤◌, ◌↔◌, None, true, false, IfOk, IsErrOf};
ghost use Rattle.std.specs.Option.{option_copied};
ghost use Rattle.evm_delta.specs.Shapes.{Fits, op1_dim};
ghost use Rattle.evm_model.specs.Figures.{nothing, xor_of};
ghost use Rattle.evm_formulas.specs.Stated.{figure_of};
ghost use Rattle.evm_formulas.specs.Combined.{combine_of};
ghost use Rattle.evm_formulas.specs.Operations.{shape_of, shape_stays};
ghost use Rattle.evm_formulas.specs.Changes.{after_of, IsChange, Moves};
ghost use Rattle.evm_formulas.specs.Steps.{pair_cuts, shape_cuts};

use super::shapes::{projection_changed, shape_change};
use super::solids::{change, changed, exclusive_or, is_none, none, stays};
use evm_boolean::Op2;
use evm_delta::{DeltaError, Op1};
use evm_rows::{NoMemory, Solid};
use evm_steps::Steps;
use evm_tiles::Tiles;
use std::alloc::Global;
use std::sync::ledger::Ledger;

/// A change of a solid that is made and not in place yet.
#[derive(Drop)]
pub struct Change {
    /// The exclusive or of the solid before and after.
    pub delta: Solid,
    /// The solid after. What the change does not meet it shares with the solid before.
    pub after: Tiles,
}

/// The change of a solid to another. Takes memory for the rows of the one before, and for the change.
pub fn changed_to(alloc: Global, own: &Tiles, after: Solid) -> Result<Change, NoMemory>
    requires { after.dim ≡ own.now.dim }
    ensures after { IfOk result (λ c. c.after ≡ after) }
    ensures change { IfOk result (λ c. IsChange (Some c) (figure_of own.now)) }
{
    let before = own.to_rows(alloc)?;
    let delta = exclusive_or(alloc, &before, &after)?;
    let after = Tiles::from_solid(alloc, after)?;
    Ok(Change { delta, after })
}

/// The change of an operand, or the one without cells.
fn delta_or<'a>(change: Option<&'a Change>, own: &Tiles, still: &'a Solid) -> &'a Solid
    requires change { IsChange (option_copied change) (figure_of own.now) }
    requires still { figure_of still.now ≡ nothing own.now.dim }
    requires dim { still.now.dim ≡ own.now.dim }
    ensures dim { result.now.dim ≡ own.now.dim }
    ensures after { xor_of (figure_of own.now) (figure_of result.now)
        ≡ after_of (option_copied change.entry) (figure_of own.now) }
{
    stays(own);
    match change {
        Some(c) => &c.delta,
        None => still,
    }
}

/// How a Boolean changes with its operands, or none where it does not.
///
/// `own` is the Boolean of `a` and `b` before their changes. Where neither operand changes, nothing is looked at, and no step is
/// counted; else the steps are those of [`change`].
pub fn both_changed<L: Ledger>(
    alloc: Global,
    op: Op2,
    own: &Tiles,
    a: &Tiles,
    da: Option<&Change>,
    b: &Tiles,
    db: Option<&Change>,
    steps: &mut Steps<L>,
) -> Result<Option<Change>, NoMemory>
    requires value { figure_of own.now ≡ combine_of op (figure_of a.now) (figure_of b.now) }
    requires first { a.now.dim ≡ own.now.dim }
    requires second { b.now.dim ≡ own.now.dim }
    requires first_change { IsChange (option_copied da) (figure_of a.now) }
    requires second_change { IsChange (option_copied db) (figure_of b.now) }
    ensures after { IfOk result
        (λ c. after_of c (figure_of own.now)
        ≡ combine_of op (after_of (option_copied da.entry) (figure_of a.now))
        (after_of (option_copied db.entry) (figure_of b.now))) }
    ensures change { IfOk result (λ c. IsChange c (figure_of own.now)) }
    ensures moves { IfOk result (λ c. Moves c (figure_of own.now)) }

    // Whatever it answers.
    ensures few { steps.new
        ≤ steps.old
        + 6
        * (1
        + pair_cuts (figure_of a.now) (after_of (option_copied da.entry) (figure_of a.now))
        (figure_of b.now) (after_of (option_copied db.entry) (figure_of b.now))) }
    ensures still { option_copied da.entry ≡ None
        → option_copied db.entry ≡ None → steps.new ≡ steps.old }
    ensures more { steps.old ≤ steps.new }
{
    if da.is_none() && db.is_none() {
        return Ok(None);
    }
    own.facts();
    let still = none(alloc, own.dim());
    let first = delta_or(da, a, &still);
    let second = delta_or(db, b, &still);
    let delta = change(alloc, op, a, first, b, second, steps)?;
    let after = changed(alloc, own, &delta)?;
    if is_none(&delta) {
        return Ok(None);
    }
    Ok(Some(Change { delta, after }))
}

/// The change of a shape whose operand changes: of a projection, by `own`, the shape of `a` before; of another shape, by the change of
/// the operand alone.
fn delta_of<L: Ledger>(
    alloc: Global,
    op: &Op1,
    own: &Tiles,
    a: &Tiles,
    moved: &Change,
    steps: &mut Steps<L>,
) -> Result<Solid, DeltaError>
    requires value { figure_of own.now ≡ shape_of op.now (figure_of a.now) }
    requires fits { Fits op.now a.now.dim }
    requires stays { shape_stays op.now (figure_of a.now) ≡ true }
    requires change { IsChange (Some moved.now) (figure_of a.now) }
    ensures carries { IfOk result
        (λ d. xor_of (shape_of op.now (figure_of a.now)) (figure_of d)
        ≡ shape_of op.now (xor_of (figure_of a.now) (figure_of moved.now.delta))) }
    ensures dim { IfOk result (λ d. d.dim ≡ op1_dim op.now a.now.dim) }
    ensures range { IsErrOf result DeltaError.Range
        ↔ (shape_stays op.now (xor_of (figure_of a.now) (figure_of moved.now.delta)) ≡ false) }

    // Whatever it answers.
    ensures few { steps.new
        ≤ steps.old
        + 6
        * (1
        + shape_cuts op.now (figure_of a.now)
        (xor_of (figure_of a.now) (figure_of moved.now.delta))) }
    ensures more { steps.old ≤ steps.new }
{
    match op {
        Op1::Proj(axis) => Ok(projection_changed(alloc, *axis, own, a, &moved.delta, steps)?),
        _ => shape_change(alloc, op, a, &moved.delta, steps),
    }
}

/// How a shape changes with its operand, or none where it does not.
///
/// `own` is the shape of `a` before its change. Where the operand does not change, nothing is looked at, and no step is counted; else
/// the steps are those of [`projection_changed`] for a projection, whose change is found with the help of `own`, and those of
/// [`shape_change`] for another shape. It is `Range` exactly where the shape moves some cell of the changed operand out of the limits.
pub fn one_changed<L: Ledger>(
    alloc: Global,
    op: &Op1,
    own: &Tiles,
    a: &Tiles,
    da: Option<&Change>,
    steps: &mut Steps<L>,
) -> Result<Option<Change>, DeltaError>
    requires value { figure_of own.now ≡ shape_of op.now (figure_of a.now) }
    requires fits { Fits op.now a.now.dim }
    requires dim { own.now.dim ≡ op1_dim op.now a.now.dim }
    requires stays { shape_stays op.now (figure_of a.now) ≡ true }
    requires change { IsChange (option_copied da) (figure_of a.now) }
    ensures after { IfOk result
        (λ c. after_of c (figure_of own.now)
        ≡ shape_of op.now (after_of (option_copied da.entry) (figure_of a.now))) }
    ensures change { IfOk result (λ c. IsChange c (figure_of own.now)) }
    ensures moves { IfOk result (λ c. Moves c (figure_of own.now)) }
    ensures range { IsErrOf result DeltaError.Range
        ↔ (shape_stays op.now (after_of (option_copied da.entry) (figure_of a.now)) ≡ false) }

    // Whatever it answers.
    ensures few { steps.new
        ≤ steps.old
        + 6
        * (1
        + shape_cuts op.now (figure_of a.now)
        (after_of (option_copied da.entry) (figure_of a.now))) }
    ensures still { option_copied da.entry ≡ None → steps.new ≡ steps.old }
    ensures more { steps.old ≤ steps.new }
{
    let Some(moved) = da else {
        return Ok(None);
    };
    let delta = delta_of(alloc, op, own, a, moved, steps)?;
    if is_none(&delta) {
        return Ok(None);
    }
    let after = changed(alloc, own, &delta)?;
    Ok(Some(Change { delta, after }))
}
