//! Shapes of solids as figures, and their changes, as the scene needs them.

ghost use Rattle.std.specs.Prelude.{◌≡◌, ◌+◌, ◌*◌, ◌≤◌, ◌↔◌, length, true, false, IfOk, IsErrOf};
ghost use Rattle.evm_delta.specs.Shapes.{Fits, op1_dim};
ghost use Rattle.evm_model.specs.Figures.{xor_of};
ghost use Rattle.evm_formulas.specs.Stated.{figure_of};
ghost use Rattle.evm_formulas.specs.Operations.{shape_of, shape_stays};
ghost use Rattle.evm_formulas.specs.Steps.{shape_cuts};
ghost use Rattle.evm_steps.specs.Cuts.{cuts_of};

use evm_delta::{DeltaError, Op1};
use evm_rows::{NoMemory, Solid};
use evm_steps::{Steps, pass_slabs};
use evm_tiles::Tiles;
use std::alloc::Global;
use std::sync::ledger::Ledger;

/// A shape of a solid. It is `Range` only where the shape moves some cell out of the limits, and a solid only where it moves none.
/// For a projection each height at which the solid changes counts as a step; the other shapes combine no sections.
pub fn shape<L: Ledger>(
    alloc: Global,
    op: &Op1,
    a: &Tiles,
    steps: &mut Steps<L>,
) -> Result<Solid, DeltaError>
    requires { Fits op.now a.now.dim }
    ensures value { IfOk result (λ s. figure_of s ≡ shape_of op.now (figure_of a.now)) }
    ensures dim { IfOk result (λ s. s.dim ≡ op1_dim op.now a.now.dim) }
    ensures stays { IfOk result (λ _. shape_stays op.now (figure_of a.now) ≡ true) }
    ensures range { IsErrOf result DeltaError.Range → shape_stays op.now (figure_of a.now) ≡ false }

    // Whatever it answers.
    ensures few { steps.new ≤ steps.old + length (cuts_of a.now) }
    ensures more { steps.old ≤ steps.new }
{
    let whole = a.to_rows(alloc)?;
    if let Op1::Proj(_) = op {
        pass_slabs(whole.rows(), steps);
    }
    evm_delta::shape(alloc, op, whole.rows())
}

/// The change of a shape whose operand changes by `da`. It is `Range` exactly where the shape moves some cell of the changed
/// operand out of the limits. It counts at most 6 steps, and 6 more for each height in the range of `da` at which the operand, before
/// or after, changes; the projection along the first axis, which puts all sections together, for each such height anywhere. Where a
/// projection before the change is at hand, [`projection_changed`] looks at less.
pub fn shape_change<L: Ledger>(
    alloc: Global,
    op: &Op1,
    a: &Tiles,
    da: &Solid,
    steps: &mut Steps<L>,
) -> Result<Solid, DeltaError>
    requires fits { Fits op.now a.now.dim }
    requires same { da.now.dim ≡ a.now.dim }
    requires stays { shape_stays op.now (figure_of a.now) ≡ true }
    ensures carries { IfOk result
        (λ d. xor_of (shape_of op.now (figure_of a.now)) (figure_of d)
        ≡ shape_of op.now (xor_of (figure_of a.now) (figure_of da.now))) }
    ensures dim { IfOk result (λ d. d.dim ≡ op1_dim op.now a.now.dim) }
    ensures range { IsErrOf result DeltaError.Range
        ↔ (shape_stays op.now (xor_of (figure_of a.now) (figure_of da.now)) ≡ false) }

    // Whatever it answers.
    ensures few { steps.new
        ≤ steps.old
        + 6
        * (1
        + shape_cuts op.now (figure_of a.now) (xor_of (figure_of a.now) (figure_of da.now))) }
    ensures more { steps.old ≤ steps.new }
{
    evm_delta::delta1(alloc, op, a, da.rows(), steps)
}

/// The change of a projection whose operand changes by `da`, where the projection before, `own`, is at hand: only what the operand
/// becomes is projected, near the change. It counts at most a step for each height in the range of `da` at which the operand, before
/// or after, changes; along the first axis, for each such height anywhere. The one error is want of memory.
pub fn projection_changed<L: Ledger>(
    alloc: Global,
    axis: usize,
    own: &Tiles,
    a: &Tiles,
    da: &Solid,
    steps: &mut Steps<L>,
) -> Result<Solid, NoMemory>
    requires value { figure_of own.now ≡ shape_of (Op1.Proj axis) (figure_of a.now) }
    requires fits { Fits (Op1.Proj axis) a.now.dim }
    requires same { da.now.dim ≡ a.now.dim }
    ensures carries { IfOk result
        (λ d. xor_of (shape_of (Op1.Proj axis) (figure_of a.now)) (figure_of d)
        ≡ shape_of (Op1.Proj axis) (xor_of (figure_of a.now) (figure_of da.now))) }
    ensures dim { IfOk result (λ d. d.dim ≡ op1_dim (Op1.Proj axis) a.now.dim) }

    // Whatever it answers.
    ensures few { steps.new
        ≤ steps.old
        + shape_cuts (Op1.Proj axis) (figure_of a.now)
        (xor_of (figure_of a.now) (figure_of da.now)) }
    ensures more { steps.old ≤ steps.new }
{
    evm_delta::projection_change(alloc, axis, own, a, da.rows(), steps)
}
