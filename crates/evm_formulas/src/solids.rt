//! Solids as figures: Booleans, exclusive ors and changes, as the scene needs them.

ghost use Rattle.std.specs.Prelude.{◌≡◌, ◌+◌, ◌*◌, ◌<◌, ◌≤◌, ◌↔◌, [], length, true, false, IfOk, IsTrue};
ghost use Rattle.evm_cells.specs.Vertices.{cells};
ghost use Rattle.evm_rows.specs.View.{vertices_of};
ghost use Rattle.evm_model.specs.Figures.{nothing, xor_of, same_figure};
ghost use Rattle.evm_formulas.specs.Stated.{figure_of};
ghost use Rattle.evm_formulas.specs.Combined.{combine_of};
ghost use Rattle.evm_formulas.specs.Steps.{pair_cuts};
ghost use Rattle.evm_steps.specs.Cuts.{cuts_of};

use evm_boolean::Op2;
use evm_rows::{NoMemory, Rows, Solid};
use evm_steps::{Steps, pass_slabs};
use evm_tiles::Tiles;
use std::alloc::Global;
use std::sync::ledger::Ledger;

/// The solid without cells.
pub fn none(alloc: Global, dim: usize) -> Solid
    requires low { 0 < dim }
    requires high { dim ≤ 6 }
    ensures value { figure_of result ≡ nothing dim }
    ensures dim { result.dim ≡ dim }
{
    Solid::empty(alloc, dim)
}

/// Whether a solid has no cells.
pub fn is_none(solid: &Solid) -> bool
    ensures { IsTrue result ↔ (cells solid.now.dim solid.now.rows ≡ []) }
{
    solid.facts();
    solid.len() == 0
}

/// A law: the exclusive or with no cells changes nothing, and a solid has the cells that it has.
pub fn stays(solid: &Tiles)
    ensures empty { xor_of (figure_of solid.now) (nothing solid.now.dim) ≡ figure_of solid.now }
    ensures same { same_figure (figure_of solid.now) (figure_of solid.now) ≡ true }
{
    let _read = solid.dim();
}

/// The cells of just one of two solids: also the change between the two.
pub fn exclusive_or(alloc: Global, a: &Solid, b: &Solid) -> Result<Solid, NoMemory>
    requires { b.now.dim ≡ a.now.dim }
    ensures value { IfOk result (λ s. figure_of s ≡ xor_of (figure_of a.now) (figure_of b.now)) }
    ensures dim { IfOk result (λ s. s.dim ≡ a.now.dim) }

    // The change from one solid to another takes the one to the other.
    ensures back { IfOk result (λ s. xor_of (figure_of a.now) (figure_of s) ≡ figure_of b.now) }
{
    let made = evm_rows::xor(alloc, a.rows(), b.rows())?;
    Ok(made)
}

/// The solid after a change, the exclusive or of the two. It shares with the solid before what the change does not meet.
pub fn changed(alloc: Global, own: &Tiles, delta: &Solid) -> Result<Tiles, NoMemory>
    requires { delta.now.dim ≡ own.now.dim }
    ensures value { IfOk result
        (λ t. figure_of t ≡ xor_of (figure_of own.now) (figure_of delta.now)) }
    ensures dim { IfOk result (λ t. t.dim ≡ own.now.dim) }

    // A change without cells changes nothing, and each other one does.
    ensures same { IfOk result
        (λ t. cells delta.now.dim delta.now.rows ≡ [] → figure_of t ≡ figure_of own.now) }
    ensures moves { IfOk result
        (λ t. ¬ (cells delta.now.dim delta.now.rows ≡ [])
        → same_figure (figure_of own.now) (figure_of t) ≡ false) }
{
    let made = own.xor_solid(alloc, delta)?;
    Ok(made)
}

// Counts a step for each height at which a solid changes. A solid of dimension 1 has no sections to combine.
fn pass<L: Ledger>(a: Rows<'_>, steps: &mut Steps<L>)
    ensures few { steps.new ≤ steps.old + length (cuts_of (vertices_of a.entry)) }
    ensures more { steps.old ≤ steps.new }
{
    if 1 < a.dim() {
        pass_slabs(a, steps);
    }
}

/// A Boolean of two solids, made anew: where it is the exclusive or, by one merge of their rows. Takes memory for the rows of both,
/// and for the answer. Each height at which one of the two changes counts as a step, however space is cut; a merge counts none, and
/// neither do solids of dimension 1.
pub fn combine<L: Ledger>(
    alloc: Global,
    op: Op2,
    a: &Tiles,
    b: &Tiles,
    steps: &mut Steps<L>,
) -> Result<Solid, NoMemory>
    requires { b.now.dim ≡ a.now.dim }
    ensures value { IfOk result
        (λ s. figure_of s ≡ combine_of op (figure_of a.now) (figure_of b.now)) }
    ensures dim { IfOk result (λ s. s.dim ≡ a.now.dim) }

    // Whatever it answers.
    ensures few { steps.new
        ≤ steps.old + (length (cuts_of a.now) + length (cuts_of b.now)) }
    ensures more { steps.old ≤ steps.new }
{
    let left = a.to_rows(alloc)?;
    let right = b.to_rows(alloc)?;
    match op {
        Op2::Xor => exclusive_or(alloc, &left, &right),
        _ => {
            pass(left.rows(), steps);
            pass(right.rows(), steps);
            let made = evm_cutting::combine(alloc, op, left.rows(), right.rows())?;
            Ok(made)
        }
    }
}

/// The change of a Boolean whose operands change by `da` and `db`, looked for near the two. It counts at most 6 steps, and 6 more for
/// each height in the least range that has both changes at which an operand, before or after, changes.
pub fn change<L: Ledger>(
    alloc: Global,
    op: Op2,
    a: &Tiles,
    da: &Solid,
    b: &Tiles,
    db: &Solid,
    steps: &mut Steps<L>,
) -> Result<Solid, NoMemory>
    requires other { b.now.dim ≡ a.now.dim }
    requires left { da.now.dim ≡ a.now.dim }
    requires right { db.now.dim ≡ a.now.dim }
    ensures carries { IfOk result
        (λ d. xor_of (combine_of op (figure_of a.now) (figure_of b.now)) (figure_of d)
        ≡ combine_of op (xor_of (figure_of a.now) (figure_of da.now))
        (xor_of (figure_of b.now) (figure_of db.now))) }
    ensures dim { IfOk result (λ d. d.dim ≡ a.now.dim) }

    // Whatever it answers.
    ensures few { steps.new
        ≤ steps.old
        + 6
        * (1
        + pair_cuts (figure_of a.now) (xor_of (figure_of a.now) (figure_of da.now))
        (figure_of b.now) (xor_of (figure_of b.now) (figure_of db.now))) }
    ensures more { steps.old ≤ steps.new }
{
    let made = evm_delta::delta2(alloc, op, a, da.rows(), b, db.rows(), steps)?;
    Ok(made)
}
