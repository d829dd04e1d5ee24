//! Carrying a change through the names that come later.

ghost use Rattle.std.specs.Prelude.{◌≡◌, ◌+◌, ◌*◌, ◌≤◌, ◌↔◌, sum_by, ℕ, List, true, false, OnOk, IfOk, IsErrOf, [], ◌∷◌, is_some, None, Some, cond, bytes_eq};
ghost use Rattle.evm_delta.specs.Shapes.{Fits, op1_dim};
ghost use Rattle.evm_model.specs.Figures.{Figure};
ghost use Rattle.evm_model.specs.Orders.{is_among, Ordered};
ghost use Rattle.evm_model.specs.Scene.{dim_of};
ghost use Rattle.evm_formulas.specs.Stated.{figure_of};
ghost use Rattle.evm_scene.specs.Tables.{node_at, reads_at, node_value, node_stays, kept, scene_of, AllSized, AllFixed, AllStay};
ghost use Rattle.evm_formulas.specs.Combined.{combine_of};
ghost use Rattle.evm_formulas.specs.Operations.{shape_of, shape_stays};
ghost use Rattle.evm_formulas.specs.Changes.{after_of, IsChange, IsStill, Moves};
ghost use Rattle.evm_formulas.specs.Steps.{pair_cuts, shape_cuts};
ghost use Rattle.evm_scene.specs.Changes.{change_at, moved, MovesNode, IsCarried, IsCarriedTo, IsHalted, AllChange};
ghost use Rattle.evm_scene.specs.Works.{IsOutcome, IsMoving, AllMove, node_cost, cost};

use super::formulas::solid_of;
use super::node::Node;
use evm_boolean::Op2;
use evm_delta::{DeltaError, Op1};
use evm_formulas::changes::{Change, both_changed, one_changed};
use evm_formulas::operations::{Operation, operation_of};
use evm_formulas::solids::is_none;
use evm_rows::NoMemory;
use evm_script::Name;
use evm_steps::Steps;
use evm_tiles::Tiles;
use indexmap::IndexMap;
use std::alloc::Global;
use std::sync::ledger::Ledger;

/// How a Boolean of two names changes with them, or none where it does not. `own` is its solid.
fn both_moved<L: Ledger>(
    alloc: Global,
    table: &IndexMap<Name, Node>,
    pending: &IndexMap<Name, Change>,
    op: Op2,
    own: &Tiles,
    a: &Name,
    b: &Name,
    steps: &mut Steps<L>,
) -> Result<Option<Change>, NoMemory>
    requires sized { AllSized table.now.entries }
    requires changes { AllChange table.now.entries pending.now.entries }
    requires first_stands { is_some (node_at table.now.entries a.now) ≡ true }
    requires second_stands { is_some (node_at table.now.entries b.now) ≡ true }
    requires first { dim_of (scene_of table.now.entries) a.now ≡ own.now.dim }
    requires second { dim_of (scene_of table.now.entries) b.now ≡ own.now.dim }
    requires value { figure_of own.now
        ≡ combine_of op (kept table.now.entries a.now) (kept table.now.entries b.now) }
    ensures after { IfOk result
        (λ c. after_of c (figure_of own.now)
        ≡ combine_of op (moved table.now.entries pending.now.entries a.now)
        (moved table.now.entries pending.now.entries b.now)) }
    ensures change { IfOk result (λ c. IsChange c (figure_of own.now)) }
    ensures moves { IfOk result (λ c. Moves c (figure_of own.now)) }

    // Whatever it answers.
    ensures few { steps.new
        ≤ steps.old
        + 6
        * (1
        + pair_cuts (kept table.now.entries a.now)
        (moved table.now.entries pending.now.entries a.now) (kept table.now.entries b.now)
        (moved table.now.entries pending.now.entries b.now)) }
    ensures still { change_at pending.now.entries a.now ≡ None
        → change_at pending.now.entries b.now ≡ None → steps.new ≡ steps.old }
{
    both_changed(
        alloc,
        op,
        own,
        solid_of(table, a),
        pending.get(a),
        solid_of(table, b),
        pending.get(b),
        steps,
    )
}

/// How a shape of a name changes with it, or none where it does not. `own` is its solid. It is `Range` exactly where the shape
/// moves some cell out of the limits.
fn shape_moved<L: Ledger>(
    alloc: Global,
    table: &IndexMap<Name, Node>,
    pending: &IndexMap<Name, Change>,
    op: &Op1,
    own: &Tiles,
    a: &Name,
    steps: &mut Steps<L>,
) -> Result<Option<Change>, DeltaError>
    requires sized { AllSized table.now.entries }
    requires changes { AllChange table.now.entries pending.now.entries }
    requires stands { is_some (node_at table.now.entries a.now) ≡ true }
    requires fits { Fits op.now (dim_of (scene_of table.now.entries) a.now) }
    requires dim { own.now.dim ≡ op1_dim op.now (dim_of (scene_of table.now.entries) a.now) }
    requires value { figure_of own.now ≡ shape_of op.now (kept table.now.entries a.now) }
    requires stays { shape_stays op.now (kept table.now.entries a.now) ≡ true }
    ensures after { IfOk result
        (λ c. after_of c (figure_of own.now)
        ≡ shape_of op.now (moved table.now.entries pending.now.entries a.now)) }
    ensures change { IfOk result (λ c. IsChange c (figure_of own.now)) }
    ensures moves { IfOk result (λ c. Moves c (figure_of own.now)) }
    ensures range { IsErrOf result DeltaError.Range
        ↔ (shape_stays op.now (moved table.now.entries pending.now.entries a.now) ≡ false) }

    // Whatever it answers.
    ensures few { steps.new
        ≤ steps.old
        + 6
        * (1
        + shape_cuts op.now (kept table.now.entries a.now)
        (moved table.now.entries pending.now.entries a.now)) }
    ensures still { change_at pending.now.entries a.now ≡ None → steps.new ≡ steps.old }
{
    one_changed(alloc, op, own, solid_of(table, a), pending.get(a), steps)
}

/// How a name changes where its operands do, or none where it does not. It is `Range` exactly where its formula moves some
/// cell out of the limits.
fn change_of<L: Ledger>(
    alloc: Global,
    table: &IndexMap<Name, Node>,
    pending: &IndexMap<Name, Change>,
    name: &Name,
    steps: &mut Steps<L>,
) -> Result<Option<Change>, DeltaError>
    requires sized { AllSized table.now.entries }
    requires fixed { AllFixed table.now.entries }
    requires changes { AllChange table.now.entries pending.now.entries }
    requires moving { AllMove table.now.entries pending.now.entries }
    requires stays { node_stays (node_at table.now.entries name.now) (kept table.now.entries)
        ≡ true }
    ensures after { IfOk result
        (λ c. after_of c (kept table.now.entries name.now)
        ≡ node_value (node_at table.now.entries name.now)
        (moved table.now.entries pending.now.entries)) }
    ensures change { IfOk result (λ c. IsChange c (kept table.now.entries name.now)) }
    ensures moves { IfOk result (λ c. MovesNode c (node_at table.now.entries name.now)) }
    ensures range { IsErrOf result DeltaError.Range
        ↔ (node_stays (node_at table.now.entries name.now)
        (moved table.now.entries pending.now.entries) ≡ false) }

    // Whatever it answers: no step where no operand has a change.
    ensures few { steps.new
        ≤ steps.old
        + node_cost (node_at table.now.entries name.now) (kept table.now.entries)
        (moved table.now.entries pending.now.entries) }
{
    let Some(node) = table.get(name) else {
        return Ok(None);
    };
    let Some(formula) = node.formula else {
        return Ok(None);
    };
    match operation_of(&formula, node.dim) {
        Operation::Both { op, a, b } => {
            Ok(both_moved(alloc, table, pending, op, &node.solid, &a, &b, steps)?)
        }
        Operation::Shape { op, a } => shape_moved(
            alloc,
            table,
            pending,
            &op,
            &node.solid,
            &a,
            steps,
        ),
        Operation::Block { .. } => Ok(None),
    }
}

/// Makes the change of a name, where there is one. It is `Range` only where its formula moves some cell out of the limits.
fn carry_to<L: Ledger>(
    alloc: Global,
    table: &IndexMap<Name, Node>,
    name: &Name,
    pending: &mut IndexMap<Name, Change>,
    steps: &mut Steps<L>,
) -> Result<(), DeltaError>
    requires sized { AllSized table.now.entries }
    requires fixed { AllFixed table.now.entries }
    requires changes { AllChange table.now.entries pending.old.entries }
    requires moving { AllMove table.now.entries pending.old.entries }
    requires stays { node_stays (node_at table.now.entries name.now) (kept table.now.entries)
        ≡ true }
    requires first { change_at pending.old.entries name.now ≡ None }
    ensures carried { OnOk result
        (IsCarriedTo table.now.entries name.now pending.old.entries pending.new.entries) }
    ensures range { IsErrOf result DeltaError.Range
        → node_stays (node_at table.now.entries name.now)
        (moved table.now.entries pending.old.entries) ≡ false }

    // Whatever it answers: no step where no operand has a change.
    ensures few { steps.new
        ≤ steps.old
        + node_cost (node_at table.now.entries name.now) (kept table.now.entries)
        (moved table.now.entries pending.old.entries) }
{
    match change_of(alloc, table, pending, name, steps)? {
        Some(change) => Ok(put(pending, name, change)?),
        None => Ok(()),
    }
}

/// Whether the change of a name leaves it as it is.
fn is_still(pending: &IndexMap<Name, Change>, name: &Name) -> bool
    ensures still { result ≡ true → IsStill (change_at pending.now.entries name.now) }
    ensures moves { result ≡ false → IsMoving (change_at pending.now.entries name.now) }
{
    match pending.get(name) {
        Some(change) => is_none(&change.delta),
        None => true,
    }
}

/// Makes the changes of all names that come later than an edited one, whose own change is noted.
///
/// `front` are the names before it in the order: they do not change. Where the name's own change leaves it as it is, no
/// other name is looked at; else each later name is looked at once, and a change is made where an operand has one. It is
/// `Range` only where the formula of such a name moves some cell out of the limits, and the name is the first of those.
fn carry<L: Ledger>(
    alloc: Global,
    table: &IndexMap<Name, Node>,
    front: &[Name],
    name: &Name,
    later: &[Name],
    pending: &mut IndexMap<Name, Change>,
    steps: &mut Steps<L>,
) -> Result<(), DeltaError>
    requires sized { AllSized table.now.entries }
    requires fixed { AllFixed table.now.entries }
    requires stays { AllStay table.now.entries }
    requires front { Ordered (reads_at table.now.entries) [] front.now }
    requires alone { is_among name.now front.now ≡ false }
    requires later { Ordered (reads_at table.now.entries) (name.now ∷ front.now) later.now }
    requires whole { (x : List ℕ) → is_some (node_at table.now.entries x) ≡ true
        → is_among x (name.now ∷ front.now) ≡ false → is_among x later.now ≡ true }
    requires others { (x : List ℕ) → bytes_eq x name.now ≡ false
        → change_at pending.old.entries x ≡ None }
    requires change { IsChange (change_at pending.old.entries name.now)
        (kept table.now.entries name.now) }
    ensures carried { OnOk result
        (IsCarried table.now.entries front.now name.now pending.old.entries pending.new.entries) }
    ensures halted { IsErrOf result DeltaError.Range
        → IsHalted table.now.entries name.now pending.old.entries }

    // Whatever it answers, at any values that follow the formulas: no step where the name's own change leaves it as it is, or at a
    // later name whose operands have no change.
    ensures few { (V : List ℕ → Figure)
        → IsOutcome table.now.entries name.now
        (moved table.now.entries pending.old.entries name.now) V
        → steps.new ≤ steps.old + sum_by (cost table.now.entries V) later.now }
{
    let _ = front;
    if is_still(pending, name) {
        return Ok(());
    }
    for x in later {
        carry_to(alloc, table, x, pending, steps)?;
    }
    Ok(())
}

/// Notes a change.
fn put(pending: &mut IndexMap<Name, Change>, name: &Name, change: Change) -> Result<(), NoMemory>
    ensures { OnOk result
        ((x : List ℕ) → change_at pending.new.entries x
        ≡ cond (bytes_eq name.now x) (Some change) (change_at pending.old.entries x)) }
{
    match pending.insert(*name, change) {
        Ok(_) => Ok(()),
        Err(_) => Err(NoMemory),
    }
}

/// All changes that follow from the change of one name, its own among them, in an order in which it comes after `front` and before
/// `later`. It is `Range` only where a formula moves some cell out of the limits.
pub fn carried<L: Ledger>(
    alloc: Global,
    table: &IndexMap<Name, Node>,
    front: &[Name],
    name: &Name,
    later: &[Name],
    change: Change,
    steps: &mut Steps<L>,
) -> Result<IndexMap<Name, Change>, DeltaError>
    requires sized { AllSized table.now.entries }
    requires fixed { AllFixed table.now.entries }
    requires stays { AllStay table.now.entries }
    requires front { Ordered (reads_at table.now.entries) [] front.now }
    requires alone { is_among name.now front.now ≡ false }
    requires later { Ordered (reads_at table.now.entries) (name.now ∷ front.now) later.now }
    requires whole { (x : List ℕ) → is_some (node_at table.now.entries x) ≡ true
        → is_among x (name.now ∷ front.now) ≡ false → is_among x later.now ≡ true }
    requires change { IsChange (Some change) (kept table.now.entries name.now) }
    ensures carried { IfOk result
        (λ p. IsCarried table.now.entries front.now name.now ((name.now, change) ∷ []) p.entries) }
    ensures halted { IsErrOf result DeltaError.Range
        → IsHalted table.now.entries name.now ((name.now, change) ∷ []) }

    // Whatever it answers, at any values that follow the formulas.
    ensures few { (V : List ℕ → Figure)
        → IsOutcome table.now.entries name.now (figure_of change.after) V
        → steps.new ≤ steps.old + sum_by (cost table.now.entries V) later.now }
{
    let mut pending = IndexMap::new(alloc);
    put(&mut pending, name, change)?;
    carry(alloc, table, front, name, later, &mut pending, steps)?;
    Ok(pending)
}
