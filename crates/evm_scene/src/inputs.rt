//! Edits of inputs.

ghost use Rattle.std.specs.Prelude.{◌≡◌, ◌+◌, ◌≤◌, ◌<◌, length, slice_index_or, ◌++◌, ◌∷◌, [], true, false, is_some, Some, IfOk, OnOk, OnErr, IsErrOf};
ghost use Rattle.evm_model.specs.Orders.{is_among};
ghost use Rattle.evm_model.specs.Scene.{with_figure, all_stay};
ghost use Rattle.evm_model.specs.Edits as model;
ghost use Rattle.evm_model.specs.Edits.{changed_names};
ghost use Rattle.evm_model.specs.Work.{work};
ghost use Rattle.evm_formulas.specs.Stated.{figure_of};
ghost use Rattle.evm_scene.specs.Tables.{node_at, kept, is_made, scene_of};
ghost use Rattle.evm_scene.specs.Watched.{IsWatched, StaysWatched};
ghost use Rattle.evm_scene.specs.Orders.{IsKept};
ghost use Rattle.evm_formulas.specs.Changes.{IsChange};
ghost use Rattle.evm_scene.specs.Changes.{change_at, IsCarried, IsHalted, IsPlaced};
ghost use Rattle.evm_scene.specs.InputEdits.{IsPlanned};
ghost use Rattle.evm_scene.specs.Applied.{Applies};
ghost use Rattle.evm_scene.specs.Works.{follow_cost};

use super::carry::carried;
use super::commit::{commit, set_solid, take_own};
use super::edit::{Changed, Refusal};
use super::node::Node;
use super::watched::prepare;
use evm_delta::DeltaError;
use evm_formulas::changes::Change;
use evm_meter::Meter;
use evm_script::Name;
use evm_steps::Steps;
use evm_watch::Slots;
use indexmap::IndexMap;
use std::alloc::Global;
use std::sync::ledger::Ledger;

/// The place of a name in an order.
fn place(order: &[Name], name: &Name) -> usize
    requires { is_among name.now order.now ≡ true }
    ensures within { result < length order.now }
    ensures here { slice_index_or order.now result name.now ≡ name.now }
{
    for (at, other) in order.iter().enumerate() {
        if name.same(other) {
            return at;
        }
    }
    unreachable!()
}

/// The names before and after a name in an order.
pub fn around<'a>(order: &'a [Name], name: &Name) -> (&'a [Name], &'a [Name])
    requires { is_among name.now order.now ≡ true }
    ensures { order.now ≡ result.0.now ++ name.now ∷ result.1.now }
{
    let (front, rest) = order.split_at(place(order, name));
    match rest {
        [_, later @ ..] => (front, later),
        [] => unreachable!(),
    }
}

/// All changes that follow from the change of one name, its own among them. It is `Range` only where a formula moves some cell
/// out of the limits.
pub fn changes<L: Ledger>(
    alloc: Global,
    table: &IndexMap<Name, Node>,
    order: &[Name],
    name: &Name,
    change: Change,
    steps: &mut Steps<L>,
) -> Result<IndexMap<Name, Change>, DeltaError>
    requires kept { IsKept table.now.entries order.now }
    requires stands { is_some (node_at table.now.entries name.now) ≡ true }
    requires change { IsChange (Some change) (kept table.now.entries name.now) }
    ensures carried { IfOk result
        (λ p. IsCarried table.now.entries [] name.now ((name.now, change) ∷ []) p.entries) }
    ensures halted { IsErrOf result DeltaError.Range
        → IsHalted table.now.entries name.now ((name.now, change) ∷ []) }

    // Whatever it answers, by the values in the scene with the other solid.
    ensures few { steps.new
        ≤ steps.old
        + follow_cost name.now (scene_of table.now.entries)
        (with_figure (scene_of table.now.entries) name.now (figure_of change.after)) }
{
    let (front, later) = around(order, name);
    let pending = carried(alloc, table, front, name, later, change, steps)?;
    Ok(pending)
}

/// Puts all changes in place, that of `name` last, and answers how many names changed their cells. Nothing here can fail.
fn put_in_place(
    table: &mut IndexMap<Name, Node>,
    mut pending: IndexMap<Name, Change>,
    name: &Name,
) -> usize
    requires { is_some (change_at pending.entries name.now) ≡ true }
    ensures { IsPlaced table.old.entries table.new.entries name.now pending.entries result }
{
    let own = take_own(&mut pending, name);
    let names = own.names;
    let last = own.change;
    commit(table, pending);
    set_solid(table, name, last.after);
    names
}

/// Gives an input another solid, and each name that reads it its new one. Answers how many names changed their cells.
///
/// All changes are made and the meters of the watched names prepared before the first change is put in place, so a failure leaves
/// the table and all readings as they are. It is `Range` only where
/// some formula of the scene with the other solid would move a cell out of the limits.
fn set_input<M: Meter, L: Ledger>(
    alloc: Global,
    table: &mut IndexMap<Name, Node>,
    slots: &mut Slots<M>,
    order: &[Name],
    name: &Name,
    change: Change,
    steps: &mut Steps<L>,
) -> Result<usize, DeltaError>
    requires kept { IsKept table.old.entries order.now }
    requires stands { is_some (node_at table.old.entries name.now) ≡ true }
    requires input { is_made (node_at table.old.entries name.now) ≡ false }
    requires change { IsChange (Some change) (kept table.old.entries name.now) }
    requires watched { IsWatched table.old.entries slots.old }
    ensures kept { IsKept table.new.entries order.now }
    ensures ok { OnOk result
        (scene_of table.new.entries
        ≡ with_figure (scene_of table.old.entries) name.now (figure_of change.after)) }
    ensures count { IfOk result
        (λ n. n ≡ changed_names (scene_of table.old.entries) (scene_of table.new.entries)) }
    ensures stays { OnOk result
        (all_stay (with_figure (scene_of table.old.entries) name.now (figure_of change.after))
        ≡ true) }
    ensures range { IsErrOf result DeltaError.Range
        → all_stay (with_figure (scene_of table.old.entries) name.now (figure_of change.after))
        ≡ false }
    ensures err { OnErr result (table.new.entries ≡ table.old.entries) }
    ensures watched { StaysWatched table.new.entries slots.old slots.new }

    // Whatever it answers.
    ensures few { steps.new
        ≤ steps.old
        + follow_cost name.now (scene_of table.old.entries)
        (with_figure (scene_of table.old.entries) name.now (figure_of change.after)) }
{
    let _names = table.len();
    let pending = changes(alloc, table, order, name, change, steps)?;
    prepare(alloc, table, slots, &pending)?;
    let names = put_in_place(table, pending, name);
    slots.commit();
    Ok(names)
}

/// Makes the change of an input that was planned for an edit, and changes each name that reads it.
///
/// It is `Range` exactly where a formula would move some cell out of the limits, or `NoMemory`, and nothing is changed then.
pub fn change_input<M: Meter, L: Ledger>(
    alloc: Global,
    table: &mut IndexMap<Name, Node>,
    slots: &mut Slots<M>,
    order: &[Name],
    name: &Name,
    change: Change,
    steps: &mut Steps<L>,
) -> Result<Changed, Refusal>
    requires kept { IsKept table.old.entries order.now }
    requires stands { is_some (node_at table.old.entries name.now) ≡ true }
    requires input { is_made (node_at table.old.entries name.now) ≡ false }
    requires change { IsChange (Some change) (kept table.old.entries name.now) }
    requires watched { IsWatched table.old.entries slots.old }
    ensures kept { IsKept table.new.entries order.now }
    ensures applies { (edit : model.Edit) → IsPlanned table.old.entries name.now edit change
        → Applies result (scene_of table.old.entries) (scene_of table.new.entries) edit }
    ensures watched { StaysWatched table.new.entries slots.old slots.new }

    // Whatever it answers.
    ensures few { (edit : model.Edit) → IsPlanned table.old.entries name.now edit change
        → steps.new ≤ steps.old + work (scene_of table.old.entries) edit }
{
    match set_input(alloc, table, slots, order, name, change, steps) {
        Ok(names) => Ok(Changed { names }),
        Err(e) => Err(Refusal::from(e)),
    }
}
