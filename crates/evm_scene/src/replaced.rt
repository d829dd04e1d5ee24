//! Inputs that get another solid.

ghost use Rattle.std.specs.Prelude.{◌≡◌, ◌+◌, ◌≤◌, MatchResult};
ghost use Rattle.evm_model.specs.Scene.{value};
ghost use Rattle.evm_model.specs.Edits as model;
ghost use Rattle.evm_model.specs.Work.{work};
ghost use Rattle.evm_formulas.specs.Stated.{figure_of};
ghost use Rattle.evm_scene.specs.Tables.{kept, scene_of, AllSized};
ghost use Rattle.evm_scene.specs.Watched.{IsWatched, StaysWatched};
ghost use Rattle.evm_scene.specs.Orders.{IsKept};
ghost use Rattle.evm_scene.specs.Applied.{Applies};
ghost use Rattle.evm_scene.specs.InputEdits.{IsRefused, IsPlanned};

use super::edit::{Changed, Refusal};
use super::inputs::change_input;
use super::node::Node;
use evm_formulas::changes::{Change, changed_to};
use evm_meter::Meter;
use evm_rows::Solid;
use evm_script::Name;
use evm_steps::Steps;
use evm_watch::Slots;
use indexmap::IndexMap;
use std::alloc::Global;
use std::sync::ledger::Ledger;

/// The change of an input to another solid, or why there is none.
fn planned(
    alloc: Global,
    table: &IndexMap<Name, Node>,
    name: &Name,
    solid: Solid,
) -> Result<Change, Refusal>
    requires { AllSized table.now.entries }
    ensures { MatchResult result
        (IsPlanned table.now.entries name.now (model.Replace name.now (figure_of solid)))
        (λ r. IsRefused r (scene_of table.now.entries) (model.Replace name.now (figure_of solid))) }
{
    let Some(node) = table.get(name) else {
        return Err(Refusal::Name);
    };
    if node.formula.is_some() {
        return Err(Refusal::Kind);
    }
    if solid.dim() != node.dim {
        return Err(Refusal::Dim);
    }
    match changed_to(alloc, &node.solid, solid) {
        Ok(change) => Ok(change),
        Err(_) => Err(Refusal::NoMemory),
    }
}

/// Gives an input another solid, and changes each name that reads it.
///
/// Refused in this order: `Name` where the name does not stand, `Kind` where it is a formula, `Dim` where the solid is of
/// another dimension, `Range` where a formula would move some cell out of the limits. The solid is dropped then.
pub fn replace<M: Meter, L: Ledger>(
    alloc: Global,
    table: &mut IndexMap<Name, Node>,
    slots: &mut Slots<M>,
    order: &[Name],
    name: &Name,
    solid: Solid,
    steps: &mut Steps<L>,
) -> Result<Changed, Refusal>
    requires watched { IsWatched table.old.entries slots.old }
    requires kept { IsKept table.old.entries order.now }
    ensures kept { IsKept table.new.entries order.now }
    ensures applies { Applies result (scene_of table.old.entries) (scene_of table.new.entries)
        (model.Replace name.now (figure_of solid)) }
    ensures watched { StaysWatched table.new.entries slots.old slots.new }

    // Whatever it answers.
    ensures few { steps.new
        ≤ steps.old
        + work (scene_of table.old.entries) (model.Replace name.now (figure_of solid)) }
{
    let change = match planned(alloc, table, name, solid) {
        Ok(change) => change,
        Err(cause) => return Err(cause),
    };
    change_input(alloc, table, slots, order, name, change, steps)
}
