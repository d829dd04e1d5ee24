//! Edits of inputs by boxes.

ghost use Rattle.std.specs.Prelude.{◌≡◌, ◌+◌, ◌*◌, ◌≤◌, ℕ, List, length, true, Some, IfOk, MatchResult};
ghost use Rattle.evm_model.specs.Figures.{box_fits, low_of, high_of, box_at, clip_of, xor_of};
ghost use Rattle.evm_model.specs.Scene.{value};
ghost use Rattle.evm_model.specs.Work.{work};
ghost use Rattle.evm_formulas.specs.Stated.{figure_of};
ghost use Rattle.evm_scene.specs.Tables.{kept, scene_of, AllSized};
ghost use Rattle.evm_scene.specs.Watched.{IsWatched, StaysWatched};
ghost use Rattle.evm_scene.specs.Orders.{IsKept};
ghost use Rattle.evm_formulas.specs.Changes.{IsChange};
ghost use Rattle.evm_scene.specs.Applied.{Applies};
ghost use Rattle.evm_scene.specs.InputEdits.{figure_by, edit_by, IsRefused, IsPlanned};

use super::edit::{BoxEdit, Changed, Refusal};
use super::inputs::change_input;
use super::node::Node;
use super::numbers::box_of;
use evm_formulas::changes::Change;
use evm_formulas::solids::{changed, exclusive_or};
use evm_meter::Meter;
use evm_rows::{NoMemory, Solid, limit};
use evm_script::{Name, Nums};
use evm_steps::Steps;
use evm_tiles::Tiles;
use evm_watch::Slots;
use indexmap::IndexMap;
use std::alloc::Global;
use std::sync::ledger::Ledger;

/// What of a solid is in the box that the numbers state.
fn part_in(alloc: Global, own: &Tiles, nums: &Nums) -> Result<Solid, NoMemory>
    requires both { length nums.now ≡ 2 * own.now.dim }
    requires fits { box_fits (low_of own.now.dim nums.now) (high_of own.now.dim nums.now) ≡ true }
    ensures value { IfOk result (λ s. figure_of s ≡ clip_of nums.now (figure_of own.now)) }
    ensures dim { IfOk result (λ s. s.dim ≡ own.now.dim) }
{
    own.facts();
    let dim = own.dim();
    let limit = limit(dim);
    match nums.between(-limit, limit) {
        Some(corners) => {
            let (lo, hi) = corners.values().split_at(dim);
            let part = own.window(alloc, lo, hi)?;
            Ok(part)
        }
        None => unreachable!(),
    }
}

/// How a solid changes by the box `cuboid`, which the numbers state: a cell of the box changes always, or only where it is empty, or
/// only where it is filled. Beside the box only what the solid has in it is looked at.
fn box_delta(
    alloc: Global,
    edit: BoxEdit,
    own: &Tiles,
    cuboid: Solid,
    nums: &Nums,
) -> Result<Solid, NoMemory>
    requires both { length nums.now ≡ 2 * own.now.dim }
    requires fits { box_fits (low_of own.now.dim nums.now) (high_of own.now.dim nums.now) ≡ true }
    requires cuboid { figure_of cuboid ≡ box_at own.now.dim nums.now }
    requires same { cuboid.dim ≡ own.now.dim }
    ensures value { IfOk result
        (λ d. xor_of (figure_of own.now) (figure_of d)
        ≡ figure_by edit (figure_of own.now) (figure_of cuboid)) }
    ensures dim { IfOk result (λ d. d.dim ≡ own.now.dim) }
{
    match edit {
        BoxEdit::Toggle => Ok(cuboid),
        BoxEdit::Add => {
            let filled = part_in(alloc, own, nums)?;
            let empty = exclusive_or(alloc, &cuboid, &filled)?;
            Ok(empty)
        }
        BoxEdit::Cut => {
            let filled = part_in(alloc, own, nums)?;
            Ok(filled)
        }
    }
}

/// The change of a solid by a box.
fn box_change(
    alloc: Global,
    edit: BoxEdit,
    own: &Tiles,
    cuboid: Solid,
    nums: &Nums,
) -> Result<Change, NoMemory>
    requires both { length nums.now ≡ 2 * own.now.dim }
    requires fits { box_fits (low_of own.now.dim nums.now) (high_of own.now.dim nums.now) ≡ true }
    requires cuboid { figure_of cuboid ≡ box_at own.now.dim nums.now }
    requires same { cuboid.dim ≡ own.now.dim }
    ensures after { IfOk result
        (λ c. figure_of c.after ≡ figure_by edit (figure_of own.now) (figure_of cuboid)) }
    ensures change { IfOk result (λ c. IsChange (Some c) (figure_of own.now)) }
{
    let delta = box_delta(alloc, edit, own, cuboid, nums)?;
    let after = changed(alloc, own, &delta)?;
    Ok(Change { delta, after })
}

/// The change of an input by a box, or why there is none.
fn planned(
    alloc: Global,
    table: &IndexMap<Name, Node>,
    edit: BoxEdit,
    name: &Name,
    nums: &Nums,
) -> Result<Change, Refusal>
    requires sized { AllSized table.now.entries }
    requires values { (x : List ℕ)
        → kept table.now.entries x ≡ value (scene_of table.now.entries) x }
    ensures { MatchResult result
        (IsPlanned table.now.entries name.now (edit_by edit name.now nums.now))
        (λ r. IsRefused r (scene_of table.now.entries) (edit_by edit name.now nums.now)) }
{
    let Some(node) = table.get(name) else {
        return Err(Refusal::Name);
    };
    if node.formula.is_some() {
        return Err(Refusal::Kind);
    }
    if nums.len() != 2 * node.dim {
        return Err(Refusal::Dim);
    }
    let cuboid = match box_of(alloc, node.dim, nums) {
        Ok(cuboid) => cuboid,
        Err(refusal) => return Err(refusal),
    };
    match box_change(alloc, edit, &node.solid, cuboid, nums) {
        Ok(change) => Ok(change),
        Err(_) => Err(Refusal::NoMemory),
    }
}

/// Changes an input by a box, and each name that reads it.
///
/// Refused in this order: `Name` where the name does not stand, `Kind` where it is a formula, `Dim` where the numbers are not
/// twice as many as its dimension, `Range` where one is past the limits, the box has no room on some axis, or a formula would
/// move some cell out of the limits.
pub fn edit_by_box<M: Meter, L: Ledger>(
    alloc: Global,
    table: &mut IndexMap<Name, Node>,
    slots: &mut Slots<M>,
    order: &[Name],
    edit: BoxEdit,
    name: &Name,
    nums: &Nums,
    steps: &mut Steps<L>,
) -> Result<Changed, Refusal>
    requires kept { IsKept table.old.entries order.now }
    requires watched { IsWatched table.old.entries slots.old }
    ensures kept { IsKept table.new.entries order.now }
    ensures applies { Applies result (scene_of table.old.entries) (scene_of table.new.entries)
        (edit_by edit name.now nums.now) }
    ensures watched { StaysWatched table.new.entries slots.old slots.new }

    // Whatever it answers.
    ensures few { steps.new
        ≤ steps.old + work (scene_of table.old.entries) (edit_by edit name.now nums.now) }
{
    let change = match planned(alloc, table, edit, name, nums) {
        Ok(change) => change,
        Err(cause) => return Err(cause),
    };
    change_input(alloc, table, slots, order, name, change, steps)
}
