//! New names.

ghost use Rattle.std.specs.Prelude.{◌≡◌, ◌<◌, ◌≤◌, ◌++◌, ◌∷◌, ℕ, List, [], true, false, pos, nat_abs, is_some, Some, None, OnOk, OnErr, MatchOption, vec_len, vec_capacity};
ghost use Rattle.evm_model.specs.Orders.{is_among};
ghost use Rattle.evm_model.specs.Scene.{is_dim, IsWell};
ghost use Rattle.evm_model.specs.Edits as model;
ghost use Rattle.evm_scene.specs.Applied.{Applies};
ghost use Rattle.evm_formulas.specs.Stated.{figure_of};
ghost use Rattle.evm_scene.specs.Tables.{scene_of, node_at, made_reads, node_value, node_stays, kept, dim_at, NodeSized, entries_of, entry_view};
ghost use Rattle.evm_scene.specs.Orders.{IsKept};

use super::edit::{Changed, Refusal};
use super::node::Node;
use super::numbers::stated;
use evm_formulas::solids::none;
use evm_rows::NoMemory;
use evm_script::{Name, Num};
use evm_tiles::Tiles;
use indexmap::IndexMap;
use std::alloc::Global;

/// Puts a name at the end of an order that has room.
fn push(order: &mut Vec<Name>, name: Name)
    requires { vec_len order.old < vec_capacity order.old }
    ensures { order.new.items ≡ order.old.items ++ name ∷ [] }
{
    if order.push(name).is_err() {
        unreachable!()
    }
}

/// Adds a name. Its insertion into the table is the last step that can fail.
pub fn add(
    table: &mut IndexMap<Name, Node>,
    order: &mut Vec<Name>,
    name: Name,
    node: Node,
) -> Result<(), NoMemory>
    requires kept { IsKept table.old.entries order.old.items }
    requires fresh { node_at table.old.entries name ≡ None }
    requires operands { (o : List ℕ) → is_among o (made_reads node.formula) ≡ true
        → is_some (node_at table.old.entries o) ≡ true }
    requires sized { NodeSized (Some node) (dim_at table.old.entries) }
    requires value { figure_of node.solid ≡ node_value (Some node) (kept table.old.entries) }
    requires stays { node_stays (Some node) (kept table.old.entries) ≡ true }
    ensures kept { IsKept table.new.entries order.new.items }
    ensures ok { OnOk result
        (entries_of table.new.entries
        ≡ entries_of table.old.entries ++ entry_view (name, node) ∷ []) }
    ensures err { OnErr result (table.new.entries ≡ table.old.entries) }
    ensures others { (x : List ℕ) → is_some (node_at table.old.entries x) ≡ true
        → node_at table.new.entries x ≡ node_at table.old.entries x }
{
    if order.reserve(1).is_err() {
        return Err(NoMemory);
    }
    match table.insert(name, node) {
        Ok(_) => {
            push(order, name);
            Ok(())
        }
        Err(_) => Err(NoMemory),
    }
}

/// A new input without cells.
pub fn input(
    alloc: Global,
    table: &mut IndexMap<Name, Node>,
    order: &mut Vec<Name>,
    name: Name,
    dim: Num,
) -> Result<Changed, Refusal>
    requires kept { IsKept table.old.entries order.old.items }
    requires well { IsWell (scene_of table.old.entries) }
    ensures kept { IsKept table.new.entries order.new.items }
    ensures applies { Applies result (scene_of table.old.entries) (scene_of table.new.entries)
        (model.Input name dim) }
    ensures others { (x : List ℕ) → is_some (node_at table.old.entries x) ≡ true
        → node_at table.new.entries x ≡ node_at table.old.entries x }
{
    if table.contains_key(&name) {
        return Err(Refusal::Taken);
    }
    let Some(n) = stated(dim) else {
        return Err(Refusal::Dim);
    };
    let Ok(solid) = Tiles::from_solid(alloc, none(alloc, n)) else {
        return Err(Refusal::NoMemory);
    };
    let node = Node {
        dim: n,
        formula: None,
        solid,
    };
    match add(table, order, name, node) {
        Ok(()) => Ok(Changed { names: 0 }),
        Err(NoMemory) => Err(Refusal::NoMemory),
    }
}
