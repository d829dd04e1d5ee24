//! Names that are taken out.

ghost use Rattle.std.specs.Prelude.{◌≡◌, true, false, filter};
ghost use Rattle.std.specs.List.{list_any};
ghost use Rattle.evm_model.specs.Orders.{is_among};
ghost use Rattle.evm_model.specs.Scene.{operands, IsWell};
ghost use Rattle.evm_model.specs.Edits as model;
ghost use Rattle.evm_scene.specs.Tables.{reads_at, scene_of};
ghost use Rattle.evm_scene.specs.Orders.{IsKept, is_other};
ghost use Rattle.evm_scene.specs.Watched.{IsWatched, watched_scene};
ghost use Rattle.evm_scene.specs.Applied.{Applies};

use super::edit::{Changed, Refusal};
use super::node::Node;
use evm_meter::Meter;
use evm_script::{Formula, Name, Operands};
use evm_watch::Slots;
use indexmap::IndexMap;

/// Whether a formula reads a name.
#[tactic(auto, using(evm_formulas::proofs::Stated::names_read))]
pub fn names(formula: &Formula, name: &Name) -> bool
    ensures { result ≡ is_among name.now (operands formula.now) }
{
    match formula.operands() {
        Operands::Two(a, b) => *name == a || *name == b,
        Operands::One(a) => *name == a,
        Operands::None => false,
    }
}

/// Whether one name reads another.
fn reads(table: &IndexMap<Name, Node>, reader: &Name, name: &Name) -> bool
    ensures { result ≡ is_among name.now (reads_at table.now.entries reader.now) }
{
    match table.get(reader) {
        Some(
            Node {
                formula: Some(formula),
                ..
            },
        ) => names(formula, name),
        Some(_) => false,
        None => false,
    }
}

/// Whether some name of an order reads it.
fn is_used(table: &IndexMap<Name, Node>, order: &[Name], name: &Name) -> bool
    ensures { result ≡ list_any (λ x. is_among name.now (reads_at table.now.entries x)) order.now }
{
    order.iter().any(|x| reads(table, x, name))
}

/// Takes a name out of an order.
fn take_out(order: &mut Vec<Name>, name: &Name)
    ensures { order.new.items ≡ filter (is_other name.now) order.old.items }
{
    order.retain(|x| x != name);
}

/// Takes out a name that no formula reads and no meter watches.
pub fn remove<M: Meter>(
    table: &mut IndexMap<Name, Node>,
    slots: &Slots<M>,
    order: &mut Vec<Name>,
    name: &Name,
) -> Result<Changed, Refusal>
    requires kept { IsKept table.old.entries order.old.items }
    requires watched { IsWatched table.old.entries slots.now }
    requires well { IsWell (watched_scene table.old.entries slots.now) }
    ensures kept { IsKept table.new.entries order.new.items }
    ensures watched { IsWatched table.new.entries slots.now }
    ensures applies { Applies result (watched_scene table.old.entries slots.now)
        (watched_scene table.new.entries slots.now) (model.Drop name.now) }
{
    if !table.contains_key(name) {
        return Err(Refusal::Name);
    }
    if is_used(table, order.as_slice(), name) {
        return Err(Refusal::Used);
    }
    if slots.watches(name) {
        return Err(Refusal::Used);
    }
    table.shift_remove(name);
    take_out(order, name);
    Ok(Changed { names: 0 })
}
