//! Which names reach a name, and an order in which they come last.

ghost use Rattle.std.specs.Prelude.{◌≡◌, ◌++◌, ◌∷◌, [], true, false, OnOk};
ghost use Rattle.evm_model.specs.Orders.{is_among, Ordered};
ghost use Rattle.evm_model.specs.Scene.{operands};
ghost use Rattle.evm_scene.specs.Tables.{reads_at};
ghost use Rattle.evm_scene.specs.Orders.{meets, Parted};

use super::node::Node;
use evm_rows::NoMemory;
use evm_script::{Formula, Name, Operands};
use indexmap::{IndexMap, IndexSet};

/// Whether a formula reads one of the names that reach.
#[tactic(auto, using(evm_formulas::proofs::Stated::names_read))]
pub fn reads_reach(formula: &Formula, reach: &IndexSet<Name>) -> bool
    ensures { result ≡ meets reach.now.keys (operands formula.now) }
{
    match formula.operands() {
        Operands::Two(a, b) => reach.contains(&a) || reach.contains(&b),
        Operands::One(a) => reach.contains(&a),
        Operands::None => false,
    }
}

/// Whether a name reads one of those that reach.
fn reads_one(table: &IndexMap<Name, Node>, name: &Name, reach: &IndexSet<Name>) -> bool
    ensures { result ≡ meets reach.now.keys (reads_at table.now.entries name.now) }
{
    match table.get(name) {
        Some(
            Node {
                formula: Some(formula),
                ..
            },
        ) => reads_reach(formula, reach),
        Some(_) => false,
        None => false,
    }
}

/// Puts a name at the end of those that reach.
pub fn join(reach: &mut IndexSet<Name>, name: Name) -> Result<(), NoMemory>
    requires { is_among name reach.old.keys ≡ false }
    ensures { OnOk result (reach.new.keys ≡ reach.old.keys ++ name ∷ []) }
{
    match reach.insert(name) {
        Ok(_) => Ok(()),
        Err(_) => Err(NoMemory),
    }
}

/// Puts a name at the end of a list.
pub fn append(front: &mut Vec<Name>, name: Name) -> Result<(), NoMemory>
    ensures { OnOk result (front.new.items ≡ front.old.items ++ name ∷ []) }
{
    match front.push(name) {
        Ok(()) => Ok(()),
        Err(_) => Err(NoMemory),
    }
}

/// Parts the names that come after `name` into those that reach it and the others, in their order. Each is looked at once.
///
/// `order` is the whole order, which nothing here reads.
pub fn part(
    table: &IndexMap<Name, Node>,
    order: &[Name],
    name: &Name,
    later: &[Name],
    front: &mut Vec<Name>,
    reach: &mut IndexSet<Name>,
) -> Result<(), NoMemory>
    requires cut { order.now ≡ front.old.items ++ name.now ∷ later.now }
    requires ordered { Ordered (reads_at table.now.entries) [] front.old.items }
    requires own { Ordered (reads_at table.now.entries) front.old.items (name.now ∷ later.now) }
    requires reach { reach.old.keys ≡ name.now ∷ [] }
    ensures { OnOk result
        (Parted (reads_at table.now.entries) order.now name.now front.new.items reach.new.keys []) }
{
    let _ = order;
    let _ = name;
    for x in later {
        if reads_one(table, x, reach) {
            join(reach, *x)?;
        } else {
            append(front, *x)?;
        }
    }
    Ok(())
}
