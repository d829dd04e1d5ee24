//! Putting changes in place. Nothing here can fail.

ghost use Rattle.std.specs.Prelude.{◌≡◌, ℕ, List, Some, None, true, is_some, cond, bytes_eq};
ghost use Rattle.evm_scene.specs.Tables.{put_solid};
ghost use Rattle.evm_scene.specs.Changes.{change_at, put_all, IsCount};

use super::node::Node;
use evm_formulas::changes::Change;
use evm_formulas::solids::is_none;
use evm_script::Name;
use evm_tiles::Tiles;
use indexmap::IndexMap;

/// Gives a name another solid.
pub fn set_solid(table: &mut IndexMap<Name, Node>, name: &Name, solid: Tiles)
    ensures { table.new.entries ≡ put_solid table.old.entries name.now solid }
{
    if let Some(node) = table.get_mut(name) {
        node.solid = solid;
    }
}

/// Puts one change in place.
fn settle(table: &mut IndexMap<Name, Node>, change: (Name, Change))
    ensures { table.new.entries ≡ put_solid table.old.entries change.0 change.1.after }
{
    let (name, change) = change;
    set_solid(table, &name, change.after);
}

/// Puts all changes in place.
pub fn commit(table: &mut IndexMap<Name, Node>, mut pending: IndexMap<Name, Change>)
    ensures { table.new.entries ≡ put_all table.old.entries pending.entries }
{
    while let Some(change) = pending.pop() {
        settle(table, change);
    }
}

/// The own change of an edited name.
#[derive(Drop)]
pub struct Own {
    /// The change.
    pub change: Change,
    /// How many names change their cells, this one among them where it does.
    pub names: usize,
}

/// Takes the own change of the edited name out of all changes.
pub fn take_own(pending: &mut IndexMap<Name, Change>, name: &Name) -> Own
    requires { is_some (change_at pending.old.entries name.now) ≡ true }
    ensures here { change_at pending.old.entries name.now ≡ Some result.change }
    ensures without { (x : List ℕ)
        → change_at pending.new.entries x
        ≡ cond (bytes_eq name.now x) None (change_at pending.old.entries x) }
    ensures count { IsCount result.change pending.old.entries pending.new.entries result.names }
{
    let all = pending.len();
    let Some(change) = pending.swap_remove(name) else {
        unreachable!()
    };
    let others = pending.len();
    if is_none(&change.delta) {
        Own {
            change,
            names: others,
        }
    } else {
        Own { change, names: all }
    }
}
