//! Preparing the meters of the names that change, and handing a name to a meter.

ghost use Rattle.std.specs.Prelude.{◌≡◌, ℕ, List, true, map, is_some, Some, OnOk, OnErr};
ghost use Rattle.std.specs.List.{list_any};
ghost use Rattle.evm_rows.specs.Rows.{Vertices};
ghost use Rattle.evm_model.specs.Scene.{value};
ghost use Rattle.evm_watch.specs.Slots.{seen_watches, EachReads, seen_prepared, seen_abandoned};
ghost use Rattle.evm_formulas.specs.Stated.{figure_of};
ghost use Rattle.evm_scene.specs.Tables.{node_at, kept, scene_of};
ghost use Rattle.evm_formulas.specs.Changes.{IsChange};
ghost use Rattle.evm_scene.specs.Changes.{AllChange};
ghost use Rattle.evm_scene.specs.Watched.{IsWatched, prepared_by, watched_scene, Attaches};

use super::edit::AttachError;
use super::node::Node;
use evm_formulas::changes::Change;
use evm_meter::Meter;
use evm_rows::NoMemory;
use evm_script::Name;
use evm_watch::{AttachError as SlotError, Slots};
use indexmap::IndexMap;
use std::alloc::Global;

/// Prepares the meter of each slot that watches one name. The one error is want of memory; the readings are as before then, and some
/// may be pending.
fn prepare_name<M: Meter>(
    alloc: Global,
    table: &IndexMap<Name, Node>,
    slots: &mut Slots<M>,
    name: &Name,
    change: &Change,
) -> Result<(), NoMemory>
    requires change { IsChange (Some change.now) (kept table.now.entries name.now) }
    requires stands { list_any (seen_watches name.now) slots.old ≡ true
        → is_some (node_at table.now.entries name.now) ≡ true }
    requires reads { (a : Vertices) → figure_of a ≡ kept table.now.entries name.now
        → EachReads name.now a slots.old }
    ensures ok { OnOk result
        (slots.new ≡ map (seen_prepared name.now change.now.after) slots.old) }
    ensures err { OnErr result
        (map seen_abandoned slots.new ≡ map seen_abandoned slots.old) }
{
    let Some(node) = table.get(name) else {
        return Ok(());
    };
    slots.prepare(alloc, name, &node.solid, &change.delta, &change.after)
}

/// Prepares the meter of each slot whose name has a change, from the trees before the change. Where memory is missing, nothing is
/// pending behind it, and each reading is as before.
pub fn prepare<M: Meter>(
    alloc: Global,
    table: &IndexMap<Name, Node>,
    slots: &mut Slots<M>,
    pending: &IndexMap<Name, Change>,
) -> Result<(), NoMemory>
    requires changes { AllChange table.now.entries pending.now.entries }
    requires watched { IsWatched table.now.entries slots.old }
    ensures ok { OnOk result (slots.new ≡ map (prepared_by pending.now.entries) slots.old) }
    ensures err { OnErr result (slots.new ≡ slots.old) }
{
    for at in 0..pending.len() {
        let Some((name, change)) = pending.get_index(at) else {
            unreachable!()
        };
        match prepare_name(alloc, table, slots, name, change) {
            Ok(()) => {}
            Err(NoMemory) => {
                slots.abandon();
                return Err(NoMemory);
            }
        }
    }
    Ok(())
}

/// The meter of a free slot watches a name from now on, and its reading is answered. It is `Name` exactly where the name does not
/// stand, else `Slot` exactly where there is no such slot or it is not free. After an error nothing is changed.
pub fn attach<M: Meter>(
    alloc: Global,
    table: &IndexMap<Name, Node>,
    slots: &mut Slots<M>,
    slot: usize,
    name: &Name,
) -> Result<i128, AttachError>
    requires watched { IsWatched table.now.entries slots.old }
    requires values { (x : List ℕ)
        → kept table.now.entries x ≡ value (scene_of table.now.entries) x }
    ensures watched { IsWatched table.now.entries slots.new }
    ensures attaches { Attaches result (watched_scene table.now.entries slots.old)
        (watched_scene table.now.entries slots.new) slot name.now }
{
    let Some(node) = table.get(name) else {
        return Err(AttachError::Name);
    };
    match slots.attach(alloc, slot, name, &node.solid) {
        Ok(reading) => Ok(reading),
        Err(SlotError::Slot) => Err(AttachError::Slot),
        Err(SlotError::NoMemory) => Err(AttachError::NoMemory),
    }
}
