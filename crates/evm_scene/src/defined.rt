//! Definitions of names.

ghost use Rattle.std.specs.Prelude.{◌≡◌, ◌≤◌, ◌+◌, drop, sum_by, ◌++◌, ◌∷◌, ℕ, List, [], true, false, is_some, Some, option_map, IfOk, IsErrOf, MatchOption};
ghost use Rattle.evm_model.specs.Orders.{is_among, Ordered};
ghost use Rattle.evm_model.specs.Scene.{operands, dim_of, formula_fits, formula_dim, IsWell};
ghost use Rattle.evm_model.specs.Figures.{Figure};
ghost use Rattle.evm_model.specs.Edits as model;
ghost use Rattle.evm_model.specs.Work.{work};
ghost use Rattle.evm_model.specs.Edits.{lacks_operand, misses_dim};
ghost use Rattle.evm_formulas.specs.Stated.{figure_of};
ghost use Rattle.evm_scene.specs.Tables.{node_at, reads_at, kept, is_made, put_made, scene_of, AllSized, AllFixed, AllStay};
ghost use Rattle.evm_scene.specs.Watched.{IsWatched, StaysWatched};
ghost use Rattle.evm_scene.specs.Orders.{IsKept, Parted};
ghost use Rattle.evm_formulas.specs.Changes.{IsChange};
ghost use Rattle.evm_scene.specs.Changes.{change_at, IsCarried, IsHalted, IsRedefined, IsStuck, IsInstalled};
ghost use Rattle.evm_scene.specs.Definitions.{IsFree};
ghost use Rattle.evm_scene.specs.Applied.{Applies};
ghost use Rattle.evm_scene.specs.Works.{IsOutcome, cost};

use super::added::add;
use super::carry::carried;
use super::commit::{commit, take_own};
use super::edit::{Changed, Refusal};
use super::formulas::{dim_named, dim_stated, evaluate, lacks, solid_of};
use super::inputs::around;
use super::node::Node;
use super::removed::names;
use super::reorder::{join, part, reads_reach};
use super::watched::prepare;
use evm_delta::DeltaError;
use evm_formulas::changes::{Change, changed_to};
use evm_meter::Meter;
use evm_rows::{NoMemory, Solid};
use evm_script::{Formula, Name};
use evm_steps::Steps;
use evm_tiles::Tiles;
use evm_watch::Slots;
use indexmap::{IndexMap, IndexSet};
use std::alloc::Global;
use std::sync::ledger::Ledger;

/// A new name for a formula, where each operand but the name itself stands.
fn make<L: Ledger>(
    alloc: Global,
    table: &mut IndexMap<Name, Node>,
    order: &mut Vec<Name>,
    name: Name,
    formula: Formula,
    steps: &mut Steps<L>,
) -> Result<Changed, Refusal>
    requires kept { IsKept table.old.entries order.old.items }
    requires well { IsWell (scene_of table.old.entries) }
    requires fresh { is_some (node_at table.old.entries name) ≡ false }
    requires present { lacks_operand (scene_of table.old.entries) name formula ≡ false }
    ensures kept { IsKept table.new.entries order.new.items }
    ensures applies { Applies result (scene_of table.old.entries) (scene_of table.new.entries)
        (model.Def name formula) }
    ensures others { (x : List ℕ) → is_some (node_at table.old.entries x) ≡ true
        → node_at table.new.entries x ≡ node_at table.old.entries x }

    // Whatever it answers.
    ensures few { steps.new
        ≤ steps.old + work (scene_of table.old.entries) (model.Def name formula) }
{
    if names(&formula, &name) {
        return Err(Refusal::Cycle);
    }
    let Some(dim) = dim_stated(table, &formula) else {
        return Err(Refusal::Dim);
    };
    let whole = match evaluate(alloc, table, &formula, dim, steps) {
        Ok(whole) => whole,
        Err(refusal) => return Err(refusal),
    };
    let Ok(solid) = Tiles::from_solid(alloc, whole) else {
        return Err(Refusal::NoMemory);
    };
    let node = Node {
        dim,
        formula: Some(formula),
        solid,
    };
    match add(table, order, name, node) {
        Ok(()) => Ok(Changed { names: 0 }),
        Err(NoMemory) => Err(Refusal::NoMemory),
    }
}

/// An order, parted at a name.
#[derive(Drop)]
struct Parts {
    /// The names that do not reach it, in an order in which operands come first.
    front: Vec<Name>,
    /// The name, and after it those that reach it, each after its operands.
    reach: IndexSet<Name>,
}

/// A copy of a list of names.
fn copied(alloc: Global, names: &[Name]) -> Result<Vec<Name>, NoMemory>
    ensures { IfOk result (λ v. v.items ≡ names.now) }
{
    let mut all = Vec::new(alloc);
    match all.extend_from_slice(names) {
        Ok(()) => Ok(all),
        Err(_) => Err(NoMemory),
    }
}

/// The order, parted at a name that stands.
fn parted(
    alloc: Global,
    table: &IndexMap<Name, Node>,
    order: &[Name],
    name: &Name,
) -> Result<Parts, NoMemory>
    requires kept { IsKept table.now.entries order.now }
    requires stands { is_some (node_at table.now.entries name.now) ≡ true }
    ensures { IfOk result
        (λ p. Parted (reads_at table.now.entries) order.now name.now p.front.items p.reach.keys []) }
{
    let (before, later) = around(order, name);
    let mut front = copied(alloc, before)?;
    let mut reach = IndexSet::new(alloc);
    join(&mut reach, *name)?;
    part(table, order, name, later, &mut front, &mut reach)?;
    Ok(Parts { front, reach })
}

/// The order, parted at a name that stands, where the formula reaches no name that reaches it.
fn free_parts(
    alloc: Global,
    table: &IndexMap<Name, Node>,
    order: &[Name],
    name: &Name,
    formula: &Formula,
) -> Result<Parts, Refusal>
    requires kept { IsKept table.now.entries order.now }
    requires stands { is_some (node_at table.now.entries name.now) ≡ true }
    requires present { (o : List ℕ) → is_among o (operands formula.now) ≡ true
        → is_some (node_at table.now.entries o) ≡ true }
    ensures { IsFree result table.now.entries order.now name.now formula.now }
{
    let parts = parted(alloc, table, order, name)?;
    if reads_reach(formula, &parts.reach) {
        return Err(Refusal::Cycle);
    }
    Ok(parts)
}

/// All changes that follow from another solid of a formula, in an order in which it comes after its new operands. It is `Range`
/// only where a formula moves some cell out of the limits.
fn reformed<L: Ledger>(
    alloc: Global,
    table: &IndexMap<Name, Node>,
    order: &[Name],
    parts: &Parts,
    name: &Name,
    after: Solid,
    steps: &mut Steps<L>,
) -> Result<IndexMap<Name, Change>, DeltaError>
    requires kept { IsKept table.now.entries order.now }
    requires parted { Parted
        (reads_at table.now.entries) order.now name.now parts.now.front.items parts.now.reach.keys [] }
    requires stands { is_some (node_at table.now.entries name.now) ≡ true }
    requires same { after.dim ≡ dim_of (scene_of table.now.entries) name.now }
    ensures redefined { IfOk result
        (λ p. IsRedefined table.now.entries parts.now.front.items name.now
        (figure_of after) p.entries) }
    ensures stuck { IsErrOf result DeltaError.Range
        → IsStuck table.now.entries name.now (figure_of after) }

    // Whatever it answers, at any values that follow the formulas.
    ensures few { (V : List ℕ → Figure)
        → IsOutcome table.now.entries name.now (figure_of after) V
        → steps.new
        ≤ steps.old + sum_by (cost table.now.entries V) (drop 1 parts.now.reach.keys) }
{
    let _ = order;
    let [_, later @ ..] = parts.reach.as_slice() else {
        unreachable!()
    };
    let change = changed_to(alloc, solid_of(table, name), after)?;
    carried(
        alloc,
        table,
        parts.front.as_slice(),
        name,
        later,
        change,
        steps,
    )
}

/// Gives a name another formula and solid.
fn set_made(table: &mut IndexMap<Name, Node>, name: &Name, formula: Formula, solid: Tiles)
    ensures { table.new.entries ≡ put_made table.old.entries name.now formula solid }
{
    if let Some(node) = table.get_mut(name) {
        node.formula = Some(formula);
        node.solid = solid;
    }
}

/// Puts another formula of a name in place, with the changes that follow, and answers how many names changed their cells.
/// Nothing here can fail.
fn install(
    table: &mut IndexMap<Name, Node>,
    mut pending: IndexMap<Name, Change>,
    name: &Name,
    formula: Formula,
) -> usize
    requires { is_some (change_at pending.entries name.now) ≡ true }
    ensures { IsInstalled table.old.entries table.new.entries name.now formula pending.entries result }
{
    let own = take_own(&mut pending, name);
    let names = own.names;
    let last = own.change;
    commit(table, pending);
    set_made(table, name, formula, last.after);
    names
}

/// The names of the parts, one after the other.
fn joined(parts: Parts) -> Result<Vec<Name>, NoMemory>
    ensures { IfOk result (λ v. v.items ≡ parts.front.items ++ parts.reach.keys) }
{
    let mut all = parts.front;
    match all.extend_from_slice(parts.reach.as_slice()) {
        Ok(()) => Ok(all),
        Err(_) => Err(NoMemory),
    }
}

/// The dimension of a formula, or none exactly where it has none, or another than the name that stands.
fn fitting(table: &IndexMap<Name, Node>, name: &Name, formula: &Formula) -> Option<usize>
    requires sized { AllSized table.now.entries }
    requires stands { is_some (node_at table.now.entries name.now) ≡ true }
    ensures { MatchOption result
        (misses_dim (scene_of table.now.entries) name.now formula.now ≡ true)
        (λ n. (misses_dim (scene_of table.now.entries) name.now formula.now ≡ false)
        × (formula_fits (scene_of table.now.entries) formula.now ≡ true)
        × (n ≡ formula_dim (scene_of table.now.entries) formula.now)
        × (n ≡ dim_of (scene_of table.now.entries) name.now)) }
{
    match dim_stated(table, formula) {
        Some(dim) => {
            if dim == dim_named(table, name) {
                Some(dim)
            } else {
                None
            }
        }
        None => None,
    }
}

/// Another formula under a name that stands for one. All changes are made and the meters of the watched
/// names prepared before the first change is put in place.
fn redefine<M: Meter, L: Ledger>(
    alloc: Global,
    table: &mut IndexMap<Name, Node>,
    slots: &mut Slots<M>,
    order: &mut Vec<Name>,
    name: &Name,
    formula: Formula,
    steps: &mut Steps<L>,
) -> Result<Changed, Refusal>
    requires kept { IsKept table.old.entries order.old.items }
    requires made { is_made (node_at table.old.entries name.now) ≡ true }
    requires present { lacks_operand (scene_of table.old.entries) name.now formula ≡ false }
    requires watched { IsWatched table.old.entries slots.old }
    ensures kept { IsKept table.new.entries order.new.items }
    ensures applies { Applies result (scene_of table.old.entries) (scene_of table.new.entries)
        (model.Def name.now formula) }
    ensures watched { StaysWatched table.new.entries slots.old slots.new }

    // Whatever it answers.
    ensures few { steps.new
        ≤ steps.old + work (scene_of table.old.entries) (model.Def name.now formula) }
{
    let _names = table.len();
    let parts = match free_parts(alloc, table, order.as_slice(), name, &formula) {
        Ok(parts) => parts,
        Err(refusal) => return Err(refusal),
    };
    let Some(dim) = fitting(table, name, &formula) else {
        return Err(Refusal::Dim);
    };
    let after = match evaluate(alloc, table, &formula, dim, steps) {
        Ok(after) => after,
        Err(refusal) => return Err(refusal),
    };
    let pending = match reformed(alloc, table, order.as_slice(), &parts, name, after, steps) {
        Ok(pending) => pending,
        Err(e) => return Err(Refusal::from(e)),
    };
    let Ok(whole) = joined(parts) else {
        return Err(Refusal::NoMemory);
    };
    let Ok(()) = prepare(alloc, table, slots, &pending) else {
        return Err(Refusal::NoMemory);
    };
    let names = install(table, pending, name, formula);
    slots.commit();
    *order = whole;
    Ok(Changed { names })
}

/// Whether a name stands for a formula, or none where it does not stand.
fn kind_of(table: &IndexMap<Name, Node>, name: &Name) -> Option<bool>
    ensures { result ≡ option_map (λ n. is_some n.formula) (node_at table.now.entries name.now) }
{
    match table.get(name) {
        Some(node) => Some(node.formula.is_some()),
        None => None,
    }
}

/// A name stands for a formula: a new name, or one that stood for another formula.
pub fn define<M: Meter, L: Ledger>(
    alloc: Global,
    table: &mut IndexMap<Name, Node>,
    slots: &mut Slots<M>,
    order: &mut Vec<Name>,
    name: Name,
    formula: Formula,
    steps: &mut Steps<L>,
) -> Result<Changed, Refusal>
    requires kept { IsKept table.old.entries order.old.items }
    requires well { IsWell (scene_of table.old.entries) }
    requires watched { IsWatched table.old.entries slots.old }
    ensures kept { IsKept table.new.entries order.new.items }
    ensures applies { Applies result (scene_of table.old.entries) (scene_of table.new.entries)
        (model.Def name formula) }
    ensures watched { StaysWatched table.new.entries slots.old slots.new }

    // Whatever it answers.
    ensures few { steps.new
        ≤ steps.old + work (scene_of table.old.entries) (model.Def name formula) }
{
    if lacks(table, &name, &formula) {
        return Err(Refusal::Name);
    }
    match kind_of(table, &name) {
        None => make(alloc, table, order, name, formula, steps),
        Some(false) => Err(Refusal::Kind),
        Some(true) => redefine(alloc, table, slots, order, &name, formula, steps),
    }
}
