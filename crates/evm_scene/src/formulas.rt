//! Formulas over the names of a table: their operands, dimensions and solids.

ghost use Rattle.std.specs.Prelude.{◌≡◌, ◌+◌, ◌≤◌, ◌↔◌, ℕ, List, true, false, is_some, IfOk, IsErrOf, MatchOption};
ghost use Rattle.evm_delta.specs.Shapes.{Fits, op1_dim};
ghost use Rattle.evm_model.specs.Orders.{is_among};
ghost use Rattle.evm_model.specs.Scene.{operands, dim_of, formula_fits, formula_dim, formula_in_range};
ghost use Rattle.evm_model.specs.Edits.{lacks_operand};
ghost use Rattle.evm_formulas.specs.Stated.{figure_of};
ghost use Rattle.evm_scene.specs.Tables.{node_at, kept, scene_of, AllSized};
ghost use Rattle.evm_formulas.specs.Combined.{combine_of};
ghost use Rattle.evm_formulas.specs.Operations.{shape_of, shape_stays};
ghost use Rattle.evm_scene.specs.Definitions.{is_missing, IsMade, IsValue};
ghost use Rattle.evm_scene.specs.Works.{figure_cuts, formula_cuts};

use super::edit::Refusal;
use super::node::Node;
use super::numbers::{box_of, stated};
use evm_boolean::Op2;
use evm_delta::{DeltaError, Op1};
use evm_formulas::operations::{Operation, operation_of};
use evm_formulas::ranges::{is_axis, is_box, is_height, is_range, is_shift, less_one, one_more};
use evm_formulas::shapes::shape;
use evm_formulas::solids::combine;
use evm_rows::{NoMemory, Solid};
use evm_script::{Formula, Name, Operands};
use evm_steps::Steps;
use evm_tiles::Tiles;
use indexmap::IndexMap;
use std::alloc::Global;
use std::sync::ledger::Ledger;

/// Whether an operand is another name than the one that is being made, and does not stand.
fn is_lacking(table: &IndexMap<Name, Node>, name: &Name, operand: &Name) -> bool
    ensures { result ≡ is_missing (scene_of table.now.entries) name.now operand.now }
{
    operand != name && !table.contains_key(operand)
}

/// Whether some operand of a formula is lacking.
#[tactic(auto, using(evm_formulas::proofs::Stated::names_read))]
pub fn lacks(table: &IndexMap<Name, Node>, name: &Name, formula: &Formula) -> bool
    ensures { result ≡ lacks_operand (scene_of table.now.entries) name.now formula.now }
{
    match formula.operands() {
        Operands::Two(a, b) => is_lacking(table, name, &a) || is_lacking(table, name, &b),
        Operands::One(a) => is_lacking(table, name, &a),
        Operands::None => false,
    }
}

/// The dimension of a name, 0 where it does not stand.
pub fn dim_named(table: &IndexMap<Name, Node>, name: &Name) -> usize
    requires sized { AllSized table.now.entries }
    ensures value { result ≡ dim_of (scene_of table.now.entries) name.now }
    ensures low { is_some (node_at table.now.entries name.now) ≡ true → 2 ≤ result }
    ensures high { result ≤ 6 }
{
    match table.get(name) {
        Some(node) => node.dim,
        None => 0,
    }
}

/// This dimension, or none exactly where it does not fit.
fn only(fits: bool, dim: usize) -> Option<usize>
    ensures { MatchOption result (fits ≡ false) (λ n. (fits ≡ true) × (n ≡ dim)) }
{
    if fits { Some(dim) } else { None }
}

/// The dimension of a formula, or none exactly where it has none: its operands differ in it, it states no axis of theirs or
/// not as many numbers as they ask for, or solids have no such dimension.
pub fn dim_stated(table: &IndexMap<Name, Node>, formula: &Formula) -> Option<usize>
    requires sized { AllSized table.now.entries }
    ensures { MatchOption result (formula_fits (scene_of table.now.entries) formula.now ≡ false)
        (λ n. (formula_fits (scene_of table.now.entries) formula.now ≡ true)
        × (n ≡ formula_dim (scene_of table.now.entries) formula.now)) }
{
    match *formula {
        Formula::Or { a, b }
        | Formula::And { a, b }
        | Formula::Sub { a, b }
        | Formula::Xor { a, b } => {
            let dim = dim_named(table, &a);
            only(dim == dim_named(table, &b), dim)
        }
        Formula::Box { dim, nums } => match stated(dim) {
            Some(n) => only(nums.len() == 2 * n, n),
            None => None,
        },
        Formula::Shift { a, nums } => {
            let dim = dim_named(table, &a);
            only(nums.len() == dim, dim)
        }
        Formula::Mirror { a, axis } => {
            let dim = dim_named(table, &a);
            only(is_axis(dim, axis), dim)
        }
        Formula::Swap { a, i, j } => {
            let dim = dim_named(table, &a);
            only(is_axis(dim, i) && is_axis(dim, j), dim)
        }
        Formula::Clip { a, nums } => {
            let dim = dim_named(table, &a);
            only(nums.len() == 2 * dim, dim)
        }
        Formula::Slice { a, axis, .. } | Formula::Proj { a, axis } => {
            less_one(dim_named(table, &a), axis)
        }
        Formula::Lift { a, axis, .. } => one_more(dim_named(table, &a), axis),
    }
}

/// Whether the numbers that a formula states are in their limits, where its operands stand and it fits them.
fn in_range(table: &IndexMap<Name, Node>, formula: &Formula) -> bool
    requires sized { AllSized table.now.entries }
    requires present { (o : List ℕ) → is_among o (operands formula.now) ≡ true
        → is_some (node_at table.now.entries o) ≡ true }
    requires fits { formula_fits (scene_of table.now.entries) formula.now ≡ true }
    ensures { result ≡ formula_in_range (scene_of table.now.entries) formula.now }
{
    match *formula {
        Formula::Box { nums, .. } => is_box(nums.len() / 2, nums.values()),
        Formula::Shift { a, nums } => is_shift(dim_named(table, &a), nums.values()),
        Formula::Clip { a, nums } => is_box(dim_named(table, &a), nums.values()),
        Formula::Slice { a, at, .. } => is_height(dim_named(table, &a), at),
        Formula::Lift { a, lo, hi, .. } => is_range(dim_named(table, &a) + 1, lo, hi),
        _ => true,
    }
}

/// The solid that is kept for a name.
pub fn solid_of<'a>(table: &'a IndexMap<Name, Node>, name: &Name) -> &'a Tiles
    requires sized { AllSized table.now.entries }
    requires stands { is_some (node_at table.now.entries name.now) ≡ true }
    ensures value { figure_of result.now ≡ kept table.now.entries name.now }
    ensures dim { result.now.dim ≡ dim_of (scene_of table.now.entries) name.now }
{
    match table.get(name) {
        Some(node) => &node.solid,
        None => unreachable!(),
    }
}

/// A Boolean of the solids of two names.
fn both<L: Ledger>(
    alloc: Global,
    table: &IndexMap<Name, Node>,
    op: Op2,
    a: &Name,
    b: &Name,
    steps: &mut Steps<L>,
) -> Result<Solid, NoMemory>
    requires sized { AllSized table.now.entries }
    requires first { is_some (node_at table.now.entries a.now) ≡ true }
    requires second { is_some (node_at table.now.entries b.now) ≡ true }
    requires same { dim_of (scene_of table.now.entries) b.now
        ≡ dim_of (scene_of table.now.entries) a.now }
    ensures value { IfOk result
        (λ s. figure_of s
        ≡ combine_of op (kept table.now.entries a.now) (kept table.now.entries b.now)) }
    ensures dim { IfOk result (λ s. s.dim ≡ dim_of (scene_of table.now.entries) a.now) }

    // Whatever it answers.
    ensures few { steps.new
        ≤ steps.old
        + (figure_cuts (kept table.now.entries a.now) + figure_cuts (kept table.now.entries b.now)) }
{
    combine(alloc, op, solid_of(table, a), solid_of(table, b), steps)
}

/// A shape of the solid of a name. It is `Range` only where the shape moves some cell out of the limits, and a solid only where it
/// moves none.
fn one<L: Ledger>(
    alloc: Global,
    table: &IndexMap<Name, Node>,
    op: &Op1,
    a: &Name,
    steps: &mut Steps<L>,
) -> Result<Solid, DeltaError>
    requires sized { AllSized table.now.entries }
    requires stands { is_some (node_at table.now.entries a.now) ≡ true }
    requires fits { Fits op.now (dim_of (scene_of table.now.entries) a.now) }
    ensures value { IfOk result
        (λ s. figure_of s ≡ shape_of op.now (kept table.now.entries a.now)) }
    ensures dim { IfOk result
        (λ s. s.dim ≡ op1_dim op.now (dim_of (scene_of table.now.entries) a.now)) }
    ensures stays { IfOk result (λ _. shape_stays op.now (kept table.now.entries a.now) ≡ true) }
    ensures range { IsErrOf result DeltaError.Range
        → shape_stays op.now (kept table.now.entries a.now) ≡ false }

    // Whatever it answers.
    ensures few { steps.new ≤ steps.old + figure_cuts (kept table.now.entries a.now) }
{
    shape(alloc, op, solid_of(table, a), steps)
}

/// The solid of a formula whose operands stand and which fits them, in its dimension, which is given.
///
/// It is `Range` only where a number that it states is out of its limits, or it moves some cell out of them, and a solid only where
/// neither holds. Takes memory for the rows of its operands, and for the answer.
pub fn evaluate<L: Ledger>(
    alloc: Global,
    table: &IndexMap<Name, Node>,
    formula: &Formula,
    dim: usize,
    steps: &mut Steps<L>,
) -> Result<Solid, Refusal>
    requires sized { AllSized table.now.entries }
    requires present { (o : List ℕ) → is_among o (operands formula.now) ≡ true
        → is_some (node_at table.now.entries o) ≡ true }
    requires fits { formula_fits (scene_of table.now.entries) formula.now ≡ true }
    requires dim { dim ≡ formula_dim (scene_of table.now.entries) formula.now }
    ensures made { IsMade result (scene_of table.now.entries) formula.now (kept table.now.entries)
        (IsValue dim formula.now (kept table.now.entries)) }

    // Whatever it answers: a step for each cut of an operand at most, and none where a stated number is out of its limits.
    ensures few { steps.new ≤ steps.old + formula_cuts formula.now (kept table.now.entries) }
    ensures early { formula_in_range (scene_of table.now.entries) formula.now ≡ false
        → steps.new ≡ steps.old }
{
    if !in_range(table, formula) {
        return Err(Refusal::Range);
    }
    match operation_of(formula, dim) {
        Operation::Both { op, a, b } => Ok(both(alloc, table, op, &a, &b, steps)?),
        Operation::Shape { op, a } => Ok(one(alloc, table, &op, &a, steps)?),
        Operation::Block { nums } => box_of(alloc, dim, &nums),
    }
}
