//! Edits of a scene.

ghost use Rattle.std.specs.Prelude.{◌+◌, ◌≤◌};
ghost use Rattle.evm_model.specs.Work.{work};
ghost use Rattle.evm_scene.specs.Applied.{Applies, edit_view};

use super::added::input;
use super::boxes::edit_by_box;
use super::defined::define;
use super::edit::{Changed, Edit, Refusal};
use super::removed::remove;
use super::replaced::replace;
use super::scene::Scene;
use evm_meter::Meter;
use evm_steps::Steps;
use std::alloc::Global;
use std::sync::ledger::Ledger;

impl<M: Meter> Scene<M> {
    /// Makes an edit, and answers how many names stood before and after and changed their cells.
    ///
    /// A refused edit leaves the scene and all readings as they are; the refusal is the first cause that holds, in the order of
    /// `Refusal`, or `NoMemory`, which may come at any edit. Takes memory for the change of each name that changes, and for what of
    /// its tree the change meets, and of each watched name that changes for what is near its change. Another solid of an input or
    /// formula, and a new formula, take the rows of the solid before, of the operands and of the solid after as well.
    ///
    /// A step is one combination of two sections, at a height of the first axis at which a solid changes. Steps are taken for the
    /// formulas that have a changed operand, near the changes of their operands, and for the cuts of the operands of a new formula.
    /// Exclusive ors and windows of solids take none, so edits by a box and other solids take none at their own name.
    pub fn apply<L: Ledger>(
        &mut self,
        alloc: Global,
        edit: Edit,
        steps: &mut Steps<L>,
    ) -> Result<Changed, Refusal>
        ensures applies { Applies result self.old self.new (edit_view edit) }

        // Whatever it answers.
        ensures few { steps.new ≤ steps.old + work self.old (edit_view edit) }
    {
        self.facts();
        match edit {
            Edit::Input { name, dim } => input(alloc, &mut self.table, &mut self.order, name, dim),
            Edit::Box { how, name, nums } => {
                edit_by_box(
                    alloc,
                    &mut self.table,
                    &mut self.slots,
                    self.order.as_slice(),
                    how,
                    &name,
                    &nums,
                    steps,
                )
            }
            Edit::Replace { name, solid } => {
                replace(
                    alloc,
                    &mut self.table,
                    &mut self.slots,
                    self.order.as_slice(),
                    &name,
                    solid,
                    steps,
                )
            }
            Edit::Def { name, formula } => {
                define(
                    alloc,
                    &mut self.table,
                    &mut self.slots,
                    &mut self.order,
                    name,
                    formula,
                    steps,
                )
            }
            Edit::Drop { name } => remove(&mut self.table, &self.slots, &mut self.order, &name),
        }
    }
}
