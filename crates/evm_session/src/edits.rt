//! Edits of the scene, and their replies.

ghost use Rattle.std.specs.Prelude.{◌≤◌, ◌+◌};
ghost use Rattle.evm_model.specs.Edits.{changed};
ghost use Rattle.evm_model.specs.Replies.{Changed};
ghost use Rattle.evm_model.specs.Steps.{edited};
ghost use Rattle.evm_model.specs.Work.{work};
ghost use Rattle.evm_scene.specs.Applied.{edit_view};
ghost use Rattle.evm_session.specs.Carried.{Carries};

use super::refusals::Refusal;
use super::replies::{put_number, reserve_number};
use evm_meter::Meter;
use evm_scene::{Edit, Scene};
use evm_steps::Steps;
use std::alloc::Global;
use std::sync::ledger::Ledger;

/// Carries out an edit of a solid, and tells how many names it changed. The room for the reply comes first, so that nothing
/// fails behind an edit that was made. Counts the steps that the edit takes.
pub fn edit<M: Meter, L: Ledger>(
    scene: &mut Scene<M>,
    alloc: Global,
    edit: Edit,
    out: &mut Vec<u8>,
    steps: &mut Steps<L>,
) -> Result<(), Refusal>
    ensures carries { Carries result scene.old scene.new out.old.items out.new.items
        (edited scene.old (edit_view edit) (Changed (changed scene.old (edit_view edit)))) }
    ensures few { steps.new ≤ steps.old + work scene.old (edit_view edit) }
{
    reserve_number(out)?;
    let done = scene.apply(alloc, edit, steps)?;
    put_number(out, done.names as u128);
    Ok(())
}

/// The same of an edit that makes an input or takes out a name: no other name changes, and so the reply says.
pub fn edit_name<M: Meter, L: Ledger>(
    scene: &mut Scene<M>,
    alloc: Global,
    edit: Edit,
    out: &mut Vec<u8>,
    steps: &mut Steps<L>,
) -> Result<(), Refusal>
    ensures carries { Carries result scene.old scene.new out.old.items out.new.items
        (edited scene.old (edit_view edit) (Changed 0)) }
    ensures few { steps.new ≤ steps.old + work scene.old (edit_view edit) }
{
    reserve_number(out)?;
    scene.apply(alloc, edit, steps)?;
    put_number(out, 0);
    Ok(())
}
