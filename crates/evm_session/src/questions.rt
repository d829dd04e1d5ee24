//! Questions about the solid of a name.

ghost use Rattle.std.specs.Prelude.{◌≡◌};
ghost use Rattle.evm_model.specs.Files.{no_files};
ghost use Rattle.evm_model.specs.Steps.{turn_of};
ghost use Rattle.evm_session.specs.Carried.{Carries};
ghost use Rattle.evm_session.specs.Questions.{filled_text, placed_text};
ghost use Rattle.evm_script.specs.declared.command.Command.TheVariants as commands;

use super::cells::is_filled;
use super::named::tree_for;
use super::refusals::Refusal;
use super::replies::{say, say_number, say_parts, say_solid};
use super::reports::text_on;
use evm_cutting as measure;
use evm_member::{Place, place};
use evm_meter::Meter;
use evm_parts as components;
use evm_rows::limit;
use evm_scene::Scene;
use evm_script::{Name, Nums};
use std::alloc::Global;

/// The extreme vertices.
pub fn show<M: Meter>(
    scene: &Scene<M>,
    alloc: Global,
    name: &Name,
    out: &mut Vec<u8>,
) -> Result<(), Refusal>
    ensures { Carries result scene.now scene.now out.old.items out.new.items
        (turn_of no_files scene.now (commands.Show name.now)) }
{
    let Some(tree) = scene.kept(name) else {
        return Err(Refusal::Name);
    };
    let solid = tree.to_rows(alloc)?;
    say_solid(out, &solid)?;
    Ok(())
}

/// The number of cells.
pub fn content<M: Meter>(
    scene: &Scene<M>,
    alloc: Global,
    name: &Name,
    out: &mut Vec<u8>,
) -> Result<(), Refusal>
    ensures { Carries result scene.now scene.now out.old.items out.new.items
        (turn_of no_files scene.now (commands.Content name.now)) }
{
    let Some(tree) = scene.kept(name) else {
        return Err(Refusal::Name);
    };
    let cells = tree.content(alloc)?;
    say_number(out, cells)?;
    Ok(())
}

/// The number of faces between a cell and a place that is no cell.
pub fn boundary<M: Meter>(
    scene: &Scene<M>,
    alloc: Global,
    name: &Name,
    out: &mut Vec<u8>,
) -> Result<(), Refusal>
    ensures { Carries result scene.now scene.now out.old.items out.new.items
        (turn_of no_files scene.now (commands.Boundary name.now)) }
{
    let Some(tree) = scene.kept(name) else {
        return Err(Refusal::Name);
    };
    let solid = tree.to_rows(alloc)?;
    let faces = measure::boundary(alloc, solid.rows())?;
    say_number(out, faces)?;
    Ok(())
}

/// The parts: of each the number of its extreme vertices, its content, and the extreme vertices.
pub fn parts<M: Meter>(
    scene: &Scene<M>,
    alloc: Global,
    name: &Name,
    out: &mut Vec<u8>,
) -> Result<(), Refusal>
    ensures { Carries result scene.now scene.now out.old.items out.new.items
        (turn_of no_files scene.now (commands.Parts name.now)) }
{
    let Some(tree) = scene.kept(name) else {
        return Err(Refusal::Name);
    };
    tree.facts();
    let solid = tree.to_rows(alloc)?;
    let parts = components::parts(alloc, solid.rows())?;
    say_parts(out, alloc, &parts)?;
    Ok(())
}

/// One JSON object: the dimension, what the name stands for, its measures, the number of its parts, and its ends on each axis.
pub fn report<M: Meter>(
    scene: &Scene<M>,
    alloc: Global,
    name: &Name,
    out: &mut Vec<u8>,
) -> Result<(), Refusal>
    ensures { Carries result scene.now scene.now out.old.items out.new.items
        (turn_of no_files scene.now (commands.Report name.now)) }
{
    let Some(tree) = scene.kept(name) else {
        return Err(Refusal::Name);
    };
    let solid = tree.to_rows(alloc)?;
    let text = text_on(alloc, name, scene.formula(name), &solid)?;
    say(out, b"ok ")?;
    say(out, text.as_str().as_bytes())?;
    say(out, b"\n")?;
    Ok(())
}

/// Whether a cell is filled.
pub fn at<M: Meter>(
    scene: &Scene<M>,
    alloc: Global,
    name: &Name,
    nums: &Nums,
    out: &mut Vec<u8>,
) -> Result<(), Refusal>
    ensures { Carries result scene.now scene.now out.old.items out.new.items
        (turn_of no_files scene.now (commands.At name.now nums.now)) }
{
    let tree = tree_for(scene, name, nums)?;
    let limit = limit(tree.dim());
    let Some(cell) = nums.between(-limit, limit - 1) else {
        return Err(Refusal::Range);
    };
    let filled = is_filled(alloc, tree, cell.values())?;
    say(out, filled_text(filled))?;
    Ok(())
}

/// The reply that tells whether a cell is filled.
#[tactic(auto, unfolding(evm_model::specs::Replies::reply_text))]
fn filled_text(filled: bool) -> &'static [u8]
    ensures { result.now ≡ filled_text filled }
{
    if filled {
        b"ok filled\n"
    } else {
        b"ok empty\n"
    }
}

/// Where a point stands.
pub fn point<M: Meter>(
    scene: &Scene<M>,
    alloc: Global,
    name: &Name,
    nums: &Nums,
    out: &mut Vec<u8>,
) -> Result<(), Refusal>
    ensures { Carries result scene.now scene.now out.old.items out.new.items
        (turn_of no_files scene.now (commands.Point name.now nums.now)) }
{
    let tree = tree_for(scene, name, nums)?;
    let limit = limit(tree.dim());
    let Some(point) = nums.between(-limit, limit) else {
        return Err(Refusal::Range);
    };
    let solid = tree.to_rows(alloc)?;
    let place = place(solid.rows(), point.values());
    say(out, placed_text(place))?;
    Ok(())
}

/// The reply that tells where a point stands.
#[tactic(auto, unfolding(evm_model::specs::Replies::reply_text))]
fn placed_text(place: Place) -> &'static [u8]
    ensures { result.now ≡ placed_text place }
{
    match place {
        Place::Inside => b"ok inside\n",
        Place::Boundary => b"ok boundary\n",
        Place::Outside => b"ok outside\n",
    }
}
