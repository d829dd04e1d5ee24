//! Sections and projections of the solid of a name, and its faces across an axis.

ghost use Rattle.std.specs.Prelude.{◌≡◌, ◌-◌, ◌<◌, ◌≤◌, true, false, IfOk, MatchOption};
ghost use Rattle.evm_cells.specs.Limits.{is_cell_coord};
ghost use Rattle.evm_cells.specs.Sections.{slice};
ghost use Rattle.evm_rows.specs.Rows.{cells_of};
ghost use Rattle.evm_model.specs.Files.{no_files};
ghost use Rattle.evm_model.specs.Steps.{turn_of};
ghost use Rattle.evm_session.specs.Carried.{Carries};
ghost use Rattle.evm_script.specs.declared.command.Command.TheVariants as commands;

use super::named::tree_and_axis;
use super::refusals::Refusal;
use super::replies::{say_cuts, say_solid};
use evm_faces::cut_faces;
use evm_meter::Meter;
use evm_rows::{NoMemory, Solid, limit};
use evm_scene::Scene;
use evm_script::{Name, Num};
use evm_shapes as shapes;
use evm_tiles::Tiles;
use std::alloc::Global;

/// The height that a number states, or `None` exactly where it is no coordinate of a cell of this dimension.
fn height_of(at: &Num, dim: usize) -> Option<i32>
    requires low { 0 < dim }
    requires high { dim ≤ 6 }
    ensures { MatchOption result (is_cell_coord dim at.now ≡ false)
        (λ found. (is_cell_coord dim at.now ≡ true) × (found ≡ at.now)) }
{
    let limit = limit(dim);
    at.between(-limit, limit - 1)
}

/// The section of a solid at a height on an axis. That of the first axis is looked for near the height alone.
fn section_of(alloc: Global, tree: &Tiles, along: usize, at: i32) -> Result<Solid, NoMemory>
    requires deep { 2 ≤ tree.now.dim }
    requires low { 0 < along }
    requires high { along ≤ tree.now.dim }
    requires height { is_cell_coord tree.now.dim at ≡ true }
    ensures dim { IfOk result (λ s. s.dim ≡ tree.now.dim - 1) }
    ensures cells { IfOk result
        (λ s. cells_of s ≡ slice (tree.now.dim - 1) (along - 1) at (cells_of tree.now)) }
{
    if along == 1 {
        let section = tree.section(alloc, at)?;
        Ok(section)
    } else {
        let whole = tree.to_rows(alloc)?;
        let section = shapes::slice(alloc, whole.rows(), along, at)?;
        Ok(section)
    }
}

/// The extreme vertices of the section at a height on an axis.
pub fn section<M: Meter>(
    scene: &Scene<M>,
    alloc: Global,
    name: &Name,
    axis: &Num,
    at: &Num,
    out: &mut Vec<u8>,
) -> Result<(), Refusal>
    ensures { Carries result scene.now scene.now out.old.items out.new.items
        (turn_of no_files scene.now (commands.Section name.now axis.now at.now)) }
{
    let found = tree_and_axis(scene, name, axis)?;
    let (tree, along) = found;
    let Some(at) = height_of(at, tree.dim()) else {
        return Err(Refusal::Range);
    };
    let section = section_of(alloc, tree, along, at)?;
    say_solid(out, &section)?;
    Ok(())
}

/// The extreme vertices of the solid with an axis left out.
pub fn project<M: Meter>(
    scene: &Scene<M>,
    alloc: Global,
    name: &Name,
    axis: &Num,
    out: &mut Vec<u8>,
) -> Result<(), Refusal>
    ensures { Carries result scene.now scene.now out.old.items out.new.items
        (turn_of no_files scene.now (commands.Project name.now axis.now)) }
{
    let found = tree_and_axis(scene, name, axis)?;
    let (tree, along) = found;
    let solid = tree.to_rows(alloc)?;
    let shadow = shapes::project(alloc, solid.rows(), along)?;
    say_solid(out, &shadow)?;
    Ok(())
}

/// How much rises and how much falls at each cut of an axis.
pub fn faces<M: Meter>(
    scene: &Scene<M>,
    alloc: Global,
    name: &Name,
    axis: &Num,
    out: &mut Vec<u8>,
) -> Result<(), Refusal>
    ensures { Carries result scene.now scene.now out.old.items out.new.items
        (turn_of no_files scene.now (commands.Faces name.now axis.now)) }
{
    let found = tree_and_axis(scene, name, axis)?;
    let (tree, along) = found;
    let solid = tree.to_rows(alloc)?;
    let cuts = cut_faces(alloc, solid.rows(), along)?;
    say_cuts(out, cuts.as_slice())?;
    Ok(())
}
