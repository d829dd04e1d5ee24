//! The list of all names.

ghost use Rattle.std.specs.Prelude.{◌≡◌, option_map};
ghost use Rattle.evm_text.specs.Spaced.{spaced};
ghost use Rattle.evm_script.specs.Printed.{formula_words};
ghost use Rattle.evm_model.specs.Scene.{entry_of};
ghost use Rattle.evm_model.specs.Replies.{entries_text};
ghost use Rattle.evm_model.specs.Files.{no_files};
ghost use Rattle.evm_model.specs.Steps.{turn_of};
ghost use Rattle.evm_scene.specs.Shown.{formula_of};
ghost use Rattle.evm_session.specs.Carried.{Carries};
ghost use Rattle.evm_session.specs.Listed.{entry_line, what_text};
ghost use Rattle.evm_session.specs.Says.{Says};
ghost use Rattle.evm_script.specs.declared.command.Command.TheVariants as commands;

use super::refusals::Refusal;
use super::replies::{say, say_count, say_number};
use evm_meter::Meter;
use evm_rows::NoMemory;
use evm_scene::Scene;
use evm_script::{Formula, Name, write_formula};
use std::alloc::Global;

/// The number of names, and for each in the order of their making a line: the name, its dimension, and `input` or its formula.
pub fn list<M: Meter>(scene: &Scene<M>, alloc: Global, out: &mut Vec<u8>) -> Result<(), Refusal>
    ensures { Carries result scene.now scene.now out.old.items out.new.items
        (turn_of no_files scene.now commands.List) }
{
    say_number(out, scene.count() as u128)?;
    say_entries(scene, alloc, out)?;
    Ok(())
}

/// Appends the line of each name.
fn say_entries<M: Meter>(scene: &Scene<M>, alloc: Global, out: &mut Vec<u8>) -> Result<(), NoMemory>
    ensures { Says result out.old.items out.new.items (entries_text scene.now.entries) }
{
    scene.facts();
    let count = scene.count();
    for k in 0..count {
        say_entry(scene, alloc, scene.name_at(k), out)?;
    }
    Ok(())
}

/// Appends the line of a name; nothing where it does not stand.
fn say_entry<M: Meter>(
    scene: &Scene<M>,
    alloc: Global,
    name: &Name,
    out: &mut Vec<u8>,
) -> Result<(), NoMemory>
    ensures { Says result out.old.items out.new.items
        (entry_line (entry_of scene.now.entries name.now)) }
{
    let Some(entry) = scene.entry(name) else {
        return Ok(());
    };
    say(out, name.bytes())?;
    say(out, b" ")?;
    say_count(out, entry.dim as u128)?;
    say(out, b" ")?;
    say_what(alloc, scene.formula(name), out)?;
    say(out, b"\n")
}

/// Appends the words of a formula, or `input` where there is none.
fn say_what(alloc: Global, formula: Option<&Formula>, out: &mut Vec<u8>) -> Result<(), NoMemory>
    ensures { Says result out.old.items out.new.items
        (what_text (option_map (λ f. f.now) formula.entry)) }
{
    match formula {
        Some(formula) => say_formula(alloc, formula, out),
        None => say(out, b"input"),
    }
}

/// Appends the words of a formula.
fn say_formula(alloc: Global, formula: &Formula, out: &mut Vec<u8>) -> Result<(), NoMemory>
    ensures { Says result out.old.items out.new.items (spaced (formula_words formula.now)) }
{
    let text = write_formula(alloc, formula)?;
    say(out, text.as_slice())
}
