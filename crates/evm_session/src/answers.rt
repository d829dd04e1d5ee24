//! Carries out the command of a line, and says why a line is refused.

ghost use Rattle.std.specs.Prelude.{◌≡◌, ◌≤◌, ◌+◌, false};
ghost use Rattle.evm_model.specs.Files.{no_files};
ghost use Rattle.evm_model.specs.Steps.{turn_of};
ghost use Rattle.evm_model.specs.LineWork.{command_work};
ghost use Rattle.evm_session.specs.Answers.{Answers, around};
ghost use Rattle.evm_session.specs.Carried.{Carries};
ghost use Rattle.evm_session.specs.Requests.{names_file, request_of, line_request, CarriesOver};

use super::edits::{edit, edit_name};
use super::files::{load, save};
use super::lists::list;
use super::questions::{at, boundary, content, parts, point, report, show};
use super::refusals::Refusal;
use super::sections::{faces, project, section};
use super::slots::{meter, read, unmeter};
use evm_meter::Meter;
use evm_outside::Shelf;
use evm_rows::NoMemory;
use evm_scene::{BoxEdit, Edit, Scene};
use evm_script::{Command, read_line};
use evm_steps::Steps;
use std::alloc::Global;
use std::sync::ledger::Ledger;

/// Carries out a command that names no file.
fn carry_out_alone<M: Meter, L: Ledger>(
    scene: &mut Scene<M>,
    alloc: Global,
    command: &Command,
    out: &mut Vec<u8>,
    steps: &mut Steps<L>,
) -> Result<(), Refusal>
    requires { names_file command.now ≡ false }
    ensures carries { Carries result scene.old scene.new out.old.items out.new.items
        (turn_of no_files scene.old command.now) }
    ensures few { steps.new ≤ steps.old + command_work no_files scene.old command.now }
{
    match *command {
        Command::Blank => Ok(()),
        Command::Input { name, dim } => {
            edit_name(scene, alloc, Edit::Input { name, dim }, out, steps)
        }
        Command::Toggle { name, nums } => {
            let how = BoxEdit::Toggle;
            edit(scene, alloc, Edit::Box { how, name, nums }, out, steps)
        }
        Command::Add { name, nums } => {
            let how = BoxEdit::Add;
            edit(scene, alloc, Edit::Box { how, name, nums }, out, steps)
        }
        Command::Cut { name, nums } => {
            let how = BoxEdit::Cut;
            edit(scene, alloc, Edit::Box { how, name, nums }, out, steps)
        }
        Command::Def { name, formula } => {
            edit(scene, alloc, Edit::Def { name, formula }, out, steps)
        }
        Command::Drop { name } => edit_name(scene, alloc, Edit::Drop { name }, out, steps),
        Command::List => list(scene, alloc, out),
        Command::Show { name } => show(scene, alloc, &name, out),
        Command::Content { name } => content(scene, alloc, &name, out),
        Command::Boundary { name } => boundary(scene, alloc, &name, out),
        Command::At { name, nums } => at(scene, alloc, &name, &nums, out),
        Command::Point { name, nums } => point(scene, alloc, &name, &nums, out),
        Command::Section { name, axis, at } => section(scene, alloc, &name, &axis, &at, out),
        Command::Project { name, axis } => project(scene, alloc, &name, &axis, out),
        Command::Faces { name, axis } => faces(scene, alloc, &name, &axis, out),
        Command::Parts { name } => parts(scene, alloc, &name, out),
        Command::Report { name } => report(scene, alloc, &name, out),
        Command::Meter { slot, name } => meter(scene, alloc, slot, &name, out),
        Command::Read { slot } => read(scene, slot, out),
        Command::Unmeter { slot } => unmeter(scene, slot, out),
        Command::Load { .. } | Command::Save { .. } => unreachable!(),
    }
}

/// Carries out a command.
fn carry_out<M: Meter, S: Shelf, L: Ledger>(
    scene: &mut Scene<M>,
    alloc: Global,
    command: &Command,
    shelf: &mut S,
    out: &mut Vec<u8>,
    steps: &mut Steps<L>,
) -> Result<(), Refusal>
    ensures { CarriesOver result scene.old scene.new out.old.items out.new.items
        (around (S.files shelf.old) (S.faults shelf.old) (S.misses shelf.old) steps.old)
        (around (S.files shelf.new) (S.faults shelf.new) (S.misses shelf.new) steps.new)
        (request_of scene.old command.now) }
{
    match *command {
        Command::Load { name, form, file } => {
            load(scene, alloc, name, &form, &file, shelf, out, steps)
        }
        Command::Save { name, form, file } => save(scene, alloc, &name, &form, &file, shelf, out),
        _ => carry_out_alone(scene, alloc, command, out, steps),
    }
}

/// Carries out the command of a line.
fn carry_out_line<M: Meter, S: Shelf, L: Ledger>(
    scene: &mut Scene<M>,
    alloc: Global,
    line: &[u8],
    shelf: &mut S,
    out: &mut Vec<u8>,
    steps: &mut Steps<L>,
) -> Result<(), Refusal>
    ensures { CarriesOver result scene.old scene.new out.old.items out.new.items
        (around (S.files shelf.old) (S.faults shelf.old) (S.misses shelf.old) steps.old)
        (around (S.files shelf.new) (S.faults shelf.new) (S.misses shelf.new) steps.new)
        (line_request scene.old line.now) }
{
    match read_line(alloc, line) {
        Ok(command) => carry_out(scene, alloc, &command, shelf, out, steps),
        Err(error) => Err(Refusal::from(error)),
    }
}

/// Appends the reply to a line, and answers whether the line was not refused.
pub fn answer<M: Meter, S: Shelf, L: Ledger>(
    scene: &mut Scene<M>,
    steps: &mut Steps<L>,
    line: &[u8],
    alloc: Global,
    shelf: &mut S,
    out: &mut Vec<u8>,
) -> Result<bool, NoMemory>
    ensures { Answers result line.now scene.old scene.new out.old.items out.new.items
        (around (S.files shelf.old) (S.faults shelf.old) (S.misses shelf.old) steps.old)
        (around (S.files shelf.new) (S.faults shelf.new) (S.misses shelf.new) steps.new) }
{
    let before = out.len();
    match carry_out_line(scene, alloc, line, shelf, out, steps) {
        Ok(()) => Ok(true),
        Err(Refusal::NoMemory) => {
            out.truncate(before);
            Err(NoMemory)
        }
        Err(refusal) => {
            out.extend_from_slice(refusal.reply())?;
            Ok(false)
        }
    }
}
