//! Files of a shelf that are put in place of the cells of an input, and solids that are placed as files.

ghost use Rattle.std.specs.Prelude.{ℕ, ◌≡◌, ◌≤◌, true, IfOk};
ghost use Rattle.evm_model.specs.Files.{bytes_in, save_fits};
ghost use Rattle.evm_formulas.specs.Stated.{figure_of};
ghost use Rattle.evm_session.specs.Answers.{around};
ghost use Rattle.evm_session.specs.Loads.{FindsInput};
ghost use Rattle.evm_session.specs.Requests.{request_of, CarriesOver};
ghost use Rattle.evm_script.specs.declared.command.Command.TheVariants as commands;

use super::edits::edit;
use super::readers::{check_form, read_form};
use super::refusals::Refusal;
use super::replies::{put_number, reserve_number};
use evm_box_writer::write_boxes;
use evm_mesh::{write_faces, write_obj};
use evm_meter::Meter;
use evm_outside::Shelf;
use evm_rows::{NoMemory, Solid};
use evm_scene::{Edit, Scene};
use evm_script::{FileName, LoadForm, Name, SaveForm};
use evm_steps::Steps;
use std::alloc::Global;
use std::sync::ledger::Ledger;

/// The dimension of the input that a file is to be loaded into, or the first cause why nothing can be loaded, whatever the file:
/// `Name`, `Kind`, `Dim` or `Range`. Takes no memory.
fn find_input<M: Meter>(scene: &Scene<M>, name: &Name, form: &LoadForm) -> Result<usize, Refusal>
    ensures found { FindsInput result scene.now name.now form.now }
    ensures low { IfOk result (λ dim. 2 ≤ dim) }
    ensures high { IfOk result (λ dim. dim ≤ 6) }
{
    scene.facts();
    let Some(entry) = scene.entry(name) else {
        return Err(Refusal::Name);
    };
    if !entry.input {
        return Err(Refusal::Kind);
    }
    check_form(form, entry.dim)?;
    Ok(entry.dim)
}

/// Puts the cells that a file states in place of those of an input, and tells how many names changed. The room for the reply
/// comes before the file.
///
/// Without a refusal before the file is fetched, it is `Missing` or `Shelf` where none was fetched, `Form` where its bytes state
/// no solid of the input's dimension, and `Range` where a formula would move a cell out of the limits. Takes memory for the bytes
/// and for what they state. Counts the steps of the edit.
pub fn load<M: Meter, S: Shelf, L: Ledger>(
    scene: &mut Scene<M>,
    alloc: Global,
    name: Name,
    form: &LoadForm,
    file: &FileName,
    shelf: &mut S,
    out: &mut Vec<u8>,
    steps: &mut Steps<L>,
) -> Result<(), Refusal>
    ensures { CarriesOver result scene.old scene.new out.old.items out.new.items
        (around (S.files shelf.old) (S.faults shelf.old) (S.misses shelf.old) steps.old)
        (around (S.files shelf.new) (S.faults shelf.new) (S.misses shelf.new) steps.new)
        (request_of scene.old (commands.Load name form.now file.now)) }
{
    let dim = find_input(scene, &name, form)?;
    reserve_number(out)?;
    let bytes = shelf.fetch(alloc, file.bytes())?;
    let solid = read_form(alloc, form, dim, bytes.as_slice())?;
    edit(scene, alloc, Edit::Replace { name, solid }, out, steps)
}

/// Whether solids of a dimension are saved in a form. Takes no memory.
fn can_save(form: &SaveForm, dim: usize) -> bool
    ensures { result ≡ save_fits form.now dim }
{
    match form {
        SaveForm::Obj => dim == 3,
        _ => true,
    }
}

/// The bytes of the file of a solid in a form.
#[tactic(auto, unfolding(evm_model::specs::Files::bytes_in))]
fn write_form(alloc: Global, form: &SaveForm, solid: &Solid) -> Result<Vec<u8>, NoMemory>
    requires deep { 2 ≤ solid.now.dim }
    requires fits { save_fits form.now solid.now.dim ≡ true }
    ensures { IfOk result (λ bytes. bytes.items ≡ bytes_in form.now (figure_of solid.now)) }
{
    match form {
        SaveForm::Evm => evm_file::write(alloc, solid),
        SaveForm::Boxes => write_boxes(alloc, solid),
        SaveForm::Faces => write_faces(alloc, solid),
        SaveForm::Obj => write_obj(alloc, solid),
    }
}

/// Places the solid of a name as a file of a form, and tells how many bytes it has. The room for the reply comes before the file.
///
/// It is `Name` where the name does not stand, `Dim` where the form has no solids of its dimension, and `Shelf` where the shelf
/// failed. Takes memory for the rows and the bytes, and for the boxes and faces that the form writes.
pub fn save<M: Meter, S: Shelf>(
    scene: &Scene<M>,
    alloc: Global,
    name: &Name,
    form: &SaveForm,
    file: &FileName,
    shelf: &mut S,
    out: &mut Vec<u8>,
) -> Result<(), Refusal>
    // It takes no step.
    ensures { (steps : ℕ) → CarriesOver result scene.now scene.now out.old.items out.new.items
        (around (S.files shelf.old) (S.faults shelf.old) (S.misses shelf.old) steps)
        (around (S.files shelf.new) (S.faults shelf.new) (S.misses shelf.new) steps)
        (request_of scene.now (commands.Save name.now form.now file.now)) }
{
    scene.facts();
    let Some(tree) = scene.kept(name) else {
        return Err(Refusal::Name);
    };
    tree.facts();
    if !can_save(form, tree.dim()) {
        return Err(Refusal::Dim);
    }
    let solid = tree.to_rows(alloc)?;
    let bytes = write_form(alloc, form, &solid)?;
    reserve_number(out)?;
    shelf.place(alloc, file.bytes(), bytes.as_slice())?;
    put_number(out, bytes.len() as u128);
    Ok(())
}
