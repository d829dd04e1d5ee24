//! Prints a command as a line, and a formula as its words.

ghost use Rattle.std.specs.Prelude.{◌≡◌, ◌++◌, ◌∷◌, IfOk, OnOk, Some, Ok, codes, true};
ghost use Rattle.evm_outside.specs.Shelves.{is_file_name};
ghost use Rattle.evm_text.specs.Words.{words};
ghost use Rattle.evm_script.specs.Words.{is_name};
ghost use Rattle.evm_script.specs.Formulas.{formula_of};
ghost use Rattle.evm_script.specs.Line.{command as line_command};
ghost use Rattle.evm_text.specs.Spaced.{spaced};
ghost use Rattle.evm_script.specs.Printed.{printed, formula_words, load_words, save_words, FormulaKeepsRules, FormKeepsRules, KeepsRules, IsReadAgain, IsFormulaAgain};
ghost use Rattle.evm_script.specs.declared.command.Command as commands;
ghost use Rattle.evm_script.specs.declared.formula.Formula as formulas;

use super::command::Command;
use super::files::{FileName, LoadForm, SaveForm};
use super::formula::Formula;
use super::names::Name;
use super::texts::{
    put_first_number, put_form_file, put_name, put_name_number, put_name_numbers, put_name_three,
    put_name_two, put_number_name, put_number_numbers, put_threshold_file, put_two_names, put_word,
};
use std::alloc::{AllocError, Global};

/// Room for the text of each command: the definition by a shift takes the most, 219 bytes.
const TEXT_ROOM: usize = 224;

/// The line of a command, without a line feed: its words with one space between them, numbers in
/// plain decimal without leading zeros. A blank line prints nothing.
///
/// It takes memory for the text alone, reserved once.
///
/// # Errors
///
/// `AllocError` where there is none for the text.
pub fn write_line(alloc: Global, command: &Command) -> Result<Vec<u8>, AllocError>
    ensures text { IfOk result (λ v. v.items ≡ printed command.now) }
    ensures back { IfOk result (λ v. line_command v.items ≡ Ok command.now) }
{
    let mut text = Vec::with_capacity(alloc, TEXT_ROOM)?;
    put_command(&mut text, command)?;
    Ok(text)
}

/// The words of a formula with one space between them, as they stand after `def NAME `.
///
/// It takes memory for the text alone, reserved once.
///
/// # Errors
///
/// `AllocError` where there is none for the text.
pub fn write_formula(alloc: Global, formula: &Formula) -> Result<Vec<u8>, AllocError>
    ensures text { IfOk result (λ v. v.items ≡ spaced (formula_words formula.now)) }
    ensures back { IfOk result (λ v. formula_of (words v.items) ≡ Some formula.now) }
{
    let mut text = Vec::with_capacity(alloc, TEXT_ROOM)?;
    put_formula(&mut text, formula)?;
    Ok(text)
}

/// Appends the text of a command, whose names, numbers and files keep their rules.
fn put_command(text: &mut Vec<u8>, command: &Command) -> Result<(), AllocError>
    ensures text { OnOk result (text.new.items ≡ text.old.items ++ printed command.now) }
    ensures rules { OnOk result (KeepsRules command.now) }
{
    match command {
        Command::Blank => Ok(()),
        Command::Input { name, dim } => put_name_number(text, b"input", name, dim),
        Command::Toggle { name, nums } => put_name_numbers(text, b"toggle", name, nums),
        Command::Add { name, nums } => put_name_numbers(text, b"add", name, nums),
        Command::Cut { name, nums } => put_name_numbers(text, b"cut", name, nums),
        Command::Load { name, form, file } => put_load(text, name, form, file),
        Command::Def { name, formula } => put_definition(text, name, formula),
        Command::Drop { name } => put_name(text, b"drop", name),
        Command::Show { name } => put_name(text, b"show", name),
        Command::Content { name } => put_name(text, b"content", name),
        Command::Boundary { name } => put_name(text, b"boundary", name),
        Command::At { name, nums } => put_name_numbers(text, b"at", name, nums),
        Command::Point { name, nums } => put_name_numbers(text, b"point", name, nums),
        Command::Section { name, axis, at } => put_name_two(text, b"section", name, axis, at),
        Command::Project { name, axis } => put_name_number(text, b"project", name, axis),
        Command::Faces { name, axis } => put_name_number(text, b"faces", name, axis),
        Command::Parts { name } => put_name(text, b"parts", name),
        Command::Report { name } => put_name(text, b"report", name),
        Command::Save { name, form, file } => put_save(text, name, form, file),
        Command::List => put_word(text, b"list"),
        Command::Meter { slot, name } => put_number_name(text, b"meter", slot, name),
        Command::Read { slot } => put_first_number(text, b"read", slot),
        Command::Unmeter { slot } => put_first_number(text, b"unmeter", slot),
    }
}

/// Appends the text of a load.
fn put_load(
    text: &mut Vec<u8>,
    name: &Name,
    form: &LoadForm,
    file: &FileName,
) -> Result<(), AllocError>
    ensures text { OnOk result (text.new.items
        ≡ text.old.items ++ spaced (codes "load" ∷ name.now ∷ load_words form.now file.now)) }
    ensures rule { OnOk result (is_name name.now ≡ true) }
    ensures form_rule { OnOk result (FormKeepsRules form.now) }
    ensures file_rule { OnOk result (is_file_name file.now ≡ true) }
{
    match form {
        LoadForm::Evm => put_form_file(text, b"load", name, b"evm", file),
        LoadForm::Boxes => put_form_file(text, b"load", name, b"boxes", file),
        LoadForm::Pgm(threshold) => put_threshold_file(
            text, b"load", name, b"pgm", threshold, file,
        ),
        LoadForm::Y4m(threshold) => put_threshold_file(
            text, b"load", name, b"y4m", threshold, file,
        ),
    }
}

/// Appends the text of a save.
fn put_save(
    text: &mut Vec<u8>,
    name: &Name,
    form: &SaveForm,
    file: &FileName,
) -> Result<(), AllocError>
    ensures text { OnOk result (text.new.items
        ≡ text.old.items ++ spaced (codes "save" ∷ name.now ∷ save_words form.now file.now)) }
    ensures rule { OnOk result (is_name name.now ≡ true) }
    ensures file_rule { OnOk result (is_file_name file.now ≡ true) }
{
    match form {
        SaveForm::Evm => put_form_file(text, b"save", name, b"evm", file),
        SaveForm::Boxes => put_form_file(text, b"save", name, b"boxes", file),
        SaveForm::Faces => put_form_file(text, b"save", name, b"faces", file),
        SaveForm::Obj => put_form_file(text, b"save", name, b"obj", file),
    }
}

/// Appends the text of a definition.
#[tactic(auto, using(crate::proofs::Spaced::spaced_formula))]
fn put_definition(text: &mut Vec<u8>, name: &Name, formula: &Formula) -> Result<(), AllocError>
    ensures text { OnOk result (text.new.items
        ≡ text.old.items ++ spaced (codes "def" ∷ name.now ∷ formula_words formula.now)) }
    ensures rule { OnOk result (is_name name.now ≡ true) }
    ensures rules { OnOk result (FormulaKeepsRules formula.now) }
{
    put_name(text, b"def", name)?;
    text.push(b' ')?;
    put_formula(text, formula)
}

/// Appends the words of a formula, whose names and numbers keep their rules.
fn put_formula(text: &mut Vec<u8>, formula: &Formula) -> Result<(), AllocError>
    ensures text { OnOk result (text.new.items
        ≡ text.old.items ++ spaced (formula_words formula.now)) }
    ensures rules { OnOk result (FormulaKeepsRules formula.now) }
{
    match formula {
        Formula::Or { a, b } => put_two_names(text, b"or", a, b),
        Formula::And { a, b } => put_two_names(text, b"and", a, b),
        Formula::Sub { a, b } => put_two_names(text, b"sub", a, b),
        Formula::Xor { a, b } => put_two_names(text, b"xor", a, b),
        Formula::Box { dim, nums } => put_number_numbers(text, b"box", dim, nums),
        Formula::Shift { a, nums } => put_name_numbers(text, b"shift", a, nums),
        Formula::Mirror { a, axis } => put_name_number(text, b"mirror", a, axis),
        Formula::Swap { a, i, j } => put_name_two(text, b"swap", a, i, j),
        Formula::Clip { a, nums } => put_name_numbers(text, b"clip", a, nums),
        Formula::Slice { a, axis, at } => put_name_two(text, b"slice", a, axis, at),
        Formula::Proj { a, axis } => put_name_number(text, b"proj", a, axis),
        Formula::Lift { a, axis, lo, hi } => put_name_three(text, b"lift", a, axis, lo, hi),
    }
}

/// The law of printing, as a statement alone: the text of each command is a line that is read as
/// this command, so that two commands with one text are one; and the words of each formula's text
/// are read as this formula.
pub fn printed_lines_are_read_again()
    ensures again { (c : commands.Command) → KeepsRules c → IsReadAgain c }
    ensures told_apart { (c d : commands.Command) → KeepsRules c → KeepsRules d
        → printed c ≡ printed d → c ≡ d }
    ensures formulas { (f : formulas.Formula) → FormulaKeepsRules f → IsFormulaAgain f }
{}
