//! What follows `load` and `save`: a name, the form of a file, and the file.

ghost use Rattle.std.specs.Prelude.{◌≡◌, map};
ghost use Rattle.evm_text.specs.Numbers.{number};
ghost use Rattle.evm_script.specs.Files.{word_form, threshold_form, form_file, name_load, save_form, save_file, name_save};

use super::files::{FileName, LoadForm, SaveForm};
use super::names::Name;
use super::shapes::{is, read_number};

/// A name, and what a file that is loaded holds, with the file.
pub(crate) fn name_then_load(rest: &[&[u8]]) -> Option<(Name, (LoadForm, FileName))>
    ensures { result ≡ name_load (map (λ w. w.now) rest.now) }
{
    match rest {
        [name, words @ ..] => Name::of(name).zip(form_then_file(words)),
        _ => None,
    }
}

/// `evm FILE`, `boxes FILE`, `pgm T FILE` or `y4m T FILE`.
fn form_then_file(words: &[&[u8]]) -> Option<(LoadForm, FileName)>
    ensures { result ≡ form_file (map (λ w. w.now) words.now) }
{
    match words {
        [form, file] => word_form(form).zip(FileName::of(file)),
        [form, threshold, file] => threshold_form(form, threshold).zip(FileName::of(file)),
        _ => None,
    }
}

/// A form that has no threshold.
fn word_form(word: &[u8]) -> Option<LoadForm>
    ensures { result ≡ word_form word.now }
{
    if is(word, "evm") {
        Some(LoadForm::Evm)
    } else if is(word, "boxes") {
        Some(LoadForm::Boxes)
    } else {
        None
    }
}

/// A form that has a threshold.
fn threshold_form(word: &[u8], threshold: &[u8]) -> Option<LoadForm>
    ensures { result ≡ threshold_form word.now (number threshold.now) }
{
    if is(word, "pgm") {
        read_number(threshold).map(LoadForm::Pgm)
    } else if is(word, "y4m") {
        read_number(threshold).map(LoadForm::Y4m)
    } else {
        None
    }
}

/// A name, and how a solid is saved, with the file.
pub(crate) fn name_then_save(rest: &[&[u8]]) -> Option<(Name, (SaveForm, FileName))>
    ensures { result ≡ name_save (map (λ w. w.now) rest.now) }
{
    match rest {
        [name, words @ ..] => Name::of(name).zip(save_then_file(words)),
        _ => None,
    }
}

/// `evm FILE`, `boxes FILE`, `faces FILE` or `obj FILE`.
fn save_then_file(words: &[&[u8]]) -> Option<(SaveForm, FileName)>
    ensures { result ≡ save_file (map (λ w. w.now) words.now) }
{
    match words {
        [form, file] => save_form(form).zip(FileName::of(file)),
        _ => None,
    }
}

/// The form of a file that is saved.
fn save_form(word: &[u8]) -> Option<SaveForm>
    ensures { result ≡ save_form word.now }
{
    if is(word, "evm") {
        Some(SaveForm::Evm)
    } else if is(word, "boxes") {
        Some(SaveForm::Boxes)
    } else if is(word, "faces") {
        Some(SaveForm::Faces)
    } else if is(word, "obj") {
        Some(SaveForm::Obj)
    } else {
        None
    }
}
