//! Reads the bytes of a file in the form that a command names.

ghost use Rattle.std.specs.Prelude.{◌≡◌, ◌≤◌, ◌<◌, ◌⊎◌, nat_abs, true};
ghost use Rattle.evm_formats.specs.BoxFile.{file_cells};
ghost use Rattle.evm_model.specs.Files.{evm_figure, figure_stated, figure_in, is_threshold, form_fits, form_in_range};
ghost use Rattle.evm_session.specs.Loads.{form_causes, image_causes, Tests, ReadsFigure};
ghost use Rattle.evm_formats.specs.Pgm.{pgm_cells};
ghost use Rattle.evm_formats.specs.Y4m.{y4m_cells};

use super::refusals::Refusal;
use evm_boxes::read_boxes;
use evm_rows::Solid;
use evm_script::{LoadForm, Num};
use evm_voxels::{read_pgm, read_y4m};
use std::alloc::Global;

/// The greatest dimension of solids that images make.
const IMAGE_DIM_MAX: usize = 3;

/// The greatest threshold of samples.
const THRESHOLD_MAX: i64 = 65535;

/// Tests whether a form has solids of dimension `dim`, which is else `Dim`, and then whether the threshold that it states is one,
/// which is else `Range`.
pub fn check_form(form: &LoadForm, dim: usize) -> Result<(), Refusal>
    ensures { Tests result (form_causes form.now dim) }
{
    match form {
        LoadForm::Evm | LoadForm::Boxes => Ok(()),
        LoadForm::Pgm(threshold) | LoadForm::Y4m(threshold) => check_images(threshold, dim),
    }
}

/// The same of images: they make solids of dimension 2 and 3, and thresholds go from 0 to 65535.
fn check_images(threshold: &Num, dim: usize) -> Result<(), Refusal>
    ensures { Tests result (image_causes threshold.now dim) }
{
    let threshold = threshold.value();
    if dim > IMAGE_DIM_MAX {
        return Err(Refusal::Dim);
    }
    if threshold < 0 || THRESHOLD_MAX < threshold {
        return Err(Refusal::Range);
    }
    Ok(())
}

/// The solid of dimension `dim` that bytes state in a form, which has solids of it. It is `Form` only where they state none, and
/// `NoMemory` may stand in place of either answer. Takes the memory of the form's reader.
#[tactic(auto, unfolding(evm_model::specs::Files::figure_in))]
pub fn read_form(alloc: Global, form: &LoadForm, dim: usize, bytes: &[u8]) -> Result<Solid, Refusal>
    requires low { 2 ≤ dim }
    requires high { dim ≤ 6 }
    requires fits { form_fits form.now dim ≡ true }
    requires range { form_in_range form.now ≡ true }
    ensures { ReadsFigure result (figure_in form.now dim bytes.now) }
{
    match form {
        LoadForm::Evm => read_evm(alloc, dim, bytes),
        LoadForm::Boxes => read_union(alloc, dim, bytes),
        LoadForm::Pgm(threshold) => read_stack(alloc, dim, sample(threshold), bytes),
        LoadForm::Y4m(threshold) => read_video(alloc, dim, sample(threshold), bytes),
    }
}

/// A threshold as a sample.
fn sample(threshold: &Num) -> u32
    requires { is_threshold threshold.now ≡ true }
    ensures value { result ≡ nat_abs threshold.now }
    ensures range { result ≤ 65535 }
{
    threshold.value() as u32
}

/// The solid of dimension `dim` whose file the bytes are.
fn read_evm(alloc: Global, dim: usize, bytes: &[u8]) -> Result<Solid, Refusal>
    requires low { 0 < dim }
    requires high { dim ≤ 6 }
    ensures { ReadsFigure result (evm_figure dim bytes.now) }
{
    let solid = evm_file::read(alloc, bytes)?;
    if solid.dim() != dim {
        return Err(Refusal::Form);
    }
    solid.facts();
    Ok(solid)
}

/// The union of the boxes that the bytes state.
fn read_union(alloc: Global, dim: usize, bytes: &[u8]) -> Result<Solid, Refusal>
    requires low { 0 < dim }
    requires high { dim ≤ 6 }
    ensures { ReadsFigure result (figure_stated dim (file_cells dim bytes.now)) }
{
    Ok(read_boxes(alloc, dim, bytes)?)
}

/// The solid of a stack of images.
fn read_stack(alloc: Global, dim: usize, threshold: u32, bytes: &[u8]) -> Result<Solid, Refusal>
    requires dim { (dim ≡ 2) ⊎ (dim ≡ 3) }
    requires threshold { threshold ≤ 65535 }
    ensures { ReadsFigure result (figure_stated dim (pgm_cells dim threshold bytes.now)) }
{
    Ok(read_pgm(alloc, dim, threshold, bytes)?)
}

/// The solid of a video.
fn read_video(alloc: Global, dim: usize, threshold: u32, bytes: &[u8]) -> Result<Solid, Refusal>
    requires dim { (dim ≡ 2) ⊎ (dim ≡ 3) }
    requires threshold { threshold ≤ 65535 }
    ensures { ReadsFigure result (figure_stated dim (y4m_cells dim threshold bytes.now)) }
{
    Ok(read_y4m(alloc, dim, threshold, bytes)?)
}
