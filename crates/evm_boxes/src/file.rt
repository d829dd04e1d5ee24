//! Reads a box file, line by line.

ghost use Rattle.std.specs.Prelude.{◌≡◌, ◌+◌, ◌^◌, ◌<◌, ◌≤◌, ◌↔◌, Err, length, All, IfOk, IsErrOf};
ghost use Rattle.evm_text.specs.Lines.{lines};
ghost use Rattle.evm_formats.specs.BoxFile.{boxes_of_line, boxes_of_lines, boxes_of_file, file_cells};
ghost use Rattle.evm_formats.specs.declared.boxes.BoxFileError.TheVariants.{Head, Dim, NoMemory};
ghost use Rattle.evm_boxes.specs.BoxRows.{IsBoxRow};
ghost use Rattle.evm_boxes.specs.Reading.{Adds, Gathers, HasBoxes, Reads};

use super::line::{head_dim, read_line};
use super::union::join_rows;
use super::{BoxFileError, BoxRow};
use evm_rows::Solid;
use evm_text::first_line;
use std::alloc::Global;

/// The union of the boxes that the bytes of a box file state, where dimension `dim` is asked for; or the first refusal.
///
/// The bytes are read once, line by line, and none is copied. It takes memory for the boxes, 56 bytes each, and that of
/// their union on top of it (see [`join`](super::join)); a refusal takes none beside the boxes before it.
///
/// # Errors
///
/// `Head` where there is no line 1 or it is not `evm-boxes 1 DIM`; `Dim` where DIM is not `dim`; and else, for the first
/// line that is wrong, counted from 1 and skipped lines too, `Line` where it does not consist of exactly 2 n numbers, and
/// `Range` where some `lo` is not below its `hi` or one of the two is past the limits.
///
/// `NoMemory` may stand in place of another answer where a box stands before the first line that is wrong. So `Head` and
/// `Dim` come whatever memory there is, and so does the refusal of a line that stands before all boxes.
pub fn read_boxes(alloc: Global, dim: usize, bytes: &[u8]) -> Result<Solid, BoxFileError>
    requires low { 0 < dim }
    requires high { dim ≤ 6 }
    ensures dim { IfOk result (λ s. s.dim ≡ dim) }
    ensures answer { Reads result (file_cells dim bytes.now) }

    // Memory is asked for a box alone, so these come whatever memory there is.
    ensures head { IsErrOf result Head ↔ (file_cells dim bytes.now ≡ Err Head) }
    ensures other_dim { IsErrOf result Dim ↔ (file_cells dim bytes.now ≡ Err Dim) }
    ensures memory { IsErrOf result NoMemory → HasBoxes (boxes_of_file dim) (lines bytes.now) }
{
    match read_file(alloc, dim, bytes) {
        Ok(rows) => match join_rows(alloc, dim, rows) {
            Ok(solid) => Ok(solid),
            Err(_) => Err(BoxFileError::NoMemory),
        },
        Err(error) => Err(error),
    }
}

/// The boxes that a file states.
fn read_file(alloc: Global, dim: usize, bytes: &[u8]) -> Result<Vec<BoxRow>, BoxFileError>
    requires low { 0 < dim }
    requires high { dim ≤ 6 }
    ensures boxes { IfOk result (λ rows. All (IsBoxRow dim) rows.items) }
    ensures answer { Gathers result (boxes_of_file dim (lines bytes.now)) }
    ensures memory { IsErrOf result NoMemory → HasBoxes (boxes_of_file dim) (lines bytes.now) }
{
    let Some((first, rest)) = first_line(bytes) else {
        return Err(BoxFileError::Head);
    };
    match head_dim(first) {
        None => Err(BoxFileError::Head),
        Some(stated) if stated != dim as i64 => Err(BoxFileError::Dim),
        Some(_) => read_lines(alloc, dim, rest),
    }
}

/// The boxes that the lines after the first state.
fn read_lines(alloc: Global, dim: usize, text: &[u8]) -> Result<Vec<BoxRow>, BoxFileError>
    requires low { 0 < dim }
    requires high { dim ≤ 6 }
    requires small { length text.now + 1 < 2 ^ 64 }
    ensures boxes { IfOk result (λ rows. All (IsBoxRow dim) rows.items) }
    ensures answer { Gathers result (boxes_of_lines dim 2 (lines text.now)) }
    ensures memory { IsErrOf result NoMemory → HasBoxes (boxes_of_lines dim 2) (lines text.now) }
{
    let mut rows = Vec::new(alloc);
    let mut rest = text;
    let mut number = 1;
    while let Some((line, after)) = first_line(rest) {
        rest = after;
        number += 1;
        if let Err(error) = add_line(dim, number, line, &mut rows) {
            return Err(error);
        }
    }
    Ok(rows)
}

/// Adds the box that a line states, if it states one.
fn add_line(
    dim: usize,
    number: usize,
    line: &[u8],
    rows: &mut Vec<BoxRow>,
) -> Result<(), BoxFileError>
    requires low { 0 < dim }
    requires high { dim ≤ 6 }
    requires boxes { All (IsBoxRow dim) rows.old.items }
    ensures boxes { All (IsBoxRow dim) rows.new.items }
    ensures answer { Adds result rows.old.items rows.new.items (boxes_of_line dim number line.now) }
{
    match read_line(dim, number, line) {
        Ok(None) => Ok(()),
        Ok(Some(row)) => match rows.push(row) {
            Ok(()) => Ok(()),
            Err(_) => Err(BoxFileError::NoMemory),
        },
        Err(error) => Err(error),
    }
}
