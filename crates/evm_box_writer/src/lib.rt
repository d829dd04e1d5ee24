//! Writes solids as box files, version 1.
//!
//! `evm_partition` says which boxes a solid has, and `evm_formats` what the bytes of a box file state.
#![tactic(auto)]

ghost use Rattle.std.specs.Prelude.{◌≡◌, ◌+◌, ◌<◌, ◌≤◌, ◌++◌, [], ◌∷◌, Ok, IfOk, OnOk, length, map};
ghost use Rattle.evm_rows.specs.Rows.{cells_of};
ghost use Rattle.evm_formats.specs.BoxFile.{file_cells};
ghost use Rattle.evm_text.specs.Lines.{text_of};
ghost use Rattle.evm_formats.specs.BoxText.{box_file, box_line, head_line};

use evm_partition::{Boxes, split};
use evm_rows::{NoMemory, Solid};
use evm_text::{append_number, append_numbers};
use std::alloc::Global;
use std::io::Write;

/// Room for a number of up to five digits and the space before it.
const NUMBER_ROOM: usize = 6;

/// The box file of a solid: `evm-boxes 1 DIM`, and then the boxes of its stated partition in order, one a line. The numbers of a
/// box are those of its lower corner and then those of its upper one, in plain decimal, with one space between each two. Each line
/// is ended by a line feed.
///
/// The file is fixed by the solid alone, and reading it gives the solid again.
///
/// It takes memory for the boxes, and for the text: six bytes a number from the start, and more where numbers are longer. The one
/// error is want of memory.
pub fn write_boxes(alloc: Global, a: &Solid) -> Result<Vec<u8>, NoMemory>
    ensures text { IfOk result (λ v. v.items ≡ box_file a.now.dim (cells_of a.now)) }
    ensures again { IfOk result (λ v. file_cells a.now.dim v.items ≡ Ok (cells_of a.now)) }
{
    let boxes = split(alloc, a.rows())?;
    let numbers = boxes.len().saturating_mul(boxes.dim()).saturating_mul(2);
    let mut text = Vec::with_capacity(alloc, numbers.saturating_mul(NUMBER_ROOM))?;
    put_head(&mut text, boxes.dim())?;
    put_boxes(&mut text, &boxes)?;
    Ok(text)
}

/// Appends line 1.
fn put_head(text: &mut Vec<u8>, dim: usize) -> Result<(), NoMemory>
    ensures { OnOk result (text.new.items ≡ text.old.items ++ (head_line dim ++ 10 ∷ [])) }
{
    write!(text, "evm-boxes 1 {dim}\n").map_err(|_| NoMemory)
}

/// Appends the lines of boxes.
fn put_boxes(text: &mut Vec<u8>, boxes: &Boxes) -> Result<(), NoMemory>
    ensures { OnOk result
        (text.new.items ≡ text.old.items ++ text_of (map box_line boxes.now.boxes)) }
{
    for index in 0..boxes.len() {
        let (lo, hi) = boxes.ends(index);
        put_box(text, lo, hi)?;
    }
    Ok(())
}

/// Appends the line of a box.
fn put_box(text: &mut Vec<u8>, lo: &[i32], hi: &[i32]) -> Result<(), NoMemory>
    requires { 0 < length lo.now }
    ensures { OnOk result
        (text.new.items ≡ text.old.items
        ++ (box_line (record { lo = lo.now; hi = hi.now }) ++ 10 ∷ [])) }
{
    append_number(text, lo[0])?;
    append_numbers(text, &lo[1..])?;
    append_numbers(text, hi)?;
    text.push(b'\n')?;
    Ok(())
}

#[cfg(test)]
mod tests;
