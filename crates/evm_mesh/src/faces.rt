//! Faces files.
ghost use Rattle.std.specs.Prelude.{◌≡◌, ◌≤◌, ◌++◌, [], ◌∷◌, map, IfOk, OnOk};
ghost use Rattle.evm_rows.specs.Rows.{cells_of};
ghost use Rattle.evm_text.specs.Lines.{text_of};
ghost use Rattle.evm_formats.specs.FaceText.{face_file, face_line, faces_head, side_word};
ghost use Rattle.evm_mesh.specs.Sheets.{faces_in, faces_of_sheet, place_of, side_of};

use crate::sheets::{Sheet, Side, sheets};
use evm_rows::{NoMemory, Solid};
use evm_text::{append_count, append_number, append_numbers};
use std::alloc::Global;
use std::io::Write;

/// The faces file of a solid: `evm-faces 1 DIM`, and then the boxes of its faces, one a line. The faces come axis by axis, and on
/// an axis cut by cut, ascending; of a cut first what falls there, of which the solid lies on the side of smaller coordinates, and
/// then what rises, of which it lies on the side of greater. Each is cut into the boxes of its stated partition, in order. The
/// words of a line are the axis, counted from 1, the height of the cut, `f` or `r`, and the numbers of the lower corner of the box
/// and then of the upper one on the other axes, in plain decimal, with one space between each two. Each line is ended by a line
/// feed.
///
/// For each axis the rows are sorted and walked over once, and each cut takes as long as the sections below and above it. So a plan
/// of twice as many boxes, of half the size, takes about twice as long or a little more. It takes memory for the boxes of all faces, for the text, and for the rows a few times. The
/// one error is want of memory.
pub fn write_faces(alloc: Global, a: &Solid) -> Result<Vec<u8>, NoMemory>
    requires { 2 ≤ a.now.dim }
    ensures { IfOk result (λ v. v.items ≡ face_file a.now.dim (cells_of a.now)) }
{
    let faces = sheets(alloc, a.rows())?;
    let mut text = Vec::new(alloc);
    put_head(&mut text, a.dim())?;
    put_sheets(&mut text, &faces)?;
    Ok(text)
}

/// Appends line 1.
fn put_head(text: &mut Vec<u8>, dim: usize) -> Result<(), NoMemory>
    ensures { OnOk result (text.new.items ≡ text.old.items ++ (faces_head dim ++ 10 ∷ [])) }
{
    write!(text, "evm-faces 1 {dim}\n").map_err(|_| NoMemory)
}

/// Appends the lines of sheets.
fn put_sheets(text: &mut Vec<u8>, sheets: &[Sheet]) -> Result<(), NoMemory>
    ensures { OnOk result
        (text.new.items ≡ text.old.items ++ text_of (map face_line (faces_in sheets.now))) }
{
    for sheet in sheets {
        put_sheet(text, sheet)?;
    }
    Ok(())
}

/// Appends the lines of a sheet.
fn put_sheet(text: &mut Vec<u8>, sheet: &Sheet) -> Result<(), NoMemory>
    ensures { OnOk result
        (text.new.items ≡ text.old.items ++ text_of (map face_line (faces_of_sheet sheet.now))) }
{
    for index in 0..sheet.boxes.len() {
        let (lo, hi) = sheet.boxes.ends(index);
        put_place(text, sheet)?;
        append_numbers(text, lo)?;
        append_numbers(text, hi)?;
        text.push(b'\n')?;
    }
    Ok(())
}

/// Appends the words of a sheet: its axis, its height and the letter of its side.
fn put_place(text: &mut Vec<u8>, sheet: &Sheet) -> Result<(), NoMemory>
    ensures { OnOk result (text.new.items ≡ text.old.items ++ place_of sheet.now) }
{
    append_count(text, usize::from(sheet.axis) + 1)?;
    text.push(b' ')?;
    append_number(text, sheet.at)?;
    text.push(b' ')?;
    text.push(letter(sheet.side))?;
    Ok(())
}

/// The letter of a side.
fn letter(side: Side) -> u8
    ensures { result ∷ [] ≡ side_word (side_of side) }
{
    match side {
        Side::Falling => b'f',
        Side::Rising => b'r',
    }
}
