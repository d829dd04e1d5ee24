//! Meshes of solids in space.
ghost use Rattle.std.specs.Prelude.{◌≡◌, ◌++◌, true, All, map, IfOk, OnOk};
ghost use Rattle.evm_cells.specs.Places.{ascending};
ghost use Rattle.evm_rows.specs.Rows.{cells_of};
ghost use Rattle.evm_text.specs.Lines.{text_of};
ghost use Rattle.evm_formats.specs.ObjText.{obj_file, polygon_line, vertex_line};
ghost use Rattle.evm_mesh.specs.Sheets.{IsSheet, corner_words, faces_in, faces_of_sheet};

use crate::sheets::{Sheet, sheets};
use crate::vertices::{Point, corners_of, number_of, vertices};
use evm_rows::{NoMemory, Solid};
use evm_text::{append_count, append_numbers};
use std::alloc::Global;

/// The mesh of a solid of dimension 3 in Wavefront OBJ: a line `v X Y Z` for each vertex, ascending, and then a line `f A B C D`
/// for each box of a face, in the order of the faces file, with the numbers of its four corners among the vertices, counted from
/// 1. The corners of a face run counterclockwise where it is seen from outside the solid, in a right-handed system. Each line is
/// ended by a line feed; an empty solid has no line.
///
/// The boxes of all faces are kept once, as in `write_faces`. Their corners, four a face, are sorted, and each of those that is left
/// is a vertex; a corner finds its number among them by a binary search. Where faces of different sizes meet, a vertex may lie
/// inside an edge of another face. It takes memory for the boxes, for the corners and for the text, and for the rows a few times.
/// The one error is want of memory.
pub fn write_obj(alloc: Global, a: &Solid) -> Result<Vec<u8>, NoMemory>
    requires { a.now.dim ≡ 3 }
    ensures { IfOk result (λ v. v.items ≡ obj_file (cells_of a.now)) }
{
    let faces = sheets(alloc, a.rows())?;
    let corners = vertices(alloc, &faces)?;
    let mut text = Vec::new(alloc);
    put_vertices(&mut text, &corners)?;
    put_sheets(&mut text, &corners, &faces)?;
    Ok(text)
}

/// Appends the lines of vertices.
fn put_vertices(text: &mut Vec<u8>, vertices: &[Point]) -> Result<(), NoMemory>
    ensures { OnOk result
        (text.new.items ≡ text.old.items ++ text_of (map vertex_line vertices.now)) }
{
    for vertex in vertices {
        text.push(b'v')?;
        append_numbers(text, vertex)?;
        text.push(b'\n')?;
    }
    Ok(())
}

/// Appends the lines of faces.
fn put_sheets(text: &mut Vec<u8>, vertices: &[Point], sheets: &[Sheet]) -> Result<(), NoMemory>
    requires ascends { ascending vertices.now ≡ true }
    requires sheets { All (IsSheet 3) sheets.now }
    ensures { OnOk result
        (text.new.items
        ≡ text.old.items ++ text_of (map (polygon_line vertices.now) (faces_in sheets.now))) }
{
    for sheet in sheets {
        put_sheet(text, vertices, sheet)?;
    }
    Ok(())
}

/// Appends the lines of the faces of a sheet.
fn put_sheet(text: &mut Vec<u8>, vertices: &[Point], sheet: &Sheet) -> Result<(), NoMemory>
    requires ascends { ascending vertices.now ≡ true }
    requires sheet { IsSheet 3 sheet.now }
    ensures { OnOk result
        (text.new.items
        ≡ text.old.items ++ text_of (map (polygon_line vertices.now) (faces_of_sheet sheet.now))) }
{
    for index in 0..sheet.boxes.len() {
        let (lo, hi) = sheet.boxes.ends(index);
        text.push(b'f')?;
        put_corners(text, vertices, &corners_of(sheet, lo, hi))?;
        text.push(b'\n')?;
    }
    Ok(())
}

/// Appends the numbers of corners, with a space before each.
fn put_corners(text: &mut Vec<u8>, vertices: &[Point], corners: &[Point]) -> Result<(), NoMemory>
    requires { ascending vertices.now ≡ true }
    ensures { OnOk result
        (text.new.items ≡ text.old.items ++ corner_words vertices.now corners.now) }
{
    for corner in corners {
        text.push(b' ')?;
        append_count(text, number_of(vertices, *corner))?;
    }
    Ok(())
}
