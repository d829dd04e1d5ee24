//! The corners of faces in space, and their numbers.
ghost use Rattle.std.specs.Prelude.{◌≡◌, ◌<◌, ◌++◌, [], ◌∷◌, true, All, IfOk, OnOk, length, flat_map};
ghost use Rattle.evm_cells.specs.Places.{ascending, before, with_at};
ghost use Rattle.evm_formats.specs.ObjText.{face_corners, mesh_vertices, vertex_number};
ghost use Rattle.evm_mesh.specs.Sheets.{IsSheet, face_of, faces_in, faces_of_sheet};

use crate::sheets::{Sheet, Side};
use evm_rows::NoMemory;
use std::alloc::Global;

/// A point of space.
pub(crate) type Point = [i32; 3];

/// The corners of all faces, each once, ascending: the vertices of the mesh. Takes memory for four corners a face, sorted in place.
pub(crate) fn vertices(alloc: Global, sheets: &[Sheet]) -> Result<Vec<Point>, NoMemory>
    requires { All (IsSheet 3) sheets.now }
    ensures vertices { IfOk result (λ v. v.items ≡ mesh_vertices (faces_in sheets.now)) }
    ensures ascends { IfOk result (λ v. ascending v.items ≡ true) }
{
    let mut corners = Vec::new(alloc);
    append_corners(&mut corners, sheets)?;
    corners.sort_unstable();
    corners.dedup();
    Ok(corners)
}

// Appends the corners of all faces.
fn append_corners(corners: &mut Vec<Point>, sheets: &[Sheet]) -> Result<(), NoMemory>
    requires { All (IsSheet 3) sheets.now }
    ensures { OnOk result
        (corners.new.items
        ≡ corners.old.items ++ flat_map face_corners (faces_in sheets.now)) }
{
    for sheet in sheets {
        append_sheet(corners, sheet)?;
    }
    Ok(())
}

// Appends the corners of the faces of a sheet.
fn append_sheet(corners: &mut Vec<Point>, sheet: &Sheet) -> Result<(), NoMemory>
    requires { IsSheet 3 sheet.now }
    ensures { OnOk result
        (corners.new.items
        ≡ corners.old.items ++ flat_map face_corners (faces_of_sheet sheet.now)) }
{
    for index in 0..sheet.boxes.len() {
        let (lo, hi) = sheet.boxes.ends(index);
        corners.extend_from_slice(&corners_of(sheet, lo, hi))?;
    }
    Ok(())
}

/// The corners of a box of a sheet, one after another round it, so that they run counterclockwise where the face is seen from
/// outside the solid in a right-handed system.
pub(crate) fn corners_of(sheet: &Sheet, lo: &[i32], hi: &[i32]) -> [Point; 4]
    requires axis { sheet.now.axis < 3 }
    requires lo { length lo.now ≡ 2 }
    requires hi { length hi.now ≡ 2 }
    ensures { result
        ≡ face_corners (face_of sheet.now (record { lo = lo.now; hi = hi.now })) }
{
    let corner = |first: i32, second: i32| corner_at(sheet.axis, sheet.at, first, second);
    if (sheet.side == Side::Rising) == (sheet.axis == 1) {
        [
            corner(lo[0], lo[1]),
            corner(hi[0], lo[1]),
            corner(hi[0], hi[1]),
            corner(lo[0], hi[1]),
        ]
    } else {
        [
            corner(lo[0], lo[1]),
            corner(lo[0], hi[1]),
            corner(hi[0], hi[1]),
            corner(hi[0], lo[1]),
        ]
    }
}

// The point at a height of an axis, counted from 0, with these numbers on the other two.
fn corner_at(axis: u8, at: i32, first: i32, second: i32) -> Point
    requires { axis < 3 }
    ensures { result ≡ with_at axis at (first ∷ second ∷ []) }
{
    match axis {
        0 => [at, first, second],
        1 => [first, at, second],
        _ => [first, second, at],
    }
}

/// The number of a corner among the vertices, from 1 on.
pub(crate) fn number_of(vertices: &[Point], corner: Point) -> usize
    requires { ascending vertices.now ≡ true }
    ensures { result ≡ vertex_number vertices.now corner }
{
    vertices.partition_point(|vertex| is_before(vertex, &corner)) + 1
}

// Whether a point comes before another, in lexicographic order.
fn is_before(point: &Point, other: &Point) -> bool
    ensures { result ≡ before point.now other.now }
{
    point.cmp(other).is_lt()
}
