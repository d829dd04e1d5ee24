//! The faces of a solid, cut by cut.
ghost use Rattle.std.specs.Prelude.{◌≡◌, ◌-◌, ◌<◌, ◌≤◌, ◌+◌, ◌++◌, true, All, IfOk, OnOk};
ghost use Rattle.evm_cells.specs.Limits.{is_point_coord};
ghost use Rattle.evm_rows.specs.Rows.{cells_of};
ghost use Rattle.evm_rows.specs.View.{vertices_of};
ghost use Rattle.evm_formats.specs.FaceText.{faces_of};
ghost use Rattle.evm_mesh.specs.Sheets.{IsSheet, faces_between, faces_in, first_faces};

use evm_boolean::sub;
use evm_partition::{Boxes, split};
use evm_rows::{NoMemory, Rows, Solid, own, xor};
use evm_sections::Walk;
use evm_shapes::swap;
use std::alloc::Global;

/// On which side of a face the solid lies: of a falling face on that of smaller coordinates, of a rising one on that of greater.
#[derive(Clone, Copy, PartialEq, Eq)]
pub(crate) enum Side {
    Falling,
    Rising,
}

/// What falls or what rises at a cut of an axis, counted from 0, as the boxes of its stated partition: a box is a face.
#[derive(Drop)]
pub(crate) struct Sheet {
    pub(crate) axis: u8,
    pub(crate) at: i32,
    pub(crate) side: Side,
    pub(crate) boxes: Boxes,
}

/// The faces of a solid: axis by axis, cut by cut, what falls there and then what rises.
///
/// For each axis the solid is turned so that this axis is the first, and walked once: each couplet takes the section below a cut
/// to the one above it, and the two differences are what falls and what rises there. So it takes a sort of the rows an axis, and
/// for each cut as long as its two sections are. Takes memory for the boxes of all faces, for the rows three times, and for a few
/// sections at a time.
pub(crate) fn sheets(alloc: Global, a: Rows<'_>) -> Result<Vec<Sheet>, NoMemory>
    requires { 2 ≤ (vertices_of a).dim }
    ensures sheets { IfOk result (λ v. All (IsSheet (vertices_of a.entry).dim) v.items) }
    ensures faces { IfOk result
        (λ v. faces_in v.items
        ≡ faces_of (vertices_of a.entry).dim (cells_of (vertices_of a.entry))) }
{
    let mut sheets = Vec::new(alloc);
    append_axis(alloc, a, 0, &mut sheets)?;
    let mut turned = own(alloc, a)?;
    for axis in 1..a.dim() {
        turned = swap(alloc, turned.rows(), 1, axis + 1)?;
        append_axis(alloc, turned.rows(), axis as u8, &mut sheets)?;
    }
    Ok(sheets)
}

// Appends the faces across the first axis, as faces across an axis.
fn append_axis(
    alloc: Global,
    a: Rows<'_>,
    axis: u8,
    sheets: &mut Vec<Sheet>,
) -> Result<(), NoMemory>
    requires deep { 2 ≤ (vertices_of a).dim }
    requires within { axis < (vertices_of a).dim }
    requires sheets { All (IsSheet (vertices_of a).dim) sheets.old.items }
    ensures sheets { OnOk result (All (IsSheet (vertices_of a.entry).dim) sheets.new.items) }
    ensures faces { OnOk result
        (faces_in sheets.new.items
        ≡ faces_in sheets.old.items
        ++ first_faces ((vertices_of a.entry).dim - 1) (cells_of (vertices_of a.entry)) axis) }
{
    let mut walk = Walk::of(a);
    let mut below = Solid::empty(alloc, a.dim() - 1);
    while let Some((at, couplet)) = walk.next_couplet() {
        let above = xor(alloc, below.rows(), couplet)?;
        append_cut(alloc, &below, &above, Place { axis, at }, sheets)?;
        below = above;
    }
    Ok(())
}

// An axis, counted from 0, and a height on it.
#[derive(Clone, Copy)]
struct Place {
    axis: u8,
    at: i32,
}

// Appends what falls and what rises where one section ends and another begins.
fn append_cut(
    alloc: Global,
    below: &Solid,
    above: &Solid,
    place: Place,
    sheets: &mut Vec<Sheet>,
) -> Result<(), NoMemory>
    requires same { above.now.dim ≡ below.now.dim }
    requires within { place.axis < below.now.dim + 1 }
    requires height { is_point_coord (below.now.dim + 1) place.at ≡ true }
    requires sheets { All (IsSheet (below.now.dim + 1)) sheets.old.items }
    ensures sheets { OnOk result (All (IsSheet (below.now.dim + 1)) sheets.new.items) }
    ensures faces { OnOk result
        (faces_in sheets.new.items
        ≡ faces_in sheets.old.items
        ++ faces_between below.now.dim place.axis place.at (cells_of below.now)
        (cells_of above.now)) }
{
    let falls = sub(alloc, below.rows(), above.rows())?;
    let boxes = split(alloc, falls.rows())?;
    sheets.push(Sheet {
        axis: place.axis,
        at: place.at,
        side: Side::Falling,
        boxes,
    })?;
    let rises = sub(alloc, above.rows(), below.rows())?;
    let boxes = split(alloc, rises.rows())?;
    sheets.push(Sheet {
        axis: place.axis,
        at: place.at,
        side: Side::Rising,
        boxes,
    })?;
    Ok(())
}
