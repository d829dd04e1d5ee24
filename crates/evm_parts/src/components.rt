//! The parts of a solid.
ghost use Rattle.std.specs.Prelude.{◌≡◌, ◌<◌, ◌≤◌, length, All, IfOk, OnOk};
ghost use Rattle.evm_cells.specs.Unions.{union_of};
ghost use Rattle.evm_rows.specs.Rows.{cells_of};
ghost use Rattle.evm_rows.specs.View.{vertices_of};
ghost use Rattle.evm_parts.specs.PartLists.{parts_of};
ghost use Rattle.evm_parts.specs.PartRows.{parts_at, AreApart, IsPartAppended};

use crate::labels::labels;
use crate::lists::Parts;
use crate::neighbours::links;
use crate::remainder::{is_main, main_label, remainder};
use crate::rows::rows_by_label;
use evm_partition::{Boxes, split};
use evm_rows::{NoMemory, Rows};
use evm_shapes::reduced;
use std::alloc::{AllocError, Global};

// Appends the rows of a part, and where they end.
fn append_part(part: &[i32], flat: &mut Vec<i32>, ends: &mut Vec<usize>) -> Result<(), AllocError>
    ensures { OnOk result
        (IsPartAppended part.now flat.old.items flat.new.items ends.old.items ends.new.items) }
{
    flat.extend_from_slice(part)?;
    ends.push(flat.len())?;
    Ok(())
}

// The unions of the boxes of one label, ascending by these. The boxes stand apart, so a row of a union is one that stands in an odd
// number of its boxes. Where most boxes have one label, their union is what the other boxes leave of the solid.
fn unions(alloc: Global, a: Rows<'_>, boxes: &Boxes, labels: &[usize]) -> Result<Parts, NoMemory>
    requires low { 0 < boxes.now.dim }
    requires high { boxes.now.dim ≤ 6 }
    requires many { length labels.now ≡ length boxes.now.boxes }
    requires within { All (λ label. label < length labels.now) labels.now }
    requires apart { AreApart boxes.now.dim boxes.now.boxes }
    requires dim { (vertices_of a).dim ≡ boxes.now.dim }
    requires whole { union_of boxes.now.dim boxes.now.boxes ≡ cells_of (vertices_of a) }
    ensures dim { IfOk result (λ p. p.dim ≡ boxes.now.dim) }
    ensures parts { IfOk result
        (λ p. p.parts ≡ parts_at boxes.now.dim boxes.now.boxes labels.now) }
{
    let dim = boxes.dim();
    let main = main_label(labels);
    let lists = rows_by_label(alloc, boxes, labels, main)?;
    let mut flat = Vec::new(alloc);
    let mut ends = Vec::new(alloc);
    for (index, label) in labels.iter().enumerate() {
        if *label == index {
            let part = if is_main(main, index) {
                remainder(alloc, a, boxes, labels, index)?
            } else {
                reduced(alloc, lists[index].as_slice(), dim)?
            };
            append_part(part.as_slice(), &mut flat, &mut ends)?;
        }
    }
    Ok(Parts::of_flat(dim, flat, ends))
}

/// The parts of a solid: the largest sets of its cells that hang together by faces of cells, in the order of their least cells. Edges
/// and corners join nothing. The empty solid has no part.
///
/// The solid is split into the boxes of its stated partition; neighbours among them are linked, and each box gets the least of those
/// that hang together with it as its label. A part that has most of the boxes is what the others leave of the solid, so its boxes are
/// not gone through; a solid of one part is copied. Each part is a list of rows of as many coordinates as the view has left. Memory is
/// taken for the boxes, their links, a list a box, the corners of all boxes but those of such a part, and the answer. The one error is
/// want of memory.
pub fn parts(alloc: Global, a: Rows<'_>) -> Result<Parts, NoMemory>
    ensures dim { IfOk result (λ p. p.dim ≡ (vertices_of a.entry).dim) }
    ensures parts { IfOk result (λ p. p.parts ≡ parts_of (vertices_of a.entry)) }
{
    let boxes = split(alloc, a)?;
    let found = links(alloc, &boxes)?;
    let lowest = labels(alloc, &boxes, found.as_slice())?;
    let roots = lowest.as_slice();
    unions(alloc, a, &boxes, roots)
}
