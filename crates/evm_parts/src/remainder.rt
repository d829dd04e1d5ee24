// The part that has most of the boxes, as what the others leave of the solid.
ghost use Rattle.std.specs.Prelude.{◌≡◌, ℕ, ◌↔◌, ◌<◌, ◌≤◌, length, Some, IfOk, IsTrue};
ghost use Rattle.evm_cells.specs.Unions.{union_of};
ghost use Rattle.evm_rows.specs.Rows.{cells_of};
ghost use Rattle.evm_rows.specs.View.{vertices_of};
ghost use Rattle.evm_cells.specs.Vertices.{evm};
ghost use Rattle.evm_parts.specs.Labels.{labelled, unlabelled, votes_for, IsMost};
ghost use Rattle.evm_parts.specs.PartRows.{AreApart, IsUnion};

use crate::rows::rows_of_others;
use evm_partition::Boxes;
use evm_rows::{NoMemory, Rows, Solid, xor};
use evm_shapes::reduced;
use std::alloc::Global;

// A label: the one that more than half of the boxes have, if there is one. Each vote for a label takes back one against it.
fn voted(labels: &[usize]) -> usize
    ensures { (label : ℕ) → IsMost labels.now label → result ≡ label }
{
    let mut voted = 0;
    let mut votes: usize = 0;
    for label in labels {
        if *label == voted {
            votes += 1;
        } else if votes == 0 {
            voted = *label;
            votes = 1;
        } else {
            votes -= 1;
        }
    }
    voted
}

// How many boxes have the label.
fn votes_for(labels: &[usize], label: usize) -> usize
    ensures { result ≡ votes_for label labels.now }
{
    let mut votes: usize = 0;
    for other in labels {
        if *other == label {
            votes += 1;
        }
    }
    votes
}

/// The label that more than half of the boxes have. Takes no memory.
pub(crate) fn main_label(labels: &[usize]) -> Option<usize>
    ensures { (label : ℕ) → (result ≡ Some label) ↔ IsMost labels.now label }
{
    let label = voted(labels);
    let votes = votes_for(labels, label);
    if labels.len() - votes < votes {
        Some(label)
    } else {
        None
    }
}

/// Whether this is the label, if there is one. Takes no memory.
pub(crate) fn is_main(main: Option<usize>, label: usize) -> bool
    ensures { IsTrue result ↔ (main ≡ Some label) }
{
    match main {
        Some(one) => one == label,
        None => false,
    }
}

// The union of the boxes of all other labels.
fn others(alloc: Global, boxes: &Boxes, labels: &[usize], label: usize) -> Result<Solid, NoMemory>
    requires low { 0 < boxes.now.dim }
    requires high { boxes.now.dim ≤ 6 }
    requires many { length labels.now ≡ length boxes.now.boxes }
    requires apart { AreApart boxes.now.dim boxes.now.boxes }
    ensures dim { IfOk result (λ s. s.dim ≡ boxes.now.dim) }
    ensures rows { IfOk result
        (λ s. s.rows ≡ evm boxes.now.dim
        (union_of boxes.now.dim (unlabelled label labels.now boxes.now.boxes))) }
{
    let dim = boxes.dim();
    let rows = rows_of_others(alloc, boxes, labels, label)?;
    let odd = reduced(alloc, rows.as_slice(), dim)?;
    Ok(Solid::from_rows(dim, odd))
}

/// The rows of the part of a label: the solid's without those of the boxes of all other labels. The boxes of the label are not looked
/// at, so this is the shorter way where most boxes have it.
///
/// Takes memory for the corners of the other boxes, and for as many rows as the solid and the others have.
pub(crate) fn remainder(
    alloc: Global,
    a: Rows<'_>,
    boxes: &Boxes,
    labels: &[usize],
    label: usize,
) -> Result<Vec<i32>, NoMemory>
    requires many { length labels.now ≡ length boxes.now.boxes }
    requires high { boxes.now.dim ≤ 6 }
    requires apart { AreApart boxes.now.dim boxes.now.boxes }
    requires dim { (vertices_of a).dim ≡ boxes.now.dim }
    requires whole { union_of boxes.now.dim boxes.now.boxes ≡ cells_of (vertices_of a) }
    ensures { IfOk result
        (λ v. IsUnion boxes.now.dim (labelled label labels.now boxes.now.boxes) v.items) }
{
    let rest = others(alloc, boxes, labels, label)?;
    let part = xor(alloc, a, rest.rows())?;
    Ok(part.into_flat())
}
