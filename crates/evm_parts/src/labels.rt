// A label for each box: the least of those that hang together with it.
//
// Each box has a parent, itself or a box below it, and so one comes from it down to the box that is its own parent, the top. The boxes
// of a link come to one top, and the parents on the way there are moved up.
ghost use Rattle.std.specs.Prelude.{◌≡◌, ◌<◌, length, IfOk};
ghost use Rattle.std.specs.List.{range_with_len};
ghost use Rattle.evm_parts.specs.Labels.{AreLabels};
ghost use Rattle.evm_parts.specs.Links.{AreLinks};
ghost use Rattle.evm_parts.specs.Parents.{parent_at, AreParents, AreHigher, IsAbove, IsAlike};

use crate::neighbours::Link;
use evm_partition::Boxes;
use evm_rows::NoMemory;
use std::alloc::{AllocError, Global};

// The top that one comes to from a box. On the way each other box gets the parent of its parent.
fn top_of(parents: &mut [usize], from: usize) -> usize
    requires parents { AreParents parents.old }
    requires within { from < length parents.old }
    ensures top { parent_at parents.new result ≡ result }
    ensures above { IsAbove parents.old from result }
    ensures higher { AreHigher parents.old parents.new }
{
    let mut at = from;
    while parents[at] != at {
        let next = parents[parents[at]];
        parents[at] = next;
        at = next;
    }
    at
}

// Gives each box its top as its parent.
fn flatten(parents: &mut [usize])
    requires { AreParents parents.old }
    ensures higher { AreHigher parents.old parents.new }
    ensures alike { IsAlike parents.old (λ i. parent_at parents.new i) }
{
    for index in 0..parents.len() {
        parents[index] = parents[parents[index]];
    }
}

// As many boxes, each its own parent.
fn own_parents(alloc: Global, count: usize) -> Result<Vec<usize>, AllocError>
    ensures { IfOk result (λ v. v.items ≡ range_with_len 0 count) }
{
    let mut parents = Vec::with_capacity(alloc, count)?;
    for index in 0..count {
        parents.push(index)?;
    }
    Ok(parents)
}

/// The label of each box: the least box that a chain of neighbours leads to. Takes memory for a number a box.
pub(crate) fn labels(alloc: Global, boxes: &Boxes, links: &[Link]) -> Result<Vec<usize>, NoMemory>
    requires { AreLinks boxes.now.boxes links.now }
    ensures { IfOk result (λ v. AreLabels boxes.now.boxes v.items) }
{
    let mut parents = own_parents(alloc, boxes.len())?;
    let tops = parents.as_mut_slice();
    for link in links {
        let first = top_of(tops, link.first);
        let second = top_of(tops, link.second);
        tops[first.max(second)] = first.min(second);
    }
    flatten(tops);
    Ok(parents)
}
