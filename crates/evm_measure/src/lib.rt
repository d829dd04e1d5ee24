//! Content and boundary content of a view, by recursion on its dimension.
#![tactic(auto)]

ghost use Rattle.std.specs.Prelude.{◌≡◌, IfOk};
ghost use Rattle.evm_cells.specs.Vertices.{cells};
ghost use Rattle.evm_cells.specs.Measures.{content, boundary};
ghost use Rattle.evm_rows.specs.View.{vertices_of};

mod plane;

use crate::plane::{Rooms, measure_plane};
use evm_rows::{NoMemory, Rows, Solid, xor_into};
use evm_sections::marks::Marks;
use evm_sections::{Walk, counted};
use std::alloc::Global;

// The length of the runs of a view of dimension 1.
fn runs(a: Rows<'_>) -> u128
    requires { (vertices_of a).dim ≡ 1 }
    ensures { result ≡ content (cells 1 (vertices_of a.entry).rows) }
{
    let mut walk = Marks::of(a);
    let mut on = false;
    let mut low = 0i32;
    let mut total = 0u128;
    while let Some(high) = walk.height() {
        total += u128::from(counted(on, low, high));
        walk.step();
        on = !on;
        low = high;
    }
    total
}

/// The content: the number of unit cells. It is at most `2^120`.
///
/// It is the sum, over the slabs between neighbouring cuts of the first axis, of the content of the section times the height of
/// the slab (Aguilera and Ayala 1997; in n dimensions Pérez-Aguila). In dimension 1 it is the length of the runs. In dimension 2
/// the length of the section is kept from slab to slab, and changed by what its couplet changes within the couplet's span.
///
/// One walk over the couplets, and for each slab the content of its section, of one dimension less. Each level of this recursion
/// holds two sections, flat lists of `i32` whose rooms are used in turn, those of dimension 1 by all slabs, so it allocates only
/// while they grow. No couplet is copied. The one error is want of memory.
pub fn content(alloc: Global, a: Rows<'_>) -> Result<u128, NoMemory>
    ensures { IfOk result
        (λ n. n ≡ content (cells (vertices_of a.entry).dim (vertices_of a.entry).rows)) }
{
    let mut rooms = Rooms::new(alloc);
    content_in(alloc, a, &mut rooms)
}

// The content, in rooms for the sections of planes.
fn content_in(alloc: Global, a: Rows<'_>, rooms: &mut Rooms) -> Result<u128, NoMemory>
    ensures { IfOk result
        (λ n. n ≡ content (cells (vertices_of a.entry).dim (vertices_of a.entry).rows)) }
{
    let dim = a.dim();
    if dim == 1 {
        return Ok(runs(a));
    }
    if dim == 2 {
        let measures = measure_plane(alloc, a, rooms)?;
        return Ok(measures.content);
    }
    let mut walk = Walk::of(a);
    let mut section = Solid::empty(alloc, dim - 1);
    let mut room = Solid::empty(alloc, dim - 1);
    let mut low = 0i32;
    let mut total = 0u128;
    while let Some((high, couplet)) = walk.next_couplet() {
        let part = content_in(alloc, section.rows(), rooms)?;
        total += part * u128::from(high.abs_diff(low));
        let next = xor_into(room, section.rows(), couplet)?;
        room = section;
        section = next;
        low = high;
    }
    Ok(total)
}

/// The boundary content: over all axes, the number of pairs of neighbouring places of which exactly one is filled. A place
/// past the limits counts as empty. It is below `2^124`.
///
/// The faces across the first axis are the cells of the couplets. Those along the other axes lie in the sections, once for each
/// unit of their slab's height. So it is the sum of the contents of the couplets and, over the slabs, of the boundary content of
/// the section times the height of the slab (this project's own). In dimension 1 it is the number of vertices.
///
/// One walk serves both sums. Memory is as for [`content`]: two sections a level, whose rooms are used in turn, and no copy of a
/// couplet. The one error is want of memory.
pub fn boundary(alloc: Global, a: Rows<'_>) -> Result<u128, NoMemory>
    ensures { IfOk result
        (λ n. n ≡ boundary (vertices_of a.entry).dim
        (cells (vertices_of a.entry).dim (vertices_of a.entry).rows)) }
{
    let mut rooms = Rooms::new(alloc);
    boundary_in(alloc, a, &mut rooms)
}

// The boundary content, in rooms for the sections of planes.
fn boundary_in(alloc: Global, a: Rows<'_>, rooms: &mut Rooms) -> Result<u128, NoMemory>
    ensures { IfOk result
        (λ n. n ≡ boundary (vertices_of a.entry).dim
        (cells (vertices_of a.entry).dim (vertices_of a.entry).rows)) }
{
    let dim = a.dim();
    if dim == 1 {
        return Ok(a.len() as u128);
    }
    if dim == 2 {
        let measures = measure_plane(alloc, a, rooms)?;
        return Ok(measures.boundary);
    }
    let mut walk = Walk::of(a);
    let mut section = Solid::empty(alloc, dim - 1);
    let mut room = Solid::empty(alloc, dim - 1);
    let mut low = 0i32;
    let mut total = 0u128;
    while let Some((high, couplet)) = walk.next_couplet() {
        let along = boundary_in(alloc, section.rows(), rooms)?;
        let across = content_in(alloc, couplet, rooms)?;
        total += along * u128::from(high.abs_diff(low)) + across;
        let next = xor_into(room, section.rows(), couplet)?;
        room = section;
        section = next;
        low = high;
    }
    Ok(total)
}

#[cfg(test)]
mod tests;
