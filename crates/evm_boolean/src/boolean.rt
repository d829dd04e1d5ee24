// The recursion over sections.
ghost use Rattle.std.specs.Prelude.{◌≡◌, ◌<◌, ◌≤◌, [], IfOk};
ghost use Rattle.evm_cells.specs.Booleans.{or_cells, and_cells, sub_cells};
ghost use Rattle.evm_cells.specs.Booleans as CellBooleans;
ghost use Rattle.evm_cells.specs.Vertices.{cells};
ghost use Rattle.evm_rows.specs.Rows.{combined_rows};
ghost use Rattle.evm_rows.specs.View.{vertices_of};
ghost use Rattle.evm_boolean.specs.Tower.{lower, after, section_at, fills, or_vertices, and_vertices, sub_vertices};

use crate::plane::combine_planes;
use crate::runs::combine_runs;
use evm_rows::{NoMemory, Rows, Solid, append_rows, append_xor, xor_into};
use evm_sections::Walk;
use std::alloc::Global;

/// A Boolean of two operands: by whether each of them fills a cell, whether the answer does.
#[derive(Clone, Copy, Debug, PartialEq, Eq)]
pub enum Op2 {
    /// The union: the cells of either.
    Or,
    /// The intersection: the cells of both.
    And,
    /// The difference: the cells of the first that are not of the second.
    Sub,
    /// The symmetric difference: the cells of just one.
    Xor,
}

impl Op2 {
    /// Whether the answer fills a cell, by whether each operand fills it.
    #[inline(always)]
    pub fn fills(self, left: bool, right: bool) -> bool
        ensures { result ≡ fills self left right }
    {
        match self {
            Op2::Or => left || right,
            Op2::And => left && right,
            Op2::Sub => left && !right,
            Op2::Xor => left != right,
        }
    }
}

/// The lower of two heights.
#[inline(always)]
pub fn lower_of(x: Option<i32>, y: Option<i32>) -> Option<i32>
    ensures { result ≡ lower x y }
{
    match (x, y) {
        (None, other) => other,
        (Some(h), None) => Some(h),
        (Some(h), Some(k)) => { if k < h { Some(k) } else { Some(h) } }
    }
}

/// The section above a height, from the `section` below it, and room for another solid; the walk goes past the height where its
/// next couplet stands there. The one error is want of memory.
pub fn advance(
    walk: &mut Walk<'_>,
    height: i32,
    section: Solid,
    spare: Solid,
) -> Result<(Solid, Solid), NoMemory>
    requires { section.dim ≡ walk.old.dim }
    ensures walk_dim { walk.new.dim ≡ walk.old.dim }
    ensures left { walk.new.left ≡ after height walk.old.left }
    ensures dim { IfOk result (λ p. p.0.dim ≡ section.dim) }
    ensures rows { IfOk result
        (λ p. p.0.rows ≡ section_at section.dim height section.rows walk.old.left) }
{
    if walk.height() != Some(height) {
        return Ok((section, spare));
    }
    match walk.next_couplet() {
        None => Ok((section, spare)),
        Some((_, couplet)) => {
            let next = xor_into(spare, section.rows(), couplet)?;
            Ok((next, section))
        }
    }
}

// The rows of a view, in the room of a solid that is done with.
fn own_into(room: Solid, a: Rows<'_>) -> Result<Solid, NoMemory>
    ensures dim { IfOk result (λ s. s.dim ≡ (vertices_of a.entry).dim) }
    ensures rows { IfOk result (λ s. s.rows ≡ (vertices_of a.entry).rows) }
{
    let mut out = room.into_flat();
    out.clear();
    let flat = append_rows(out, a.flat, a.width, a.skip)?;
    Ok(Solid::from_rows(a.dim(), flat))
}

/// No rows, in the room of a solid that is done with. Takes no memory.
pub fn emptied(room: Solid, dim: usize) -> Solid
    requires low { 0 < dim }
    requires high { dim ≤ 6 }
    ensures dim { result.dim ≡ dim }
    ensures rows { result.rows ≡ [] }
{
    let mut flat = room.into_flat();
    flat.clear();
    Solid::from_rows(dim, flat)
}

/// A solid without rows, in one of the rooms that are done with where there is one. Takes no memory.
pub fn taken(alloc: Global, rooms: &mut Vec<Solid>, dim: usize) -> Solid
    requires low { 0 < dim }
    requires high { dim ≤ 6 }
    ensures dim { result.dim ≡ dim }
    ensures rows { result.rows ≡ [] }
{
    match rooms.pop() {
        Some(room) => emptied(room, dim),
        None => Solid::empty(alloc, dim),
    }
}

// Keeps rooms that are done with.
fn give_back(rooms: &mut Vec<Solid>, done: [Solid; 5]) -> Result<(), NoMemory> {
    for room in done {
        rooms.push(room)?;
    }
    Ok(())
}

// The Boolean of a view without rows and another view.
fn of_right(op: Op2, b: Rows<'_>, room: Solid) -> Result<Solid, NoMemory>
    ensures dim { IfOk result (λ s. s.dim ≡ (vertices_of b.entry).dim) }
    ensures rows { IfOk result
        (λ s. s.rows ≡ combined_rows (fills op) (vertices_of b.entry).dim []
        (vertices_of b.entry).rows) }
{
    if op.fills(false, true) {
        let all = own_into(room, b)?;
        return Ok(all);
    }
    Ok(emptied(room, b.dim()))
}

// The Boolean of a view and a view without rows.
fn of_left(op: Op2, a: Rows<'_>, room: Solid) -> Result<Solid, NoMemory>
    ensures dim { IfOk result (λ s. s.dim ≡ (vertices_of a.entry).dim) }
    ensures rows { IfOk result
        (λ s. s.rows ≡ combined_rows (fills op) (vertices_of a.entry).dim
        (vertices_of a.entry).rows []) }
{
    if op.fills(true, false) {
        let all = own_into(room, a)?;
        return Ok(all);
    }
    Ok(emptied(room, a.dim()))
}

/// The Boolean `op` of two views of one dimension.
///
/// The answer's section at a height is the Boolean of the operands' sections there (this project's own; sections and couplets in
/// n dimensions are Pérez-Aguila's), so a walk over the cuts of both keeps the two sections and the answer's, and the answer's
/// couplets are the exclusive or of neighbouring sections of the answer. A view without rows is answered with no recursion. In
/// dimension 2 a section is a list of numbers, and a height costs what its couplets span, beside the copy of a section; in higher
/// dimensions it costs a Boolean of the two sections.
///
/// The answer is one flat list of `i32` that grows. Each level of the recursion holds five flat lists more, which are used
/// again for later heights and by later calls of the same depth, and allocate only while they grow. No couplet is copied. The
/// one error is want of memory.
pub fn combine(alloc: Global, op: Op2, a: Rows<'_>, b: Rows<'_>) -> Result<Solid, NoMemory>
    requires { (vertices_of a).dim ≡ (vertices_of b).dim }
    ensures dim { IfOk result (λ s. s.dim ≡ (vertices_of a.entry).dim) }
    ensures rows { IfOk result
        (λ s. s.rows ≡ combined_rows (fills op) (vertices_of a.entry).dim
        (vertices_of a.entry).rows (vertices_of b.entry).rows) }
    ensures cells { IfOk result
        (λ s. cells s.dim s.rows
        ≡ CellBooleans.combine (fills op) s.dim (cells s.dim (vertices_of a.entry).rows)
        (cells s.dim (vertices_of b.entry).rows)) }
{
    let room = Solid::empty(alloc, 1);
    let mut rooms = Vec::new(alloc);
    let solid = combine_in(alloc, op, a, b, room, &mut rooms)?;
    Ok(solid)
}

/// The Boolean `op` of two views of one dimension: the same as [`combine`], in the room of a solid that is done with.
///
/// It takes further rooms from `rooms` and gives them back, so a caller with many small Booleans allocates only while its rooms
/// grow. The one error is want of memory, after which the room is gone.
pub fn combine_in(
    alloc: Global,
    op: Op2,
    a: Rows<'_>,
    b: Rows<'_>,
    room: Solid,
    rooms: &mut Vec<Solid>,
) -> Result<Solid, NoMemory>
    requires { (vertices_of a).dim ≡ (vertices_of b).dim }
    ensures dim { IfOk result (λ s. s.dim ≡ (vertices_of a.entry).dim) }
    ensures rows { IfOk result
        (λ s. s.rows ≡ combined_rows (fills op) (vertices_of a.entry).dim
        (vertices_of a.entry).rows (vertices_of b.entry).rows) }
{
    if a.flat.len() == 0 {
        let all = of_right(op, b, room)?;
        return Ok(all);
    }
    if b.flat.len() == 0 {
        let all = of_left(op, a, room)?;
        return Ok(all);
    }
    let dim = a.dim();
    if dim == 1 {
        return combine_runs(op, a, b, room);
    }
    let mut out = room.into_flat();
    out.clear();
    if dim == 2 {
        return combine_planes(alloc, op, a, b, out, rooms);
    }
    let mut left = Walk::of(a);
    let mut right = Walk::of(b);
    let mut below_a = taken(alloc, rooms, dim - 1);
    let mut below_b = taken(alloc, rooms, dim - 1);
    let mut below = taken(alloc, rooms, dim - 1);
    let mut spare = taken(alloc, rooms, dim - 1);
    let mut other = taken(alloc, rooms, dim - 1);
    while let Some(height) = lower_of(left.height(), right.height()) {
        let (next_a, old_a) = advance(&mut left, height, below_a, spare)?;
        below_a = next_a;
        let (next_b, old_b) = advance(&mut right, height, below_b, old_a)?;
        below_b = next_b;
        let above = combine_in(alloc, op, below_a.rows(), below_b.rows(), other, rooms)?;
        out = append_xor(out, Some(height), below.rows(), above.rows())?;
        spare = old_b;
        other = below;
        below = above;
    }
    give_back(rooms, [below_a, below_b, below, spare, other])?;
    Ok(Solid::from_rows(dim, out))
}

/// The union: the cells of either view. Both have one dimension. Time, memory and the one error are those of [`combine`].
pub fn or(alloc: Global, a: Rows<'_>, b: Rows<'_>) -> Result<Solid, NoMemory>
    requires { (vertices_of a).dim ≡ (vertices_of b).dim }
    ensures dim { IfOk result (λ s. s.dim ≡ (vertices_of a.entry).dim) }
    ensures vertices { IfOk result
        (λ s. s ≡ or_vertices (vertices_of a.entry) (vertices_of b.entry)) }
    ensures cells { IfOk result
        (λ s. cells s.dim s.rows
        ≡ or_cells s.dim (cells s.dim (vertices_of a.entry).rows)
        (cells s.dim (vertices_of b.entry).rows)) }
{
    let solid = combine(alloc, Op2::Or, a, b)?;
    Ok(solid)
}

/// The intersection: the cells of both views. Both have one dimension. Time, memory and the one error are those of [`combine`].
pub fn and(alloc: Global, a: Rows<'_>, b: Rows<'_>) -> Result<Solid, NoMemory>
    requires { (vertices_of a).dim ≡ (vertices_of b).dim }
    ensures dim { IfOk result (λ s. s.dim ≡ (vertices_of a.entry).dim) }
    ensures vertices { IfOk result
        (λ s. s ≡ and_vertices (vertices_of a.entry) (vertices_of b.entry)) }
    ensures cells { IfOk result
        (λ s. cells s.dim s.rows
        ≡ and_cells s.dim (cells s.dim (vertices_of a.entry).rows)
        (cells s.dim (vertices_of b.entry).rows)) }
{
    let solid = combine(alloc, Op2::And, a, b)?;
    Ok(solid)
}

/// The difference: the cells of the first view that are not of the second. Both have one dimension. Time, memory and the one
/// error are those of [`combine`].
pub fn sub(alloc: Global, a: Rows<'_>, b: Rows<'_>) -> Result<Solid, NoMemory>
    requires { (vertices_of a).dim ≡ (vertices_of b).dim }
    ensures dim { IfOk result (λ s. s.dim ≡ (vertices_of a.entry).dim) }
    ensures vertices { IfOk result
        (λ s. s ≡ sub_vertices (vertices_of a.entry) (vertices_of b.entry)) }
    ensures cells { IfOk result
        (λ s. cells s.dim s.rows
        ≡ sub_cells s.dim (cells s.dim (vertices_of a.entry).rows)
        (cells s.dim (vertices_of b.entry).rows)) }
{
    let solid = combine(alloc, Op2::Sub, a, b)?;
    Ok(solid)
}
