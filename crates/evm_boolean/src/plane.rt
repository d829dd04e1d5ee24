// Booleans of views of dimension 2. A section is a list of ascending numbers, and a height costs what its couplets span,
// beside the copy of a section.
ghost use Rattle.std.specs.Prelude.{◌≡◌, [], IfOk};
ghost use Rattle.evm_rows.specs.Rows.{AreRows, rows_of, xor_rows, combined_rows};
ghost use Rattle.evm_rows.specs.View.{vertices_of};
ghost use Rattle.evm_boolean.specs.Tower.{after, couplet_here, fills};

use crate::boolean::{Op2, lower_of, taken};
use crate::line::append_gain;
use evm_rows::{NoMemory, Rows, Solid};
use evm_sections::{Walk, changed};
use std::alloc::Global;

// A view of dimension 1 without rows, as wide as the couplets of a view of dimension 2, and lasting as long.
#[inline(always)]
fn none_of<'a>(a: Rows<'a>) -> Rows<'a>
    ensures dim { (vertices_of result).dim ≡ 1 }
    ensures rows { (vertices_of result).rows ≡ [] }
{
    let (nothing, _) = a.flat.split_at(0);
    Rows {
        flat: nothing,
        width: a.width,
        skip: a.width - 1,
    }
}

// The couplet at the height, or `none`, which is empty. The walk goes past the height.
#[inline(always)]
fn couplet_at<'a>(walk: &mut Walk<'a>, height: i32, none: Rows<'a>) -> Rows<'a>
    requires line { walk.old.dim ≡ 1 }
    requires none_line { (vertices_of none).dim ≡ 1 }
    requires none { (vertices_of none).rows ≡ [] }
    ensures walk_dim { walk.new.dim ≡ 1 }
    ensures left { walk.new.left ≡ after height walk.old.left }
    ensures dim { (vertices_of result).dim ≡ 1 }
    ensures rows { (vertices_of result).rows ≡ couplet_here height walk.old.left }
{
    if walk.height() != Some(height) {
        return none;
    }
    match walk.next_couplet() {
        None => none,
        Some((_, couplet)) => couplet,
    }
}

// The line after a change, and room for another one.
#[inline(always)]
fn line_after(
    line: Vec<i32>,
    spare: Vec<i32>,
    change: Rows<'_>,
) -> Result<(Vec<i32>, Vec<i32>), NoMemory>
    requires line { AreRows line.items 1 0 }
    requires change { (vertices_of change).dim ≡ 1 }
    ensures are_rows { IfOk result (λ p. AreRows p.0.items 1 0) }
    ensures rows { IfOk result
        (λ p. rows_of p.0.items 1 0
        ≡ xor_rows 1 (rows_of line.items 1 0) (vertices_of change.entry).rows) }
{
    if change.flat.len() == 0 {
        return Ok((line, spare));
    }
    let next = changed(spare, &line, change)?;
    Ok((next.line, line))
}

// A line without ends, in a room that is done with where there is one.
fn taken_line(alloc: Global, rooms: &mut Vec<Solid>) -> Vec<i32>
    ensures are_rows { AreRows result.items 1 0 }
    ensures rows { rows_of result.items 1 0 ≡ [] }
{
    taken(alloc, rooms, 1).into_flat()
}

// Keeps two lines that are done with, and a room.
fn give_back(rooms: &mut Vec<Solid>, line_a: Vec<i32>, line_b: Vec<i32>) -> Result<(), NoMemory>
    requires first { AreRows line_a.items 1 0 }
    requires second { AreRows line_b.items 1 0 }
{
    rooms.push(Solid::from_rows(1, line_a))?;
    rooms.push(Solid::from_rows(1, line_b))?;
    Ok(())
}

// The Boolean of two views of dimension 2, as `combine_planes`.
#[inline(always)]
fn sweep_planes(
    alloc: Global,
    op: Op2,
    a: Rows<'_>,
    b: Rows<'_>,
    out: Vec<i32>,
    rooms: &mut Vec<Solid>,
) -> Result<Solid, NoMemory>
    requires left { (vertices_of a).dim ≡ 2 }
    requires right { (vertices_of b).dim ≡ 2 }
    requires out { out.items ≡ [] }
    ensures dim { IfOk result (λ s. s.dim ≡ 2) }
    ensures rows { IfOk result
        (λ s. s.rows ≡ combined_rows (fills op) 2 (vertices_of a.entry).rows
        (vertices_of b.entry).rows) }
{
    let none_a = none_of(a);
    let none_b = none_of(b);
    let mut left = Walk::of(a);
    let mut right = Walk::of(b);
    let mut line_a = taken_line(alloc, rooms);
    let mut line_b = taken_line(alloc, rooms);
    let mut spare = taken_line(alloc, rooms);
    let mut out = out;
    while let Some(height) = lower_of(left.height(), right.height()) {
        let change_a = couplet_at(&mut left, height, none_a);
        let change_b = couplet_at(&mut right, height, none_b);
        append_gain(&mut out, op, height, &line_a, &line_b, change_a, change_b)?;
        let (next_a, old_a) = line_after(line_a, spare, change_a)?;
        line_a = next_a;
        let (next_b, old_b) = line_after(line_b, old_a, change_b)?;
        line_b = next_b;
        spare = old_b;
    }
    give_back(rooms, line_a, line_b)?;
    Ok(Solid::from_rows(2, out))
}

// The Boolean of two views of dimension 2, as `combine_planes`, compiled apart for each operation.
#[inline(always)]
fn combine_by_op(
    alloc: Global,
    op: Op2,
    a: Rows<'_>,
    b: Rows<'_>,
    out: Vec<i32>,
    rooms: &mut Vec<Solid>,
) -> Result<Solid, NoMemory>
    requires left { (vertices_of a).dim ≡ 2 }
    requires right { (vertices_of b).dim ≡ 2 }
    requires out { out.items ≡ [] }
    ensures dim { IfOk result (λ s. s.dim ≡ 2) }
    ensures rows { IfOk result
        (λ s. s.rows ≡ combined_rows (fills op) 2 (vertices_of a.entry).rows
        (vertices_of b.entry).rows) }
{
    match op {
        Op2::Or => sweep_planes(alloc, Op2::Or, a, b, out, rooms),
        Op2::And => sweep_planes(alloc, Op2::And, a, b, out, rooms),
        Op2::Sub => sweep_planes(alloc, Op2::Sub, a, b, out, rooms),
        Op2::Xor => sweep_planes(alloc, Op2::Xor, a, b, out, rooms),
    }
}

/// The Boolean of two views of dimension 2, in a list without numbers. It takes further rooms from `rooms` and gives them
/// back. The one error is want of memory.
pub fn combine_planes(
    alloc: Global,
    op: Op2,
    a: Rows<'_>,
    b: Rows<'_>,
    out: Vec<i32>,
    rooms: &mut Vec<Solid>,
) -> Result<Solid, NoMemory>
    requires left { (vertices_of a).dim ≡ 2 }
    requires right { (vertices_of b).dim ≡ 2 }
    requires out { out.items ≡ [] }
    ensures dim { IfOk result (λ s. s.dim ≡ 2) }
    ensures rows { IfOk result
        (λ s. s.rows ≡ combined_rows (fills op) 2 (vertices_of a.entry).rows
        (vertices_of b.entry).rows) }
{
    if a.skip == 0 && b.skip == 0 {
        return combine_by_op(alloc, op, a.of_width(2), b.of_width(2), out, rooms);
    }
    sweep_planes(alloc, op, a, b, out, rooms)
}
