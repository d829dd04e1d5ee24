//! Booleans by a walk over the couplets of both operands, which looks only at what the operands have near each couplet.

ghost use Rattle.std.specs.Prelude.{◌≡◌, ◌+◌, ◌<◌, [], IfOk};
ghost use Rattle.evm_rows.specs.Rows.{xor_rows};
ghost use Rattle.evm_rows.specs.View.{vertices_of};
ghost use Rattle.evm_sections.specs.Couplets.{first_height};
ghost use Rattle.evm_boolean.specs.Tower.{lower, after, couplet_here};
ghost use Rattle.evm_cutting.specs.Booleans.{combined, HasCombined};
ghost use Rattle.evm_cutting.specs.Changes.{left_part, right_part};

use crate::hulls::window;
use evm_boolean::Op2;
use evm_rows::{NoMemory, Rows, Solid, append_xor, xor, xor_into};
use evm_sections::Walk;
use std::alloc::Global;

// The lower of the next heights of two walks.
fn next_height(left: &Walk<'_>, right: &Walk<'_>) -> Option<i32>
    ensures { result ≡ lower (first_height left.now.left) (first_height right.now.left) }
{
    let (Some(x), Some(y)) = (left.height(), right.height()) else {
        return left.height().or(right.height());
    };
    if y < x { Some(y) } else { Some(x) }
}

// A view without rows, of the dimension of the couplets of a view, as wide as they are, and lasting as long.
fn none_of<'a>(a: Rows<'a>) -> Rows<'a>
    requires { 1 < (vertices_of a).dim }
    ensures dim { (vertices_of result).dim + 1 ≡ (vertices_of a.entry).dim }
    ensures rows { (vertices_of result).rows ≡ [] }
{
    let (flat, _) = a.flat.split_at(0);
    let skip = a.skip + 1;
    let width = a.width;
    Rows { flat, width, skip }
}

// The couplet at a height, or `none`, which is empty. The walk goes past the height.
fn couplet_at<'a>(walk: &mut Walk<'a>, height: i32, none: Rows<'a>) -> Rows<'a>
    requires none_dim { (vertices_of none).dim ≡ walk.old.dim }
    requires none { (vertices_of none).rows ≡ [] }
    ensures walk_dim { walk.new.dim ≡ walk.old.dim }
    ensures left { walk.new.left ≡ after height walk.old.left }
    ensures dim { (vertices_of result).dim ≡ walk.old.dim }
    ensures rows { (vertices_of result).rows ≡ couplet_here height walk.old.left }
{
    if walk.height() == Some(height) {
        if let Some((_, couplet)) = walk.next_couplet() {
            return couplet;
        }
    }
    none
}

// A section after a change, and room for another one.
fn changed(section: Solid, room: Solid, change: Rows<'_>) -> Result<(Solid, Solid), NoMemory>
    requires { (vertices_of change).dim ≡ section.dim }
    ensures dim { IfOk result (λ p. p.0.dim ≡ section.dim) }
    ensures rows { IfOk result
        (λ p. p.0.rows ≡ xor_rows section.dim section.rows (vertices_of change.entry).rows) }
{
    if change.flat.len() == 0 {
        section.facts();
        return Ok((section, room));
    }
    let next = xor_into(room, section.rows(), change)?;
    Ok((next, section))
}

// The Boolean of a change of the first operand and the second operand after its change, that is where the value changes.
fn left_part(op: Op2) -> Op2
    ensures { result ≡ left_part op }
{
    match op {
        Op2::Or => Op2::Sub,
        Op2::And => Op2::And,
        Op2::Sub => Op2::Sub,
        Op2::Xor => Op2::Xor,
    }
}

// The Boolean of a change of the second operand and the first operand before its change.
fn right_part(op: Op2) -> Op2
    ensures { result ≡ right_part op }
{
    match op {
        Op2::Or => Op2::Sub,
        Op2::And | Op2::Sub => Op2::And,
        Op2::Xor => Op2::Xor,
    }
}

/// The Boolean `op` of two views of one dimension: the same as [`evm_boolean::combine`], in less time where their sections have many
/// more rows than their couplets.
///
/// At each height the value changes where the first operand's couplet meets the second operand's section above, or misses it, and where
/// the second operand's couplet meets or misses the first operand's section below. Of a section only what lies in the least box of the
/// couplet is looked at, and combined by the same walk one dimension lower. No section of the answer is kept.
///
/// It takes memory for the answer, the sections of both operands and a section more, and in each dimension below for two windows with
/// what the walk takes there. The one error is want of memory.
pub(crate) fn sweep(alloc: Global, op: Op2, a: Rows<'_>, b: Rows<'_>) -> Result<Solid, NoMemory>
    requires { (vertices_of a).dim ≡ (vertices_of b).dim }
    ensures rows { IfOk result
        (λ s. s.rows ≡ combined op (vertices_of a.entry) (vertices_of b.entry)) }
    ensures dim { IfOk result (λ s. s.dim ≡ (vertices_of a.entry).dim) }
    ensures cells { IfOk result
        (λ s. HasCombined op (vertices_of a.entry) (vertices_of b.entry) s) }
{
    let dim = a.dim();
    if op == Op2::Xor || dim <= 2 || a.len() == 0 || b.len() == 0 {
        return evm_boolean::combine(alloc, op, a, b);
    }
    let none_a = none_of(a);
    let none_b = none_of(b);
    let mut left = Walk::of(a);
    let mut right = Walk::of(b);
    let mut below_a = Solid::empty(alloc, dim - 1);
    let mut below_b = Solid::empty(alloc, dim - 1);
    let mut room = Solid::empty(alloc, dim - 1);
    let mut out = Vec::new(alloc);
    while let Some(height) = next_height(&left, &right) {
        let change_a = couplet_at(&mut left, height, none_a);
        let change_b = couplet_at(&mut right, height, none_b);
        let near_a = window(alloc, change_b, below_a.rows())?;
        let gain_b = sweep(alloc, right_part(op), change_b, near_a.rows())?;
        let (next_b, old_b) = changed(below_b, room, change_b)?;
        below_b = next_b;
        let near_b = window(alloc, change_a, below_b.rows())?;
        let gain_a = sweep(alloc, left_part(op), change_a, near_b.rows())?;
        let (next_a, old_a) = changed(below_a, old_b, change_a)?;
        below_a = next_a;
        room = old_a;
        out = append_xor(out, Some(height), gain_a.rows(), gain_b.rows())?;
    }
    Ok(Solid::from_rows(dim, out))
}
