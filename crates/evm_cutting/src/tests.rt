ghost use Rattle.std.specs.Prelude.{◌≡◌};

use crate::booleans::combine_parts;
use crate::sweeps::sweep;
use crate::{combine, cut_at, over};
use evm_boolean::Op2;
use evm_rows::{Solid, xor};
use std::alloc::Global;

// Whether a Boolean of two solids, cut while they have more than four rows, is that of one recursion.
fn agrees(alloc: Global, op: Op2, a: &Solid, b: &Solid) -> Option<bool>
    requires { a.now.dim ≡ b.now.dim }
{
    let wanted = evm_boolean::combine(alloc, op, a.rows(), b.rows()).ok()?;
    let made = combine_parts(alloc, op, a.rows(), b.rows(), 4, 0, 8).ok()?;
    Some(made.same(&wanted))
}

// The same of two rectangles that overlap, and of two boxes.
fn agrees_on_boxes(alloc: Global, op: Op2) -> Option<bool> {
    let a = Solid::of_box(alloc, &[0, 0], &[4, 4]).ok()?;
    let b = Solid::of_box(alloc, &[2, 1], &[6, 3]).ok()?;
    let c = Solid::of_box(alloc, &[0, 0, 0], &[4, 4, 4]).ok()?;
    let d = Solid::of_box(alloc, &[2, 1, -1], &[6, 3, 3]).ok()?;
    let planes = agrees(alloc, op, &a, &b)?;
    let spaces = agrees(alloc, op, &c, &d)?;
    Some(planes && spaces)
}

// Whether the walk over couplets has the Boolean of two unions of boxes that one recursion has.
fn walk_agrees(alloc: Global, op: Op2) -> Option<bool> {
    let a = Solid::of_box(alloc, &[0, 0, 0, 0], &[4, 4, 2, 4]).ok()?;
    let b = Solid::of_box(alloc, &[2, 1, -1, 3], &[6, 3, 3, 5]).ok()?;
    let c = Solid::of_box(alloc, &[2, 0, 1, 1], &[3, 9, 2, 4]).ok()?;
    let left = evm_boolean::combine(alloc, Op2::Or, a.rows(), b.rows()).ok()?;
    let right = evm_boolean::combine(alloc, Op2::Xor, b.rows(), c.rows()).ok()?;
    let wanted = evm_boolean::combine(alloc, op, left.rows(), right.rows()).ok()?;
    let made = sweep(alloc, op, left.rows(), right.rows()).ok()?;
    Some(made.same(&wanted))
}

// Whether what two rectangles share, and the two sides of a plane across the second axis of a square, have the right numbers.
#[tactic(auto, unfolding(evm_cells::specs::Limits::limit))]
fn has_right_numbers(alloc: Global) -> Option<(bool, bool)> {
    let a = Solid::of_box(alloc, &[0, 0], &[4, 4]).ok()?;
    let b = Solid::of_box(alloc, &[2, 1], &[6, 3]).ok()?;
    let shared = combine(alloc, Op2::And, a.rows(), b.rows()).ok()?;
    let cut = cut_at(alloc, a.rows(), 1, 3).ok()?;
    let low = cut.low.rows().flat == [0, 0, 0, 3, 4, 0, 4, 3].as_slice();
    let high = cut.high.rows().flat == [0, 3, 0, 4, 4, 3, 4, 4].as_slice();
    Some((
        shared.rows().flat == [2, 1, 2, 3, 4, 1, 4, 3].as_slice(),
        low && high,
    ))
}

// Whether the two sides of a plane at which rows of a solid lie, and what is above it alone, have the right numbers, and are the
// solid together.
#[tactic(auto, unfolding(evm_cells::specs::Limits::limit))]
fn cuts_at_a_notch(alloc: Global) -> Option<(bool, bool)> {
    let a = Solid::of_box(alloc, &[0, 0, 0], &[4, 4, 4]).ok()?;
    let b = Solid::of_box(alloc, &[0, 1, 2], &[2, 6, 4]).ok()?;
    let solid = combine(alloc, Op2::Or, a.rows(), b.rows()).ok()?;
    let cut = cut_at(alloc, solid.rows(), 1, 4).ok()?;
    let part = over(alloc, solid.rows(), 1, 4).ok()?;
    let whole = xor(alloc, cut.low.rows(), cut.high.rows()).ok()?;
    let above = Solid::of_box(alloc, &[0, 4, 2], &[2, 6, 4]).ok()?;
    Some((
        cut.low.same(&a) && cut.high.same(&above),
        part.same(&above) && whole.same(&solid),
    ))
}

#[test]
fn combines_boxes_by_parts(rt: HostRuntime) {
    for op in [Op2::Or, Op2::And, Op2::Sub, Op2::Xor] {
        assert_eq!(rt; agrees_on_boxes(rt.alloc(), op), Some(true), "{op:?}");
        assert_eq!(rt; walk_agrees(rt.alloc(), op), Some(true), "{op:?}");
    }
    assert_eq!(rt; has_right_numbers(rt.alloc()), Some((true, true)));
    assert_eq!(rt; cuts_at_a_notch(rt.alloc()), Some((true, true)));
}
