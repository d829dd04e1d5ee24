use crate::{Op2, and, combine, or, sub};
use evm_rows::Solid;
use std::alloc::Global;

// Whether the Boolean of two squares, each given by its lower corner, with this side, has these numbers.
fn answers(
    alloc: Global,
    op: Op2,
    squares: ([i32; 2], [i32; 2], i32),
    numbers: &[i32],
) -> Option<bool> {
    let (a, b, side) = squares;
    let high_a = [a[0].saturating_add(side), a[1].saturating_add(side)];
    let high_b = [b[0].saturating_add(side), b[1].saturating_add(side)];
    let left = Solid::of_box(alloc, &a, &high_a).ok()?;
    let right = Solid::of_box(alloc, &b, &high_b).ok()?;
    let solid = combine(alloc, op, left.rows(), right.rows()).ok()?;
    Some(solid.rows().flat == numbers)
}

#[test]
fn combines_squares(rt: HostRuntime) {
    let faces = ([0, 0], [1, 0], 1);
    let overlap = ([0, 0], [1, 1], 2);
    let corner = ([0, 0], [1, 1], 1);
    let table: [(Op2, ([i32; 2], [i32; 2], i32), &[i32]); 6] = [
        (Op2::Or, faces, &[0, 0, 0, 1, 2, 0, 2, 1]),
        (
            Op2::Or,
            overlap,
            &[0, 0, 0, 2, 1, 2, 1, 3, 2, 0, 2, 1, 3, 1, 3, 3],
        ),
        (Op2::And, overlap, &[1, 1, 1, 2, 2, 1, 2, 2]),
        (Op2::Sub, overlap, &[0, 0, 0, 2, 1, 1, 1, 2, 2, 0, 2, 1]),
        (Op2::Or, corner, &[0, 0, 0, 1, 1, 0, 1, 2, 2, 1, 2, 2]),
        (Op2::And, corner, &[]),
    ];
    for (op, squares, numbers) in table {
        assert_eq!(rt;
            answers(rt.alloc(), op, squares, numbers),
            Some(true),
            "{numbers:?}"
        );
    }
}

#[test]
fn combines_cubes(rt: HostRuntime) {
    let a = Solid::of_box(rt.alloc(), &[0, 0, 0], &[1, 1, 1]).expect(&rt, "memory");
    let b = Solid::of_box(rt.alloc(), &[0, 0, 1], &[1, 1, 2]).expect(&rt, "memory");
    let all = Solid::of_box(rt.alloc(), &[0, 0, 0], &[1, 1, 2]).expect(&rt, "memory");
    let either = or(rt.alloc(), a.rows(), b.rows()).expect(&rt, "memory");
    assert!(rt; either.same(&all));
    let both = and(rt.alloc(), a.rows(), b.rows()).expect(&rt, "memory");
    assert!(rt; both.same(&Solid::empty(rt.alloc(), 3)));
    let rest = sub(rt.alloc(), all.rows(), a.rows()).expect(&rt, "memory");
    assert!(rt; rest.same(&b));
}
