use crate::{Line, LineAfter, Marks, Slab, Sweep, Walk, changed, counted, first_from, least};
use evm_rows::{Rows, Solid, own, xor};
use std::alloc::Global;

// Whether the rows are those of the box from `lo` to `hi`.
fn is_box(alloc: Global, rows: Rows<'_>, lo: &[i32], hi: &[i32]) -> bool {
    if lo.len() == 0 || 6 < lo.len() || hi.len() != lo.len() {
        return false;
    }
    match (own(alloc, rows), Solid::of_box(alloc, lo, hi)) {
        (Ok(first), Ok(second)) => first.same(&second),
        _ => false,
    }
}

// Three unit squares in the shape of an L: the section shrinks at 1.
#[test]
fn walks_over_an_l(rt: HostRuntime) {
    let foot = Solid::of_box(rt.alloc(), &[0, 0], &[2, 1]).expect(&rt, "memory");
    let stem = Solid::of_box(rt.alloc(), &[0, 1], &[1, 2]).expect(&rt, "memory");
    let angle = xor(rt.alloc(), foot.rows(), stem.rows()).expect(&rt, "memory");
    let mut walk = Walk::of(angle.rows());
    for (height, low, high) in [(0, 0, 2), (1, 1, 2), (2, 0, 1)] {
        assert_eq!(rt; walk.height(), Some(height));
        let (at, couplet) = walk.next_couplet().expect(&rt, "a couplet");
        assert_eq!(rt; at, height);
        assert!(rt; is_box(rt.alloc(), couplet, &[low], &[high]), "at {height}");
    }
    assert!(rt; walk.next_couplet().is_none() && walk.height().is_none());
    let mut sweep = Sweep::start(rt.alloc(), angle.rows());
    for (low, end) in [(0, 2), (1, 1)] {
        let slab = sweep.advance(rt.alloc()).expect(&rt, "memory");
        let high = low + 1;
        assert_eq!(rt; slab, Some(Slab { low, high }));
        assert!(rt;
            is_box(rt.alloc(), sweep.section(), &[0], &[end]),
            "over {low}"
        );
    }
    assert_eq!(rt; sweep.advance(rt.alloc()).expect(&rt, "memory"), None);
    assert_eq!(rt; sweep.section().len(), 0);
}

// Two boxes of three dimensions with a gap between them: the section of the gap is empty.
#[test]
fn sweeps_over_a_gap(rt: HostRuntime) {
    let near = Solid::of_box(rt.alloc(), &[0, 0, 0], &[1, 1, 1]).expect(&rt, "memory");
    let far = Solid::of_box(rt.alloc(), &[3, 0, 0], &[4, 2, 1]).expect(&rt, "memory");
    let both = xor(rt.alloc(), near.rows(), far.rows()).expect(&rt, "memory");
    let mut sweep = Sweep::start(rt.alloc(), both.rows());
    assert_eq!(rt; sweep.section().len(), 0);
    for (low, high, ends) in [(0, 1, [1, 1]), (1, 3, [0, 0]), (3, 4, [2, 1])] {
        let slab = sweep.advance(rt.alloc()).expect(&rt, "memory");
        assert_eq!(rt; slab, Some(Slab { low, high }));
        if low == 1 {
            assert_eq!(rt; sweep.section().len(), 0);
        } else {
            assert!(rt;
                is_box(rt.alloc(), sweep.section(), &[0, 0], &ends),
                "over {low}"
            );
        }
    }
    assert_eq!(rt; sweep.advance(rt.alloc()).expect(&rt, "memory"), None);
    assert_eq!(rt; sweep.section().len(), 0);
}

#[test]
fn walks_along_a_line(rt: HostRuntime) {
    let line = Solid::of_box(rt.alloc(), &[-3], &[4]).expect(&rt, "memory");
    let mut marks = Marks::of(line.rows());
    assert_eq!(rt; marks.height(), Some(-3));
    marks.step();
    assert_eq!(rt; marks.height(), Some(4));
    marks.step();
    assert_eq!(rt; marks.height(), None);
}

// The runs from -3 to 4 and from 6 to 9, of which -3 is passed.
#[test]
fn goes_along_numbers(rt: HostRuntime) {
    let near = Solid::of_box(rt.alloc(), &[-3], &[4]).expect(&rt, "memory");
    let far = Solid::of_box(rt.alloc(), &[6], &[9]).expect(&rt, "memory");
    let both = xor(rt.alloc(), near.rows(), far.rows()).expect(&rt, "memory");
    assert_eq!(rt; Line::of_rows(both.rows()).head(), Some(-3));
    let numbers = both.into_flat();
    for (low, place) in [(-4, 0), (-3, 0), (-2, 1), (4, 1), (9, 3), (10, 4)] {
        assert_eq!(rt; first_from(&numbers, low), place, "{low}");
    }
    let mut line = Line::of(&numbers, first_from(&numbers, -2));
    for (height, next, on) in [(3, 4, true), (4, 6, false), (6, 9, true)] {
        line.pass(height);
        assert_eq!(rt; line.head(), Some(next));
        assert_eq!(rt; line.on(), on);
    }
    let seven = Vec::from_slice(rt.alloc(), &[7]).expect(&rt, "memory");
    let left = line.append_left(seven).expect(&rt, "memory");
    assert!(rt; left.as_slice() == [7, 9].as_slice());
    assert_eq!(rt; (least(3, Some(2)), least(3, None)), (2, 3));
    assert_eq!(rt; (counted(true, -3, 4), counted(false, -3, 4)), (7, 0));
}

// The run from 0 to 10 after the change from `lo` to `hi`.
fn run_after(alloc: Global, lo: i32, hi: i32) -> Option<LineAfter> {
    let run = Solid::of_box(alloc, &[0], &[10]).ok()?;
    let change = Solid::of_box(alloc, &[lo], &[hi]).ok()?;
    let numbers = run.into_flat();
    changed(Vec::new(alloc), &numbers, change.rows()).ok()
}

// Changes beside the run, in it, across its end, and over all of it.
#[test]
fn changes_a_run(rt: HostRuntime) {
    let table: [(i32, i32, &[i32], (u64, u64)); 4] = [
        (10, 12, &[0, 12], (2, 0)),
        (4, 6, &[0, 4, 6, 10], (2, 2)),
        (8, 12, &[0, 8, 10, 12], (4, 2)),
        (0, 10, &[], (10, 10)),
    ];
    for (lo, hi, numbers, lengths) in table {
        let after = run_after(rt.alloc(), lo, hi).expect(&rt, "a line");
        assert!(rt; after.line.as_slice() == numbers, "{numbers:?}");
        assert_eq!(rt; (after.across, after.shared), lengths, "{numbers:?}");
    }
}
