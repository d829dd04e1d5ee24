use crate::{BoxError, RowError, Solid, append_xor, own, xor, xor_into};
use std::alloc::Global;

// The refusal of numbers as rows of dimension `dim`; a table's slip stands out as want of memory.
fn refusal(alloc: Global, dim: usize, numbers: &[i32]) -> Option<RowError> {
    if dim == 0 || 6 < dim || numbers.len() % dim != 0 {
        return Some(RowError::NoMemory);
    }
    match Vec::from_slice(alloc, numbers) {
        Ok(flat) => Solid::check(alloc, dim, flat).err(),
        Err(_) => Some(RowError::NoMemory),
    }
}

#[test]
fn checks_rows(rt: HostRuntime) {
    let table: [(usize, &[i32], Option<RowError>); 14] = [
        (2, &[], None),
        (2, &[0, 0, 0, 3, 2, 0, 2, 3], None),
        (2, &[0, 0, 0, 1, 1, 0], Some(RowError::Odd(1))),
        (2, &[0, 0, 1, 0], Some(RowError::Odd(2))),
        (2, &[0, 1, 0, 0], Some(RowError::Order(1))),
        (2, &[9, 9, 0, 0, 2_000_000_000, 0], Some(RowError::Range(2))),
        (1, &[-1_073_741_824, 1_073_741_824], None),
        (1, &[-1_073_741_825, 0], Some(RowError::Range(0))),
        (1, &[0, 3, 5], Some(RowError::Odd(1))),
        (1, &[7, 7], Some(RowError::Order(1))),
        (
            3,
            &[0, 0, 0, 0, 0, 1, 0, 1, 0, 0, 1, 1],
            Some(RowError::Odd(1)),
        ),
        (4, &[0, 0, 0, 0, 1, 0, 0, 0], Some(RowError::Odd(2))),
        (
            5,
            &[0, 0, 0, 0, 0, 0, 0, 0, 1, 4_194_305],
            Some(RowError::Range(1)),
        ),
        (
            6,
            &[0, 0, 0, 0, 0, 1, 0, 0, 0, 0, 0, 1],
            Some(RowError::Order(1)),
        ),
    ];
    for (dim, numbers, want) in table {
        assert_eq!(rt; refusal(rt.alloc(), dim, numbers), want, "{numbers:?}");
    }
}

fn has_rows(solid: &Solid, rows: &[[i32; 2]]) -> bool {
    if solid.dim() != 2 || solid.len() != rows.len() {
        return false;
    }
    for (i, row) in rows.iter().enumerate() {
        if solid.coord(i, 1) != row[0] || solid.coord(i, 2) != row[1] {
            return false;
        }
    }
    true
}

#[test]
fn makes_boxes(rt: HostRuntime) {
    let first = Solid::of_box(rt.alloc(), &[0, 0], &[2, 3]).expect(&rt, "memory");
    assert!(rt; has_rows(&first, &[[0, 0], [0, 3], [2, 0], [2, 3]]));
    let table: [(&[i32], &[i32]); 6] = [
        (&[0, 1], &[2, 1]),
        (&[-1_073_741_825], &[0]),
        (&[0, 0, 0], &[1, 1, 1_073_741_825]),
        (&[0, 0, 0, 0], &[1, 268_435_457, 1, 1]),
        (&[0, 0, -4_194_305, 0, 0], &[1, 1, 1, 1, 1]),
        (&[5, 5, 5, 5, 5, 5], &[6, 6, 6, 6, 6, 524_289]),
    ];
    for (lo, hi) in table {
        if lo.len() == 0 || 6 < lo.len() || hi.len() != lo.len() {
            panic!(rt; "a slip in the table");
        }
        assert_eq!(rt;
            Solid::of_box(rt.alloc(), lo, hi).err(),
            Some(BoxError::Range)
        );
    }
    let cube = Solid::of_box(rt.alloc(), &[-524_288; 6], &[524_288; 6]).expect(&rt, "memory");
    assert_eq!(rt; cube.len(), 64);
    let far = 1_073_741_824;
    let square = Solid::of_box(rt.alloc(), &[-far; 2], &[far; 2]).expect(&rt, "memory");
    assert!(rt;
        has_rows(
            &square,
            &[[-far, -far], [-far, far], [far, -far], [far, far]]
        )
    );
}

#[test]
fn combines_squares(rt: HostRuntime) {
    let a = Solid::of_box(rt.alloc(), &[0, 0], &[2, 2]).expect(&rt, "memory");
    let b = Solid::of_box(rt.alloc(), &[1, 1], &[3, 3]).expect(&rt, "memory");
    let both = xor(rt.alloc(), a.rows(), b.rows()).expect(&rt, "memory");
    let rows = [
        [0, 0],
        [0, 2],
        [1, 1],
        [1, 3],
        [2, 0],
        [2, 2],
        [3, 1],
        [3, 3],
    ];
    assert!(rt; has_rows(&both, &rows));
    let second = both.copy(rt.alloc()).expect(&rt, "memory");
    assert!(rt; both.same(&second) && !both.same(&a));
    let none = xor(rt.alloc(), both.rows(), second.rows()).expect(&rt, "memory");
    assert!(rt; none.same(&Solid::empty(rt.alloc(), 2)));
    assert!(rt; !none.same(&Solid::empty(rt.alloc(), 3)));
    let back = xor_into(second, both.rows(), b.rows()).expect(&rt, "memory");
    assert!(rt; back.same(&a));
    let owned = own(rt.alloc(), back.rows()).expect(&rt, "memory");
    assert!(rt; owned.same(&a));
}

#[test]
fn raises_a_couplet(rt: HostRuntime) {
    let below = Solid::of_box(rt.alloc(), &[0], &[2]).expect(&rt, "memory");
    let above = Solid::of_box(rt.alloc(), &[1], &[2]).expect(&rt, "memory");
    let out = Vec::new(rt.alloc());
    let first = append_xor(out, Some(5), below.rows(), above.rows()).expect(&rt, "memory");
    let both = append_xor(first, Some(7), above.rows(), below.rows()).expect(&rt, "memory");
    assert_eq!(rt; both.as_slice(), [5, 0, 5, 1, 7, 0, 7, 1].as_slice());
}
