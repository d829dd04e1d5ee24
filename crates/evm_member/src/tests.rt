use crate::{Place, fills, is_cell, is_point, place};
use evm_rows::{Solid, xor};

fn filled(solid: &Solid, cell: &[i32]) -> Option<bool> {
    solid.facts();
    if is_cell(solid.dim(), cell) {
        Some(fills(solid.rows(), cell))
    } else {
        None
    }
}

fn placed(solid: &Solid, point: &[i32]) -> Option<Place> {
    solid.facts();
    if is_point(solid.dim(), point) {
        Some(place(solid.rows(), point))
    } else {
        None
    }
}

// A square, and what is left of it and of a second one where they overlap at one cell.
#[test]
fn squares(rt: HostRuntime) {
    let square = Solid::of_box(rt.alloc(), &[0, 0], &[2, 2]).expect(&rt, "memory");
    let second = Solid::of_box(rt.alloc(), &[1, 1], &[3, 3]).expect(&rt, "memory");
    let both = xor(rt.alloc(), square.rows(), second.rows()).expect(&rt, "memory");
    for (cell, of_square, of_both) in [
        ([0, 0], true, true),
        ([1, 1], true, false),
        ([2, 2], false, true),
        ([-1, 0], false, false),
        ([0, 2], false, false),
    ] {
        assert_eq!(rt; filled(&square, &cell), Some(of_square), "{cell:?}");
        assert_eq!(rt; filled(&both, &cell), Some(of_both), "{cell:?}");
    }
    for (point, of_square, of_both) in [
        ([1, 1], Place::Inside, Place::Boundary),
        ([1, 0], Place::Boundary, Place::Boundary),
        ([0, 0], Place::Boundary, Place::Boundary),
        ([2, 2], Place::Boundary, Place::Boundary),
        ([3, 3], Place::Outside, Place::Boundary),
        ([4, 1], Place::Outside, Place::Outside),
    ] {
        assert_eq!(rt; placed(&square, &point), Some(of_square), "{point:?}");
        assert_eq!(rt; placed(&both, &point), Some(of_both), "{point:?}");
    }
}

// A cube, a box of six dimensions, and a square as large as the limits allow.
#[test]
fn blocks(rt: HostRuntime) {
    let limit = 1_073_741_824;
    let (low, high) = ([-limit, -limit], [limit, limit]);
    let table: [(&[i32], &[i32], &[i32], Place, bool); 9] = [
        (&[0, 0, 0], &[2, 2, 2], &[1, 1, 1], Place::Inside, true),
        (&[0, 0, 0], &[2, 2, 2], &[1, 1, 2], Place::Boundary, false),
        (&[0, 0, 0], &[2, 2, 2], &[0, 0, 0], Place::Boundary, true),
        (&[0, 0, 0], &[2, 2, 2], &[1, 3, 1], Place::Outside, false),
        (&[0; 6], &[2; 6], &[1; 6], Place::Inside, true),
        (
            &[0; 6],
            &[2; 6],
            &[1, 1, 1, 1, 2, 1],
            Place::Boundary,
            false,
        ),
        (&[4], &[7], &[7], Place::Boundary, false),
        (&low, &high, &[limit - 1, -limit], Place::Boundary, true),
        (&low, &high, &[limit - 1, limit - 1], Place::Inside, true),
    ];
    for (lo, hi, at, stands, fills) in table {
        if lo.len() == 0 || 6 < lo.len() || hi.len() != lo.len() {
            panic!(rt; "a slip in the table");
        }
        let block = Solid::of_box(rt.alloc(), lo, hi).expect(&rt, "memory");
        assert_eq!(rt; placed(&block, at), Some(stands), "{at:?}");
        assert_eq!(rt; filled(&block, at), Some(fills), "{at:?}");
    }
    assert!(rt; is_point(2, &[limit, -limit]) && !is_point(2, &[limit + 1, 0]));
    assert!(rt; is_cell(2, &[limit - 1, -limit]) && !is_cell(2, &[limit, 0]));
    assert!(rt; !is_point(2, &[0]) && !is_cell(2, &[0, 0, 0]));
}
