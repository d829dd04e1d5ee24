use crate::{boundary, content};
use evm_rows::Solid;
use std::alloc::Global;

// Content and boundary content of the solid of these numbers; nothing where they are none.
fn measured(alloc: Global, dim: usize, numbers: &[i32]) -> Option<(u128, u128)> {
    if dim == 0 || 6 < dim || numbers.len() % dim != 0 {
        return None;
    }
    let flat = Vec::from_slice(alloc, numbers).ok()?;
    let solid = Solid::check(alloc, dim, flat).ok()?;
    let cells = content(alloc, solid.rows()).ok()?;
    let faces = boundary(alloc, solid.rows()).ok()?;
    Some((cells, faces))
}

#[test]
fn measures_solids(rt: HostRuntime) {
    let table: [(usize, &[i32], (u128, u128)); 6] = [
        (2, &[], (0, 0)),
        (1, &[0, 3, 5, 6], (4, 4)),
        (2, &[0, 0, 0, 2, 2, 0, 2, 2], (4, 8)),
        (
            2,
            &[0, 0, 0, 2, 1, 2, 1, 3, 2, 0, 2, 1, 3, 1, 3, 3],
            (7, 12),
        ),
        (2, &[0, 0, 0, 1, 1, 0, 1, 2, 2, 1, 2, 2], (2, 8)),
        (
            3,
            &[
                0, 0, 0, 0, 0, 1, 0, 1, 0, 0, 1, 1, 1, 0, 0, 1, 0, 1, 1, 1, 0, 1, 1, 1,
            ],
            (1, 6),
        ),
    ];
    for (dim, numbers, want) in table {
        assert_eq!(rt;
            measured(rt.alloc(), dim, numbers),
            Some(want),
            "{numbers:?}"
        );
    }
}

#[test]
fn measures_the_largest_box(rt: HostRuntime) {
    let all = Solid::of_box(rt.alloc(), &[-524_288; 6], &[524_288; 6]).expect(&rt, "memory");
    let cells = content(rt.alloc(), all.rows()).expect(&rt, "memory");
    let faces = boundary(rt.alloc(), all.rows()).expect(&rt, "memory");
    assert_eq!(rt; cells, 1_329_227_995_784_915_872_903_807_060_280_344_576);
    assert_eq!(rt; faces, 15_211_807_202_738_752_817_960_438_464_512);
}
