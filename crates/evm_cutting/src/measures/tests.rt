use super::{Sweeps, boundary, boundary_of, content, content_of};
use evm_rows::{Solid, xor};
use std::alloc::Global;

// Three cubes that make an L, in three dimensions.
fn corner(alloc: Global) -> Option<Solid> {
    let bar = Solid::of_box(alloc, &[0, 0, 0], &[2, 1, 1]).ok()?;
    let cube = Solid::of_box(alloc, &[0, 1, 0], &[1, 2, 1]).ok()?;
    if bar.dim() != cube.dim() {
        return None;
    }
    xor(alloc, bar.rows(), cube.rows()).ok()
}

// Content and boundary content of the L, by one sweep and by cutting it down to boxes.
fn measured(alloc: Global) -> Option<[u128; 4]> {
    let sweeps = Sweeps {
        rows: 4,
        heights: 0,
    };
    let whole = corner(alloc)?;
    Some([
        content(alloc, whole.rows()).ok()?,
        boundary(alloc, whole.rows()).ok()?,
        content_of(alloc, corner(alloc)?, sweeps, 0, 8).ok()?,
        boundary_of(alloc, corner(alloc)?, sweeps, 1, 8).ok()?,
    ])
}

#[test]
fn measures_an_l_by_cutting_it(rt: HostRuntime) {
    assert_eq!(rt; measured(rt.alloc()), Some([3, 14, 3, 14]));
}
