//! Cuts and faces of small solids, by hand.
ghost use Rattle.std.specs.Prelude.{◌≡◌, ◌<◌, ◌≤◌};
ghost use Rattle.evm_cells.specs.Limits.{is_point_coord};

use super::{cut_faces, cuts, falling, rising};
use evm_rows::{Rows, Solid, limit, xor};
use std::alloc::Global;

// A box, from the numbers of its lower corner and then those of its upper one.
fn box_of(alloc: Global, dim: usize, corners: &[i32]) -> Option<Solid> {
    if 6 < dim || dim == 0 || corners.len() != 2 * dim {
        return None;
    }
    let (low, high) = corners.split_at(dim);
    Solid::of_box(alloc, low, high).ok()
}

// The exclusive or of boxes.
fn solid_of(alloc: Global, dim: usize, boxes: &[&[i32]]) -> Option<Solid> {
    if 6 < dim || dim == 0 {
        return None;
    }
    let mut whole = Solid::empty(alloc, dim);
    for corners in boxes {
        let part = box_of(alloc, dim, corners)?;
        if part.dim() == whole.dim() {
            whole = xor(alloc, whole.rows(), part.rows()).ok()?;
        }
    }
    Some(whole)
}

// Whether vertices of dimension `dim` have the coordinate.
#[tactic(auto, unfolding(evm_cells::specs::Limits::is_point_coord))]
fn is_height(dim: usize, at: i32) -> bool
    requires low { 0 < dim }
    requires high { dim ≤ 6 }
    ensures { result ≡ is_point_coord dim at }
{
    let limit = limit(dim);
    -limit <= at && at <= limit
}

// Whether these are the cuts of the axis.
fn has_cuts(alloc: Global, a: Rows<'_>, axis: usize, heights: &[i32]) -> bool {
    if a.dim() < 2 || axis == 0 || a.dim() < axis {
        return false;
    }
    match cuts(alloc, a, axis) {
        Ok(found) => found.as_slice() == heights,
        Err(_) => false,
    }
}

// Whether what rises and what falls at the height has these rows.
fn has_faces(alloc: Global, a: Rows<'_>, axis: usize, at: i32, up: &[i32], down: &[i32]) -> bool {
    if a.dim() < 2 || axis == 0 || a.dim() < axis || !is_height(a.dim(), at) {
        return false;
    }
    match (rising(alloc, a, axis, at), falling(alloc, a, axis, at)) {
        (Ok(above), Ok(below)) => above.rows().flat == up && below.rows().flat == down,
        _ => false,
    }
}

// The cuts, and what rises and falls at heights, of the solid of some boxes along an axis.
fn agrees(
    alloc: Global,
    boxes: (usize, &[&[i32]]),
    axis: usize,
    heights: &[i32],
    faces: &[(i32, &[i32], &[i32])],
) -> bool {
    let Some(solid) = solid_of(alloc, boxes.0, boxes.1) else {
        return false;
    };
    for (at, up, down) in faces {
        if !has_faces(alloc, solid.rows(), axis, *at, up, down) {
            return false;
        }
    }
    has_cuts(alloc, solid.rows(), axis, heights)
}

// An L of three squares, on both axes.
fn has_l_faces(alloc: Global) -> bool {
    let corner: &[&[i32]] = &[&[0, 0, 2, 1], &[0, 1, 1, 2]];
    let steps: &[(i32, &[i32], &[i32])] = &[
        (-1, &[], &[]),
        (0, &[0, 2], &[]),
        (1, &[], &[1, 2]),
        (2, &[], &[0, 1]),
        (3, &[], &[]),
    ];
    agrees(alloc, (2, corner), 1, &[0, 1, 2], steps)
        && agrees(alloc, (2, corner), 2, &[0, 1, 2], steps)
}

// A ring; two squares that meet at a corner.
fn has_hole_faces(alloc: Global) -> bool {
    let ring: &[&[i32]] = &[&[0, 0, 3, 3], &[1, 1, 2, 2]];
    let sides: &[(i32, &[i32], &[i32])] = &[(1, &[], &[1, 2]), (2, &[1, 2], &[])];
    let touching: &[&[i32]] = &[&[0, 0, 1, 1], &[1, 1, 2, 2]];
    let both: &[(i32, &[i32], &[i32])] = &[(1, &[1, 2], &[0, 1])];
    agrees(alloc, (2, ring), 2, &[0, 1, 2, 3], sides)
        && agrees(alloc, (2, touching), 1, &[0, 1, 2], both)
}

// A block along one axis, with its face there.
fn has_block_faces(alloc: Global, axis: usize, low: i32, high: i32, face: &[i32]) -> bool {
    let block: &[&[i32]] = &[&[0, 1, 2, 1, 3, 5]];
    let ends: &[(i32, &[i32], &[i32])] = &[(low, face, &[]), (high, &[], face)];
    agrees(alloc, (3, block), axis, &[low, high], ends)
}

// A bar from limit to limit, and nothing.
fn has_limit_faces(alloc: Global) -> bool {
    let bar: &[&[i32]] = &[&[-1_073_741_824, 0, 1_073_741_824, 1]];
    let heights: &[i32] = &[-1_073_741_824, 1_073_741_824];
    let ends: &[(i32, &[i32], &[i32])] = &[
        (-1_073_741_824, &[0, 1], &[]),
        (1_073_741_824, &[], &[0, 1]),
    ];
    agrees(alloc, (2, bar), 1, heights, ends) && agrees(alloc, (2, &[]), 1, &[], &[(0, &[], &[])])
}

// Whether the faces at the cuts of an axis have these heights and contents.
fn counts(
    alloc: Global,
    boxes: (usize, &[&[i32]]),
    axis: usize,
    want: &[(i32, u128, u128)],
) -> bool {
    let Some(solid) = solid_of(alloc, boxes.0, boxes.1) else {
        return false;
    };
    if solid.dim() < 2 || axis == 0 || solid.dim() < axis {
        return false;
    }
    let Ok(found) = cut_faces(alloc, solid.rows(), axis) else {
        return false;
    };
    for (cut, (at, rises, falls)) in found.as_slice().iter().zip(want) {
        if cut.at != *at || cut.rises != *rises || cut.falls != *falls {
            return false;
        }
    }
    found.len() == want.len()
}

// The ring across its second axis; the block across each.
fn has_counts(alloc: Global) -> bool {
    let ring: &[&[i32]] = &[&[0, 0, 3, 3], &[1, 1, 2, 2]];
    let block: &[&[i32]] = &[&[0, 1, 2, 1, 3, 5]];
    counts(
        alloc,
        (2, ring),
        2,
        &[(0, 3, 0), (1, 0, 1), (2, 1, 0), (3, 0, 3)],
    ) && counts(alloc, (3, block), 1, &[(0, 6, 0), (1, 0, 6)])
        && counts(alloc, (3, block), 2, &[(1, 3, 0), (3, 0, 3)])
        && counts(alloc, (3, block), 3, &[(2, 2, 0), (5, 0, 2)])
}

#[test]
fn faces(rt: HostRuntime) {
    let alloc = rt.alloc();
    assert!(rt; has_counts(alloc));
    assert!(rt; has_l_faces(alloc));
    assert!(rt; has_hole_faces(alloc));
    assert!(rt; has_block_faces(alloc, 1, 0, 1, &[1, 2, 1, 5, 3, 2, 3, 5]));
    assert!(rt; has_block_faces(alloc, 2, 1, 3, &[0, 2, 0, 5, 1, 2, 1, 5]));
    assert!(rt; has_block_faces(alloc, 3, 2, 5, &[0, 1, 0, 3, 1, 1, 1, 3]));
    assert!(rt; has_limit_faces(alloc));
}
