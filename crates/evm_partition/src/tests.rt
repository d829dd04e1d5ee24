//! Solids that are split.

use super::{Boxes, split};
use evm_rows::{Solid, xor};
use std::alloc::Global;

// The exclusive or of boxes, each with the numbers of its lower corner and then those of its upper one.
fn solid_of(alloc: Global, dim: usize, boxes: &[&[i32]]) -> Option<Solid> {
    if dim == 0 || 6 < dim {
        return None;
    }
    let mut all = Solid::empty(alloc, dim);
    for row in boxes {
        if row.len() != 2 * dim {
            return None;
        }
        let (lo, hi) = row.split_at(dim);
        let next = Solid::of_box(alloc, lo, hi).ok()?;
        if next.dim() != all.dim() {
            return None;
        }
        all = xor(alloc, all.rows(), next.rows()).ok()?;
    }
    Some(all)
}

// Whether these are the boxes.
fn are(boxes: &Boxes, rows: &[&[i32]]) -> bool {
    if boxes.len() != rows.len() {
        return false;
    }
    for (index, row) in rows.iter().enumerate() {
        if index < boxes.len() {
            let (lo, hi) = boxes.ends(index);
            if row.len() != lo.len() + hi.len() {
                return false;
            }
            let (low, high) = row.split_at(lo.len());
            if lo != low || hi != high {
                return false;
            }
        }
    }
    true
}

// Whether the solid of some boxes is split into others.
fn is_split(alloc: Global, dim: usize, from: &[&[i32]], into: &[&[i32]]) -> bool {
    let Some(solid) = solid_of(alloc, dim, from) else {
        return false;
    };
    match split(alloc, solid.rows()) {
        Ok(boxes) => are(&boxes, into),
        Err(_) => false,
    }
}

// Two runs of a line; a ring, whose boxes are cut at each change of its sections; two squares that meet at a corner; three cubes that
// share edges, and no face.
#[test]
fn solids_are_split_at_their_cuts(rt: HostRuntime) {
    let alloc = rt.alloc();
    assert!(rt; is_split(alloc, 1, &[&[-3, 4], &[6, 7]], &[&[-3, 4], &[6, 7]]));
    let ring: [&[i32]; 2] = [&[0, 0, 3, 3], &[1, 1, 2, 2]];
    let pieces: [&[i32]; 4] = [&[0, 0, 1, 3], &[1, 0, 2, 1], &[1, 2, 2, 3], &[2, 0, 3, 3]];
    assert!(rt; is_split(alloc, 2, &ring, &pieces), "the ring");
    let corner: [&[i32]; 2] = [&[0, 0, 2, 2], &[2, 2, 3, 3]];
    assert!(rt; is_split(alloc, 2, &corner, &corner), "two squares");
    let cubes: [&[i32]; 3] = [
        &[0, 0, 0, 1, 1, 1],
        &[0, 1, 1, 1, 2, 2],
        &[1, 1, 0, 2, 2, 1],
    ];
    assert!(rt; is_split(alloc, 3, &cubes, &cubes), "three cubes");
    assert!(rt; is_split(alloc, 4, &[], &[]), "nothing");
}
