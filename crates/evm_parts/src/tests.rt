//! The parts of small solids.

use crate::link_tests::box_of;
use crate::parts;
use evm_rows::{Solid, xor};
use std::alloc::Global;

// The exclusive or of boxes.
fn solid_of(alloc: Global, boxes: &[&[i32]]) -> Option<Solid> {
    let (first, others) = boxes.split_first()?;
    let mut all = box_of(alloc, first)?;
    for row in others {
        let next = box_of(alloc, row)?;
        if next.dim() != all.dim() {
            return None;
        }
        all = xor(alloc, all.rows(), next.rows()).ok()?;
    }
    Some(all)
}

// Whether the parts of a solid are these, in order; each is the exclusive or of boxes, as the solid is.
fn has_parts(alloc: Global, whole: &[&[i32]], expected: &[&[&[i32]]]) -> bool {
    let Some(solid) = solid_of(alloc, whole) else {
        return false;
    };
    let Ok(found) = parts(alloc, solid.rows()) else {
        return false;
    };
    if found.dim() != solid.dim() || found.len() != expected.len() {
        return false;
    }
    for (index, boxes) in expected.iter().enumerate() {
        let Some(part) = solid_of(alloc, boxes) else {
            return false;
        };
        if index >= found.len() || found.rows(index).flat != part.flat() {
            return false;
        }
    }
    true
}

// A block, and a ring after it, which has most of the boxes.
const LATE: [&[i32]; 3] = [&[0, 0, 1, 1], &[2, 0, 5, 3], &[3, 1, 4, 2]];

// Two arms that a bar joins at their ends.
const ARMS: [&[i32]; 3] = [&[0, 0, 2, 1], &[0, 2, 2, 3], &[2, 0, 3, 3]];

// Runs of a line; squares that meet at a corner; three cubes that share edges, in the order of their cells; a ring with a block inside,
// and one after a block; two arms; a shell of four dimensions with a box inside; and nothing.
#[test]
fn solids_fall_into_parts(rt: HostRuntime) {
    let alloc = rt.alloc();
    let runs: [&[i32]; 3] = [&[0, 1], &[2, 3], &[4, 9]];
    assert!(rt;
        has_parts(alloc, &runs, &[&[&[0, 1]], &[&[2, 3]], &[&[4, 9]]]),
        "runs"
    );
    let corner: [&[i32]; 2] = [&[0, 0, 2, 2], &[2, 2, 3, 3]];
    assert!(rt;
        has_parts(alloc, &corner, &[&corner[..1], &corner[1..]]),
        "a corner"
    );
    let cubes: [&[i32]; 3] = [
        &[1, 1, 0, 2, 2, 1],
        &[0, 1, 1, 1, 2, 2],
        &[0, 0, 0, 1, 1, 1],
    ];
    let each = [&cubes[2..], &cubes[1..2], &cubes[..1]];
    assert!(rt; has_parts(alloc, &cubes, &each), "edges");
    let ring: [&[i32]; 3] = [&[0, 0, 5, 5], &[1, 1, 4, 4], &[2, 2, 3, 3]];
    assert!(rt;
        has_parts(alloc, &ring, &[&ring[..2], &ring[2..]]),
        "a ring"
    );
    assert!(rt;
        has_parts(alloc, &LATE, &[&LATE[..1], &LATE[1..]]),
        "a late ring"
    );
    assert!(rt; has_parts(alloc, &ARMS, &[&ARMS]), "two arms");
    let shell: [&[i32]; 3] = [
        &[0, 0, 0, 0, 5, 5, 5, 5],
        &[1, 1, 1, 1, 4, 4, 4, 4],
        &[2, 2, 2, 2, 3, 3, 3, 3],
    ];
    assert!(rt;
        has_parts(alloc, &shell, &[&shell[..2], &shell[2..]]),
        "a shell"
    );
    let nothing: [&[i32]; 2] = [&[0, 0, 1, 1], &[0, 0, 1, 1]];
    assert!(rt; has_parts(alloc, &nothing, &[]), "nothing");
}
