//! Neighbours among the boxes of solids.

use crate::neighbours::links;
use evm_partition::split;
use evm_rows::{Solid, xor};
use std::alloc::Global;

/// A box, by the numbers of its lower corner and then those of its upper one.
pub(crate) fn box_of(alloc: Global, row: &[i32]) -> Option<Solid> {
    let dim = row.len() / 2;
    if dim == 0 || 6 < dim || row.len() != 2 * dim {
        return None;
    }
    Solid::of_box(alloc, &row[..dim], &row[dim..]).ok()
}

// Whether the boxes of the exclusive or of two boxes are linked by these pairs.
fn are_linked(alloc: Global, whole: &[i32], other: &[i32], pairs: &[(usize, usize)]) -> bool {
    let (Some(whole), Some(other)) = (box_of(alloc, whole), box_of(alloc, other)) else {
        return false;
    };
    if whole.dim() != other.dim() {
        return false;
    }
    let Ok(solid) = xor(alloc, whole.rows(), other.rows()) else {
        return false;
    };
    let Ok(boxes) = split(alloc, solid.rows()) else {
        return false;
    };
    let Ok(found) = links(alloc, &boxes) else {
        return false;
    };
    found.len() == pairs.len()
        && found.iter().zip(pairs).all(|(link, pair)| link.first == pair.0 && link.second == pair.1)
}

// The faces that the boxes of a cube without its middle share.
const SHELL: [(usize, usize); 12] = [
    (0, 1),
    (0, 2),
    (0, 3),
    (0, 4),
    (1, 2),
    (1, 3),
    (2, 4),
    (3, 4),
    (1, 5),
    (2, 5),
    (3, 5),
    (4, 5),
];

// Two runs of a line; a ring; two squares that meet at a corner; two cubes that share an edge; a cube without its middle; a box of
// four dimensions with a hole.
#[test]
fn boxes_that_share_faces_are_linked(rt: HostRuntime) {
    let alloc = rt.alloc();
    assert!(rt; are_linked(alloc, &[0, 9], &[2, 3], &[]), "runs");
    let ring = [(0, 1), (0, 2), (1, 3), (2, 3)];
    assert!(rt;
        are_linked(alloc, &[0, 0, 3, 3], &[1, 1, 2, 2], &ring),
        "the ring"
    );
    assert!(rt;
        are_linked(alloc, &[0, 0, 2, 2], &[2, 2, 3, 3], &[]),
        "a corner"
    );
    assert!(rt;
        are_linked(alloc, &[0, 0, 0, 1, 1, 1], &[1, 0, 1, 2, 1, 2], &[]),
        "an edge"
    );
    assert!(rt;
        are_linked(alloc, &[0, 0, 0, 3, 3, 3], &[1, 1, 1, 2, 2, 2], &SHELL),
        "a shell"
    );
    let within = [(0, 1), (1, 2)];
    assert!(rt;
        are_linked(
            alloc,
            &[0, 0, 0, 0, 3, 3, 3, 3],
            &[1, 0, 0, 0, 2, 1, 3, 3],
            &within
        ),
        "four"
    );
}
