//! Faces files and meshes, byte by byte.

use super::{write_faces, write_obj};
use evm_rows::Solid;

// The faces file of the solid box from (0, 0) to (2, 1): 54 bytes; of an empty solid, the head line alone.
#[test]
fn faces(rt: HostRuntime) {
    let solid = Solid::of_box(rt.alloc(), &[0, 0], &[2, 1]).expect(&rt, "memory");
    let text = write_faces(rt.alloc(), &solid).expect(&rt, "memory");
    let expected: &[u8] = b"evm-faces 1 2\n1 0 r 0 1\n1 2 f 0 1\n2 0 r 0 2\n2 1 f 0 2\n";
    assert_eq!(rt; expected.len(), 54);
    assert!(rt; text.as_slice() == expected);
    let none = write_faces(rt.alloc(), &Solid::empty(rt.alloc(), 2)).expect(&rt, "memory");
    let expected: &[u8] = b"evm-faces 1 2\n";
    assert!(rt; none.as_slice() == expected);
}

// The mesh of the unit cube: 124 bytes; of an empty solid, none.
#[test]
fn meshes(rt: HostRuntime) {
    let cube = Solid::of_box(rt.alloc(), &[0, 0, 0], &[1, 1, 1]).expect(&rt, "memory");
    let text = write_obj(rt.alloc(), &cube).expect(&rt, "memory");
    let expected: &[u8] =
        b"v 0 0 0\nv 0 0 1\nv 0 1 0\nv 0 1 1\nv 1 0 0\nv 1 0 1\nv 1 1 0\nv 1 1 1\nf 1 2 4 3\nf 5 7 8 6\nf 1 5 6 2\nf 3 4 8 7\nf 1 3 7 5\nf 2 6 8 4\n";
    assert_eq!(rt; expected.len(), 124);
    assert!(rt; text.as_slice() == expected);
    let none = write_obj(rt.alloc(), &Solid::empty(rt.alloc(), 3)).expect(&rt, "memory");
    assert_eq!(rt; none.len(), 0);
}
