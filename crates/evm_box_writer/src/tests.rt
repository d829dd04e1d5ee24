//! A solid that is written.

use super::write_boxes;
use evm_rows::{Solid, xor};

// A ring of eight squares: four boxes, 46 bytes.
#[test]
fn a_ring_is_four_lines(rt: HostRuntime) {
    let outer = Solid::of_box(rt.alloc(), &[0, 0], &[3, 3]).expect(&rt, "memory");
    let hole = Solid::of_box(rt.alloc(), &[1, 1], &[2, 2]).expect(&rt, "memory");
    let ring = xor(rt.alloc(), outer.rows(), hole.rows()).expect(&rt, "memory");
    let text = write_boxes(rt.alloc(), &ring).expect(&rt, "memory");
    let expected: &[u8] = b"evm-boxes 1 2\n0 0 1 3\n1 0 2 1\n1 2 2 3\n2 0 3 3\n";
    assert_eq!(rt; expected.len(), 46);
    assert!(rt; text.as_slice() == expected);
    let low = Solid::of_box(rt.alloc(), &[-1073741824], &[-7]).expect(&rt, "memory");
    let line = write_boxes(rt.alloc(), &low).expect(&rt, "memory");
    let expected: &[u8] = b"evm-boxes 1 1\n-1073741824 -7\n";
    assert!(rt; line.as_slice() == expected);
}
