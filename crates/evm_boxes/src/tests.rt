//! Files that are read, and each refusal.

use super::{BoxFileError, BoxRow, join, read_boxes};
use evm_rows::{NoMemory, Solid};
use std::alloc::Global;
use std::test::Fail;

// Squares of side 2 at each place of a grid: so many that a plane cuts them.
const SQUARES: &[u8] = b"evm-boxes 1 2\n\
    0 0 2 2\n0 1 2 3\n0 2 2 4\n0 3 2 5\n0 4 2 6\n0 5 2 7\n\
    1 0 3 2\n1 1 3 3\n1 2 3 4\n1 3 3 5\n1 4 3 6\n1 5 3 7\n\
    2 0 4 2\n2 1 4 3\n2 2 4 4\n2 3 4 5\n2 4 4 6\n2 5 4 7\n\
    3 0 5 2\n3 1 5 3\n3 2 5 4\n3 3 5 5\n3 4 5 6\n3 5 5 7\n\
    4 0 6 2\n4 1 6 3\n4 2 6 4\n4 3 6 5\n4 4 6 6\n4 5 6 7\n\
    5 0 7 2\n5 1 7 3\n5 2 7 4\n5 3 7 5\n5 4 7 6\n5 5 7 7\n";

// Two squares that overlap.
fn two_squares(alloc: Global) -> Result<Solid, NoMemory> {
    let boxes = [
        BoxRow {
            dim: 2,
            lo: [1, 1, 0, 0, 0, 0],
            hi: [3, 3, 0, 0, 0, 0],
        },
        BoxRow {
            dim: 2,
            lo: [0, 0, 0, 0, 0, 0],
            hi: [2, 2, 0, 0, 0, 0],
        },
    ];
    join(alloc, 2, &boxes)
}

#[test]
fn files_state_unions(rt: HostRuntime) -> Result<(), Fail> {
    let alloc = rt.alloc();
    let table: [(&[u8], &[i32]); 3] = [
        (
            b"evm-boxes 1 2\r\n# two squares\n\n0 0 2 2\n\t1 1  0000000003 3 \r\n",
            &[0, 0, 0, 2, 1, 2, 1, 3, 2, 0, 2, 1, 3, 1, 3, 3],
        ),
        (
            b"evm-boxes 1 2\n0 0 1 3\n1 0 2 1\n1 2 2 3\n2 0 3 3\n",
            &[0, 0, 0, 3, 1, 1, 1, 2, 2, 1, 2, 2, 3, 0, 3, 3],
        ),
        (SQUARES, &[0, 0, 0, 7, 7, 0, 7, 7]),
    ];
    for (text, corners) in table {
        let solid = read_boxes(alloc, 2, text)?;
        assert_eq!(rt; solid.flat(), corners);
    }
    let none = read_boxes(alloc, 3, b" evm-boxes\t1 03")?;
    assert_eq!(rt; none.len(), 0);
    let joined = two_squares(alloc)?;
    assert_eq!(rt; joined.flat(), table[0].1);
    let none = join(alloc, 2, &[])?;
    assert_eq!(rt; none.len(), 0);
    Ok(())
}

#[test]
fn the_first_refusal_is_answered(rt: HostRuntime) {
    let table: [(&[u8], BoxFileError); 12] = [
        (b"", BoxFileError::Head),
        (b"\nevm-boxes 1 2\n", BoxFileError::Head),
        (b"evm-boxes 01 2\n0 0 1 1", BoxFileError::Head),
        (b"evm-boxes 1 2 2", BoxFileError::Head),
        (b"evm-boxes 1 3\nx", BoxFileError::Dim),
        (
            b"evm-boxes 1 2\n0 0 1 1\n0 0 2\n0 0 0 2",
            BoxFileError::Line(3),
        ),
        (b"evm-boxes 1 2\n0 0 1 1 1", BoxFileError::Line(2)),
        (b"evm-boxes 1 2\n\n0 0 0 2\n0 0 2", BoxFileError::Range(3)),
        (b"evm-boxes 1 2\n0 0 1 1073741825", BoxFileError::Range(2)),
        (b"evm-boxes 1 2\n-1073741825 0 1 1", BoxFileError::Range(2)),
        (b"evm-boxes 1 2\n0 0 1 9999999999", BoxFileError::Range(2)),
        (b"evm-boxes 1 2\n0 0 1 00000000001", BoxFileError::Line(2)),
    ];
    for (text, error) in table {
        assert_eq!(rt; read_boxes(rt.alloc(), 2, text).err(), Some(error));
    }
    let far = b"evm-boxes 1 4\n0 0 0 0 1 1 1 268435457";
    let error = read_boxes(rt.alloc(), 4, far).err();
    assert_eq!(rt; error, Some(BoxFileError::Range(2)));
}
