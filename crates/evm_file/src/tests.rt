use crate::{FileError, read, write};
use evm_rows::{Solid, xor};
use std::alloc::{AllocError, Global};

// The box from (0, 0) to (2, 3).
const BOX: [u8; 44] = [
    0x4E, 0x45, 0x56, 0x4D, 2, 2, 0, 0, 0, 0, 0, 2, 0, 0, 0, 0, 0, 0, 0, 2, 0, 0, 0, 0, 0, 0, 0, 3,
    0, 0, 0, 2, 0, 0, 0, 2, 0, 0, 0, 0, 0, 0, 0, 3,
];

// Its file of version 1.
const FIRST: [u8; 48] = [
    0x4E, 0x45, 0x56, 0x4D, 1, 2, 0, 0, 0, 0, 0, 0, 0, 0, 0, 4, 0, 0, 0, 0, 0, 0, 0, 0, 0, 0, 0, 0,
    0, 0, 0, 3, 0, 0, 0, 2, 0, 0, 0, 0, 0, 0, 0, 2, 0, 0, 0, 3,
];

#[test]
fn writes_and_reads_a_box(rt: HostRuntime) {
    let solid = Solid::of_box(rt.alloc(), &[0, 0], &[2, 3]).expect(&rt, "memory");
    let file = write(rt.alloc(), &solid).expect(&rt, "memory");
    assert_eq!(rt; file.as_slice(), BOX.as_slice());
    for bytes in [BOX.as_slice(), FIRST.as_slice()] {
        let again = read(rt.alloc(), bytes).expect(&rt, "a file");
        assert!(rt; again.same(&solid));
    }
    let none = Solid::empty(rt.alloc(), 3);
    let file = write(rt.alloc(), &none).expect(&rt, "memory");
    assert_eq!(rt; file.as_slice(), b"NEVM\x02\x03\0\0\0\0\0\0".as_slice());
    let again = read(rt.alloc(), file.as_slice()).expect(&rt, "a file");
    assert!(rt; again.same(&none));
}

// Two boxes of three dimensions that share an edge.
#[test]
fn reads_what_it_wrote(rt: HostRuntime) {
    let near = Solid::of_box(rt.alloc(), &[-1, 0, 0], &[1, 2, 3]).expect(&rt, "memory");
    let far = Solid::of_box(rt.alloc(), &[1, 2, -5], &[4, 3, 1_000_000]).expect(&rt, "memory");
    let both = xor(rt.alloc(), near.rows(), far.rows()).expect(&rt, "memory");
    let file = write(rt.alloc(), &both).expect(&rt, "memory");
    assert_eq!(rt; file.len(), 156);
    let again = read(rt.alloc(), file.as_slice()).expect(&rt, "a file");
    assert!(rt; again.same(&both));
}

#[test]
fn refuses_headers(rt: HostRuntime) {
    let table: [(&[u8], usize, u8, FileError); 12] = [
        (&BOX, 0, 0x6E, FileError::Head),
        (&BOX, 4, 3, FileError::Head),
        (&BOX, 5, 7, FileError::Head),
        (&BOX, 7, 1, FileError::Head),
        (&BOX, 5, 3, FileError::Length),
        (&BOX, 11, 1, FileError::Length),
        (&BOX, 8, 255, FileError::Length),
        (&FIRST, 4, 0, FileError::Head),
        (&FIRST, 5, 0, FileError::Head),
        (&FIRST, 5, 3, FileError::Length),
        (&FIRST, 15, 3, FileError::Length),
        (&FIRST, 8, 255, FileError::Length),
    ];
    for (file, place, byte, want) in table {
        let mut bytes = Vec::from_slice(rt.alloc(), file).expect(&rt, "memory");
        if let Some(old) = bytes.get_mut(place) {
            *old = byte;
        }
        let answer = read(rt.alloc(), bytes.as_slice()).err();
        assert_eq!(rt; answer, Some(want), "{place}");
    }
    let none: [u8; 0] = [];
    assert_eq!(rt; read(rt.alloc(), &none).err(), Some(FileError::Head));
    assert_eq!(rt; read(rt.alloc(), &FIRST[..15]).err(), Some(FileError::Head));
    assert_eq!(rt;
        read(rt.alloc(), &FIRST[..47]).err(),
        Some(FileError::Length)
    );
    assert_eq!(rt; read(rt.alloc(), &BOX[..7]).err(), Some(FileError::Head));
    assert_eq!(rt; read(rt.alloc(), &BOX[..8]).err(), Some(FileError::Length));
    assert_eq!(rt; read(rt.alloc(), &BOX[..43]).err(), Some(FileError::Length));
    let huge = [
        0x4E, 0x45, 0x56, 0x4D, 1, 6, 0, 0, 255, 255, 255, 255, 255, 255, 255, 255,
    ];
    assert_eq!(rt; read(rt.alloc(), &huge).err(), Some(FileError::Length));
}

// The refusal of the bytes with these numbers behind them.
fn refusal(alloc: Global, front: &[u8], numbers: &[i32]) -> Result<Option<FileError>, AllocError> {
    let mut bytes = Vec::from_slice(alloc, front)?;
    for number in numbers {
        bytes.extend_from_slice(&number.to_be_bytes())?;
    }
    Ok(read(alloc, bytes.as_slice()).err())
}

// Numbers behind a header of version 1 in dimension 2: the count, and the rows; and what refuses them.
const FIRST_NUMBERS: [(&[i32], Option<FileError>); 5] = [
    (&[4, 0, 0, 0, 3, 2, 0, 2, 3], None),
    (&[3, 0, 0, 0, 3, 2, 0], Some(FileError::Odd(1))),
    (
        &[5, 0, 0, 0, 3, 2, 0, 2, 3, 2, 3],
        Some(FileError::Order(4)),
    ),
    (&[4, 0, 3, 0, 0, 2, 0, 2, 3], Some(FileError::Order(1))),
    (&[2, 0, 0, 0, 1_073_741_825], Some(FileError::Range(1))),
];

// Numbers behind a header of version 2 in dimension 2: a body; and what refuses it.
const SECOND_NUMBERS: [(&[i32], Option<FileError>); 11] = [
    (
        &[2, -1_073_741_824, 2, -1, 0, 1_073_741_824, 2, -1, 0],
        None,
    ),
    (
        &[3, 0, 1, 0, 0, 1, 3, 2, 2, 0, 3],
        Some(FileError::Order(1)),
    ),
    (
        &[3, 0, 2, 0, 3, 1, 0, 2, 2, 0, 3],
        Some(FileError::Empty(2)),
    ),
    (&[1, 0, 2, 0, 3], Some(FileError::Odd(1))),
    (&[2, 0, 2, 3, 0, 2, 2, 0, 3], Some(FileError::Order(1))),
    (&[2, 0, 2, 0, 3, 2, 2, 0, 0], Some(FileError::Order(3))),
    (&[2, 2, 2, 0, 3, 0, 2, 0, 3], Some(FileError::Order(2))),
    (&[2, 0, 1, 0, 2, 1, 0], Some(FileError::Odd(2))),
    (
        &[2, 0, 2, 3, 0, 2, 2, 0, 1_073_741_825],
        Some(FileError::Range(3)),
    ),
    (&[1, 0, 0], Some(FileError::Empty(0))),
    (&[0, 0], Some(FileError::Length)),
];

#[test]
fn refuses_rows(rt: HostRuntime) {
    for (numbers, want) in FIRST_NUMBERS {
        let answer = refusal(rt.alloc(), &FIRST[..12], numbers).expect(&rt, "memory");
        assert_eq!(rt; answer, want, "{numbers:?}");
    }
    for (numbers, want) in SECOND_NUMBERS {
        let answer = refusal(rt.alloc(), &BOX[..8], numbers).expect(&rt, "memory");
        assert_eq!(rt; answer, want, "{numbers:?}");
    }
}
