ghost use Rattle.std.specs.Prelude.{◌≡◌, ◌⊎◌, ◌≤◌};

use crate::{VoxelError, read_pgm, read_y4m};
use std::alloc::Global;

// Whether a PGM file gives the solid with these coordinates, or this refusal.
fn pgm_gives(
    alloc: Global,
    dim: usize,
    threshold: u32,
    bytes: &[u8],
    want: Result<&[i32], VoxelError>,
) -> bool
    requires dim { (dim ≡ 2) ⊎ (dim ≡ 3) }
    requires threshold { threshold ≤ 65535 }
{
    match (read_pgm(alloc, dim, threshold, bytes), want) {
        (Ok(solid), Ok(rows)) => solid.dim() == dim && solid.flat() == rows,
        (Err(e), Err(f)) => e == f,
        _ => false,
    }
}

// Whether a Y4M stream gives the solid with these coordinates, or this refusal.
fn y4m_gives(
    alloc: Global,
    dim: usize,
    threshold: u32,
    bytes: &[u8],
    want: Result<&[i32], VoxelError>,
) -> bool
    requires dim { (dim ≡ 2) ⊎ (dim ≡ 3) }
    requires threshold { threshold ≤ 65535 }
{
    match (read_y4m(alloc, dim, threshold, bytes), want) {
        (Ok(solid), Ok(rows)) => solid.dim() == dim && solid.flat() == rows,
        (Err(e), Err(f)) => e == f,
        _ => false,
    }
}

// The two squares (0, 1) and (1, 0).
const SQUARES: [i32; 12] = [0, 1, 0, 2, 1, 0, 1, 2, 2, 0, 2, 1];

// The three cubes (0, 0, 0), (0, 0, 1) and (1, 0, 1).
const CUBES: [i32; 36] = [
    0, 0, 0, 0, 0, 2, 0, 1, 0, 0, 1, 2, 1, 0, 0, 1, 0, 1, 1, 1, 0, 1, 1, 1, 2, 0, 1, 2, 0, 2, 2, 1,
    1, 2, 1, 2,
];

#[test]
fn reads_one_image(rt: HostRuntime) {
    let file = b"P5\n# scan\n2 2\n255\n\x00\xC8\xC8\x00";
    assert!(rt; pgm_gives(rt.alloc(), 2, 128, file, Ok(&SQUARES)));
    assert!(rt; pgm_gives(rt.alloc(), 2, 200, file, Ok(&SQUARES)));
    assert!(rt; pgm_gives(rt.alloc(), 2, 201, file, Ok(&[])));
    assert!(rt; pgm_gives(rt.alloc(), 2, 128, &file[..21], Err(VoxelError::Short)));
    let wide = b"P5 1 1 65535\n\x01\x00";
    assert!(rt; pgm_gives(rt.alloc(), 2, 256, wide, Ok(&[0, 0, 0, 1, 1, 0, 1, 1])));
    assert!(rt; pgm_gives(rt.alloc(), 2, 257, wide, Ok(&[])));
}

#[test]
fn reads_a_stack(rt: HostRuntime) {
    let file = b"P5 2 1 255\n\xC8\x00\nP5 2 1 255\n\xC8\xC8\n";
    assert!(rt; pgm_gives(rt.alloc(), 3, 128, file, Ok(&CUBES)));
    assert!(rt; pgm_gives(rt.alloc(), 2, 128, file, Err(VoxelError::Shape)));
    let mixed = b"P5 2 1 65535\n\x00\xC8\x00\x00P5#\r2#\n1\x0B200 \xC8\xFF \t";
    assert!(rt; pgm_gives(rt.alloc(), 3, 200, mixed, Ok(&CUBES)));
    let sizes = b"P5 2 1 255\n\xC8\x00P5 1 2 255\n\xC8\xC8";
    assert!(rt; pgm_gives(rt.alloc(), 3, 200, sizes, Err(VoxelError::Shape)));
}

#[test]
fn reads_wide_images(rt: HostRuntime) {
    let file =
        b"P5 40 1 255\naaaaaaaaaaaaaaaaaaaaaaaaaaaaaabbbbbaaaaaP5 40 1 255\naaaaaaaaaaaaaaaaaaaaaaaaaaaaaabbbbbaaaaa";
    let bar = [
        30, 0, 0, 30, 0, 2, 30, 1, 0, 30, 1, 2, 35, 0, 0, 35, 0, 2, 35, 1, 0, 35, 1, 2,
    ];
    assert!(rt; pgm_gives(rt.alloc(), 3, 98, file, Ok(&bar)));
    let whole = [
        0, 0, 0, 0, 0, 2, 0, 1, 0, 0, 1, 2, 40, 0, 0, 40, 0, 2, 40, 1, 0, 40, 1, 2,
    ];
    assert!(rt; pgm_gives(rt.alloc(), 3, 97, file, Ok(&whole)));
    assert!(rt;
        pgm_gives(
            rt.alloc(),
            2,
            98,
            &file[..52],
            Ok(&[30, 0, 30, 1, 35, 0, 35, 1])
        )
    );
}

#[test]
fn refuses_pgm_files(rt: HostRuntime) {
    let table: [(&[u8], VoxelError); 10] = [
        (b"", VoxelError::Magic),
        (b"P2 1 1 255\n\x00", VoxelError::Magic),
        (b"P5 0 1 255\n\x00", VoxelError::Header),
        (b"P5 1 1 65536\n\x00\x00", VoxelError::Header),
        (b"P5 1 1 255#\n\x00", VoxelError::Header),
        (b"P5 1 1 #255\n", VoxelError::Header),
        (b"P5 1073741825 1 255\n\x00", VoxelError::Range),
        (b"P5 524288 524288 65535\n", VoxelError::Short),
        (b"P5 1073741824 1073741824 65535\n", VoxelError::Short),
        (
            b"P5 10000000000000000000000000000000000000000 1 255\n",
            VoxelError::Range,
        ),
    ];
    for (bytes, want) in table {
        assert!(rt; pgm_gives(rt.alloc(), 2, 128, bytes, Err(want)), "{want:?}");
    }
}

#[test]
fn reads_a_stream(rt: HostRuntime) {
    let file =
        b"YUV4MPEG2 W2 H2 F25:1 Ip A1:1 C420jpeg XYSCSS=420JPEG\nFRAME\n\xFF\x00\x00\x00\x80\x80FRAME\n\xFF\xFF\x00\x00\x80\x80";
    assert!(rt; y4m_gives(rt.alloc(), 3, 128, file, Ok(&CUBES)));
    assert!(rt; y4m_gives(rt.alloc(), 2, 128, file, Err(VoxelError::Shape)));
    let one = b"YUV4MPEG2 H2  W2 Cmono\nFRAME Ip\n\x00\xC8\xC8\x00";
    assert!(rt; y4m_gives(rt.alloc(), 2, 200, one, Ok(&SQUARES)));
    let odd = b"YUV4MPEG2 W1 H1 \nFRAME\n\xFF\x00\x00FRAME\n\xFF\x00\x00";
    let tower = [
        0, 0, 0, 0, 0, 2, 0, 1, 0, 0, 1, 2, 1, 0, 0, 1, 0, 2, 1, 1, 0, 1, 1, 2,
    ];
    assert!(rt; y4m_gives(rt.alloc(), 3, 255, odd, Ok(&tower)));
    let none = b"YUV4MPEG2 W2 H2 Cmono\n";
    assert!(rt; y4m_gives(rt.alloc(), 3, 128, none, Ok(&[])));
    assert!(rt; y4m_gives(rt.alloc(), 2, 128, none, Err(VoxelError::Shape)));
}

#[test]
fn refuses_y4m_streams(rt: HostRuntime) {
    let table: [(&[u8], VoxelError); 9] = [
        (b"YUV4MPEG2", VoxelError::Magic),
        (b"YUV4MPEG2 W2 H2", VoxelError::Header),
        (b"YUV4MPEG2 W2 H2\r\n", VoxelError::Header),
        (b"YUV4MPEG2 W2 W2 H2\n", VoxelError::Header),
        (b"YUV4MPEG2 W2 H2 C420p10\n", VoxelError::Kind),
        (b"YUV4MPEG2 W1073741825 H2 C411\n", VoxelError::Kind),
        (b"YUV4MPEG2 W2 H1073741825\n", VoxelError::Range),
        (b"YUV4MPEG2 W2 H2\nFRAMES\n", VoxelError::Header),
        (b"YUV4MPEG2 W2 H2\nFRAME\n\x00\x00\x00", VoxelError::Short),
    ];
    for (bytes, want) in table {
        assert!(rt; y4m_gives(rt.alloc(), 3, 128, bytes, Err(want)), "{want:?}");
    }
}
