//! Runs that load and save files.

use super::super::take::PIECE;
use super::super::top::Status;
use super::{bytes_of, end_of_run, expect, no_files, words_of};
use evm_outside::{MemShelf, MemSink, MemSource};
use std::alloc::Global;
use std::str;
use std::test::Fail;

/// The EVM file of the box from 0 0 to 2 3.
const BOX_FILE: &[u8] =
    b"NEVM\x02\x02\0\0\0\0\0\x02\0\0\0\0\0\0\0\x02\0\0\0\0\0\0\0\x03\0\0\0\x02\0\0\0\x02\0\0\0\0\0\0\0\x03";

/// Its EVM file of version 1.
const FIRST_BOX_FILE: &[u8] =
    b"NEVM\x01\x02\0\0\0\0\0\0\0\0\0\x04\0\0\0\0\0\0\0\0\0\0\0\0\0\0\0\x03\0\0\0\x02\0\0\0\0\0\0\0\x02\0\0\0\x03";

/// A shelf with the file `f`, of which one call fails.
fn shelf_of(alloc: Global, bytes: &[u8], failing: u64) -> Result<MemShelf, Fail> {
    let mut shelf = MemShelf::new(alloc, vec![in alloc; failing]?);
    shelf.put(alloc, b"f", bytes)?;
    Ok(shelf)
}

/// What stands for no call: more than a run makes.
const NEVER: u64 = 99;

/// Scripts that save equal solids, made in different ways, in the files `f` and `g`, and the replies.
const EQUAL_SOLIDS: [(&str, &str); 3] = [
    (
        "input a 2 / add a 0 0 2 1 / save a evm f / input b 2 / add b 0 0 1 1 / add b 1 0 2 1 / save b evm g",
        "ok 0 / ok 1 / ok 44 / ok 0 / ok 1 / ok 1 / ok 44",
    ),
    (
        "input r 2 / add r 0 0 3 3 / cut r 1 1 2 2 / input s 2 / add s 0 0 3 1 / add s 0 2 3 3 / add s 0 1 1 2 / add s 2 1 3 2 / save r evm f / save s evm g / input t 2 / load t evm f / boundary t / load t evm g",
        "ok 0 / ok 1 / ok 1 / ok 0 / ok 1 / ok 1 / ok 1 / ok 1 / ok 76 / ok 76 / ok 0 / ok 1 / ok 16 / ok 0",
    ),
    (
        "input a 2 / add a 0 0 2 3 / def c swap a 1 2 / def e swap c 1 2 / save a evm f / save e evm g",
        "ok 0 / ok 1 / ok 0 / ok 0 / ok 44 / ok 44",
    ),
];

/// The mesh of the cube from 0 0 0 to 1 1 1.
const CUBE_MESH: &[u8] =
    b"v 0 0 0\nv 0 0 1\nv 0 1 0\nv 0 1 1\nv 1 0 0\nv 1 0 1\nv 1 1 0\nv 1 1 1\nf 1 2 4 3\nf 5 7 8 6\nf 1 5 6 2\nf 3 4 8 7\nf 1 3 7 5\nf 2 6 8 4\n";

/// Scripts that save the file `f` in each form, the replies, and its bytes.
const SAVED: [(&str, &str, &[u8]); 4] = [
    (
        "input a 2 / save a evm f / toggle a 0 0 2 3 / save a evm f / show a",
        "ok 0 / ok 12 / ok 1 / ok 44 / ok 2 4 / 0 0 / 0 3 / 2 0 / 2 3",
        BOX_FILE,
    ),
    (
        "input r 2 / add r 0 0 3 3 / cut r 1 1 2 2 / save r boxes f / load r boxes f",
        "ok 0 / ok 1 / ok 1 / ok 46 / ok 0",
        b"evm-boxes 1 2\n0 0 1 3\n1 0 2 1\n1 2 2 3\n2 0 3 3\n",
    ),
    (
        "input a 2 / add a 0 0 2 1 / save a faces f",
        "ok 0 / ok 1 / ok 54",
        b"evm-faces 1 2\n1 0 r 0 1\n1 2 f 0 1\n2 0 r 0 2\n2 1 f 0 2\n",
    ),
    (
        "input u 3 / add u 0 0 0 1 1 1 / save u obj f",
        "ok 0 / ok 1 / ok 124",
        CUBE_MESH,
    ),
];

#[test]
fn a_solid_is_saved_in_its_one_file(rt: HostRuntime) -> Result<(), Fail> {
    let alloc = rt.alloc();
    for (script, replies, bytes) in SAVED {
        let mut shelf = no_files(alloc);
        expect(&rt, &mut shelf, script, replies, Status::Done)?;
        assert_eq!(rt; shelf.get(b"f"), Some(bytes), "at {script}");
    }
    for (script, replies) in EQUAL_SOLIDS {
        let mut shelf = no_files(alloc);
        expect(&rt, &mut shelf, script, replies, Status::Done)?;
        assert_eq!(rt; shelf.get(b"f").is_some(), true, "at {script}");
        assert_eq!(rt; shelf.get(b"f"), shelf.get(b"g"), "at {script}");
    }
    Ok(())
}

/// Files, scripts that load them, and the replies.
const LOADED: [(&[u8], &str, &str); 11] = [
    (
        BOX_FILE,
        "input a 2 / def c or a a / load a evm f / show a / load a evm f",
        "ok 0 / ok 0 / ok 2 / ok 2 4 / 0 0 / 0 3 / 2 0 / 2 3 / ok 0",
    ),
    (
        FIRST_BOX_FILE,
        "input a 2 / load a evm f / save a evm n / load a evm n",
        "ok 0 / ok 1 / ok 44 / ok 0",
    ),
    (
        b"evm-boxes 1 2\n0 0 1 3\n1 0 2 1\n1 2 2 3\n2 0 3 3\n",
        "input a 2 / load a boxes f / content a / boundary a / point a 1 1 / at a 1 1",
        "ok 0 / ok 1 / ok 8 / ok 16 / ok boundary / ok empty",
    ),
    (
        b"evm-boxes 1 2\r\n# two rooms\r\n0 0 2 2\r\n1 1 3 3\r\n",
        "input a 2 / load a boxes f / content a",
        "ok 0 / ok 1 / ok 7",
    ),
    (
        b"\tevm-boxes  1 2 \n\n \t\n  # a box\n -1\t0 1 1",
        "input a 2 / load a boxes f / show a",
        "ok 0 / ok 1 / ok 2 4 / -1 0 / -1 1 / 1 0 / 1 1",
    ),
    (
        b"evm-boxes 1 2\n",
        "input a 2 / add a 0 0 1 1 / load a boxes f / content a",
        "ok 0 / ok 1 / ok 1 / ok 0",
    ),
    (
        b"P5\n# scan\n2 2\n255\n\0\xc8\xc8\0",
        "input a 2 / load a pgm 128 f / content a / show a",
        "ok 0 / ok 1 / ok 2 / ok 2 6 / 0 1 / 0 2 / 1 0 / 1 2 / 2 0 / 2 1",
    ),
    (
        b"P5 1 1 65535\n\x01\0",
        "input a 2 / load a pgm 256 f / content a / load a pgm 257 f / content a",
        "ok 0 / ok 1 / ok 1 / ok 1 / ok 0",
    ),
    (
        b"P5 2 1 255\n\xc8\0\nP5 2 1 255\n\xc8\xc8\n",
        "input a 3 / load a pgm 128 f / content a / boundary a",
        "ok 0 / ok 1 / ok 3 / ok 14",
    ),
    (
        b"YUV4MPEG2 W2 H2 F25:1 Ip A1:1 C420jpeg XYSCSS=420JPEG\nFRAME\n\xff\0\0\0\x80\x80FRAME\n\xff\xff\0\0\x80\x80",
        "input a 3 / load a y4m 128 f / content a / boundary a / show a",
        "ok 0 / ok 1 / ok 3 / ok 14 / ok 3 12 / 0 0 0 / 0 0 2 / 0 1 0 / 0 1 2 / 1 0 0 / 1 0 1 / 1 1 0 / 1 1 1 / 2 0 1 / 2 0 2 / 2 1 1 / 2 1 2",
    ),
    (
        b"YUV4MPEG2 W2 H2 Cmono\n",
        "input a 3 / add a 0 0 0 1 1 1 / load a y4m 128 f / content a",
        "ok 0 / ok 1 / ok 1 / ok 0",
    ),
];

/// Forms, and files that are none of the form in dimension 2.
const NO_FORM: [(&str, &[u8]); 32] = [
    // A head without rows, and one that states more rows than any file has.
    ("evm", b"NEVM\x01\x02\0\0\0\0\0\0\0\0\0\x04"),
    ("evm", b"NEVM\x01\x02\0\0\xff\xff\xff\xff\xff\xff\xff\xff"),
    // The last row is missing, stands twice, or the first two are exchanged.
    (
        "evm",
        b"NEVM\x01\x02\0\0\0\0\0\0\0\0\0\x03\0\0\0\0\0\0\0\0\0\0\0\0\0\0\0\x03\0\0\0\x02\0\0\0\0",
    ),
    (
        "evm",
        b"NEVM\x01\x02\0\0\0\0\0\0\0\0\0\x05\0\0\0\0\0\0\0\0\0\0\0\0\0\0\0\x03\0\0\0\x02\0\0\0\0\0\0\0\x02\0\0\0\x03\0\0\0\x02\0\0\0\x03",
    ),
    (
        "evm",
        b"NEVM\x01\x02\0\0\0\0\0\0\0\0\0\x04\0\0\0\0\0\0\0\x03\0\0\0\0\0\0\0\0\0\0\0\x02\0\0\0\0\0\0\0\x02\0\0\0\x03",
    ),
    // Another dimension, another version, no head, and a byte too many.
    ("evm", b"NEVM\x01\x03\0\0\0\0\0\0\0\0\0\0"),
    ("evm", b"NEVM\x03\x02\0\0\0\0\0\0"),
    ("evm", b"NEVM\x01\x02\0\0\0\0\0\0\0\0\0"),
    ("evm", b"NEVM\x01\x02\0\0\0\0\0\0\0\0\0\0\0"),
    // A height that stands twice, a couplet without coordinates, an odd line, and the box without its last byte.
    (
        "evm",
        b"NEVM\x02\x02\0\0\0\0\0\x03\0\0\0\0\0\0\0\x01\0\0\0\0\0\0\0\0\0\0\0\x01\0\0\0\x03\0\0\0\x02\0\0\0\x02\0\0\0\0\0\0\0\x03",
    ),
    (
        "evm",
        b"NEVM\x02\x02\0\0\0\0\0\x03\0\0\0\0\0\0\0\x02\0\0\0\0\0\0\0\x03\0\0\0\x01\0\0\0\0\0\0\0\x02\0\0\0\x02\0\0\0\0\0\0\0\x03",
    ),
    (
        "evm",
        b"NEVM\x02\x02\0\0\0\0\0\x01\0\0\0\0\0\0\0\x02\0\0\0\0\0\0\0\x03",
    ),
    (
        "evm",
        b"NEVM\x02\x02\0\0\0\0\0\x02\0\0\0\0\0\0\0\x02\0\0\0\0\0\0\0\x03\0\0\0\x02\0\0\0\x02\0\0\0\0\0\0\0",
    ),
    (
        "evm",
        b"NEVM\x01\x02\0\0\0\0\0\0\0\0\0\x04\0\0\0\0\0\0\0\0\0\0\0\0\0\0\0\x03\0\0\0\x02\0\0\0\0\0\0\0\x02\0\0\0\x03\0",
    ),
    ("evm", b""),
    // A line with too few numbers, an empty box, no first line, and another dimension.
    (
        "boxes",
        b"evm-boxes 1 2\r\n# two rooms\r\n0 0 2\r\n1 1 3 3\r\n",
    ),
    (
        "boxes",
        b"evm-boxes 1 2\r\n# two rooms\r\n0 0 0 2\r\n1 1 3 3\r\n",
    ),
    ("boxes", b""),
    ("boxes", b"# note\nevm-boxes 1 2\n"),
    ("boxes", b"evm-boxes 1 3\n"),
    ("boxes", b"evm-boxes 1 9\n"),
    ("boxes", b"evm-boxes 2 2\n"),
    // The last sample is missing, a second image, no image, and a sample of three bytes.
    ("pgm 128", b"P5\n# scan\n2 2\n255\n\0\xc8\xc8"),
    ("pgm 128", b"P5 2 1 255\n\xc8\0\nP5 2 1 255\n\xc8\xc8\n"),
    ("pgm 128", b""),
    ("pgm 128", b"P5 1 1 65536\n\0\x01\0"),
    // A width that no grid has, samples that are not there, and no width.
    (
        "pgm 128",
        b"P5 10000000000000000000000000000000000000000 1 255\n",
    ),
    ("pgm 128", b"P5 524288 524288 65535\n"),
    ("pgm 128", b"P5 0 1 255\n"),
    // Samples of ten bits, no frame, and two widths.
    ("y4m 128", b"YUV4MPEG2 W2 H2 C420p10\n"),
    ("y4m 128", b"YUV4MPEG2 W2 H2 Cmono\n"),
    ("y4m 128", b"YUV4MPEG2 W2 W2 H2\n"),
];

/// Streams that are none: a head of a frame that is too long, and a frame without its last byte.
const NO_STREAM: [&[u8]; 2] = [
    b"YUV4MPEG2 W2 H2\nFRAMES\n",
    b"YUV4MPEG2 W2 H2\nFRAME\n\xff\xff\xff",
];

/// The number of the call that fails, scripts of which some lines are refused, and the replies. The file `f` is that of
/// the box.
const REFUSED: [(u64, &str, &str); 8] = [
    (
        0,
        "input a 2 / toggle a 0 0 2 3 / save a evm a.evm / save a evm a.evm",
        "ok 0 / ok 1 / no shelf / ok 44",
    ),
    (
        0,
        "input a 2 / add a 0 0 1 1 / load a evm f / content a / load a evm f / content a",
        "ok 0 / ok 1 / no shelf / ok 1 / ok 1 / ok 6",
    ),
    (
        0,
        "input a 2 / save a evm f / load a evm f / content a",
        "ok 0 / no shelf / ok 1 / ok 6",
    ),
    (
        NEVER,
        "input a 2 / add a 0 0 1 1 / load a evm none / content a / save a evm none / load a evm none",
        "ok 0 / ok 1 / no missing / ok 1 / ok 44 / ok 0",
    ),
    // Nothing is fetched or placed where a line is refused before.
    (
        0,
        "input a 2 / save a obj f / save zz obj f / load a evm f / load a evm f / save a obj f",
        "ok 0 / no dim / no name / no shelf / ok 1 / no dim",
    ),
    (
        0,
        "input a 2 / input d 4 / def c or a a / load zz evm f / load c evm f / load d pgm 1 f / load a pgm 65536 f / load a y4m -1 f / save zz evm f / load a evm f / load a evm f",
        "ok 0 / ok 0 / ok 0 / no name / no kind / no dim / no range / no range / no name / no shelf / ok 2",
    ),
    (
        NEVER,
        "input d 3 / load d evm f / input a 2 / def s shift a 1073741823 0 / load a evm f / show a",
        "ok 0 / no form / ok 0 / ok 0 / no range / ok 2 0",
    ),
    (
        NEVER,
        "input a 2 / load a evm / load a evm .f / load a evm -f / load a evm a/f / load a boxes 1 f / load a pgm f / load a y4m x f / save a pgm f / save a evm / load a evm f",
        "ok 0 / no syntax / no syntax / no syntax / no syntax / no syntax / no syntax / no syntax / no syntax / no syntax / ok 1",
    ),
];

#[test]
fn a_load_puts_the_solid_of_a_file_in_place_of_the_input(rt: HostRuntime) -> Result<(), Fail> {
    let alloc = rt.alloc();
    for (bytes, script, replies) in LOADED {
        let mut shelf = shelf_of(alloc, bytes, NEVER)?;
        expect(&rt, &mut shelf, script, replies, Status::Done)?;
        assert_eq!(rt; shelf.get(b"f"), Some(bytes), "at {script}");
    }
    for (failing, script, replies) in REFUSED {
        let mut shelf = shelf_of(alloc, BOX_FILE, failing)?;
        expect(&rt, &mut shelf, script, replies, Status::Refused)?;
        assert_eq!(rt; shelf.get(b"f"), Some(BOX_FILE), "at {script}");
    }
    for (form, bytes) in NO_FORM {
        let mut shelf = shelf_of(alloc, bytes, NEVER)?;
        let script = format!(in alloc; "input a 2 / add a 0 0 1 1 / load a {form} f / content a")?;
        let replies = "ok 0 / ok 1 / no form / ok 1";
        expect(&rt, &mut shelf, script.as_str(), replies, Status::Refused)?;
        assert_eq!(rt; shelf.get(b"f"), Some(bytes), "at {form} {bytes:?}");
    }
    for bytes in NO_STREAM {
        let mut shelf = shelf_of(alloc, bytes, NEVER)?;
        let script = "input a 3 / add a 0 0 0 1 1 1 / load a y4m 128 f / content a";
        expect(
            &rt,
            &mut shelf,
            script,
            "ok 0 / ok 1 / no form / ok 1",
            Status::Refused,
        )?;
    }
    Ok(())
}

#[test]
fn a_line_whose_reply_is_cut_has_saved_its_file(rt: HostRuntime) -> Result<(), Fail> {
    let alloc = rt.alloc();
    let words = words_of(alloc, &["evm", "run"])?;
    let script = "input a 2\nsave a evm f\nsave a evm g\n";
    let mut input = MemSource::new(bytes_of(alloc, script)?, PIECE, Vec::new(alloc));
    let mut output = MemSink::new(alloc, 64, vec![in alloc; 1u64]?)?;
    let mut shelf = shelf_of(alloc, BOX_FILE, NEVER)?;
    let status = end_of_run(alloc, words.as_slice(), &mut input, &mut output, &mut shelf)?;
    assert_eq!(rt; status, Status::WriteFault);
    assert_eq!(rt; str::from_utf8(output.bytes()), Ok("ok 0\n"));
    assert_eq!(rt;
        shelf.get(b"f"),
        Some(b"NEVM\x02\x02\0\0\0\0\0\0".as_slice())
    );
    assert_eq!(rt; shelf.get(b"g"), None);
    Ok(())
}
