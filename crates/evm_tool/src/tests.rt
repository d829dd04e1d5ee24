//! Whole runs over a source, a sink and a shelf in memory: their replies and how they end.

mod failing;
mod files;
mod meters;

ghost use Rattle.std.specs.Prelude.{◌≡◌, ◌<◌};

use super::stock_meters;
use super::take::{PIECE, SCRIPT_LIMIT};
use super::top::{Status, evm_main};
use evm_meter::Meter;
use evm_outside::{MemShelf, MemSink, MemSource};
use evm_steps::Steps;
use std::alloc::{AllocError, Global};
use std::marker::Brand;
use std::process::Abort;
use std::str;
use std::sync::ledger::{Blank, Ledger};
use std::test::Fail;

/// Words of a command line.
fn words_of(alloc: Global, texts: &[&str]) -> Result<Vec<String>, AllocError> {
    let mut words = Vec::new(alloc);
    for text in texts {
        words.push(text.to_string(alloc)?)?;
    }
    Ok(words)
}

/// The text with a line for each part between ` / `.
fn lines_of(alloc: Global, parts: &str) -> Result<String, AllocError> {
    let mut lines = parts.replace(alloc, " / ", "\n")?;
    lines.push('\n')?;
    Ok(lines)
}

/// The bytes of a text.
fn bytes_of(alloc: Global, text: &str) -> Result<Vec<u8>, AllocError> {
    let mut bytes = Vec::new(alloc);
    bytes.extend_from_slice(text.as_bytes())?;
    Ok(bytes)
}

/// So many spaces.
fn spaces(alloc: Global, count: usize) -> Result<Vec<u8>, AllocError> {
    vec![in alloc; b' '; count]
}

/// A shelf without files that does not fail.
fn no_files(alloc: Global) -> MemShelf {
    MemShelf::new(alloc, Vec::new(alloc))
}

/// The top call with these meters, with its steps counted by a new counter.
fn counted<M: Meter, L: Ledger>(
    blank: Blank,
    alloc: Global,
    words: &[String],
    input: &mut MemSource,
    output: &mut MemSink,
    shelf: &mut MemShelf,
    meters: Vec<M>,
) -> Status
    requires name { blank.name ≡ L.name }
    requires parts { blank.parts ≡ L.parts }
    requires some { 0 < L.parts }
{
    let mut steps: Steps<L> = Steps::start(blank);
    evm_main(alloc, words, input, output, shelf, meters, &mut steps)
}

/// The top call with these meters.
fn main_of<M: Meter>(
    alloc: Global,
    words: &[String],
    input: &mut MemSource,
    output: &mut MemSink,
    shelf: &mut MemShelf,
    meters: Vec<M>,
) -> Status {
    counted::<M, Brand>(Blank::new(1), alloc, words, input, output, shelf, meters)
}

/// How the top call ends with the meters of the program.
fn end_of_run(
    alloc: Global,
    words: &[String],
    input: &mut MemSource,
    output: &mut MemSink,
    shelf: &mut MemShelf,
) -> Result<Status, AllocError> {
    let meters = stock_meters(alloc)?;
    Ok(main_of(alloc, words, input, output, shelf, meters))
}

/// Runs a script over a shelf and with these meters, from a source and to a sink that do not fail.
fn run_over<M: Meter>(
    alloc: Global,
    script: Vec<u8>,
    shelf: &mut MemShelf,
    meters: Vec<M>,
) -> Result<(Status, MemSink), Fail> {
    let words = words_of(alloc, &["evm", "run"])?;
    let mut input = MemSource::new(script, PIECE, Vec::new(alloc));
    let mut output = MemSink::new(alloc, 4096, Vec::new(alloc))?;
    let status = main_of(
        alloc,
        words.as_slice(),
        &mut input,
        &mut output,
        shelf,
        meters,
    );
    Ok((status, output))
}

/// Runs a script where there are no files.
fn run(alloc: Global, script: Vec<u8>) -> Result<(Status, MemSink), Fail> {
    let meters = stock_meters(alloc)?;
    run_over(alloc, script, &mut no_files(alloc), meters)
}

/// Runs a script over a shelf with the meters of the program, and compares the replies and how it ends. The sign ` / ` stands
/// between lines.
fn expect(
    rt: &(impl Abort + AllocGlobal),
    shelf: &mut MemShelf,
    script: &str,
    replies: &str,
    end: Status,
) -> Result<(), Fail> {
    let meters = stock_meters(rt.alloc())?;
    expect_with(rt, shelf, meters, script, replies, end)
}

/// The same with these meters.
fn expect_with<M: Meter>(
    rt: &(impl Abort + AllocGlobal),
    shelf: &mut MemShelf,
    meters: Vec<M>,
    script: &str,
    replies: &str,
    end: Status,
) -> Result<(), Fail> {
    let alloc = rt.alloc();
    let script_bytes = lines_of(alloc, script)?.into_bytes();
    let (status, output) = run_over(alloc, script_bytes, shelf, meters)?;
    let wanted = lines_of(alloc, replies)?;
    assert_eq!(rt;
        str::from_utf8(output.bytes()),
        Ok(wanted.as_str()),
        "at {script}"
    );
    assert_eq!(rt; status, end, "at {script}");
    Ok(())
}

/// Scripts of which no line is refused, and the replies: boxes and what is asked of them, then formulas, then shapes.
const FINE: [(&str, &str); 14] = [
    (
        "input a 2 / add a -1073741824 -1073741824 1073741824 1073741824 / content a / boundary a",
        "ok 0 / ok 1 / ok 4611686018427387904 / ok 8589934592",
    ),
    (
        "input a 2 / toggle a 0 0 2 3 / show a",
        "ok 0 / ok 1 / ok 2 4 / 0 0 / 0 3 / 2 0 / 2 3",
    ),
    (
        "input a 2 / add a 0 0 1 1 / add a 1 0 2 1 / show a / add a 0 0 1 1",
        "ok 0 / ok 1 / ok 1 / ok 2 4 / 0 0 / 0 1 / 2 0 / 2 1 / ok 0",
    ),
    (
        "input a 2 / add a 0 0 1 1 / add a 1 1 2 2 / show a / boundary a / parts a",
        "ok 0 / ok 1 / ok 1 / ok 2 6 / 0 0 / 0 1 / 1 0 / 1 2 / 2 1 / 2 2 / ok 8 / ok 2 / part 4 1 / 0 0 / 0 1 / 1 0 / 1 1 / part 4 1 / 1 1 / 1 2 / 2 1 / 2 2",
    ),
    (
        "input a 2 / add a 0 0 2 2 / add a 1 1 3 3 / content a / boundary a / point a 2 2 / cut a 2 2 3 3 / point a 2 2 / at a 2 2 / show a",
        "ok 0 / ok 1 / ok 1 / ok 7 / ok 12 / ok inside / ok 1 / ok boundary / ok empty / ok 2 10 / 0 0 / 0 2 / 1 2 / 1 3 / 2 0 / 2 1 / 2 2 / 2 3 / 3 1 / 3 2",
    ),
    (
        "input a 2 / add a 0 0 2 2 / add a 1 1 3 3 / show a / cut a 0 0 3 3 / show a",
        "ok 0 / ok 1 / ok 1 / ok 2 8 / 0 0 / 0 2 / 1 2 / 1 3 / 2 0 / 2 1 / 3 1 / 3 3 / ok 1 / ok 2 0",
    ),
    (
        "input a 6 / add a -524288 -524288 -524288 -524288 -524288 -524288 524288 524288 524288 524288 524288 524288 / content a / boundary a",
        "ok 0 / ok 1 / ok 1329227995784915872903807060280344576 / ok 15211807202738752817960438464512",
    ),
    (
        "input a 2 / add a 0 0 2 2 / input b 2 / add b 1 1 3 3 / def c and a b / content c / list / cut b 1 1 2 2 / show c",
        "ok 0 / ok 1 / ok 0 / ok 1 / ok 0 / ok 1 / ok 3 / a 2 input / b 2 input / c 2 and a b / ok 2 / ok 2 0",
    ),
    (
        "input a 2 / add a 0 0 2 2 / def c and a a / toggle a 1 1 3 3 / show c / at c 1 1 / content c",
        "ok 0 / ok 1 / ok 0 / ok 2 / ok 2 8 / 0 0 / 0 2 / 1 1 / 1 3 / 2 0 / 2 2 / 3 1 / 3 3 / ok empty / ok 6",
    ),
    (
        "input a 2 / add a 0 0 2 2 / def s box 2 0 1 3 3 / def d sub s a / content d / def s xor a a / list / content d / drop d / drop s / list",
        "ok 0 / ok 1 / ok 0 / ok 0 / ok 4 / ok 2 / ok 3 / a 2 input / s 2 xor a a / d 2 sub s a / ok 0 / ok 0 / ok 0 / ok 1 / a 2 input",
    ),
    ("list / input a 6 / list", "ok 0 / ok 0 / ok 1 / a 6 input"),
    (
        "input a 3 / add a 0 0 0 1 1 1 / add a 0 0 5 1 1 6 / project a 3 / section a 3 5 / section a 3 1",
        "ok 0 / ok 1 / ok 1 / ok 2 4 / 0 0 / 0 1 / 1 0 / 1 1 / ok 2 4 / 0 0 / 0 1 / 1 0 / 1 1 / ok 2 0",
    ),
    (
        "input a 2 / add a 0 0 2 1 / faces a 1 / faces a 2 / add a 2 0 3 1 / cut a 1 0 2 1 / faces a 1 / parts a",
        "ok 0 / ok 1 / ok 2 / 0 1 0 / 2 0 1 / ok 2 / 0 2 0 / 1 0 2 / ok 1 / ok 1 / ok 4 / 0 1 0 / 1 0 1 / 2 1 0 / 3 0 1 / ok 2 / part 4 1 / 0 0 / 0 1 / 1 0 / 1 1 / part 4 1 / 2 0 / 2 1 / 3 0 / 3 1",
    ),
    (
        "input a 3 / add a 0 0 0 1 1 1 / add a 0 1 1 1 2 2 / add a 1 1 0 2 2 1 / parts a",
        "ok 0 / ok 1 / ok 1 / ok 1 / ok 3 / part 8 1 / 0 0 0 / 0 0 1 / 0 1 0 / 0 1 1 / 1 0 0 / 1 0 1 / 1 1 0 / 1 1 1 / part 8 1 / 0 1 1 / 0 1 2 / 0 2 1 / 0 2 2 / 1 1 1 / 1 1 2 / 1 2 1 / 1 2 2 / part 8 1 / 1 1 0 / 1 1 1 / 1 2 0 / 1 2 1 / 2 1 0 / 2 1 1 / 2 2 0 / 2 2 1",
    ),
];

/// Scripts of which some lines are refused, and the replies: shapes, then names, numbers and words.
const REFUSED: [(&str, &str); 11] = [
    (
        "input b 3 / def l lift b 4 0 1 / add b 268435455 0 0 268435457 1 1 / add b 268435455 0 0 268435456 1 1 / content l",
        "ok 0 / ok 0 / no range / ok 2 / ok 1",
    ),
    (
        "input a 2 / faces a 0 / faces a 3 / faces zz 1 / parts zz / faces a / parts a 1 / faces a 2 / parts a",
        "ok 0 / no dim / no dim / no name / no name / no syntax / no syntax / ok 0 / ok 0",
    ),
    (
        "input a 2 / add a 0 0 1 1 / def s shift a 1073741823 0 / add a 1 0 2 1 / content a / show s",
        "ok 0 / ok 1 / ok 0 / no range / ok 1 / ok 2 4 / 1073741823 0 / 1073741823 1 / 1073741824 0 / 1073741824 1",
    ),
    (
        "input a 2 / add a 0 0 2 1 / def m mirror a 1 / show m / def w swap a 1 2 / show w / def k clip a 1 0 5 5 / show k / def l lift a 3 4 6 / boundary l / def g slice l 3 5 / content g / def p proj l 3 / content p / def h slice a 1 0 / section a 1 0",
        "ok 0 / ok 1 / ok 0 / ok 2 4 / -2 0 / -2 1 / 0 0 / 0 1 / ok 0 / ok 2 4 / 0 0 / 0 2 / 1 0 / 1 2 / ok 0 / ok 2 4 / 1 0 / 1 1 / 2 0 / 2 1 / ok 0 / ok 16 / ok 0 / ok 2 / ok 0 / ok 2 / no dim / ok 1 2 / 0 / 1",
    ),
    (
        "input a 2 / add a 0 0 1 1 / add a 0 5 1 6 / def m mirror a 1 / def s shift m -1073741823 0 / add a 1 0 2 1 / content m / content s",
        "ok 0 / ok 1 / ok 1 / ok 0 / ok 0 / no range / ok 2 / ok 2",
    ),
    (
        "input a 2 / add a 0 0 2 2 / input b 2 / add b 1 1 3 3 / def c and a b / def d or c a / def c or d a / def d or d a / content c",
        "ok 0 / ok 1 / ok 0 / ok 1 / ok 0 / ok 0 / no cycle / no cycle / ok 1",
    ),
    (
        "input a 2 / add a 0 0 2 2 / def f or a a / add zz 5 5 1 1 / def q and a zz / input a 7 / input z 7 / add f 0 0 1 1 / def a or a a / drop a / add a 0 0 0 1 1 1 / add a 0 0 0 1 / add a 1073741824 0 1073741825 1 / fly a / add a 0 0 1 12345678901 / content a",
        "ok 0 / ok 1 / ok 0 / no name / no name / no taken / no dim / no kind / no kind / no used / no dim / no range / no range / no syntax / no syntax / ok 4",
    ),
    (
        "input a 2 / add a 0 0 2 2 / def c or a a / def d sub c a / content d / def e and a a / def c and e e / list / drop d / drop e",
        "ok 0 / ok 1 / ok 0 / ok 0 / ok 0 / ok 0 / ok 0 / ok 4 / a 2 input / c 2 and e e / d 2 sub c a / e 2 and a a / ok 0 / no used",
    ),
    (
        "input a 2 / add a 0 0 2 2 / add zz 5 5 1 1 / input a 7 / input z 7 / add a 0 0 0 1 1 1 / add a 0 0 0 1 / add a 1073741824 0 1073741825 1 / fly a / add a 0 0 1 12345678901 / content a",
        "ok 0 / ok 1 / no name / no taken / no dim / no dim / no range / no range / no syntax / no syntax / ok 4",
    ),
    (
        "input a 2 / toggle a 0 0 2 2 / point a 1 1 / point a 1 0 / point a 3 3 / at a 1 1 / at a 2 2 / at a 9999999999 0 / toggle a 1 1 3 3 / at a 1 1 / point a 2 2",
        "ok 0 / ok 1 / ok inside / ok boundary / ok outside / ok filled / ok empty / no range / ok 1 / ok empty / ok boundary",
    ),
    (
        "input a 2 / input\ta\t3 / - / show - / add a - 0 1 1 / add a -- 0 1 1 / add a --1 0 1 1 / add a +1 0 2 2 / show a\0 / \0 / show \u{e9} / input abcdefghijklmnopqrstuvwxyz0123456 2 / input abcdefghijklmnopqrstuvwxyz012345 2 / show 1a / show A / add a 00000000001 0 2 2 / add a 1 2 3 4 5 6 7 8 9 10 11 12 13 / add a 0 0 1 1 x / input b 2 2 / show / show a",
        "ok 0 / no taken / no syntax / no syntax / no syntax / no syntax / no syntax / no syntax / no syntax / no syntax / no syntax / no syntax / ok 0 / no syntax / no syntax / no syntax / no syntax / no syntax / no syntax / no syntax / ok 2 0",
    ),
];

#[test]
fn each_line_has_its_reply_and_a_refused_line_changes_nothing(rt: HostRuntime) -> Result<(), Fail> {
    let alloc = rt.alloc();
    for (script, replies) in FINE {
        expect(&rt, &mut no_files(alloc), script, replies, Status::Done)?;
    }
    for (script, replies) in REFUSED {
        expect(&rt, &mut no_files(alloc), script, replies, Status::Refused)?;
    }
    Ok(())
}

#[test]
fn empty_lines_and_comments_have_no_reply_and_line_ends_may_vary(
    rt: HostRuntime,
) -> Result<(), Fail> {
    let alloc = rt.alloc();
    let first_run = "ok 0\nok 1\nok 2 4\n0 0\n0 3\n2 0\n2 3\n";
    let scripts = [
        ("", ""),
        ("# note\n", ""),
        ("\n", ""),
        ("   \n", ""),
        ("input a 2\ntoggle a 0 0 2 3\nshow a", first_run),
        ("input a 2\r\ntoggle a 0 0 2 3\r\nshow a\r\n", first_run),
    ];
    for (script, replies) in scripts {
        let (status, output) = run(alloc, bytes_of(alloc, script)?)?;
        assert_eq!(rt;
            str::from_utf8(output.bytes()),
            Ok(replies),
            "at {script:?}"
        );
        assert_eq!(rt; status, Status::Done, "at {script:?}");
    }
    Ok(())
}

#[test]
fn a_line_may_have_4096_bytes_beside_its_end(rt: HostRuntime) -> Result<(), Fail> {
    let alloc = rt.alloc();
    let lines = [
        (4096, "\n", ""),
        (4096, "\r\n", ""),
        (4097, "\n", "no line\n"),
        (4096, "\r\r\n", "no line\n"),
        (200_000, "\ninput a 2\n", "no line\nok 0\n"),
        (200_000, "", "no line\n"),
    ];
    for (count, end, reply) in lines {
        let mut script = spaces(alloc, count)?;
        script.extend_from_slice(end.as_bytes())?;
        let (_, output) = run(alloc, script)?;
        assert_eq!(rt;
            str::from_utf8(output.bytes()),
            Ok(reply),
            "at {count} and {end:?}"
        );
    }
    Ok(())
}

/// What stands for no call: more than a run makes.
const NEVER: u64 = 99;

/// How many bytes a call of the source gives, which of its calls fails, and how much room the sink has; then a script, what is
/// written, and how the run ends. Its last line may lack its LF.
const CUT: [(usize, u64, usize, &str, &str, Status); 6] = [
    (14, 1, 64, "input a 2\ntogg", "ok 0\n", Status::ReadFault),
    (
        PIECE,
        NEVER,
        8,
        "input a 2\ntoggle a 0 0 2 3\nshow a\n",
        "ok 0\nok ",
        Status::WriteFault,
    ),
    (
        PIECE,
        NEVER,
        7,
        "input a 2\ninput a 2",
        "ok 0\nno",
        Status::WriteFault,
    ),
    (
        1,
        NEVER,
        64,
        "input a 2\r\nshow a",
        "ok 0\nok 2 0\n",
        Status::Done,
    ),
    (
        1,
        11,
        64,
        "input a 2\r\nshow a",
        "ok 0\n",
        Status::ReadFault,
    ),
    (1, 10, 64, "input a 2\r\nshow a", "", Status::ReadFault),
];

#[test]
fn a_call_that_fails_cuts_the_replies(rt: HostRuntime) -> Result<(), Fail> {
    let alloc = rt.alloc();
    let words = words_of(alloc, &["evm", "run"])?;
    for (piece, failing, room, script, written, end) in CUT {
        let mut input = MemSource::new(bytes_of(alloc, script)?, piece, vec![in alloc; failing]?);
        let mut output = MemSink::new(alloc, room, Vec::new(alloc))?;
        let mut shelf = no_files(alloc);
        let status = end_of_run(alloc, words.as_slice(), &mut input, &mut output, &mut shelf)?;
        assert_eq!(rt; status, end, "at {script:?}");
        assert_eq!(rt;
            str::from_utf8(output.bytes()),
            Ok(written),
            "at {script:?}"
        );
    }
    Ok(())
}

#[test]
fn a_script_may_be_as_long_as_the_limit(rt: HostRuntime) -> Result<(), Fail> {
    let alloc = rt.alloc();
    let (status, output) = run(alloc, spaces(alloc, SCRIPT_LIMIT)?)?;
    assert_eq!(rt; str::from_utf8(output.bytes()), Ok("no line\n"));
    assert_eq!(rt; status, Status::Refused);
    let mut script = bytes_of(alloc, "input a 2\n")?;
    script.extend_from_slice(spaces(alloc, SCRIPT_LIMIT - 9)?.as_slice())?;
    let (status, output) = run(alloc, script)?;
    assert_eq!(rt; str::from_utf8(output.bytes()), Ok("ok 0\n"));
    assert_eq!(rt; status, Status::TooLong);
    Ok(())
}

#[test]
fn other_words_than_those_of_a_run_are_refused(rt: HostRuntime) -> Result<(), Fail> {
    let alloc = rt.alloc();
    let faulty: [&[&str]; 8] = [
        &[],
        &["evm"],
        &["evm", "walk"],
        &["evm", "run", "x"],
        &["evm", "gen", "--seed", "1"],
        &["evm", "gen", "--seed", "1", "--seed", "2", "--edits", "3"],
        &["evm", "gen", "--seed", "1", "--edits", "0"],
        &["evm", "--help"],
    ];
    for texts in faulty {
        let words = words_of(alloc, texts)?;
        let mut input = MemSource::new(bytes_of(alloc, "input a 2\n")?, PIECE, Vec::new(alloc));
        let mut output = MemSink::new(alloc, 64, Vec::new(alloc))?;
        let mut shelf = no_files(alloc);
        let status = end_of_run(alloc, words.as_slice(), &mut input, &mut output, &mut shelf)?;
        assert_eq!(rt; status, Status::Words, "at {texts:?}");
        assert_eq!(rt; output.bytes().len(), 0, "at {texts:?}");
    }
    Ok(())
}

#[test]
fn a_generated_script_is_summed_up(rt: HostRuntime) -> Result<(), Fail> {
    let alloc = rt.alloc();
    let words = words_of(alloc, &["evm", "gen", "--edits", "1", "--seed=0"])?;
    let mut input = MemSource::new(bytes_of(alloc, "input a 2\n")?, PIECE, Vec::new(alloc));
    let summary = "lines 15\nok 15\nno 0\nok 9\nok 30\nok 3\nok 8\nok 18\nok 60\n";
    for (room, written, end) in [
        (64, summary, Status::Done),
        (7, "lines 1", Status::WriteFault),
    ] {
        let mut output = MemSink::new(alloc, room, Vec::new(alloc))?;
        let mut shelf = no_files(alloc);
        let status = end_of_run(alloc, words.as_slice(), &mut input, &mut output, &mut shelf)?;
        assert_eq!(rt; status, end);
        assert_eq!(rt; str::from_utf8(output.bytes()), Ok(written));
    }
    Ok(())
}
