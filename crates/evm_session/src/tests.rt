//! Sessions, asked by each command and refused by each code, with replies worked out by hand.

ghost use Rattle.std.specs.Prelude.{◌≡◌, ◌<◌, ℕ, None, Some, IfOk};
ghost use Rattle.std.specs.List.{slice_get};
ghost use Rattle.evm_meter.specs.declared.stock.StockMeter.{StockMeter};

use super::{NoMemory, Session};
use evm_meter::StockMeter;
use evm_outside::MemShelf;
use evm_steps::Steps;
use std::alloc::{AllocError, Global};
use std::marker::Brand;
use std::process::Abort;
use std::sync::ledger::{Blank, Ledger};
use std::test::Fail;

/// Lines and their replies, in order, as in each table here: boxes of two dimensions, 2 by 3 at the origin, then 2 by 2 from (1, 1).
const BOXES: [(&str, &str); 28] = [
    ("input a 2", "ok 0\n"),
    ("toggle a 0 0 2 3", "ok 1\n"),
    ("show a", "ok 2 4\n0 0\n0 3\n2 0\n2 3\n"),
    ("add a 1 1 3 3", "ok 1\n"),
    ("add a 1 1 3 3", "ok 0\n"),
    ("content a", "ok 8\n"),
    ("boundary a", "ok 12\n"),
    ("point a 1 1", "ok inside\n"),
    ("point a 3 3", "ok boundary\n"),
    ("point a 1073741824 -1073741824", "ok outside\n"),
    ("cut a 0 0 1 1", "ok 1\n"),
    ("at a 0 0", "ok empty\n"),
    ("at a 2 2", "ok filled\n"),
    ("# note", ""),
    ("input b 6", "ok 0\n"),
    ("show b", "ok 6 0\n"),
    ("input a 7", "no taken\n"),
    ("input c 7", "no dim\n"),
    ("show c", "no name\n"),
    ("add c 5 5 1 1", "no name\n"),
    ("cut a 0 0 1", "no dim\n"),
    ("cut a 0 0 0 1", "no range\n"),
    ("toggle a 1073741824 0 1073741825 1", "no range\n"),
    ("at a 1", "no dim\n"),
    ("at a 1073741824 0", "no range\n"),
    ("point a 9999999999 0", "no range\n"),
    ("fly a", "no syntax\n"),
    ("content a", "ok 7\n"),
];

/// Two squares that share one cell, and a formula over them that loses it.
const SHARED: [(&str, &str); 10] = [
    ("list", "ok 0\n"),
    ("input a 2", "ok 0\n"),
    ("add a 0 0 2 2", "ok 1\n"),
    ("input b 2", "ok 0\n"),
    ("add b 1 1 3 3", "ok 1\n"),
    ("def c and a b", "ok 0\n"),
    ("content c", "ok 1\n"),
    ("list", "ok 3\na 2 input\nb 2 input\nc 2 and a b\n"),
    ("cut b 1 1 2 2", "ok 2\n"),
    ("show c", "ok 2 0\n"),
];

/// The same squares; formulas that would reach themselves.
const CYCLES: [(&str, &str); 10] = [
    ("input a 2", "ok 0\n"),
    ("add a 0 0 2 2", "ok 1\n"),
    ("input b 2", "ok 0\n"),
    ("add b 1 1 3 3", "ok 1\n"),
    ("def c and a b", "ok 0\n"),
    ("def d or c a", "ok 0\n"),
    ("def c or d a", "no cycle\n"),
    ("def d or d a", "no cycle\n"),
    ("content c", "ok 1\n"),
    ("show d", "ok 2 4\n0 0\n0 2\n2 0\n2 2\n"),
];

/// A square and a formula, and a line for each cause of refusal.
const CAUSES: [(&str, &str); 19] = [
    ("input a 2", "ok 0\n"),
    ("add a 0 0 2 2", "ok 1\n"),
    ("def f or a a", "ok 0\n"),
    ("add zz 5 5 1 1", "no name\n"),
    ("def q and a zz", "no name\n"),
    ("drop zz", "no name\n"),
    ("input a 7", "no taken\n"),
    ("input z 7", "no dim\n"),
    ("add f 0 0 1 1", "no kind\n"),
    ("def a or a a", "no kind\n"),
    ("drop a", "no used\n"),
    ("add a 0 0 0 1 1 1", "no dim\n"),
    ("def q box 7 0 0 1 1", "no dim\n"),
    ("add a 0 0 0 1", "no range\n"),
    ("def q box 2 0 0 0 1", "no range\n"),
    ("add a 1073741824 0 1073741825 1", "no range\n"),
    ("fly a", "no syntax\n"),
    ("add a 0 0 1 12345678901", "no syntax\n"),
    ("content a", "ok 4\n"),
];

/// A formula that changes its operands to a name that was made after it, and one that is dropped.
const REDEFINED: [(&str, &str); 11] = [
    ("input a 2", "ok 0\n"),
    ("add a 0 0 2 2", "ok 1\n"),
    ("def c or a a", "ok 0\n"),
    ("def d sub c a", "ok 0\n"),
    ("content d", "ok 0\n"),
    ("def e and a a", "ok 0\n"),
    ("def c and e e", "ok 0\n"),
    (
        "list",
        "ok 4\na 2 input\nc 2 and e e\nd 2 sub c a\ne 2 and a a\n",
    ),
    ("drop d", "ok 0\n"),
    ("drop e", "no used\n"),
    ("list", "ok 3\na 2 input\nc 2 and e e\ne 2 and a a\n"),
];

/// A formula over one name twice follows it, and a definition that changes a name counts it and what reads it.
const FOLLOWED: [(&str, &str); 9] = [
    ("input a 2", "ok 0\n"),
    ("add a 0 0 2 2", "ok 1\n"),
    ("def c and a a", "ok 0\n"),
    ("toggle a 1 1 3 3", "ok 2\n"),
    ("show c", "ok 2 8\n0 0\n0 2\n1 1\n1 3\n2 0\n2 2\n3 1\n3 3\n"),
    ("def s box 2 -1 0 +1 1", "no syntax\n"),
    ("def s box 2 -1 0 1 1", "ok 0\n"),
    ("def c xor a s", "ok 1\n"),
    ("list", "ok 3\na 2 input\nc 2 xor a s\ns 2 box 2 -1 0 1 1\n"),
];

/// Two cubes one above the other, and what is refused of a question about an axis.
const SECTIONS: [(&str, &str); 24] = [
    ("input a 3", "ok 0\n"),
    ("add a 0 0 0 1 1 1", "ok 1\n"),
    ("add a 0 0 5 1 1 6", "ok 1\n"),
    ("project a 3", "ok 2 4\n0 0\n0 1\n1 0\n1 1\n"),
    ("section a 3 5", "ok 2 4\n0 0\n0 1\n1 0\n1 1\n"),
    ("section a 3 1", "ok 2 0\n"),
    ("section a 3 1073741823", "ok 2 0\n"),
    ("section a 3 1073741824", "no range\n"),
    ("section a 4 1073741824", "no dim\n"),
    ("section a 0 0", "no dim\n"),
    ("section zz 1 0", "no name\n"),
    ("project a 0", "no dim\n"),
    ("project a -1", "no dim\n"),
    ("project zz 1", "no name\n"),
    ("input b 2", "ok 0\n"),
    ("add b 0 0 2 1", "ok 1\n"),
    ("section b 1 0", "ok 1 2\n0\n1\n"),
    ("project b 2", "ok 1 2\n0\n2\n"),
    ("faces a 3", "ok 4\n0 1 0\n1 0 1\n5 1 0\n6 0 1\n"),
    ("faces b 1", "ok 2\n0 1 0\n2 0 1\n"),
    ("faces b 2", "ok 2\n0 2 0\n1 0 2\n"),
    ("faces a 4", "no dim\n"),
    ("faces b 0", "no dim\n"),
    ("faces zz 1", "no name\n"),
];

/// Squares that meet at a corner, and nothing.
const PARTS: [(&str, &str); 12] = [
    ("input a 2", "ok 0\n"),
    ("parts a", "ok 0\n"),
    ("faces a 1", "ok 0\n"),
    ("add a 1 1 2 2", "ok 1\n"),
    ("add a 0 0 1 1", "ok 1\n"),
    (
        "parts a",
        "ok 2\npart 4 1\n0 0\n0 1\n1 0\n1 1\npart 4 1\n1 1\n1 2\n2 1\n2 2\n",
    ),
    ("add a 0 1 1 2", "ok 1\n"),
    ("parts zz", "no name\n"),
    (
        "report a",
        "ok {\"boundary\":\"8\",\"content\":\"3\",\"dim\":2,\"high\":[2,2],\"kind\":\"input\",\"low\":[0,0],\"name\":\"a\",\"operands\":[],\"parts\":1,\"vertices\":6}\n",
    ),
    ("def s shift a -1 4", "ok 0\n"),
    (
        "report s",
        "ok {\"boundary\":\"8\",\"content\":\"3\",\"dim\":2,\"high\":[1,6],\"kind\":\"shift\",\"low\":[-1,4],\"name\":\"s\",\"operands\":[\"a\"],\"parts\":1,\"vertices\":6}\n",
    ),
    ("report zz", "no name\n"),
];

/// A square that is saved once the shelf does not fail, and loaded into another input; and what is refused of files.
const FILES: [(&str, &str); 22] = [
    ("input a 2", "ok 0\n"),
    ("add a 0 0 2 2", "ok 1\n"),
    ("save a evm a.evm", "no shelf\n"),
    ("save a evm a.evm", "ok 44\n"),
    ("save zz evm a.evm", "no name\n"),
    ("input b 2", "ok 0\n"),
    ("def c shift b 1073741823 0", "ok 0\n"),
    ("load b evm a.evm", "no range\n"),
    ("def c or b b", "ok 0\n"),
    ("load b evm a.evm", "ok 2\n"),
    ("content c", "ok 4\n"),
    ("load b evm gone.evm", "no missing\n"),
    ("load b boxes a.evm", "no form\n"),
    ("load b pgm 65536 gone.pgm", "no range\n"),
    ("load c evm a.evm", "no kind\n"),
    ("save a obj a.obj", "no dim\n"),
    ("load b evm a.obj", "no missing\n"),
    ("save zz obj a.obj", "no name\n"),
    ("save a boxes a.txt", "ok 22\n"),
    ("load b boxes a.txt", "ok 0\n"),
    ("save a faces f.txt", "ok 54\n"),
    ("content b", "ok 4\n"),
];

/// A square and its shift, which meters of the content, of the boundary content and of the number of vertices watch while a cell comes
/// beside the square; and what is refused of slots.
const METERS: [(&str, &str); 32] = [
    ("input a 2", "ok 0\n"),
    ("add a 0 0 2 2", "ok 1\n"),
    ("def d shift a 5 0", "ok 0\n"),
    ("read 0", "no meter\n"),
    ("meter 0 a", "ok 4\n"),
    ("meter 1 a", "ok 8\n"),
    ("meter 2 d", "ok 4\n"),
    ("add a 2 0 3 1", "ok 2\n"),
    ("read 0", "ok 5\n"),
    ("read 1", "ok 10\n"),
    ("read 2", "ok 6\n"),
    ("add a 0 0 0 1", "no range\n"),
    ("read 0", "ok 5\n"),
    ("meter 0 a", "no meter\n"),
    ("meter 3 a", "no meter\n"),
    ("meter 99 a", "no meter\n"),
    ("meter -1 a", "no meter\n"),
    ("meter -1 zz", "no name\n"),
    ("meter 0 zz", "no name\n"),
    ("drop d", "no used\n"),
    ("unmeter 2", "ok\n"),
    ("drop d", "ok 0\n"),
    ("drop a", "no used\n"),
    ("unmeter 0", "ok\n"),
    ("read 0", "no meter\n"),
    ("unmeter 0", "no meter\n"),
    ("meter 0 a", "no meter\n"),
    ("read -1", "no meter\n"),
    ("drop a", "no used\n"),
    ("read 1", "ok 10\n"),
    ("unmeter 1", "ok\n"),
    ("drop a", "ok 0\n"),
];

/// A meter of the content, one of the boundary content and one of the number of vertices, without readings.
fn meters(alloc: Global) -> Result<Vec<StockMeter>, AllocError>
    ensures { IfOk result (λ v. (k : ℕ) (m : StockMeter) → slice_get v.items k ≡ Some m
        → (m.reading ≡ None) × (m.pending ≡ None)) }
{
    let meters = vec![in alloc;
        StockMeter::content(),
        StockMeter::boundary(),
        StockMeter::vertices(),
    ]?;
    Ok(meters)
}

/// Answers a line, with its steps counted by a new counter.
fn counted<L: Ledger>(
    session: &mut Session<StockMeter>,
    blank: Blank,
    alloc: Global,
    line: &[u8],
    shelf: &mut MemShelf,
    out: &mut Vec<u8>,
) -> Result<bool, NoMemory>
    requires name { blank.name ≡ L.name }
    requires parts { blank.parts ≡ L.parts }
    requires some { 0 < L.parts }
{
    let mut steps: Steps<L> = Steps::start(blank);
    session.answer(alloc, line, shelf, out, &mut steps)
}

/// Answers a line.
fn asked(
    session: &mut Session<StockMeter>,
    alloc: Global,
    line: &[u8],
    shelf: &mut MemShelf,
    out: &mut Vec<u8>,
) -> Result<bool, NoMemory> {
    counted::<Brand>(session, Blank::new(1), alloc, line, shelf, out)
}

/// Asks a new session, over a shelf whose first call fails.
fn answers(rt: &(impl Abort + AllocGlobal), answered: &[(&str, &str)]) -> Result<(), Fail> {
    let mut session = Session::new(rt.alloc(), meters(rt.alloc())?)?;
    let mut shelf = MemShelf::new(rt.alloc(), [0].to_vec(rt.alloc())?);
    let mut out = Vec::new(rt.alloc());
    for (line, reply) in answered {
        out.clear();
        let fine = asked(
            &mut session,
            rt.alloc(),
            line.as_bytes(),
            &mut shelf,
            &mut out,
        )?;
        assert_eq!(rt; out.as_slice(), reply.as_bytes(), "{line}");
        assert_eq!(rt; fine, !reply.starts_with("no"), "{line}");
    }
    Ok(())
}

#[test]
fn inputs_are_edited_and_asked(rt: HostRuntime) -> Result<(), Fail> {
    answers(&rt, &BOXES)
}

#[test]
fn solids_are_cut_and_projected(rt: HostRuntime) -> Result<(), Fail> {
    answers(&rt, &SECTIONS)?;
    answers(&rt, &PARTS)
}

#[test]
fn formulas_follow_their_operands(rt: HostRuntime) -> Result<(), Fail> {
    answers(&rt, &SHARED)?;
    answers(&rt, &REDEFINED)?;
    answers(&rt, &FOLLOWED)
}

#[test]
fn formulas_are_refused_by_their_first_cause(rt: HostRuntime) -> Result<(), Fail> {
    answers(&rt, &CYCLES)?;
    answers(&rt, &CAUSES)
}

#[test]
fn files_are_saved_and_loaded(rt: HostRuntime) -> Result<(), Fail> {
    answers(&rt, &FILES)
}

#[test]
fn meters_follow_the_names_that_they_watch(rt: HostRuntime) -> Result<(), Fail> {
    answers(&rt, &METERS)
}

#[test]
fn a_line_may_be_too_long(rt: HostRuntime) -> Result<(), Fail> {
    let mut session = Session::new(rt.alloc(), meters(rt.alloc())?)?;
    let mut shelf = MemShelf::new(rt.alloc(), Vec::new(rt.alloc()));
    let mut out = Vec::new(rt.alloc());
    let long = vec![in rt.alloc(); b' '; 4097]?;
    let fine = asked(
        &mut session,
        rt.alloc(),
        long.as_slice(),
        &mut shelf,
        &mut out,
    )?;
    assert_eq!(rt; out.as_slice(), b"no line\n".as_slice());
    assert_eq!(rt; fine, false);
    Ok(())
}
