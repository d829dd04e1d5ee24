//! Each call once, with values worked out by hand.

use super::*;
use std::test::Fail;

#[test]
fn reads_each_edit(rt: HostRuntime) -> Result<(), Fail> {
    let name = Name::of(b"a_1").ok_or("name")?;
    let dim = Num::of(2).ok_or("number")?;
    let nums = Nums::of(&[0, -9_999_999_999, 10]).ok_or("numbers")?;
    let cases = [
        ("", Command::Blank),
        (" #toggle a", Command::Blank),
        ("input a_1 2", Command::Input { name, dim }),
        ("cut a_1 -0 -9999999999 10", Command::Cut { name, nums }),
        (
            " add\ta_1 0  -9999999999\t0000000010 \r",
            Command::Add { name, nums },
        ),
        (
            "toggle a_1 0 -9999999999 10",
            Command::Toggle { name, nums },
        ),
        ("drop a_1", Command::Drop { name }),
    ];
    for (line, want) in cases {
        assert_eq!(rt; read_line(rt.alloc(), line.as_bytes()), Ok(want), "{line}");
    }
    Ok(())
}

#[test]
fn reads_each_question(rt: HostRuntime) -> Result<(), Fail> {
    let name = Name::of(b"a_1").ok_or("name")?;
    let nums = Nums::of(&[4, -5]).ok_or("numbers")?;
    let (axis, at) = (Num::within(2), Num::within(-3));
    let cases = [
        ("show a_1", Command::Show { name }),
        ("content a_1", Command::Content { name }),
        ("boundary a_1", Command::Boundary { name }),
        ("at a_1 4 -5", Command::At { name, nums }),
        ("point a_1 4 -5", Command::Point { name, nums }),
        ("section a_1 2 -3", Command::Section { name, axis, at }),
        ("project a_1 2", Command::Project { name, axis }),
        ("faces a_1 2", Command::Faces { name, axis }),
        ("parts a_1", Command::Parts { name }),
        ("report a_1", Command::Report { name }),
        (" list ", Command::List),
    ];
    for (line, want) in cases {
        assert_eq!(rt; read_line(rt.alloc(), line.as_bytes()), Ok(want), "{line}");
    }
    Ok(())
}

#[test]
fn reads_and_prints_meters(rt: HostRuntime) -> Result<(), Fail> {
    let name = Name::of(b"a_1").ok_or("name")?;
    let (slot, below) = (Num::within(7), Num::within(-9_999_999_999));
    let cases = [
        ("meter 7 a_1", Command::Meter { slot, name }),
        ("read 7", Command::Read { slot }),
        ("read -9999999999", Command::Read { slot: below }),
        ("unmeter 7", Command::Unmeter { slot }),
    ];
    for (line, want) in cases {
        assert_eq!(rt; read_line(rt.alloc(), line.as_bytes()), Ok(want), "{line}");
        let text = write_line(rt.alloc(), &want)?;
        assert_eq!(rt; text.as_slice(), line.as_bytes(), "{line}");
    }
    let spread = read_line(rt.alloc(), b"\tmeter  007\ta_1 \r");
    assert_eq!(rt; spread, Ok(Command::Meter { slot, name }));
    Ok(())
}

#[test]
fn reads_each_formula(rt: HostRuntime) -> Result<(), Fail> {
    let name = Name::of(b"n").ok_or("name")?;
    let a = Name::of(b"a").ok_or("name")?;
    let b = Name::of(b"b2").ok_or("name")?;
    let nums = Nums::of(&[0, -1, 3, 4]).ok_or("numbers")?;
    let (axis, at) = (Num::within(1), Num::within(-3));
    let (i, j, lo, hi, dim) = (axis, at, at, axis, axis);
    let cases = [
        ("def n or a b2", Formula::Or { a, b }),
        ("def  n\tand a b2", Formula::And { a, b }),
        ("def n sub a b2", Formula::Sub { a, b }),
        ("def n xor a b2", Formula::Xor { a, b }),
        ("def n box 1 0 -1 3 4", Formula::Box { dim, nums }),
        ("def n shift a 0 -1 3 4", Formula::Shift { a, nums }),
        ("def n mirror a 1", Formula::Mirror { a, axis }),
        ("def n swap a 1 -3", Formula::Swap { a, i, j }),
        ("def n clip a 0 -1 3 4", Formula::Clip { a, nums }),
        ("def n slice a 1 -3", Formula::Slice { a, axis, at }),
        ("def n proj a 1", Formula::Proj { a, axis }),
        ("def n lift a 1 -3 1", Formula::Lift { a, axis, lo, hi }),
    ];
    for (line, formula) in cases {
        let want = Ok(Command::Def { name, formula });
        assert_eq!(rt; read_line(rt.alloc(), line.as_bytes()), want, "{line}");
    }
    Ok(())
}

#[test]
fn reads_each_form_of_a_file(rt: HostRuntime) -> Result<(), Fail> {
    let name = Name::of(b"a_1").ok_or("name")?;
    let threshold = Num::within(-7);
    let file = FileName::of(b"Vox-1.t_x").ok_or("file")?;
    let cases = [
        ("load a_1 evm Vox-1.t_x", LoadForm::Evm),
        ("load\ta_1 boxes  Vox-1.t_x", LoadForm::Boxes),
        ("load a_1 pgm -7 Vox-1.t_x", LoadForm::Pgm(threshold)),
        ("load a_1 y4m -07 Vox-1.t_x", LoadForm::Y4m(threshold)),
    ];
    for (line, form) in cases {
        let want = Ok(Command::Load { name, form, file });
        assert_eq!(rt; read_line(rt.alloc(), line.as_bytes()), want, "{line}");
    }
    let saves = [
        ("save a_1 evm Vox-1.t_x", SaveForm::Evm),
        ("save a_1 boxes Vox-1.t_x", SaveForm::Boxes),
        ("save a_1 faces Vox-1.t_x", SaveForm::Faces),
        ("save a_1 obj Vox-1.t_x", SaveForm::Obj),
    ];
    for (line, form) in saves {
        let save = Command::Save { name, form, file };
        let text = write_line(rt.alloc(), &save)?;
        assert_eq!(rt; text.as_slice(), line.as_bytes(), "{line}");
        assert_eq!(rt; read_line(rt.alloc(), line.as_bytes()), Ok(save), "{line}");
    }
    let form = LoadForm::Pgm(threshold);
    let text = write_line(rt.alloc(), &Command::Load { name, form, file })?;
    assert_eq!(rt; text.as_slice(), b"load a_1 pgm -7 Vox-1.t_x".as_slice());
    Ok(())
}

#[test]
fn refuses_other_lines(rt: HostRuntime) -> Result<(), Fail> {
    let lines = [
        "list a_1",
        "show A",
        "input a_1 00000000002",
        "cut a_1 1 2 3 4 5 6 7 8 9 10 11 12 13",
        "def n lift a 2 -3",
        "def n slice a 1 2 3",
        "def n box 0",
        "def n sub a",
        "def n sub a b2 a",
        "def n",
        "def n nor a b2",
        "load a evm",
        "load a evm .hidden",
        "load a boxes a/b",
        "load a pgm 7",
        "load a y4m 1 f g",
        "load a obj f",
        "load a faces f",
        "save a pgm f",
        "faces a",
        "parts a 1",
        "save a evm f g",
        "meter a 0",
        "meter 0",
        "meter 0 a b",
        "read",
        "read 0 0",
        "read a",
        "unmeter",
        "unmeter 00000000000",
    ];
    for line in lines {
        let answer = read_line(rt.alloc(), line.as_bytes());
        assert_eq!(rt; answer, Err(LineError::Syntax), "{line}");
    }
    Ok(())
}

#[test]
fn keeps_the_rule_of_file_names(rt: HostRuntime) -> Result<(), Fail> {
    let longest = [b'x'; 64];
    let file = FileName::of(&longest).ok_or("file")?;
    assert_eq!(rt; file.bytes(), longest.as_slice());
    assert!(rt; FileName::of(&[b'x'; 65]).is_none());
    assert!(rt; FileName::of(b"").is_none());
    assert!(rt; FileName::of(b".hidden").is_none());
    assert!(rt; FileName::of(b"a/b").is_none());
    Ok(())
}

#[test]
fn prints_and_counts(rt: HostRuntime) -> Result<(), Fail> {
    let name = Name::of(b"a_1").ok_or("name")?;
    let nums = Nums::of(&[0, -9_999_999_999, 10]).ok_or("numbers")?;
    let dim = Num::within(2);
    let text = write_line(rt.alloc(), &Command::Toggle { name, nums })?;
    assert_eq!(rt; text.as_slice(), b"toggle a_1 0 -9999999999 10".as_slice());
    let text = write_line(rt.alloc(), &Command::Input { name, dim })?;
    assert_eq!(rt; text.as_slice(), b"input a_1 2".as_slice());
    let text = write_line(rt.alloc(), &Command::List)?;
    assert_eq!(rt; text.as_slice(), b"list".as_slice());
    let formula = Formula::Box { dim, nums };
    let text = write_formula(rt.alloc(), &formula)?;
    assert_eq!(rt; text.as_slice(), b"box 2 0 -9999999999 10".as_slice());
    let text = write_line(rt.alloc(), &Command::Def { name, formula })?;
    assert_eq!(rt;
        text.as_slice(),
        b"def a_1 box 2 0 -9999999999 10".as_slice()
    );
    let (axis, at) = (dim, Num::within(-7));
    let text = write_line(rt.alloc(), &Command::Section { name, axis, at })?;
    assert_eq!(rt; text.as_slice(), b"section a_1 2 -7".as_slice());
    let (a, lo, hi) = (name, at, dim);
    let text = write_formula(rt.alloc(), &Formula::Lift { a, axis, lo, hi })?;
    assert_eq!(rt; text.as_slice(), b"lift a_1 2 -7 2".as_slice());
    let b = Name::of(b"b").ok_or("name")?;
    let text = write_formula(rt.alloc(), &Formula::Sub { a: name, b })?;
    assert_eq!(rt; text.as_slice(), b"sub a_1 b".as_slice());
    Ok(())
}

#[test]
fn lends_names_and_numbers(rt: HostRuntime) -> Result<(), Fail> {
    let name = Name::of(b"a_1").ok_or("name")?;
    assert_eq!(rt; name.bytes(), b"a_1".as_slice());
    assert!(rt; name.same(&name));
    let b = Name::of(b"b").ok_or("name")?;
    let both = Formula::Sub { a: name, b };
    assert_eq!(rt; both.operands(), Operands::Two(name, b));
    assert_eq!(rt; Num::within(-7).value(), -7);
    let nums = Nums::within(&[4, -5]);
    assert_eq!(rt; nums.len(), 2);
    assert_eq!(rt; nums.at(1), -5);
    assert_eq!(rt; nums.values(), [4i64, -5].as_slice());
    assert!(rt; nums.are_between(-5, 4) && nums.between(-4, 4).is_none());
    let found = nums.between(-5, 4).ok_or("between")?;
    assert_eq!(rt; found.values(), [4i32, -5].as_slice());
    assert_eq!(rt; Num::within(-7).between(-7, 0), Some(-7));
    printed_lines_are_read_again();
    Ok(())
}
