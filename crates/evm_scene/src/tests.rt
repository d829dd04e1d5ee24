//! A scene through each of its calls, with values worked out by hand. Whole scripts are run by the program's tests.

ghost use Rattle.std.specs.Prelude.{◌≡◌, ◌<◌};

use super::*;
use evm_meter::StockMeter;
use evm_rows::Solid;
use evm_script::{Formula, Name, Num, Nums};
use evm_steps::Steps;
use std::alloc::Global;
use std::marker::Brand;
use std::sync::ledger::{Blank, Ledger};
use std::test::*;

/// A name.
fn name(bytes: &[u8]) -> Result<Name, Fail> {
    Ok(Name::of(bytes).ok_or("name")?)
}

/// Makes an edit, with a counter of its own.
fn counted<L: Ledger>(
    scene: &mut Scene<StockMeter>,
    alloc: Global,
    edit: Edit,
    blank: Blank,
) -> Result<Changed, Refusal>
    requires name { blank.name ≡ L.name }
    requires parts { blank.parts ≡ L.parts }
    requires some { 0 < L.parts }
{
    let mut steps = Steps::<L>::start(blank);
    scene.apply(alloc, edit, &mut steps)
}

/// Makes an edit.
fn applied(scene: &mut Scene<StockMeter>, alloc: Global, edit: Edit) -> Result<Changed, Refusal> {
    counted::<Brand>(scene, alloc, edit, Blank::new(1))
}

/// Makes an edit that is not refused, and answers how many names changed.
fn edited(scene: &mut Scene<StockMeter>, alloc: Global, edit: Edit) -> Result<usize, Fail> {
    let done = applied(scene, alloc, edit).ok().ok_or("refused")?;
    Ok(done.names)
}

/// The solid of a name.
fn solid(scene: &Scene<StockMeter>, alloc: Global, name: &Name) -> Result<Solid, Fail> {
    Ok(scene.solid(alloc, name).ok().ok_or("solid")?)
}

/// A scene with an input `a` in the plane.
fn with_input(alloc: Global) -> Result<Scene<StockMeter>, Fail> {
    let meters: Vec<StockMeter> = Vec::new(alloc);
    let mut scene = Scene::new(alloc, meters).ok().ok_or("memory")?;
    let (name, dim) = (name(b"a")?, Num::of(2).ok_or("number")?);
    edited(&mut scene, alloc, Edit::Input { name, dim })?;
    Ok(scene)
}

/// The same, with `m`, the mirror image of `a`.
fn mirrored(alloc: Global) -> Result<Scene<StockMeter>, Fail> {
    let mut scene = with_input(alloc)?;
    let (a, axis) = (name(b"a")?, Num::of(1).ok_or("number")?);
    let (name, formula) = (name(b"m")?, Formula::Mirror { a, axis });
    edited(&mut scene, alloc, Edit::Def { name, formula })?;
    Ok(scene)
}

#[test]
fn formulas_follow_inputs(rt: HostRuntime) -> Result<(), Fail> {
    let mut scene = mirrored(rt.alloc())?;
    let nums = Nums::of(&[0, 0, 2, 2]).ok_or("numbers")?;
    let (how, name_a) = (BoxEdit::Add, name(b"a")?);
    let square = Edit::Box {
        how,
        name: name_a,
        nums,
    };
    assert_eq!(rt; edited(&mut scene, rt.alloc(), square)?, 2);
    let image = solid(&scene, rt.alloc(), &name(b"m")?)?;
    assert_eq!(rt; image.flat(), [-2, 0, -2, 2, 0, 0, 0, 2].as_slice());
    Ok(())
}

#[test]
fn inputs_get_other_solids(rt: HostRuntime) -> Result<(), Fail> {
    let mut scene = mirrored(rt.alloc())?;
    let name_a = name(b"a")?;
    let cell = Solid::of_box(rt.alloc(), &[0, 0], &[1, 1])
        .ok()
        .ok_or("box")?;
    let other = Edit::Replace {
        name: name_a,
        solid: cell,
    };
    assert_eq!(rt; edited(&mut scene, rt.alloc(), other)?, 2);
    let image = solid(&scene, rt.alloc(), &name(b"m")?)?;
    assert_eq!(rt; image.flat(), [-1, 0, -1, 1, 0, 0, 0, 1].as_slice());
    let copy = solid(&scene, rt.alloc(), &name_a)?;
    assert_eq!(rt; copy.flat(), [0, 0, 0, 1, 1, 0, 1, 1].as_slice());
    let again = Edit::Replace {
        name: name_a,
        solid: copy,
    };
    assert_eq!(rt; edited(&mut scene, rt.alloc(), again)?, 0);
    Ok(())
}

#[test]
fn tells_what_stands(rt: HostRuntime) -> Result<(), Fail> {
    let mut scene = mirrored(rt.alloc())?;
    let name_m = name(b"m")?;
    assert_eq!(rt; scene.count(), 2);
    assert!(rt; scene.name_at(1).same(&name_m));
    assert!(rt; scene.formula(&name_m).is_some());
    let (dim, input) = (2, false);
    assert_eq!(rt; scene.entry(&name_m), Some(Entry { dim, input }));
    let dropped = Edit::Drop { name: name(b"a")? };
    assert_eq!(rt;
        applied(&mut scene, rt.alloc(), dropped),
        Err(Refusal::Used)
    );
    Ok(())
}
