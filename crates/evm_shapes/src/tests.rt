ghost use Rattle.std.specs.Prelude.{◌≡◌, IfOk};

use crate::{ShapeError, clip, lift, mirror, project, reduced, shift, slice, swap};
use evm_rows::{NoMemory, Solid, xor};
use std::alloc::{AllocError, Global};

// Whether the solid has these rows.
fn has_rows(solid: &Solid, dim: usize, numbers: &[i32]) -> bool {
    solid.dim() == dim && solid.rows().flat == numbers
}

// The box of two cells in a row.
fn two_cells(alloc: Global) -> Result<Solid, NoMemory>
    ensures { IfOk result (λ s. s.dim ≡ 2) }
{
    match Solid::of_box(alloc, &[0, 0], &[2, 1]) {
        Ok(solid) => Ok(solid),
        Err(_) => Err(NoMemory),
    }
}

// A mirror image and an exchange of axes.
fn turned(alloc: Global) -> Result<(bool, bool), NoMemory> {
    let a = two_cells(alloc)?;
    let left = mirror(alloc, a.rows(), 1)?;
    let tall = swap(alloc, a.rows(), 1, 2)?;
    Ok((
        has_rows(&left, 2, &[-2, 0, -2, 1, 0, 0, 0, 1]),
        has_rows(&tall, 2, &[0, 0, 0, 2, 1, 0, 1, 2]),
    ))
}

// What is inside a box.
#[tactic(auto, unfolding(evm_cells::specs::Limits::limit, evm_cells::specs::Limits::is_point, evm_cells::specs::Limits::is_point_coord, evm_cells::specs::Places::each))]
fn clipped(alloc: Global) -> Result<bool, NoMemory> {
    let a = two_cells(alloc)?;
    let right = clip(alloc, a.rows(), &[1, 0], &[5, 5])?;
    Ok(has_rows(&right, 2, &[1, 0, 1, 1, 2, 0, 2, 1]))
}

// A prism, a section of it and its projection.
#[tactic(auto, unfolding(evm_cells::specs::Limits::limit, evm_cells::specs::Limits::is_cell_coord))]
fn raised(alloc: Global) -> Result<(bool, bool, bool), NoMemory> {
    let a = two_cells(alloc)?;
    let Ok(prism) = lift(alloc, a.rows(), 3, 4, 6) else {
        return Err(NoMemory);
    };
    let middle = slice(alloc, prism.rows(), 3, 5)?;
    let shadow = project(alloc, prism.rows(), 3)?;
    Ok((
        has_rows(
            &prism,
            3,
            &[
                0, 0, 4, 0, 0, 6, 0, 1, 4, 0, 1, 6, 2, 0, 4, 2, 0, 6, 2, 1, 4, 2, 1, 6,
            ],
        ),
        has_rows(&middle, 2, &[0, 0, 0, 1, 2, 0, 2, 1]),
        has_rows(&shadow, 2, &[0, 0, 0, 1, 2, 0, 2, 1]),
    ))
}

// The projection of two cells, one above the other, and the section between them.
#[tactic(auto, unfolding(evm_cells::specs::Limits::limit, evm_cells::specs::Limits::is_cell_coord))]
fn stacked(alloc: Global) -> Result<(bool, bool), NoMemory> {
    let (Ok(low), Ok(high)) = (
        Solid::of_box(alloc, &[0, 0, 0], &[1, 1, 1]),
        Solid::of_box(alloc, &[0, 0, 5], &[1, 1, 6]),
    ) else {
        return Err(NoMemory);
    };
    let both = xor(alloc, low.rows(), high.rows())?;
    let shadow = project(alloc, both.rows(), 3)?;
    let gap = slice(alloc, both.rows(), 3, 1)?;
    Ok((
        has_rows(&shadow, 2, &[0, 0, 0, 1, 1, 0, 1, 1]),
        has_rows(&gap, 2, &[]),
    ))
}

// A cell that is moved to the limit, and one that would leave it.
#[tactic(auto, unfolding(evm_cells::specs::Limits::limit, evm_cells::specs::Shapes::is_shift))]
fn moved(alloc: Global) -> Result<(bool, bool), NoMemory> {
    let a = two_cells(alloc)?;
    let far = shift(alloc, a.rows(), &[1_073_741_822, 0]);
    let past = shift(alloc, a.rows(), &[1_073_741_823, 0]);
    match far {
        Ok(solid) => Ok((
            has_rows(
                &solid,
                2,
                &[
                    1_073_741_822,
                    0,
                    1_073_741_822,
                    1,
                    1_073_741_824,
                    0,
                    1_073_741_824,
                    1,
                ],
            ),
            past.is_err_and(|e| e == ShapeError::Range),
        )),
        Err(_) => Err(NoMemory),
    }
}

// The limit of dimension 4 under a base of dimension 3: at it, and past it.
#[tactic(auto, unfolding(evm_cells::specs::Limits::limit))]
fn heightened(alloc: Global) -> Result<(bool, bool), NoMemory> {
    let (Ok(at), Ok(past)) = (
        Solid::of_box(alloc, &[268_435_455, 0, 0], &[268_435_456, 1, 1]),
        Solid::of_box(alloc, &[268_435_456, 0, 0], &[268_435_457, 1, 1]),
    ) else {
        return Err(NoMemory);
    };
    Ok((
        lift(alloc, at.rows(), 4, 0, 1).is_ok(),
        lift(alloc, past.rows(), 4, 0, 1).is_err_and(|e| e == ShapeError::Range),
    ))
}

// The rows that are left of the numbers at the ends of their type, with keys of 4 and 1 numbers, and with references.
fn sorted(alloc: Global) -> Result<(bool, bool, bool), AllocError> {
    let (low, high) = (i32::MIN, i32::MAX);
    let four = reduced(
        alloc,
        &[high, low, -1, 0, low, high, 0, -1, low, high, -1, low],
        4,
    )?;
    let one = reduced(alloc, &[0, high, -1, low, high, 1, 0, high], 1)?;
    let five = reduced(alloc, &[0, 0, 0, 0, high, 0, 0, 0, 0, low], 5)?;
    Ok((
        four.as_slice() == [low, high, -1, low, low, high, 0, -1, high, low, -1, 0].as_slice(),
        one.as_slice() == [low, -1, 1, high].as_slice(),
        five.as_slice() == [0, 0, 0, 0, low, 0, 0, 0, 0, high].as_slice(),
    ))
}

#[test]
fn shapes(rt: HostRuntime) {
    assert_eq!(rt; turned(rt.alloc()), Ok((true, true)));
    assert_eq!(rt; clipped(rt.alloc()), Ok(true));
    assert_eq!(rt; raised(rt.alloc()), Ok((true, true, true)));
    assert_eq!(rt; stacked(rt.alloc()), Ok((true, true)));
    assert_eq!(rt; moved(rt.alloc()), Ok((true, true)));
    assert_eq!(rt; heightened(rt.alloc()), Ok((true, true)));
    assert_eq!(rt; sorted(rt.alloc()), Ok((true, true, true)));
}
