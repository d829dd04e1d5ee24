ghost use Rattle.std.specs.Prelude.{◌≡◌, ◌<◌, ◌≤◌, true};
ghost use Rattle.evm_rows.specs.Rows.{cells_of};
ghost use Rattle.evm_rows.specs.View.{vertices_of};
ghost use Rattle.evm_delta.specs.Shapes.{Fits, op1_dim, in_range, shape_before};

use super::has_rows;
use crate::{DeltaError, Op1, delta1, projection_change, shape};
use evm_rows::{NoMemory, Rows, Solid};
use evm_script::Nums;
use evm_shapes::project;
use evm_steps::Steps;
use evm_tiles::Tiles;
use std::alloc::Global;
use std::marker::Brand;
use std::sync::ledger::{Blank, Ledger};

// The change of a shape, with a counter of its own.
fn counted<L: Ledger>(
    alloc: Global,
    op: &Op1,
    tree: &Tiles,
    da: Rows<'_>,
    blank: Blank,
) -> Result<Solid, DeltaError>
    requires same_dim { (vertices_of da).dim ≡ tree.now.dim }
    requires fits { Fits op.now tree.now.dim }
    requires stands { in_range op.now tree.now.dim (cells_of tree.now) ≡ true }
    requires name { blank.name ≡ L.name }
    requires parts { blank.parts ≡ L.parts }
    requires some { 0 < L.parts }
{
    let mut steps = Steps::<L>::start(blank);
    delta1(alloc, op, tree, da, &mut steps)
}

// The shape of the cells (0, 0) and (1, 0), and its change where they become (0, 0) and (2, 0).
fn change(alloc: Global, op: &Op1) -> Result<(Solid, Solid), DeltaError>
    requires { Fits op.now 2 }
{
    let (Ok(a), Ok(da)) = (
        Solid::of_box(alloc, &[0, 0], &[2, 1]),
        Solid::of_box(alloc, &[1, 0], &[3, 1]),
    ) else {
        return Err(DeltaError::NoMemory);
    };
    let before = shape(alloc, op, a.rows())?;
    let tree = Tiles::from_rows(alloc, a.rows())?;
    let change = counted::<Brand>(alloc, op, &tree, da.rows(), Blank::new(1))?;
    Ok((before, change))
}

// Whether the shape and its change have these rows.
fn changes(alloc: Global, op: &Op1, dim: usize, before: &[i32], change_rows: &[i32]) -> bool
    requires { Fits op.now 2 }
{
    match change(alloc, op) {
        Ok((shaped, changed)) => {
            has_rows(&shaped, dim, before) && has_rows(&changed, dim, change_rows)
        }
        Err(_) => false,
    }
}

// Moves, with a shift whose change leaves the limits.
#[tactic(auto, unfolding(evm_cells::specs::Limits::limit, evm_cells::specs::Shapes::is_shift))]
fn moved(alloc: Global) -> (bool, bool, bool, bool) {
    let near = Op1::Shift(Nums::within(&[1, 2]));
    let far = Op1::Shift(Nums::within(&[1_073_741_822, 0]));
    (
        changes(
            alloc,
            &near,
            2,
            &[1, 2, 1, 3, 3, 2, 3, 3],
            &[2, 2, 2, 3, 4, 2, 4, 3],
        ),
        change(alloc, &far).is_err_and(|e| e == DeltaError::Range),
        changes(
            alloc,
            &Op1::Mirror(1),
            2,
            &[-2, 0, -2, 1, 0, 0, 0, 1],
            &[-3, 0, -3, 1, -1, 0, -1, 1],
        ),
        changes(
            alloc,
            &Op1::Swap(1, 2),
            2,
            &[0, 0, 0, 2, 1, 0, 1, 2],
            &[0, 1, 0, 3, 1, 1, 1, 3],
        ),
    )
}

// The change of a prism where its base comes from nothing.
fn risen(alloc: Global, prism: &Op1, base: &Solid) -> Result<Solid, DeltaError>
    requires dim { base.now.dim ≡ 3 }
    requires fits { Fits prism.now 3 }
{
    let none = Solid::empty(alloc, 3);
    let _before = shape(alloc, prism, none.rows())?;
    let tree = Tiles::from_rows(alloc, none.rows())?;
    counted::<Brand>(alloc, prism, &tree, base.rows(), Blank::new(1))
}

// A prism in four dimensions, over a base up to the limit of these and past it.
#[tactic(auto, unfolding(evm_cells::specs::Limits::limit))]
fn grown(alloc: Global) -> (bool, bool) {
    let (Ok(at), Ok(past)) = (
        Solid::of_box(alloc, &[0, 0, 0], &[268_435_456, 1, 1]),
        Solid::of_box(alloc, &[0, 0, 0], &[268_435_457, 1, 1]),
    ) else {
        return (false, false);
    };
    let prism = Op1::Lift(4, 0, 1);
    (
        risen(alloc, &prism, &at).is_ok(),
        risen(alloc, &prism, &past).is_err_and(|e| e == DeltaError::Range),
    )
}

// Cuts, projections and a prism. The projection along the first axis stays as it is.
#[tactic(auto, unfolding(evm_cells::specs::Limits::limit, evm_cells::specs::Limits::is_point, evm_cells::specs::Limits::is_point_coord, evm_cells::specs::Limits::is_cell_coord, evm_cells::specs::Places::each))]
fn cut(alloc: Global) -> (bool, bool, bool, bool, bool) {
    let frame = Op1::Clip(Nums::within(&[0, 0, 2, 1]));
    (
        changes(
            alloc,
            &frame,
            2,
            &[0, 0, 0, 1, 2, 0, 2, 1],
            &[1, 0, 1, 1, 2, 0, 2, 1],
        ),
        changes(alloc, &Op1::Slice(1, 2), 1, &[], &[0, 1]),
        changes(alloc, &Op1::Proj(1), 1, &[0, 1], &[]),
        changes(alloc, &Op1::Proj(2), 1, &[0, 2], &[1, 3]),
        changes(
            alloc,
            &Op1::Lift(1, 5, 7),
            3,
            &[
                5, 0, 0, 5, 0, 1, 5, 2, 0, 5, 2, 1, 7, 0, 0, 7, 0, 1, 7, 2, 0, 7, 2, 1,
            ],
            &[
                5, 1, 0, 5, 1, 1, 5, 3, 0, 5, 3, 1, 7, 1, 0, 7, 1, 1, 7, 3, 0, 7, 3, 1,
            ],
        ),
    )
}

// The change of a projection that is at hand, with a counter of its own.
fn counted_beside<L: Ledger>(
    alloc: Global,
    axis: usize,
    own: &Tiles,
    tree: &Tiles,
    da: Rows<'_>,
    blank: Blank,
) -> Result<Solid, NoMemory>
    requires same_dim { (vertices_of da).dim ≡ tree.now.dim }
    requires fits { Fits (Op1.Proj axis) tree.now.dim }
    requires own_dim { own.now.dim ≡ op1_dim (Op1.Proj axis) tree.now.dim }
    requires own_cells { cells_of own.now ≡ shape_before (Op1.Proj axis) tree.now }
    requires name { blank.name ≡ L.name }
    requires parts { blank.parts ≡ L.parts }
    requires some { 0 < L.parts }
{
    let mut steps = Steps::<L>::start(blank);
    projection_change(alloc, axis, own, tree, da, &mut steps)
}

// The change of the projection of the cells (0, 0) and (1, 0), where they become (0, 0) and (2, 0).
fn beside(alloc: Global, axis: usize) -> Result<Solid, NoMemory>
    requires low { 0 < axis }
    requires high { axis ≤ 2 }
{
    let (Ok(a), Ok(da)) = (
        Solid::of_box(alloc, &[0, 0], &[2, 1]),
        Solid::of_box(alloc, &[1, 0], &[3, 1]),
    ) else {
        return Err(NoMemory);
    };
    let shadow = project(alloc, a.rows(), axis)?;
    let own = Tiles::from_rows(alloc, shadow.rows())?;
    let tree = Tiles::from_rows(alloc, a.rows())?;
    counted_beside::<Brand>(alloc, axis, &own, &tree, da.rows(), Blank::new(1))
}

// Projections that are at hand. That along the first axis stays as it is, and that along the second as it is at (0).
fn at_hand(alloc: Global) -> (bool, bool) {
    (
        beside(alloc, 1).is_ok_and(|s| has_rows(&s, 1, &[])),
        beside(alloc, 2).is_ok_and(|s| has_rows(&s, 1, &[1, 3])),
    )
}

#[test]
fn changes_shapes(rt: HostRuntime) {
    assert_eq!(rt; moved(rt.alloc()), (true, true, true, true));
    assert_eq!(rt; cut(rt.alloc()), (true, true, true, true, true));
    assert_eq!(rt; grown(rt.alloc()), (true, true));
    assert_eq!(rt; at_hand(rt.alloc()), (true, true));
}
