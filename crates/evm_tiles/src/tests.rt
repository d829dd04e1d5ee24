ghost use Rattle.std.specs.Prelude.{◌≡◌, IfOk};

use crate::Tiles;
use evm_rows::{NoMemory, Solid, xor};
use std::alloc::Global;

// The unit square that begins at these coordinates.
fn square(alloc: Global, x: i32, y: i32) -> Result<Solid, NoMemory>
    ensures { IfOk result (λ s. s.dim ≡ 2) }
{
    match Solid::of_box(alloc, &[x, y], &[x.saturating_add(1), y.saturating_add(1)]) {
        Ok(solid) => Ok(solid),
        Err(_) => Err(NoMemory),
    }
}

// A tree and a list after a change by one unit square.
fn toggled(
    alloc: Global,
    tree: Tiles,
    list: Solid,
    x: i32,
    y: i32,
) -> Result<(Tiles, Solid), NoMemory>
    requires tree { tree.dim ≡ 2 }
    requires list { list.dim ≡ 2 }
    ensures tree { IfOk result (λ p. p.0.dim ≡ 2) }
    ensures list { IfOk result (λ p. p.1.dim ≡ 2) }
{
    let cell = square(alloc, x, y)?;
    let next = tree.xor(alloc, cell.rows())?;
    let rows = xor(alloc, list.rows(), cell.rows())?;
    Ok((next, rows))
}

// Four hundred squares of a checker, one after another, as a tree and as a list.
fn checker(alloc: Global) -> Result<(Tiles, Solid), NoMemory>
    ensures tree { IfOk result (λ p. p.0.dim ≡ 2) }
    ensures list { IfOk result (λ p. p.1.dim ≡ 2) }
{
    let mut list = Solid::empty(alloc, 2);
    let mut tree = Tiles::from_rows(alloc, list.rows())?;
    for k in 0..400 {
        let (x, y) = (2 * (k / 20), 2 * (k % 20));
        let (next, rows) = toggled(alloc, tree, list, x, y)?;
        tree = next;
        list = rows;
    }
    Ok((tree, list))
}

// Whether the tree has the rows of the list, and four hundred cells; what is in a box of four cells; and the section through twenty squares.
#[tactic(auto, unfolding(evm_cells::specs::Limits::limit, evm_cells::specs::Limits::is_point, evm_cells::specs::Limits::is_point_coord, evm_cells::specs::Limits::is_cell_coord, evm_cells::specs::Places::each))]
fn compared(alloc: Global) -> Result<(bool, usize, usize), NoMemory> {
    let (tree, list) = checker(alloc)?;
    let whole = tree.to_rows(alloc)?;
    let again = tree.share()?.to_rows(alloc)?;
    let part = tree.window(alloc, &[0, 0], &[2, 2])?;
    let line = tree.section(alloc, 4)?;
    Ok((
        whole.same(&list) && again.same(&list) && tree.content(alloc)? == 400,
        part.len(),
        line.len(),
    ))
}

// Whether changes on both sides of a leaf of sixteen hundred rows, and then one in it, give the rows of a list.
fn beside(alloc: Global) -> Result<bool, NoMemory> {
    let (_, list) = checker(alloc)?;
    let tree = Tiles::from_rows(alloc, list.rows())?;
    let (tree, list) = toggled(alloc, tree, list, 100, 0)?;
    let (tree, list) = toggled(alloc, tree, list, -100, 0)?;
    let (tree, list) = toggled(alloc, tree, list, 100, 0)?;
    let apart = tree.to_rows(alloc)?.same(&list);
    let (tree, list) = toggled(alloc, tree, list, 10, 11)?;
    let within = tree.to_rows(alloc)?.same(&list);
    Ok(apart && within)
}

// Whether the solid has these rows.
fn has_rows(solid: &Solid, dim: usize, numbers: &[i32]) -> bool {
    solid.dim() == dim && solid.rows().flat == numbers
}

// Two squares that overlap, as a tree: three sections, and the window that the first square fills.
#[tactic(auto, unfolding(evm_cells::specs::Limits::limit, evm_cells::specs::Limits::is_point, evm_cells::specs::Limits::is_point_coord, evm_cells::specs::Limits::is_cell_coord, evm_cells::specs::Places::each))]
fn overlapped(alloc: Global) -> Result<(bool, bool), NoMemory> {
    let (Ok(first), Ok(side), Ok(corner)) = (
        Solid::of_box(alloc, &[0, 0], &[2, 2]),
        Solid::of_box(alloc, &[2, 1], &[3, 3]),
        Solid::of_box(alloc, &[1, 2], &[2, 3]),
    ) else {
        return Err(NoMemory);
    };
    let tree = Tiles::from_rows(alloc, first.rows())?
        .xor(alloc, side.rows())?
        .xor(alloc, corner.rows())?;
    let low = tree.section(alloc, 1)?;
    let high = tree.section(alloc, 2)?;
    let above = tree.section(alloc, 3)?;
    let part = tree.window(alloc, &[0, 0], &[2, 2])?;
    Ok((
        has_rows(&low, 1, &[0, 3]) && has_rows(&high, 1, &[1, 3]) && has_rows(&above, 1, &[]),
        has_rows(&part, 2, &[0, 0, 0, 2, 2, 0, 2, 2]),
    ))
}

#[test]
fn trees_have_the_rows_of_lists(rt: HostRuntime) {
    assert_eq!(rt; compared(rt.alloc()), Ok((true, 4, 40)));
    assert_eq!(rt; beside(rt.alloc()), Ok(true));
    assert_eq!(rt; overlapped(rt.alloc()), Ok((true, true)));
}
