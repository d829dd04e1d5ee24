//! Whether a tree of tiles has a cell.

ghost use Rattle.std.specs.Prelude.{◌≡◌, true, IfOk};
ghost use Rattle.evm_cells.specs.Boxes.{is_box};
ghost use Rattle.evm_cells.specs.Limits.{is_cell};
ghost use Rattle.evm_cells.specs.Places.{has};
ghost use Rattle.evm_rows.specs.Rows.{cells_of};

use evm_member::fills;
use evm_rows::{BoxError, DIM_MAX, NoMemory, Solid};
use evm_tiles::Tiles;
use std::alloc::Global;

/// The corner of the box of one cell that is not its own, and zeros behind it. Whether it is that corner is tested where it is used.
fn upper(cell: &[i32]) -> [i32; DIM_MAX] {
    let mut corner = [0; DIM_MAX];
    for (to, from) in corner.iter_mut().zip(cell) {
        *to = from.saturating_add(1);
    }
    corner
}

/// Whether a solid has a cell, by what it has in a box that begins at the cell.
fn is_filled_in(alloc: Global, tree: &Tiles, cell: &[i32], end: &[i32]) -> Result<bool, NoMemory>
    requires cell { is_cell tree.now.dim cell.now ≡ true }
    requires is_box { is_box tree.now.dim cell.now end.now ≡ true }
    ensures { IfOk result (λ filled. filled ≡ has (cells_of tree.now) cell.now) }
{
    let part = tree.window(alloc, cell, end)?;
    let filled = fills(part.rows(), cell);
    Ok(filled)
}

/// Whether a solid has a cell, by all its rows.
fn is_filled_anywhere(alloc: Global, tree: &Tiles, cell: &[i32]) -> Result<bool, NoMemory>
    requires { is_cell tree.now.dim cell.now ≡ true }
    ensures { IfOk result (λ filled. filled ≡ has (cells_of tree.now) cell.now) }
{
    let whole = tree.to_rows(alloc)?;
    let filled = fills(whole.rows(), cell);
    Ok(filled)
}

/// Whether a solid has a cell. Only the leaf whose tile has the cell is looked at. Takes memory for the corners of the cell, and for
/// what the leaf has inside it.
#[tactic(auto, using(crate::proofs::CellWindows::cell_length))]
pub fn is_filled(alloc: Global, tree: &Tiles, cell: &[i32]) -> Result<bool, NoMemory>
    requires { is_cell tree.now.dim cell.now ≡ true }
    ensures { IfOk result (λ filled. filled ≡ has (cells_of tree.now) cell.now) }
{
    tree.facts();
    let dim = tree.dim();
    let corner = upper(cell);
    let end = &corner[..dim];
    match Solid::of_box(alloc, cell, end) {
        Ok(_) => is_filled_in(alloc, tree, cell, end),
        Err(BoxError::Range) => is_filled_anywhere(alloc, tree, cell),
        Err(BoxError::NoMemory) => Err(NoMemory),
    }
}
