// The extreme vertices of a narrow grid, column after column and point after point.
ghost use Rattle.std.specs.Prelude.{◌≡◌, pos, ◌+◌, ◌*◌, ◌<◌, ◌≤◌, ◌^◌, ◌++◌, ◌∷◌, [], cond, length, map, OnOk, IfOk};
ghost use Rattle.evm_cells.specs.Limits.{cells_where, limit};
ghost use Rattle.evm_cells.specs.Vertices.{evm};
ghost use Rattle.evm_rows.specs.Rows.{flat_of};
ghost use Rattle.evm_voxels.specs.Parity.{turns, grid};
ghost use Rattle.evm_voxels.specs.Grids.{filled_in, filled_flat};

use crate::grid::Grid;
use std::alloc::{AllocError, Global};

/// Appends the head and the number, if `on`.
pub fn append_if(
    out: &mut Vec<i32>,
    head: &[i32],
    number: usize,
    on: bool,
) -> Result<(), AllocError>
    requires { number ≤ 2 ^ 30 }
    ensures { OnOk result (out.new.items
        ≡ out.old.items ++ cond on (head.now ++ pos number ∷ []) []) }
{
    if on {
        out.extend_from_slice(head)?;
        out.push(number as i32)?;
    }
    Ok(())
}

// Appends a row for each point of odd parity on the line of the points (x, y, z): the head, and then z.
fn append_line(
    out: &mut Vec<i32>,
    head: &[i32],
    places: &Grid<'_>,
    x: usize,
    y: usize,
) -> Result<(), AllocError>
    ensures { OnOk result (out.new.items ≡ out.old.items
        ++ flat_of (map (λ t. head.now ++ t) (grid (places.now.depth ∷ []) (λ c. turns (filled_in places.now) (pos x ∷ pos y ∷ c))))) }
{
    let mut before = false;
    for z in 0..places.depth + 1 {
        let now = places.edge(x, y, z);
        append_if(out, head, z, before ^ now)?;
        before = now;
    }
    Ok(())
}

// Appends a row x y z for each point of odd parity in column x.
fn append_column(out: &mut Vec<i32>, places: &Grid<'_>, x: usize) -> Result<(), AllocError>
    requires { x ≤ 2 ^ 30 }
    ensures { OnOk result (out.new.items ≡ out.old.items
        ++ flat_of (map (λ t. pos x ∷ t) (grid (places.now.height ∷ places.now.depth ∷ [])
        (λ c. turns (filled_in places.now) (pos x ∷ c))))) }
{
    for y in 0..places.height + 1 {
        let head = [x as i32, y as i32];
        append_line(out, &head, places, x, y)?;
    }
    Ok(())
}

/// The coordinates of the extreme vertices of the filled places of a grid, ascending. Takes memory for them alone. The one
/// error is want of memory.
pub fn narrow_vertices(alloc: Global, places: &Grid<'_>) -> Result<Vec<i32>, AllocError>
    requires width { places.now.width ≤ limit 3 }
    requires height { places.now.height ≤ limit 3 }
    requires depth { places.now.depth ≤ limit 3 }
    ensures { IfOk result (λ v. v.items ≡ flat_of (evm 3 (cells_where 3 (filled_in places.now)))) }
{
    let mut out = Vec::new(alloc);
    for x in 0..places.width + 1 {
        append_column(&mut out, places, x)?;
    }
    Ok(out)
}

/// The same of one image, whose rows are the images of a grid of height 1. Takes memory for the coordinates alone. The one
/// error is want of memory.
pub fn narrow_image(alloc: Global, places: &Grid<'_>) -> Result<Vec<i32>, AllocError>
    requires width { places.now.width ≤ limit 2 }
    requires height { places.now.height ≡ 1 }
    requires depth { places.now.depth ≤ limit 2 }
    ensures { IfOk result
        (λ v. v.items ≡ flat_of (evm 2 (cells_where 2 (filled_flat places.now)))) }
{
    let mut out = Vec::new(alloc);
    for x in 0..places.width + 1 {
        let head = [x as i32];
        append_line(&mut out, &head, places, x, 0)?;
    }
    Ok(out)
}
