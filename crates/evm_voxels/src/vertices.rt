// The extreme vertices of the filled places of a grid.
ghost use Rattle.std.specs.Prelude.{◌≡◌, ◌≤◌, IfOk};
ghost use Rattle.evm_cells.specs.Limits.{cells_where, limit};
ghost use Rattle.evm_cells.specs.Vertices.{evm};
ghost use Rattle.evm_rows.specs.Rows.{flat_of};
ghost use Rattle.evm_voxels.specs.Grids.{filled_in, filled_flat};

use crate::blocks::{wide_image, wide_vertices};
use crate::grid::Grid;
use crate::narrow::{narrow_image, narrow_vertices};
use std::alloc::{AllocError, Global};

/// The least width at which a block of columns takes about as little memory as the samples.
const WIDE: usize = 4;

/// The coordinates of the extreme vertices of the filled places of a grid, ascending. A narrow grid takes no memory beside
/// them.
pub fn stack_vertices(alloc: Global, places: &Grid<'_>) -> Result<Vec<i32>, AllocError>
    requires width { places.now.width ≤ limit 3 }
    requires height { places.now.height ≤ limit 3 }
    requires depth { places.now.depth ≤ limit 3 }
    ensures { IfOk result (λ v. v.items ≡ flat_of (evm 3 (cells_where 3 (filled_in places.now)))) }
{
    if places.width < WIDE {
        narrow_vertices(alloc, places)
    } else {
        wide_vertices(alloc, places)
    }
}

/// The same of one image, whose rows are the images of a grid of height 1.
pub fn image_vertices(alloc: Global, places: &Grid<'_>) -> Result<Vec<i32>, AllocError>
    requires width { places.now.width ≤ limit 2 }
    requires height { places.now.height ≡ 1 }
    requires depth { places.now.depth ≤ limit 2 }
    ensures { IfOk result
        (λ v. v.items ≡ flat_of (evm 2 (cells_where 2 (filled_flat places.now)))) }
{
    if places.width < WIDE {
        narrow_image(alloc, places)
    } else {
        wide_image(alloc, places)
    }
}
