// The solids of stacks and videos, by way of marked images.
ghost use Rattle.std.specs.Prelude.{◌≡◌, ℕ, List, ◌⊎◌, ◌*◌, ◌<◌, ◌≤◌, ◌^◌, length, IfOk, IfErr};
ghost use Rattle.evm_cells.specs.Limits.{limit};
ghost use Rattle.evm_cells.specs.Vertices.{evm};
ghost use Rattle.evm_formats.specs.declared.voxels.VoxelError.TheVariants.{NoMemory};
ghost use Rattle.evm_formats.specs.Images.{Picture, cells_of_images};
ghost use Rattle.evm_formats.specs.Pgm.{pgm_cells};
ghost use Rattle.evm_formats.specs.Y4m.{y4m_cells};
ghost use Rattle.evm_voxels.specs.Outcomes.{Answers};
ghost use Rattle.evm_voxels.specs.Shots.{words_of, AreMarked};

use crate::grid::Grid;
use crate::image::Extent;
use crate::vertices::{image_vertices, stack_vertices};
use crate::{pgm, y4m};
use evm_formats::VoxelError;
use evm_rows::Solid;
use std::alloc::Global;

// The solid of images whose samples are marked. It fails for want of memory alone.
#[tactic(auto, unfolding(evm_cells::specs::Limits::limit))]
fn solid_of(alloc: Global, dim: usize, marks: &[u32], extent: Extent) -> Result<Solid, VoxelError>
    requires dim { (dim ≡ 2) ⊎ (dim ≡ 3) }
    requires width { extent.size.width ≤ limit dim }
    requires height { extent.size.height ≤ limit dim }
    requires depth { extent.depth ≤ limit dim }
    requires some { 1 ≤ extent.depth }
    requires room { extent.depth * (extent.size.height * extent.size.width) < 2 ^ 63 }
    requires size { length marks.now
        ≡ extent.depth * words_of (extent.size.height * extent.size.width) }
    ensures dim { IfOk result (λ s. s.dim ≡ dim) }
    ensures rows { (threshold : ℕ) (images : List Picture) → length images ≡ extent.depth
        → AreMarked marks.now (extent.size.height * extent.size.width) extent.depth threshold images
        → IfOk result (λ s. s.rows ≡ evm dim (cells_of_images dim threshold extent.size.width extent.size.height images)) }
    ensures memory { IfErr result (λ e. e ≡ NoMemory) }
{
    let width = extent.size.width;
    let height = extent.size.height;
    if dim <= 2 {
        let places = Grid {
            marks,
            pitch: width,
            width,
            height: 1,
            depth: height,
        };
        Ok(Solid::from_rows(2, image_vertices(alloc, &places)?))
    } else {
        let places = Grid {
            marks,
            pitch: 32 * (height * width).div_ceil(32),
            width,
            height,
            depth: extent.depth,
        };
        Ok(Solid::from_rows(3, stack_vertices(alloc, &places)?))
    }
}

/// The solid of a stack, or the first refusal, for which it takes no memory.
pub fn read_stack(
    alloc: Global,
    dim: usize,
    threshold: u32,
    bytes: &[u8],
) -> Result<Solid, VoxelError>
    requires { (dim ≡ 2) ⊎ (dim ≡ 3) }
    ensures { Answers dim (pgm_cells dim threshold bytes.now) result }
{
    let extent = pgm::measure(dim, bytes)?;
    let marks = pgm::mark(alloc, dim, threshold, extent.depth, bytes)?;
    solid_of(alloc, dim, &marks, extent)
}

/// The solid of a stream, or the first refusal, for which it takes no memory.
pub fn read_video(
    alloc: Global,
    dim: usize,
    threshold: u32,
    bytes: &[u8],
) -> Result<Solid, VoxelError>
    requires { (dim ≡ 2) ⊎ (dim ≡ 3) }
    ensures { Answers dim (y4m_cells dim threshold bytes.now) result }
{
    let stream = y4m::read_stream(dim, bytes)?;
    let depth = y4m::count_frames(dim, stream)?;
    if depth == 0 {
        return Ok(Solid::empty(alloc, dim));
    }
    let marks = y4m::mark_frames(alloc, dim, threshold, depth, stream)?;
    let extent = Extent {
        size: stream.size,
        depth,
    };
    solid_of(alloc, dim, &marks, extent)
}
