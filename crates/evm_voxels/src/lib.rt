//! Voxel files: stacks of PGM images and Y4M mask videos, as the extreme vertices of the cells that their samples fill.
//!
//! What the bytes state stands in `evm_formats`; here they are read.
//!
//! # How vertices are made
//!
//! A point is an extreme vertex exactly if an odd number of filled cells stand round it (Aguilera and Ayala 1997). Each
//! sample is read once and becomes one bit; the parities are then differences of neighbouring bits, of 32 columns at a time.
//! So the rows come out in order, and there is no list of cells.
#![tactic(auto)]

ghost use Rattle.std.specs.Prelude.{◌≡◌, ◌≢◌, ◌↔◌, ◌⊎◌, ◌≤◌, List, ℤ, Ok, Err, IfOk, IsErrOf, IsOkAnd};
ghost use Rattle.evm_cells.specs.Vertices.{evm};
ghost use Rattle.evm_rows.specs.Rows.{cells_of};
ghost use Rattle.evm_formats.specs.declared.voxels.VoxelError.{VoxelError};
ghost use Rattle.evm_formats.specs.declared.voxels.VoxelError.TheVariants.{Kind, NoMemory};
ghost use Rattle.evm_formats.specs.Pgm.{pgm_cells};
ghost use Rattle.evm_formats.specs.Y4m.{y4m_cells};

mod blocks;
mod grid;
mod header;
mod image;
mod narrow;
mod pgm;
mod samples;
mod solid;
mod stream;
mod vertices;
mod y4m;

pub use evm_formats::VoxelError;
use evm_rows::Solid;
use std::alloc::Global;

/// The solid of a PGM stack, or the first refusal of the first image that is refused.
///
/// Within an image the order is: `Magic`, no `P5` there, nor anywhere in no bytes; `Header`, no header of that form, a
/// number 0, or a maxval above 65535; `Range`, a width or height above the limit of the dimension, or as many images before;
/// `Shape`, a second image in dimension 2, or another size than the first one's; `Short`, too few bytes. `Kind` never comes.
///
/// No memory is taken before all images have passed. Beside the bytes and the solid it is then one bit for each sample of an
/// image, rounded up to words of 32 bits, and from 4 columns on one such word for each row and image of the points, in
/// dimension 2 two for each row.
pub fn read_pgm(
    alloc: Global,
    dim: usize,
    threshold: u32,
    bytes: &[u8],
) -> Result<Solid, VoxelError>
    requires dim { (dim ≡ 2) ⊎ (dim ≡ 3) }
    requires threshold { threshold ≤ 65535 }
    ensures dim { IfOk result (λ s. s.dim ≡ dim) }
    ensures cells { IfOk result (λ s. pgm_cells dim threshold bytes.now ≡ Ok (cells_of s)) }
    ensures vertices { IfOk result (λ s. s.rows ≡ evm dim (cells_of s)) }

    // The refusals come whatever memory there is.
    ensures refused { (e : VoxelError) → e ≢ NoMemory → IsErrOf result e
        ↔ (pgm_cells dim threshold bytes.now ≡ Err e) }
    ensures kind { ¬ IsErrOf result VoxelError.Kind }

    // A want of memory may stand in place of a solid alone.
    ensures found { (S : List (List ℤ)) → pgm_cells dim threshold bytes.now ≡ Ok S
        → IsOkAnd result (λ s. cells_of s ≡ S) ⊎ IsErrOf result VoxelError.NoMemory }
{
    solid::read_stack(alloc, dim, threshold, bytes)
}

/// The solid of a Y4M stream, or the first refusal.
///
/// Of the first line the order is: `Magic`, the bytes do not begin with `YUV4MPEG2` and a space or LF; `Header`, no LF, `W`,
/// `H` or `C` not as often as stated, or a width or height that is no number or 0; `Kind`, a `C` that is not in the table;
/// `Range`, a width or height above the limit of the dimension. Of each frame, where bytes are left: `Header`, no whole
/// frame line; `Range`, as many frames before as the limit; `Shape`, a second frame in dimension 2; `Short`, too few bytes.
/// At the end comes `Shape` where dimension 2 has no frame. In dimension 3 no frames are the solid without cells.
///
/// Memory is taken as by [`read_pgm`], and none before all frames have passed.
pub fn read_y4m(
    alloc: Global,
    dim: usize,
    threshold: u32,
    bytes: &[u8],
) -> Result<Solid, VoxelError>
    requires dim { (dim ≡ 2) ⊎ (dim ≡ 3) }
    requires threshold { threshold ≤ 65535 }
    ensures dim { IfOk result (λ s. s.dim ≡ dim) }
    ensures cells { IfOk result (λ s. y4m_cells dim threshold bytes.now ≡ Ok (cells_of s)) }
    ensures vertices { IfOk result (λ s. s.rows ≡ evm dim (cells_of s)) }

    // The refusals come whatever memory there is.
    ensures refused { (e : VoxelError) → e ≢ NoMemory → IsErrOf result e
        ↔ (y4m_cells dim threshold bytes.now ≡ Err e) }

    // A want of memory may stand in place of a solid alone.
    ensures found { (S : List (List ℤ)) → y4m_cells dim threshold bytes.now ≡ Ok S
        → IsOkAnd result (λ s. cells_of s ≡ S) ⊎ IsErrOf result VoxelError.NoMemory }
{
    solid::read_video(alloc, dim, threshold, bytes)
}

#[cfg(test)]
mod tests;
