//! Voxel files: stacks of PGM images and Y4M mask videos.
//!
//! The sample in column x and row y of image z, all counted from 0, is the cell `(x, y)` in dimension 2 and `(x, y, z)` in
//! dimension 3. It is filled exactly if the sample is at least the threshold; a sample above the maxval is compared as it
//! stands. Both formats are this project's own profiles.
//!
//! # PGM stacks
//!
//! A file holds one image in dimension 2, and one or more of one size in dimension 3. An image is the letters `P5`; a
//! separator, the width, a separator, the height, a separator, the maxval; a single white space byte; and the samples, rows
//! from the top and each from left to right, of one byte where the maxval is below 256 and otherwise of two, the most
//! significant first. A separator is one or more white space bytes (space, TAB, LF, VT, FF, CR) and comments, and a comment
//! goes from `#` up to the next LF or CR. Numbers are decimal digits of any length. White space after an image is skipped.
//!
//! # Y4M streams
//!
//! A stream is a line of `YUV4MPEG2` and parameters, each after one space, and then frames. `W` and `H` stand exactly once,
//! `C` at most once, and other parameters are skipped. A frame is `FRAME`, then LF or a space and any bytes up to LF, and
//! its planes, luma first, of one byte a sample. Dimension 2 takes one frame, dimension 3 any number.
//!
//! | value of `C` | bytes after a luma plane of w times h samples |
//! |---|---|
//! | none, `420`, `420jpeg`, `420paldv`, `420mpeg2` | 2 times (w+1)/2 times (h+1)/2, halves rounded down |
//! | `422` | 2 times (w+1)/2 times h, halves rounded down |
//! | `444` | 2 times w times h |
//! | `mono` | 0 |

ghost use Rattle.std.specs.Prelude.{◌≡◌};
ghost use Rattle.evm_formats.specs.declared.voxels.VoxelError.TheVariants.{NoMemory};
ghost use Rattle.evm_formats.specs.VoxelLaws.{HeaderStates, ImagesAreWritten, SamplesState, FewerAreShort};
ghost use Rattle.evm_formats.specs.VoxelLaws.{StacksJoin, StackCells, CellsJoin, CellsListed};
ghost use Rattle.evm_formats.specs.VoxelLaws.{FramesJoin, NeverKind, VoxelCellSets, ImageOfFour, StreamOfTwo};

use std::alloc::AllocError;
use thiserror::Error;

/// Why bytes are not a stack of images, or not a stream of frames.
#[derive(Clone, Copy, Debug, PartialEq, Eq, Error)]
pub enum VoxelError {
    /// The letters that an image or a stream begins with do not stand there.
    #[error("no magic of an image or a stream")]
    Magic,
    /// A header or a frame's line is not as stated, or a number in it is 0 or, of a maxval, above 65535.
    #[error("no header as stated")]
    Header,
    /// Another number of images than the dimension takes, or images of two sizes.
    #[error("the images are not of one size, or not as many as the dimension takes")]
    Shape,
    /// A width, a height or the number of an image past the limit of the dimension.
    #[error("an image is past the limits")]
    Range,
    /// The bytes end before the last sample.
    #[error("the bytes end before the last sample")]
    Short,
    /// A sampling that is not in the table.
    #[error("a sampling that is not read")]
    Kind,
    /// There was no memory.
    #[error("out of memory")]
    NoMemory,
}

impl From<AllocError> for VoxelError {
    ghost from_gives = { λ _ e. e ≡ NoMemory };

    fn from(_e: AllocError) -> VoxelError {
        VoxelError::NoMemory
    }
}

/// How the planes after the luma are sampled.
#[derive(Clone, Copy, Debug, PartialEq, Eq)]
pub enum Sampling {
    /// With half of the columns and half of the rows.
    Quarter,
    /// With half of the columns.
    Half,
    /// With all columns and rows.
    Full,
    /// Not at all: there are no other planes.
    Mono,
}

/// What the bytes of a PGM stack state.
///
/// - `header`: a header states its three numbers, however it is written: whatever white space, comments and zeros.
/// - `samples`: a header and all its samples state the image of these, whatever follows.
/// - `short`: a header with fewer bytes than its samples is refused for that.
/// - `written`: bytes that state an image are such a header, its samples, and what follows.
/// - `joined`: in dimension 3, the bytes of two stacks of one size state the images of the first and then those of the second.
/// - `cells`: a stack states the cells of its images.
/// - `raised`: the cells of images behind others are those of the first and, raised by their number, those of the second.
/// - `listed`: the cells within sizes can be listed place by place, as the worked files are.
/// - `never_kind`: no stack is refused for a sampling.
/// - `worked`: an image of two columns and two rows, at three thresholds.
pub fn stacks_state_images()
    ensures header { HeaderStates }
    ensures samples { SamplesState }
    ensures short { FewerAreShort }
    ensures written { ImagesAreWritten }
    ensures joined { StacksJoin }
    ensures cells { StackCells }
    ensures raised { CellsJoin }
    ensures listed { CellsListed }
    ensures never_kind { NeverKind }
    ensures worked { ImageOfFour }
{}

/// What the bytes of a Y4M stream state.
///
/// - `joined`: in dimension 3, frames and then other frames, behind one first line, are the first and then the others.
/// - `cell_sets`: the cells that a stream or a stack states are a cell set.
/// - `worked`: a stream of two frames, at two thresholds.
pub fn streams_state_frames()
    ensures joined { FramesJoin }
    ensures cell_sets { VoxelCellSets }
    ensures worked { StreamOfTwo }
{}
