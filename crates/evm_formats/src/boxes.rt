//! The box file, version 1: boxes as text, one a line.
//!
//! The text is cut into lines at each line feed; one carriage return at the end of a line is dropped, and a last line
//! without line feed counts. Words are separated by spaces or tabs. A number is one to ten digits, with a `-` before them
//! or without; zeros before it count for nothing.
//!
//! Line 1 has the three words `evm-boxes`, `1` and a number, the dimension n. Each further line is skipped if it has no
//! words or if its first word begins with `#`. Every other line has 2 n numbers, first those of `lo` and then those of
//! `hi`, and stands for the box of the cells from `lo` up to, but not at, `hi` on each axis. The solid is the union of the
//! boxes. The format is this project's own.

ghost use Rattle.evm_formats.specs.BoxLaws.{BoxesStateUnion, PiecesStateUnion, BlanksStateNothing, FirstWrongLine, TwoRooms};
ghost use Rattle.evm_formats.specs.BoxText.{BoxFilesAreReadAgain};

use thiserror::Error;

/// Why bytes are not a box file of the dimension that was asked for: the first of these that holds, in this order, and of
/// the last two that of the first line that is wrong.
#[derive(Clone, Copy, Debug, PartialEq, Eq, Error)]
pub enum BoxFileError {
    /// There is no line 1, or it is not of its form.
    #[error("no line `evm-boxes 1 DIM` at the beginning")]
    Head,
    /// The dimension is not the one that was asked for.
    #[error("of another dimension")]
    Dim,
    /// This line, counted from 1, does not consist of exactly 2 n numbers.
    #[error("line {0} has other words than the numbers of a box")]
    Line(usize),
    /// On this line, counted from 1, some `lo` is not below its `hi`, or one of the two is past the limits.
    #[error("line {0} is no box within the limits")]
    Range(usize),
    /// There was no memory.
    #[error("out of memory")]
    NoMemory,
}

/// A box file states the union of the boxes on its lines.
///
/// - `boxes`: a head and then a line for each of some boxes, however it is written, state the union of these boxes.
/// - `pieces`: a file of two pieces states the union of both.
/// - `blanks`: blank lines and comments state nothing.
/// - `wrong`: the first line that is wrong refuses the file, with its number.
/// - `again`: a box file that was written for some cells states these cells.
/// - `worked`: two rooms that overlap.
pub fn box_files_state_unions()
    ensures boxes { BoxesStateUnion }
    ensures pieces { PiecesStateUnion }
    ensures blanks { BlanksStateNothing }
    ensures wrong { FirstWrongLine }
    ensures again { BoxFilesAreReadAgain }
    ensures worked { TwoRooms }
{}
