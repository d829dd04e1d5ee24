//! The EVM file: the bytes that a solid is kept as.
//!
//! All fields of several bytes have the most significant byte first; signed ones are two's complement. Version 2 is written:
//!
//! | bytes of version 2 | content |
//! |---|---|
//! | 0 to 3 | the letters `NEVM` |
//! | 4 | version, 2 |
//! | 5 | dimension n, 1 to 6 |
//! | 6 to 7 | 0, 0 |
//! | 8 on | the body of dimension n |
//!
//! A body of dimension 1 is a count, unsigned, 32 bits, and so many coordinates, signed, 32 bits. A body of dimension k above 1
//! is a count, and so many times a height and the body of dimension k - 1 of the couplet there. Coordinates and heights ascend.
//! Only the outermost count may be 0, and the solid is empty then.
//!
//! Version 1 is still read:
//!
//! | bytes of version 1 | content |
//! |---|---|
//! | 0 to 3 | the letters `NEVM` |
//! | 4 | version, 1 |
//! | 5 | dimension n, 1 to 6 |
//! | 6 to 7 | 0, 0 |
//! | 8 to 15 | number of rows, unsigned, 64 bits |
//! | 16 on | the rows, n signed fields of 32 bits each, axis 1 first |
//!
//! The rows are the solid's extreme vertices, ascending, and nothing follows the last row or the body. So a solid has exactly
//! one file of each version, and two files of one version are equal exactly if dimension and cells are equal. The format is
//! this project's own.

ghost use Rattle.std.specs.Prelude.{◌≡◌};
ghost use Rattle.evm_formats.specs.FirstFile.{first_file_bytes, first_file_of_cells};
ghost use Rattle.evm_formats.specs.File.{file_bytes, file_of_cells, of_row, TellsSolids, TellsCells, VersionsDiffer};
ghost use Rattle.evm_formats.specs.File.{FilesByStatement, OneFileRefusal, FilesAreNotRefused, FileOfSix, FirstFileOfSix};
ghost use Rattle.evm_formats.specs.declared.file.FileError.TheVariants.{NoMemory};

use evm_rows::RowError;
use std::alloc::AllocError;
use thiserror::Error;

/// Why bytes are not a file of a solid. It is the first of these that holds, in this order: `Head`, `Length`, `Empty`, `Range`,
/// `Order`, `Odd`.
#[derive(Clone, Copy, Debug, PartialEq, Eq, Error)]
pub enum FileError {
    /// Fewer than 8 bytes, other letters, a version that is neither 1 nor 2, a dimension that is not 1 to 6, a byte 6 or 7 that is
    /// not 0, or version 1 and fewer than 16 bytes.
    #[error("no header of an EVM file of version 1 or 2")]
    Head,
    /// In version 1 the length is not exactly that of the stated number of rows. In version 2 the body does not end, or not at the
    /// end of the bytes.
    #[error("not of the length that the counts state")]
    Length,
    /// The first row, counted from 0, with a coordinate past the limits.
    #[error("row {0} is past the limits")]
    Range(usize),
    /// In version 1 the first row, counted from 0, that is not greater than the row before it. In version 2 the first row before
    /// which, or in which, a height or coordinate is not greater than the one before it in the same body.
    #[error("row {0} is not greater than the row before it")]
    Order(usize),
    /// The least axis, counted from 1, with a parallel line that holds an odd number of rows.
    #[error("a line parallel to axis {0} holds an odd number of rows")]
    Odd(usize),
    /// In version 2 some count but the outermost is 0: the number of rows before the first of them.
    #[error("a count after {0} rows is 0")]
    Empty(usize),
    /// There was no memory.
    #[error("out of memory")]
    NoMemory,
}

impl From<AllocError> for FileError {
    ghost from_gives = { λ _ e. e ≡ NoMemory };

    fn from(_e: AllocError) -> FileError {
        FileError::NoMemory
    }
}

impl From<RowError> for FileError {
    ghost from_gives = { λ e f. f ≡ of_row e };

    fn from(e: RowError) -> FileError {
        match e {
            RowError::Range(row) => FileError::Range(row),
            RowError::Order(row) => FileError::Order(row),
            RowError::Odd(axis) => FileError::Odd(axis),
            RowError::NoMemory => FileError::NoMemory,
        }
    }
}

/// Files and solids determine each other.
///
/// - `solids`: two solids have equal files exactly if they have one dimension and the same cells. So two solids of one
///   dimension are saved in equal bytes exactly if they are equal point sets.
/// - `cells`: the same said of cell sets.
/// - `first_solids`, `first_cells`: the same of files of version 1.
/// - `versions`: no file of one version is one of the other.
/// - `statement`: bytes are the file of a solid, of either version, exactly if they state that solid's dimension and rows in it.
///   So a file that is read was written so.
/// - `one_refusal`: bytes have at most one first refusal.
/// - `not_refused`: the files of a solid have none.
/// - `worked`, `first_worked`: the 44 bytes of the box from (0, 0) to (2, 3), and its 48 bytes of version 1.
pub fn files_determine_solids()
    ensures solids { TellsSolids file_bytes }
    ensures cells { TellsCells file_of_cells }
    ensures first_solids { TellsSolids first_file_bytes }
    ensures first_cells { TellsCells first_file_of_cells }
    ensures versions { VersionsDiffer }
    ensures statement { FilesByStatement }
    ensures one_refusal { OneFileRefusal }
    ensures not_refused { FilesAreNotRefused }
    ensures worked { FileOfSix }
    ensures first_worked { FirstFileOfSix }
{}
