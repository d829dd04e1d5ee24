//! Writes the EVM file, version 2, and reads versions 1 and 2: the bytes that a solid is kept as.
//!
//! `evm_formats` says what such bytes state.
#![tactic(auto)]

ghost use Rattle.std.specs.Prelude.{◌≡◌, ◌<◌, ◌^◌, ◌⊎◌, ◌↔◌, ℕ, length, IfOk, IfErr, IsErrOf, IsTrue};
ghost use Rattle.evm_rows.specs.Rows.{cells_of};
ghost use Rattle.evm_formats.specs.FirstFile.{IsFirst};
ghost use Rattle.evm_formats.specs.File.{head_bytes, file_bytes, IsSecond, IsFileOf, IsFileOfCells, IsFileRefusal};
ghost use Rattle.evm_file.specs.Reading.{FindsSolid, FindsCells, FindsRefusal};

mod bodies;
mod listed;
mod nested;

use bodies::append_body;
pub use evm_formats::FileError;
use evm_rows::Solid;
use listed::read_listed;
use nested::read_nested;
use std::alloc::Global;

/// The version that is written.
const VERSION: u8 = 2;

/// The version before it, which is read too.
const FIRST_VERSION: u8 = 1;

/// The number of bytes before a body.
const HEADER: usize = 8;

/// The number of bytes before the rows in version 1.
const FIRST_HEADER: usize = 16;

// Whether the bytes begin with a header of version 1.
fn is_first(bytes: &[u8]) -> bool
    ensures is { IsTrue result ↔ IsFirst bytes.now }
    ensures small { length bytes.now < 2 ^ 64 }
{
    FIRST_HEADER <= bytes.len()
        && bytes[0] == b'N'
        && bytes[1] == b'E'
        && bytes[2] == b'V'
        && bytes[3] == b'M'
        && bytes[4] == FIRST_VERSION
        && 1 <= bytes[5]
        && bytes[5] <= 6
        && bytes[6] == 0
        && bytes[7] == 0
}

// Whether the bytes begin with a header of version 2.
fn is_second(bytes: &[u8]) -> bool
    ensures is { IsTrue result ↔ IsSecond bytes.now }
    ensures small { length bytes.now < 2 ^ 64 }
{
    HEADER <= bytes.len()
        && bytes[0] == b'N'
        && bytes[1] == b'E'
        && bytes[2] == b'V'
        && bytes[3] == b'M'
        && bytes[4] == VERSION
        && 1 <= bytes[5]
        && bytes[5] <= 6
        && bytes[6] == 0
        && bytes[7] == 0
}

// The header of a file.
fn header(dim: u8) -> [u8; HEADER]
    ensures { result ≡ head_bytes dim }
{
    [b'N', b'E', b'V', b'M', VERSION, dim, 0, 0]
}

/// The file of a solid, version 2: at most `12 + 4 n k` and at most `12 + 12 k` bytes for k rows of n coordinates. Memory
/// for the first is taken before the bytes are written.
pub fn write(alloc: Global, a: &Solid) -> Result<Vec<u8>, evm_rows::NoMemory>
    ensures { IfOk result (λ v. v.items ≡ file_bytes a.now) }
{
    a.facts();
    let size = HEADER + 4 + 4 * a.flat().len();
    let mut file = Vec::with_capacity(alloc, size)?;
    file.extend_from_slice(&header(a.dim() as u8))?;
    append_body(a.rows(), &mut file)?;
    Ok(file)
}

/// The solid whose file these bytes are, of version 1 or 2, or the first refusal.
///
/// `Head`, `Length` and `Empty` take no memory, however many rows a header states. Otherwise memory for the rows is taken
/// once, and that of `Solid::check` on top of it.
pub fn read(alloc: Global, bytes: &[u8]) -> Result<Solid, FileError>
    ensures ok { IfOk result (λ s. IsFileOf bytes.now s) }
    ensures cells { IfOk result (λ s. IsFileOfCells bytes.now s.dim (cells_of s)) }
    ensures err { IfErr result (λ e. (e ≡ FileError.NoMemory) ⊎ IsFileRefusal bytes.now e) }

    // These come whatever memory there is.
    ensures head { IsErrOf result FileError.Head ↔ IsFileRefusal bytes.now FileError.Head }
    ensures length { IsErrOf result FileError.Length ↔ IsFileRefusal bytes.now FileError.Length }
    ensures empty { (k : ℕ)
        → IsErrOf result (FileError.Empty k) ↔ IsFileRefusal bytes.now (FileError.Empty k) }

    // A want of memory may stand in place of each other answer.
    ensures found { FindsSolid result bytes.now }
    ensures found_cells { FindsCells result bytes.now }
    ensures refused { FindsRefusal result bytes.now }
{
    if is_second(bytes) {
        return read_nested(alloc, bytes);
    }
    if is_first(bytes) {
        return read_listed(alloc, bytes);
    }
    Err(FileError::Head)
}

#[cfg(test)]
mod tests;
