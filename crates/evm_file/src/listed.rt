//! Reads files of version 1: rows, one after another.
ghost use Rattle.std.specs.Prelude.{◌≡◌, ◌<◌, ◌^◌, ◌↔◌, length, IfOk, IsTrue};
ghost use Rattle.evm_formats.specs.FirstFile.{numbers, IsFirst, HasLength};
ghost use Rattle.evm_file.specs.Reading.{Answers, IsSure};

use crate::FIRST_HEADER;
use byteorder::{BigEndian, ByteOrder};
use evm_formats::FileError;
use evm_rows::Solid;
use std::alloc::{AllocError, Global};

// Whether the length is the one that the header states. The product of 128 bits does not wrap.
fn has_length(bytes: &[u8]) -> bool
    requires { IsFirst bytes.now }
    ensures { IsTrue result ↔ HasLength bytes.now }
{
    let count = BigEndian::read_u64(&bytes[8..]);
    bytes.len() as u128 == 16 + 4 * u128::from(bytes[5]) * u128::from(count)
}

// The coordinates of the fields in the bytes.
fn read_numbers(alloc: Global, body: &[u8]) -> Result<Vec<i32>, AllocError>
    ensures { IfOk result (λ v. v.items ≡ numbers body.now) }
{
    let mut out = Vec::with_capacity(alloc, body.len() / 4)?;
    let mut rest = body;
    while 4 <= rest.len() {
        let (field, after) = rest.split_at(4);
        out.push(BigEndian::read_i32(field))?;
        rest = after;
    }
    Ok(out)
}

/// The solid of bytes with a header of version 1, or the first refusal after it.
pub fn read_listed(alloc: Global, bytes: &[u8]) -> Result<Solid, FileError>
    requires { IsFirst bytes.now }
    ensures answers { Answers result bytes.now }
    ensures sure { IsSure result bytes.now }
{
    if !has_length(bytes) {
        return Err(FileError::Length);
    }
    let (_, body) = bytes.split_at(FIRST_HEADER);
    let flat = read_numbers(alloc, body)?;
    match Solid::check(alloc, usize::from(bytes[5]), flat) {
        Ok(solid) => Ok(solid),
        Err(e) => Err(FileError::from(e)),
    }
}
