//! Reads files of version 2: first whether the bytes are one whole body, and what is noted of its counts and heights, which takes
//! no memory; then its rows.
ghost use Rattle.std.specs.Prelude.{◌≡◌, ◌+◌, ◌%◌, ◌<◌, ◌≤◌, ◌^◌, ◌++◌, ◌==◌, ◌⊎◌, ℕ, ℤ, List, [], ◌∷◌, Some, None, length, IfOk, IfSome, MatchOption};
ghost use Rattle.byteorder.specs.Endian.{big_number};
ghost use Rattle.evm_rows.specs.Rows.{flat_of, rows_of};
ghost use Rattle.evm_formats.specs.Nested.{Reading, noted, falls, read_body, whole_body};
ghost use Rattle.evm_formats.specs.File.{IsSecond};
ghost use Rattle.evm_file.specs.Reading.{Answers, IsSure};
ghost use Rattle.evm_file.specs.Scanning.{IsTally, RefusesFallen, front_of};

use crate::HEADER;
use byteorder::{BigEndian, ByteOrder};
use evm_formats::FileError;
use evm_rows::{DIM_MAX, RowError, Solid};
use std::alloc::{AllocError, Global};

/// What is counted of a body, as far as it was read.
#[derive(Clone, Copy, Drop)]
pub struct Tally {
    /// The rows so far.
    rows: usize,
    /// How many rows stood before the first count of 0.
    gap: Option<usize>,
    /// How many rows stood before the first height or coordinate that is not greater than the one before it in its body.
    fall: Option<usize>,
}

// What was noted first.
fn note(first: Option<usize>, now: bool, at: usize) -> Option<usize>
    ensures { result ≡ noted first now at }
{
    match first {
        Some(place) => Some(place),
        None => { if now { Some(at) } else { None } }
    }
}

// Whether a height or coordinate is not greater than the one before it, if there is one.
fn is_fall(last: Option<i32>, height: i32) -> bool
    ensures { result ≡ falls last height }
{
    match last {
        Some(before) => height <= before,
        None => false,
    }
}

impl Tally {
    // The tally behind a count.
    fn after_count(self, count: u32) -> Tally
        ensures rows { result.rows ≡ self.rows }
        ensures gap { result.gap ≡ noted self.gap (count == 0) self.rows }
        ensures fall { result.fall ≡ self.fall }
    {
        Tally {
            rows: self.rows,
            gap: note(self.gap, count == 0, self.rows),
            fall: self.fall,
        }
    }

    // The tally behind a height or a coordinate.
    fn after_height(self, last: Option<i32>, height: i32) -> Tally
        ensures rows { result.rows ≡ self.rows }
        ensures gap { result.gap ≡ self.gap }
        ensures fall { result.fall ≡ noted self.fall (falls last height) self.rows }
    {
        Tally {
            rows: self.rows,
            gap: self.gap,
            fall: note(self.fall, is_fall(last, height), self.rows),
        }
    }

    // The tally behind a row.
    fn after_row(self) -> Tally
        requires { self.rows + 1 < 2 ^ 64 }
        ensures rows { result.rows ≡ self.rows + 1 }
        ensures gap { result.gap ≡ self.gap }
        ensures fall { result.fall ≡ self.fall }
    {
        Tally {
            rows: self.rows + 1,
            gap: self.gap,
            fall: self.fall,
        }
    }
}

// The tally behind a body of dimension `dim`, and the bytes after it, or `None` where the bytes end before.
fn scan_body(bytes: &[u8], dim: usize, tally: Tally) -> Option<(Tally, &[u8])>
    requires { tally.rows + length bytes.now + 1 < 2 ^ 64 }
    ensures scans { (front : List ℤ) (s : Reading) → IsTally tally bytes.now s
        → MatchOption result (read_body dim front s ≡ None)
        (λ p. (t : Reading) × (read_body dim front s ≡ Some t) × IsTally p.0 p.1.now t) }
    ensures room { IfSome result
        (λ p. p.0.rows + length p.1.now ≤ tally.rows + length bytes.now + 1) }
{
    if dim == 0 {
        return Some((tally.after_row(), bytes));
    }
    if bytes.len() < 4 {
        return None;
    }
    let (field, mut rest) = bytes.split_at(4);
    let mut left = BigEndian::read_u32(field);
    let mut so_far = tally.after_count(left);
    let mut last = None;
    while left != 0 {
        if rest.len() < 4 {
            return None;
        }
        let (field, below) = rest.split_at(4);
        let height = BigEndian::read_i32(field);
        let inner = so_far.after_height(last, height);
        let Some((next, after)) = scan_body(below, dim - 1, inner) else {
            return None;
        };
        so_far = next;
        rest = after;
        last = Some(height);
        left -= 1;
    }
    Some((so_far, rest))
}

// The tally of bytes that are exactly one body of dimension `dim`, or `None` where they are not.
fn scan(bytes: &[u8], dim: usize) -> Option<Tally>
    requires { length bytes.now + 1 < 2 ^ 64 }
    ensures { MatchOption result (whole_body dim bytes.now ≡ None)
        (λ t. (s : Reading) × (whole_body dim bytes.now ≡ Some s) × IsTally t [] s) }
{
    let tally = Tally {
        rows: 0,
        gap: None,
        fall: None,
    };
    match scan_body(bytes, dim, tally) {
        Some((all, rest)) => { if rest.len() == 0 { Some(all) } else { None } }
        None => None,
    }
}

/// The heights that lead to a body: the first `depth` places.
#[derive(Clone, Copy)]
pub struct Front {
    places: [i32; DIM_MAX],
    depth: usize,
}

impl Front {
    // No heights.
    fn start() -> Front
        ensures depth { result.depth ≡ 0 }
        ensures places { front_of result ≡ [] }
    {
        Front {
            places: [0; DIM_MAX],
            depth: 0,
        }
    }

    // The heights with one more.
    fn then(self, height: i32) -> Front
        requires { self.depth < 6 }
        ensures depth { result.depth ≡ self.depth + 1 }
        ensures places { front_of result ≡ front_of self ++ height ∷ [] }
    {
        let mut next = self;
        next.places[self.depth] = height;
        next.depth += 1;
        next
    }
}

// Appends the rows of a body of dimension `dim`, each with the heights that lead to it, and gives the bytes after the body.
fn append_rows<'a>(
    bytes: &'a [u8],
    dim: usize,
    front: Front,
    out: &mut Vec<i32>,
) -> Result<&'a [u8], AllocError>
    requires { front.depth + dim ≤ 6 }
    ensures { (s t : Reading) → s.rest ≡ bytes.now → out.old.items ≡ flat_of s.rows
        → read_body dim (front_of front) s ≡ Some t
        → IfOk result (λ rest. (rest.now ≡ t.rest) × (out.new.items ≡ flat_of t.rows)) }
{
    if dim == 0 {
        out.extend_from_slice(&front.places[..front.depth])?;
        return Ok(bytes);
    }
    if bytes.len() < 4 {
        return Ok(bytes);
    }
    let (field, mut rest) = bytes.split_at(4);
    let mut left = BigEndian::read_u32(field);
    while left != 0 {
        if rest.len() < 4 {
            return Ok(rest);
        }
        let (field, below) = rest.split_at(4);
        let next = front.then(BigEndian::read_i32(field));
        rest = append_rows(below, dim - 1, next, out)?;
        left -= 1;
    }
    Ok(rest)
}

// The rows of a body of dimension `dim`, one after another; there are `count` of them.
fn rows_of_body(
    alloc: Global,
    bytes: &[u8],
    dim: usize,
    count: usize,
) -> Result<Vec<i32>, AllocError>
    requires { dim ≤ 6 }
    ensures { (s : Reading) → whole_body dim bytes.now ≡ Some s
        → IfOk result (λ v. v.items ≡ flat_of s.rows) }
{
    let mut flat = Vec::with_capacity(alloc, count.saturating_mul(dim))?;
    append_rows(bytes, dim, Front::start(), &mut flat)?;
    Ok(flat)
}

// How many rows stood before the first count of 0, if there is one but the outermost.
fn inner_gap(body: &[u8], gap: Option<usize>) -> Option<usize>
    requires { 4 ≤ length body.now }
    ensures { MatchOption result ((big_number 4 body.now ≡ 0) ⊎ (gap ≡ None))
        (λ k. (0 < big_number 4 body.now) × (gap ≡ Some k)) }
{
    if BigEndian::read_u32(body) == 0 {
        return None;
    }
    gap
}

// The refusal of rows of which `row` is the first that a number leads to that is not greater than the one before it in its body.
fn refuse(alloc: Global, dim: usize, flat: Vec<i32>, row: usize) -> FileError
    requires low { 0 < dim }
    requires high { dim ≤ 6 }
    requires whole { length flat.items % dim ≡ 0 }
    ensures { RefusesFallen dim (rows_of flat.items dim 0) row result }
{
    match Solid::check(alloc, dim, flat) {
        Err(RowError::Range(outside)) => FileError::Range(outside),
        Err(RowError::NoMemory) => FileError::NoMemory,
        Err(RowError::Order(_)) => FileError::Order(row),
        Err(RowError::Odd(_)) => FileError::Order(row),
        Ok(_) => FileError::Order(row),
    }
}

/// The solid of bytes with a header of version 2, or the first refusal after it.
pub fn read_nested(alloc: Global, bytes: &[u8]) -> Result<Solid, FileError>
    requires { IsSecond bytes.now }
    ensures answers { Answers result bytes.now }
    ensures sure { IsSure result bytes.now }
{
    let dim = usize::from(bytes[5]);
    let (_, body) = bytes.split_at(HEADER);
    let Some(tally) = scan(body, dim) else {
        return Err(FileError::Length);
    };
    if let Some(row) = inner_gap(body, tally.gap) {
        return Err(FileError::Empty(row));
    }
    let flat = rows_of_body(alloc, body, dim, tally.rows)?;
    if let Some(row) = tally.fall {
        return Err(refuse(alloc, dim, flat, row));
    }
    match Solid::check(alloc, dim, flat) {
        Ok(solid) => Ok(solid),
        Err(e) => Err(FileError::from(e)),
    }
}
