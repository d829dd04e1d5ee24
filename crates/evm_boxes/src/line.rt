//! Reads a line of a box file, word by word.

ghost use Rattle.std.specs.Prelude.{◌≡◌, ◌*◌, ◌<◌, ◌≤◌, [], ◌∷◌, false, length, bytes_eq, MatchOption, FitsSigned};
ghost use Rattle.std.specs.Bool.{OnTrue};
ghost use Rattle.std.specs.Int.{w32};
ghost use Rattle.evm_text.specs.Lines.{without_cr};
ghost use Rattle.evm_text.specs.Words.{words};
ghost use Rattle.evm_formats.specs.BoxFile as file;
ghost use Rattle.evm_formats.specs.BoxFile.{boxes_of_line, box_of_numbers, just_numbers};
ghost use Rattle.evm_boxes.specs.BoxRows.{are_ends, IsBoxOf};
ghost use Rattle.evm_boxes.specs.Reading.{is_side, FindsNumbers, States, StatesBox};

use super::{BoxFileError, BoxRow};
use evm_rows::{DIM_MAX, limit};
use evm_text::{first_word, is_comment, read_number, without_cr};

/// The dimension that a line 1 states, if it has the form `evm-boxes 1 DIM`.
pub fn head_dim(line: &[u8]) -> Option<i64>
    ensures { result ≡ file.head_dim (words (without_cr line.now)) }
{
    let (name, rest) = first_word(without_cr(line))?;
    let (version, rest) = first_word(rest)?;
    let (dim, rest) = first_word(rest)?;
    match first_word(rest) {
        Some(_) => None,
        None => stated_dim(name, version, dim),
    }
}

/// The dimension that three words state.
fn stated_dim(name: &[u8], version: &[u8], dim: &[u8]) -> Option<i64>
    ensures { result ≡ file.head_dim (name.now ∷ version.now ∷ dim.now ∷ []) }
{
    if is(name, "evm-boxes") & is(version, "1") {
        read_number(dim)
    } else {
        None
    }
}

/// Whether a word has these letters.
fn is(word: &[u8], letters: &str) -> bool
    ensures { result ≡ bytes_eq word.now letters.now }
{
    word == letters.as_bytes()
}

/// The box that the line of this number states, or none where the line is skipped.
pub fn read_line(dim: usize, number: usize, line: &[u8]) -> Result<Option<BoxRow>, BoxFileError>
    requires low { 0 < dim }
    requires high { dim ≤ 6 }
    ensures { States dim result (boxes_of_line dim number line.now) }
{
    let line = without_cr(line);
    if is_skipped(line) {
        return Ok(None);
    }
    let mut buffer = [0i64; 2 * DIM_MAX];
    match read_box(dim, number, line, &mut buffer[..2 * dim]) {
        Ok(row) => Ok(Some(row)),
        Err(error) => Err(error),
    }
}

/// Whether a line has no words, or a comment.
fn is_skipped(line: &[u8]) -> bool
    ensures { result ≡ file.is_skipped (words line.now) }
{
    match first_word(line) {
        Some((word, _)) => is_comment(word),
        None => true,
    }
}

/// The box of a line that is not skipped. The numbers are put into `into`.
fn read_box(
    dim: usize,
    number: usize,
    line: &[u8],
    into: &mut [i64],
) -> Result<BoxRow, BoxFileError>
    requires low { 0 < dim }
    requires high { dim ≤ 6 }
    requires size { length into.old ≡ 2 * dim }
    ensures { StatesBox dim result
        (box_of_numbers dim number (just_numbers (2 * dim) (words line.now))) }
{
    if !read_numbers(line, into) {
        return Err(BoxFileError::Line(number));
    }
    match row_of(dim, into) {
        Some(row) => Ok(row),
        None => Err(BoxFileError::Range(number)),
    }
}

/// Whether the words of a line are numbers, just as many as there are places in `into`, which are put there.
fn read_numbers(line: &[u8], into: &mut [i64]) -> bool
    ensures { FindsNumbers result into.new (just_numbers (length into.old) (words line.now)) }
{
    let mut rest = line;
    for place in into.iter_mut() {
        let Some((word, after)) = first_word(rest) else {
            return false;
        };
        let Some(value) = read_number(word) else {
            return false;
        };
        *place = value;
        rest = after;
    }
    first_word(rest).is_none()
}

/// The box from the first half of the numbers to the other, if it is one within the limits.
fn row_of(dim: usize, from: &[i64]) -> Option<BoxRow>
    requires low { 0 < dim }
    requires high { dim ≤ 6 }
    requires size { length from.now ≡ 2 * dim }
    ensures { MatchOption result (are_ends dim from.now ≡ false) (IsBoxOf dim from.now) }
{
    let (lows, highs) = from.split_at(dim);
    let mut row = BoxRow {
        dim,
        lo: [0; DIM_MAX],
        hi: [0; DIM_MAX],
    };
    for axis in 0..dim {
        let (low, high) = (lows[axis], highs[axis]);
        if !is_side(dim, low, high) {
            return None;
        }
        row.lo[axis] = low as i32;
        row.hi[axis] = high as i32;
    }
    Some(row)
}

/// Whether a box has room from `low` to `high` on an axis, within the limits.
fn is_side(dim: usize, low: i64, high: i64) -> bool
    requires low { 0 < dim }
    requires high { dim ≤ 6 }
    ensures side { result ≡ is_side dim low high }
    ensures small { OnTrue result (FitsSigned w32 low × FitsSigned w32 high) }
{
    let limit = i64::from(limit(dim));
    if low < -limit || limit < high || high <= low {
        return false;
    }
    true
}
