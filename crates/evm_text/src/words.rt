//! Cuts a line into words.

ghost use Rattle.std.specs.Prelude.{◌≡◌, ◌<◌, [], ◌∷◌, false, not, map, length, slice_index, IfOk, IfSome, MatchOption};
ghost use Rattle.std.specs.List.{position};
ghost use Rattle.evm_text.specs.Words.{is_blank, is_comment, words};

use std::alloc::{AllocError, Global};

/// Whether a byte is a space or a tab.
fn is_blank(b: u8) -> bool
    ensures { result ≡ is_blank b }
{
    b == b' ' || b == b'\t'
}

/// Whether a word begins a comment: its first byte is a number sign.
pub fn is_comment(word: &[u8]) -> bool
    ensures { result ≡ is_comment word.now }
{
    match word {
        [b'#', ..] => true,
        _ => false,
    }
}

/// The words of a line, in order. It takes memory for the list, one borrowed slice for each word.
///
/// # Errors
///
/// `AllocError` where there is no memory for the list.
pub fn words_of(alloc: Global, line: &[u8]) -> Result<Vec<&[u8]>, AllocError>
    ensures { IfOk result (λ found. map (λ w. w.now) found.items ≡ words line.now) }
{
    line.split(|b| is_blank(*b))
        .filter(|word| !word.is_empty())
        .collect(alloc)
}

/// The first word of a line, and what follows it; or `None` exactly where the line has no words.
pub fn first_word(line: &[u8]) -> Option<(&[u8], &[u8])>
    ensures { MatchOption result (words line.now ≡ [])
        (λ cut. words line.now ≡ cut.0.now ∷ words cut.1.now) }
{
    let line = without_blanks(line);
    if line.is_empty() {
        return None;
    }
    match first_blank(line) {
        Some(end) => Some((&line[..end], &line[end..])),
        None => Some((line, &line[line.len()..])),
    }
}

/// A line from its first byte on that is not blank.
fn without_blanks(line: &[u8]) -> &[u8]
    ensures same { words result.now ≡ words line.now }
    ensures begins { 0 < length result.now → is_blank (slice_index result.now 0) ≡ false }
{
    match first_filled(line) {
        Some(start) => &line[start..],
        None => &line[line.len()..],
    }
}

/// Where the first blank stands.
fn first_blank(line: &[u8]) -> Option<usize>
    ensures place { result ≡ position is_blank line.now }
    ensures below { IfSome result (λ at. at < length line.now) }
{
    line.iter().position(|b| is_blank(*b))
}

/// Where the first byte stands that is not blank.
fn first_filled(line: &[u8]) -> Option<usize>
    ensures place { result ≡ position (λ b. not (is_blank b)) line.now }
    ensures below { IfSome result (λ at. at < length line.now) }
{
    line.iter().position(|b| !is_blank(*b))
}
