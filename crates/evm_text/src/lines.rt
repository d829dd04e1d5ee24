//! Cuts a text into lines.

ghost use Rattle.std.specs.Prelude.{◌≡◌, ◌<◌, [], ◌∷◌, length, IfSome, MatchOption};
ghost use Rattle.std.specs.List.{position};
ghost use Rattle.evm_text.specs.Lines.{is_lf, lines, without_cr};

/// The first line of a text, without its line feed, and what follows it; or `None` exactly where the text is empty.
pub fn first_line(text: &[u8]) -> Option<(&[u8], &[u8])>
    ensures line { MatchOption result (lines text.now ≡ [])
        (λ cut. lines text.now ≡ cut.0.now ∷ lines cut.1.now) }
    ensures shorter { MatchOption result (length text.now ≡ 0)
        (λ cut. length cut.1.now < length text.now) }
{
    if text.is_empty() {
        return None;
    }
    match first_lf(text) {
        Some(at) => Some((&text[..at], &text[at + 1..])),
        None => Some((text, &text[text.len()..])),
    }
}

/// Where the first line feed stands.
fn first_lf(text: &[u8]) -> Option<usize>
    ensures place { result ≡ position is_lf text.now }
    ensures below { IfSome result (λ at. at < length text.now) }
{
    text.iter().position(|b| *b == b'\n')
}

/// A line without the one carriage return at its end, if one stands there.
pub fn without_cr(line: &[u8]) -> &[u8]
    ensures { result.now ≡ without_cr line.now }
{
    match line {
        [front @ .., b'\r'] => front,
        _ => line,
    }
}
