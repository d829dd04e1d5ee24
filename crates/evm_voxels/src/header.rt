// The header of an image of a PGM stack.
ghost use Rattle.std.specs.Prelude.{◌≡◌, option_map, ◌&&◌, not, cond, false, ◌==◌, MatchOption, [], ◌∷◌};
ghost use Rattle.evm_text.specs.Numbers.{is_digit, digits_value};
ghost use Rattle.evm_formats.specs.Header.{is_white, is_blank, is_end, begins, after_blank, digits, after_digits, spaced_number, fields as fields_of};
ghost use Rattle.evm_voxels.specs.Numbers.{capped, capped_number, capped_fields};
ghost use Rattle.evm_voxels.specs.Shots.{fields_read};

use evm_text::is_digit;

/// The numbers of a header, those past 32 bits as the greatest of 32 bits, and the bytes after it.
#[derive(Clone, Copy)]
pub struct Fields<'a> {
    /// The number of columns.
    pub width: u32,
    /// The number of rows.
    pub height: u32,
    /// The greatest value of a sample.
    pub maxval: u32,
    /// The bytes after the header.
    pub rest: &'a [u8],
}

/// Space, TAB, LF, VT, FF or CR.
pub fn is_white(b: u8) -> bool
    ensures { result ≡ is_white b }
{
    b == b' ' || (9 <= b && b <= 13)
}

/// The first byte, and those after it.
pub fn first_byte(bytes: &[u8]) -> Option<(u8, &[u8])>
    ensures { MatchOption result (bytes.now ≡ []) (λ r. bytes.now ≡ r.0 ∷ r.1.now) }
{
    if bytes.is_empty() {
        return None;
    }
    let (_, later) = bytes.split_at(1);
    Some((bytes[0], later))
}

// Whether this byte ends the white space and the comments.
fn ends_blank(inside: bool, b: u8) -> bool
    ensures { result ≡ (not inside && not (is_blank b)) }
{
    !inside && !(is_white(b) || b == b'#')
}

// Whether a comment goes on, or begins, after this byte.
fn in_comment(inside: bool, b: u8) -> bool
    ensures { result ≡ cond inside (not (is_end b)) (not (is_white b) && b == 35) }
{
    if inside {
        !(b == b'\n' || b == b'\r')
    } else {
        !is_white(b) && b == b'#'
    }
}

// What follows the white space and the comments in front.
fn skip_blank(bytes: &[u8]) -> &[u8]
    ensures { result.now ≡ after_blank false bytes.now }
{
    let mut rest = bytes;
    let mut inside = false;
    while let Some((b, later)) = first_byte(rest) {
        if ends_blank(inside, b) {
            return rest;
        }
        inside = in_comment(inside, b);
        rest = later;
    }
    rest
}

/// The value of the digits in front, and what follows them.
pub fn number(bytes: &[u8]) -> (u32, &[u8])
    ensures value { result.0 ≡ capped (digits_value (digits bytes.now)) }
    ensures rest { result.1.now ≡ after_digits bytes.now }
{
    let mut rest = bytes;
    let mut value = 0u32;
    while let Some((b, later)) = first_byte(rest) {
        if !is_digit(b) {
            return (value, rest);
        }
        value = value.saturating_mul(10).saturating_add((b - b'0') as u32);
        rest = later;
    }
    (value, rest)
}

// Whether a separator begins here.
fn begins_blank(bytes: &[u8]) -> bool
    ensures { result ≡ begins is_blank bytes.now }
{
    match first_byte(bytes) {
        Some((b, _)) => is_white(b) || b == b'#',
        None => false,
    }
}

/// Whether a number begins here.
pub fn begins_digit(bytes: &[u8]) -> bool
    ensures { result ≡ begins is_digit bytes.now }
{
    match first_byte(bytes) {
        Some((b, _)) => is_digit(b),
        None => false,
    }
}

// A separator and a number.
#[tactic(auto, unfolding(evm_formats::specs::Header::spaced_number))]
fn next_number(bytes: &[u8]) -> Option<(u32, &[u8])>
    ensures { option_map
        (λ r. (r.0, r.1.now)) result ≡ option_map capped_number (spaced_number bytes.now) }
{
    if !begins_blank(bytes) {
        return None;
    }
    let found = skip_blank(bytes);
    if !begins_digit(found) {
        return None;
    }
    Some(number(found))
}

/// The numbers after the magic, up to the single white space byte after them.
pub fn read_fields(bytes: &[u8]) -> Option<Fields<'_>>
    ensures { option_map fields_read result ≡ option_map capped_fields (fields_of bytes.now) }
{
    let (width, rest) = next_number(bytes)?;
    let (height, rest) = next_number(rest)?;
    let (maxval, rest) = next_number(rest)?;
    let (b, rest) = first_byte(rest)?;
    if is_white(b) {
        Some(Fields {
            width,
            height,
            maxval,
            rest,
        })
    } else {
        None
    }
}
