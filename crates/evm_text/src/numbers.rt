//! Reads and writes numbers in plain decimal.

ghost use Rattle.std.specs.Prelude.{◌≡◌, ◌≤◌, ◌<◌, ◌^◌, ◌++◌, true, length, pos, neg_ℤ, IfSome, OnOk};
ghost use Rattle.std.specs.List.{list_all};
ghost use Rattle.std.specs.Fmt.{signed_decimal};
ghost use Rattle.evm_text.specs.Numbers.{is_digit, is_digits, digits_value, digits, number, in_number_range};
ghost use Rattle.evm_text.specs.Spaced.{behind_spaces};

use std::alloc::AllocError;
use std::io::Write;

/// The most digits of a number.
pub const DIGITS_MAX: usize = 10;

/// The greatest number, of ten digits; the least is its negative.
pub const NUM_MAX: i64 = 9_999_999_999;

/// Whether a byte is a digit from 0 to 9.
pub fn is_digit(b: u8) -> bool
    ensures { result ≡ is_digit b }
{
    b'0' <= b && b <= b'9'
}

/// The number that a word states, which lies from -9999999999 to 9999999999; or `None` exactly where the word is none.
#[tactic(auto, unfolding(crate::specs::Numbers::number))]
pub fn read_number(word: &[u8]) -> Option<i64>
    ensures value { result ≡ number word.now }
    ensures range { IfSome result (λ n. in_number_range n ≡ true) }
{
    match word {
        [b'-', digits @ ..] => match read_digits(digits) {
            Some(n) => Some(-n),
            None => None,
        },
        _ => read_digits(word),
    }
}

/// The value of one to ten digits.
#[tactic(auto, using(crate::proofs::Digits::range_pos, crate::proofs::Digits::range_neg))]
fn read_digits(word: &[u8]) -> Option<i64>
    ensures value { result ≡ digits word.now }
    ensures range { IfSome result
        (λ n. (in_number_range n ≡ true) × (in_number_range (neg_ℤ n) ≡ true)) }
{
    if are_digits(word) {
        Some(digits_sum(word) as i64)
    } else {
        None
    }
}

/// Whether a word has one to ten digits and nothing else.
fn are_digits(word: &[u8]) -> bool
    ensures { result ≡ is_digits word.now }
{
    each_digit(word) & (1 <= word.len()) & (word.len() <= DIGITS_MAX)
}

/// Whether each byte is a digit.
fn each_digit(word: &[u8]) -> bool
    ensures { result ≡ list_all is_digit word.now }
{
    word.iter().all(|b| is_digit(*b))
}

/// The value of at most ten digits.
fn digits_sum(word: &[u8]) -> u64
    requires few { length word.now ≤ DIGITS_MAX }
    requires each { list_all is_digit word.now ≡ true }
    ensures value { result ≡ digits_value word.now }
    ensures small { result < 10 ^ DIGITS_MAX }
{
    let mut value: u64 = 0;
    for b in word {
        value = value * 10 + u64::from(*b - b'0');
    }
    value
}

/// Appends a number in plain decimal: its digits, with a `-` before them where it is below zero. It takes memory where the text
/// has no room left.
///
/// # Errors
///
/// `AllocError` where there is no memory for the text.
pub fn append_number(text: &mut Vec<u8>, number: i32) -> Result<(), AllocError>
    ensures { OnOk result (text.new.items ≡ text.old.items ++ signed_decimal number) }
{
    write!(text, "{number}").map_err(|_| AllocError)
}

/// Appends a count in plain decimal. It takes memory where the text has no room left.
///
/// # Errors
///
/// `AllocError` where there is no memory for the text.
pub fn append_count(text: &mut Vec<u8>, count: usize) -> Result<(), AllocError>
    ensures { OnOk result (text.new.items ≡ text.old.items ++ signed_decimal (pos count)) }
{
    write!(text, "{count}").map_err(|_| AllocError)
}

/// Appends each of the numbers in plain decimal, with a space before it. It takes memory where the text has no room left.
///
/// # Errors
///
/// `AllocError` where there is no memory for the text.
#[tactic(auto, using(crate::proofs::Spaced::numbers_more))]
pub fn append_numbers(text: &mut Vec<u8>, numbers: &[i32]) -> Result<(), AllocError>
    ensures { OnOk result (text.new.items ≡ text.old.items ++ behind_spaces numbers.now) }
{
    for number in numbers {
        text.push(b' ')?;
        append_number(text, *number)?;
    }
    Ok(())
}
