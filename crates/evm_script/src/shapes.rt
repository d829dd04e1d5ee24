//! Shapes of what follows the first word of a form: names and numbers.

ghost use Rattle.std.specs.Prelude.{◌≡◌, ◌≤◌, ◌<◌, ◌^◌, map, IfSome, option_map, neg_ℤ, true, length};
ghost use Rattle.std.specs.List.{list_all};
ghost use Rattle.evm_text.specs.Numbers.{number, numbers};
ghost use Rattle.evm_script.specs.Shapes.{same_bytes, name_alone, name_number, name_two_numbers, name_three_numbers, name_numbers, two_names, two_numbers, three_numbers, number_alone, number_name, number_numbers, some_numbers};

use super::names::Name;
use super::numbers::{NUMS_MAX, Num, Nums};

/// Whether a word has these letters.
pub(crate) fn is(word: &[u8], letters: &str) -> bool
    ensures { result ≡ same_bytes word.now letters.now }
{
    word == letters.as_bytes()
}

/// `NAME`: a name and nothing after it.
pub(crate) fn only_name(rest: &[&[u8]]) -> Option<Name>
    ensures { result ≡ name_alone (map (λ w. w.now) rest.now) }
{
    match rest {
        [name] => Name::of(name),
        _ => None,
    }
}

/// `NAME N`: a name, a number and nothing after them.
pub(crate) fn name_then_number(rest: &[&[u8]]) -> Option<(Name, Num)>
    ensures { result ≡ name_number (map (λ w. w.now) rest.now) }
{
    match rest {
        [name, n] => Name::of(name).zip(read_number(n)),
        _ => None,
    }
}

/// `NAME M N`: a name, two numbers and nothing after them.
pub(crate) fn name_then_two(rest: &[&[u8]]) -> Option<(Name, (Num, Num))>
    ensures { result ≡ name_two_numbers (map (λ w. w.now) rest.now) }
{
    match rest {
        [name, numbers @ ..] => Name::of(name).zip(two_numbers(numbers)),
        _ => None,
    }
}

/// `NAME K M N`: a name, three numbers and nothing after them.
pub(crate) fn name_then_three(rest: &[&[u8]]) -> Option<(Name, (Num, (Num, Num)))>
    ensures { result ≡ name_three_numbers (map (λ w. w.now) rest.now) }
{
    match rest {
        [name, numbers @ ..] => Name::of(name).zip(three_numbers(numbers)),
        _ => None,
    }
}

/// `M N`: two numbers and nothing after them.
fn two_numbers(words: &[&[u8]]) -> Option<(Num, Num)>
    ensures { result ≡ two_numbers (map (λ w. w.now) words.now) }
{
    match words {
        [m, n] => read_number(m).zip(read_number(n)),
        _ => None,
    }
}

/// `K M N`: three numbers and nothing after them.
fn three_numbers(words: &[&[u8]]) -> Option<(Num, (Num, Num))>
    ensures { result ≡ three_numbers (map (λ w. w.now) words.now) }
{
    match words {
        [k, numbers @ ..] => read_number(k).zip(two_numbers(numbers)),
        _ => None,
    }
}

/// `NAME NUMS`: a name, and one to twelve numbers.
pub(crate) fn name_then_numbers(rest: &[&[u8]]) -> Option<(Name, Nums)>
    ensures { result ≡ name_numbers (map (λ w. w.now) rest.now) }
{
    match rest {
        [name, nums @ ..] => Name::of(name).zip(read_numbers(nums)),
        _ => None,
    }
}

/// `A B`: two names and nothing after them.
pub(crate) fn two_names(rest: &[&[u8]]) -> Option<(Name, Name)>
    ensures { result ≡ two_names (map (λ w. w.now) rest.now) }
{
    match rest {
        [a, b] => Name::of(a).zip(Name::of(b)),
        _ => None,
    }
}

/// `N`: a number and nothing after it.
pub(crate) fn only_number(rest: &[&[u8]]) -> Option<Num>
    ensures { result ≡ number_alone (map (λ w. w.now) rest.now) }
{
    match rest {
        [n] => read_number(n),
        _ => None,
    }
}

/// `N NAME`: a number, a name and nothing after them.
pub(crate) fn number_then_name(rest: &[&[u8]]) -> Option<(Num, Name)>
    ensures { result ≡ number_name (map (λ w. w.now) rest.now) }
{
    match rest {
        [n, name] => read_number(n).zip(Name::of(name)),
        _ => None,
    }
}

/// `N NUMS`: a number, and one to twelve numbers.
pub(crate) fn number_then_numbers(rest: &[&[u8]]) -> Option<(Num, Nums)>
    ensures { result ≡ number_numbers (map (λ w. w.now) rest.now) }
{
    match rest {
        [n, nums @ ..] => read_number(n).zip(read_numbers(nums)),
        _ => None,
    }
}

/// One to twelve numbers.
fn read_numbers(words: &[&[u8]]) -> Option<Nums>
    ensures { result ≡ some_numbers (numbers (map (λ w. w.now) words.now)) }
{
    if words.is_empty() || words.len() > NUMS_MAX {
        return None;
    }
    let mut values = [0i64; NUMS_MAX];
    for (at, word) in words.iter().enumerate() {
        match read_number(word) {
            Some(number) => values[at] = number.value(),
            None => return None,
        }
    }
    Some(Nums::within(&values[..words.len()]))
}

/// A number: digits, with a minus sign before them or without.
pub(crate) fn read_number(word: &[u8]) -> Option<Num>
    ensures { result ≡ number word.now }
{
    match evm_text::read_number(word) {
        Some(n) => Some(Num::within(n)),
        None => None,
    }
}
