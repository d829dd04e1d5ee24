//! Texts of words, appended with one space between each two.

ghost use Rattle.std.specs.Prelude.{◌≡◌, ◌++◌, [], ◌∷◌, map, OnOk, true};
ghost use Rattle.std.specs.List.{flat_map};
ghost use Rattle.std.specs.Fmt.{signed_decimal};
ghost use Rattle.evm_outside.specs.Shelves.{is_file_name};
ghost use Rattle.evm_text.specs.Numbers.{in_number_range};
ghost use Rattle.evm_script.specs.Words.{is_name, keeps_nums};
ghost use Rattle.evm_text.specs.Spaced.{spaced};

use super::files::FileName;
use super::names::Name;
use super::numbers::{Num, Nums};
use std::alloc::AllocError;
use std::io::Write;

/// Appends a word.
pub(crate) fn put_word(text: &mut Vec<u8>, word: &[u8]) -> Result<(), AllocError>
    ensures { OnOk result (text.new.items ≡ text.old.items ++ spaced (word.now ∷ [])) }
{
    text.extend_from_slice(word)?;
    Ok(())
}

/// Appends a first word and a name.
pub(crate) fn put_name(text: &mut Vec<u8>, first: &[u8], name: &Name) -> Result<(), AllocError>
    ensures text { OnOk result (text.new.items
        ≡ text.old.items ++ spaced (first.now ∷ name.now ∷ [])) }
    ensures rule { OnOk result (is_name name.now ≡ true) }
{
    let bytes = name.bytes();
    text.extend_from_slice(first)?;
    text.push(b' ')?;
    text.extend_from_slice(bytes)?;
    Ok(())
}

/// Appends a first word, a name and a number.
pub(crate) fn put_name_number(
    text: &mut Vec<u8>,
    first: &[u8],
    name: &Name,
    number: &Num,
) -> Result<(), AllocError>
    ensures text { OnOk result (text.new.items
        ≡ text.old.items ++ spaced (first.now ∷ name.now ∷ signed_decimal number.now ∷ [])) }
    ensures rule { OnOk result (is_name name.now ≡ true) }
    ensures range { OnOk result (in_number_range number.now ≡ true) }
{
    let value = number.value();
    put_name(text, first, name)?;
    put_number(text, value)
}

/// Appends a first word, a name and two numbers.
pub(crate) fn put_name_two(
    text: &mut Vec<u8>,
    first: &[u8],
    name: &Name,
    m: &Num,
    n: &Num,
) -> Result<(), AllocError>
    ensures text { OnOk result (text.new.items
        ≡ text.old.items
        ++ spaced (first.now ∷ name.now ∷ signed_decimal m.now ∷ signed_decimal n.now ∷ [])) }
    ensures rule { OnOk result (is_name name.now ≡ true) }
    ensures range_m { OnOk result (in_number_range m.now ≡ true) }
    ensures range_n { OnOk result (in_number_range n.now ≡ true) }
{
    let value = n.value();
    put_name_number(text, first, name, m)?;
    put_number(text, value)
}

/// Appends a first word, a name and three numbers.
pub(crate) fn put_name_three(
    text: &mut Vec<u8>,
    first: &[u8],
    name: &Name,
    k: &Num,
    m: &Num,
    n: &Num,
) -> Result<(), AllocError>
    ensures text { OnOk result (text.new.items
        ≡ text.old.items
        ++ spaced (first.now ∷ name.now ∷ signed_decimal k.now ∷ signed_decimal m.now ∷ signed_decimal n.now ∷ [])) }
    ensures rule { OnOk result (is_name name.now ≡ true) }
    ensures range_k { OnOk result (in_number_range k.now ≡ true) }
    ensures range_m { OnOk result (in_number_range m.now ≡ true) }
    ensures range_n { OnOk result (in_number_range n.now ≡ true) }
{
    let value = n.value();
    put_name_two(text, first, name, k, m)?;
    put_number(text, value)
}

/// Appends a first word, a name and a list of numbers.
pub(crate) fn put_name_numbers(
    text: &mut Vec<u8>,
    first: &[u8],
    name: &Name,
    nums: &Nums,
) -> Result<(), AllocError>
    ensures text { OnOk result (text.new.items
        ≡ text.old.items ++ spaced (first.now ∷ name.now ∷ map signed_decimal nums.now)) }
    ensures rule { OnOk result (is_name name.now ≡ true) }
    ensures range { OnOk result (keeps_nums nums.now ≡ true) }
{
    put_name(text, first, name)?;
    put_numbers(text, nums)
}

/// Appends a first word and two names.
pub(crate) fn put_two_names(
    text: &mut Vec<u8>,
    first: &[u8],
    a: &Name,
    b: &Name,
) -> Result<(), AllocError>
    ensures text { OnOk result (text.new.items
        ≡ text.old.items ++ spaced (first.now ∷ a.now ∷ b.now ∷ [])) }
    ensures rule_a { OnOk result (is_name a.now ≡ true) }
    ensures rule_b { OnOk result (is_name b.now ≡ true) }
{
    let bytes = b.bytes();
    put_name(text, first, a)?;
    text.push(b' ')?;
    text.extend_from_slice(bytes)?;
    Ok(())
}

/// Appends a first word, a name, the word of a form and a file.
pub(crate) fn put_form_file(
    text: &mut Vec<u8>,
    first: &[u8],
    name: &Name,
    form: &[u8],
    file: &FileName,
) -> Result<(), AllocError>
    ensures text { OnOk result (text.new.items
        ≡ text.old.items ++ spaced (first.now ∷ name.now ∷ form.now ∷ file.now ∷ [])) }
    ensures rule { OnOk result (is_name name.now ≡ true) }
    ensures file_rule { OnOk result (is_file_name file.now ≡ true) }
{
    put_name_word(text, first, name, form)?;
    put_file(text, file)
}

/// Appends a first word, a name, the word of a form, a threshold and a file.
pub(crate) fn put_threshold_file(
    text: &mut Vec<u8>,
    first: &[u8],
    name: &Name,
    form: &[u8],
    threshold: &Num,
    file: &FileName,
) -> Result<(), AllocError>
    ensures text { OnOk result (text.new.items
        ≡ text.old.items
        ++ spaced (first.now ∷ name.now ∷ form.now ∷ signed_decimal threshold.now ∷ file.now ∷ [])) }
    ensures rule { OnOk result (is_name name.now ≡ true) }
    ensures range { OnOk result (in_number_range threshold.now ≡ true) }
    ensures file_rule { OnOk result (is_file_name file.now ≡ true) }
{
    let value = threshold.value();
    put_name_word(text, first, name, form)?;
    put_number(text, value)?;
    put_file(text, file)
}

/// Appends a first word, a name and a word.
fn put_name_word(
    text: &mut Vec<u8>,
    first: &[u8],
    name: &Name,
    word: &[u8],
) -> Result<(), AllocError>
    ensures text { OnOk result (text.new.items
        ≡ text.old.items ++ spaced (first.now ∷ name.now ∷ word.now ∷ [])) }
    ensures rule { OnOk result (is_name name.now ≡ true) }
{
    put_name(text, first, name)?;
    text.push(b' ')?;
    text.extend_from_slice(word)?;
    Ok(())
}

/// Appends a space and a file.
fn put_file(text: &mut Vec<u8>, file: &FileName) -> Result<(), AllocError>
    ensures text { OnOk result (text.new.items ≡ text.old.items ++ 32 ∷ file.now) }
    ensures rule { OnOk result (is_file_name file.now ≡ true) }
{
    let bytes = file.bytes();
    text.push(b' ')?;
    text.extend_from_slice(bytes)?;
    Ok(())
}

/// Appends a first word, a number and a list of numbers.
pub(crate) fn put_number_numbers(
    text: &mut Vec<u8>,
    first: &[u8],
    number: &Num,
    nums: &Nums,
) -> Result<(), AllocError>
    ensures text { OnOk result (text.new.items
        ≡ text.old.items
        ++ spaced (first.now ∷ signed_decimal number.now ∷ map signed_decimal nums.now)) }
    ensures range { OnOk result (in_number_range number.now ≡ true) }
    ensures ranges { OnOk result (keeps_nums nums.now ≡ true) }
{
    put_first_number(text, first, number)?;
    put_numbers(text, nums)
}

/// Appends a first word, a number and a name.
pub(crate) fn put_number_name(
    text: &mut Vec<u8>,
    first: &[u8],
    number: &Num,
    name: &Name,
) -> Result<(), AllocError>
    ensures text { OnOk result (text.new.items
        ≡ text.old.items ++ spaced (first.now ∷ signed_decimal number.now ∷ name.now ∷ [])) }
    ensures range { OnOk result (in_number_range number.now ≡ true) }
    ensures rule { OnOk result (is_name name.now ≡ true) }
{
    let bytes = name.bytes();
    put_first_number(text, first, number)?;
    text.push(b' ')?;
    text.extend_from_slice(bytes)?;
    Ok(())
}

/// Appends a first word and a number.
pub(crate) fn put_first_number(
    text: &mut Vec<u8>,
    first: &[u8],
    number: &Num,
) -> Result<(), AllocError>
    ensures text { OnOk result (text.new.items
        ≡ text.old.items ++ spaced (first.now ∷ signed_decimal number.now ∷ [])) }
    ensures range { OnOk result (in_number_range number.now ≡ true) }
{
    let value = number.value();
    text.extend_from_slice(first)?;
    put_number(text, value)
}

/// Appends a space and a number.
fn put_number(text: &mut Vec<u8>, number: i64) -> Result<(), AllocError>
    ensures { OnOk result (text.new.items ≡ text.old.items ++ 32 ∷ signed_decimal number) }
{
    write!(text, " {number}").map_err(|_| AllocError)
}

/// Appends each number with a space before it.
#[tactic(auto, using(evm_text::proofs::Spaced::numbers_more))]
fn put_numbers(text: &mut Vec<u8>, nums: &Nums) -> Result<(), AllocError>
    ensures text { OnOk result (text.new.items ≡ text.old.items ++ flat_map
        (λ n. 32 ∷ signed_decimal n) nums.now) }
    ensures range { OnOk result (keeps_nums nums.now ≡ true) }
{
    for value in nums.values() {
        put_number(text, *value)?;
    }
    Ok(())
}
