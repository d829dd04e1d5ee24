//! All words of the command line.

ghost use Rattle.std.specs.Prelude.{◌≡◌, ◌≤◌, ◌^◌, map, drop, string_bytes, MatchOption, Some};
ghost use Rattle.std.specs.List.{list_any};
ghost use Rattle.evm_words.specs.Words.{number_of, form_of_texts, form_of_options, form_behind, form_of_words, is_end};
ghost use Rattle.evm_words.specs.Read.{Answers};

use super::form::{Form, WordsError};
use super::options::texts_of;
use std::alloc::Global;

/// The most edits of a generated script.
const EDITS_MAX: u64 = 100_000;

/// The number of a text of an optional plus sign and digits; none where the text is no number or it needs more than 64 bits.
fn number_of(text: &str) -> Option<u64>
    ensures { MatchOption result
        ((n : _) → number_of text.now ≡ Some n → 2 ^ 64 ≤ n)
        (λ n. number_of text.now ≡ Some n) }
{
    match text.parse::<u64>() {
        Ok(number) => Some(number),
        Err(_) => None,
    }
}

/// The form of the texts of the two options; none where one of them is no number or is out of its range.
fn form_of(seed: &str, edits: &str) -> Option<Form>
    ensures { result ≡ form_of_texts (seed.now, edits.now) }
{
    match (number_of(seed), number_of(edits)) {
        (Some(seed), Some(edits)) => {
            if 1 <= edits && edits <= EDITS_MAX {
                Some(Form::Gen {
                    seed,
                    edits: edits as u32,
                })
            } else {
                None
            }
        }
        _ => None,
    }
}

/// Whether some word but the first is `--`.
fn has_end(words: &[String]) -> bool
    ensures { result ≡ list_any (λ word. is_end (string_bytes word)) (drop 1 words.now) }
{
    words.iter().skip(1).any(|word| word.as_str() == "--")
}

/// What the words from `gen` on ask for.
fn read_options(alloc: Global, words: &[String]) -> Result<Form, WordsError>
    ensures { Answers (form_of_options (drop 1 (map string_bytes words.now))) result }
{
    if has_end(words) {
        return Err(WordsError::NoForm);
    }
    match texts_of(alloc, words) {
        Ok((seed, edits)) => match form_of(seed, edits) {
            Some(form) => Ok(form),
            None => Err(WordsError::NoForm),
        },
        Err(error) => Err(error),
    }
}

/// What the words behind the program's name ask for.
fn read_behind(alloc: Global, words: &[String]) -> Result<Form, WordsError>
    ensures { Answers (form_behind (map string_bytes words.now)) result }
{
    match words {
        [word, ..] if word.as_str() == "gen" => read_options(alloc, words),
        [word] if word.as_str() == "run" => Ok(Form::Run),
        _ => Err(WordsError::NoForm),
    }
}

/// What the words of the command line ask for. The first is the program's name. Then stands `run` alone, or `gen` with
/// `--seed S` and `--edits N`, each once, in either order; `--seed=S` and `--edits=N` are the same. S is from 0 to
/// 18446744073709551615 and N from 1 to 100000, each an optional plus sign and digits. A value that is the next word may be no
/// `--`. All other words ask for nothing, a call for help among them.
///
/// It takes memory for what `clap` makes of the words behind `gen`.
///
/// # Errors
///
/// `NoForm` exactly where the words ask for nothing and memory was there; `NoMemory` where memory was missing.
pub fn read_words(alloc: Global, words: &[String]) -> Result<Form, WordsError>
    ensures { Answers (form_of_words (map string_bytes words.now)) result }
{
    match words {
        [_, behind @ ..] => read_behind(alloc, behind),
        [] => Err(WordsError::NoForm),
    }
}
