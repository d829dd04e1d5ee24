//! The two options behind `gen`, read by `clap`.

ghost use Rattle.std.specs.Prelude.{◌≡◌, false, map, drop, string_bytes, IfOk};
ghost use Rattle.std.specs.List.{list_any};
ghost use Rattle.clap.specs.Simple.{app_of};
ghost use Rattle.evm_words.specs.Words.{is_end, form_of_options};
ghost use Rattle.evm_words.specs.Command.{gen_app};
ghost use Rattle.evm_words.specs.Read.{AnswersTexts, IsBoth, IsRefusalOf, Parses, both_values};
ghost use Rattle.clap.specs.Matches.{found_of};

use super::form::WordsError;
use clap::error::ErrorKind;
use clap::{Arg, ArgMatches, Command, Error};
use std::alloc::Global;

/// The command: two required options, each with one text.
fn command<'a>(alloc: Global) -> Result<Command<'a>, Error>
    ensures app { IfOk result (λ c. app_of c ≡ gen_app) }
{
    let seed = Arg::new(alloc, "seed").long("seed").required(true);
    let edits = Arg::new(alloc, "edits").long("edits").required(true);
    let plain = Command::new(alloc, "gen").disable_help_flag(true);
    let one = plain.arg(seed)?;
    let both = one.arg(edits)?;
    Ok(both)
}

/// Why the words behind `gen` were refused.
fn refusal(error: &Error) -> WordsError
    ensures { IsRefusalOf error.now result }
{
    if error.kind() == ErrorKind::OutOfMemory {
        WordsError::NoMemory
    } else {
        WordsError::NoForm
    }
}

/// What the command makes of words, the first of which is passed over.
fn parse<'a>(alloc: Global, words: &'a [String]) -> Result<ArgMatches<'a>, WordsError>
    ensures { Parses (map string_bytes words.now) result }
{
    let command = match command(alloc) {
        Ok(command) => command,
        Err(_) => return Err(WordsError::NoMemory),
    };
    match command.try_get_matches_from(words) {
        Ok(matches) => Ok(matches),
        Err(error) => Err(refusal(&error)),
    }
}

/// The two texts that were found.
fn both_texts<'a>(matches: &ArgMatches<'a>) -> Result<(&'a str, &'a str), WordsError>
    ensures { IsBoth (both_values (found_of matches.now)) result }
{
    match (matches.get_str("seed"), matches.get_str("edits")) {
        (Some(seed), Some(edits)) => Ok((seed, edits)),
        _ => Err(WordsError::NoForm),
    }
}

/// The texts of the seed and of the number of edits, which are no numbers yet, where no word is `--`.
pub(crate) fn texts_of<'a>(
    alloc: Global,
    words: &'a [String],
) -> Result<(&'a str, &'a str), WordsError>
    requires { list_any is_end (drop 1 (map string_bytes words.now)) ≡ false }
    ensures { AnswersTexts (drop 1 (map string_bytes words.now)) result }
{
    match parse(alloc, words) {
        Ok(matches) => both_texts(&matches),
        Err(error) => Err(error),
    }
}
