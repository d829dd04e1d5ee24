//! What plain words ask for, as statements alone.

ghost use Rattle.evm_words.specs.Laws.{PlainWordsAskForScripts, RunAsksForRun};

/// The words that the documents name, by their bytes alone.
///
/// - `scripts`: `gen` with `--seed S` and `--edits N`, each as two words or as one with `=`, in either order, asks for the script of S
///   and N, where S and N are one digit or more, with a plus sign before them or without, and state numbers in their ranges.
/// - `run`: `run` alone asks for a run.
pub fn plain_words_ask_for_forms()
    ensures scripts { PlainWordsAskForScripts }
    ensures run { RunAsksForRun }
{}
