//! The words of the command line: what they ask the program for.
//!
//! A first word `run` or `gen` is read by hand; the two options behind `gen` are read by `clap`, and their numbers by hand.
#![tactic(auto)]

mod form;
mod laws;
mod options;
#[cfg(test)]
mod tests;
mod words;

pub use form::{Form, WordsError};
pub use laws::plain_words_ask_for_forms;
pub use words::read_words;
