//! What a text is made of: lines, words, and numbers in plain decimal.
//!
//! Lines end at a line feed, and a last line without one counts where it has some byte. One carriage return at the end of
//! a line is dropped. Words are separated by spaces or tabs. A number is one to ten digits, with a `-` before them or
//! without; zeros before it count for nothing. What reads borrows from the text, but for `InlineBytes`, which owns its bytes.
//! What writes appends to a text.
#![tactic(auto)]

mod inline;
mod lines;
mod numbers;
#[cfg(test)]
mod tests;
mod words;

pub use inline::InlineBytes;
pub use lines::{first_line, without_cr};
pub use numbers::{NUM_MAX, append_count, append_number, append_numbers, is_digit, read_number};
pub use words::{first_word, is_comment, words_of};
