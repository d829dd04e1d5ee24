//! Cutting of space: the two sides of a plane across an axis, and a solid by its parts on them.
//!
//! A solid is the exclusive or of what it has on the two sides of a plane, and what is made of solids cell by cell is made on each
//! side alone. (This project's own.)
#![tactic(auto)]

mod booleans;
mod dense;
mod halves;
mod hulls;
mod levels;
mod measures;
mod middles;
mod seams;
mod sides;
mod sweeps;
#[cfg(test)]
mod tests;

pub use booleans::combine;
pub use halves::{Split, cut_at, halved};
pub use hulls::{Ends, hull};
pub use measures::{boundary, content};
pub use sides::{over, under};
