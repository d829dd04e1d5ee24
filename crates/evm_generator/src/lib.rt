//! The script that a seed and a number of edits make, one line at a time.
//!
//! It names three inputs and five formulas on them, edits the inputs by boxes that a sequence of numbers draws, and asks for
//! measures at the end. No more than one line is in memory.
#![tactic(auto)]

mod draws;
mod edit;
mod generator;
mod laws;
#[cfg(test)]
mod tests;

pub use generator::Generator;
pub use laws::generated_scripts_are_as_stated;
