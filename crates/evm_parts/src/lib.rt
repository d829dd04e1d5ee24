//! The parts of a solid: what hangs together by faces of cells.
#![tactic(auto)]

mod components;
mod labels;
mod laws;
mod lists;
mod neighbours;
mod remainder;
mod rows;

pub use components::parts;
pub use laws::{parts_by_labels, parts_hang_together};
pub use lists::Parts;

#[cfg(test)]
mod link_tests;
#[cfg(test)]
mod tests;
