//! Solids as lists of extreme vertices, views of them, and their exclusive or.
#![tactic(auto)]

mod boxes;
mod check;
mod groups;
mod merge;
mod solid;

pub use boxes::BoxError;
pub use check::{RowError, odd_places};
pub use groups::first_group;
pub use merge::{append_rows, append_xor, extend_by_xor, own, split_row, xor, xor_into};
pub use solid::{DIM_MAX, NoMemory, Rows, Solid, limit};

#[cfg(test)]
mod tests;
