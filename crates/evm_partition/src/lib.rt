//! The stated partition of a solid into boxes, and its laws.
//!
//! For a cell, its **run** is the longest range of heights round it at which the section along the first axis stays the same. Its box
//! has this run on the first axis, and on the others the box of the rest of the cell in the section. The **stated partition** is the
//! list of the boxes of all cells, each once, ascending by their lower corners (this project's own). It is fixed by the solid alone,
//! and need not be the smallest.
#![tactic(auto)]

mod boxes;
mod laws;
mod slabs;

pub use boxes::Boxes;
pub use laws::cells_stand_in_boxes;
pub use slabs::split;

#[cfg(test)]
mod tests;
