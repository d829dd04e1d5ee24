//! Steps: how many sections are combined for an answer. A counter of them takes no bytes, and counting no time.
//!
//! A step is one combination of two sections. A Boolean of two solids takes one for each height at which one of them changes.
#![tactic(auto)]

mod slabs;
mod steps;

pub use slabs::{combine, combine_slabs, pass_slabs};
pub use steps::Steps;

#[cfg(test)]
mod tests;
