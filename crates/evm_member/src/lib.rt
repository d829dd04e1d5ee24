//! Membership: whether a solid fills a cell, and where a point stands.
//!
//! Both questions are answered by one pass over the rows of a view, without memory of their own.
#![tactic(auto)]

mod cell;
mod compare;
mod limits;
mod outcome;
mod point;

pub use cell::fills;
pub use limits::{is_cell, is_point};
pub use outcome::Place;
pub use point::place;

#[cfg(test)]
mod tests;
