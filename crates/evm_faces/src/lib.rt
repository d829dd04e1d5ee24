//! Faces of solids along any axis: the heights at which sections change, and what rises and what falls there.
//!
//! The couplet of a height, where the sections just below and just above it differ (after Aguilera and Ayala 1997, and
//! Pérez-Aguila for n dimensions), has two parts: what is above the height and not below it, and what is below and not
//! above. The names rising and falling for them are this project's own.
#![tactic(auto)]

mod counts;
mod heights;
mod sides;

pub use counts::{CutFaces, cut_faces};
pub use heights::cuts;
pub use sides::{falling, rising};

#[cfg(test)]
mod tests;
