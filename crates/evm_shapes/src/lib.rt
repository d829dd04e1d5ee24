//! Shapes of solids: shift, mirror image, swap of axes, clip, slice, projection and prism.
#![tactic(auto)]

mod clips;
mod inside;
mod keys;
mod moves;
mod order;
mod prisms;
mod projections;
mod shifts;
mod slices;
mod turns;

pub use clips::clip;
pub use keys::reduced_by_keys;
pub use order::reduced;
pub use prisms::lift;
pub use projections::project;
pub use shifts::{ShapeError, shift};
pub use slices::slice;
pub use turns::{fronted, mirror, swap};

#[cfg(test)]
mod tests;
