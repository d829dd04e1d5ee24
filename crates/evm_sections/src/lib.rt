//! Couplets, sections and slabs of a view, along its first axis.
//!
//! A cut is a height at which the section changes. The couplet of a cut is where the sections just below and just above
//! it differ, and its extreme vertices are the rows of the view that begin with the height of the cut. A slab is the
//! range between two neighbouring cuts, in which the section stays the same (couplets and sections after Aguilera and
//! Ayala 1997, and Pérez-Aguila for n dimensions).
//!
//! Rows ascend, so those of a couplet stand one after another. A couplet is lent as a view of the same numbers that
//! passes over one coordinate more; nothing is copied.
#![tactic(auto)]

mod line;
pub mod marks;
mod sweep;
mod walk;

pub use line::{Line, LineAfter, changed, counted, first_from, least};
pub use marks::Marks;
pub use sweep::{Slab, Sweep};
pub use walk::{Walk, first_of};

#[cfg(test)]
mod tests;
