//! Unions of boxes, and the reader of box files, version 1.
//!
//! `evm_formats` says what the bytes of a box file state.
#![tactic(auto)]

mod cut;
mod events;
mod file;
mod heights;
mod line;
mod plane;
mod sweep;
#[cfg(test)]
mod tests;
mod union;

pub use evm_formats::BoxFileError;
pub use file::read_boxes;
pub use union::join;

/// A box: the cells from `lo` up to, but not at, `hi` on each of the first `dim` axes.
///
/// Past these axes `lo` and `hi` hold 0, and what stands there is never read. Rows are ordered by `dim`, then by `lo`, then
/// by `hi`.
#[derive(Clone, Copy, Debug, PartialEq, Eq, PartialOrd, Ord)]
pub struct BoxRow {
    /// How many axes the box has, 1 to 6.
    pub dim: usize,
    /// The lower corner, the first axis first.
    pub lo: [i32; 6],
    /// The upper corner, the first axis first.
    pub hi: [i32; 6],
}
