//! Nodes of the table of names.

use evm_script::Formula;
use evm_tiles::Tiles;

/// What a name stands for: its dimension, its formula if it is no input, and the tree of its solid.
#[derive(Drop)]
pub struct Node {
    /// The dimension of the solid, 2 to 6.
    pub dim: usize,
    /// The formula that makes the solid, or none for an input.
    pub formula: Option<Formula>,
    /// The solid, as a tree of tiles: an edit changes it near its box alone.
    pub solid: Tiles,
}
