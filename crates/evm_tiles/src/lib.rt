//! Kept solids as trees of tiles.
//!
//! A tree of tiles stands for a solid of dimension 1 to 6: a plane across an axis cuts a tile in two, and each leaf has the
//! vertex list of the part of the solid inside its tile. Versions of a solid share the subtrees in which they do not differ,
//! so an edit costs the leaves that it meets and the cuts above them, and a window looks only at the leaves whose tiles it
//! meets. Contracts see a tree as the solid that it stands for: its cells are the exclusive or of those of its leaves. (This
//! project's own.)
#![tactic(auto)]

mod node;
mod solids;
#[cfg(test)]
mod tests;
mod tiles;

pub use tiles::Tiles;
