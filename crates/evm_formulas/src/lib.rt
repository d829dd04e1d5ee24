//! What formulas do to solids: which Boolean, shape or box a formula is, whether the numbers that it states are in their limits, its
//! solid from those of its operands, and its change from theirs, for a projection with the help of its own solid before.
//!
//! Solids are seen as figures, a dimension and a set of cells, as the model of scenes sees them. No table of names stands here: the
//! scene looks the operands up.
#![tactic(auto)]

pub mod changes;
pub mod operations;
pub mod ranges;
pub mod shapes;
pub mod solids;
