//! The change of a Boolean or of a shape, from its operands before and from their changes.
//!
//! A change of a solid is the exclusive or of its cells before and after. So a value after is the value before, with the
//! change taken as an exclusive or. The change of a Boolean is made of the operands' changes alone, each cut down by the
//! other operand: where the operands change little, it is small. A shape but the projection carries the operand's change
//! over; the change of a projection is looked for only where the operand's change stands. Operands are trees of tiles.
//! (This project's own.)
//!
//! Steps are counted: a Boolean of a change and a window takes one for each height of the first axis at which one of them
//! changes, and a projection one for each height at which what it projects does. So a change takes few where few heights are
//! near: those at which an operand changes, before or after, in the range of the heights at which the changes do. Along the
//! first axis a projection puts all sections together, and there all heights count.
#![tactic(auto)]

mod boolean_changes;
mod flat;
mod hulls;
mod shape_changes;
mod shapes;
#[cfg(test)]
mod tests;

pub use boolean_changes::delta2;
pub use shape_changes::{delta1, projection_change};
pub use shapes::{DeltaError, Op1, shape};
