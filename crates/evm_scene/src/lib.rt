//! A scene: named inputs and formulas, each with its solid, kept current under edits.
//!
//! A scene holds names in the order of their making. A name stands for an input, whose solid edits change, or for a formula
//! over other names. Each name's solid is kept as a tree of tiles, and always is that of its formula evaluated anew from the inputs.
//! An edit makes the exact change of its name, carries it through the names that come later in an order in which operands stand
//! first, and puts all new trees in place at the end, when nothing can fail any more. All changes are made from the trees before the
//! edit, near the changes of operands; a tree after shares with the one before what its change does not meet.
//!
//! A scene is handed meters, each in a slot of its own, and a slot may watch a name: then its reading is the measure of the name's
//! value at each moment between two calls. An edit prepares the meters of the watched names that change before anything is put in
//! place, and forgets what they prepared where it is refused after that.
#![tactic(auto)]

mod added;
mod apply;
mod boxes;
mod carry;
mod commit;
mod defined;
mod edit;
mod formulas;
mod inputs;
mod node;
mod numbers;
mod removed;
mod reorder;
mod replaced;
mod scene;
mod slots;
#[cfg(test)]
mod tests;
mod watched;

pub use edit::{AttachError, BoxEdit, Changed, Edit, Entry, Refusal};
pub use scene::Scene;
