//! Slots: meters that were handed in, and the names that they watch.
//!
//! Each meter has a **slot** of its own, by its place in the list that was handed in. A slot is free, watches a name, or is gone, after
//! its meter was given up. A change of a watched name is prepared first, from the parts of its solid round the change; when nothing
//! can fail any more, all readings are committed, and where an edit is refused, they are abandoned.
#![tactic(auto)]

mod near;
mod slot;
mod slots;

pub use slot::AttachError;
pub use slots::Slots;
