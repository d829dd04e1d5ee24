//! What the bytes of a file state: EVM files, box files, PGM stacks and Y4M videos, and why bytes are none of these.
//!
//! These are the definitions that the readers and the model share. Each format has a file in `specs/`, in plain words in
//! `docs/FORMATS.md`, and laws that tell what follows from it: functions here whose bodies are empty ensure them. A reader's
//! contract names what its format's bytes state, so an edit of a reader changes nothing here.
#![tactic(auto)]

mod boxes;
mod file;
mod voxels;

pub use boxes::{BoxFileError, box_files_state_unions};
pub use file::{FileError, files_determine_solids};
pub use voxels::{Sampling, VoxelError, stacks_state_images, streams_state_frames};
