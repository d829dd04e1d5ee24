//! Writes the faces of solids: as faces files, version 1, and, in space, as meshes in Wavefront OBJ.
//!
//! `evm_sections` walks over the couplets of a solid, `evm_partition` says which boxes what falls and what rises there has, and
//! `evm_formats` what the texts of both formats are. A face is a box of these; a mesh gives its corners in an order, so that it is
//! seen which side is outside.
#![tactic(auto)]

mod faces;
mod mesh;
mod sheets;
mod vertices;

pub use faces::write_faces;
pub use mesh::write_obj;

#[cfg(test)]
mod tests;
