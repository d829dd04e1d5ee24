//! Lists of the parts of a solid as flat numbers.
ghost use Rattle.std.specs.Prelude.{◌≡◌, ◌<◌, [], ◌∷◌, length, slice_index, slice_index_or};
ghost use Rattle.evm_rows.specs.View.{vertices_of};
ghost use Rattle.evm_parts.specs.PartLists.{AreParts, parts_from};

use evm_rows::Rows;
use std::marker::Model;

/// The parts of a solid of one dimension, in order, each as the ascending list of its extreme vertices: the coordinates of all parts
/// stand one after another in one flat list, and beside it stands where each part ends. Its meaning is the dimension and the rows of
/// each part.
///
/// The type keeps that the dimension is 1 to 6, and that the rows of each part are a vertex list.
#[derive(Drop)]
pub struct Parts {
    dim: usize,
    flat: Vec<i32>,
    ends: Vec<usize>,
}

impl Model for Parts {
    ghost use Rattle.evm_parts.specs.PartLists.{AreParts, PartList, parts_from};

    ghost Value = { PartList };

    ghost view = { λ p. record { dim = p.dim; parts = parts_from p.dim 0 p.flat.items p.ends.items } };

    ghost invariant = { λ p. AreParts p.dim p.flat.items p.ends.items };
}

// Where a part begins: at 0, or where the part before it ends.
fn start_of(ends: &[usize], index: usize) -> usize
    requires { index < length ends.now }
    ensures { result ≡ slice_index (0 ∷ ends.now) index }
{
    if index == 0 { 0 } else { ends[index - 1] }
}

impl Parts {
    /// The parts of these numbers, each from where the one before it ends up to its own of `ends`. Takes no memory.
    pub(crate) fn of_flat(dim: usize, flat: Vec<i32>, ends: Vec<usize>) -> Parts
        requires { AreParts dim flat.items ends.items }
        ensures dim { result.dim ≡ dim }
        ensures parts { result.parts ≡ parts_from dim 0 flat.items ends.items }
    {
        Parts { dim, flat, ends }
    }

    /// The dimension, 1 to 6. Takes no memory.
    pub fn dim(&self) -> usize
        ensures { result ≡ self.now.dim }
    {
        self.dim
    }

    /// The number of parts. Takes no memory.
    pub fn len(&self) -> usize
        ensures { result ≡ length self.now.parts }
    {
        self.ends.len()
    }

    /// The extreme vertices of a part, counted from 0, borrowed. Takes no memory.
    pub fn rows(&self, index: usize) -> Rows<'_>
        requires { index < length self.now.parts }
        ensures dim { (vertices_of result).dim ≡ self.now.dim }
        ensures rows { (vertices_of result).rows ≡ slice_index_or self.now.parts index [] }
    {
        let ends = self.ends.as_slice();
        let start = start_of(ends, index);
        let end = ends[index];
        Rows {
            flat: &self.flat[start..end],
            width: self.dim,
            skip: 0,
        }
    }
}
