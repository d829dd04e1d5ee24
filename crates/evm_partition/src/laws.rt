//! The laws of the stated partition.

ghost use Rattle.evm_partition.specs.Laws.{ListIsPartition, OnePartition, CellsStandOnce, BoxesHaveRoom, UnionOfPartition};

/// Each cell of a cell set stands in exactly one box of its stated partition (this project's own).
///
/// It computes nothing: what it ensures are laws, of all dimensions and all cell sets.
///
/// - `stated`: the list that is made slab by slab, between neighbouring cuts, is the stated partition: it has the box of each cell and
///   no other, ascending by the lower corners.
/// - `one`: no other list is.
/// - `once`: a cell stands in exactly one of the boxes, and a place that is no cell of the set in none.
/// - `boxes`: the boxes have room on each axis, and are within the limits.
/// - `union`: their union is the cell set.
pub fn cells_stand_in_boxes()
    ensures stated { ListIsPartition }
    ensures one { OnePartition }
    ensures once { CellsStandOnce }
    ensures boxes { BoxesHaveRoom }
    ensures union { UnionOfPartition }
{}
