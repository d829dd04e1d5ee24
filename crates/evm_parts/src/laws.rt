//! The laws of parts.

ghost use Rattle.evm_parts.specs.Laws.{PartsByLabels, FloodsAreParts, PartsAreOne, UnionOfParts, PartsStandApart, PartIsWhole};
ghost use Rattle.evm_parts.specs.Laws.{CornerJoinsNothing, EdgeJoinsNothing, AngleIsOnePart};

/// The parts of a cell set are what hangs together by faces (this project's own).
///
/// It computes nothing: what it ensures are laws, of all dimensions and all cell sets.
///
/// - `stated`: the parts are cell sets, none of them empty, ascending by their least cells. Each cell stands in exactly one of them, and
///   two cells stand in the same exactly where a chain of cells of the set, each of which shares a face with the next, leads from one
///   to the other.
/// - `one`: no other list of sets is so.
/// - `union`: the union of the parts is the cell set.
/// - `apart`: no cell of one part shares a face with a cell of another.
/// - `whole`: a part has itself as its one part.
/// - `corner`, `edge`, `angle`: worked examples. Squares that share a corner and cubes that share an edge are two parts; an L of
///   three squares is one.
pub fn parts_hang_together()
    ensures stated { FloodsAreParts }
    ensures one { PartsAreOne }
    ensures union { UnionOfParts }
    ensures apart { PartsStandApart }
    ensures whole { PartIsWhole }
    ensures corner { CornerJoinsNothing }
    ensures edge { EdgeJoinsNothing }
    ensures angle { AngleIsOnePart }
{}

/// The parts of a cell set are read off the boxes of its stated partition (this project's own).
///
/// It computes nothing: what it ensures is a law, of all dimensions and all cell sets. With a label for each box, the least box that a
/// chain of neighbours leads to, the parts are the unions of the boxes of one label, ascending by these.
pub fn parts_by_labels()
    ensures { PartsByLabels }
{}
