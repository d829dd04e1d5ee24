//! The work of an edit, worked out by hand for a small scene and for scenes of any size.
//!
//! There is no code here that computes. The work of an edit is a number that a definition of the model counts over all heights within
//! the limits of a dimension; each function below takes nothing, gives nothing and does nothing, and what it ensures is that the
//! definition gives the figure that comes out by hand. The scenes and the edits stand in `specs/`, step by step.
#![tactic(auto)]

ghost use Rattle.evm_worked.specs.Worked.{LinesMakeSquares, WorkOfCut, WorkOfLine};
ghost use Rattle.evm_worked.specs.Beside.{WorkBeside, WorkInRow, CutsOfRow};

/// The work of an edit comes out as it does by hand.
///
/// - `scene`: the lines `input a 2`, `add a 0 0 2 2`, `input b 2`, `add b 1 1 3 3` and `def c and a b` make the scene of squares.
/// - `cut`: in that scene, the work of a cut of b from (1, 1) to (2, 2) is 80: the names b and c are reached, each with two heights
///   looked at and two cuts in the range of its change, 8 (1 + 2 + 2) each.
/// - `line`: it is the work of the line `cut b 1 1 2 2`.
pub fn worked_edits_have_their_work()
    ensures scene { LinesMakeSquares }
    ensures cut { WorkOfCut }
    ensures line { WorkOfLine }
{}

/// The work of an edit does not grow with cells that are apart from it.
///
/// - `beside`: in a scene of an input a, an input b without cells and their union c, the work of a toggle of a box in a is 80 where
///   all cells of a are apart from the box along the first axis, whatever cells these are and however many cuts they make: the names a
///   and c are reached, each with two heights looked at and two cuts in the range of its change, 8 (1 + 2 + 2) each.
/// - `row`: so the work of `toggle a 5 0 6 1` is 80 where a is a row of n boxes, from (10 k, 0) to (10 k + 1, 1) for each k below n,
///   for one box as for a thousand, and for a hundred million.
/// - `cuts`: such a row has 2 n cuts.
pub fn work_stays_near_the_change()
    ensures beside { WorkBeside }
    ensures row { WorkInRow }
    ensures cuts { CutsOfRow }
{}
