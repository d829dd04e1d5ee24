//! What formulas do.

ghost use Rattle.std.specs.Prelude.{◌≡◌, pos, nat_abs, ◌≤ℤ◌, true};
ghost use Rattle.evm_cells.specs.Limits.{is_point_coord};
ghost use Rattle.evm_formulas.specs.Stated.{FormulaStated};
ghost use Rattle.evm_formulas.specs.Operations.{operation_of};

use evm_boolean::Op2;
use evm_delta::Op1;
use evm_script::{Formula, Name, Num, Nums};

/// What a formula does.
#[derive(Clone, Copy, Debug)]
pub enum Operation {
    /// A Boolean of two names.
    Both { op: Op2, a: Name, b: Name },
    /// A shape of one name.
    Shape { op: Op1, a: Name },
    /// A box, of these numbers.
    Block { nums: Nums },
}

/// An axis that a formula states.
fn axis_of(axis: Num) -> usize
    requires { pos 0 ≤ℤ axis }
    ensures { result ≡ nat_abs axis }
{
    axis.value() as usize
}

/// A height that a formula states, which is a coordinate.
#[tactic(auto, unfolding(evm_cells::specs::Limits::is_point_coord, evm_cells::specs::Limits::limit))]
fn height_of(at: Num, _dim: usize) -> i32
    requires { is_point_coord _dim at ≡ true }
    ensures { result ≡ at }
{
    at.value() as i32
}

/// A shape of a name.
fn shaped(op: Op1, a: Name) -> Operation
    ensures { result ≡ Operation.Shape op a }
{
    Operation::Shape { op, a }
}

/// What a formula of dimension `dim` does.
pub fn operation_of(formula: &Formula, dim: usize) -> Operation
    requires { FormulaStated dim formula.now }
    ensures { result ≡ operation_of formula.now }
{
    match *formula {
        Formula::Or { a, b } => Operation::Both { op: Op2::Or, a, b },
        Formula::And { a, b } => Operation::Both { op: Op2::And, a, b },
        Formula::Sub { a, b } => Operation::Both { op: Op2::Sub, a, b },
        Formula::Xor { a, b } => Operation::Both { op: Op2::Xor, a, b },
        Formula::Box { nums, .. } => Operation::Block { nums },
        Formula::Shift { a, nums } => shaped(Op1::Shift(nums), a),
        Formula::Mirror { a, axis } => shaped(Op1::Mirror(axis_of(axis)), a),
        Formula::Swap { a, i, j } => shaped(Op1::Swap(axis_of(i), axis_of(j)), a),
        Formula::Clip { a, nums } => shaped(Op1::Clip(nums), a),
        Formula::Slice { a, axis, at } => {
            shaped(Op1::Slice(axis_of(axis), height_of(at, dim)), a)
        }
        Formula::Proj { a, axis } => shaped(Op1::Proj(axis_of(axis)), a),
        Formula::Lift { a, axis, lo, hi } => {
            shaped(
                Op1::Lift(axis_of(axis), height_of(lo, dim), height_of(hi, dim)),
                a,
            )
        }
    }
}
