//! Formulas.

ghost use Rattle.std.specs.Prelude.{◌≡◌, map};
ghost use Rattle.evm_script.specs.Formulas.{formula_of, formula_by};
ghost use Rattle.evm_script.specs.Operands.{operands_of};

use super::names::Name;
use super::numbers::{Num, Nums};
use super::shapes::{
    is, name_then_number, name_then_numbers, name_then_three, name_then_two, number_then_numbers,
    two_names,
};

/// A formula: how a solid is made of others, or of numbers.
///
/// Whether the names stand, and whether the dimension and the numbers fit, is for the scene to
/// say.
#[derive(Clone, Copy, Debug, PartialEq, Eq)]
pub enum Formula {
    /// `or A B`: the cells that are in one of the two solids or in both.
    Or {
        a: Name,
        b: Name,
    },
    /// `and A B`: the cells that are in both.
    And {
        a: Name,
        b: Name,
    },
    /// `sub A B`: the cells of the first that are not in the second.
    Sub {
        a: Name,
        b: Name,
    },
    /// `xor A B`: the cells that are in exactly one of the two.
    Xor {
        a: Name,
        b: Name,
    },
    /// `box DIM NUMS`: the cells of a box in this many dimensions, its lower corner first.
    Box {
        dim: Num,
        nums: Nums,
    },
    /// `shift A NUMS`: the cells moved, along each axis by one of the numbers.
    Shift {
        a: Name,
        nums: Nums,
    },
    /// `mirror A AXIS`: the cells mirrored at the place 0 of an axis.
    Mirror {
        a: Name,
        axis: Num,
    },
    /// `swap A I J`: the cells with two axes exchanged.
    Swap {
        a: Name,
        i: Num,
        j: Num,
    },
    /// `clip A NUMS`: the cells that are in a box too, whose lower corner comes first.
    Clip {
        a: Name,
        nums: Nums,
    },
    /// `slice A AXIS K`: the cells at one place along an axis, with this axis left out.
    Slice {
        a: Name,
        axis: Num,
        at: Num,
    },
    /// `proj A AXIS`: the cells with an axis left out.
    Proj {
        a: Name,
        axis: Num,
    },
    /// `lift A AXIS LO HI`: the cells with a new axis put in, along which they go from one place
    /// to another.
    Lift {
        a: Name,
        axis: Num,
        lo: Num,
        hi: Num,
    },
}

/// The names that a formula reads, in the order in which it states them. It owns them.
#[derive(Clone, Copy, Debug, PartialEq, Eq)]
pub enum Operands {
    /// Two names, which may be the same.
    Two(Name, Name),
    /// One name.
    One(Name),
    /// No name.
    None,
}

impl Formula {
    /// Its operands: the names that it reads. Takes no memory.
    pub fn operands(&self) -> Operands
        ensures { result ≡ operands_of self.now }
    {
        match *self {
            Formula::Or { a, b }
            | Formula::And { a, b }
            | Formula::Sub { a, b }
            | Formula::Xor { a, b } => Operands::Two(a, b),
            Formula::Box { .. } => Operands::None,
            Formula::Shift { a, .. }
            | Formula::Mirror { a, .. }
            | Formula::Swap { a, .. }
            | Formula::Clip { a, .. }
            | Formula::Slice { a, .. }
            | Formula::Proj { a, .. }
            | Formula::Lift { a, .. } => Operands::One(a),
        }
    }
}

/// The formula that the words after `def NAME` make.
pub(crate) fn read_formula(words: &[&[u8]]) -> Option<Formula>
    ensures { result ≡ formula_of (map (λ w. w.now) words.now) }
{
    match words {
        [first, rest @ ..] => form(first, rest),
        _ => None,
    }
}

/// The formula that a first word and what follows it make.
#[tactic(auto, unfolding(crate::specs::Formulas::formula_by))]
fn form(first: &[u8], rest: &[&[u8]]) -> Option<Formula>
    ensures { result ≡ formula_by first.now (map (λ w. w.now) rest.now) }
{
    if is(first, "or") {
        two_names(rest).map(|(a, b)| Formula::Or { a, b })
    } else if is(first, "and") {
        two_names(rest).map(|(a, b)| Formula::And { a, b })
    } else if is(first, "sub") {
        two_names(rest).map(|(a, b)| Formula::Sub { a, b })
    } else if is(first, "xor") {
        two_names(rest).map(|(a, b)| Formula::Xor { a, b })
    } else if is(first, "box") {
        number_then_numbers(rest).map(|(dim, nums)| Formula::Box { dim, nums })
    } else if is(first, "shift") {
        name_then_numbers(rest).map(|(a, nums)| Formula::Shift { a, nums })
    } else if is(first, "mirror") {
        name_then_number(rest).map(|(a, axis)| Formula::Mirror { a, axis })
    } else if is(first, "swap") {
        name_then_two(rest).map(|(a, (i, j))| Formula::Swap { a, i, j })
    } else if is(first, "clip") {
        name_then_numbers(rest).map(|(a, nums)| Formula::Clip { a, nums })
    } else if is(first, "slice") {
        name_then_two(rest).map(|(a, (axis, at))| Formula::Slice { a, axis, at })
    } else if is(first, "proj") {
        name_then_number(rest).map(|(a, axis)| Formula::Proj { a, axis })
    } else if is(first, "lift") {
        name_then_three(rest).map(|(a, (axis, (lo, hi)))| Formula::Lift { a, axis, lo, hi })
    } else {
        None
    }
}
