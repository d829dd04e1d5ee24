//! Edits of a scene, and why one is refused.

ghost use Rattle.std.specs.Prelude.{◌≡◌};
ghost use Rattle.evm_scene.specs.declared.edit.Refusal.TheVariants as refusals;
ghost use Rattle.evm_scene.specs.Refused.{of_delta_error};

use evm_delta::DeltaError;
use evm_rows::{NoMemory, Solid};
use evm_script::{Formula, Name, Num, Nums};

/// How a box changes an input.
#[derive(Clone, Copy, Debug, PartialEq, Eq)]
pub enum BoxEdit {
    /// The cells of the box that are in the input go out of it, and the others come in.
    Toggle,
    /// The cells of the box come in.
    Add,
    /// The cells of the box go out.
    Cut,
}

/// An edit of a scene. It owns the solid that it brings, if it brings one; what `Debug` prints leaves that out.
#[derive(Drop)]
#[derive_where(Debug)]
pub enum Edit {
    /// A new input of this dimension, without cells.
    Input {
        name: Name,
        dim: Num,
    },
    /// An input changes by a box, whose lower corner stands first.
    Box {
        how: BoxEdit,
        name: Name,
        nums: Nums,
    },
    /// The input gets another solid, of the same dimension.
    Replace {
        name: Name,
        #[derive_where(skip)]
        solid: Solid,
    },
    /// A name stands for a formula: a new name, or one that stood for another formula.
    Def {
        name: Name,
        formula: Formula,
    },
    /// A name that nothing reads is taken out.
    Drop {
        name: Name,
    },
}

/// Why an edit is refused. Where several causes hold, it is the first of them in this order.
#[derive(Clone, Copy, Debug, PartialEq, Eq, Drop)]
pub enum Refusal {
    /// A name other than the one that is being made does not stand.
    Name,
    /// The name of a new input stands already.
    Taken,
    /// A box edit of a formula or another solid for one, or a definition of an input.
    Kind,
    /// A name that is to be taken out is an operand of a formula, or watched by a meter.
    Used,
    /// A formula would reach its own name through its operands.
    Cycle,
    /// The dimension is none that solids have, operands or an input and its other solid differ in it, or the numbers are not
    /// as many as it asks for.
    Dim,
    /// A stated number is past its limits.
    Range,
    /// There was no memory.
    NoMemory,
}

impl From<NoMemory> for Refusal {
    ghost from_gives = { λ _ r. r ≡ refusals.NoMemory };

    fn from(_e: NoMemory) -> Refusal {
        Refusal::NoMemory
    }
}

impl From<DeltaError> for Refusal {
    ghost from_gives = { λ e r. r ≡ of_delta_error e };

    fn from(e: DeltaError) -> Refusal {
        match e {
            DeltaError::Range => Refusal::Range,
            DeltaError::NoMemory => Refusal::NoMemory,
        }
    }
}

/// Why no meter watches a name. Where both hold it is `Name`.
#[derive(Clone, Copy, Debug, PartialEq, Eq, Drop)]
pub enum AttachError {
    /// The name does not stand.
    Name,
    /// There is no such slot, or its meter watches a name already, or was given up.
    Slot,
    /// There was no memory.
    NoMemory,
}

/// What an accepted edit did.
#[derive(Clone, Copy, Debug, PartialEq, Eq, Drop)]
pub struct Changed {
    /// How many names stood before and after and changed their cells.
    pub names: usize,
}

/// What a name stands for.
#[derive(Clone, Copy, Debug, PartialEq, Eq, Drop)]
pub struct Entry {
    /// The dimension of its solid, 2 to 6.
    pub dim: usize,
    /// Whether it is an input; else it is a formula.
    pub input: bool,
}
