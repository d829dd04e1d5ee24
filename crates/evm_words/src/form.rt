//! What the words of the command line may ask for.

/// What the program is asked to do.
#[derive(Clone, Copy, Debug, PartialEq, Eq)]
pub enum Form {
    /// `run`: answer the script of standard input.
    Run,
    /// `gen`: answer the script of a seed and a number of edits.
    Gen {
        /// The seed.
        seed: u64,
        /// The number of edits, 1 to 100000.
        edits: u32,
    },
}

/// Why no form was read.
#[derive(Clone, Copy, Debug, PartialEq, Eq)]
pub enum WordsError {
    /// The words ask for nothing that the program does.
    NoForm,
    /// Memory was missing.
    NoMemory,
}
