//! The answer of `place`.

/// The place of a point in a solid.
#[derive(Clone, Copy, Debug, PartialEq, Eq, Drop)]
pub enum Place {
    /// All cells round the point are filled.
    Inside,
    /// Some of the cells round the point are filled, and some are not.
    Boundary,
    /// No cell round the point is filled.
    Outside,
}
