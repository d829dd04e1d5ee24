// Streams of frames.
use crate::image::{Image, Size};

/// The values of the parameters of one letter: that of the only one, if there is just one.
#[derive(Clone, Copy)]
pub enum Found<'a> {
    /// There is none.
    Never,
    /// There is just one, with this value.
    Once(&'a [u8]),
    /// There are more.
    Often,
}

/// What the first line of a stream states: the size of a frame, and how many bytes follow its luma. Then the bytes after
/// that line.
#[derive(Clone, Copy)]
pub struct Stream<'a> {
    /// The size of a frame.
    pub size: Size,
    /// How many bytes follow the luma of a frame.
    pub extra: usize,
    /// The bytes after the first line.
    pub rest: &'a [u8],
}

/// A frame's luma, and the bytes after its planes.
#[derive(Clone, Copy)]
pub struct Frame<'a> {
    /// The samples of its luma.
    pub luma: Image<'a>,
    /// The bytes after its planes.
    pub rest: &'a [u8],
}
