// Images of a file.

/// One image: the bytes of its samples, and whether a sample has two bytes.
#[derive(Clone, Copy)]
pub struct Image<'a> {
    /// The bytes of the samples, row after row.
    pub bytes: &'a [u8],
    /// Whether a sample has two bytes.
    pub wide: bool,
}

/// A width and a height.
#[derive(Clone, Copy)]
pub struct Size {
    /// The number of columns.
    pub width: usize,
    /// The number of rows.
    pub height: usize,
}

/// An image of a file, and the bytes after its last sample.
#[derive(Clone, Copy)]
pub struct Shot<'a> {
    /// The size of the image.
    pub size: Size,
    /// Its samples.
    pub image: Image<'a>,
    /// The bytes after its last sample.
    pub rest: &'a [u8],
}

/// The size of each image of a stack, and how many there are.
#[derive(Clone, Copy)]
pub struct Extent {
    /// The size of each image.
    pub size: Size,
    /// The number of images.
    pub depth: usize,
}
