//! What a saver answers.

/// How an image was begun.
#[derive(Clone, Copy, Debug, PartialEq, Eq)]
pub enum Begun {
    /// It is under way, and has so many blocks.
    Started(u32),
    /// The store failed: its count of failures rose.
    GaveUp,
}

/// What became of the next block of an image.
#[derive(Clone, Copy, Debug, PartialEq, Eq)]
pub enum Wrote {
    /// There was nothing to write.
    Nothing,
    /// The block with this number, from 0, was written.
    Block(u32),
    /// All blocks were written before, and the image with this turn is marked now.
    Marked(u32),
    /// The store failed: its count of failures rose. The image is given up.
    GaveUp,
}
