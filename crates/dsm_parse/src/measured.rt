//! Parts of a tree with their heights.

/// A part of a tree, with the most nodes on a way down in it.
#[derive(Drop)]
pub struct Measured<T> {
    pub tree: T,
    pub height: u32,
}
