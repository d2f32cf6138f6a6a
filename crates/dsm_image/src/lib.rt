//! Checkpoint images and their bytes.
#![tactic(auto)]

mod bytes;
mod frame;
mod image;
mod payload;

pub use bytes::{one_spelling, read_image, write_image};
pub use image::Image;
