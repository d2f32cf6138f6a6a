//! Writing checkpoint images into stores, block by block, and loading the last one that was marked.
#![tactic(auto)]

mod answers;
mod image;
mod load;
mod put;
mod saver;

pub use answers::{Begun, Wrote};
pub use saver::Saver;
