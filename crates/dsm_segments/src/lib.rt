//! Entries in segments of a slab, a chain of them for each lock, barrier or processor.
#![tactic(auto)]

mod chain;
mod numbered;
mod segment;
mod segments;

pub use numbered::Numbered;
pub use segments::Segments;
