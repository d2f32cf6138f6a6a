//! All processors, what is under way between them, and the trace of what happened.
#![tactic(auto)]

mod nodes;
mod world;

pub use world::World;
