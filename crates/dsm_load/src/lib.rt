//! The large job: its schedule and its program, both made from a number.
#![tactic(auto)]

mod draws;
mod job;
mod program;

pub use job::generate;
pub use program::load_program;
