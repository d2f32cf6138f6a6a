//! Worlds of small threads: two readers and a writer at one lock, the text of a trace, and threads that
//! cross a barrier.
#![tactic(auto)]

mod crossing;
mod meeting;
#[cfg(test)]
mod meeting_tests;
mod run;
#[cfg(test)]
mod tests;
mod thread;

pub use crossing::{Cells, Course, Crosser, Crossers, Stage};
pub use meeting::{crossing_world, rounds_of, setup_of_one_cell, setup_of_three};
pub use run::{lines_of, setup_of_four, setup_of_two, world};
pub use thread::{Place, Role, Thread, Threads};
