//! The machine of one memory, over programs with every name resolved.
#![tactic(auto)]

mod finished;
mod machine;
mod start;
mod turn;
mod waiting;

pub use machine::Plain;
pub use waiting::Picked;
