//! The code of checked programs.
#![tactic(auto)]

mod expression;
mod instruction;
mod program;
mod statement;
mod writer;

pub use program::compile;
