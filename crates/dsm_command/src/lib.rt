//! The command line: what the words behind the program's name ask for.
#![tactic(auto)]

mod command;
mod parser;
mod reader;

pub use command::{Command, WordsErr};
pub use reader::read_command;
