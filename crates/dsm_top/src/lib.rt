//! The call that the program makes: from its words to the bytes that it writes.
#![tactic(auto)]

mod check;
mod laws;
mod lines;
mod message;
mod output;
mod plain;
mod prepare;
mod program;
mod run;
mod shown;
mod status;
mod tool;

pub use laws::accepted_or_refused;
pub use status::{Report, Status};
pub use tool::run_tool;
