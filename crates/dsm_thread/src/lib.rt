//! Threads of code, which take no memory once they have started, and can be saved and loaded.
#![tactic(auto)]

mod load;
mod maker;
mod save;
mod thread;

pub use maker::CodeMaker;
pub use thread::Thread;
