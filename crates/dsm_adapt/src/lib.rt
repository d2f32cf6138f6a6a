//! The files, the standard output and the folders of the machine that a program runs on. They are
//! trusted: they tell nothing of what they hold, and count their own failures. Making one touches no
//! file.
#![tactic(auto)]

mod count;
mod dir;
mod files;
mod mark;
mod output;

pub use dir::DirStore;
pub use files::HostFiles;
pub use output::StdSink;
