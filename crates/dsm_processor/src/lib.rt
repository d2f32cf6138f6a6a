//! One processor: its thread, its own copy of the cells, its mailbox, the locks that it is home of, and what
//! it knows of the others.
#![tactic(auto)]

mod copy;
mod mailbox;
mod node;
mod peers;
mod versions;

pub use node::{Effects, Node, Stepped};
