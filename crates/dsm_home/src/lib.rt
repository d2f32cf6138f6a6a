//! Locks at their homes: who holds a lock, who waits for it, its version, and its lines.
#![tactic(auto)]

mod home;
mod lock;
mod waiting;

pub use home::Home;
pub use lock::HomeLock;
pub use waiting::{Queue, Waiting};
