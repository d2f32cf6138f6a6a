//! The fields of checkpoint images: what each is judged by, its readers and its writers.
#![tactic(auto)]

mod entries;
mod homes;
mod keys;
mod lines;
mod outbox;
mod own;
mod part;
mod records;
mod scope;

pub use entries::{
    HomeLines, HomeLocks, Logs, Outbox, Outboxes, OwnBar, OwnBars, OwnLock, OwnLocks, ProcLog,
    SavedLine, SavedLock, Values,
};
pub use homes::{logs, saved_locks};
pub use outbox::outboxes;
pub use part::{Part, listed, listed_exactly, parts, put_listed, put_parts};
pub use scope::Scope;
