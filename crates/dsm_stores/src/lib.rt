//! Stores that stand in front of another one: one that fails for good after some calls, and one that
//! tells nothing of what it holds.
#![tactic(auto)]

mod count;
mod fuse;
mod mute;

pub use fuse::Fuse;
pub use mute::MuteStore;
