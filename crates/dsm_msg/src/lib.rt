//! Messages and their bytes.
#![tactic(auto)]

mod body;
mod bytes;
mod entry;
mod error;
mod lines;
mod message;
mod records;
mod stands;

pub use bytes::{no_spelling_begins_another, read_msg, write_msg};
pub use error::MsgErr;
pub use message::{Bodies, Body, Carry, Logged, Msg, Report, Sends, TurnBody};
