//! What is under way between processors: for each sender and receiver the bytes of its messages, in order.
#![tactic(auto)]

mod channels;
mod packet;

pub use channels::Channels;
