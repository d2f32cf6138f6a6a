//! The state of a world as text: how each processor stands, and each lock with its version and its cells.
#![tactic(auto)]

mod locks;
mod processors;
mod state;
mod stop;

pub use state::put_state;
pub use stop::Stop;
