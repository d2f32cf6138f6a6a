//! Saved threads of code: their bytes, each field judged by the code and by what stands before it.
#![tactic(auto)]

mod answer;
mod frames;
mod laws;
mod saved;
mod stops;
mod values;
mod write;

pub use answer::read_saved;
pub use laws::{one_saved, saved_are_states, states_are_saved};
pub use saved::{Saved, SavedFrame, SavedFrames, Values};
pub use write::{put_frame, put_life, put_own};
