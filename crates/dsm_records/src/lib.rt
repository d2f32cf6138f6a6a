//! Traces: what happened in each unit, as groups of records; their text, and the lines that go out.
#![tactic(auto)]

mod lines;
mod record;
mod text;
mod trace;

pub use lines::lines_of;
pub use trace::Trace;
