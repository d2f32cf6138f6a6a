//! The processors, the messages under way and what a unit makes of them; traces, and when a trace fits
//! its units. It has the definitions, and the types that hold a trace.
#![tactic(auto)]

mod trace;

pub use trace::{Group, Letter, Rec, Records};
