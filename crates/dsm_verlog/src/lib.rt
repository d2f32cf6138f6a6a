//! What a processor has made: versions of locks and arrivals at barriers, each with its lines.
#![tactic(auto)]

mod log;

pub use log::VersionLog;
