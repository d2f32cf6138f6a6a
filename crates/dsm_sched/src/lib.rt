//! Schedules and lists of picks: texts that are read by lines and words, and what they stand for.
#![tactic(auto)]

mod arguments;
mod heading;
mod lines;
mod picks;
mod rows;
mod schedule;
mod words;

pub use heading::{MOST_BYTES, MOST_UNITS};
pub use picks::{PickEntries, PickEntry, Picks, read_picks};
pub use schedule::{Entries, Entry, Schedule, read_schedule};
