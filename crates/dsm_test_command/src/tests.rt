//! Calls from the words to the bytes, with files and a sink in memory.

mod called;
mod checks;
mod files;
mod picks;
mod programs;
mod refusals;
mod runs;
mod words;
