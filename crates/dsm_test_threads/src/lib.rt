//! Threads of code that was written by hand or is that of a program, through their public calls.
#![tactic(auto)]

#[cfg(test)]
mod programs;
#[cfg(test)]
mod saved;
#[cfg(test)]
mod threads;
