//! Logs and tails through their public calls.
#![tactic(auto)]

#[cfg(test)]
mod acquired;
#[cfg(test)]
mod tails;
#[cfg(test)]
mod versions;
