//! Schedules and lists of picks from their text on; the large job from its number on.
#![tactic(auto)]

#[cfg(test)]
mod tests;
