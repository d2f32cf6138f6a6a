//! Programs from their text to what they are refused for.
#![tactic(auto)]

#[cfg(test)]
mod tests;
