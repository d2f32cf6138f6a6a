//! Calls from the words to the bytes.
#![tactic(auto)]

#[cfg(test)]
mod tests;
