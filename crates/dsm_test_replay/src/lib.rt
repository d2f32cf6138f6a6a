//! Tests of what reports answer to a processor that was restarted, as tables.
#![tactic(auto)]

#[cfg(test)]
mod reports;
