//! Stores in memory and in folders, the files and the output of the host, and savers over boxed stores.
#![tactic(auto)]

#[cfg(test)]
mod fronts;
#[cfg(test)]
mod host;
#[cfg(test)]
mod memory;
#[cfg(test)]
mod savers;
