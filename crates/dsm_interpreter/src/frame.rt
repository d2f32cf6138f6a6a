//! A function that is under way.

use crate::item::Item;
use dsm_base::{Fault, Stack};

/// A function that is under way: what remains to be done of it, the values that its expressions have
/// left, and those of its slots.
#[derive(Drop)]
pub struct Frame<'a> {
    pub todo: Stack<Item<'a>>,
    pub operands: Stack<i64>,
    pub slots: Vec<i64>,
}

/// How a thread came to be over.
#[derive(Clone, Copy)]
pub enum Over {
    /// Its `main` has returned.
    Ended,
    /// It has stopped, at a line of the source.
    Stopped(Fault, u32),
}
