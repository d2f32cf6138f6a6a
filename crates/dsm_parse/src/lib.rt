//! The reader of programs: the tree that tokens spell, or the first token that is refused.
#![tactic(auto)]

mod binding;
mod declarator;
mod expression;
mod function;
mod head;
mod item;
mod measured;
mod print;
mod program;
mod simple;
mod statement;
mod variable;

pub use program::parse;
