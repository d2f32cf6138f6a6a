//! Threads over programs with every name resolved.
#![tactic(auto)]

mod call;
mod execution;
mod expression;
mod finish;
mod frame;
mod item;
mod location;
mod lock;
mod operands;
mod print;
mod statement;
mod step;
mod thread;

pub use thread::PlainThread;
