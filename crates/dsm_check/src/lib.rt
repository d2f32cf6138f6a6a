//! The rules of programs, and programs with every name resolved.
#![tactic(auto)]

mod bindings;
mod body;
mod checked;
mod expression;
mod items;
mod limits;
mod names;
mod refusal;
mod resolved;
mod rules;
mod scope;
mod statement;

pub use checked::Checked;
pub use names::{Named, Names};
pub use resolved::{
    Array, Expression, ForStart, Function, Location, LockPlace, Part, Statement, Variable,
};
pub use rules::{check, fit};
