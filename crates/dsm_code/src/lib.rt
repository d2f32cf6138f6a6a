//! Code of threads: instructions in one table a function, and what threads of code do.
#![tactic(auto)]

mod code;
mod instruction;
mod laws;
mod parts;
mod target;
mod validity;

pub use code::Code;
pub use instruction::{Array, Bound, Instr, Target, Use};
pub use laws::{code_asks_first, code_finds_all, code_stays_within};
pub use parts::{Function, Parts, Print, PrintPart, Row, SlotName, SlotNames};
pub use validity::values_in;
