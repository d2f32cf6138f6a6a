//! The law that the code of a closed program is valid: its operands are there, its jumps lead where they
//! should, and all that it names is there. There is no code here.
#![tactic(auto)]

mod laws;

pub use laws::code_is_valid;
