//! What operators come to: values of 64 bits, or faults.
#![tactic(auto)]

mod value;

pub use value::{binary_value, step_value, unary_value};
