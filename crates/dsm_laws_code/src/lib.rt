//! The code of a program by its tree, and the law that threads of this code do what the tree says.
//! There is no code here.
#![tactic(auto)]

mod laws;

pub use laws::compiled_runs_as_tree;
