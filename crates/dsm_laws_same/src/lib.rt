//! Laws of threads that run as others: their runs are the same, over one memory and without it. Threads of
//! a program's code are the use: what is proved of their runs is said of the program's tree. There is no
//! code here.
#![tactic(auto)]

mod laws;

pub use laws::compiled_has_runs_of_tree;
