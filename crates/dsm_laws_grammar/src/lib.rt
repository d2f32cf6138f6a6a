//! The grammar of trees, what each reader of tokens makes of them, and the laws of both: tokens are
//! those of one program or are refused at one place for one reason. There is no code.
#![tactic(auto)]

mod laws;

pub use laws::{one_tree, program_or_refusal, refused_for_good, tree_or_refusal};
