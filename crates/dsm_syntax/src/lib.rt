//! The tokens of a program's text, the cursor that goes over them, and the syntax tree.
#![tactic(auto)]

mod bytes;
mod cursor;
mod errors;
mod front;
mod kind;
mod laws;
mod lexer;
mod operator;
mod refusal;
mod sign;
mod token;
mod tree;
mod word;

pub use cursor::Cursor;
pub use errors::{ProgErr, Which};
pub use kind::StatementKind;
pub use laws::{one_list_of_tokens, refused_for_good, tokens_in_place, tokens_or_refusal};
pub use lexer::{MOST_TEXT, lex};
pub use operator::{Infix, Lead, level, next_step};
pub use refusal::Refusal;
pub use sign::Sign;
pub use token::{Token, TokenKind, Tokens};
pub use tree::{
    AssignOp, BinaryOp, Bind, BindBarrier, BindEach, Declarator, Expression, ForStart, Function,
    Initial, Item, Name, Params, Part, Place, Returns, Sharing, Statement, StepOp, Tree, UnaryOp,
    Variable,
};
pub use word::Word;
