//! Programs with every name resolved. Each `line` is a line of the text, counted from 1.

use dsm_base::{Bar, Lock, Mode, Text};
use dsm_syntax::{AssignOp, BinaryOp, Sharing, StepOp, UnaryOp};
use sqlite_items::Items;

/// Neighbouring cells, or neighbouring locks, by the first one's number.
#[derive(Clone, Copy, Debug, PartialEq, Eq)]
pub struct Array {
    pub first: u32,
    pub size: u32,
}

/// What is loaded and stored to. The lines are those of names.
#[cycle(expression)]
#[derive(Drop)]
pub enum Location {
    /// A parameter or variable of the function, by its slot.
    Variable(u8),
    /// A cell by its number, among the shared cells or among the processor's own.
    Cell(Sharing, u32, u32),
    /// A member of an array.
    Element(Sharing, Array, Box<Expression>, u32),
}

/// An expression. The lines are those of operators, and in a call that of the name.
#[cycle(expression)]
#[derive(Drop)]
pub enum Expression {
    Number(i64),
    Load(Location),
    /// A call of a function by its number.
    Call(u16, Vec<Expression>, u32),
    Unary(UnaryOp, u32, Box<Expression>),
    /// A step before the location.
    Prefix(StepOp, u32, Location),
    /// A step behind the location.
    Postfix(Location, StepOp, u32),
    Binary(Box<Expression>, BinaryOp, u32, Box<Expression>),
    Choice(Box<Expression>, Box<Expression>, Box<Expression>),
    Assign(Location, AssignOp, u32, Box<Expression>),
}

/// A variable where it is declared, by its slot.
#[derive(Drop)]
pub struct Variable {
    pub slot: u8,
    pub initial: Option<Expression>,
}

/// A part of a print.
#[derive(Drop)]
pub enum Part {
    Text(Text),
    Value(Expression),
}

/// What stands first in the head of a `for`.
#[derive(Drop)]
pub enum ForStart {
    Nothing,
    Variables(Vec<Variable>),
    Expression(Expression),
}

/// A lock that a statement names, with the line of the name.
#[derive(Drop)]
pub enum LockPlace {
    Single(Lock, u32),
    Element(Array, Expression, u32),
}

/// A statement.
#[derive(Drop)]
pub enum Statement {
    Block(Vec<Statement>),
    Empty,
    Variables(Vec<Variable>),
    Expression(Expression),
    If(Expression, Box<Statement>),
    IfElse(Expression, Box<Statement>, Box<Statement>),
    While(Expression, Box<Statement>),
    For(ForStart, Option<Expression>, Option<Expression>, Box<Statement>),
    Break,
    Continue,
    Return(Option<Expression>),
    Acquire(LockPlace, Mode),
    Release(LockPlace),
    Barrier(Bar),
    Print(Vec<Part>),
}

/// A function: its name, how many parameters it has, how many parameters and variables, the name of
/// each of these by its slot, and its body.
#[derive(Drop)]
pub struct Function {
    pub name: Text,
    pub params: u8,
    pub slots: u8,
    pub names: Items<Text>,
    pub body: Vec<Statement>,
}
