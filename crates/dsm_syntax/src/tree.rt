//! The syntax tree, with a variant for each alternative of the grammar. Each `line` is a line of
//! the text, counted from 1.

ghost use Rattle.std.specs.Prelude.{IsTrue, ◌≤◌};
ghost use Rattle.dsm_syntax.specs.Heights.{height_program};
ghost use Rattle.dsm_syntax.specs.Sound.{is_sound_program};
ghost use Rattle.dsm_syntax.specs.Views.{view_items};

use dsm_base::Text;

/// A name, where it stands.
#[derive(Debug, Drop)]
pub struct Name {
    pub text: Text,
    pub line: u32,
}

/// An operator before its operand.
#[derive(Clone, Copy, Debug, PartialEq, Eq)]
pub enum UnaryOp {
    /// `-`
    Negate,
    /// `+`
    Plus,
    /// `!`
    Not,
    /// `~`
    Complement,
}

/// An operator that changes a place by one.
#[derive(Clone, Copy, Debug, PartialEq, Eq)]
pub enum StepOp {
    /// `++`
    Increment,
    /// `--`
    Decrement,
}

/// An operator between its operands. Those in one row bind alike; each row binds tighter than the
/// next.
#[derive(Clone, Copy, Debug, PartialEq, Eq)]
pub enum BinaryOp {
    Times,
    Divide,
    Remainder,

    Plus,
    Minus,

    ShiftLeft,
    ShiftRight,

    Less,
    LessEqual,
    Greater,
    GreaterEqual,

    Equal,
    NotEqual,

    BitAnd,

    BitXor,

    BitOr,

    And,

    Or,
}

/// An operator that assigns.
#[derive(Clone, Copy, Debug, PartialEq, Eq)]
pub enum AssignOp {
    /// `=`
    Set,
    /// `+=`
    Plus,
    /// `-=`
    Minus,
    /// `*=`
    Times,
    /// `/=`
    Divide,
    /// `%=`
    Remainder,
    /// `&=`
    BitAnd,
    /// `|=`
    BitOr,
    /// `^=`
    BitXor,
    /// `<<=`
    ShiftLeft,
    /// `>>=`
    ShiftRight,
}

/// What can be assigned to, and what a lock statement names.
#[cycle(operands)]
#[derive(Drop)]
pub enum Place {
    Single(Name),
    /// A member of an array.
    Element(Name, Box<Expression>),
}

/// An expression. The lines are those of operators.
#[cycle(operands)]
#[derive(Drop)]
pub enum Expression {
    Number(i64),
    Place(Place),
    /// In parentheses.
    Paren(Box<Expression>),
    Call(Name, Vec<Expression>),
    Unary(UnaryOp, u32, Box<Expression>),
    /// A step before the place.
    Prefix(StepOp, u32, Place),
    /// A step behind the place.
    Postfix(Place, StepOp, u32),
    Binary(Box<Expression>, BinaryOp, u32, Box<Expression>),
    /// `test ? then : other`
    Choice(Box<Expression>, u32, Box<Expression>, Box<Expression>),
    Assign(Place, AssignOp, u32, Box<Expression>),
}

/// The value that a variable begins with, with the line of its `=`.
#[derive(Drop)]
pub struct Initial {
    pub line: u32,
    pub value: Expression,
}

/// A variable of a function, where it is declared.
#[derive(Drop)]
pub struct Variable {
    pub name: Name,
    pub initial: Option<Initial>,
}

/// A part of a print.
#[derive(Drop)]
pub enum Part {
    Text(Text),
    Value(Expression),
}

/// What stands first in the head of a `for`.
#[derive(Drop)]
pub enum ForStart {
    Nothing,
    Variables(Vec<Variable>),
    Expression(Expression),
}

/// A statement.
#[derive(Drop)]
pub enum Statement {
    Block(Vec<Statement>),
    /// `;` alone.
    Empty,
    Variables(Vec<Variable>),
    Expression(Expression),
    If(Expression, Box<Statement>),
    IfElse(Expression, Box<Statement>, Box<Statement>),
    While(Expression, Box<Statement>),
    For(ForStart, Option<Expression>, Option<Expression>, Box<Statement>),
    Break {
        line: u32,
    },
    Continue {
        line: u32,
    },
    Return {
        line: u32,
        value: Option<Expression>,
    },
    Acquire(Place),
    AcquireShared(Place),
    Release(Place),
    Barrier(Name),
    Print(Vec<Part>),
}

/// A name that is declared at file scope, with its size where it is an array.
#[derive(Debug, Drop)]
pub struct Declarator {
    pub name: Name,
    pub size: Option<i64>,
}

/// Whether a function has a value.
#[derive(Clone, Copy, Debug, PartialEq, Eq)]
pub enum Returns {
    Int,
    Void,
}

/// The parameters of a function.
#[derive(Debug, Drop)]
pub enum Params {
    /// Nothing between the parentheses.
    Nothing,
    /// The word `void`.
    Void,
    Names(Vec<Name>),
}

/// A function of a program.
#[derive(Drop)]
pub struct Function {
    pub returns: Returns,
    pub name: Name,
    pub params: Params,
    pub body: Vec<Statement>,
}

/// Whether data is one memory for all processors, or each has its own.
#[derive(Clone, Copy, Debug, PartialEq, Eq)]
pub enum Sharing {
    Shared,
    Private,
}

/// `bind(lock, data, first, count);`
#[derive(Debug, Drop)]
pub struct Bind {
    pub line: u32,
    pub lock: Name,
    /// Which lock of an array.
    pub index: Option<i64>,
    pub data: Name,
    pub first: i64,
    pub count: i64,
}

/// `bindeach(locks, data, count);`
#[derive(Debug, Drop)]
pub struct BindEach {
    pub line: u32,
    pub locks: Name,
    pub data: Name,
    pub count: i64,
}

/// `bindb(barrier, data, first, count, owner, phase, period);`
#[derive(Debug, Drop)]
pub struct BindBarrier {
    pub line: u32,
    pub barrier: Name,
    pub data: Name,
    pub first: i64,
    pub count: i64,
    pub owner: i64,
    pub phase: i64,
    pub period: i64,
}

/// An item of a program.
#[derive(Drop)]
pub enum Item {
    Data(Sharing, Vec<Declarator>),
    Locks(Vec<Declarator>),
    Barriers(Vec<Name>),
    Bind(Bind),
    BindEach(BindEach),
    BindBarrier(BindBarrier),
    Function(Function),
}

/// The tree of a program; `view_tree` is the list of its items. No number is below 0, no string
/// holds a byte that it may not, and no function is higher than 64 nodes.
#[derive(Drop)]
pub struct Tree {
    items: Vec<Item>,
    ghost sound: { IsTrue (is_sound_program (view_items items.items)) },
    ghost low: { height_program (view_items items.items) ≤ 64 },
}

impl Tree {
    ghost use Rattle.std.specs.Prelude.{◌≡◌, ◌≤◌, IsTrue};
    ghost use Rattle.dsm_syntax.specs.Heights.{height_program};
    ghost use Rattle.dsm_syntax.specs.Sound.{is_sound_program};
    ghost use Rattle.dsm_syntax.specs.Views.{view_items};
    ghost use Rattle.dsm_syntax.specs.Programs.{view_tree};

    /// The tree of these items.
    pub fn new(items: Vec<Item>) -> Tree
        requires sound { IsTrue (is_sound_program (view_items items.items)) }
        requires low { height_program (view_items items.items) ≤ 64 }
        ensures { view_tree result ≡ view_items items.items }
    {
        Tree { items }
    }

    /// The items in order.
    pub fn items(&self) -> &[Item]
        ensures value { view_items result.now ≡ view_tree self.now }
        ensures sound { IsTrue (is_sound_program (view_tree self.now)) }
        ensures low { height_program (view_tree self.now) ≤ 64 }
    {
        self.items.as_slice()
    }
}
