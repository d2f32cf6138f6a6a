//! What a thread has still to do.

use dsm_base::{Bar, Lock, Mode};
use dsm_check::{Array, Expression, Part, Statement, Variable};
use dsm_syntax::{BinaryOp, Sharing, StepOp, UnaryOp};

/// What is loaded and stored to; of an array's member the index is among the operands. A last `u32` is
/// the line of the name.
#[derive(Clone, Copy)]
pub enum Place {
    Slot(u8),
    Cell(Sharing, u32, u32),
    Member(Sharing, Array, u32),
}

/// A lock, with the line of its name; of an array's member the index is among the operands.
#[derive(Clone, Copy)]
pub enum LockAt {
    Single(Lock, u32),
    Member(Array, u32),
}

/// What a value is loaded for.
#[derive(Clone, Copy)]
pub enum Use {
    /// For itself.
    Value,
    /// For a store that follows, as in `p += e` and `++p`.
    Change,
    /// For such a store and for itself, as in `p++`.
    StepBehind,
}

/// A loop; without a test it goes round for ever.
#[derive(Clone, Copy)]
pub struct Loop<'a> {
    pub test: Option<&'a Expression>,
    pub step: Option<&'a Expression>,
    pub body: &'a Statement,
}

/// How far a round of a loop has come.
#[derive(Clone, Copy)]
pub enum LoopStage {
    /// The test comes next.
    Round,
    /// The test's value is on top.
    Decide,
    /// The body is done.
    ThirdPart,
    /// The third part is done.
    JumpBack,
}

/// One thing to be done. The lines are those of operators and names.
#[derive(Clone, Copy)]
pub enum Item<'a> {
    Evaluate(&'a Expression),
    EvaluateAll(&'a [Expression]),
    TestIndex(Array, u32),
    Load(Place, Use),
    /// Stores the value on top, which stays there.
    Store(Place),
    Unary(UnaryOp, u32),
    StepBy(StepOp, u32),
    Binary(BinaryOp, u32),
    AndThen(&'a Expression),
    OrElse(&'a Expression),
    ToTruth,
    Choose(&'a Expression, &'a Expression),
    /// Enters the function of a number, with its arguments on top.
    Enter(u16, u32),
    Discard,
    Execute(&'a Statement),
    Run(&'a [Statement]),
    Declare(&'a [Variable]),
    Branch(&'a Statement, Option<&'a Statement>),
    /// What is left of a round of the loop.
    Go(LoopStage, Loop<'a>),
    /// Leaves the function, with its value on top.
    Leave,
    Ask(LockAt, Mode),
    Take(LockAt, Mode),
    Give(LockAt),
    Cross(Bar),
    /// Evaluates the values of a print.
    Gather(&'a [Part]),
    /// Prints, with the values on top.
    Print(&'a [Part]),
}
