//! Instructions of threads.

use dsm_base::{Bar, Mode};
use dsm_syntax::{BinaryOp, StepOp, UnaryOp};

/// Neighbouring cells, or neighbouring locks, by the first one's number.
#[derive(Clone, Copy, Debug)]
pub struct Array {
    pub first: u32,
    pub size: u32,
}

/// A cell or lock by its number, or the member of an array whose index is among the operands.
#[derive(Clone, Copy, Debug)]
pub enum Target {
    One(u32),
    Member(Array),
}

/// What a value is loaded for: itself; a store that follows, as in `p += e` and `++p`; such a store and
/// itself, as in `p++`.
#[derive(Clone, Copy, Debug)]
pub enum Use {
    Value,
    Change,
    StepBehind,
}

/// What a shared cell is bound to, and with it the line that a store to it marks.
#[derive(Clone, Copy, Debug)]
pub enum Bound {
    ToLock,
    ToBarrier,
}

/// An instruction. Operands are a stack; "on top" is the last one. A last `u32` is the line of the
/// source at which the instruction can stop.
#[derive(Clone, Copy, Debug)]
pub enum Instr {
    /// Puts a value on top.
    Push(i64),
    /// Takes the value on top.
    Discard,
    LoadSlot(u8, Use),
    /// Stores the value on top, which stays there, in a parameter or variable.
    StoreSlot(u8),
    /// Stops where the index on top isn't one of the array's; it stays there.
    TestIndex(Array, u32),
    LoadOwn(Target, Use, u32),
    /// Stores the value on top in a private cell, which marks nothing. An index lies below the value; the
    /// value stays.
    StoreOwn(Target, u32),
    Load(Target, Use, u32),
    /// Stores the value on top in a shared cell, which marks its line. An index lies below the value; the
    /// value stays.
    Store(Target, Bound, u32),
    Unary(UnaryOp, u32),
    StepBy(StepOp, u32),
    Binary(BinaryOp, u32),
    /// 1 in place of what isn't 0.
    ToTruth,
    /// Leaves out so many instructions.
    GoOn(u32),
    /// Takes the value on top, and leaves out so many instructions where it is 0.
    SkipIfZero(u32),
    /// Goes back by so many places.
    GoBack(u32),
    /// Calls the function of a number, with its arguments on top.
    Enter(u16, u32),
    /// Leaves the function with the value on top.
    Leave,
    /// Asks for a lock; the take of the same lock comes right behind it.
    Ask(Target, Mode, u32),
    Take(Target, Mode, u32),
    Give(Target, u32),
    /// Comes to a barrier; its crossing comes right behind it.
    Arrive(Bar),
    Cross(Bar),
    /// Prints the parts of a number, with their values on top.
    Print(u32),
}
