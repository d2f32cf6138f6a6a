//! Numbers with names, modes and faults.

ghost use Rattle.std.specs.Prelude.{◌≡◌};

/// A processor, numbered from 0.
#[derive(Clone, Copy, Debug, PartialEq, Eq, PartialOrd, Ord, Hash)]
pub struct Proc(pub u8);

impl Proc {
    /// Its number, to index by.
    pub fn index(self) -> usize
        ensures { result ≡ self.0 }
    {
        usize::from(self.0)
    }
}

/// A shared cell, numbered from 0 in the order of the text.
#[derive(Clone, Copy, Debug, PartialEq, Eq, PartialOrd, Ord, Hash)]
pub struct Cell(pub u32);

impl Cell {
    /// Its number, to index by.
    pub fn index(self) -> usize
        ensures { result ≡ self.0 }
    {
        self.0 as usize
    }
}

/// A lock, numbered from 0 in the order of the text.
#[derive(Clone, Copy, Debug, PartialEq, Eq, PartialOrd, Ord, Hash)]
pub struct Lock(pub u16);

impl Lock {
    /// Its number, to index by.
    pub fn index(self) -> usize
        ensures { result ≡ self.0 }
    {
        usize::from(self.0)
    }
}

/// A barrier, numbered from 0 in the order of the text.
#[derive(Clone, Copy, Debug, PartialEq, Eq, PartialOrd, Ord, Hash)]
pub struct Bar(pub u8);

impl Bar {
    /// Its number, to index by.
    pub fn index(self) -> usize
        ensures { result ≡ self.0 }
    {
        usize::from(self.0)
    }
}

/// How a lock is held: beside other shared holders, or alone.
#[derive(Clone, Copy, Debug, PartialEq, Eq, Hash)]
pub enum Mode {
    Shared,
    Excl,
}

/// Why a thread stops before its end.
#[derive(Clone, Copy, Debug, PartialEq, Eq, Hash)]
pub enum Fault {
    /// A result that doesn't fit 64 bits.
    Overflow,
    /// A divisor of 0.
    DivZero,
    /// A shift by less than 0 or more than 63.
    Shift,
    /// An index out of range.
    Index,
    /// A call deeper than the limit.
    Depth,
    /// An access of a shared cell that the rules don't allow.
    Unbound,
    /// An ask for a lock that the thread holds.
    Held,
    /// A give of a lock that the thread doesn't hold.
    NotHeld,
}
