//! Why a program is refused.

use dsm_base::{MemFault, Text};
use std::alloc::{AllocError, AllocFailed};

/// What there may only be so much of.
#[derive(Clone, Copy, Debug, PartialEq, Eq)]
pub enum Which {
    /// Bytes of the program.
    Text,
    /// Bytes of one name.
    Name,
    /// Tokens of the program.
    Tokens,
    /// Height of the tree.
    Nesting,
    /// Functions of the program.
    Functions,
    /// Parameters of one function.
    Params,
    /// Parameters and variables of one function.
    Slots,
    /// Parts of one print.
    PrintParts,
    /// Bytes of the strings of one print.
    PrintText,
    /// Cells that all processors share.
    SharedCells,
    /// Cells that each processor has for itself.
    PrivateCells,
    /// Locks of the program.
    Locks,
    /// Barriers of the program.
    Barriers,
}

/// Why a program is refused. Lines are counted from 1.
#[derive(Debug, Drop)]
pub enum ProgErr {
    /// A byte that no token and no comment can have there.
    BadByte {
        line: u32,
    },
    /// A number over 9223372036854775807.
    LiteralTooLarge {
        line: u32,
    },
    /// More than a limit allows; the count is what there is.
    Limit {
        which: Which,
        count: u32,
    },
    /// A token at which no program goes on.
    Unexpected {
        line: u32,
    },
    /// A name that isn't declared.
    Unknown {
        name: Text,
        line: u32,
    },
    /// A name that is declared already.
    Twice {
        name: Text,
        line: u32,
    },
    /// A name that is used as what it isn't.
    WrongKind {
        name: Text,
        line: u32,
    },
    /// A call with another number of arguments than the function has parameters.
    ArgCount {
        name: Text,
        line: u32,
        given: u32,
        wanted: u32,
    },
    /// There is no function `main` as it has to be.
    NoMain,
    /// A binding outside of what it names.
    BindRange {
        line: u32,
    },
    /// A cell that two bindings name.
    BindOverlap {
        cell: u32,
        line: u32,
    },
    /// A binding's owner that is no processor.
    BindOwner {
        owner: u32,
        procs: u8,
    },
    /// A `break` or a `continue` outside a loop.
    OutsideLoop {
        line: u32,
    },
    /// What isn't built yet.
    NotBuilt {
        line: u32,
    },
    /// Out of memory.
    Memory,
}

impl From<AllocError> for ProgErr {
    ghost use Rattle.std.specs.Prelude.{◌≡◌};
    ghost use Rattle.dsm_syntax.specs.declared.errors.ProgErr.TheVariants.{Memory};

    ghost from_gives = { λ _ e. e ≡ Memory };

    fn from(_error: AllocError) -> ProgErr {
        ProgErr::Memory
    }
}

impl<T: Drop> From<AllocFailed<T>> for ProgErr {
    ghost use Rattle.std.specs.Prelude.{◌≡◌};
    ghost use Rattle.dsm_syntax.specs.declared.errors.ProgErr.TheVariants.{Memory};

    ghost from_gives = { λ _ e. e ≡ Memory };

    fn from(_error: AllocFailed<T>) -> ProgErr {
        ProgErr::Memory
    }
}

impl From<MemFault> for ProgErr {
    ghost use Rattle.std.specs.Prelude.{◌≡◌};
    ghost use Rattle.dsm_syntax.specs.declared.errors.ProgErr.TheVariants.{Memory};

    ghost from_gives = { λ _ e. e ≡ Memory };

    fn from(_error: MemFault) -> ProgErr {
        ProgErr::Memory
    }
}
