//! How a program is set up: the processors, the locks, the barriers, the shared cells, and what binds them.

ghost use Rattle.std.specs.Prelude.{IsTrue};
ghost use Rattle.dsm_base.specs.Setups.{is_setup};

use crate::names::{Bar, Cell, Lock};
use sqlite_items::Items;

/// What a piece of the shared cells is bound to.
#[derive(Clone, Copy, Debug, PartialEq, Eq)]
pub enum Object {
    Lock(Lock),
    Bar(Bar),
}

/// Some neighbouring cells that are bound together. For a lock the last three are 0.
#[derive(Clone, Copy, Debug, PartialEq, Eq)]
pub struct Piece {
    pub object: Object,
    pub first: Cell,
    pub count: u32,
    /// The processor that may store to the piece in the epochs of its phase.
    pub owner: u32,
    pub phase: u32,
    pub period: u32,
}

/// The pieces in the order of the text.
pub type Bindings = Items<Piece>;

/// The numbers of processors (2 to 16), locks (at most 256), barriers (at most 64) and shared cells (at
/// most 65,536), and the pieces. A piece is made of cells of the setup and bound to a lock or barrier
/// of it, no cell is in two pieces, and a barrier's piece has a period over its phase.
#[derive(Debug, Drop)]
pub struct Setup {
    pub procs: u8,
    pub locks: u16,
    pub bars: u8,
    pub cells: u32,
    pub bindings: Bindings,
    pub ghost kept: { IsTrue (is_setup procs locks bars cells bindings) },
}
