//! Where cells and lines stand.

use dsm_base::Piece;
use sqlite_items::Items;

/// Where a cell is bound: its piece, its line, and its place in the line from 0.
#[derive(Clone, Copy, Debug, PartialEq, Eq)]
pub struct Place {
    pub piece: Piece,
    pub line: u32,
    pub at: u8,
}

/// The place of each cell that is in a piece.
pub type Places = Items<Option<Place>>;

/// Neighbouring lines: the first, and how many.
#[derive(Clone, Copy, Debug, PartialEq, Eq)]
pub struct Span {
    pub first: u32,
    pub count: u32,
}

/// The lines of an object, a span a piece.
pub type Spans = Items<Span>;
