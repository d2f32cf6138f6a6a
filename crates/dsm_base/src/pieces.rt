//! The piece of each cell.

ghost use Rattle.std.specs.Prelude.{◌≡◌, ◌<◌, ℕ, None, length, slice_index_or, IfOk, if◌then◌else◌, Some};
ghost use Rattle.dsm_base.specs.Access.{has_cell};
ghost use Rattle.dsm_base.specs.declared.setup.Setup.{Setup};
ghost use Rattle.dsm_base.specs.Pieces.{HasPieces};

use crate::errors::MemFault;
use crate::names::Cell;
use crate::setup::{Piece, Setup};
use sqlite_items::Items;
use std::alloc::Global;

/// The piece of each cell; a cell of none is bound to nothing.
pub type Pieces = Items<Option<Piece>>;

/// Notes the piece of each of its cells.
fn note_piece(pieces: &mut Pieces, piece: Piece)
    ensures length { length pieces.new ≡ length pieces.old }
    ensures noted { (cell : ℕ) → cell < length pieces.old →
        slice_index_or pieces.new cell None ≡
        (if has_cell cell piece then Some piece else slice_index_or pieces.old cell None) }
{
    let first = piece.first.index();
    let end = pieces.len().min(first + piece.count as usize);
    for cell in first..end {
        pieces.set(cell, Some(piece));
    }
}

/// The piece of each cell: the first in the order of the text that has it. `MemFault` comes out of
/// memory.
pub fn pieces_of(alloc: Global, setup: &Setup) -> Result<Pieces, MemFault>
    ensures { IfOk result (λ pieces. HasPieces setup.now pieces) }
{
    let mut pieces = Items::from_vec(vec![in alloc; None; setup.cells as usize]?);
    let bindings = setup.bindings.as_slice();
    for at in (0..bindings.len()).rev() {
        note_piece(&mut pieces, bindings[at]);
    }
    Ok(pieces)
}

/// The piece of a cell; none past the last cell.
#[tactic(auto, using(crate::proofs::Families::flatten_item))]
pub fn piece_at(pieces: &Pieces, cell: Cell) -> Option<Piece>
    ensures { result ≡ slice_index_or pieces.now cell.0 None }
{
    pieces.get(cell.index()).copied().flatten()
}
