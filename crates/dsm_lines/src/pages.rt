//! The values of bound cells, by line.

ghost use Rattle.std.specs.Prelude.{ℕ};
ghost use Rattle.dsm_lines.specs.Pages.{ArePages};

use crate::list::{Line, LineList, LineValues};
use crate::place::{Place, Span};
use crate::table::BindTable;
use dsm_base::{Cell, MemFault, Object};
use sqlite_items::Items;
use std::alloc::Global;
use std::rc::Rc;

/// The values of bound cells. Each line has eight places, and 64 lines are a page; all pages are
/// there from the start. A cell in no piece has no place, and is 0.
#[derive(Debug, Drop)]
pub struct LinePages {
    table: Rc<BindTable>,
    values: Items<i64>,
    ghost kept: { ArePages table.value values },
}

impl LinePages {
    ghost use Rattle.std.specs.Prelude.{◌≡◌, ◌<◌, pos, length, map, slice_index, IfOk};
    ghost use Rattle.dsm_base.specs.Family.{update};
    ghost use Rattle.dsm_lines.specs.Places.{lines, place_of, cells_in, spans_from};
    ghost use Rattle.dsm_lines.specs.Copies.{line_with, laid, overlaid};
    ghost use Rattle.dsm_lines.specs.LinePages.{pages_pieces, pages_memory};

    /// All cells are 0.
    pub fn new(alloc: Global, table: Rc<BindTable>) -> Result<LinePages, MemFault>
        ensures pieces { IfOk result (λ pages. pages_pieces pages ≡ table.value) }
        ensures zeros { IfOk result (λ pages. pages_memory pages ≡ (λ cell. pos 0)) }
    {
        let pages = (table.lines() as usize + 63) / 64;
        let values = Items::from_vec(vec![in alloc; 0; 512 * pages]?);
        Ok(LinePages { table, values })
    }

    /// How many lines there are.
    pub fn lines(&self) -> u32
        ensures { result ≡ lines (pages_pieces self.now) }
    {
        self.table.lines()
    }

    /// The lines of a lock or barrier, a span a piece.
    pub fn spans_of(&self, object: Object) -> &[Span]
        ensures { result.now ≡ spans_from 0 (pages_pieces self.now) object }
    {
        self.table.spans_of(object)
    }

    /// The place of a cell, where it is in a piece.
    pub fn place_of(&self, cell: Cell) -> Option<Place>
        ensures { result ≡ place_of (pages_pieces self.now) cell.0 }
    {
        self.table.place_of(cell)
    }

    /// The value of a cell.
    pub fn load(&self, cell: Cell) -> i64
        ensures { result ≡ pages_memory self.now cell.0 }
    {
        match self.table.place_of(cell) {
            Some(place) => self.values.as_slice()[8 * place.line as usize + place.at as usize],
            None => 0,
        }
    }

    /// Sets the value of one of a line's cells.
    pub fn set(&mut self, line: u32, at: usize, value: i64)
        requires { at < length (cells_in (pages_pieces self.old) line) }
        ensures memory { pages_memory self.new ≡ update (pages_memory self.old)
            (slice_index (cells_in (pages_pieces self.old) line) at) value }
        ensures pieces { pages_pieces self.new ≡ pages_pieces self.old }
    {
        self.values.set(8 * line as usize + at, value);
    }

    /// The values of a line's cells; none where there is no such line.
    pub fn values(&self, line: u32) -> &[i64]
        ensures { result.now ≡ map (pages_memory self.now)
            (cells_in (pages_pieces self.now) line) }
    {
        let width = self.table.cells_in(line);
        if width == 0 {
            return &[];
        }
        let first = 8 * line as usize;
        &self.values.as_slice()[first..first + width]
    }

    /// A line with its values.
    pub fn line(&self, number: u32) -> Line
        ensures { result ≡ line_with (pages_pieces self.now) (pages_memory self.now) number }
    {
        Line {
            number,
            values: LineValues::from_slice(self.values(number)),
        }
    }

    /// Lays values over the cells of a line. Those past its last cell are left out.
    pub fn lay(&mut self, line: u32, values: &[i64])
        ensures memory { pages_memory self.new ≡ laid (pages_memory self.old)
            (cells_in (pages_pieces self.old) line) values.now }
        ensures pieces { pages_pieces self.new ≡ pages_pieces self.old }
    {
        for at in 0..self.table.cells_in(line).min(values.len()) {
            self.set(line, at, values[at]);
        }
    }

    /// Lays lines over the values.
    pub fn overlay(&mut self, lines: &LineList)
        ensures memory { pages_memory self.new ≡ overlaid (pages_pieces self.old)
            (pages_memory self.old) lines.now }
        ensures pieces { pages_pieces self.new ≡ pages_pieces self.old }
    {
        for line in lines.as_slice() {
            self.lay(line.number, line.values.as_slice());
        }
    }
}
