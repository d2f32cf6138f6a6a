//! A processor's own copy of the bound cells.

ghost use Rattle.std.specs.Prelude.{◌≡◌, ℕ};
ghost use Rattle.dsm_lines.specs.Places.{lines};
ghost use Rattle.dsm_lines.specs.LinePages.{pages_pieces};

use crate::list::LineList;
use crate::marks::DirtyBits;
use crate::pages::LinePages;
use crate::place::Span;
use crate::table::BindTable;
use dsm_base::{Cell, MemFault, Object};
use std::alloc::Global;
use std::rc::Rc;

/// A processor's own copy of the bound cells, with a mark on each line that was stored to since the
/// lines of its object were last taken. A cell in no piece is 0. Contracts see the pieces, the
/// values by cell and the marks by line: `copy_pieces`, `copy_memory` and `copy_marks`.
#[derive(Debug, Drop)]
pub struct OwnCopy {
    pages: LinePages,
    dirty: DirtyBits,
    ghost kept: { dirty.lines ≡ lines (pages_pieces pages) },
}

impl OwnCopy {
    ghost use Rattle.std.specs.Prelude.{◌++◌, pos, true, false, is_some, IfOk, OnOk, OnErr};
    ghost use Rattle.dsm_base.specs.Access.{piece_of};
    ghost use Rattle.dsm_base.specs.Family.{update};
    ghost use Rattle.dsm_lines.specs.Places.{place_of, lines_of_span};
    ghost use Rattle.dsm_lines.specs.Copies.{lines_among, lines_where, overlaid, with_mark, without_lines};
    ghost use Rattle.dsm_lines.specs.Marks.{marks_in};
    ghost use Rattle.dsm_lines.specs.OwnCopies.{copy_pieces, copy_memory, copy_marks};

    /// All cells are 0, and no line is marked.
    pub fn new(alloc: Global, table: Rc<BindTable>) -> Result<OwnCopy, MemFault>
        ensures pieces { IfOk result (λ copy. copy_pieces copy ≡ table.value) }
        ensures zeros { IfOk result (λ copy. copy_memory copy ≡ (λ cell. pos 0)) }
        ensures unmarked { IfOk result (λ copy. copy_marks copy ≡ (λ line. false)) }
    {
        let dirty = DirtyBits::new(alloc, table.lines())?;
        let pages = LinePages::new(alloc, table)?;
        Ok(OwnCopy { pages, dirty })
    }

    /// The value of a cell; 0 where the cell is in no piece.
    pub fn load(&self, cell: Cell) -> i64
        ensures { result ≡ copy_memory self.now cell.0 }
    {
        self.pages.load(cell)
    }

    /// Stores a value at a bound cell and marks the cell's line, also where the value is the same.
    pub fn store(&mut self, cell: Cell, value: i64)
        requires { is_some (piece_of (copy_pieces self.old) cell.0) ≡ true }
        ensures memory { copy_memory self.new ≡ update (copy_memory self.old) cell.0 value }
        ensures marks { copy_marks self.new ≡ with_mark (copy_marks self.old)
            (place_of (copy_pieces self.old) cell.0) }
        ensures pieces { copy_pieces self.new ≡ copy_pieces self.old }
    {
        if let Some(place) = self.pages.place_of(cell) {
            self.pages.set(place.line, place.at as usize, value);
            self.dirty.mark(place.line);
        }
    }

    /// Lays lines over the copy. It changes no mark. What a line has past its cells is left out,
    /// and so is a line of a number that isn't there.
    pub fn apply(&mut self, lines: &LineList)
        ensures memory { copy_memory self.new ≡ overlaid (copy_pieces self.old)
            (copy_memory self.old) lines.now }
        ensures marks { copy_marks self.new ≡ copy_marks self.old }
        ensures pieces { copy_pieces self.new ≡ copy_pieces self.old }
    {
        self.pages.overlay(lines);
    }

    /// Adds the marked lines of a span to a list. It looks at pages that have marks alone.
    fn push_marked(&self, span: Span, list: &mut LineList) -> Result<(), MemFault>
        ensures { OnOk result (list.new ≡ list.old ++ lines_among (copy_pieces self.now)
            (copy_marks self.now) (copy_memory self.now) (lines_of_span span)) }
    {
        let end = span.first as usize + span.count as usize;
        let mut from = span.first;
        while let Some(line) = self.dirty.first_from(from) {
            if line as usize >= end {
                return Ok(());
            }
            list.push(self.pages.line(line))?;
            from = line + 1;
        }
        Ok(())
    }

    /// The marked lines of an object with their present values.
    fn dirty_lines(&self, alloc: Global, object: Object) -> Result<LineList, MemFault>
        ensures { IfOk result (λ list. list ≡ lines_where (copy_pieces self.now)
            (copy_marks self.now) (copy_memory self.now) object) }
    {
        let mut list = LineList::new(alloc);
        for span in self.pages.spans_of(object) {
            self.push_marked(*span, &mut list)?;
        }
        Ok(list)
    }

    /// The marked lines of an object with their present values; they are marked no longer. Out of
    /// memory leaves the copy as it was.
    pub fn take_dirty(&mut self, alloc: Global, object: Object) -> Result<LineList, MemFault>
        ensures lines { IfOk result (λ list. list ≡ lines_where (copy_pieces self.old)
            (copy_marks self.old) (copy_memory self.old) object) }
        ensures marks { OnOk result (copy_marks self.new ≡ without_lines (copy_pieces self.old)
            (copy_marks self.old) object) }
        ensures kept { OnErr result (copy_marks self.new ≡ copy_marks self.old) }
        ensures memory { copy_memory self.new ≡ copy_memory self.old }
        ensures pieces { copy_pieces self.new ≡ copy_pieces self.old }
    {
        let list = self.dirty_lines(alloc, object)?;
        self.dirty.unmark_all(self.pages.spans_of(object));
        Ok(list)
    }

    /// Whether a line is marked.
    pub fn is_marked(&self, line: u32) -> bool
        ensures { result ≡ copy_marks self.now line }
    {
        self.dirty.is_marked(line)
    }

    /// The marks.
    pub fn marks(&self) -> &DirtyBits
        ensures marks { marks_in result.now ≡ copy_marks self.now }
        ensures lines { result.now.lines ≡ lines (copy_pieces self.now) }
    {
        &self.dirty
    }
}
