//! The lines of a home's locks, each with its values and the version that it has.

ghost use Rattle.std.specs.Prelude.{◌≡◌, length};
ghost use Rattle.dsm_lines.specs.Places.{lines};
ghost use Rattle.dsm_lines.specs.LinePages.{pages_pieces};

use crate::list::LineList;
use crate::pages::LinePages;
use crate::place::Span;
use crate::table::BindTable;
use dsm_base::{Lock, MemFault, Object};
use sqlite_items::Items;
use std::alloc::Global;
use std::rc::Rc;

/// Lines with their values and, as a stamp, the version with which each was last applied. Contracts
/// see the pieces, the stamps by line and the values by cell: `image_pieces`, `image_stamps` and
/// `image_values`.
#[derive(Debug, Drop)]
pub struct LineImage {
    pages: LinePages,
    stamps: Items<u32>,
    ghost kept: { length stamps ≡ lines (pages_pieces pages) },
}

impl LineImage {
    ghost use Rattle.std.specs.Prelude.{◌++◌, ◌<◌, pos, nat_lt, map, IfOk, OnOk};
    ghost use Rattle.dsm_base.specs.Family.{update};
    ghost use Rattle.dsm_lines.specs.Places.{cells_in, lines_of_span};
    ghost use Rattle.dsm_lines.specs.Copies.{lines_among, newer_lines, laid, overlaid, stamped, AreNumbered};
    ghost use Rattle.dsm_lines.specs.LineImages.{image_pieces, image_stamps, image_values};

    /// All cells are 0, and each line has the stamp 0.
    pub fn new(alloc: Global, table: Rc<BindTable>) -> Result<LineImage, MemFault>
        ensures pieces { IfOk result (λ image. image_pieces image ≡ table.value) }
        ensures stamps { IfOk result (λ image. image_stamps image ≡ (λ line. 0)) }
        ensures zeros { IfOk result (λ image. image_values image ≡ (λ cell. pos 0)) }
    {
        let stamps = Items::from_vec(vec![in alloc; 0; table.lines() as usize]?);
        let pages = LinePages::new(alloc, table)?;
        Ok(LineImage { pages, stamps })
    }

    /// Lays the lines of a version over the image; each has that version as its stamp then.
    pub fn apply(&mut self, version: u32, lines: &LineList)
        requires { AreNumbered (image_pieces self.old) lines.now }
        ensures stamps { image_stamps self.new ≡ stamped (image_stamps self.old) version lines.now }
        ensures values { image_values self.new ≡ overlaid (image_pieces self.old)
            (image_values self.old) lines.now }
        ensures pieces { image_pieces self.new ≡ image_pieces self.old }
    {
        for line in lines.as_slice() {
            self.set(line.number, version, line.values.as_slice());
        }
    }

    /// The same with one line.
    pub fn set(&mut self, line: u32, version: u32, values: &[i64])
        requires { line < lines (image_pieces self.old) }
        ensures stamps { image_stamps self.new ≡ update (image_stamps self.old) line version }
        ensures values { image_values self.new ≡ laid (image_values self.old)
            (cells_in (image_pieces self.old) line) values.now }
        ensures pieces { image_pieces self.new ≡ image_pieces self.old }
    {
        self.stamps.set(line as usize, version);
        self.pages.lay(line, values);
    }

    /// Adds the lines of a span with a stamp over `have` to a list.
    fn push_newer(&self, span: Span, have: u32, list: &mut LineList) -> Result<(), MemFault>
        ensures { OnOk result (list.new ≡ list.old ++ lines_among (image_pieces self.now)
            (λ line. nat_lt «have» (image_stamps self.now line)) (image_values self.now)
            (lines_of_span span)) }
    {
        let end = self
            .stamps
            .len()
            .min(span.first as usize + span.count as usize) as u32;
        for line in span.first..end {
            let stamp = self.stamp(line);
            if stamp > have {
                list.push(self.pages.line(line))?;
            }
        }
        Ok(())
    }

    /// The lines of a lock that were last applied with a version over `have`, with their values.
    pub fn newer(&self, alloc: Global, lock: Lock, have: u32) -> Result<LineList, MemFault>
        ensures { IfOk result (λ list. list ≡ newer_lines (image_pieces self.now)
            (image_stamps self.now) (image_values self.now) lock «have») }
    {
        let mut list = LineList::new(alloc);
        for span in self.pages.spans_of(Object::Lock(lock)) {
            self.push_newer(*span, have, &mut list)?;
        }
        Ok(list)
    }

    /// The version with which a line was last applied, or 0.
    pub fn stamp(&self, line: u32) -> u32
        ensures { result ≡ image_stamps self.now line }
    {
        let stamps = self.stamps.as_slice();
        let at = line as usize;
        if at < stamps.len() { stamps[at] } else { 0 }
    }

    /// The values of a line's cells; none where there is no such line.
    pub fn values(&self, line: u32) -> &[i64]
        ensures { result.now ≡ map (image_values self.now) (cells_in (image_pieces self.now) line) }
    {
        self.pages.values(line)
    }
}
