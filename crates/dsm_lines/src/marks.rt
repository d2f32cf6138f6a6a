//! Which lines are marked.

ghost use Rattle.std.specs.Prelude.{ℕ};
ghost use Rattle.dsm_lines.specs.Marking.{IsMarking};

use crate::bits::{clear_bit, first_bit, first_of_word, has_bit, set_bit};
use crate::place::Span;
use dsm_base::MemFault;
use sqlite_items::Items;
use std::alloc::Global;

/// Numbers of lines, rising.
pub type LineNumbers = Items<u32>;

/// The marked ones of so many lines, which contracts see as the rising list `marked_lines`. A page
/// of 64 lines has a word with a bit a line, and 64 pages have a summary word with a bit a page
/// that is set where its word isn't 0.
#[derive(Debug, Drop)]
pub struct DirtyBits {
    lines: u32,
    words: Items<u64>,
    summary: Items<u64>,
    ghost kept: { IsMarking lines words summary },
}

impl DirtyBits {
    ghost use Rattle.std.specs.Prelude.{◌≡◌, ◌<◌, ◌≤◌, ◌+◌, ◌*◌, true, false, IfOk, OnSome, IfSome};
    ghost use Rattle.dsm_base.specs.Family.{update};
    ghost use Rattle.std.specs.List.{flat_map};
    ghost use Rattle.dsm_lines.specs.Bits.{IsFirst};
    ghost use Rattle.dsm_lines.specs.Copies.{without};
    ghost use Rattle.dsm_lines.specs.Places.{lines_of_span};
    ghost use Rattle.dsm_lines.specs.Marks.{marks_in, marked_lines};

    /// No line is marked of so many.
    pub fn new(alloc: Global, lines: u32) -> Result<DirtyBits, MemFault>
        ensures lines { IfOk result (λ bits. bits.lines ≡ lines) }
        ensures unmarked { IfOk result (λ bits. marks_in bits ≡ (λ line. false)) }
    {
        let words = Items::from_vec(vec![in alloc; 0; (lines as usize + 63) / 64]?);
        let summary = Items::from_vec(vec![in alloc; 0; (words.len() + 63) / 64]?);
        Ok(DirtyBits {
            lines,
            words,
            summary,
        })
    }

    /// Whether a line is marked.
    pub fn is_marked(&self, line: u32) -> bool
        ensures { result ≡ marks_in self.now line }
    {
        has_bit(self.words.as_slice(), line as usize)
    }

    /// The first marked line on a later page. It looks at pages that have marks alone.
    fn first_behind(&self, page: u32) -> Option<u32>
        ensures first { IsFirst (marks_in self.now) (64 * (page + 1)) result }
        ensures within { IfSome result (λ line. line < self.now.lines) }
    {
        let words = self.words.as_slice();
        let summary = self.summary.as_slice();
        let next = first_bit(summary, page as usize + 1)?;
        let bit = first_of_word(words[next], 0)?;
        Some((64 * next + bit) as u32)
    }

    /// The first marked line from this one on.
    pub fn first_from(&self, from: u32) -> Option<u32>
        ensures first { IsFirst (marks_in self.now) from result }
        ensures within { IfSome result (λ line. line < self.now.lines) }
    {
        let words = self.words.as_slice();
        let page = from as usize / 64;
        if page >= words.len() {
            return None;
        }
        match first_of_word(words[page], from as usize % 64) {
            Some(bit) => Some((64 * page + bit) as u32),
            None => self.first_behind(from / 64),
        }
    }

    /// Marks a line.
    pub fn mark(&mut self, line: u32)
        requires { line < self.old.lines }
        ensures marked { marks_in self.new ≡ update (marks_in self.old) line true }
        ensures same { self.new.lines ≡ self.old.lines }
    {
        set_bit(&mut self.words, line as usize);
        set_bit(&mut self.summary, line as usize / 64);
    }

    /// Takes the mark of a marked line away.
    pub fn unmark(&mut self, line: u32)
        requires { marks_in self.old line ≡ true }
        ensures unmarked { marks_in self.new ≡ update (marks_in self.old) line false }
        ensures same { self.new.lines ≡ self.old.lines }
    {
        let page = line as usize / 64;
        clear_bit(&mut self.words, line as usize);
        if self.words.as_slice()[page] == 0 {
            clear_bit(&mut self.summary, page);
        }
    }

    /// Takes the marks of neighbouring lines away.
    fn unmark_span(&mut self, span: Span)
        ensures unmarked { marks_in self.new ≡ without (lines_of_span span) (marks_in self.old) }
        ensures same { self.new.lines ≡ self.old.lines }
    {
        let end = span.first as usize + span.count as usize;
        let mut from = span.first;
        while let Some(line) = self.first_from(from) {
            if line as usize >= end {
                return;
            }
            self.unmark(line);
            from = line + 1;
        }
    }

    /// Takes the marks of the lines of some spans away.
    pub fn unmark_all(&mut self, spans: &[Span])
        ensures unmarked { marks_in self.new ≡ without (flat_map lines_of_span spans.now)
            (marks_in self.old) }
        ensures same { self.new.lines ≡ self.old.lines }
    {
        for span in spans {
            self.unmark_span(*span);
        }
    }

    /// The marked lines.
    pub fn to_list(&self, alloc: Global) -> Result<LineNumbers, MemFault>
        ensures { IfOk result (λ lines. lines ≡ marked_lines self.now) }
    {
        let mut lines = Items::new(alloc);
        let mut from = 0;
        while let Some(line) = self.first_from(from) {
            lines.push(line)?;
            from = line + 1;
        }
        Ok(lines)
    }
}
