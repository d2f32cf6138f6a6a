//! The lines of a text that have words.

ghost use Rattle.std.specs.Prelude.{◌≡◌, ◌<◌, ◌∷◌, [], length, map, nat_eq, MatchOption, IfOk};
ghost use Rattle.dsm_sched.specs.Words.{row_of, rows_of, rows_left, with_row};

use crate::lines::split_line;
use crate::words::words;
use dsm_base::MemFault;
use std::alloc::Global;
use std::marker::Model;

/// A line that has words.
#[derive(Drop)]
pub(crate) struct Row<'a> {
    number: u32,
    parts: Vec<&'a [u8]>,
}

impl<'a> Model for Row<'a> {
    ghost use Rattle.std.specs.Prelude.{map};
    ghost use Rattle.dsm_sched.specs.Words.{Row};

    ghost Value = { Row };

    ghost view = { λ row. record { line = row.number; words = map (λ word. word.now) row.parts.items } };
}

impl<'a> Row<'a> {
    /// The number of the line, from 1.
    pub fn line(&self) -> u32
        ensures { result ≡ self.now.line }
    {
        self.number
    }

    /// The words in their order.
    pub fn words(&self) -> &[&'a [u8]]
        ensures { map (λ word. word.now) result.now ≡ self.now.words }
    {
        self.parts.as_slice()
    }
}

/// The rows of a text that are left to read.
#[derive(Drop)]
pub(crate) struct Rows<'a> {
    rest: &'a [u8],
    /// The number of the next line.
    number: u32,
}

impl<'a> Model for Rows<'a> {
    ghost use Rattle.std.specs.Prelude.{◌+◌, ◌<◌, ◌^◌, length};
    ghost use Rattle.dsm_sched.specs.Words.{Unread};

    ghost Value = { Unread };

    ghost view = { λ rows. record { line = rows.number; text = rows.rest.now } };

    ghost invariant = { λ rows. rows.number + length rows.rest.now < 2 ^ 32 };
}

impl<'a> Rows<'a> {
    /// The rows of a text.
    pub fn new(text: &'a [u8]) -> Rows<'a>
        requires { length text.now < 4294967295 }
        ensures { rows_left result ≡ rows_of text.now }
    {
        Rows {
            rest: text,
            number: 1,
        }
    }

    /// Whether no line is left.
    fn is_empty(&self) -> bool
        ensures { result ≡ nat_eq (length self.now.text) 0 }
    {
        self.rest.is_empty()
    }

    /// Takes the next line, and answers its number too.
    fn take_line(&mut self) -> (u32, &'a [u8])
        requires { 0 < length self.old.text }
        ensures rows { rows_left self.old
            ≡ with_row (row_of (result.0, result.1.now)) (rows_left self.new) }
        ensures shorter { length self.new.text < length self.old.text }
    {
        let number = self.number;
        let (line, rest) = split_line(self.rest);
        *self = Rows {
            rest,
            number: number + 1,
        };
        (number, line)
    }

    /// Takes the next row, where there is one. `MemFault` where there is no memory for it.
    pub fn next(&mut self, alloc: Global) -> Result<Option<Row<'a>>, MemFault>
        ensures { IfOk result (λ next. MatchOption next (rows_left self.old ≡ [])
            (λ row. rows_left self.old ≡ row ∷ rows_left self.new)) }
    {
        'lines: while !self.is_empty() {
            let (number, line) = self.take_line();
            let parts = words(alloc, line)?;
            if !parts.is_empty() {
                return Ok(Some(Row { number, parts }));
            }
        }
        Ok(None)
    }
}
