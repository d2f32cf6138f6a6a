//! The texts of lines.

ghost use Rattle.std.specs.Prelude.{◌≡◌, ◌+◌, ◌≤◌, [], ◌++◌, length, IfOk};
ghost use Rattle.std.specs.Fmt.{signed_decimal};
ghost use Rattle.dsm_base.specs.Output.{IsLine, ArePrintable};
ghost use Rattle.dsm_code.specs.Instructions.{top, below};
ghost use Rattle.dsm_code.specs.Programs.{parts_text};
ghost use Rattle.dsm_code.specs.Valid.{part_bytes};
ghost use Rattle.dsm_code.specs.Prints.{WritesPrintable, IsPrint};
ghost use Rattle.dsm_machine.specs.Prints.{part_text, left_after};

use dsm_base::MemFault;
use dsm_code::PrintPart;
use itoa::Buffer;
use std::alloc::Global;
use std::marker::Model;

/// As many bytes as one line can have.
pub const MOST_LINE: usize = 256;

/// The text of a line, with room for all, which contracts see as a list of its bytes.
#[derive(Drop)]
pub struct Line {
    bytes: Vec<u8>,
}

impl Model for Line {
    ghost use Rattle.std.specs.Prelude.{List, ℕ, ◌≤◌, vec_capacity};
    ghost use Rattle.dsm_base.specs.Output.{IsLine};
    ghost use Rattle.dsm_machine.specs.declared.print.TheConstants.{MOST_LINE};

    ghost Value = { List ℕ };

    ghost view = { λ line. line.bytes.items };

    ghost invariant = { λ line. (MOST_LINE ≤ vec_capacity line.bytes) × IsLine line.bytes.items };
}

impl Line {
    /// An empty line. `MemFault` comes out of memory.
    pub fn new(alloc: Global) -> Result<Line, MemFault>
        ensures { IfOk result (λ line. line ≡ []) }
    {
        Ok(Line {
            bytes: Vec::with_capacity(alloc, MOST_LINE)?,
        })
    }

    /// Appends bytes.
    fn append(&mut self, bytes: &[u8])
        requires room { length self.old + length bytes.now ≤ MOST_LINE }
        requires printable { ArePrintable bytes.now }
        ensures { self.new ≡ self.old ++ bytes.now }
    {
        for byte in bytes {
            self.bytes.push_reserved(*byte);
        }
    }

    /// Holds nothing.
    pub fn clear(&mut self)
        ensures { self.new ≡ [] }
    {
        self.bytes.clear();
    }

    pub fn as_slice(&self) -> &[u8]
        ensures value { result.now ≡ self.now }
        ensures line { IsLine result.now }
    {
        self.bytes.as_slice()
    }

    /// Appends a value in decimal.
    fn append_value(&mut self, value: i64)
        requires { length self.old + 20 ≤ MOST_LINE }
        ensures text { self.new ≡ self.old ++ signed_decimal value }
        ensures short { length self.new ≤ length self.old + 20 }
    {
        self.append(Buffer::new().format(value).as_bytes());
    }

    /// Appends the text of a part: a string as it is, the next value in decimal.
    fn append_part(&mut self, part: &PrintPart, left: &mut ValuesLeft<'_>)
        requires room { length self.old + part_bytes part.now ≤ MOST_LINE }
        requires printable { WritesPrintable part.now }
        ensures text { self.new ≡ self.old ++ part_text part.now left.old }
        ensures left { left.new ≡ left_after part.now left.old }
        ensures short { length self.new ≤ length self.old + part_bytes part.now }
    {
        match part {
            PrintPart::Text(text) => self.append(text.as_slice()),
            PrintPart::Value => self.append_value(left.next()),
        }
    }

    /// Holds the texts of the parts of a print, with nothing between: strings as they are, and values in
    /// decimal, of which there is one for each value part.
    #[tactic(auto, using(crate::proofs::Printing::text_of_parts))]
    pub fn set(&mut self, parts: &[PrintPart], values: &[i64])
        requires { IsPrint parts.now }
        ensures { self.new ≡ parts_text parts.now values.now }
    {
        self.clear();
        let mut left = ValuesLeft::new(values);
        for part in parts {
            self.append_part(part, &mut left);
        }
    }
}

/// The values that are left, which contracts see as a list.
#[derive(Drop)]
struct ValuesLeft<'a> {
    left: &'a [i64],
}

impl<'a> Model for ValuesLeft<'a> {
    ghost use Rattle.std.specs.Prelude.{List, ℤ};

    ghost Value = { List ℤ };

    ghost view = { λ values. values.left.now };
}

impl<'a> ValuesLeft<'a> {
    fn new(values: &'a [i64]) -> ValuesLeft<'a>
        ensures { result ≡ values.now }
    {
        ValuesLeft { left: values }
    }

    /// The next value; 0 where there is none.
    fn next(&mut self) -> i64
        ensures value { result ≡ top self.old }
        ensures left { self.new ≡ below self.old }
    {
        match self.left.split_first() {
            None => 0,
            Some((value, left)) => {
                self.left = left;
                *value
            }
        }
    }
}
