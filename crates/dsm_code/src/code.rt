//! The code of a program.

ghost use Rattle.std.specs.Prelude.{◌≡◌, ◌≤◌, if◌then◌else◌, Some, None, IfSome, IsTrue, MatchOption};
ghost use Rattle.dsm_code.specs.Programs.{program_of, function_at, row_at, print_at, names_at};
ghost use Rattle.dsm_code.specs.Valid;
ghost use Rattle.dsm_code.specs.Typed.{IsFine};
ghost use Rattle.dsm_code.specs.Prints.{IsPrint};

use crate::parts::{Parts, PrintPart, Row, SlotNames};
use std::marker::Model;

/// The code of a program: parts in which each jump, slot, function, cell, lock, barrier and string is
/// there, and each place has its number of operands. Contracts see it as the program.
#[derive(Debug, Drop)]
pub struct Code {
    parts: Parts,
}

impl Model for Code {
    ghost use Rattle.std.specs.Prelude.{IsTrue};
    ghost use Rattle.dsm_code.specs.Programs.{Program, program_of};
    ghost use Rattle.dsm_code.specs.Valid.{is_valid};

    ghost Value = { Program };

    ghost view = { λ code. program_of code.parts };

    ghost invariant = { λ code. IsTrue (is_valid (program_of code.parts)) };
}

impl Code {
    /// The code that parts are; None where they are none.
    pub fn new(parts: Parts) -> Option<Code>
        ensures { result ≡
            (if Valid.is_valid (program_of parts) then Some (program_of parts) else None) }
    {
        if parts.is_valid() {
            Some(Code { parts })
        } else {
            None
        }
    }

    /// The parts are code.
    pub fn is_valid(&self)
        ensures { IsTrue (Valid.is_valid self.now) }
    {
        let _main = self.parts.main;
    }

    /// The instruction at a place of a function, with its number of operands.
    fn find(&self, function: u16, place: usize) -> Option<Row>
        ensures { result ≡ row_at self.now function place }
    {
        self.parts
            .functions
            .get(usize::from(function))?
            .rows
            .get(place)
            .copied()
    }

    /// The instruction at a place of a function, with its number of operands; it finds what it needs there.
    /// None where there is no instruction.
    pub fn row(&self, function: u16, place: usize) -> Option<Row>
        ensures value { result ≡ row_at self.now function place }
        ensures fine { IfSome result (IsFine self.now (function_at self.now function)) }
    {
        self.is_valid();
        self.find(function, place)
    }

    fn find_params(&self, function: u16) -> u8
        ensures { result ≡ (function_at self.now function).params }
    {
        match self.parts.functions.get(usize::from(function)) {
            Some(function) => function.params,
            None => 0,
        }
    }

    /// How many parameters a function has, which are among its slots.
    pub fn params(&self, function: u16) -> u8
        ensures value { result ≡ (function_at self.now function).params }
        ensures few { result ≤ self.now.widest }
    {
        self.is_valid();
        self.find_params(function)
    }

    fn find_slots(&self, function: u16) -> u8
        ensures { result ≡ (function_at self.now function).slots }
    {
        match self.parts.functions.get(usize::from(function)) {
            Some(function) => function.slots,
            None => 0,
        }
    }

    /// How many slots a function has.
    pub fn slots(&self, function: u16) -> u8
        ensures value { result ≡ (function_at self.now function).slots }
        ensures few { result ≤ self.now.widest }
    {
        self.is_valid();
        self.find_slots(function)
    }

    fn find_main(&self) -> u16
        ensures { result ≡ self.now.main }
    {
        self.parts.main
    }

    /// The number of `main`, which has slots for its two arguments.
    pub fn main(&self) -> u16
        ensures value { result ≡ self.now.main }
        ensures wide { 2 ≤ self.now.widest }
    {
        self.is_valid();
        self.find_main()
    }

    /// How many private cells there are.
    pub fn private_cells(&self) -> u32
        ensures { result ≡ self.now.private_cells }
    {
        self.parts.private_cells
    }

    /// No place has more operands.
    pub fn deepest(&self) -> u32
        ensures { result ≡ self.now.deepest }
    {
        self.parts.deepest
    }

    /// No function has more slots.
    pub fn widest(&self) -> u8
        ensures { result ≡ self.now.widest }
    {
        self.parts.widest
    }

    /// The parts of a print; none past the last.
    fn find_print(&self, number: u32) -> &[PrintPart]
        ensures { result.now ≡ print_at self.now number }
    {
        match self.parts.prints.get(number as usize) {
            Some(print) => print.as_slice(),
            None => &[],
        }
    }

    /// The parts of a print, which make a line; none past the last.
    pub fn print(&self, number: u32) -> &[PrintPart]
        ensures value { result.now ≡ print_at self.now number }
        ensures line { IsPrint result.now }
    {
        self.is_valid();
        self.find_print(number)
    }

    /// The variables that are known at a place of a function; None where its step has no label.
    pub fn names(&self, function: u16, place: u32) -> Option<&SlotNames>
        ensures { MatchOption result (names_at self.now function place ≡ None)
            (λ names. names_at self.now function place ≡ Some names.now) }
    {
        match self.parts.functions.get(usize::from(function)) {
            Some(function) => match function.names.get(place as usize) {
                Some(names) => names.as_ref(),
                None => None,
            },
            None => None,
        }
    }
}
