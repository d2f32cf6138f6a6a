//! What code is made of.

use crate::instruction::Instr;
use dsm_base::Text;
use sqlite_items::Items;

/// An instruction, and the number of operands that its function has before it.
#[derive(Clone, Copy, Debug)]
pub struct Row {
    pub instr: Instr,
    pub depth: u32,
}

/// A variable that is known at a place: its name in the source, and its slot.
#[derive(Debug, Drop)]
pub struct SlotName {
    pub name: Text,
    pub slot: u8,
}

/// The variables that are known at a place, in order of declaration.
pub type SlotNames = Items<SlotName>;

/// A part of a print: a string, or a value that is among the operands.
#[derive(Debug, Drop)]
pub enum PrintPart {
    Text(Text),
    Value,
}

/// The parts of a print from the left.
pub type Print = Items<PrintPart>;

/// A function: the first of its slots are its parameters. `rows` is its code; `names` has, at each place
/// of an instruction with a label, the variables that are known there.
#[derive(Debug, Drop)]
pub struct Function {
    pub params: u8,
    pub slots: u8,
    pub rows: Vec<Row>,
    pub names: Vec<Option<SlotNames>>,
}

/// The parts of a program in code, with the numbers of its private cells, shared cells, locks and
/// barriers. No place has more operands than `deepest`, and no function more slots than `widest`.
#[derive(Debug, Drop)]
pub struct Parts {
    pub functions: Vec<Function>,
    pub prints: Vec<Print>,
    pub main: u16,
    pub private_cells: u32,
    pub cells: u32,
    pub locks: u16,
    pub bars: u8,
    pub deepest: u32,
    pub widest: u8,
}
