//! Code that is written from its end on, so that the length of what a jump leaves out is known.

ghost use Rattle.std.specs.Prelude.{◌≡◌, ◌+◌, ◌<◌, ◌^◌, ◌∷◌, ◌++◌, [], List, length, set, OnOk, IfOk};
ghost use Rattle.dsm_base.specs.Pieces.{HasPieces};
ghost use Rattle.dsm_code.specs.declared.instruction.Instr.{Instr as Instruction};
ghost use Rattle.dsm_code.specs.declared.parts.Row.{Row as DeclaredRow};
ghost use Rattle.dsm_laws_code.specs.Instructions.{row, bound_of};
ghost use Rattle.dsm_laws_code.specs.Statements.{before};
ghost use Rattle.dsm_compile.specs.Drafts.{with_code, exits_of};

use dsm_base::{Cell, MemFault, Object, Pieces, Setup, piece_at};
use dsm_code::{Bound, Instr, Print, Row};
use std::alloc::Global;
use std::marker::Model;

/// A count that fits 32 bits. `MemFault` comes for a greater one, since no memory holds so much code.
pub fn small(count: usize) -> Result<u32, MemFault>
    ensures { IfOk result (λ same. same ≡ count) }
{
    u32::try_from(count).or(Err(MemFault))
}

/// A sum of counts. `MemFault` comes where it doesn't fit 32 bits, since no memory holds so much code.
pub fn sum(count: u32, more: u32) -> Result<u32, MemFault>
    ensures { IfOk result (λ total. total ≡ count + more) }
{
    count.checked_add(more).ok_or(MemFault)
}

/// Sets a row; past the end nothing changes.
fn set_row(rows: &mut Vec<Row>, place: usize, row: Row)
    ensures { rows.new.items ≡ set rows.old.items place row }
{
    if let Some(old) = rows.get_mut(place) {
        *old = row;
    }
}

/// How many instructions behind a statement the innermost loop is left, and how many behind it the
/// loop's body ends.
#[derive(Clone, Copy, Debug)]
pub struct Exits {
    pub after_loop: u32,
    pub after_body: u32,
}

impl Exits {
    /// The same from so many instructions before.
    pub fn before(self, count: u32) -> Result<Exits, MemFault>
        ensures { IfOk result (λ exits. exits_of exits ≡ before count (exits_of self)) }
    {
        Ok(Exits {
            after_loop: sum(self.after_loop, count)?,
            after_body: sum(self.after_body, count)?,
        })
    }
}

/// The code of a function that is written from its end on, and the prints that are written of the program.
#[derive(Drop)]
pub struct Writer<'a> {
    alloc: Global,
    setup: &'a Setup,
    pieces: &'a Pieces,
    /// The last one first.
    rows: Vec<Row>,
    prints: Vec<Print>,
}

impl<'a> Model for Writer<'a> {
    ghost use Rattle.std.specs.Prelude.{reverse};
    ghost use Rattle.dsm_base.specs.Pieces.{HasPieces};
    ghost use Rattle.dsm_compile.specs.Drafts.{Draft};

    ghost Value = { Draft };

    ghost view = { λ writer. record {
      pieces = writer.setup.now.bindings;
      rows = reverse writer.rows.items;
      prints = writer.prints.items;
    } };

    ghost invariant = { λ writer. HasPieces writer.setup.now writer.pieces.now };
}

impl<'a> Writer<'a> {
    /// Nothing is written yet.
    pub fn new(alloc: Global, setup: &'a Setup, pieces: &'a Pieces) -> Writer<'a>
        requires { HasPieces setup.now pieces.now }
        ensures { result ≡ record { pieces = setup.now.bindings; rows = []; prints = [] } }
    {
        Writer {
            alloc,
            setup,
            pieces,
            rows: Vec::new(alloc),
            prints: Vec::new(alloc),
        }
    }

    /// Where memory comes from.
    pub fn alloc(&self) -> Global {
        self.alloc
    }

    /// Writes an instruction, which finds so many operands, before what is written.
    pub fn put(&mut self, depth: u32, instr: Instr) -> Result<(), MemFault>
        ensures { OnOk result (self.new ≡ with_code (row depth instr ∷ []) self.old) }
    {
        self.rows.push(Row { instr, depth })?;
        Ok(())
    }

    /// How many instructions are written.
    pub fn len(&self) -> usize
        ensures { result ≡ length self.now.rows }
    {
        self.rows.len()
    }

    /// How many instructions are written since there were so many.
    pub fn count_since(&self, len: usize) -> Result<u32, MemFault>
        ensures { (part rest : List DeclaredRow) → self.now.rows ≡ part ++ rest → length rest ≡ len →
            IfOk result (λ count. count ≡ length part) }
    {
        small(self.rows.len().saturating_sub(len))
    }

    /// Sets the jump back that was written, as one by no places, when there were so many instructions.
    pub fn set_back(&mut self, len: usize, count: u32)
        ensures { (part rest : List DeclaredRow) → length rest ≡ len →
            self.old ≡ with_code (part ++ (row 0 (Instruction.GoBack 0) ∷ [])) (record self.old { rows = rest }) →
            self.new ≡ with_code (part ++ (row 0 (Instruction.GoBack count) ∷ [])) (record self.old { rows = rest }) }
    {
        let jump = Row {
            instr: Instr::GoBack(count),
            depth: 0,
        };
        set_row(&mut self.rows, len, jump);
    }

    /// What a cell is bound to.
    #[tactic(auto, using(crate::proofs::Bounds::piece_known))]
    pub fn bound_of(&self, number: u32) -> Bound
        ensures { result ≡ bound_of self.now.pieces number }
    {
        match piece_at(self.pieces, Cell(number)) {
            Some(piece) => match piece.object {
                Object::Lock(_) => Bound::ToLock,
                Object::Bar(_) => Bound::ToBarrier,
            },
            None => Bound::ToLock,
        }
    }

    /// Adds a print, and tells its number.
    pub fn add_print(&mut self, print: Print) -> Result<u32, MemFault>
        ensures { IfOk result (λ number. (number ≡ length self.old.prints)
            × (self.new ≡ record self.old { prints = self.old.prints ++ (print ∷ []) })) }
    {
        let number = small(self.prints.len())?;
        self.prints.push(print)?;
        Ok(number)
    }

    /// The code that is written, after which nothing is written of the next function.
    pub fn take_rows(&mut self) -> Vec<Row>
        ensures rows { result.items ≡ self.old.rows }
        ensures left { self.new ≡ record self.old { rows = [] } }
    {
        let mut rows = std::mem::replace(&mut self.rows, Vec::new(self.alloc));
        rows.reverse();
        rows
    }

    /// The prints of all functions.
    pub fn into_prints(self) -> Vec<Print>
        ensures { result.items ≡ self.entry.prints }
    {
        self.prints
    }
}
