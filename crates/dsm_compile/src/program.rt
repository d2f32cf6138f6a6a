//! The code of programs.

ghost use Rattle.std.specs.Prelude.{◌≡◌, ◌++◌, [], ◌∷◌, map, length, IfOk};
ghost use Rattle.dsm_syntax.specs.Heights.{highest};
ghost use Rattle.dsm_check.specs.Views.{view_function};
ghost use Rattle.dsm_check.specs.CheckedViews.{program_of};
ghost use Rattle.dsm_code.specs.Instructions.{is_stop};
ghost use Rattle.dsm_code.specs.Programs as code;
ghost use Rattle.dsm_laws_code.specs.Programs.{names_at, function_code, functions_code, functions_prints, deepest_in, code_of};
ghost use Rattle.dsm_laws_code.specs.Statements.{statements_prints};

use crate::writer::{Exits, Writer};
use dsm_base::{MemFault, pieces_of};
use dsm_check as check;
use dsm_check::Checked;
use dsm_code::{Code, Function, Instr, Parts, Row, SlotNames};
use sqlite_items::Items;
use std::alloc::Global;

/// A program's code is the same for all numbers of processors; for this one it is set up to be read.
const SOME_PROCS: u8 = 2;

/// Whether the step of an instruction has a label.
fn is_stop(instr: Instr) -> bool
    ensures { result ≡ is_stop instr }
{
    matches!(
        instr,
        Instr::Load(_, _, _)
            | Instr::Store(_, _, _)
            | Instr::GoBack(_)
            | Instr::Enter(_, _)
            | Instr::Leave
            | Instr::Ask(_, _, _)
            | Instr::Take(_, _, _)
            | Instr::Give(_, _)
            | Instr::Arrive(_)
            | Instr::Cross(_)
            | Instr::Print(_)
    )
}

/// The variables that are told at each instruction.
fn names_of(alloc: Global, rows: &[Row]) -> Result<Vec<Option<SlotNames>>, MemFault>
    ensures { IfOk result (λ names. names.items ≡ map names_at rows.now) }
{
    let mut names = Vec::new(alloc);
    for row in rows {
        let told = if is_stop(row.instr) {
            Some(Items::new(alloc))
        } else {
            None
        };
        names.push(told)?;
    }
    Ok(names)
}

/// The most operands that an instruction finds.
fn deepest_of(rows: &[Row]) -> u32
    ensures { result ≡ highest (λ here. here.depth) rows.now }
{
    let mut deepest = 0;
    for row in rows {
        deepest = deepest.max(row.depth);
    }
    deepest
}

/// The most operands that an instruction of a function finds.
fn deepest_of_all(functions: &[Function]) -> u32
    ensures { result ≡ highest deepest_in (map code.function_of functions.now) }
{
    let mut deepest = 0;
    for function in functions {
        deepest = deepest.max(deepest_of(function.rows.as_slice()));
    }
    deepest
}

/// The most slots that a function has.
fn widest_of(functions: &[Function]) -> u8
    ensures { result ≡ highest (λ f. f.slots) (map code.function_of functions.now) }
{
    let mut widest = 0;
    for function in functions {
        widest = widest.max(function.slots);
    }
    widest
}

impl Writer<'_> {
    /// The code of a function, whose prints are added to those before.
    fn function(&mut self, function: &check::Function) -> Result<Function, MemFault>
        requires { self.old.rows ≡ [] }
        ensures value { IfOk result (λ made. code.function_of made ≡
            function_code self.old.pieces (length self.old.prints) (view_function function.now)) }
        ensures prints { IfOk result (λ made. self.new ≡ record self.old {
          prints = self.old.prints ++ statements_prints (view_function function.now).body;
        }) }
    {
        let no_exits = Exits {
            after_loop: 0,
            after_body: 0,
        };
        self.put(1, Instr::Leave)?;
        self.put(0, Instr::Push(0))?;
        self.statements(no_exits, function.body.as_slice())?;
        let rows = self.take_rows();
        Ok(Function {
            params: function.params,
            slots: function.slots,
            names: names_of(self.alloc(), rows.as_slice())?,
            rows,
        })
    }

    /// The code of functions.
    fn functions(&mut self, functions: &[check::Function]) -> Result<Vec<Function>, MemFault>
        requires none { self.old.rows ≡ [] }
        ensures value { IfOk result (λ made. map code.function_of made.items ≡
            functions_code self.old.pieces (length self.old.prints)
            (map view_function functions.now)) }
        ensures prints { IfOk result (λ made. self.new ≡ record self.old {
          prints = self.old.prints ++ functions_prints (map view_function functions.now);
        }) }
    {
        let mut made = Vec::new(self.alloc());
        for function in functions {
            made.push(self.function(function)?)?;
        }
        Ok(made)
    }
}

/// The parts of a checked program's code. `MemFault` comes out of memory.
fn parts_of(alloc: Global, checked: &Checked) -> Result<Parts, MemFault>
    ensures { IfOk result (λ parts. code.program_of parts ≡ code_of (program_of checked.now)) }
{
    let setup = checked.setup(alloc, SOME_PROCS)?;
    let pieces = pieces_of(alloc, &setup)?;
    let mut writer = Writer::new(alloc, &setup, &pieces);
    let functions = writer.functions(checked.functions())?;
    let deepest = deepest_of_all(functions.as_slice());
    let widest = widest_of(functions.as_slice());
    Ok(Parts {
        functions,
        prints: writer.into_prints(),
        main: checked.main(),
        private_cells: checked.private_cells(),
        cells: setup.cells,
        locks: setup.locks,
        bars: setup.bars,
        deepest,
        widest,
    })
}

/// The code of a checked program. `MemFault` comes out of memory; a function of more than 2^32
/// instructions counts as that.
pub fn compile(alloc: Global, checked: &Checked) -> Result<Code, MemFault>
    ensures { IfOk result (λ code. code ≡ code_of (program_of checked.now)) }
{
    Code::new(parts_of(alloc, checked)?).ok_or(MemFault)
}
