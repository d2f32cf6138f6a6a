//! The code of statements. Each is written before what is written already.

ghost use Rattle.std.specs.Prelude.{◌≡◌, ◌+◌, ◌++◌, [], ◌∷◌, List, map, length, OnOk, IfOk};
ghost use Rattle.dsm_syntax.specs.Views as tree;
ghost use Rattle.dsm_check.specs.Views.{view, view_variable, view_part, view_start, view_lock, view_statement, view_statements};
ghost use Rattle.dsm_check.specs.Resolved as r;
ghost use Rattle.dsm_code.specs.declared.parts.Row.{Row as DeclaredRow};
ghost use Rattle.dsm_laws_code.specs.Expressions.{expression_code, chosen_code};
ghost use Rattle.dsm_laws_code.specs.Statements.{Exits as Leading, before, print_of, parts_code, initial_code, variables_code, effect_code, option_code, start_code, reaching_lock_code, test_code, loop_exits, loop_code, statement_code, statement_prints};
ghost use Rattle.dsm_compile.specs.Drafts.{with_code, with_statement, with_statements, exits_of, borrowed};

use crate::instruction::{array_of, lock_depth, lock_line, lock_target};
use crate::writer::{Exits, Writer, small, sum};
use dsm_base::{Bar, MemFault, Mode, Text};
use dsm_check::{Expression, ForStart, LockPlace, Part, Statement, Variable};
use dsm_code::{Instr, Print, PrintPart, values_in};
use sqlite_items::Items;
use std::alloc::Global;

/// The parts of a print, whose values are operands.
fn print_of(alloc: Global, parts: &[Part]) -> Result<Print, MemFault>
    ensures { IfOk result (λ print. print ≡ print_of (map view_part parts.now)) }
{
    let mut print = Items::new(alloc);
    for part in parts {
        match part {
            Part::Text(text) => {
                print.push(PrintPart::Text(Text::from_slice(alloc, text.as_slice())?))?;
            }
            Part::Value(_) => print.push(PrintPart::Value)?,
        }
    }
    Ok(print)
}

impl Writer<'_> {
    /// An expression whose value isn't needed.
    fn effect(&mut self, e: &Expression) -> Result<(), MemFault>
        ensures { OnOk result (self.new ≡
            with_code (effect_code self.old.pieces (view e.now)) self.old) }
    {
        self.put(1, Instr::Discard)?;
        self.expression(0, e)
    }

    /// The same, where there is one.
    fn optional_effect(&mut self, e: Option<&Expression>) -> Result<(), MemFault>
        ensures { OnOk result (self.new ≡
            with_code (option_code self.old.pieces (borrowed e.entry)) self.old) }
    {
        match e {
            None => Ok(()),
            Some(e) => self.effect(e),
        }
    }

    /// The first value of a variable.
    fn initial(&mut self, e: &Option<Expression>) -> Result<(), MemFault>
        ensures { OnOk result (self.new ≡
            with_code (initial_code self.old.pieces (tree.option_view view e.now)) self.old) }
    {
        match e {
            None => self.put(0, Instr::Push(0)),
            Some(e) => self.expression(0, e),
        }
    }

    /// Variables where they are declared.
    fn variables(&mut self, variables: &[Variable]) -> Result<(), MemFault>
        ensures { OnOk result (self.new ≡
            with_code (variables_code self.old.pieces (map view_variable variables.now)) self.old) }
    {
        match variables.split_first() {
            None => Ok(()),
            Some((variable, rest)) => {
                self.variables(rest)?;
                self.put(1, Instr::Discard)?;
                self.put(1, Instr::StoreSlot(variable.slot))?;
                self.initial(&variable.initial)
            }
        }
    }

    /// The first part of a `for`.
    fn start(&mut self, start: &ForStart) -> Result<(), MemFault>
        ensures { OnOk result (self.new ≡
            with_code (start_code self.old.pieces (view_start start.now)) self.old) }
    {
        match start {
            ForStart::Nothing => Ok(()),
            ForStart::Variables(variables) => self.variables(variables.as_slice()),
            ForStart::Expression(e) => self.effect(e),
        }
    }

    /// The index of a lock, if it has one, which is tested.
    fn reach_lock(&mut self, lock: &LockPlace) -> Result<(), MemFault>
        ensures { OnOk result (self.new ≡
            with_code (reaching_lock_code self.old.pieces (view_lock lock.now)) self.old) }
    {
        match lock {
            LockPlace::Single(_, _) => Ok(()),
            LockPlace::Element(array, index, line) => {
                self.put(1, Instr::TestIndex(array_of(*array), *line))?;
                self.expression(0, index)
            }
        }
    }

    /// The values of a print from the left.
    fn parts(&mut self, depth: u32, parts: &[Part]) -> Result<(), MemFault>
        ensures { OnOk result (self.new ≡
            with_code (parts_code self.old.pieces depth (map view_part parts.now)) self.old) }
    {
        match parts.split_first() {
            None => Ok(()),
            Some((Part::Text(_), rest)) => self.parts(depth, rest),
            Some((Part::Value(e), rest)) => {
                self.parts(sum(depth, 1)?, rest)?;
                self.expression(depth, e)
            }
        }
    }

    fn acquire(&mut self, lock: &LockPlace, mode: Mode) -> Result<(), MemFault>
        ensures { (exits : Leading) → OnOk result (self.new ≡
            with_statement exits (r.acquire (view_lock lock.now) mode) self.old) }
    {
        let depth = lock_depth(lock);
        let target = lock_target(lock);
        let line = lock_line(lock);
        self.put(depth, Instr::Take(target, mode, line))?;
        self.put(depth, Instr::Ask(target, mode, line))?;
        self.reach_lock(lock)
    }

    fn release(&mut self, lock: &LockPlace) -> Result<(), MemFault>
        ensures { (exits : Leading) → OnOk result (self.new ≡
            with_statement exits (r.release (view_lock lock.now)) self.old) }
    {
        self.put(
            lock_depth(lock),
            Instr::Give(lock_target(lock), lock_line(lock)),
        )?;
        self.reach_lock(lock)
    }

    fn barrier(&mut self, bar: Bar) -> Result<(), MemFault>
        ensures { (exits : Leading) → OnOk result (self.new ≡
            with_statement exits (r.barrier bar) self.old) }
    {
        self.put(0, Instr::Cross(bar))?;
        self.put(0, Instr::Arrive(bar))
    }

    fn leave(&mut self, value: &Option<Expression>) -> Result<(), MemFault>
        ensures { (exits : Leading) → OnOk result (self.new ≡
            with_statement exits (r.return (tree.option_view view value.now)) self.old) }
    {
        self.put(1, Instr::Leave)?;
        self.initial(value)
    }

    fn print(&mut self, parts: &[Part]) -> Result<(), MemFault>
        ensures { (exits : Leading) → OnOk result (self.new ≡
            with_statement exits (r.print (map view_part parts.now)) self.old) }
    {
        let print = print_of(self.alloc(), parts)?;
        let values = small(values_in(print.as_slice()))?;
        let number = self.add_print(print)?;
        self.put(values, Instr::Print(number))?;
        self.parts(0, parts)
    }

    /// The test of a loop, if it has one; where it fails, what was written since there were so many
    /// instructions is left out.
    fn test(&mut self, test: Option<&Expression>, after: usize) -> Result<(), MemFault>
        ensures { (round rest : List DeclaredRow) → self.old.rows ≡ round ++ rest → length rest ≡ after →
            OnOk result (self.new ≡ with_code (test_code self.old.pieces
            (borrowed test.entry) (length round)) self.old) }
    {
        match test {
            None => Ok(()),
            Some(test) => {
                let count = self.count_since(after)?;
                self.put(1, Instr::SkipIfZero(count))?;
                self.expression(0, test)
            }
        }
    }

    /// A loop behind its first part.
    #[cycle(statement)]
    fn loop_of(
        &mut self,
        test: Option<&Expression>,
        step: Option<&Expression>,
        body: &Statement,
    ) -> Result<(), MemFault>
        ensures { OnOk result (self.new ≡
            (let third = option_code self.old.pieces (borrowed step.entry) in
            let code = statement_code self.old.pieces (loop_exits third)
            (length self.old.prints) (view_statement body.now) in
            record self.old {
              rows = loop_code self.old.pieces (borrowed test.entry) code third
                  ++ self.old.rows;
              prints = self.old.prints ++ statement_prints (view_statement body.now);
            })) }
    {
        let after = self.len();
        self.put(0, Instr::GoBack(0))?;
        let behind = self.len();
        self.optional_effect(step)?;
        let third = self.count_since(behind)?;
        let exits = Exits {
            after_loop: sum(third, 1)?,
            after_body: 0,
        };
        self.statement(exits, body)?;
        self.test(test, after)?;
        let round = self.count_since(behind)?;
        self.set_back(after, round);
        Ok(())
    }

    #[cycle(statement)]
    fn when(&mut self, exits: Exits, body: &Statement, test: &Expression) -> Result<(), MemFault>
        ensures { OnOk result (self.new ≡ with_statement (exits_of exits)
            (r.when (view test.now) (view_statement body.now)) self.old) }
    {
        let after = self.len();
        self.statement(exits, body)?;
        let count = self.count_since(after)?;
        self.put(1, Instr::SkipIfZero(count))?;
        self.expression(0, test)
    }

    /// The part of an `if` with an `else`, of which what was written since there were so many instructions
    /// is the other part.
    #[cycle(statement)]
    fn first_part(&mut self, exits: Exits, after: usize, body: &Statement) -> Result<(), MemFault>
        ensures { (other rest : List DeclaredRow) → self.old.rows ≡ other ++ rest →
            length rest ≡ after → OnOk result (self.new ≡
            (let one = statement_code self.old.pieces (before (length other + 1) (exits_of exits))
            (length self.old.prints) (view_statement body.now) in
            record self.old {
              rows = chosen_code 1 0 one other ++ rest;
              prints = self.old.prints ++ statement_prints (view_statement body.now);
            })) }
    {
        let other = self.count_since(after)?;
        let exits = exits.before(sum(other, 1)?)?;
        let after = self.len();
        self.put(0, Instr::GoOn(other))?;
        self.statement(exits, body)?;
        let one = self.count_since(after)?;
        self.put(1, Instr::SkipIfZero(one))
    }

    /// Statements one after the other.
    #[cycle(statement)]
    pub fn statements(&mut self, exits: Exits, statements: &[Statement]) -> Result<(), MemFault>
        ensures { OnOk result (self.new ≡
            with_statements (exits_of exits) (view_statements statements.now) self.old) }
    {
        let after = self.len();
        for at in (0..statements.len()).rev() {
            let behind = self.count_since(after)?;
            self.statement(exits.before(behind)?, &statements[at])?;
        }
        Ok(())
    }

    /// A statement.
    #[cycle(statement)]
    fn statement(&mut self, exits: Exits, statement: &Statement) -> Result<(), MemFault>
        ensures { OnOk result (self.new ≡
            with_statement (exits_of exits) (view_statement statement.now) self.old) }
    {
        match statement {
            Statement::Block(body) => self.statements(exits, body.as_slice()),
            Statement::Empty => Ok(()),
            Statement::Variables(variables) => self.variables(variables.as_slice()),
            Statement::Expression(e) => self.effect(e),
            Statement::If(test, body) => self.when(exits, body, test),
            Statement::IfElse(test, body, other) => {
                let after = self.len();
                self.statement(exits, other)?;
                self.first_part(exits, after, body)?;
                self.expression(0, test)
            }
            Statement::While(test, body) => self.loop_of(Some(test), None, body),
            Statement::For(start, test, step, body) => {
                self.loop_of(test.as_ref(), step.as_ref(), body)?;
                self.start(start)
            }
            Statement::Break => self.put(0, Instr::GoOn(exits.after_loop)),
            Statement::Continue => self.put(0, Instr::GoOn(exits.after_body)),
            Statement::Return(value) => self.leave(value),
            Statement::Acquire(lock, mode) => self.acquire(lock, *mode),
            Statement::Release(lock) => self.release(lock),
            Statement::Barrier(bar) => self.barrier(*bar),
            Statement::Print(parts) => self.print(parts.as_slice()),
        }
    }
}
