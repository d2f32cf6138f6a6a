//! Statements.

ghost use Rattle.std.specs.Prelude.{◌≡◌, if◌then◌else◌, List, [], ◌∷◌, map, None, Some, OnOk, IfOk};
ghost use Rattle.dsm_check.specs.Views.{view, view_statement, view_statements, view_variable, view_part, view_start, view_lock};
ghost use Rattle.dsm_semantics.specs.States.{declare, branch, gather, execute};
ghost use Rattle.dsm_semantics.specs.States;
ghost use Rattle.dsm_semantics.specs.Semantics;
ghost use Rattle.dsm_check.specs.Resolved as r;
ghost use Rattle.dsm_interpreter.specs.Threads.{Becomes, Steps, frame_of, item_of, loop_of, other_of, option_of, lock_of, stage_of};

use crate::execution::Execution;
use crate::frame::Frame;
use crate::item::{Item, LockAt, Loop, LoopStage, Place};
use crate::location::set_at;
use dsm_base::{MemFault, Mode, Want};
use dsm_check::{Expression, ForStart, LockPlace, Part, Statement, Variable};

impl<'a> Execution<'a> {
    /// Begins a statement, or wants to come to a barrier.
    pub fn execute(&mut self, statement: &'a Statement) -> Result<Option<Want>, MemFault>
        ensures { IfOk result (Steps self.old self.new (λ s.
            Semantics.execution s (view_statement statement.now))) }
    {
        match statement {
            Statement::Block(body) => self.frame.todo.push(Item::Run(body.as_slice()))?,
            Statement::Empty => {}
            Statement::Variables(variables) => {
                self.frame.todo.push(Item::Declare(variables.as_slice()))?;
            }
            Statement::Expression(e) => self.evaluate_and_discard(e)?,
            Statement::If(test, body) => self.test(test, body, None)?,
            Statement::IfElse(test, body, other) => self.test(test, body, Some(other))?,
            Statement::While(test, body) => self.go_round(Some(test), None, body)?,
            Statement::For(start, test, step, body) => {
                self.go_round(test.as_ref(), step.as_ref(), body)?;
                self.start_loop(start)?;
            }
            Statement::Break => self.frame.leave_loop(),
            Statement::Continue => self.frame.leave_body(),
            Statement::Return(value) => self.give_back(value.as_ref())?,
            Statement::Acquire(lock, mode) => self.acquire(lock, *mode)?,
            Statement::Release(lock) => self.release(lock)?,
            Statement::Barrier(bar) => return Ok(Some(Want::Arrive(*bar))),
            Statement::Print(parts) => self.print(parts.as_slice())?,
        }
        Ok(None)
    }

    fn evaluate_and_discard(&mut self, e: &'a Expression) -> Result<(), MemFault>
        ensures { OnOk result (Steps self.old self.new (λ s.
            Semantics.execution s (r.expression (view e.now))) None) }
    {
        self.frame.todo.push(Item::Discard)?;
        self.frame.todo.push(Item::Evaluate(e))
    }

    fn test(
        &mut self,
        test: &'a Expression,
        body: &'a Statement,
        other: Option<&'a Statement>,
    ) -> Result<(), MemFault>
        ensures { OnOk result (Becomes self.old self.new (λ s.
            record s {
              todo = States.evaluate (view test.now) ∷ branch (view_statement body.now)
                  (other_of other.entry) ∷ s.todo;
            })) }
    {
        self.frame.todo.push(Item::Branch(body, other))?;
        self.frame.todo.push(Item::Evaluate(test))
    }

    fn go_round(
        &mut self,
        test: Option<&'a Expression>,
        step: Option<&'a Expression>,
        body: &'a Statement,
    ) -> Result<(), MemFault>
        ensures { OnOk result (Becomes self.old self.new (λ s.
            record s {
              todo = States.round
                  (record {
                    test = option_of test.entry;
                    step = option_of step.entry;
                    body = view_statement body.now;
                  }) ∷ s.todo;
            })) }
    {
        let looping = Loop { test, step, body };
        self.frame.todo.push(Item::Go(LoopStage::Round, looping))
    }

    /// The first part of a `for`.
    fn start_loop(&mut self, start: &'a ForStart) -> Result<(), MemFault>
        ensures { OnOk result (Becomes self.old self.new (λ s.
            record s { todo = Semantics.starting (view_start start.now) s.todo })) }
    {
        match start {
            ForStart::Nothing => Ok(()),
            ForStart::Variables(variables) => {
                self.frame.todo.push(Item::Declare(variables.as_slice()))
            }
            ForStart::Expression(e) => self.evaluate_and_discard(e),
        }
    }

    fn give_back(&mut self, value: Option<&'a Expression>) -> Result<(), MemFault>
        ensures { OnOk result (Steps self.old self.new (λ s.
            Semantics.execution s (r.return (option_of value.entry))) None) }
    {
        self.frame.todo.push(Item::Leave)?;
        match value {
            None => self.frame.operands.push(0),
            Some(e) => self.frame.todo.push(Item::Evaluate(e)),
        }
    }

    fn acquire(&mut self, lock: &'a LockPlace, mode: Mode) -> Result<(), MemFault>
        ensures { OnOk result (Steps self.old self.new (λ s.
            Semantics.execution s (r.acquire (view_lock lock.now) mode)) None) }
    {
        self.frame.todo.push(Item::Ask(lock_at(lock), mode))?;
        self.reach_lock(lock)
    }

    fn release(&mut self, lock: &'a LockPlace) -> Result<(), MemFault>
        ensures { OnOk result (Steps self.old self.new (λ s.
            Semantics.execution s (r.release (view_lock lock.now))) None) }
    {
        self.frame.todo.push(Item::Give(lock_at(lock)))?;
        self.reach_lock(lock)
    }

    /// The index of a lock comes before all else that is done with it.
    fn reach_lock(&mut self, lock: &'a LockPlace) -> Result<(), MemFault>
        ensures { OnOk result (Becomes self.old self.new (λ s.
            record s { todo = Semantics.reaching_lock (view_lock lock.now) s.todo })) }
    {
        if let LockPlace::Element(array, index, line) = lock {
            self.frame.todo.push(Item::TestIndex(*array, *line))?;
            self.frame.todo.push(Item::Evaluate(index))?;
        }
        Ok(())
    }

    fn print(&mut self, parts: &'a [Part]) -> Result<(), MemFault>
        ensures { OnOk result (Steps self.old self.new (λ s.
            Semantics.execution s (r.print (map view_part parts.now))) None) }
    {
        self.frame.todo.push(Item::Print(parts))?;
        self.frame.todo.push(Item::Gather(parts))
    }

    /// Executes statements from the first on.
    pub fn run(&mut self, statements: &'a [Statement]) -> Result<(), MemFault>
        ensures { OnOk result (Steps self.old self.new (λ s.
            Semantics.execution_of_all s (view_statements statements.now)) None) }
    {
        match statements.split_first() {
            None => Ok(()),
            Some((statement, rest)) => {
                self.frame.todo.push(Item::Run(rest))?;
                self.frame.todo.push(Item::Execute(statement))
            }
        }
    }

    /// Declares variables from the first on.
    pub fn declare(&mut self, variables: &'a [Variable]) -> Result<(), MemFault>
        ensures { OnOk result (Steps self.old self.new (λ s.
            Semantics.declaration s (map view_variable variables.now)) None) }
    {
        let Some((variable, rest)) = variables.split_first() else {
            return Ok(());
        };
        self.frame.todo.push(Item::Declare(rest))?;
        match &variable.initial {
            None => {
                set_at(&mut self.frame.slots, u64::from(variable.slot), 0);
                Ok(())
            }
            Some(e) => {
                self.frame.todo.push(Item::Discard)?;
                self.frame
                    .todo
                    .push(Item::Store(Place::Slot(variable.slot)))?;
                self.frame.todo.push(Item::Evaluate(e))
            }
        }
    }

    /// What comes behind the test of an `if`.
    pub fn branch(
        &mut self,
        body: &'a Statement,
        other: Option<&'a Statement>,
    ) -> Result<(), MemFault>
        ensures { OnOk result (Steps self.old self.new (λ s.
            Semantics.act [] s (branch (view_statement body.now) (other_of other.entry))) None) }
    {
        let chosen = if self.pop_condition() {
            Some(body)
        } else {
            other
        };
        match chosen {
            None => Ok(()),
            Some(statement) => self.frame.todo.push(Item::Execute(statement)),
        }
    }

    /// Goes on with a round of a loop, or wants to jump back.
    pub fn go(&mut self, stage: LoopStage, looping: Loop<'a>) -> Result<Option<Want>, MemFault>
        ensures { IfOk result (Steps self.old self.new (λ s.
            Semantics.act [] s (stage_of stage (loop_of looping.entry)))) }
    {
        match stage {
            LoopStage::Round => self.begin_round(looping)?,
            LoopStage::Decide => {
                if self.pop_condition() {
                    self.begin_body(looping)?;
                }
            }
            LoopStage::ThirdPart => {
                self.frame
                    .todo
                    .push(Item::Go(LoopStage::JumpBack, looping))?;
                if let Some(e) = looping.step {
                    self.evaluate_and_discard(e)?;
                }
            }
            LoopStage::JumpBack => return Ok(Some(Want::Quiet)),
        }
        Ok(None)
    }

    fn begin_round(&mut self, looping: Loop<'a>) -> Result<(), MemFault>
        ensures { OnOk result (Steps self.old self.new (λ s.
            Semantics.act [] s (States.round (loop_of looping.entry))) None) }
    {
        match looping.test {
            None => self.begin_body(looping),
            Some(e) => {
                self.frame.todo.push(Item::Go(LoopStage::Decide, looping))?;
                self.frame.todo.push(Item::Evaluate(e))
            }
        }
    }

    fn begin_body(&mut self, looping: Loop<'a>) -> Result<(), MemFault>
        ensures { OnOk result (Becomes self.old self.new (λ s.
            record s {
              todo = execute (loop_of looping.entry).body ∷ States.third_part
                  (loop_of looping.entry) ∷ s.todo;
            })) }
    {
        self.frame
            .todo
            .push(Item::Go(LoopStage::ThirdPart, looping))?;
        self.frame.todo.push(Item::Execute(looping.body))
    }

    /// Evaluates the values of a print from the left.
    pub fn gather(&mut self, parts: &'a [Part]) -> Result<(), MemFault>
        ensures { OnOk result (Steps self.old self.new (λ s.
            Semantics.gathering s (map view_part parts.now)) None) }
    {
        let Some((part, rest)) = parts.split_first() else {
            return Ok(());
        };
        self.frame.todo.push(Item::Gather(rest))?;
        match part {
            Part::Text(_) => Ok(()),
            Part::Value(e) => self.frame.todo.push(Item::Evaluate(e)),
        }
    }
}

/// A lock whose index, if it has one, is among the operands.
fn lock_at(lock: &LockPlace) -> LockAt
    ensures { lock_of result ≡ Semantics.lock_place_of (view_lock lock.now) }
{
    match lock {
        LockPlace::Single(lock, line) => LockAt::Single(*lock, *line),
        LockPlace::Element(array, _, line) => LockAt::Member(*array, *line),
    }
}

impl Frame<'_> {
    /// Goes on behind the innermost loop.
    fn leave_loop(&mut self)
        ensures { frame_of self.new ≡ record (frame_of self.old) {
          todo = Semantics.after_loop
              (frame_of self.old).todo;
        } }
    {
        while let Some(item) = self.todo.pop() {
            if is_third_part(item) {
                return;
            }
        }
    }

    /// Goes on behind the body of the innermost loop.
    fn leave_body(&mut self)
        ensures { frame_of self.new ≡ record (frame_of self.old) {
          todo = Semantics.after_body
              (frame_of self.old).todo;
        } }
    {
        while let Some(item) = self.todo.top() {
            if is_third_part(item) {
                return;
            }
            self.todo.pop();
        }
    }
}

/// Whether the item comes right behind the body of a loop.
fn is_third_part(item: Item<'_>) -> bool
    ensures in_loop { (k : List States.Item) → Semantics.after_loop (item_of item.entry ∷ k) ≡
        (if result then k else Semantics.after_loop k) }
    ensures in_body { (k : List States.Item) → Semantics.after_body (item_of item.entry ∷ k) ≡
        (if result then item_of item.entry ∷ k else Semantics.after_body k) }
{
    matches!(item, Item::Go(LoopStage::ThirdPart, _))
}
