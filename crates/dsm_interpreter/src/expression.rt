//! Expressions.

ghost use Rattle.std.specs.Prelude.{◌≡◌, [], None, OnOk, IfOk};
ghost use Rattle.dsm_check.specs.Views.{view, view_location, views};
ghost use Rattle.dsm_semantics.specs.States.{and_then, or_else, to_truth, choose, top, below};
ghost use Rattle.dsm_semantics.specs.Assignments;
ghost use Rattle.dsm_values.specs.Values;
ghost use Rattle.dsm_semantics.specs.Semantics;
ghost use Rattle.dsm_check.specs.Resolved as r;
ghost use Rattle.dsm_interpreter.specs.Threads.{Becomes, Steps, state_in};

use crate::execution::Execution;
use crate::item::{Item, Use};
use crate::location::place;
use crate::operands::{pop_value, top_value, value_below};
use dsm_base::{Fault, MemFault, Want};
use dsm_check::{Expression, Location};
use dsm_syntax::{AssignOp, BinaryOp, StepOp, UnaryOp};
use dsm_values::{binary_value, step_value, unary_value};

impl<'a> Execution<'a> {
    /// Begins an expression.
    pub fn evaluate(&mut self, e: &'a Expression) -> Result<(), MemFault>
        ensures { OnOk result (Steps self.old self.new (λ s.
            Semantics.evaluation s (view e.now)) None) }
    {
        match e {
            Expression::Number(n) => self.frame.operands.push(*n),
            Expression::Load(location) => {
                self.frame
                    .todo
                    .push(Item::Load(place(location), Use::Value))?;
                self.reach(location)
            }
            Expression::Call(function, arguments, line) => {
                self.frame.todo.push(Item::Enter(*function, *line))?;
                self.frame
                    .todo
                    .push(Item::EvaluateAll(arguments.as_slice()))
            }
            Expression::Unary(op, line, e) => {
                self.frame.todo.push(Item::Unary(*op, *line))?;
                self.frame.todo.push(Item::Evaluate(e))
            }
            Expression::Prefix(op, line, location) => self.step_before(*op, *line, location),
            Expression::Postfix(location, op, line) => self.step_behind(location, *op, *line),
            Expression::Binary(a, op, line, b) => {
                self.second(*op, *line, b)?;
                self.frame.todo.push(Item::Evaluate(a))
            }
            Expression::Choice(test, a, b) => {
                self.frame.todo.push(Item::Choose(a, b))?;
                self.frame.todo.push(Item::Evaluate(test))
            }
            Expression::Assign(location, op, line, e) => {
                self.assign(location, *op, *line, e)?;
                self.reach(location)
            }
        }
    }

    fn step_before(&mut self, op: StepOp, line: u32, location: &'a Location) -> Result<(), MemFault>
        ensures { OnOk result (Steps self.old self.new (λ s.
            Semantics.evaluation s (r.prefix op line (view_location location.now))) None) }
    {
        self.frame.todo.push(Item::Store(place(location)))?;
        self.frame.todo.push(Item::StepBy(op, line))?;
        self.frame
            .todo
            .push(Item::Load(place(location), Use::Change))?;
        self.reach(location)
    }

    fn step_behind(&mut self, location: &'a Location, op: StepOp, line: u32) -> Result<(), MemFault>
        ensures { OnOk result (Steps self.old self.new (λ s.
            Semantics.evaluation s (r.postfix (view_location location.now) op line)) None) }
    {
        self.frame.todo.push(Item::Discard)?;
        self.frame.todo.push(Item::Store(place(location)))?;
        self.frame.todo.push(Item::StepBy(op, line))?;
        self.frame
            .todo
            .push(Item::Load(place(location), Use::StepBehind))?;
        self.reach(location)
    }

    /// What comes behind the first operand.
    fn second(&mut self, op: BinaryOp, line: u32, e: &'a Expression) -> Result<(), MemFault>
        ensures { OnOk result (Becomes self.old self.new (λ s.
            record s { todo = Semantics.second op line (view e.now) s.todo })) }
    {
        match op {
            BinaryOp::And => self.frame.todo.push(Item::AndThen(e)),
            BinaryOp::Or => self.frame.todo.push(Item::OrElse(e)),
            _ => {
                self.frame.todo.push(Item::Binary(op, line))?;
                self.frame.todo.push(Item::Evaluate(e))
            }
        }
    }

    /// What comes behind the index of an assignment's location.
    fn assign(
        &mut self,
        location: &'a Location,
        op: AssignOp,
        line: u32,
        e: &'a Expression,
    ) -> Result<(), MemFault>
        ensures { OnOk result (Becomes self.old self.new (λ s.
            record s {
              todo = Semantics.assigning (Assignments.operator_of op) line
                  (Semantics.place_of (view_location location.now)) (view e.now) s.todo;
            })) }
    {
        let place = place(location);
        self.frame.todo.push(Item::Store(place))?;
        match operator_of(op) {
            None => self.frame.todo.push(Item::Evaluate(e)),
            Some(op) => {
                self.frame.todo.push(Item::Binary(op, line))?;
                self.frame.todo.push(Item::Evaluate(e))?;
                self.frame.todo.push(Item::Load(place, Use::Change))
            }
        }
    }

    /// Evaluates arguments from the left.
    pub fn evaluate_all(&mut self, arguments: &'a [Expression]) -> Result<(), MemFault>
        ensures { OnOk result (Steps self.old self.new (λ s.
            Semantics.evaluation_of_all s (views arguments.now)) None) }
    {
        match arguments.split_first() {
            None => Ok(()),
            Some((e, rest)) => {
                self.frame.todo.push(Item::EvaluateAll(rest))?;
                self.frame.todo.push(Item::Evaluate(e))
            }
        }
    }

    pub fn unary(&mut self, op: UnaryOp, line: u32) -> Result<Option<Want>, MemFault>
        ensures { IfOk result (Steps self.old self.new (λ s.
            Semantics.comes_to s (below s.operands) line
            (Values.unary_value op (top s.operands)))) }
    {
        let outcome = unary_value(op, top_value(&self.frame.operands));
        self.come_to(line, outcome)
    }

    pub fn step_by(&mut self, op: StepOp, line: u32) -> Result<Option<Want>, MemFault>
        ensures { IfOk result (Steps self.old self.new (λ s.
            Semantics.comes_to s (below s.operands) line (Values.step_value op (top s.operands)))) }
    {
        let outcome = step_value(op, top_value(&self.frame.operands));
        self.come_to(line, outcome)
    }

    pub fn binary(&mut self, op: BinaryOp, line: u32) -> Result<Option<Want>, MemFault>
        ensures { IfOk result (Steps self.old self.new (λ s.
            Semantics.comes_to s (below (below s.operands)) line
            (Values.binary_value op (top (below s.operands)) (top s.operands)))) }
    {
        let a = value_below(&self.frame.operands);
        let b = top_value(&self.frame.operands);
        match binary_value(op, a, b) {
            Ok(value) => {
                pop_value(&mut self.frame.operands);
                pop_value(&mut self.frame.operands);
                self.frame.operands.push(value)?;
                Ok(None)
            }
            Err(fault) => Ok(Some(Want::Stop(fault, line))),
        }
    }

    /// Puts what an operator came to in place of the value on top.
    fn come_to(&mut self, line: u32, outcome: Result<i64, Fault>) -> Result<Option<Want>, MemFault>
        ensures { IfOk result (Steps self.old self.new (λ s.
            Semantics.comes_to s (below s.operands) line outcome)) }
    {
        match outcome {
            Ok(value) => {
                pop_value(&mut self.frame.operands);
                self.frame.operands.push(value)?;
                Ok(None)
            }
            Err(fault) => Ok(Some(Want::Stop(fault, line))),
        }
    }

    /// Takes the value on top, and tells whether it holds as a condition.
    pub fn pop_condition(&mut self) -> bool
        ensures value { result ≡ Values.holds (top (state_in self.old).operands) }
        ensures state { Becomes self.old self.new (λ s. record s { operands = below s.operands }) }
    {
        pop_value(&mut self.frame.operands) != 0
    }

    /// The second operand of `&&`, where the first holds.
    pub fn and_then(&mut self, e: &'a Expression) -> Result<(), MemFault>
        ensures { OnOk result (Steps self.old self.new (λ s.
            Semantics.act [] s (and_then (view e.now))) None) }
    {
        if self.pop_condition() {
            self.frame.todo.push(Item::ToTruth)?;
            self.frame.todo.push(Item::Evaluate(e))
        } else {
            self.frame.operands.push(0)
        }
    }

    /// The second operand of `||`, where the first doesn't hold.
    pub fn or_else(&mut self, e: &'a Expression) -> Result<(), MemFault>
        ensures { OnOk result (Steps self.old self.new (λ s.
            Semantics.act [] s (or_else (view e.now))) None) }
    {
        if self.pop_condition() {
            self.frame.operands.push(1)
        } else {
            self.frame.todo.push(Item::ToTruth)?;
            self.frame.todo.push(Item::Evaluate(e))
        }
    }

    pub fn to_truth(&mut self) -> Result<(), MemFault>
        ensures { OnOk result (Steps self.old self.new (λ s. Semantics.act [] s to_truth) None) }
    {
        let value = i64::from(self.pop_condition());
        self.frame.operands.push(value)
    }

    pub fn choose(&mut self, a: &'a Expression, b: &'a Expression) -> Result<(), MemFault>
        ensures { OnOk result (Steps self.old self.new (λ s.
            Semantics.act [] s (choose (view a.now) (view b.now))) None) }
    {
        if self.pop_condition() {
            self.frame.todo.push(Item::Evaluate(a))
        } else {
            self.frame.todo.push(Item::Evaluate(b))
        }
    }
}

/// The operator of an assignment that changes what is there.
fn operator_of(op: AssignOp) -> Option<BinaryOp>
    ensures { result ≡ Assignments.operator_of op }
{
    match op {
        AssignOp::Set => None,
        AssignOp::Plus => Some(BinaryOp::Plus),
        AssignOp::Minus => Some(BinaryOp::Minus),
        AssignOp::Times => Some(BinaryOp::Times),
        AssignOp::Divide => Some(BinaryOp::Divide),
        AssignOp::Remainder => Some(BinaryOp::Remainder),
        AssignOp::BitAnd => Some(BinaryOp::BitAnd),
        AssignOp::BitOr => Some(BinaryOp::BitOr),
        AssignOp::BitXor => Some(BinaryOp::BitXor),
        AssignOp::ShiftLeft => Some(BinaryOp::ShiftLeft),
        AssignOp::ShiftRight => Some(BinaryOp::ShiftRight),
    }
}
