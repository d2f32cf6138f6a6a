//! The code of expressions. Each is written before what is written already.

ghost use Rattle.std.specs.Prelude.{◌≡◌, ◌+◌, ◌++◌, List, length, OnOk};
ghost use Rattle.dsm_check.specs.Views.{view, view_location, views};
ghost use Rattle.dsm_check.specs.Resolved as r;
ghost use Rattle.dsm_semantics.specs.Assignments;
ghost use Rattle.dsm_code.specs.declared.parts.Row.{Row as DeclaredRow};
ghost use Rattle.dsm_laws_code.specs.Expressions.{reaching_code, expression_code, arguments_code, second_code, and_code, or_code, second_depth, chosen_code, assigning_code, assigned_depth};
ghost use Rattle.dsm_compile.specs.Drafts.{with_code};

use crate::instruction::{array_of, depth_at, loading};
use crate::writer::{Writer, small, sum};
use dsm_base::MemFault;
use dsm_check::{Expression, Location};
use dsm_code::{Instr, Use};
use dsm_syntax::{AssignOp, BinaryOp, StepOp};

/// The operator of an assignment that changes what is there.
fn operator_of(op: AssignOp) -> Option<BinaryOp>
    ensures { result ≡ Assignments.operator_of op }
{
    match op {
        AssignOp::Set => None,
        AssignOp::Plus => Some(BinaryOp::Plus),
        AssignOp::Minus => Some(BinaryOp::Minus),
        AssignOp::Times => Some(BinaryOp::Times),
        AssignOp::Divide => Some(BinaryOp::Divide),
        AssignOp::Remainder => Some(BinaryOp::Remainder),
        AssignOp::BitAnd => Some(BinaryOp::BitAnd),
        AssignOp::BitOr => Some(BinaryOp::BitOr),
        AssignOp::BitXor => Some(BinaryOp::BitXor),
        AssignOp::ShiftLeft => Some(BinaryOp::ShiftLeft),
        AssignOp::ShiftRight => Some(BinaryOp::ShiftRight),
    }
}

impl Writer<'_> {
    /// An expression, before which there are so many operands.
    #[cycle(expression)]
    pub fn expression(&mut self, depth: u32, e: &Expression) -> Result<(), MemFault>
        ensures { OnOk result (self.new ≡
            with_code (expression_code self.old.pieces depth (view e.now)) self.old) }
    {
        match e {
            Expression::Number(n) => self.put(depth, Instr::Push(*n)),
            Expression::Load(location) => {
                self.put(depth_at(depth, location)?, loading(location, Use::Value))?;
                self.reach(depth, location)
            }
            Expression::Call(function, arguments, line) => {
                self.call(depth, *function, arguments.as_slice(), *line)
            }
            Expression::Unary(op, line, e) => {
                self.put(sum(depth, 1)?, Instr::Unary(*op, *line))?;
                self.expression(depth, e)
            }
            Expression::Prefix(op, line, location) => {
                self.step_before(depth, *op, *line, location)
            }
            Expression::Postfix(location, op, line) => {
                self.step_behind(depth, location, *op, *line)
            }
            Expression::Binary(a, op, line, b) => {
                self.second(depth, *op, *line, b)?;
                self.expression(depth, a)
            }
            Expression::Choice(test, a, b) => {
                let after = self.len();
                self.expression(depth, b)?;
                self.first(depth, after, a)?;
                self.expression(depth, test)
            }
            Expression::Assign(location, op, line, e) => {
                let load = loading(location, Use::Change);
                let store = self.storing(location);
                self.assign(depth_at(depth, location)?, *op, *line, load, store, e)?;
                self.reach(depth, location)
            }
        }
    }

    /// The index of a location, if it has one, which is tested.
    #[cycle(expression)]
    fn reach(&mut self, depth: u32, location: &Location) -> Result<(), MemFault>
        ensures { OnOk result (self.new ≡
            with_code (reaching_code self.old.pieces depth (view_location location.now)) self.old) }
    {
        if let Location::Element(_, array, index, line) = location {
            self.put(sum(depth, 1)?, Instr::TestIndex(array_of(*array), *line))?;
            self.expression(depth, index)?;
        }
        Ok(())
    }

    /// Arguments from the left.
    #[cycle(expression)]
    fn arguments(&mut self, depth: u32, arguments: &[Expression]) -> Result<(), MemFault>
        ensures { OnOk result (self.new ≡
            with_code (arguments_code self.old.pieces depth (views arguments.now)) self.old) }
    {
        for at in (0..arguments.len()).rev() {
            self.expression(sum(depth, small(at)?)?, &arguments[at])?;
        }
        Ok(())
    }

    /// A call.
    #[cycle(expression)]
    fn call(
        &mut self,
        depth: u32,
        function: u16,
        arguments: &[Expression],
        line: u32,
    ) -> Result<(), MemFault>
        ensures { OnOk result (self.new ≡ with_code (expression_code self.old.pieces depth
            (r.call function (views arguments.now) line)) self.old) }
    {
        let count = small(arguments.len())?;
        self.put(sum(depth, count)?, Instr::Enter(function, line))?;
        self.arguments(depth, arguments)
    }

    /// A step before the location.
    #[cycle(expression)]
    fn step_before(
        &mut self,
        depth: u32,
        op: StepOp,
        line: u32,
        location: &Location,
    ) -> Result<(), MemFault>
        ensures { OnOk result (self.new ≡ with_code (expression_code self.old.pieces depth
            (r.prefix op line (view_location location.now))) self.old) }
    {
        let at = depth_at(depth, location)?;
        let loaded = sum(at, 1)?;
        self.put(loaded, self.storing(location))?;
        self.put(loaded, Instr::StepBy(op, line))?;
        self.put(at, loading(location, Use::Change))?;
        self.reach(depth, location)
    }

    /// A step behind the location.
    #[cycle(expression)]
    fn step_behind(
        &mut self,
        depth: u32,
        location: &Location,
        op: StepOp,
        line: u32,
    ) -> Result<(), MemFault>
        ensures { OnOk result (self.new ≡ with_code (expression_code self.old.pieces depth
            (r.postfix (view_location location.now) op line)) self.old) }
    {
        let at = depth_at(depth, location)?;
        let loaded = sum(at, 2)?;
        self.put(sum(depth, 2)?, Instr::Discard)?;
        self.put(loaded, self.storing(location))?;
        self.put(loaded, Instr::StepBy(op, line))?;
        self.put(at, loading(location, Use::StepBehind))?;
        self.reach(depth, location)
    }

    /// What comes behind the first operand of an operator.
    #[cycle(expression)]
    fn second(
        &mut self,
        depth: u32,
        op: BinaryOp,
        line: u32,
        e: &Expression,
    ) -> Result<(), MemFault>
        ensures { OnOk result (self.new ≡ with_code (second_code op line depth
            (expression_code self.old.pieces (second_depth op depth) (view e.now))) self.old) }
    {
        match op {
            BinaryOp::And => self.and_then(depth, e),
            BinaryOp::Or => self.or_else(depth, e),
            _ => {
                self.put(sum(depth, 2)?, Instr::Binary(op, line))?;
                self.expression(sum(depth, 1)?, e)
            }
        }
    }

    /// What comes behind the first operand of `&&`.
    #[cycle(expression)]
    fn and_then(&mut self, depth: u32, e: &Expression) -> Result<(), MemFault>
        ensures { OnOk result (self.new ≡ with_code
            (and_code depth (expression_code self.old.pieces depth (view e.now))) self.old) }
    {
        let tested = sum(depth, 1)?;
        self.put(depth, Instr::Push(0))?;
        let after = self.len();
        self.put(tested, Instr::GoOn(1))?;
        self.put(tested, Instr::ToTruth)?;
        self.expression(depth, e)?;
        let count = self.count_since(after)?;
        self.put(tested, Instr::SkipIfZero(count))
    }

    /// What comes behind the first operand of `||`.
    #[cycle(expression)]
    fn or_else(&mut self, depth: u32, e: &Expression) -> Result<(), MemFault>
        ensures { OnOk result (self.new ≡ with_code
            (or_code depth (expression_code self.old.pieces depth (view e.now))) self.old) }
    {
        let tested = sum(depth, 1)?;
        let after = self.len();
        self.put(tested, Instr::ToTruth)?;
        self.expression(depth, e)?;
        let count = self.count_since(after)?;
        self.put(tested, Instr::GoOn(count))?;
        self.put(depth, Instr::Push(1))?;
        self.put(tested, Instr::SkipIfZero(2))
    }

    /// The first of two expressions by the value on top, below which there are so many operands; what was
    /// written since there were so many instructions is the second one.
    #[cycle(expression)]
    fn first(&mut self, depth: u32, after: usize, e: &Expression) -> Result<(), MemFault>
        ensures { (second rest : List DeclaredRow) → self.old.rows ≡ second ++ rest →
            length rest ≡ after → OnOk result (self.new ≡ record self.old {
              rows = chosen_code (depth + 1) (depth + 1)
                  (expression_code self.old.pieces depth (view e.now)) second ++ rest;
            }) }
    {
        let tested = sum(depth, 1)?;
        let second = self.count_since(after)?;
        let after = self.len();
        self.put(tested, Instr::GoOn(second))?;
        self.expression(depth, e)?;
        let first = self.count_since(after)?;
        self.put(tested, Instr::SkipIfZero(first))
    }

    /// What an assignment does behind the index of its location, by the load and the store of this.
    #[cycle(expression)]
    fn assign(
        &mut self,
        depth: u32,
        op: AssignOp,
        line: u32,
        load: Instr,
        store: Instr,
        e: &Expression,
    ) -> Result<(), MemFault>
        ensures { let op = Assignments.operator_of op in OnOk result (self.new ≡
            with_code (assigning_code op line depth load store
            (expression_code self.old.pieces (assigned_depth op depth) (view e.now))) self.old) }
    {
        let assigned = sum(depth, 1)?;
        self.put(assigned, store)?;
        match operator_of(op) {
            None => self.expression(depth, e),
            Some(op) => {
                self.put(sum(depth, 2)?, Instr::Binary(op, line))?;
                self.expression(assigned, e)?;
                self.put(depth, load)
            }
        }
    }
}
