//! Steps that touch operands alone.

ghost use Rattle.std.specs.Prelude.{◌≡◌, ◌+◌, ◌<◌, ◌≤◌, ◌^◌, [], ◌∷◌, pos, get_or, set, length};
ghost use Rattle.dsm_values.specs.Values;
ghost use Rattle.dsm_code.specs.declared.instruction.Instr.{Instr};
ghost use Rattle.dsm_code.specs.Instructions.{top, below, loaded, loaded_count};
ghost use Rattle.dsm_code.specs.Machine as m;
ghost use Rattle.dsm_machine.specs.States.{state_in, Steps, Becomes, IsRoomy, CanDo};

use crate::machine::Machine;
use dsm_base::{Fault, Want};
use dsm_code::Use;
use dsm_syntax::{BinaryOp, StepOp, UnaryOp};
use dsm_values::{binary_value, step_value, unary_value};

impl Machine {
    /// Puts a value on top.
    pub fn push(&mut self, value: i64)
        requires { CanDo self.old (Instr.Push value) }
        ensures state { Becomes self.old self.new (λ s. m.onward s (value ∷ s.operands)) }
        ensures roomy { IsRoomy self.old → IsRoomy self.new }
    {
        self.frame.operands.push(value);
        self.frame.place += 1;
    }

    /// Takes the value on top.
    pub fn discard(&mut self)
        requires { CanDo self.old Instr.Discard }
        ensures state { Becomes self.old self.new (λ s. m.onward s (below s.operands)) }
        ensures roomy { IsRoomy self.old → IsRoomy self.new }
    {
        self.frame.operands.pop_value();
        self.frame.place += 1;
    }

    /// Loads a parameter or variable.
    pub fn load_slot(&mut self, number: u8, way: Use)
        requires { CanDo self.old (Instr.LoadSlot number way) }
        ensures state { Becomes self.old self.new (λ s.
            m.onward s (loaded way [] s.operands (get_or s.slots number (pos 0)))) }
        ensures roomy { IsRoomy self.old → IsRoomy self.new }
    {
        let value = self.frame.slots.get(number);
        self.frame.place += 1;
        self.leave_loaded(way, value);
    }

    /// Leaves a value that has no index.
    pub fn leave_loaded(&mut self, way: Use, value: i64)
        requires { length self.old.frame.operands.values + loaded_count way 0 ≤
            self.old.frame.operands.room }
        ensures state { Becomes self.old self.new (λ s.
            record s { operands = loaded way [] s.operands value }) }
        ensures roomy { IsRoomy self.old → IsRoomy self.new }
    {
        match way {
            Use::Value | Use::Change => self.frame.operands.push(value),
            Use::StepBehind => {
                self.frame.operands.push(value);
                self.frame.operands.push(value);
            }
        }
    }

    /// Stores the value on top in a parameter or variable.
    pub fn store_slot(&mut self, number: u8)
        requires { CanDo self.old (Instr.StoreSlot number) }
        ensures state { Becomes self.old self.new (λ s.
            record (m.onward s s.operands) { slots = set s.slots number (top s.operands) }) }
        ensures roomy { IsRoomy self.old → IsRoomy self.new }
    {
        self.frame.slots.set(number, self.frame.operands.value());
        self.frame.place += 1;
    }

    /// Puts what an operator came to in place of the value on top.
    fn come_to(&mut self, line: u32, outcome: Result<i64, Fault>) -> Option<Want>
        requires place { self.old.frame.place < 2 ^ 32 }
        requires operands { 1 ≤ length self.old.frame.operands.values }
        requires room { length self.old.frame.operands.values ≤ self.old.frame.operands.room }
        ensures makes { Steps self.old self.new (λ s.
            m.comes_to s (below s.operands) line outcome) result }
        ensures roomy { IsRoomy self.old → IsRoomy self.new }
    {
        match outcome {
            Ok(value) => {
                self.frame.operands.pop_value();
                self.frame.operands.push(value);
                self.frame.place += 1;
                None
            }
            Err(fault) => Some(Want::Stop(fault, line)),
        }
    }

    pub fn unary(&mut self, op: UnaryOp, line: u32) -> Option<Want>
        requires { CanDo self.old (Instr.Unary op line) }
        ensures makes { Steps self.old self.new (λ s.
            m.comes_to s (below s.operands) line (Values.unary_value op (top s.operands))) result }
        ensures roomy { IsRoomy self.old → IsRoomy self.new }
    {
        let outcome = unary_value(op, self.frame.operands.value());
        self.come_to(line, outcome)
    }

    pub fn step_by(&mut self, op: StepOp, line: u32) -> Option<Want>
        requires { CanDo self.old (Instr.StepBy op line) }
        ensures makes { Steps self.old self.new (λ s.
            m.comes_to s (below s.operands) line (Values.step_value op (top s.operands))) result }
        ensures roomy { IsRoomy self.old → IsRoomy self.new }
    {
        let outcome = step_value(op, self.frame.operands.value());
        self.come_to(line, outcome)
    }

    pub fn binary(&mut self, op: BinaryOp, line: u32) -> Option<Want>
        requires { CanDo self.old (Instr.Binary op line) }
        ensures makes { Steps self.old self.new (λ s.
            m.comes_to s (below (below s.operands)) line
            (Values.binary_value op (top (below s.operands)) (top s.operands))) result }
        ensures roomy { IsRoomy self.old → IsRoomy self.new }
    {
        let operands = &mut self.frame.operands;
        match binary_value(op, operands.value_below(), operands.value()) {
            Ok(value) => {
                operands.pop_value();
                operands.pop_value();
                operands.push(value);
                self.frame.place += 1;
                None
            }
            Err(fault) => Some(Want::Stop(fault, line)),
        }
    }

    /// Leaves 1 in place of what isn't 0.
    pub fn to_truth(&mut self)
        requires { CanDo self.old Instr.ToTruth }
        ensures state { Becomes self.old self.new (λ s.
            m.onward s (Values.truth (Values.holds (top s.operands)) ∷ below s.operands)) }
        ensures roomy { IsRoomy self.old → IsRoomy self.new }
    {
        let value = self.frame.operands.pop_value();
        self.frame.operands.push(i64::from(value != 0));
        self.frame.place += 1;
    }
}
