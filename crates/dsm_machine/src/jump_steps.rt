//! Jumps, calls and returns.

ghost use Rattle.std.specs.Prelude.{◌≡◌, ◌+◌, ◌-◌, ◌<◌, ◌^◌, ℕ, ℤ, List, ◌∷◌, length, nat_lt, if◌then◌else◌, Some};
ghost use Rattle.dsm_values.specs.Values;
ghost use Rattle.dsm_code.specs.Instructions.{top, below};
ghost use Rattle.dsm_code.specs.Programs.{Function, function_at};
ghost use Rattle.dsm_code.specs.Machine as m;
ghost use Rattle.dsm_code.specs.Finished.{returned};
ghost use Rattle.dsm_machine.specs.States.{state_in, Steps, Becomes, IsRoomy, IsRoomyIn, CanReturn};

use crate::machine::{MOST_DEPTH, Machine};
use dsm_base::{Fault, Want};
use std::mem;

impl Machine {
    /// Leaves out so many instructions.
    pub fn go_on(&mut self, count: u32)
        requires { self.old.frame.place < 2 ^ 32 }
        ensures state { Becomes self.old self.new (λ s.
            record s { place = s.place + 1 + count }) }
        ensures roomy { IsRoomy self.old → IsRoomy self.new }
    {
        self.frame.place += 1 + count as usize;
    }

    /// Takes the value on top, and leaves out so many instructions where it is 0.
    pub fn skip_if_zero(&mut self, count: u32)
        requires { self.old.frame.place < 2 ^ 32 }
        ensures state { Becomes self.old self.new (λ s. record s {
          place = (if Values.holds (top s.operands) then s.place + 1 else s.place + 1 + count);
          operands = below s.operands;
        }) }
        ensures roomy { IsRoomy self.old → IsRoomy self.new }
    {
        self.frame.place += 1;
        if self.frame.operands.pop_value() == 0 {
            self.frame.place += count as usize;
        }
    }

    /// Goes back by so many places.
    pub fn go_back(&mut self, count: u32)
        ensures state { Becomes self.old self.new (λ s. record s { place = s.place - count }) }
        ensures roomy { IsRoomy self.old → IsRoomy self.new }
    {
        self.frame.place = self.frame.place.saturating_sub(count as usize);
    }

    /// Wants to enter a function, where it isn't one too many.
    pub fn enter(&self, line: u32) -> Want
        ensures { (number : ℕ) (f : Function) →
            Steps self.now self.now (λ s. m.entering s number line f) (Some result) }
    {
        if self.outer.len() < MOST_DEPTH - 1 {
            Want::Quiet
        } else {
            Want::Stop(Fault::Depth, line)
        }
    }

    /// Wants to leave the innermost function.
    pub fn leave_function(&self) -> Want
        ensures { (value : ℤ) → Steps self.now self.now (λ s. m.returns s value s.outer)
            (Some result) }
    {
        if self.outer.len() == 0 {
            Want::End
        } else {
            Want::Quiet
        }
    }

    /// Calls the function of a number, with its arguments on top.
    fn call(&mut self, number: u16)
        requires few { length self.old.outer.values < 255 }
        requires roomy { IsRoomy self.old }
        ensures state { Becomes self.old self.new (λ s.
            m.entered s number (function_at s.program number)) }
        ensures roomy { IsRoomy self.new }
    {
        let code = self.code.as_ref();
        let params = usize::from(code.params(number));
        let slots = usize::from(code.slots(number));
        let Some(mut callee) = self.spare.pop() else {
            unreachable!();
        };
        callee.begin(number, self.frame.operands.topmost(params), slots);
        self.frame.operands.drop_topmost(params);
        self.outer.push(mem::replace(&mut self.frame, callee));
    }

    /// Enters the function of a number, where it isn't one too many.
    pub fn finish_enter(&mut self, number: u16)
        requires { IsRoomy self.old }
        ensures state { Becomes self.old self.new (λ s. if nat_lt (length s.outer + 1) 256
            then m.entered s number (function_at s.program number)
            else s) }
        ensures roomy { IsRoomyIn self.new self.new.life }
    {
        if self.outer.len() < MOST_DEPTH - 1 {
            self.call(number);
        }
    }

    /// Leaves the innermost function with the value on top; where it is main, the thread has ended.
    pub fn finish_leave(&mut self)
        requires roomy { IsRoomy self.old }
        requires callers { (caller : m.Frame) (callers : List m.Frame) →
            (state_in self.old).outer ≡ caller ∷ callers →
            CanReturn self.old.code.value caller }
        ensures state { Becomes self.old self.new (λ s. returned s (top s.operands) s.outer) }
        ensures roomy { IsRoomyIn self.new self.new.life }
    {
        let value = self.frame.operands.value();
        match self.outer.pop() {
            None => self.end(),
            Some(caller) => {
                let callee = mem::replace(&mut self.frame, caller);
                self.spare.push(callee);
                self.frame.operands.push(value);
                self.frame.place += 1;
            }
        }
    }
}
