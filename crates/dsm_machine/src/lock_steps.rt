//! Locks that a thread wants.

ghost use Rattle.std.specs.Prelude.{◌≡◌, ◌<◌, ◌^◌, Some};
ghost use Rattle.dsm_base.specs.Steps.{asks};
ghost use Rattle.dsm_base.specs.declared.label.Want.{Want};
ghost use Rattle.dsm_code.specs.declared.instruction.Instr.{Instr};
ghost use Rattle.dsm_code.specs.Instructions.{top, number_at, below_index};
ghost use Rattle.dsm_code.specs.Machine as m;
ghost use Rattle.dsm_machine.specs.States.{state_in, Steps, Becomes, IsRoomy, CanDo};

use crate::machine::Machine;
use dsm_base::{Fault, Lock, Mode, Want};
use dsm_code::Target;

impl Machine {
    pub fn ask(&self, target: Target, mode: Mode, line: u32) -> Want
        requires { CanDo self.now (Instr.Ask target mode line) }
        ensures { Steps self.now self.now (λ s.
            m.at_number s line (number_at target (top s.operands))
            (λ n. asks (Want.Ask (record { 0 = n }) mode line) (λ answer. m.onward s s.operands)))
            (Some result) }
    {
        match target.small_number(self.frame.operands.value()) {
            Some(number) => Want::Ask(Lock(number), mode, line),
            None => Want::Stop(Fault::Index, line),
        }
    }

    pub fn take(&self, target: Target, mode: Mode, line: u32) -> Want
        requires { CanDo self.now (Instr.Take target mode line) }
        ensures { Steps self.now self.now (λ s.
            m.at_number s line (number_at target (top s.operands))
            (λ n. asks (Want.Take (record { 0 = n }) mode)
            (λ answer. m.onward s (below_index target s.operands)))) (Some result) }
    {
        match target.small_number(self.frame.operands.value()) {
            Some(number) => Want::Take(Lock(number), mode),
            None => Want::Stop(Fault::Index, line),
        }
    }

    pub fn give(&self, target: Target, line: u32) -> Want
        requires { CanDo self.now (Instr.Give target line) }
        ensures { Steps self.now self.now (λ s.
            m.at_number s line (number_at target (top s.operands))
            (λ n. asks (Want.Give (record { 0 = n }) line)
            (λ answer. m.onward s (below_index target s.operands)))) (Some result) }
    {
        match target.small_number(self.frame.operands.value()) {
            Some(number) => Want::Give(Lock(number), line),
            None => Want::Stop(Fault::Index, line),
        }
    }

    /// Goes on behind the instruction.
    pub fn go_onward(&mut self)
        requires { self.old.frame.place < 2 ^ 32 }
        ensures state { Becomes self.old self.new (λ s. m.onward s s.operands) }
        ensures roomy { IsRoomy self.old → IsRoomy self.new }
    {
        self.frame.place += 1;
    }

    /// Drops the index of a lock, if it has one, and goes on.
    pub fn finish_lock(&mut self, target: Target)
        requires { self.old.frame.place < 2 ^ 32 }
        ensures state { Becomes self.old self.new (λ s.
            m.onward s (below_index target s.operands)) }
        ensures roomy { IsRoomy self.old → IsRoomy self.new }
    {
        self.frame.place += 1;
        if let Target::Member(_) = target {
            self.frame.operands.pop_value();
        }
    }
}
