//! What labelled steps leave.

ghost use Rattle.std.specs.Prelude.{◌≡◌, ◌<◌, ◌^◌, List, ◌∷◌, drop};
ghost use Rattle.dsm_base.specs.declared.label.Label.{Label};
ghost use Rattle.dsm_base.specs.Steps.{want_of};
ghost use Rattle.dsm_base.specs.Threads.{Completes};
ghost use Rattle.dsm_code.specs.Machine as m;
ghost use Rattle.dsm_code.specs.Programs.{print_at, values_in};
ghost use Rattle.dsm_code.specs.Finished.{finished, finished_in};
ghost use Rattle.dsm_machine.specs.declared.machine.Life.{Life};
ghost use Rattle.dsm_machine.specs.Standing.{Asks};
ghost use Rattle.dsm_machine.specs.States.{state_in, Becomes, IsRoomy, IsRoomyIn, IsFit, CanDo, CanReturn};

use crate::machine::{Life, Machine};
use dsm_base::Want;
use dsm_code::{Instr, values_in};

impl Machine {
    /// Takes the values of a print, and goes on.
    fn finish_print(&mut self, number: u32)
        requires { self.old.frame.place < 2 ^ 32 }
        ensures state { Becomes self.old self.new (λ s.
            m.onward s (drop (values_in (print_at s.program number)) s.operands)) }
        ensures roomy { IsRoomy self.old → IsRoomy self.new }
    {
        let count = values_in(self.print_parts(number));
        self.frame.operands.drop_topmost(count);
        self.frame.place += 1;
    }

    /// Completes the labelled step of an instruction; the answer is the value of a load.
    #[tactic(auto, using(crate::proofs::Fits::roomy_in))]
    fn finish_instruction(&mut self, instr: Instr, answer: i64)
        requires can { CanDo self.old instr }
        requires callers { (caller : m.Frame) (callers : List m.Frame) →
            (state_in self.old).outer ≡ caller ∷ callers →
            CanReturn self.old.code.value caller }
        requires roomy { IsRoomy self.old }
        ensures state { Becomes self.old self.new (λ s. finished s answer instr) }
        ensures roomy { IsRoomyIn self.new self.new.life }
    {
        match instr {
            Instr::Load(target, way, _) => self.leave(target, way, answer),
            Instr::Store(target, _, _) => self.drop_index_below(target),
            Instr::GoBack(count) => self.go_back(count),
            Instr::Enter(number, _) => self.finish_enter(number),
            Instr::Leave => self.finish_leave(),
            Instr::Ask(_, _, _) | Instr::Arrive(_) | Instr::Cross(_) => self.go_onward(),
            Instr::Take(target, _, _) | Instr::Give(target, _) => self.finish_lock(target),
            Instr::Print(number) => self.finish_print(number),
            _ => {}
        }
    }

    fn finish_on(&mut self, answer: i64)
        requires fit { IsFit self.old }
        requires going { self.old.life ≡ Life.Going }
        ensures state { Becomes self.old self.new (λ s. finished_in s answer s.life) }
        ensures fit { IsFit self.new }
    {
        let instr = self.instruction();
        self.finish_instruction(instr, answer);
    }

    /// Completes the step that is wanted, which is no stop; the answer is the value of a load.
    pub fn finish(&mut self, answer: i64)
        requires { IsFit self.old }
        ensures state { Becomes self.old self.new (λ s. finished_in s answer s.life) }
        ensures fit { IsFit self.new }
    {
        match self.life {
            Life::Going => self.finish_on(answer),
            Life::Ended => {}
            Life::Stopped(_, _) => {}
        }
    }

    /// Completes the step that is wanted, whatever it is; the answer is the value of a load.
    #[tactic(auto, using(crate::proofs::Fits::own_of))]
    pub fn complete(&mut self, answer: i64)
        requires fit { IsFit self.old }
        requires stands { Asks (m.step (state_in self.old)) }
        ensures state { (label : Label) →
            Completes (want_of (m.step (state_in self.old))) answer label →
            Becomes self.old self.new (λ s. m.completed s label) }
        ensures fit { IsFit self.new }
    {
        let want = self.wanted();
        match want {
            Want::Stop(fault, line) => self.stop(fault, line),
            _ => self.finish(answer),
        }
    }
}
