//! Steps of a thread.

ghost use Rattle.std.specs.Prelude.{◌≡◌, ℤ, IfSome};
ghost use Rattle.dsm_base.specs.Steps.{want_of};
ghost use Rattle.dsm_code.specs.Programs.{function_at, print_at};
ghost use Rattle.dsm_code.specs.Machine as m;
ghost use Rattle.dsm_code.specs.Typed.{IsFine};
ghost use Rattle.dsm_code.specs.Finished.{finished, finished_in};
ghost use Rattle.dsm_code.specs.Prints.{IsPrint};
ghost use Rattle.dsm_machine.specs.declared.machine.Life.{Life};
ghost use Rattle.dsm_machine.specs.Standing.{Asks};
ghost use Rattle.dsm_machine.specs.States.{state_in, row_here, Steps, Becomes, IsRoomy, IsFit, CanDo};

use crate::machine::{Life, Machine};
use dsm_base::Want;
use dsm_code::{Instr, PrintPart, Row};

impl Machine {
    /// Does an instruction, or tells what it wants and leaves all as it is.
    fn act(&mut self, instr: Instr) -> Option<Want>
        requires { CanDo self.old instr }
        ensures makes { Steps self.old self.new (λ s. m.act s instr) result }
        ensures roomy { IsRoomy self.old → IsRoomy self.new }
    {
        match instr {
            Instr::Push(value) => self.push(value),
            Instr::Discard => self.discard(),
            Instr::LoadSlot(number, way) => self.load_slot(number, way),
            Instr::StoreSlot(number) => self.store_slot(number),
            Instr::TestIndex(array, line) => return self.test_index(array, line),
            Instr::LoadOwn(target, way, line) => return self.load_own(target, way, line),
            Instr::StoreOwn(target, line) => return self.store_own(target, line),
            Instr::Load(target, way, line) => return Some(self.load(target, way, line)),
            Instr::Store(target, _, line) => return Some(self.store(target, line)),
            Instr::Unary(op, line) => return self.unary(op, line),
            Instr::StepBy(op, line) => return self.step_by(op, line),
            Instr::Binary(op, line) => return self.binary(op, line),
            Instr::ToTruth => self.to_truth(),
            Instr::GoOn(count) => self.go_on(count),
            Instr::SkipIfZero(count) => self.skip_if_zero(count),
            Instr::GoBack(_) => return Some(Want::Quiet),
            Instr::Enter(_, line) => return Some(self.enter(line)),
            Instr::Leave => return Some(self.leave_function()),
            Instr::Ask(target, mode, line) => return Some(self.ask(target, mode, line)),
            Instr::Take(target, mode, line) => return Some(self.take(target, mode, line)),
            Instr::Give(target, line) => return Some(self.give(target, line)),
            Instr::Arrive(bar) => return Some(Want::Arrive(bar)),
            Instr::Cross(bar) => return Some(Want::Cross(bar)),
            Instr::Print(_) => return Some(Want::Line),
        }
        None
    }

    /// The instruction that it is at, with its number of operands.
    pub fn row_here(&self) -> Option<Row>
        ensures value { result ≡ row_here self.now }
        ensures fine { IfSome result
            (IsFine self.now.code.value (function_at self.now.code.value self.now.frame.function)) }
    {
        self.code
            .as_ref()
            .row(self.frame.function, self.frame.place)
    }

    /// The parts of a print, which make a line.
    pub fn print_parts(&self, number: u32) -> &[PrintPart]
        ensures value { result.now ≡ print_at self.now.code.value number }
        ensures line { IsPrint result.now }
    {
        self.code.as_ref().print(number)
    }

    /// The instruction that it is at; there is one.
    pub fn instruction(&self) -> Instr
        requires fit { IsFit self.now }
        requires going { self.now.life ≡ Life.Going }
        ensures can { CanDo self.now result }
        ensures acts { m.step (state_in self.now) ≡ m.act (state_in self.now) result }
        ensures finishes { (answer : ℤ) →
            finished_in (state_in self.now) answer (state_in self.now).life ≡
            finished (state_in self.now) answer result }
    {
        let found = self.row_here();
        match found {
            Some(row) => row.instr,
            None => unreachable!(),
        }
    }

    /// Makes a step, or tells what is wanted and leaves all as it is.
    fn step_on(&mut self) -> Option<Want>
        requires fit { IsFit self.old }
        requires going { self.old.life ≡ Life.Going }
        ensures makes { Steps self.old self.new m.step result }
        ensures fit { IsFit self.new }
    {
        let instr = self.instruction();
        self.act(instr)
    }

    /// The same, of a machine that may be over.
    fn step(&mut self) -> Option<Want>
        requires { IsFit self.old }
        ensures makes { Steps self.old self.new m.step result }
        ensures fit { IsFit self.new }
    {
        match self.life {
            Life::Going => self.step_on(),
            Life::Ended => Some(Want::Over),
            Life::Stopped(_, _) => Some(Want::Over),
        }
    }

    /// Goes on to the next labelled step.
    pub fn settle(&mut self)
        requires { IsFit self.old }
        ensures state { Becomes self.old self.new m.ready }
        ensures stands { Asks (m.step (state_in self.new)) }
        ensures fit { IsFit self.new }
    {
        'steps: loop {
            let wanted = self.step();
            match wanted {
                Some(_) => return,
                None => {}
            }
        }
    }

    /// What a machine that stands right before a labelled step wants.
    pub fn wanted(&mut self) -> Want
        requires fit { IsFit self.old }
        requires stands { Asks (m.step (state_in self.old)) }
        ensures value { result ≡ want_of (m.step (state_in self.old)) }
        ensures state { state_in self.new ≡ state_in self.old }
        ensures fit { IsFit self.new }
    {
        let wanted = self.step();
        match wanted {
            Some(want) => want,
            None => unreachable!(),
        }
    }
}
