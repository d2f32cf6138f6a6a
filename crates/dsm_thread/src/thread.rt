//! Threads of code.

ghost use Rattle.std.specs.Prelude.{◌≡◌, ◌++◌, Result, IfOk, OnOk};
ghost use Rattle.dsm_base.specs.declared.errors.LoadErr.{LoadErr};
ghost use Rattle.dsm_base.specs.Threads.{line_of};
ghost use Rattle.dsm_code.specs.Machine as m;
ghost use Rattle.dsm_saved.specs.Answers.{IsSaved, OrMemory, saved_bytes};
ghost use Rattle.dsm_saved.specs.States.{IsState, IsLoaded, saved_of};

use crate::load::restore;
use crate::save::save_machine;
use dsm_base::{Fault, LoadErr, MemFault, Proc, Task, Want};
use dsm_code::Code;
use dsm_machine::{Line, Machine, stand, write_line};
use dsm_saved::read_saved;
use std::alloc::Global;
use std::marker::Model;
use std::rc::Rc;

/// A thread of code. It stands right before its next labelled step, or is over.
#[derive(Drop)]
pub struct Thread {
    machine: Machine,
    /// The text of the line that the thread wants to print.
    line: Line,
}

impl Model for Thread {
    ghost use Rattle.dsm_code.specs.Machine.{State};

    ghost Value = { State };

    ghost use Rattle.dsm_machine.specs.States.{state_in};
    ghost use Rattle.dsm_machine.specs.Standing.{IsStanding};

    ghost view = { λ thread. state_in thread.machine };

    ghost invariant = { λ thread. IsStanding thread.machine thread.line };
}

/// The line at which a thread that wants this may stop; 0 where it may not.
fn line_of(want: Want) -> u32
    ensures { result ≡ line_of want }
{
    match want {
        Want::Load(_, line)
        | Want::Store(_, _, line)
        | Want::Ask(_, _, line)
        | Want::Give(_, line)
        | Want::Stop(_, line) => line,
        _ => 0,
    }
}

impl Thread {
    /// The thread of a processor, of so many, right before its first labelled step. The whole stack and
    /// the text of a line are reserved here; `MemFault` comes out of memory.
    pub fn start(alloc: Global, code: Rc<Code>, me: Proc, procs: u8) -> Result<Thread, MemFault>
        ensures { IfOk result (λ thread. thread ≡ m.first_state code.value procs me.0) }
    {
        let mut line = Line::new(alloc)?;
        let mut machine = Machine::start(alloc, code, me, procs)?;
        stand(&mut machine, &mut line);
        Ok(Thread { machine, line })
    }

    /// Appends the saved thread. `MemFault` comes out of memory, and where a count or a place is too
    /// great for its field.
    pub fn save(&self, out: &mut Vec<u8>) -> Result<(), MemFault>
        ensures state { IsState self.now.program self.now }
        ensures saved { OnOk result (IsSaved self.now.program (saved_of self.now)) }
        ensures bytes { OnOk result (out.new.items ≡
            out.old.items ++ saved_bytes self.now.program (saved_of self.now)) }
    {
        save_machine(&self.machine, out)
    }

    /// The thread that goes on from its saved bytes, with its whole stack and the text of a line
    /// reserved, or `BadImage` with the first place at which no saved thread of this code goes on.
    /// `Memory` also where a place is over 32 bits. The processor and their number are among the slots.
    pub fn load(
        alloc: Global,
        code: Rc<Code>,
        _me: Proc,
        _procs: u8,
        bytes: &[u8],
    ) -> Result<Thread, LoadErr>
        ensures fits { OrMemory result (IsLoaded code.value result bytes.now) }
        ensures only { (other : Result m.State LoadErr) → IsLoaded code.value other bytes.now →
            OrMemory result (result ≡ other) }
    {
        code.as_ref().is_valid();
        let saved = read_saved(alloc, code.as_ref(), bytes)?;
        let mut line = Line::new(alloc)?;
        let machine = restore(alloc, code, &saved)?;
        write_line(&machine, &mut line);
        Ok(Thread { machine, line })
    }
}

impl Task for Thread {
    type State = Thread;

    ghost use Rattle.std.specs.Prelude.{Some};
    ghost use Rattle.dsm_code.specs.Machine.{code_semantics};

    ghost kind = { record { state = λ thread. thread; semantics = code_semantics } };

    ghost told = { λ thread. Some (code_semantics.want thread) };

    fn want(&mut self) -> Want {
        self.machine.wanted()
    }

    fn done(&mut self, answer: i64) {
        self.machine.complete(answer);
        stand(&mut self.machine, &mut self.line);
    }

    #[tactic(auto, using(dsm_machine::proofs::Fits::own_of))]
    fn stop(&mut self, fault: Fault) {
        let line = line_of(self.machine.wanted());
        self.machine.stop(fault, line);
        stand(&mut self.machine, &mut self.line);
    }

    fn text(&self) -> &[u8] {
        self.line.as_slice()
    }
}
