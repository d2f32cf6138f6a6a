//! Threads, by what they want and what a label makes of them.

ghost use Rattle.std.specs.Prelude.{◌≡◌, ℕ, ℤ, IfOk, Some, None, IfSome, IsSomeAnd};
ghost use Rattle.dsm_base.specs.declared.label.Label.{Label};
ghost use Rattle.dsm_base.specs.declared.label.Want.{Want};

use crate::errors::MemFault;
use crate::label::Want;
use crate::names::{Fault, Proc};
use std::alloc::Global;

/// A thread. Its meaning is a state, and what the semantics of its kind says of that state.
pub trait Task: Drop {
    /// What a thread has to know to go on.
    type State;

    ghost use Rattle.std.specs.Prelude.{Option};
    ghost use Rattle.dsm_base.specs.declared.label.Want.{Want};
    ghost use Rattle.dsm_base.specs.Output.{IsLine};
    ghost use Rattle.dsm_base.specs.Threads.{Kind, GoesOn, Completes, MayStop, MayBeDone, line_of};

    /// The state of each thread of this kind, and how such states go on.
    ghost kind: { Kind Self Self.State };

    /// What `want` told, where it was the last call that may change the thread.
    ghost told: { Self → Option Want };

    /// Runs to the next labelled step and tells it; asked again it tells the same. `Over` exactly
    /// where the thread has ended or stopped. Takes no memory.
    fn want(&mut self) -> Want
        ensures value { result ≡ kind.semantics.want (kind.state self.old) }
        ensures told { told self.new ≡ Some result }
        ensures state { kind.state self.new ≡ kind.state self.old };

    /// Completes the step that `want` told, whatever it was but `Over`; the answer is the value of a
    /// load, and 0 otherwise. Takes no memory.
    fn done(&mut self, answer: i64)
        requires { IsSomeAnd (told self.old) MayBeDone }
        ensures { IfSome (told self.old) (λ want. (label : Label) →
            Completes want answer label → GoesOn kind self.old label self.new) };

    /// The thread has stopped, at the line that `want` told. Takes no memory.
    fn stop(&mut self, fault: Fault)
        requires { IsSomeAnd (told self.old) MayStop }
        ensures { IfSome (told self.old) (λ want.
            GoesOn kind self.old (Label.Stop fault (line_of want)) self.new) };

    /// The text of the line that `want` told. Takes no memory.
    fn text(&self) -> &[u8]
        requires { told self.now ≡ Some Want.Line }
        ensures text { result.now ≡ kind.semantics.text (kind.state self.now) }
        ensures line { IsLine result.now };
}

/// Makes the threads of a program.
pub trait TaskMaker: Drop {
    type Made: Task;

    /// The first state of the thread of a processor, of so many.
    ghost first: { Self → ℕ → ℕ → Self.Made.State };

    /// The thread of a processor before its first step, of so many. `MemFault` comes out of memory.
    fn start(&self, alloc: Global, me: Proc, procs: u8) -> Result<Self::Made, MemFault>
        ensures { IfOk result (λ task. Self.Made.kind.state task ≡ first self.now procs me.0) };

    ghost use Rattle.dsm_base.specs.Threads.{AsksFirst};

    /// Its threads take a lock right after they have asked for it, and at no other time; so it is
    /// with barriers.
    ghost asks_first: { (maker : Self) (procs me : ℕ) →
        AsksFirst Self.Made.kind.semantics (first maker procs me) };
}
