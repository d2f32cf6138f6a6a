//! Threads over programs with every name resolved.

ghost use Rattle.std.specs.Prelude.{◌≡◌, map, IfOk, OnOk};
ghost use Rattle.dsm_base.specs.declared.label.Label.{Label};
ghost use Rattle.dsm_base.specs.Output.{IsLine};
ghost use Rattle.dsm_base.specs.Threads.{Completes, line_of};
ghost use Rattle.dsm_check.specs.Views.{view_function};
ghost use Rattle.dsm_semantics.specs.Semantics.{completed, first_state};
ghost use Rattle.dsm_semantics.specs.States.{ending_of};
ghost use Rattle.dsm_semantics.specs.Within.{Extent, AreFunctionsWithin, IsStateWithin};
ghost use Rattle.dsm_interpreter.specs.Sound.{AreSound, IsNarrow, IsReady};
ghost use Rattle.dsm_interpreter.specs.Threads.{functions_of, semantics_of, state_of, told_by};

use crate::call::callee_at;
use crate::execution::Execution;
use crate::frame::Over;
use dsm_base::{Ending, Fault, MemFault, Proc, Text, Want};
use dsm_check::Function;
use std::alloc::Global;

/// A thread of a program. It stands right before its next labelled step, and tells which one that is.
#[derive(Drop)]
pub struct PlainThread<'a> {
    functions: &'a [Function],
    execution: Execution<'a>,
    wanted: Want,
}

impl<'a> PlainThread<'a> {
    /// The thread of a processor, of so many, right before its first labelled step. `MemFault` comes out
    /// of memory.
    pub fn start(
        alloc: Global,
        functions: &'a [Function],
        main: u16,
        private_cells: u32,
        me: Proc,
        procs: u8,
    ) -> Result<PlainThread<'a>, MemFault>
        requires { AreSound (map view_function functions.now) }
        ensures program { IfOk result (λ thread.
            functions_of thread ≡ map view_function functions.now) }
        ensures state { IfOk result (λ thread.
            state_of thread ≡
            first_state (map view_function functions.now) main private_cells procs me.0) }
        ensures ready { IfOk result (λ thread. (extent : Extent) → IsNarrow extent →
            AreFunctionsWithin extent (map view_function functions.now) → IsReady extent thread) }
    {
        let main = callee_at(functions, main);
        let mut execution = Execution::start(alloc, main, private_cells, me, procs)?;
        let wanted = execution.go_on()?;
        Ok(PlainThread {
            functions,
            execution,
            wanted,
        })
    }

    /// What it wants: `Over` where it has ended or stopped.
    pub fn want(&self) -> Want
        ensures { result ≡ told_by self.now }
    {
        self.wanted
    }

    /// Completes the step that it wants, and goes on to the next; the answer is the value of a load, and
    /// 0 otherwise. `MemFault` comes out of memory.
    pub fn done(&mut self, answer: i64) -> Result<(), MemFault>
        requires { (extent : Extent) × IsReady extent self.old }
        ensures state { OnOk result ((label : Label) → Completes (told_by self.old) answer label →
            state_of self.new ≡ (semantics_of self.old).after (state_of self.old) label) }
        ensures ready { OnOk result ((extent : Extent) →
            IsReady extent self.old → IsReady extent self.new) }
        ensures program { functions_of self.new ≡ functions_of self.old }
    {
        self.complete(answer)?;
        self.wanted = self.execution.go_on()?;
        Ok(())
    }

    /// Completes the step that it wants.
    fn complete(&mut self, answer: i64) -> Result<(), MemFault>
        requires { (extent : Extent) × IsReady extent self.old }
        ensures state { OnOk result ((label : Label) → Completes (told_by self.old) answer label →
            state_of self.new ≡ completed (functions_of self.old) (state_of self.old) label) }
        ensures within { OnOk result ((extent : Extent) →
            IsReady extent self.old → IsStateWithin extent (state_of self.new)) }
        ensures program { functions_of self.new ≡ functions_of self.old }
    {
        match self.wanted {
            Want::Stop(fault, line) => {
                self.execution.end(Over::Stopped(fault, line));
                Ok(())
            }
            _ => self.execution.finish(self.functions, answer),
        }
    }

    /// The thread has stopped, at the line of what it wants.
    pub fn stop(&mut self, fault: Fault)
        requires { (extent : Extent) × IsReady extent self.old }
        ensures state { let label = Label.Stop fault (line_of (told_by self.old)) in
            state_of self.new ≡ (semantics_of self.old).after (state_of self.old) label }
        ensures ready { (extent : Extent) → IsReady extent self.old → IsReady extent self.new }
        ensures program { functions_of self.new ≡ functions_of self.old }
    {
        let line = line_of(self.wanted);
        self.execution.end(Over::Stopped(fault, line));
        self.wanted = Want::Over;
    }

    /// The text of the line that it wants. `MemFault` comes out of memory.
    pub fn text(&self, alloc: Global) -> Result<Text, MemFault>
        requires { (extent : Extent) × IsReady extent self.now }
        ensures text { IfOk result (λ text.
            text ≡ (semantics_of self.now).text (state_of self.now)) }
        ensures line { IfOk result IsLine }
    {
        self.execution.text(alloc)
    }

    /// How it came to be over, if it is.
    pub fn ending(&self) -> Option<Ending>
        ensures { result ≡ ending_of (state_of self.now) }
    {
        match self.execution.life {
            None => None,
            Some(Over::Ended) => Some(Ending::Ended),
            Some(Over::Stopped(_, _)) => Some(Ending::Stopped),
        }
    }
}

/// The line at which a thread that wants this may stop; 0 where it may not.
fn line_of(want: Want) -> u32
    ensures { result ≡ line_of want }
{
    match want {
        Want::Load(_, line)
        | Want::Store(_, _, line)
        | Want::Ask(_, _, line)
        | Want::Give(_, line)
        | Want::Stop(_, line) => line,
        _ => 0,
    }
}
