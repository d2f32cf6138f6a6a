//! How far the execution of a program has come in one thread.

ghost use Rattle.std.specs.Prelude.{◌≡◌, List, IfOk, OnOk};
ghost use Rattle.dsm_check.specs.Resolved as r;
ghost use Rattle.dsm_base.specs.Steps.{want_of};
ghost use Rattle.dsm_semantics.specs.Semantics.{started, step, ready};
ghost use Rattle.dsm_semantics.specs.Within.{Extent, IsStateWithin};
ghost use Rattle.dsm_interpreter.specs.Sound.{IsSoundState};
ghost use Rattle.dsm_interpreter.specs.Threads.{callee_of, state_in};

use crate::call::{Callee, new_frame};
use crate::frame::{Frame, Over};
use dsm_base::{MemFault, Proc, Stack, Want};
use std::alloc::Global;

/// What a thread has to know to go on; its items refer to the program's functions.
#[derive(Drop)]
pub struct Execution<'a> {
    pub alloc: Global,
    pub frame: Frame<'a>,
    /// The functions that wait for the one of `frame`, the innermost first.
    pub outer: Stack<Frame<'a>>,
    /// The private cells.
    pub own: Vec<i64>,
    /// How the thread came to be over, if it is.
    pub life: Option<Over>,
}

impl<'a> Execution<'a> {
    /// Of the thread of a processor before its first step, of so many.
    pub fn start(
        alloc: Global,
        main: Callee<'a>,
        private_cells: u32,
        me: Proc,
        procs: u8,
    ) -> Result<Execution<'a>, MemFault>
        ensures { IfOk result (λ execution.
            state_in execution ≡ started (callee_of main.entry) private_cells procs me.0) }
    {
        let arguments = [i64::from(me.0), i64::from(procs)];
        Ok(Execution {
            alloc,
            frame: new_frame(alloc, main, arguments.as_slice())?,
            outer: Stack::new(alloc),
            own: vec![in alloc; 0; private_cells as usize]?,
            life: None,
        })
    }

    /// Goes on to the next labelled step, and tells it.
    pub fn go_on(&mut self) -> Result<Want, MemFault>
        requires { IsSoundState (state_in self.old) }
        ensures value { IfOk result (λ want. (functions : List r.Function) →
            want ≡ want_of (step functions (state_in self.new))) }
        ensures state { OnOk result ((functions : List r.Function) →
            state_in self.new ≡ ready functions (state_in self.old)) }
        ensures within { OnOk result ((extent : Extent) →
            IsStateWithin extent (state_in self.old) → IsStateWithin extent (state_in self.new)) }
    {
        'steps: loop {
            let wanted = self.step()?;
            match wanted {
                Some(want) => return Ok(want),
                None => {}
            }
        }
    }
}
