//! Calls and returns.

ghost use Rattle.std.specs.Prelude.{◌≡◌, ℤ, [], ◌∷◌, map, slice_get, OnOk, IfOk, Some};
ghost use Rattle.dsm_check.specs.Views.{view_function};
ghost use Rattle.dsm_semantics.specs.Semantics;
ghost use Rattle.dsm_check.specs.Resolved as r;
ghost use Rattle.dsm_semantics.specs.Semantics.{numbered};
ghost use Rattle.dsm_semantics.specs.States.{run, over};
ghost use Rattle.dsm_semantics.specs.Finished.{return_finished};
ghost use Rattle.dsm_interpreter.specs.Threads.{Becomes, Steps, callee_of, frame_of, over_of};

use crate::execution::Execution;
use crate::frame::{Frame, Over};
use crate::item::Item;
use dsm_base::{Fault, MemFault, Stack, Text, Want};
use dsm_check::{Function, Statement};
use std::alloc::Global;
use std::mem;

/// As many functions may be under way.
const MOST_DEPTH: usize = 256;

/// A function that is called.
#[derive(Clone, Copy)]
pub struct Callee<'a> {
    pub name: &'a [u8],
    pub params: u8,
    pub slots: u8,
    pub names: &'a [Text],
    pub body: &'a [Statement],
}

/// The function of a number; each number in a program is that of a function.
pub fn callee_at<'a>(functions: &'a [Function], number: u16) -> Callee<'a>
    ensures { callee_of result ≡ numbered (slice_get (map view_function functions.now) number) }
{
    match functions.get(usize::from(number)) {
        Some(function) => Callee {
            name: function.name.as_slice(),
            params: function.params,
            slots: function.slots,
            names: function.names.as_slice(),
            body: function.body.as_slice(),
        },
        None => Callee {
            name: &[],
            params: 0,
            slots: 0,
            names: &[],
            body: &[],
        },
    }
}

/// The slots of a function that is entered: its arguments, and zeros.
pub fn new_slots(alloc: Global, callee: Callee<'_>, arguments: &[i64]) -> Result<Vec<i64>, MemFault>
    ensures { IfOk result (λ slots.
        slots.items ≡ Semantics.new_slots (callee_of callee.entry) arguments.now) }
{
    let mut slots = Vec::from_slice(alloc, arguments)?;
    let missing = usize::from(callee.slots).saturating_sub(arguments.len());
    for _ in 0..missing {
        slots.push(0)?;
    }
    Ok(slots)
}

/// The frame of a function that is entered.
pub fn new_frame<'a>(
    alloc: Global,
    callee: Callee<'a>,
    arguments: &[i64],
) -> Result<Frame<'a>, MemFault>
    ensures { IfOk result (λ frame.
        frame_of frame ≡ record {
          todo = run (callee_of callee.entry).body ∷ [];
          operands = [];
          slots = Semantics.new_slots (callee_of callee.entry) arguments.now;
        }) }
{
    let mut todo = Stack::new(alloc);
    todo.push(Item::Run(callee.body))?;
    Ok(Frame {
        todo,
        operands: Stack::new(alloc),
        slots: new_slots(alloc, callee, arguments)?,
    })
}

impl<'a> Execution<'a> {
    /// Wants to enter a function, where it isn't one too many.
    pub fn enter(&self, line: u32) -> Want
        ensures { (function : r.Function) →
            Steps self.now self.now (λ s. Semantics.entering s line function) (Some result) }
    {
        if self.outer.len() < MOST_DEPTH - 1 {
            Want::Quiet
        } else {
            Want::Stop(Fault::Depth, line)
        }
    }

    /// Enters the function of a number.
    pub fn finish_enter(&mut self, functions: &'a [Function], number: u16) -> Result<(), MemFault>
        ensures { OnOk result (Becomes self.old self.new (λ s.
            Semantics.entered s (numbered (slice_get (map view_function functions.now) number)))) }
    {
        let callee = callee_at(functions, number);
        let count = usize::from(callee.params);
        let frame = new_frame(self.alloc, callee, self.frame.operands.topmost(count))?;
        self.frame.operands.drop_topmost(count);
        let caller = mem::replace(&mut self.frame, frame);
        self.outer.push(caller)
    }

    /// Wants to leave the innermost function.
    pub fn leave(&self) -> Want
        ensures { (value : ℤ) → Steps self.now self.now (λ s. Semantics.returns s value s.outer)
            (Some result) }
    {
        if self.outer.len() == 0 {
            Want::End
        } else {
            Want::Quiet
        }
    }

    /// Leaves the innermost function with a value; where it is main, the thread has ended.
    pub fn finish_leave(&mut self, value: i64) -> Result<(), MemFault>
        ensures { OnOk result (Becomes self.old self.new (λ s. return_finished s value s.outer)) }
    {
        match self.outer.pop() {
            None => {
                self.end(Over::Ended);
                Ok(())
            }
            Some(caller) => {
                self.frame = caller;
                self.frame.operands.push(value)
            }
        }
    }

    /// The thread is over; only its private cells are left.
    pub fn end(&mut self, way: Over)
        ensures { Becomes self.old self.new (λ s. over s (over_of way)) }
    {
        self.frame.todo.clear();
        self.frame.operands.clear();
        self.frame.slots.clear();
        self.outer.clear();
        self.life = Some(way);
    }
}
