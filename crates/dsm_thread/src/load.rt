//! Threads that go on from what was saved.

ghost use Rattle.std.specs.Prelude.{◌≡◌, ◌<◌, ◌≤◌, ◌-◌, [], ◌∷◌, length, map, reverse, IfOk};
ghost use Rattle.dsm_saved.specs.States.{numbered_fault, opened, going_with, state_of, IsState};
ghost use Rattle.dsm_saved.specs.Answers.{IsSaved};
ghost use Rattle.dsm_saved.specs.Spelling.{IsShaped};
ghost use Rattle.dsm_machine.specs.States.{state_in, Becomes, IsRoomy, IsRoomyIn, IsFit};
ghost use Rattle.dsm_thread.specs.Resuming.{CanResume, AllCanResume, resumed, fresh, resumed_in, within};

use dsm_base::{Fault, MemFault};
use dsm_code::Code;
use dsm_machine::{Frame, Life, MOST_DEPTH, Machine, RoomStack, new_frame, spare_frames};
use dsm_saved::{Saved, SavedFrame};
use std::alloc::Global;
use std::mem;
use std::rc::Rc;

/// The fault of a number.
fn numbered_fault(number: u8) -> Fault
    ensures { result ≡ numbered_fault number }
{
    match number {
        0 => Fault::Overflow,
        1 => Fault::DivZero,
        2 => Fault::Shift,
        3 => Fault::Index,
        4 => Fault::Depth,
        5 => Fault::Unbound,
        6 => Fault::Held,
        _ => Fault::NotHeld,
    }
}

/// A machine with all its memory and these private cells; nothing is under way. `MemFault` comes out of
/// memory.
fn fresh(alloc: Global, code: Rc<Code>, cells: &[i64]) -> Result<Machine, MemFault>
    requires { length cells.now ≡ code.value.private_cells }
    ensures state { IfOk result (λ machine. state_in machine ≡ fresh code.value cells.now) }
    ensures roomy { IfOk result IsRoomy }
{
    let shown = code.as_ref();
    let deepest = shown.deepest() as usize;
    let widest = usize::from(shown.widest());
    let mut own = Vec::new(alloc);
    own.extend_from_slice(cells)?;
    let mut frame = new_frame(alloc, deepest, widest)?;
    frame.clear();
    Ok(Machine {
        code,
        frame,
        outer: RoomStack::new(alloc, MOST_DEPTH - 1)?,
        spare: spare_frames(alloc, deepest, widest, MOST_DEPTH - 1)?,
        own,
        life: Life::Going,
    })
}

/// A frame goes on with a saved function of so many slots.
fn resume_frame(frame: &mut Frame, saved: &SavedFrame, slots: usize)
    requires values { slots ≤ length saved.now.values }
    requires slots { slots ≤ frame.old.slots.room }
    requires operands { length saved.now.values - slots ≤ frame.old.operands.room }
    ensures { frame.new ≡ resumed frame.old saved.now slots }
{
    let (slots, operands) = saved.values.as_slice().split_at(slots);
    frame.function = saved.function;
    frame.place = saved.place as usize;
    frame.operands.hold(operands);
    frame.slots.hold(slots);
}

/// A saved function is the innermost one.
fn resume(machine: &mut Machine, saved: &SavedFrame)
    requires room { CanResume machine.old.code.value saved.now }
    requires roomy { IsRoomy machine.old }
    ensures state { Becomes machine.old machine.new (λ s. resumed_in s
        (opened s.program saved.now)) }
    ensures roomy { IsRoomy machine.new }
{
    let slots = usize::from(machine.code.as_ref().slots(saved.function));
    resume_frame(&mut machine.frame, saved, slots);
}

/// The innermost function waits, and a saved one is under way.
fn resume_within(machine: &mut Machine, saved: &SavedFrame)
    requires few { length machine.old.outer.values < 255 }
    requires room { CanResume machine.old.code.value saved.now }
    requires roomy { IsRoomy machine.old }
    ensures state { Becomes machine.old machine.new (λ s. within s (opened s.program saved.now)) }
    ensures roomy { IsRoomy machine.new }
{
    let Some(inner) = machine.spare.pop() else {
        unreachable!();
    };
    machine.outer.push(mem::replace(&mut machine.frame, inner));
    resume(machine, saved);
}

/// Saved functions are under way, from main inwards.
fn resume_all(machine: &mut Machine, first: &SavedFrame, rest: &[SavedFrame])
    requires few { length rest.now < 256 }
    requires room { AllCanResume machine.old.code.value (first.now ∷ rest.now) }
    requires roomy { IsRoomy machine.old }
    requires alone { machine.old.outer.values ≡ [] }
    ensures state { Becomes machine.old machine.new (λ s. going_with s.program s.own
        (map (opened s.program) (reverse (first.now ∷ rest.now)))) }
    ensures roomy { IsRoomy machine.new }
{
    resume(machine, first);
    for frame in rest {
        resume_within(machine, frame);
    }
}

/// What goes on from what was saved. `MemFault` comes out of memory.
#[tactic(auto, using(dsm_machine::proofs::Fits::roomy_in))]
fn rebuild(alloc: Global, code: Rc<Code>, saved: &Saved) -> Result<Machine, MemFault>
    requires shaped { IsShaped saved.now }
    requires few { length saved.now.frames ≤ 256 }
    requires state { IsState code.value (state_of code.value saved.now) }
    requires cells { length saved.now.own ≡ code.value.private_cells }
    ensures state { IfOk result (λ machine. state_in machine ≡ state_of code.value saved.now) }
    ensures roomy { IfOk result (λ machine. IsRoomyIn machine machine.life) }
{
    let mut machine = fresh(alloc, code, saved.own.as_slice())?;
    match saved.way {
        0 => {
            let Some((first, rest)) = saved.frames.as_slice().split_first() else {
                unreachable!();
            };
            resume_all(&mut machine, first, rest);
        }
        1 => machine.end(),
        _ => machine.stop(numbered_fault(saved.fault), saved.line),
    }
    Ok(machine)
}

/// The machine that goes on from what was saved of this code. `MemFault` comes out of memory.
pub fn restore(alloc: Global, code: Rc<Code>, saved: &Saved) -> Result<Machine, MemFault>
    requires saved { IsSaved code.value saved.now }
    requires few { length saved.now.frames ≤ 256 }
    ensures state { IfOk result (λ machine. state_in machine ≡ state_of code.value saved.now) }
    ensures fit { IfOk result IsFit }
{
    code.as_ref().is_valid();
    rebuild(alloc, code, saved)
}
