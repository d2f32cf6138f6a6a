//! Threads as they are saved.

ghost use Rattle.std.specs.Prelude.{◌≡◌, ◌<◌, ℕ, Bool, Option, length, map, None, OnOk};
ghost use Rattle.dsm_fields.specs.Fields.{Appends, numbered};
ghost use Rattle.dsm_code.specs.Programs.{Program};
ghost use Rattle.dsm_saved.specs.declared.saved.SavedFrame.{SavedFrame};
ghost use Rattle.dsm_saved.specs.Spelling.{life_fields, known_fields, frame_fields, frames_fields, saved_fields};
ghost use Rattle.dsm_saved.specs.States.{fault_number, way_of, fault_of, line_of, saved_frame, frames_in, saved_of};
ghost use Rattle.dsm_machine.specs.Frames.{frame_of};
ghost use Rattle.dsm_machine.specs.States.{state_in, life_of, IsFit};
ghost use Rattle.dsm_thread.specs.Saving.{kept_of};

use dsm_base::{Fault, MemFault};
use dsm_fields::put_byte;
use dsm_machine::{Frame, Life, Machine};
use dsm_saved::{put_frame, put_life, put_own};

/// The number of a fault.
fn fault_number(fault: Fault) -> u8
    ensures { result ≡ fault_number fault }
{
    match fault {
        Fault::Overflow => 0,
        Fault::DivZero => 1,
        Fault::Shift => 2,
        Fault::Index => 3,
        Fault::Depth => 4,
        Fault::Unbound => 5,
        Fault::Held => 6,
        Fault::NotHeld => 7,
    }
}

/// Appends whether a thread is over, and how.
fn save_life(life: Life, out: &mut Vec<u8>) -> Result<(), MemFault>
    ensures { OnOk result (Appends
        (life_fields (way_of (life_of life)) (fault_of (life_of life)) (line_of (life_of life)))
        out.old.items out.new.items) }
{
    match life {
        Life::Going => put_life(out, 0, 0, 0),
        Life::Ended => put_life(out, 1, 0, 0),
        Life::Stopped(fault, line) => put_life(out, 2, fault_number(fault), line),
    }
}

/// Appends a function that is under way.
fn save_frame(frame: &Frame, out: &mut Vec<u8>) -> Result<(), MemFault>
    ensures { OnOk result ((program : Program) (is_last : Bool) (next : Option ℕ) →
        Appends (known_fields program is_last next (kept_of frame.now))
        out.old.items out.new.items) }
{
    put_frame(
        out,
        frame.function,
        frame.place,
        frame.slots.as_slice(),
        frame.operands.as_slice(),
    )
}

/// Appends functions that wait, from main inwards.
fn save_waiting(frames: &[Frame], out: &mut Vec<u8>) -> Result<(), MemFault>
    ensures { OnOk result ((program : Program) (innermost at : ℕ) (last : Option SavedFrame) →
        Appends (numbered (frame_fields program innermost) at last (map kept_of frames.now))
        out.old.items out.new.items) }
{
    for frame in frames {
        save_frame(frame, out)?;
    }
    Ok(())
}

/// Appends all functions that are under way.
fn save_frames(machine: &Machine, out: &mut Vec<u8>) -> Result<(), MemFault>
    requires { length machine.now.outer.values < 256 }
    ensures { OnOk result ((program : Program) →
        Appends (frames_fields program 0 (frames_in (state_in machine.now) None))
        out.old.items out.new.items) }
{
    put_byte(out, machine.outer.len() as u8)?;
    save_waiting(machine.outer.as_slice(), out)?;
    save_frame(&machine.frame, out)
}

/// Appends the functions that are under way, where the thread goes on.
fn save_stack(machine: &Machine, out: &mut Vec<u8>) -> Result<(), MemFault>
    requires { IsFit machine.now }
    ensures { OnOk result ((program : Program) →
        Appends (frames_fields program (way_of (life_of machine.now.life))
        (frames_in (state_in machine.now) (life_of machine.now.life)))
        out.old.items out.new.items) }
{
    match machine.life {
        Life::Going => save_frames(machine, out),
        Life::Ended => Ok(()),
        Life::Stopped(_, _) => Ok(()),
    }
}

/// Appends the saved thread of a machine. A count or a place that its field can't hold is answered as
/// out of memory.
pub fn save_machine(machine: &Machine, out: &mut Vec<u8>) -> Result<(), MemFault>
    requires { IsFit machine.now }
    ensures { OnOk result (Appends
        (saved_fields machine.now.code.value (saved_of (state_in machine.now)))
        out.old.items out.new.items) }
{
    save_life(machine.life, out)?;
    put_own(out, machine.own.as_slice())?;
    save_stack(machine, out)
}
