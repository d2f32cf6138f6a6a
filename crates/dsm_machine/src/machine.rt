//! Machines for code.

ghost use Rattle.std.specs.Prelude.{◌≡◌, length, IfOk};
ghost use Rattle.dsm_base.specs.Steps.{ended, stopped};
ghost use Rattle.dsm_code.specs.Machine as m;
ghost use Rattle.dsm_machine.specs.States.{state_in, life_of, Becomes, IsRoomy, IsRoomyIn, IsFit};

use crate::frame::{Frame, new_frame, spare_frames};
use crate::room_stack::RoomStack;
use dsm_base::{Fault, MemFault, Proc};
use dsm_code::Code;
use std::alloc::Global;
use std::rc::Rc;

/// As many functions may be under way.
pub const MOST_DEPTH: usize = 256;

/// Whether a thread is over, and how.
#[derive(Clone, Copy)]
pub enum Life {
    Going,
    Ended,
    Stopped(Fault, u32),
}

/// What a thread of code has to know to go on.
#[derive(Drop)]
pub struct Machine {
    pub code: Rc<Code>,
    pub frame: Frame,
    /// The functions that wait for the one of `frame`, the innermost first.
    pub outer: RoomStack<Frame>,
    /// Frames for functions that are to be called.
    pub spare: RoomStack<Frame>,
    /// The private cells.
    pub own: Vec<i64>,
    pub life: Life,
}

impl Machine {
    fn make(alloc: Global, code: Rc<Code>, me: Proc, procs: u8) -> Result<Machine, MemFault>
        ensures state { IfOk result (λ machine. state_in machine ≡ m.started code.value procs me.0) }
        ensures roomy { IfOk result IsRoomy }
    {
        let shown = code.as_ref();
        let deepest = shown.deepest() as usize;
        let widest = usize::from(shown.widest());
        let main = shown.main();
        let slots = usize::from(shown.slots(main));
        let private_cells = shown.private_cells() as usize;
        let mut frame = new_frame(alloc, deepest, widest)?;
        let arguments = [i64::from(me.0), i64::from(procs)];
        frame.begin(main, arguments.as_slice(), slots);
        Ok(Machine {
            code,
            frame,
            outer: RoomStack::new(alloc, MOST_DEPTH - 1)?,
            spare: spare_frames(alloc, deepest, widest, MOST_DEPTH - 1)?,
            own: vec![in alloc; 0; private_cells]?,
            life: Life::Going,
        })
    }

    /// Of the thread of a processor before its first step, of so many. All memory is taken here;
    /// `MemFault` comes out of memory.
    pub fn start(alloc: Global, code: Rc<Code>, me: Proc, procs: u8) -> Result<Machine, MemFault>
        ensures state { IfOk result (λ machine. state_in machine ≡ m.started code.value procs me.0) }
        ensures fit { IfOk result IsFit }
    {
        code.as_ref().is_valid();
        Machine::make(alloc, code, me, procs)
    }

    /// The thread is over; only its private cells are left.
    pub fn stop(&mut self, fault: Fault, line: u32)
        requires { length self.old.own.items ≡ self.old.code.value.private_cells }
        ensures state { Becomes self.old self.new (λ s. m.over s (stopped fault line)) }
        ensures roomy { IsRoomyIn self.new self.new.life }
    {
        self.frame.clear();
        self.outer.clear();
        self.life = Life::Stopped(fault, line);
    }

    /// The same, where main has returned.
    pub fn end(&mut self)
        requires { length self.old.own.items ≡ self.old.code.value.private_cells }
        ensures state { Becomes self.old self.new (λ s. m.over s ended) }
        ensures roomy { IsRoomyIn self.new self.new.life }
    {
        self.frame.clear();
        self.outer.clear();
        self.life = Life::Ended;
    }
}
