//! Functions that are under way.

ghost use Rattle.std.specs.Prelude.{◌≡◌, ◌≤◌, length, IfOk};
ghost use Rattle.dsm_machine.specs.Frames.{begun, cleared, HasRoom, AllHaveRoom};

use crate::room_stack::RoomStack;
use crate::slots::Slots;
use dsm_base::MemFault;
use std::alloc::Global;

/// A function that is under way: its number, the place that it is at, its operands and its slots.
#[derive(Drop)]
pub struct Frame {
    pub function: u16,
    pub place: usize,
    pub operands: RoomStack<i64>,
    pub slots: Slots,
}

impl Frame {
    /// Begins a function of so many slots.
    pub fn begin(&mut self, function: u16, arguments: &[i64], slots: usize)
        requires arguments { length arguments.now ≤ self.old.slots.room }
        requires slots { slots ≤ self.old.slots.room }
        ensures { self.new ≡ begun self.old function arguments.now slots }
    {
        self.function = function;
        self.place = 0;
        self.operands.clear();
        self.slots.fill(arguments, slots);
    }

    /// Nothing is under way.
    pub fn clear(&mut self)
        ensures { self.new ≡ cleared self.old }
    {
        self.function = 0;
        self.place = 0;
        self.operands.clear();
        self.slots.clear();
    }
}

/// A frame for functions with so many operands and slots at most. `MemFault` comes out of memory.
pub fn new_frame(alloc: Global, deepest: usize, widest: usize) -> Result<Frame, MemFault>
    ensures { IfOk result (HasRoom deepest widest) }
{
    Ok(Frame {
        function: 0,
        place: 0,
        operands: RoomStack::new(alloc, deepest)?,
        slots: Slots::new(alloc, widest)?,
    })
}

/// So many such frames.
pub fn spare_frames(
    alloc: Global,
    deepest: usize,
    widest: usize,
    count: usize,
) -> Result<RoomStack<Frame>, MemFault>
    ensures frames { IfOk result (λ frames. AllHaveRoom deepest widest frames.values) }
    ensures count { IfOk result (λ frames. length frames.values ≡ count) }
    ensures room { IfOk result (λ frames. frames.room ≡ count) }
{
    let mut frames = RoomStack::new(alloc, count)?;
    for _ in 0..count {
        frames.push(new_frame(alloc, deepest, widest)?);
    }
    Ok(frames)
}
