//! A stack whose room is reserved, so that what it puts on top takes no memory.

ghost use Rattle.std.specs.Prelude.{◌≡◌, ◌<◌, ◌≤◌, [], ◌∷◌, length, reverse, take, drop, IfOk, MatchOption};
ghost use Rattle.dsm_code.specs.Instructions.{top, below};

use dsm_base::MemFault;
use std::alloc::Global;
use std::marker::Model;

/// Items of which the last one comes first, and room for so many.
#[derive(Drop)]
pub struct RoomStack<T> {
    items: Vec<T>,
    room: usize,
}

impl<T> Model for RoomStack<T> {
    ghost use Rattle.std.specs.Prelude.{◌≤◌, reverse, vec_capacity};
    ghost use Rattle.dsm_machine.specs.Rooms.{Room, room_code};

    ghost Value = { Room T };

    ghost coded = { room_code T.code };

    ghost view = { λ stack. record { values = reverse stack.items.items; room = stack.room } };

    ghost invariant = { λ stack. stack.room ≤ vec_capacity stack.items };
}

impl<T> RoomStack<T> {
    /// Nothing, with room for so many. `MemFault` comes out of memory.
    pub fn new(alloc: Global, room: usize) -> Result<RoomStack<T>, MemFault>
        ensures { IfOk result (λ stack. stack ≡ record { values = []; room = room }) }
    {
        Ok(RoomStack {
            items: Vec::with_capacity(alloc, room)?,
            room,
        })
    }

    /// All of them, with the top last.
    pub fn as_slice(&self) -> &[T]
        ensures { result.now ≡ reverse self.now.values }
    {
        self.items.as_slice()
    }

    /// How many there are.
    pub fn len(&self) -> usize
        ensures { result ≡ length self.now.values }
    {
        self.items.len()
    }
}

impl<T: Drop> RoomStack<T> {
    /// Puts an item on top.
    pub fn push(&mut self, item: T)
        requires { length self.old.values < self.old.room }
        ensures { self.new ≡ record { values = item ∷ self.old.values; room = self.old.room } }
    {
        self.items.push_reserved(item);
    }

    /// Takes the item on top.
    pub fn pop(&mut self) -> Option<T>
        ensures items { MatchOption result ((self.old.values ≡ []) × (self.new.values ≡ []))
            (λ item. self.old.values ≡ item ∷ self.new.values) }
        ensures room { self.new.room ≡ self.old.room }
    {
        self.items.pop()
    }

    /// Drops everything.
    pub fn clear(&mut self)
        ensures { self.new ≡ record { values = []; room = self.old.room } }
    {
        self.items.clear();
    }
}

impl RoomStack<i64> {
    /// The value on top; 0 where there is none.
    pub fn value(&self) -> i64
        ensures { result ≡ top self.now.values }
    {
        self.items.last().copied().unwrap_or(0)
    }

    /// The value below the one on top; 0 where there is none.
    pub fn value_below(&self) -> i64
        ensures { result ≡ top (below self.now.values) }
    {
        match self.topmost(2) {
            [value, _] => *value,
            _ => 0,
        }
    }

    /// Takes the value on top; 0 where there is none.
    pub fn pop_value(&mut self) -> i64
        ensures value { result ≡ top self.old.values }
        ensures rest { self.new ≡ record { values = below self.old.values; room = self.old.room } }
    {
        self.items.pop().unwrap_or(0)
    }

    /// The topmost ones, at most so many, with the top last.
    pub fn topmost(&self, count: usize) -> &[i64]
        ensures values { result.now ≡ reverse (take count self.now.values) }
        ensures few { length result.now ≤ count }
    {
        let kept = self.len().saturating_sub(count);
        &self.items[kept..]
    }

    /// Drops the topmost ones, at most so many.
    pub fn drop_topmost(&mut self, count: usize)
        ensures { self.new ≡ record { values = drop count self.old.values; room = self.old.room } }
    {
        let kept = self.len().saturating_sub(count);
        self.items.truncate(kept);
    }

    /// Holds these values, the last one on top.
    pub fn hold(&mut self, values: &[i64])
        requires { length values.now ≤ self.old.room }
        ensures { self.new ≡ record { values = reverse values.now; room = self.old.room } }
    {
        self.items.clear();
        let copied = self.items.extend_from_slice(values);
        match copied {
            Ok(()) => {}
            Err(_) => unreachable!(),
        }
    }
}
