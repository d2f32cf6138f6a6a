//! Slots whose room is reserved.

ghost use Rattle.std.specs.Prelude.{◌≡◌, ◌≤◌, ◌-◌, ◌++◌, [], pos, length, get_or, set, replicate, IfOk};

use dsm_base::MemFault;
use std::alloc::Global;
use std::marker::Model;

/// Values by their numbers, and room for so many.
#[derive(Drop)]
pub struct Slots {
    items: Vec<i64>,
    room: usize,
}

impl Model for Slots {
    ghost use Rattle.std.specs.Prelude.{ℤ, ◌≤◌, vec_capacity};
    ghost use Rattle.std.specs.Coded.{coded_ℤ};
    ghost use Rattle.dsm_machine.specs.Rooms.{Room, room_code};

    ghost Value = { Room ℤ };

    ghost coded = { room_code coded_ℤ };

    ghost view = { λ slots. record { values = slots.items.items; room = slots.room } };

    ghost invariant = { λ slots. slots.room ≤ vec_capacity slots.items };
}

impl Slots {
    /// Nothing, with room for so many. `MemFault` comes out of memory.
    pub fn new(alloc: Global, room: usize) -> Result<Slots, MemFault>
        ensures { IfOk result (λ slots. slots ≡ record { values = []; room = room }) }
    {
        Ok(Slots {
            items: Vec::with_capacity(alloc, room)?,
            room,
        })
    }

    /// The value of a number; 0 past the last one.
    pub fn get(&self, number: u8) -> i64
        ensures { result ≡ get_or self.now.values number (pos 0) }
    {
        self.items.get(usize::from(number)).copied().unwrap_or(0)
    }

    /// Sets the value of a number; past the last one nothing changes.
    pub fn set(&mut self, number: u8, value: i64)
        ensures { self.new ≡ record {
          values = set self.old.values number value;
          room = self.old.room;
        } }
    {
        let number = usize::from(number);
        if number < self.items.len() {
            self.items[number] = value;
        }
    }

    /// Drops everything.
    pub fn clear(&mut self)
        ensures { self.new ≡ record { values = []; room = self.old.room } }
    {
        self.items.clear();
    }

    /// Holds these values, and behind them zeros up to a count.
    pub fn fill(&mut self, first: &[i64], count: usize)
        requires first { length first.now ≤ self.old.room }
        requires count { count ≤ self.old.room }
        ensures { self.new ≡ record {
          values = first.now ++ replicate (count - length first.now) (pos 0);
          room = self.old.room;
        } }
    {
        self.items.clear();
        let copied = self.items.extend_from_slice(first);
        match copied {
            Ok(()) => {}
            Err(_) => unreachable!(),
        }
        let count = count.max(first.len());
        let filled = self.items.resize(count, 0);
        match filled {
            Ok(()) => {}
            Err(_) => unreachable!(),
        }
    }

    /// Holds these values.
    pub fn hold(&mut self, values: &[i64])
        requires { length values.now ≤ self.old.room }
        ensures { self.new ≡ record { values = values.now; room = self.old.room } }
    {
        self.items.clear();
        let copied = self.items.extend_from_slice(values);
        match copied {
            Ok(()) => {}
            Err(_) => unreachable!(),
        }
    }

    pub fn as_slice(&self) -> &[i64]
        ensures { result.now ≡ self.now.values }
    {
        self.items.as_slice()
    }

    /// How many there are.
    pub fn len(&self) -> usize
        ensures { result ≡ length self.now.values }
    {
        self.items.len()
    }
}
