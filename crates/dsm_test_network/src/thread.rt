//! A thread that takes one lock, stores or loads a cell under it or neither, and gives it back.

ghost use Rattle.std.specs.Prelude.{◌≡◌};

use dsm_base::{Cell, Fault, Lock, MemFault, Mode, Proc, Task, TaskMaker, Want};
use std::alloc::Global;

/// What the thread does under the lock.
#[derive(Clone, Copy, Debug, PartialEq, Eq)]
pub enum Role {
    /// It holds the lock alone, and stores this value to this cell.
    Writes(Cell, i64),
    /// It holds the lock beside others, and prints what it loads from this cell.
    Reads(Cell),
    /// It holds the lock alone, and does nothing.
    Passes,
}

/// What the thread comes to next.
#[derive(Clone, Copy, Debug, PartialEq, Eq)]
pub enum Place {
    Asking,
    Taking,
    Working,
    Printing,
    Giving,
    Ending,
    Over,
}

/// The thread, with the value that it has loaded.
#[derive(Clone, Copy, Debug)]
pub struct Thread {
    role: Role,
    place: Place,
    loaded: i64,
}

impl Role {
    ghost use Rattle.dsm_test_network.specs.Thread.{mode_of, place_taken, place_worked};

    fn mode(self) -> Mode
        ensures { result ≡ mode_of self }
    {
        match self {
            Role::Writes(..) | Role::Passes => Mode::Excl,
            Role::Reads(_) => Mode::Shared,
        }
    }

    /// Where a thread stands that has taken the lock.
    fn taken(self) -> Place
        ensures { result ≡ place_taken self }
    {
        match self {
            Role::Writes(..) | Role::Reads(_) => Place::Working,
            Role::Passes => Place::Giving,
        }
    }

    /// Where a thread stands that has loaded or stored.
    fn worked(self) -> Place
        ensures { result ≡ place_worked self }
    {
        match self {
            Role::Reads(_) => Place::Printing,
            Role::Writes(..) | Role::Passes => Place::Giving,
        }
    }
}

impl Thread {
    ghost use Rattle.dsm_test_network.specs.Thread.{next_place, want_worked};

    fn next(&self) -> Place
        ensures { result ≡ next_place self.now.role self.now.place }
    {
        match self.place {
            Place::Asking => Place::Taking,
            Place::Taking => self.role.taken(),
            Place::Working => self.role.worked(),
            Place::Printing => Place::Giving,
            Place::Giving => Place::Ending,
            Place::Ending | Place::Over => Place::Over,
        }
    }

    /// What it wants under the lock.
    fn work(&self) -> Want
        ensures { result ≡ want_worked self.now.role }
    {
        match self.role {
            Role::Writes(cell, value) => Want::Store(cell, value, 2),
            Role::Reads(cell) => Want::Load(cell, 2),
            Role::Passes => Want::Quiet,
        }
    }
}

impl Task for Thread {
    type State = Thread;

    ghost use Rattle.std.specs.Prelude.{Some};
    ghost use Rattle.dsm_test_network.specs.Thread.{want_at, thread_kind};

    ghost kind = { thread_kind };

    ghost told = { λ thread. Some (want_at thread.role thread.place) };

    fn want(&mut self) -> Want {
        match self.place {
            Place::Asking => Want::Ask(Lock(0), self.role.mode(), 1),
            Place::Taking => Want::Take(Lock(0), self.role.mode()),
            Place::Working => self.work(),
            Place::Printing => Want::Line,
            Place::Giving => Want::Give(Lock(0), 3),
            Place::Ending => Want::End,
            Place::Over => Want::Over,
        }
    }

    fn done(&mut self, answer: i64) {
        if let (Place::Working, Role::Reads(_)) = (self.place, self.role) {
            self.loaded = answer;
        }
        self.place = self.next();
    }

    fn stop(&mut self, _fault: Fault) {
        self.place = Place::Over;
    }

    fn text(&self) -> &[u8] {
        match self.loaded {
            0 => b"0",
            5 => b"5",
            _ => b"another",
        }
    }
}

/// One thread with a role of its own, and others that all have the same.
#[derive(Clone, Copy, Debug)]
pub struct Threads {
    pub one: Proc,
    pub role: Role,
    pub others: Role,
}

impl TaskMaker for Threads {
    type Made = Thread;

    ghost use Rattle.dsm_test_network.specs.Thread.{first_in};
    ghost use Rattle.dsm_test_network.specs.Laws.{asks_first};

    ghost first = { first_in };

    fn start(&self, _alloc: Global, me: Proc, _procs: u8) -> Result<Thread, MemFault> {
        let role = if me.0 == self.one.0 {
            self.role
        } else {
            self.others
        };
        Ok(Thread {
            role,
            place: Place::Asking,
            loaded: 0,
        })
    }

    ghost asks_first = { λ maker procs me. asks_first maker me };
}
