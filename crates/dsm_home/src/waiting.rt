//! Who waits for a lock.

ghost use Rattle.std.specs.Prelude.{◌≡◌, ◌∷◌, ◌++◌, [], ◌<◌, ◌==◌, not, length, filter, find, remove, OnOk};
ghost use Rattle.std.specs.Option.{option_copied};

use dsm_base::{MemFault, Mode, Proc};
use smallvec::SmallVec;
use std::alloc::Global;
use std::marker::Model;

/// A request that waits for its grant: whose it is, the turn in which the lock would be taken, how, and
/// the version of the lock that the processor's own copy has.
#[derive(Clone, Copy, Debug, PartialEq, Eq)]
pub struct Waiting {
    pub proc: Proc,
    pub turn: u32,
    pub mode: Mode,
    pub have: u32,
}

impl Default for Waiting {
    fn default() -> Waiting {
        Waiting {
            proc: Proc(0),
            turn: 0,
            mode: Mode::Shared,
            have: 0,
        }
    }
}

/// Requests in order, the first of them at the front. A few of them take no memory.
#[derive(Debug, Drop)]
pub struct Queue {
    requests: SmallVec<Waiting, 4>,
}

impl Model for Queue {
    ghost use Rattle.std.specs.Prelude.{List};
    ghost use Rattle.dsm_home.specs.declared.waiting.Waiting.{Waiting};

    ghost Value = { List Waiting };

    ghost view = { λ queue. queue.requests.items };
}

impl Queue {
    /// No requests.
    pub fn new(alloc: Global) -> Queue
        ensures { result ≡ [] }
    {
        Queue {
            requests: SmallVec::new(alloc),
        }
    }

    /// Adds one at the end. `MemFault` comes out of memory.
    pub fn push(&mut self, request: Waiting) -> Result<(), MemFault>
        ensures { OnOk result (self.new ≡ self.old ++ request ∷ []) }
    {
        self.requests.push(request)?;
        Ok(())
    }

    /// Takes off the first one.
    pub fn drop_first(&mut self)
        requires { 0 < length self.old }
        ensures { self.new ≡ remove self.old 0 }
    {
        let _ = self.requests.remove(0);
    }

    /// Takes off those of a processor.
    pub fn let_go(&mut self, proc: Proc)
        ensures { self.new ≡ filter (λ one. not (one.proc.0 == proc.0)) self.old }
    {
        self.requests.retain(|one| one.proc.0 != proc.0);
    }

    /// The request of a processor.
    pub fn of(&self, proc: Proc) -> Option<&Waiting>
        ensures { option_copied result ≡ find (λ one. one.proc.0 == proc.0) self.now }
    {
        self.requests
            .as_slice()
            .iter()
            .find(|one| one.proc.0 == proc.0)
    }

    pub fn as_slice(&self) -> &[Waiting]
        ensures { result.now ≡ self.now }
    {
        self.requests.as_slice()
    }

    pub fn len(&self) -> usize
        ensures { result ≡ length self.now }
    {
        self.requests.len()
    }

    pub fn is_empty(&self) -> bool
        ensures { result ≡ (length self.now == 0) }
    {
        self.requests.is_empty()
    }
}
