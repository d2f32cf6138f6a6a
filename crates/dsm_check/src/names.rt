//! What names stand for.

ghost use Rattle.std.specs.Prelude.{◌≡◌, [], ◌∷◌, None, IsTrue, IfSome, OnOk};
ghost use Rattle.dsm_check.specs.Environments.{known, meaning};
ghost use Rattle.dsm_check.specs.Tables.{IsFound, shown};
ghost use Rattle.dsm_check.specs.Numbers.{is_next, is_numbered, IsThere};

use dsm_base::MemFault;
use dsm_syntax::{Returns, Sharing};
use indexmap::IndexMap;
use std::alloc::Global;

/// What a name stands for.
#[derive(Clone, Copy, Debug, PartialEq, Eq)]
pub enum Named {
    /// A cell, by its number; or an array of cells, by the number of the first and the size.
    Cells(Sharing, u32, Option<u32>),
    /// A lock, by its number; or an array of locks, by the number of the first and the size.
    Locks(u16, Option<u16>),
    /// A barrier, by its number.
    Barrier(u8),
    /// A function, by its number, with the number of its parameters.
    Function {
        number: u16,
        returns: Returns,
        params: u8,
    },
    /// A parameter or variable of a function, by its slot.
    Variable(u8),
}

/// The names of a file with what they stand for, in the order of the text.
#[derive(Drop)]
pub struct Names {
    map: IndexMap<Vec<u8>, Named>,
    ghost found: { IsFound (λ key. key.items) map.entries },
    ghost numbered: { IsTrue (is_numbered (shown (λ key. key.items) map.entries)) },
}

impl Names {
    ghost use Rattle.dsm_check.specs.FileTables.{names_of};

    /// No names.
    pub(crate) fn new(alloc: Global) -> Names
        ensures { names_of result ≡ [] }
    {
        Names {
            map: IndexMap::new(alloc),
        }
    }

    /// What a name stands for.
    pub fn get(&self, name: &[u8]) -> Option<Named>
        ensures value { result ≡ meaning (names_of self.now) name.now }
        ensures there { IfSome result (IsThere (names_of self.now)) }
    {
        self.map.get(name).copied()
    }

    /// Adds a name that isn't there.
    pub(crate) fn add(&mut self, alloc: Global, name: &[u8], named: Named) -> Result<(), MemFault>
        requires new { meaning (names_of self.old) name.now ≡ None }
        requires next { IsTrue (is_next (names_of self.old) named) }
        ensures { OnOk result (names_of self.new ≡ known name.now named ∷ names_of self.old) }
    {
        self.map.insert(Vec::from_slice(alloc, name)?, named)?;
        Ok(())
    }
}
