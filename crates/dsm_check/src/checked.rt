//! Programs that the rules accept.

ghost use Rattle.dsm_check.specs.Accepted.{IsAccepted, program_from};

use crate::names::Names;
use crate::resolved::Function;
use dsm_base::{MemFault, Piece, Setup};
use sqlite_items::Items;
use std::alloc::Global;

/// A program that the rules accept, with every name resolved.
#[derive(Drop)]
pub struct Checked {
    pub(crate) names: Names,
    pub(crate) main: u16,
    pub(crate) shared_cells: u32,
    pub(crate) private_cells: u32,
    pub(crate) locks: u16,
    pub(crate) barriers: u8,
    pub(crate) pieces: Items<Piece>,
    pub(crate) functions: Vec<Function>,
    ghost accepted: { ∥ IsAccepted (program_from names main shared_cells private_cells locks
        barriers pieces functions.items) ∥₁ },
}

impl Checked {
    ghost use Rattle.std.specs.Prelude.{◌≡◌, map, IsTrue, IfOk};
    ghost use Rattle.dsm_base.specs.Setups.{is_proc_count};
    ghost use Rattle.dsm_check.specs.Views.{view_function};
    ghost use Rattle.dsm_check.specs.Setups.{IsSetupOf};
    ghost use Rattle.dsm_check.specs.FileTables.{names_of};
    ghost use Rattle.dsm_check.specs.CheckedViews.{program_of};

    /// The names of the file.
    pub fn names(&self) -> &Names
        ensures { names_of result.now ≡ (program_of self.now).names }
    {
        &self.names
    }

    /// The number of `main`.
    pub fn main(&self) -> u16
        ensures { result ≡ (program_of self.now).main }
    {
        self.main
    }

    /// The number of cells that each processor has of its own.
    pub fn private_cells(&self) -> u32
        ensures { result ≡ (program_of self.now).private_cells }
    {
        self.private_cells
    }

    /// The functions, in the order of the text.
    pub fn functions(&self) -> &[Function]
        ensures { map view_function result.now ≡ (program_of self.now).functions }
    {
        self.functions.as_slice()
    }

    /// How the program is set up for 2 to 16 processors. `MemFault` comes out of memory.
    pub fn setup(&self, alloc: Global, procs: u8) -> Result<Setup, MemFault>
        requires { IsTrue (is_proc_count procs) }
        ensures { IfOk result (IsSetupOf (program_of self.now) procs) }
    {
        Ok(Setup {
            procs,
            locks: self.locks,
            bars: self.barriers,
            cells: self.shared_cells,
            bindings: Items::from_slice(alloc, self.pieces.as_slice())?,
        })
    }
}
