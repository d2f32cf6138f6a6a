//! What a store of checkpoint images is.

ghost use Rattle.std.specs.Prelude.{◌≡◌, ◌<◌, length, IfOk, OnOk};

use crate::errors::{Failed, ReadErr};

/// Three slots, 0 to 2, of blocks of 512 bytes, and one mark. What it holds is known only where it
/// tells. No call changes a slot that it doesn't name.
pub trait Store: Drop {
    ghost use Rattle.std.specs.Prelude.{ℕ, Option};
    ghost use Rattle.dsm_base.specs.Causes.{HasCause, HasFailureCause};
    ghost use Rattle.dsm_base.specs.Store.{Contents, IsSlot, IsBlock, IsMark, IsMarkOrNone, IsUnmarked};
    ghost use Rattle.dsm_base.specs.Store.{Clears, Marks, ChangesSlot, Stands, Writes, MakesRoom, ReadsBlock, TellsMark};

    /// The blocks and the mark, where it tells.
    ghost store_holds: { Self → Option Contents };

    /// For how many blocks of a slot room was made.
    ghost store_room: { Self → ℕ → ℕ };

    /// How often it has failed.
    ghost store_faults: { Self → ℕ };

    /// No slot is marked any more. After `Failed` the mark stands as before or is gone.
    fn clear(&mut self) -> Result<(), Failed>
        ensures cleared { Clears (store_holds self.old) (store_holds self.new) result }
        ensures room { store_room self.new ≡ store_room self.old }
        ensures cause { HasFailureCause (store_faults self.old) (store_faults self.new) result };

    /// Makes room for so many blocks of a slot that isn't marked, whose contents may change: writes
    /// of them need no memory from now on.
    fn room(&mut self, slot: u8, blocks: u32) -> Result<(), ReadErr>
        requires slot { IsSlot slot }
        requires unmarked { IsUnmarked slot (store_holds self.old) }
        ensures changes { Stands (store_holds self.old) (store_holds self.new) (ChangesSlot slot) }
        ensures room { MakesRoom slot blocks (store_room self.old) (store_room self.new) result }
        ensures cause { HasCause (store_faults self.old) (store_faults self.new) result };

    /// The block now reads as these 512 bytes. After `Failed` it may read as anything.
    fn write(&mut self, slot: u8, block: u32, bytes: &[u8]) -> Result<(), Failed>
        requires slot { IsSlot slot }
        requires unmarked { IsUnmarked slot (store_holds self.old) }
        requires room { block < store_room self.old slot }
        requires whole { IsBlock bytes.now }
        ensures writes { Writes slot block bytes.now (store_holds self.old) (store_holds self.new)
            result }
        ensures room { store_room self.new ≡ store_room self.old }
        ensures cause { HasFailureCause (store_faults self.old) (store_faults self.new) result };

    /// This slot is marked now, with at least one block. After `Failed` the mark stands as before.
    fn mark(&mut self, slot: u8, blocks: u32) -> Result<(), Failed>
        requires { IsMark (slot, blocks) }
        ensures marks { Marks (slot, blocks) (store_holds self.old) (store_holds self.new) result }
        ensures room { store_room self.new ≡ store_room self.old }
        ensures cause { HasFailureCause (store_faults self.old) (store_faults self.new) result };

    /// The marked slot and its number of blocks. What is found that is no mark is a failure.
    fn marked(&mut self) -> Result<Option<(u8, u32)>, Failed>
        ensures told { IfOk result (TellsMark (store_holds self.old)) }
        ensures range { IfOk result IsMarkOrNone }
        ensures same { store_holds self.new ≡ store_holds self.old }
        ensures room { store_room self.new ≡ store_room self.old }
        ensures cause { HasFailureCause (store_faults self.old) (store_faults self.new) result };

    /// Reads the 512 bytes of a block.
    fn read(&mut self, slot: u8, block: u32, into: &mut [u8]) -> Result<(), Failed>
        requires slot { IsSlot slot }
        requires whole { IsBlock into.old }
        ensures block { OnOk result (ReadsBlock slot block (store_holds self.old) into.new) }
        ensures whole { IsBlock into.new }
        ensures same { store_holds self.new ≡ store_holds self.old }
        ensures room { store_room self.new ≡ store_room self.old }
        ensures cause { HasFailureCause (store_faults self.old) (store_faults self.new) result };

    /// How often it has failed.
    fn faults(&self) -> u64
        ensures { result ≡ store_faults self.now };
}
