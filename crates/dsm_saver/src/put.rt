//! Writing into a store.

ghost use Rattle.std.specs.Prelude.{◌≡◌, ◌<◌};
ghost use Rattle.dsm_base.specs.Causes.{HasFailureCause};
ghost use Rattle.dsm_base.specs.Store.{IsSlot, IsBlock, IsUnmarked, Writes};

use dsm_base::{Failed, Store};

/// Writes a block of a slot that isn't marked, and for which room was made.
pub fn put_block(store: &mut dyn Store, slot: u8, block: u32, bytes: &[u8]) -> Result<(), Failed>
    requires slot { IsSlot slot }
    requires unmarked { IsUnmarked slot (store_holds store.old) }
    requires room { block < store_room store.old slot }
    requires whole { IsBlock bytes.now }
    ensures writes { Writes slot block bytes.now (store_holds store.old) (store_holds store.new)
        result }
    ensures room { store_room store.new ≡ store_room store.old }
    ensures cause { HasFailureCause (store_faults store.old) (store_faults store.new) result }
{
    store.write(slot, block, bytes)
}
