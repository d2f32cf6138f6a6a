//! Loading what stands in a slot.

ghost use Rattle.std.specs.Prelude.{◌≡◌, ◌*◌, length, IfOk, IfSome};
ghost use Rattle.dsm_base.specs.Store.{IsSlot};
ghost use Rattle.dsm_saver.specs.Blocks.{first_blocks};
ghost use Rattle.dsm_saver.specs.Loading.{HasLoadCause};

use crate::image::BLOCK;
use dsm_base::{LoadErr, Store};
use std::alloc::Global;

/// The first blocks of a slot, one after the other. `StoreFault` where a read failed, and `Memory` where
/// there is none for the bytes.
pub fn load_blocks(
    alloc: Global,
    store: &mut dyn Store,
    slot: u8,
    blocks: u32,
) -> Result<Vec<u8>, LoadErr>
    requires { IsSlot slot }
    ensures bytes { IfOk result (λ bytes. IfSome (store_holds store.old)
        (λ contents. bytes.items ≡ first_blocks slot blocks contents)) }
    ensures length { IfOk result (λ bytes. length bytes.items ≡ blocks * 512) }
    ensures same { store_holds store.new ≡ store_holds store.old }
    ensures room { store_room store.new ≡ store_room store.old }
    ensures cause { HasLoadCause (store_faults store.old) (store_faults store.new) result }
{
    let mut bytes = Vec::new(alloc);
    let mut block = [0; BLOCK];
    for number in 0..blocks {
        store.read(slot, number, &mut block)?;
        bytes.extend_from_slice(&block)?;
    }
    Ok(bytes)
}
