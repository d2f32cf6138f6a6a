//! Savers.

ghost use Rattle.std.specs.Prelude.{◌≡◌, ◌≢◌, ℕ, ◌≤◌, ◌*◌, Some, None, [], length, IfOk, IfSome, MatchOption, MatchResult};
ghost use Rattle.dsm_base.specs.Store.{IsSlot, IsBlock, ChangesSlot, Stands};
ghost use Rattle.dsm_saver.specs.Blocks.{IsImage, saved, block_count, block_of, torn_after};
ghost use Rattle.dsm_saver.specs.States.{Fits, HasMark, HasImage, free_slot};
ghost use Rattle.dsm_saver.specs.Answers.{Begins, Advances, Tears, Leaves, GivesUpFor, NotBegunFor, stopped, saved_after};
ghost use Rattle.dsm_saver.specs.Loading.{HasLoadCause, Knows};

use crate::answers::{Begun, Wrote};
use crate::image::{BLOCK, UnderWay};
use crate::load::load_blocks;
use crate::put::put_block;
use dsm_base::{Failed, LoadErr, MemFault, ReadErr, Store};
use std::alloc::Global;
use std::marker::Model;

/// Writes the images of one processor into its store, block by block, and marks each once all its
/// blocks are written. Whatever stops it, the image that was marked last stays saved.
#[derive(Debug, Drop)]
pub struct Saver {
    marked: Option<(u8, u32)>,
    image: Option<UnderWay>,
}

impl Model for Saver {
    ghost use Rattle.dsm_saver.specs.States.{State, IsApart};

    ghost Value = { State };

    ghost view = { λ saver. record { marked = saver.marked; image = saver.image } };

    ghost invariant = { λ saver. IsApart saver.marked saver.image };
}

/// A block with only its first bytes, and zeros behind them.
fn torn_block(block: &[u8], kept: usize) -> [u8; BLOCK]
    requires whole { IsBlock block.now }
    requires kept { kept ≤ 512 }
    ensures { result ≡ torn_after kept block.now }
{
    let mut torn = [0; BLOCK];
    torn[..kept].copy_from_slice(&block[..kept]);
    torn
}

impl Saver {
    /// A saver that knows of no mark, with nothing under way.
    pub fn new() -> Saver
        ensures { result ≡ record { marked = None; image = None } }
    {
        Saver {
            marked: None,
            image: None,
        }
    }

    /// The lowest slot that isn't marked.
    fn free_slot(&self) -> u8
        ensures value { result ≡ free_slot self.now.marked }
        ensures slot { IsSlot result }
    {
        match self.marked {
            Some((0, _)) => 1,
            _ => 0,
        }
    }

    /// Begins to write an image of whole blocks, in the place of none, into the lowest slot that isn't
    /// marked, and makes the room for all of it. It gives up where the store failed. After want of
    /// memory nothing is under way.
    pub fn begin(
        &mut self,
        store: &mut dyn Store,
        bytes: Vec<u8>,
        turn: u32,
    ) -> Result<Begun, MemFault>
        requires none { self.old.image ≡ None }
        requires image { IsImage bytes.items }
        requires mark { HasMark self.old.marked (store_holds store.old) }
        ensures begins { MatchResult result (Begins self.old self.new bytes.items turn)
            (λ _. self.new ≡ self.old) }
        ensures fits { Fits self.new (store_holds store.new) (store_room store.new) }
        ensures changes { Stands (store_holds store.old) (store_holds store.new)
            (ChangesSlot (free_slot self.old.marked)) }
        ensures others { (s : ℕ) → s ≢ free_slot self.old.marked →
            store_room store.new s ≡ store_room store.old s }
        ensures saved { Stands (store_holds store.old) (store_holds store.new)
            (λ before now. saved now ≡ saved before) }
        ensures later { store_faults store.old ≤ store_faults store.new }
        ensures cause { IfOk result (NotBegunFor (store_faults store.old) (store_faults store.new)) }
    {
        let slot = self.free_slot();
        let image = UnderWay::new(bytes, turn, slot);
        let (_, blocks) = image.mark();
        match store.room(slot, blocks) {
            Ok(()) => {
                self.image = Some(image);
                Ok(Begun::Started(blocks))
            }
            Err(ReadErr::Failed) => Ok(Begun::GaveUp),
            Err(ReadErr::Memory) => Err(MemFault),
        }
    }

    /// Gives up the image under way, if there is one.
    pub fn stop(&mut self)
        ensures { self.new ≡ stopped self.old }
    {
        self.image = None;
    }

    /// Writes the next block of the image under way, or marks it where all are written.
    pub fn block(&mut self, store: &mut dyn Store) -> Wrote
        requires { Fits self.old (store_holds store.old) (store_room store.old) }
        ensures advances { Advances self.old self.new result }
        ensures leaves { MatchOption self.old.image (store_holds store.new ≡ store_holds store.old)
            (λ image. Stands (store_holds store.old) (store_holds store.new)
            (Leaves image (block_of image.written image.bytes) result)) }
        ensures room { store_room store.new ≡ store_room store.old }
        ensures fits { Fits self.new (store_holds store.new) (store_room store.new) }
        ensures saved { Stands (store_holds store.old) (store_holds store.new)
            (λ before now. saved now ≡ saved_after self.old result (saved before)) }
        ensures cause { GivesUpFor (store_faults store.old) (store_faults store.new) result }
    {
        let Some(image) = self.image.take() else {
            return Wrote::Nothing;
        };
        let Some((block, bytes)) = image.next() else {
            return self.finish(image, store);
        };
        let (slot, _) = image.mark();
        match put_block(store, slot, block, bytes) {
            Ok(()) => {
                self.image = Some(image.advanced());
                Wrote::Block(block)
            }
            Err(Failed) => Wrote::GaveUp,
        }
    }

    /// Marks the image that was under way, of which all blocks are written.
    fn finish(&mut self, image: UnderWay, store: &mut dyn Store) -> Wrote
        requires none { self.old.image ≡ None }
        requires mark { HasMark self.old.marked (store_holds store.old) }
        requires image { HasImage image (store_holds store.old) (store_room store.old) }
        requires written { image.written ≡ block_count image.bytes }
        ensures finishes { Advances (record self.old { image = Some image }) self.new result }
        ensures leaves { Stands (store_holds store.old) (store_holds store.new)
            (Leaves image [] result) }
        ensures room { store_room store.new ≡ store_room store.old }
        ensures cause { GivesUpFor (store_faults store.old) (store_faults store.new) result }
    {
        let (slot, blocks) = image.mark();
        match store.mark(slot, blocks) {
            Ok(()) => {
                self.marked = Some((slot, blocks));
                Wrote::Marked(image.turn())
            }
            Err(Failed) => Wrote::GaveUp,
        }
    }

    /// Writes the next block of the image under way with its first bytes alone and zeros behind them,
    /// as a crash leaves it, and gives the image up. It never marks.
    pub fn torn(&mut self, store: &mut dyn Store, kept: u32) -> Wrote
        requires fits { Fits self.old (store_holds store.old) (store_room store.old) }
        requires kept { kept ≤ 512 }
        ensures tears { Tears self.old self.new result }
        ensures leaves { MatchOption self.old.image (store_holds store.new ≡ store_holds store.old)
            (λ image. Stands (store_holds store.old) (store_holds store.new)
            (Leaves image (torn_after kept (block_of image.written image.bytes)) result)) }
        ensures room { store_room store.new ≡ store_room store.old }
        ensures fits { Fits self.new (store_holds store.new) (store_room store.new) }
        ensures saved { Stands (store_holds store.old) (store_holds store.new)
            (λ before now. saved now ≡ saved before) }
        ensures cause { GivesUpFor (store_faults store.old) (store_faults store.new) result }
    {
        let Some(image) = &self.image else {
            return Wrote::Nothing;
        };
        let Some((block, bytes)) = image.next() else {
            return Wrote::Nothing;
        };
        let torn = torn_block(bytes, kept as usize);
        let (slot, _) = image.mark();
        let answer = put_block(store, slot, block, &torn);
        self.stop();
        match answer {
            Ok(()) => Wrote::Block(block),
            Err(Failed) => Wrote::GaveUp,
        }
    }

    /// Loads the image that is saved, if the store has one, and gives up the one under way. After
    /// `StoreFault` the store's count of failures rose.
    pub fn load_last(
        &mut self,
        alloc: Global,
        store: &mut dyn Store,
    ) -> Result<Option<Vec<u8>>, LoadErr>
        ensures loaded { IfOk result (λ found. IfSome (store_holds store.old)
            (λ contents. MatchOption found (saved contents ≡ None)
            (λ bytes. saved contents ≡ Some bytes.items))) }
        ensures blocks { IfOk result (λ found. MatchOption found (self.new.marked ≡ None)
            (λ bytes. IfSome self.new.marked (λ mark. length bytes.items ≡ mark.1 * 512))) }
        ensures stopped { self.new.image ≡ None }
        ensures knows { Knows self.old.marked self.new.marked (store_holds store.old) result }
        ensures same { store_holds store.new ≡ store_holds store.old }
        ensures room { store_room store.new ≡ store_room store.old }
        ensures cause { HasLoadCause (store_faults store.old) (store_faults store.new) result }
    {
        self.stop();
        self.marked = store.marked()?;
        let Some((slot, blocks)) = self.marked else {
            return Ok(None);
        };
        let bytes = load_blocks(alloc, store, slot, blocks)?;
        Ok(Some(bytes))
    }
}
