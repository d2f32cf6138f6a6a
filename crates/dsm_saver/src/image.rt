//! Images that are being written.

ghost use Rattle.std.specs.Prelude.{◌≡◌, ◌<◌, IfSome, MatchOption};
ghost use Rattle.dsm_base.specs.Store.{IsSlot, IsBlock, IsMark};
ghost use Rattle.dsm_saver.specs.Blocks.{IsImage, block_count, block_of};
ghost use Rattle.dsm_saver.specs.Answers.{advanced, mark_of};

use std::marker::Model;

/// The bytes of a block.
pub const BLOCK: usize = 512;

/// An image under way into a slot, with the number of its blocks that are written.
#[derive(Debug, Drop)]
pub struct UnderWay {
    bytes: Vec<u8>,
    turn: u32,
    slot: u8,
    written: u32,
}

impl Model for UnderWay {
    ghost use Rattle.dsm_saver.specs.States.{Image, IsUnderWay};

    ghost Value = { Image };

    ghost view = { λ image. record {
      bytes = image.bytes.items;
      turn = image.turn;
      slot = image.slot;
      written = image.written;
    } };

    ghost invariant = { λ image. IsUnderWay record {
      bytes = image.bytes.items;
      turn = image.turn;
      slot = image.slot;
      written = image.written;
    } };
}

impl UnderWay {
    /// An image of which nothing is written yet.
    pub fn new(bytes: Vec<u8>, turn: u32, slot: u8) -> UnderWay
        requires image { IsImage bytes.items }
        requires slot { IsSlot slot }
        ensures bytes { result.bytes ≡ bytes.items }
        ensures turn { result.turn ≡ turn }
        ensures slot { result.slot ≡ slot }
        ensures written { result.written ≡ 0 }
    {
        UnderWay {
            bytes,
            turn,
            slot,
            written: 0,
        }
    }

    /// The turn of its processor at which it was taken.
    pub fn turn(&self) -> u32
        ensures { result ≡ self.now.turn }
    {
        self.turn
    }

    /// The slot and the number of blocks with which it is marked once it is whole.
    pub fn mark(&self) -> (u8, u32)
        ensures value { result ≡ mark_of self.now }
        ensures mark { IsMark result }
    {
        (self.slot, (self.bytes.len() / BLOCK) as u32)
    }

    /// The number and the bytes of the next block to be written. `None` where all are written.
    pub fn next(&self) -> Option<(u32, &[u8])>
        ensures number { MatchOption result (self.now.written ≡ block_count self.now.bytes)
            (λ next. (next.0 ≡ self.now.written) × (next.0 < block_count self.now.bytes)) }
        ensures bytes { IfSome result (λ next. next.1.now ≡ block_of next.0 self.now.bytes) }
        ensures whole { IfSome result (λ next. IsBlock next.1.now) }
    {
        let start = self.written as usize * BLOCK;
        if start == self.bytes.len() {
            return None;
        }
        let (_, left) = self.bytes.split_at(start);
        let (block, _) = left.split_at(BLOCK);
        Some((self.written, block))
    }

    /// The same image with one block more written.
    pub fn advanced(self) -> UnderWay
        requires { self.written < block_count self.bytes }
        ensures { result ≡ advanced self }
    {
        UnderWay {
            written: self.written + 1,
            ..self
        }
    }
}
