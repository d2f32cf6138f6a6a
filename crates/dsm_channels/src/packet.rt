//! A message as bytes.

ghost use Rattle.std.specs.Prelude.{◌≡◌, IfOk};
ghost use Rattle.dsm_msg.specs.Spelling.{IsInOrder};

use dsm_base::MemFault;
use dsm_msg::{Msg, read_msg, write_msg};
use dsm_net::Letter;
use std::alloc::Global;
use std::marker::Model;

/// The bytes of a message with its number, which contracts see as the letter that they spell.
#[derive(Drop)]
pub struct Packet {
    number: u32,
    bytes: Vec<u8>,
}

impl Model for Packet {
    ghost use Rattle.dsm_net.specs.declared.trace.Letter.{Letter};
    ghost use Rattle.dsm_net.specs.contracts.trace.Letter.{the_row};
    ghost use Rattle.dsm_msg.specs.Answers.{Spells};
    ghost use Rattle.dsm_channels.specs.Packets.{message_in};

    ghost Value = { Letter };

    ghost coded = { the_row.coded };

    ghost view = { λ packet. record { number = packet.number; msg = message_in packet.bytes.items } };

    ghost invariant = { λ packet. Spells packet.bytes.items (message_in packet.bytes.items) };
}

impl Packet {
    /// A message that keeps each range and order, with its number. `MemFault` comes out of memory.
    pub fn new(alloc: Global, number: u32, msg: &Msg) -> Result<Packet, MemFault>
        requires { IsInOrder msg.now }
        ensures { IfOk result (λ packet. packet ≡ record { number = number; msg = msg.now }) }
    {
        let mut bytes = Vec::new(alloc);
        write_msg(msg, &mut bytes)?;
        Ok(Packet { number, bytes })
    }

    /// The message, read from its bytes, with its number. `MemFault` comes out of memory.
    pub fn letter(&self, alloc: Global) -> Result<Letter, MemFault>
        ensures { IfOk result (λ letter. letter ≡ self.now) }
    {
        match read_msg(alloc, self.bytes.as_slice()) {
            Ok(msg) => Ok(Letter {
                number: self.number,
                msg,
            }),
            Err(_) => Err(MemFault),
        }
    }
}
