//! What is under way, for each sender and receiver.

ghost use Rattle.std.specs.Prelude.{◌≡◌, ◌<◌, ◌++◌, ◌∷◌, [], length, slice_index_or, slice_set, replicate, IfOk, OnOk, OnErr, MatchOption, ⊤};
ghost use Rattle.dsm_base.specs.Family.{update_at};
ghost use Rattle.dsm_msg.specs.Spelling.{IsInOrder};
ghost use Rattle.dsm_channels.specs.Channels.{under_way, with_channel, proc_count};

use crate::packet::Packet;
use dsm_base::{MemFault, Proc};
use dsm_msg::Msg;
use dsm_net::Letter;
use std::alloc::Global;
use std::collections::VecDeque;
use std::marker::Model;

/// What is under way from one processor to another, the oldest first.
#[derive(Drop)]
struct Channel {
    packets: VecDeque<Packet>,
}

impl Model for Channel {
    ghost use Rattle.std.specs.Prelude.{List};
    ghost use Rattle.std.specs.Coded.{coded_list};
    ghost use Rattle.dsm_net.specs.declared.trace.Letter.{Letter};
    ghost use Rattle.dsm_net.specs.contracts.trace.Letter.{the_row};

    ghost Value = { List Letter };

    ghost coded = { coded_list the_row.coded };

    ghost view = { λ channel. channel.packets.items };
}

impl Channel {
    /// A channel with nothing under way.
    fn new(alloc: Global) -> Channel
        ensures { result ≡ [] }
    {
        Channel {
            packets: VecDeque::new(alloc),
        }
    }

    /// One more is under way.
    fn push(&mut self, packet: Packet) -> Result<(), MemFault>
        ensures ok { OnOk result (self.new ≡ self.old ++ packet ∷ []) }
        ensures err { OnErr result (self.new ≡ self.old) }
    {
        self.packets.push_back(packet)?;
        Ok(())
    }

    /// The oldest, which is then no longer under way. After an error all is as before.
    fn take(&mut self, alloc: Global) -> Result<Option<Letter>, MemFault>
        ensures ok { IfOk result (λ taken. MatchOption taken ((self.old ≡ []) × (self.new ≡ [])) (λ letter. self.old ≡ letter ∷ self.new)) }
        ensures err { OnErr result (self.new ≡ self.old) }
    {
        let Some(oldest) = self.packets.front() else {
            return Ok(None);
        };
        let letter = oldest.letter(alloc)?;
        let _oldest = self.packets.pop_front();
        Ok(Some(letter))
    }

    fn len(&self) -> usize
        ensures { result ≡ length self.now }
    {
        self.packets.len()
    }
}

/// The channels of one sender, by receiver.
#[derive(Drop)]
struct Outgoing {
    channels: Vec<Channel>,
}

impl Model for Outgoing {
    ghost use Rattle.std.specs.Prelude.{List};
    ghost use Rattle.std.specs.Coded.{coded_list};
    ghost use Rattle.dsm_net.specs.declared.trace.Letter.{Letter};
    ghost use Rattle.dsm_net.specs.contracts.trace.Letter.{the_row};

    ghost Value = { List (List Letter) };

    ghost coded = { coded_list (coded_list the_row.coded) };

    ghost view = { λ outgoing. outgoing.channels.items };
}

impl Outgoing {
    /// Empty channels to so many.
    fn new(alloc: Global, procs: u8) -> Result<Outgoing, MemFault>
        ensures { IfOk result (λ outgoing. outgoing ≡ replicate procs []) }
    {
        let mut channels = Vec::new(alloc);
        for _receiver in 0..procs {
            channels.push(Channel::new(alloc))?;
        }
        Ok(Outgoing { channels })
    }

    fn push(&mut self, to: Proc, packet: Packet) -> Result<(), MemFault>
        requires { to.0 < length self.old }
        ensures ok { OnOk result (self.new ≡ slice_set self.old to.0 (slice_index_or self.old to.0 [] ++ packet ∷ [])) }
        ensures err { OnErr result (self.new ≡ self.old) }
    {
        self.channels[to.index()].push(packet)
    }

    fn take(&mut self, alloc: Global, to: Proc) -> Result<Option<Letter>, MemFault>
        requires { to.0 < length self.old }
        ensures ok { IfOk result (λ taken. MatchOption taken ((slice_index_or self.old to.0 [] ≡ []) × (self.new ≡ self.old)) (λ letter. (slice_index_or self.old to.0 [] ≡ letter ∷ slice_index_or self.new to.0 []) × (self.new ≡ slice_set self.old to.0 (slice_index_or self.new to.0 [])))) }
        ensures err { OnErr result (self.new ≡ self.old) }
    {
        self.channels[to.index()].take(alloc)
    }

    fn len(&self, to: Proc) -> usize
        requires { to.0 < length self.now }
        ensures { result ≡ length (slice_index_or self.now to.0 []) }
    {
        self.channels[to.index()].len()
    }
}

/// What is under way from each processor to each, which contracts see as lists of letters by sender and
/// receiver, each with the oldest first. From its sending to its delivery a message is kept as its bytes.
#[derive(Drop)]
pub struct Channels {
    senders: Vec<Outgoing>,
}

impl Model for Channels {
    ghost use Rattle.std.specs.Prelude.{List};
    ghost use Rattle.std.specs.Coded.{coded_list};
    ghost use Rattle.dsm_net.specs.declared.trace.Letter.{Letter};
    ghost use Rattle.dsm_net.specs.contracts.trace.Letter.{the_row};
    ghost use Rattle.dsm_channels.specs.Channels.{AreSquare};

    ghost Value = { List (List (List Letter)) };

    ghost coded = { coded_list (coded_list (coded_list the_row.coded)) };

    ghost view = { λ channels. channels.senders.items };

    ghost invariant = { λ channels. AreSquare channels.senders.items };
}

impl Channels {
    /// Nothing is under way between so many processors. `MemFault` comes out of memory.
    pub fn new(alloc: Global, procs: u8) -> Result<Channels, MemFault>
        ensures letters { IfOk result (λ channels. under_way channels ≡ (λ from to. [])) }
        ensures procs { IfOk result (λ channels. proc_count channels ≡ procs) }
    {
        let mut senders = Vec::new(alloc);
        for _sender in 0..procs {
            senders.push(Outgoing::new(alloc, procs)?)?;
        }
        Ok(Channels { senders })
    }

    /// A message with this number is sent to whom it is for. It comes behind those that are under way
    /// there. `MemFault` comes out of memory, and all is then as before.
    pub fn send(&mut self, alloc: Global, number: u32, msg: &Msg) -> Result<(), MemFault>
        requires from { msg.now.from.0 < proc_count self.old }
        requires to { msg.now.to.0 < proc_count self.old }
        requires order { IsInOrder msg.now }
        ensures letters { OnOk result (under_way self.new ≡ update_at (under_way self.old) msg.now.from.0 msg.now.to.0
            (under_way self.old msg.now.from.0 msg.now.to.0 ++ record { number = number; msg = msg.now } ∷ [])) }
        ensures procs { proc_count self.new ≡ proc_count self.old }
        ensures err { OnErr result (self.new ≡ self.old) }
    {
        let packet = Packet::new(alloc, number, msg)?;
        self.senders[msg.from.index()].push(msg.to, packet)
    }

    /// The oldest message from one processor to another, where one is under way; it is no longer.
    /// `MemFault` comes out of memory, and all is then as before.
    pub fn deliver(
        &mut self,
        alloc: Global,
        from: Proc,
        to: Proc,
    ) -> Result<Option<Letter>, MemFault>
        requires from { from.0 < proc_count self.old }
        requires to { to.0 < proc_count self.old }
        ensures letter { IfOk result (λ taken. MatchOption taken (under_way self.old from.0 to.0 ≡ [])
            (λ letter. under_way self.old from.0 to.0 ≡ letter ∷ under_way self.new from.0 to.0)) }
        ensures others { under_way self.new ≡ update_at (under_way self.old) from.0 to.0 (under_way self.new from.0 to.0) }
        ensures none { IfOk result (λ taken. MatchOption taken (self.new ≡ self.old) (λ letter. ⊤)) }
        ensures procs { proc_count self.new ≡ proc_count self.old }
        ensures err { OnErr result (self.new ≡ self.old) }
    {
        self.senders[from.index()].take(alloc, to)
    }

    /// How many messages are under way from one processor to another.
    pub fn count(&self, from: Proc, to: Proc) -> usize
        requires from { from.0 < proc_count self.now }
        requires to { to.0 < proc_count self.now }
        ensures { result ≡ length (under_way self.now from.0 to.0) }
    {
        self.senders[from.index()].len(to)
    }
}
