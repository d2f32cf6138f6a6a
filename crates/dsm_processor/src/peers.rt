//! What a processor knows of the turns of the others.

ghost use Rattle.std.specs.Prelude.{◌≡◌, ◌<◌, [], IfOk};
ghost use Rattle.dsm_base.specs.Family.{update, family_of};
ghost use Rattle.dsm_net.specs.Messages.{peer_after};
ghost use Rattle.dsm_processor.specs.Peers.{no_turns, peer_of, peers_of, peer_count};

use dsm_base::{MemFault, Proc};
use dsm_msg::Carry;
use sqlite_items::Items;
use std::alloc::Global;

/// Numbers of turns: the greatest one of another processor that came here, the greatest own one that it
/// has told to have seen, and that of its last body that counted.
#[derive(Clone, Copy, Debug, PartialEq, Eq)]
struct PeerTurns {
    seen: u32,
    told: u32,
    last: u32,
}

const NO_TURNS: PeerTurns = PeerTurns {
    seen: 0,
    told: 0,
    last: 0,
};

/// What is known of each processor's turns.
#[derive(Debug, Drop)]
pub struct Peers {
    turns: Items<PeerTurns>,
}

impl Peers {
    /// Of so many processors, before anything has come. `MemFault` comes out of memory.
    pub fn new(alloc: Global, procs: u8) -> Result<Peers, MemFault>
        ensures peers { IfOk result (λ peers. peers_of peers ≡ (λ p. peer_of no_turns)) }
        ensures count { IfOk result (λ peers. peer_count peers ≡ procs) }
    {
        Ok(Peers {
            turns: Items::from_vec(vec![in alloc; NO_TURNS; usize::from(procs)]?),
        })
    }

    #[tactic(auto, using(dsm_base::proofs::Families::items_or_default))]
    fn turns_of(&self, proc: Proc) -> PeerTurns
        ensures { result ≡ family_of (λ _. no_turns) self.now.turns proc.0 }
    {
        self.turns.get(proc.index()).copied().unwrap_or(NO_TURNS)
    }

    fn set(&mut self, proc: Proc, turns: PeerTurns)
        requires { proc.0 < peer_count self.old }
        ensures peers { peers_of self.new ≡ update (peers_of self.old) proc.0 (peer_of turns) }
        ensures count { peer_count self.new ≡ peer_count self.old }
    {
        self.turns.set(proc.index(), turns);
    }

    /// The greatest turn of a processor that came here.
    pub fn seen(&self, proc: Proc) -> u32
        ensures { result ≡ (peers_of self.now proc.0).seen }
    {
        self.turns_of(proc).seen
    }

    /// The turn of a processor's last body that counted.
    pub fn last(&self, proc: Proc) -> u32
        ensures { result ≡ (peers_of self.now proc.0).last }
    {
        self.turns_of(proc).last
    }

    /// Takes in what a message of a processor tells of turns.
    pub fn take_in(&mut self, from: Proc, carry: &Carry)
        requires { from.0 < peer_count self.old }
        ensures peers { peers_of self.new ≡
            update (peers_of self.old) from.0 (peer_after (peers_of self.old from.0) carry.now) }
        ensures count { peer_count self.new ≡ peer_count self.old }
    {
        let turns = self.turns_of(from);
        self.set(
            from,
            PeerTurns {
                seen: turns.seen.max(carry.turn),
                told: turns.told.max(carry.seen),
                last: turns.last,
            },
        );
    }

    /// A body of a processor's turn has counted.
    pub fn set_last(&mut self, from: Proc, turn: u32)
        requires { from.0 < peer_count self.old }
        ensures peers { peers_of self.new ≡
            update (peers_of self.old) from.0 (record (peers_of self.old from.0) { last = turn }) }
        ensures count { peer_count self.new ≡ peer_count self.old }
    {
        let turns = self.turns_of(from);
        self.set(
            from,
            PeerTurns {
                seen: turns.seen,
                told: turns.told,
                last: turn,
            },
        );
    }
}
