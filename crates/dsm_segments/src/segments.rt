//! Chains of segments in one slab.

ghost use Rattle.std.specs.Prelude.{◌≡◌, ◌<◌, ◌≤◌, ◌+◌, ◌-◌, ◌^◌, ◌/◌, ◌++◌, ℕ, [], ◌∷◌, length, min, vec_len, OnOk, IfOk};
ghost use Rattle.std.specs.List.{slice_index_or};
ghost use Rattle.std.specs.Option.{option_copied};
ghost use Rattle.dsm_base.specs.Family.{update};
ghost use Rattle.dsm_segments.specs.Entries.{IsRising, behind, entries, latest, newest, over, segments};

use crate::chain;
use crate::numbered::Numbered;
use crate::segment::Segment;
use dsm_base::MemFault;
use slab::Slab;
use sqlite_items::Items;
use std::alloc::Global;
use std::marker::Model;

/// Entries in order, a chain of them for each number of an owner. Contracts see, for each owner, the
/// segments of its chain, each a list of entries.
#[derive(Drop)]
pub struct Segments<T> {
    alloc: Global,
    slab: Slab<Segment<T>>,
    /// The keys of each chain's segments.
    chains: Vec<Items<usize>>,
}

impl<T> Model for Segments<T> {
    ghost use Rattle.std.specs.Prelude.{List};
    ghost use Rattle.std.specs.Coded.{coded_list};
    ghost use Rattle.dsm_segments.specs.Chains.{chains_of};
    ghost use Rattle.dsm_segments.specs.Sound.{AreSound};

    ghost Value = { List (List (List T)) };

    ghost coded = { coded_list (coded_list (coded_list T.code)) };

    ghost view = { λ log. chains_of log.slab log.chains.items };

    ghost invariant = { λ log. AreSound log.slab log.chains.items };
}

/// The keys of a chain's segments.
fn keys_of(chains: &[Items<usize>], owner: usize) -> &[usize]
    ensures { result.now ≡ slice_index_or chains.now owner [] }
{
    match chains.get(owner) {
        Some(keys) => keys.as_slice(),
        None => &[],
    }
}

/// Makes a place for a chain where there is none yet.
fn reach(alloc: Global, chains: &mut Vec<Items<usize>>, owner: usize) -> Result<(), MemFault>
    ensures reached { OnOk result (owner < vec_len chains.new) }
    ensures same { (other : ℕ) → slice_index_or chains.new.items other []
        ≡ slice_index_or chains.old.items other [] }
{
    while chains.len() <= owner {
        chains.push(Items::new(alloc))?;
    }
    Ok(())
}

impl<T> Segments<T> {
    /// No entries. It takes memory only when one is added.
    pub fn new(alloc: Global) -> Segments<T>
        ensures { result ≡ [] }
    {
        Segments {
            alloc,
            slab: Slab::new(alloc),
            chains: Vec::new(alloc),
        }
    }

    /// How many segments hold the entries of a chain.
    pub fn segments(&self, owner: usize) -> usize
        ensures value { result ≡ length (segments self.now owner) }
        ensures few { result ≤ length (entries self.now owner) / 64 + 2 }
    {
        keys_of(self.chains.as_slice(), owner).len()
    }

    /// How many entries a chain has, at most as many as 64 bits tell.
    pub fn count(&self, owner: usize) -> usize
        ensures { result ≡ min (length (entries self.now owner)) (2 ^ 64 - 1) }
    {
        chain::count(&self.slab, keys_of(self.chains.as_slice(), owner))
    }

    /// The last entry of a chain.
    pub fn last(&self, owner: usize) -> Option<&T>
        ensures { option_copied result ≡ newest (entries self.now owner) }
    {
        chain::last(&self.slab, keys_of(self.chains.as_slice(), owner))
    }
}

impl<T: Drop> Segments<T> {
    /// Adds an entry at the end of a chain, whatever the chains hold at the same cost. `MemFault` is out
    /// of memory.
    pub fn push(&mut self, owner: usize, entry: T) -> Result<(), MemFault>
        ensures { OnOk result (entries self.new
            ≡ update (entries self.old) owner (entries self.old owner ++ entry ∷ [])) }
    {
        reach(self.alloc, &mut self.chains, owner)?;
        let keys = &mut self.chains[owner];
        chain::append(self.alloc, &mut self.slab, owner, keys, entry)
    }

    /// Lets all entries of all chains go. It takes no memory.
    pub fn clear(&mut self)
        ensures { self.new ≡ [] }
    {
        self.chains.clear();
        self.slab.clear();
    }
}

impl<T: Numbered> Segments<T> {
    /// Copies of a chain's entries. `MemFault` is out of memory.
    pub fn all(&self, owner: usize) -> Result<Items<T>, MemFault>
        ensures { IfOk result (λ found. found ≡ entries self.now owner) }
    {
        chain::all(
            self.alloc,
            &self.slab,
            keys_of(self.chains.as_slice(), owner),
        )
    }

    /// Copies of a chain's entries over a number. `MemFault` is out of memory.
    pub fn since(&self, owner: usize, least: u32) -> Result<Items<T>, MemFault>
        ensures { IfOk result (λ found. found ≡ over T.log_number least (entries self.now owner)) }
    {
        chain::since(
            self.alloc,
            &self.slab,
            keys_of(self.chains.as_slice(), owner),
            least,
        )
    }

    /// The last entry of a chain with this number.
    pub fn latest(&self, owner: usize, number: u32) -> Option<&T>
        ensures { option_copied result ≡ latest T.log_number number (entries self.now owner) }
    {
        chain::latest(&self.slab, keys_of(self.chains.as_slice(), owner), number)
    }

    /// Lets the entries at the front of a chain go that are not over a number. It takes no memory.
    /// Where the numbers rise, these are all that are not over it.
    pub fn prune(&mut self, owner: usize, upto: u32)
        ensures front { entries self.new
            ≡ update (entries self.old) owner (behind T.log_number upto (entries self.old owner)) }
        ensures pruned { IsRising T.log_number (entries self.old owner)
            → entries self.new owner ≡ over T.log_number upto (entries self.old owner) }
    {
        if owner < self.chains.len() {
            chain::prune(&mut self.slab, owner, &mut self.chains[owner], upto);
        }
    }
}
