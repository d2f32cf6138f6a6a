//! One chain, by the keys of its segments, the oldest first.

ghost use Rattle.std.specs.Prelude.{◌≡◌, ◌++◌, ◌-◌, ◌^◌, ℕ, List, [], ◌∷◌, length, min, MatchOption, OnOk, IfOk};
ghost use Rattle.std.specs.Option.{option_copied};
ghost use Rattle.slab.specs.Slab.{get};
ghost use Rattle.dsm_segments.specs.Entries.{behind, latest, newest, over};
ghost use Rattle.dsm_segments.specs.Chains.{entries_at, entries_of, segments_of, AreThere};
ghost use Rattle.dsm_segments.specs.Sound.{IsSound, IsClosed, Changes};
ghost use Rattle.dsm_segments.specs.Steps.{HasRoomAt};

use crate::numbered::Numbered;
use crate::segment::{SEGMENT, Segment, copy_all, copy_over, fill, latest_in, trim};
use dsm_base::MemFault;
use slab::Slab;
use sqlite_items::Items;
use std::alloc::Global;

/// The last key.
fn last_key(keys: &[usize]) -> Option<usize>
    ensures { MatchOption result (keys.now ≡ [])
        (λ last. (front : List ℕ) × (keys.now ≡ front ++ last ∷ [])) }
{
    keys.last().copied()
}

/// The entries of the segment under a key.
fn entries_at<T>(slab: &Slab<Segment<T>>, key: usize) -> &[T]
    ensures { result.now ≡ entries_at (get slab.now key) }
{
    match slab.get(key) {
        Some(segment) => segment.entries.as_slice(),
        None => &[],
    }
}

/// The key of the last segment, where that has room for one more entry.
fn open_segment<T>(slab: &Slab<Segment<T>>, keys: &[usize]) -> Option<usize>
    ensures { MatchOption result (IsClosed (segments_of slab.now keys.now))
        (HasRoomAt slab.now keys.now) }
{
    let last = match last_key(keys) {
        Some(last) => last,
        None => return None,
    };
    if entries_at(slab, last).len() < SEGMENT {
        Some(last)
    } else {
        None
    }
}

/// Starts a segment with this entry, at the end of a chain whose last segment is full.
fn start_segment<T: Drop>(
    alloc: Global,
    slab: &mut Slab<Segment<T>>,
    owner: usize,
    keys: &mut Items<usize>,
    entry: T,
) -> Result<(), MemFault>
    requires sound { IsSound slab.old owner keys.old }
    requires closed { IsClosed (segments_of slab.old keys.old) }
    ensures changes { Changes owner slab.old slab.new keys.new }
    ensures entries { OnOk result
        (entries_of slab.new keys.new ≡ entries_of slab.old keys.old ++ entry ∷ []) }
{
    let mut entries = Items::new(alloc);
    entries.push(entry)?;
    slab.reserve(1)?;
    keys.push(slab.vacant_key())?;
    let _ = slab.insert_reserved(Segment { owner, entries });
    Ok(())
}

/// Adds an entry at the end of a chain. Out of memory leaves the chains sound.
pub(crate) fn append<T: Drop>(
    alloc: Global,
    slab: &mut Slab<Segment<T>>,
    owner: usize,
    keys: &mut Items<usize>,
    entry: T,
) -> Result<(), MemFault>
    requires sound { IsSound slab.old owner keys.old }
    ensures changes { Changes owner slab.old slab.new keys.new }
    ensures entries { OnOk result
        (entries_of slab.new keys.new ≡ entries_of slab.old keys.old ++ entry ∷ []) }
{
    if let Some(last) = open_segment(slab, keys.as_slice()) {
        fill(slab, last, entry)?;
        return Ok(());
    }
    start_segment(alloc, slab, owner, keys, entry)
}

/// Lets the entries at the front go that are not over a number. It takes no memory.
pub(crate) fn prune<T: Numbered>(
    slab: &mut Slab<Segment<T>>,
    owner: usize,
    keys: &mut Items<usize>,
    upto: u32,
)
    requires sound { IsSound slab.old owner keys.old }
    ensures changes { Changes owner slab.old slab.new keys.new }
    ensures entries { entries_of slab.new keys.new
        ≡ behind T.log_number upto (entries_of slab.old keys.old) }
{
    while !keys.is_empty() {
        let key = keys.as_slice()[0];
        if !trim(slab, key, upto) {
            break;
        }
        let _ = keys.remove(0);
    }
}

/// How many entries there are, at most as many as 64 bits tell.
pub(crate) fn count<T>(slab: &Slab<Segment<T>>, keys: &[usize]) -> usize
    ensures { result ≡ min (length (entries_of slab.now keys.now)) (2 ^ 64 - 1) }
{
    let mut total: usize = 0;
    for key in keys {
        total = total.saturating_add(entries_at(slab, *key).len());
    }
    total
}

/// Copies of the entries.
pub(crate) fn all<T: Numbered>(
    alloc: Global,
    slab: &Slab<Segment<T>>,
    keys: &[usize],
) -> Result<Items<T>, MemFault>
    ensures { IfOk result (λ found. found ≡ entries_of slab.now keys.now) }
{
    let mut found = Items::new(alloc);
    for key in keys {
        copy_all(alloc, &mut found, entries_at(slab, *key))?;
    }
    Ok(found)
}

/// Copies of the entries that are over a number.
pub(crate) fn since<T: Numbered>(
    alloc: Global,
    slab: &Slab<Segment<T>>,
    keys: &[usize],
    least: u32,
) -> Result<Items<T>, MemFault>
    ensures { IfOk result
        (λ found. found ≡ over T.log_number least (entries_of slab.now keys.now)) }
{
    let mut found = Items::new(alloc);
    for key in keys {
        copy_over(alloc, &mut found, entries_at(slab, *key), least)?;
    }
    Ok(found)
}

/// The last entry with this number.
pub(crate) fn latest<'a, T: Numbered>(
    slab: &'a Slab<Segment<T>>,
    keys: &[usize],
    number: u32,
) -> Option<&'a T>
    ensures { option_copied result ≡ latest T.log_number number (entries_of slab.now keys.now) }
{
    let mut rest = keys.len();
    while rest > 0 {
        rest -= 1;
        let found = latest_in(entries_at(slab, keys[rest]), number);
        if found.is_some() {
            return found;
        }
    }
    None
}

/// The last entry, where no segment is empty.
pub(crate) fn last<'a, T>(slab: &'a Slab<Segment<T>>, keys: &[usize]) -> Option<&'a T>
    requires { AreThere slab.now keys.now }
    ensures { option_copied result ≡ newest (entries_of slab.now keys.now) }
{
    match last_key(keys) {
        Some(key) => entries_at(slab, key).last(),
        None => None,
    }
}
