//! One segment of a chain, by its key in the slab.

ghost use Rattle.std.specs.Prelude.{◌≡◌, ◌<◌, ◌≤◌, ◌++◌, drop, length, OnOk, OnErr, MatchBool};
ghost use Rattle.std.specs.Option.{option_copied};
ghost use Rattle.slab.specs.Slab.{get, ContainsKey, SameValues};
ghost use Rattle.dsm_segments.specs.Entries.{behind, latest, over};
ghost use Rattle.dsm_segments.specs.Chains.{entries_at};
ghost use Rattle.dsm_segments.specs.Steps.{Fills, Empties, Trims};

use crate::numbered::Numbered;
use dsm_base::MemFault;
use slab::Slab;
use sqlite_items::Items;
use std::alloc::Global;

/// How many entries a segment has room for.
pub(crate) const SEGMENT: usize = 64;

/// Up to 64 neighbouring entries of one chain, and never none.
#[derive(Drop)]
pub(crate) struct Segment<T> {
    /// The number of the chain that it belongs to.
    pub(crate) owner: usize,
    pub(crate) entries: Items<T>,
}

/// Adds an entry to a segment that has room.
pub(crate) fn fill<T: Drop>(
    slab: &mut Slab<Segment<T>>,
    key: usize,
    entry: T,
) -> Result<(), MemFault>
    requires { ContainsKey slab.old key }
    ensures ok { OnOk result (Fills slab.old slab.new key entry) }
    ensures err { OnErr result (SameValues slab.old slab.new) }
{
    slab[key].entries.push(entry)?;
    Ok(())
}

/// How many entries at the front are not over a number.
fn old_count<T: Numbered>(entries: &[T], upto: u32) -> usize
    ensures within { result ≤ length entries.now }
    ensures old { drop result entries.now ≡ behind T.log_number upto entries.now }
{
    let mut count = 0;
    for entry in entries {
        if entry.number() > upto {
            break;
        }
        count += 1;
    }
    count
}

/// Takes so many entries off the front.
fn drop_front<T: Drop>(entries: &mut Items<T>, count: usize)
    requires { count ≤ length entries.old }
    ensures { entries.new ≡ drop count entries.old }
{
    for _ in 0..count {
        let _ = entries.remove(0);
    }
}

/// Lets the entries at the front of a segment go that are not over a number. Answers whether the
/// segment is gone as a whole. It takes no memory.
pub(crate) fn trim<T: Numbered>(slab: &mut Slab<Segment<T>>, key: usize, upto: u32) -> bool
    requires { ContainsKey slab.old key }
    ensures { MatchBool result (Empties T.log_number upto slab.old slab.new key)
        (Trims T.log_number upto slab.old slab.new key) }
{
    let entries = slab[key].entries.as_slice();
    let count = old_count(entries, upto);
    if count == entries.len() {
        let _ = slab.remove(key);
        return true;
    }
    drop_front(&mut slab[key].entries, count);
    false
}

/// Copies the entries behind those found.
pub(crate) fn copy_all<T: Numbered>(
    alloc: Global,
    found: &mut Items<T>,
    entries: &[T],
) -> Result<(), MemFault>
    ensures { OnOk result (found.new ≡ found.old ++ entries.now) }
{
    for entry in entries {
        found.push(entry.copy(alloc)?)?;
    }
    Ok(())
}

/// Copies the entries that are over a number behind those found.
pub(crate) fn copy_over<T: Numbered>(
    alloc: Global,
    found: &mut Items<T>,
    entries: &[T],
    least: u32,
) -> Result<(), MemFault>
    ensures { OnOk result (found.new ≡ found.old ++ over T.log_number least entries.now) }
{
    for entry in entries {
        if entry.number() > least {
            found.push(entry.copy(alloc)?)?;
        }
    }
    Ok(())
}

/// The last of the entries with this number.
pub(crate) fn latest_in<T: Numbered>(entries: &[T], number: u32) -> Option<&T>
    ensures { option_copied result ≡ latest T.log_number number entries.now }
{
    let mut rest = entries.len();
    while rest > 0 {
        rest -= 1;
        let entry = &entries[rest];
        if entry.number() == number {
            return Some(entry);
        }
    }
    None
}
