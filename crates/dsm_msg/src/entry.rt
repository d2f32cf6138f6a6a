//! Lists of entries, each judged by the one before it.

ghost use Rattle.std.specs.Prelude.{◌≡◌, None, Option, OnOk};
ghost use Rattle.std.specs.Option.{option_copied};
ghost use Rattle.dsm_fields.specs.Fields.{Appends, entries, counted};
ghost use Rattle.dsm_fields.specs.Reading.{Gives, entries_at, counted_at};

use dsm_base::MemFault;
use dsm_fields::{FieldErr, number, put_count};
use std::alloc::Global;

/// What a list of a message is made of.
pub(crate) trait Entry: Sized + Drop {
    ghost use Rattle.std.specs.Prelude.{◌≡◌, List, ℕ, Option, OnOk};
    ghost use Rattle.std.specs.Option.{option_copied};
    ghost use Rattle.dsm_fields.specs.Reading.{Read, Gives};
    ghost use Rattle.dsm_fields.specs.Fields.{Field, Appends};

    /// The fields of an entry behind this last one.
    ghost entry_fields: { Option Self → Self → List Field };

    /// What reading an entry behind this last one gives.
    ghost entry_at: { Option Self → List ℕ → Read Self };

    /// Reads the entry behind the last one, and gives the bytes behind it.
    fn read<'a>(
        alloc: Global,
        last: Option<&Self>,
        bytes: &'a [u8],
    ) -> Result<(Self, &'a [u8]), FieldErr>
        ensures { Gives (λ x. (x.0, x.1.now)) result
            (entry_at (option_copied last.entry) bytes.now) };

    /// Appends its fields.
    fn write(&self, out: &mut Vec<u8>) -> Result<(), MemFault>
        ensures { OnOk result ((last : Option Self) →
            Appends (entry_fields last self.now) out.old.items out.new.items) };
}

/// So many entries, and the bytes behind them.
pub(crate) fn entries<T: Entry>(
    alloc: Global,
    count: u32,
    bytes: &[u8],
) -> Result<(Vec<T>, &[u8]), FieldErr>
    ensures { Gives (λ x. (x.0.items, x.1.now)) result
        (entries_at T.entry_at None count bytes.now) }
{
    let mut items = Vec::new(alloc);
    let mut rest = bytes;
    for _ in 0..count {
        let (item, after) = T::read(alloc, items.last(), rest)?;
        items.push(item)?;
        rest = after;
    }
    Ok((items, rest))
}

/// A count, so many entries, and the bytes behind them.
#[tactic(auto, unfolding(dsm_fields::specs::Reading::counted_at))]
pub(crate) fn counted<T: Entry>(alloc: Global, bytes: &[u8]) -> Result<(Vec<T>, &[u8]), FieldErr>
    ensures { Gives (λ x. (x.0.items, x.1.now)) result (counted_at T.entry_at bytes.now) }
{
    let (count, rest) = number(bytes)?;
    entries(alloc, count, rest)
}

/// Appends the entries.
pub(crate) fn put_entries<T: Entry>(out: &mut Vec<u8>, items: &[T]) -> Result<(), MemFault>
    ensures { OnOk result ((last : Option T) →
        Appends (entries T.entry_fields last items.now) out.old.items out.new.items) }
{
    for item in items {
        item.write(out)?;
    }
    Ok(())
}

/// Appends a count and so many entries. A count that four bytes can't hold is answered as out of memory.
pub(crate) fn put_counted<T: Entry>(out: &mut Vec<u8>, items: &[T]) -> Result<(), MemFault>
    ensures { OnOk result (Appends (counted T.entry_fields items.now) out.old.items out.new.items) }
{
    put_count(out, items.len())?;
    put_entries(out, items)
}
