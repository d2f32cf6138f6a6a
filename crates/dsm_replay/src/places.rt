//! Where the entries of a list stand, by their keys.

ghost use Rattle.std.specs.Prelude.{◌≡◌, ℕ, IfOk, OnOk, None, find, slice_get};
ghost use Rattle.std.specs.Option.{option_copied, option_or};
ghost use Rattle.dsm_replay.specs.Places.{has_key, first_place, one_place};
ghost use Rattle.dsm_replay.specs.Kept.{place_in};

use dsm_base::{LoggedGrant, LoggedOpening, MemFault, Record};
use dsm_lines::{Arrival, Version};
use std::alloc::Global;
use std::collections::HashMap;

/// An entry of a list in a report: a turn, version or epoch, and the number of the lock or barrier.
pub(crate) trait Keyed {
    ghost use Rattle.std.specs.Prelude.{◌≡◌, ℕ};

    ghost entry_key: { Self → ℕ × ℕ };

    fn key(&self) -> (u32, u16)
        ensures { result ≡ entry_key self.now };
}

impl Keyed for LoggedGrant {
    ghost entry_key = { λ grant. (grant.turn, grant.lock.0) };

    fn key(&self) -> (u32, u16) {
        (self.turn, self.lock.0)
    }
}

impl Keyed for LoggedOpening {
    ghost entry_key = { λ opening. (opening.turn, opening.bar.0) };

    fn key(&self) -> (u32, u16) {
        (self.turn, u16::from(self.bar.0))
    }
}

impl Keyed for Record {
    ghost entry_key = { λ taken. (taken.turn, taken.lock.0) };

    fn key(&self) -> (u32, u16) {
        (self.turn, self.lock.0)
    }
}

impl Keyed for Version {
    ghost entry_key = { λ made. (made.version, made.lock.0) };

    fn key(&self) -> (u32, u16) {
        (self.version, self.lock.0)
    }
}

impl Keyed for Arrival {
    ghost entry_key = { λ arrival. (arrival.epoch, arrival.bar.0) };

    fn key(&self) -> (u32, u16) {
        (self.epoch, u16::from(self.bar.0))
    }
}

/// The entry at a place, where there is one.
fn entry_at<T>(entries: &[T], place: usize) -> Option<&T>
    ensures { option_copied result ≡ slice_get entries.now place }
{
    entries.get(place)
}

/// By key, the place of the first entry of a list that has it. Contracts see it as `place_in`.
#[derive(Drop)]
pub(crate) struct Places {
    places: HashMap<(u32, u16), usize>,
}

impl Places {
    /// No places.
    fn new(alloc: Global) -> Places
        ensures { (number object : ℕ) → place_in result number object ≡ None }
    {
        Places {
            places: HashMap::new(alloc),
        }
    }

    /// Notes the place of an entry, where there is none yet with its key.
    fn note(&mut self, key: (u32, u16), place: usize) -> Result<(), MemFault>
        ensures { OnOk result ((number object : ℕ) → place_in self.new number object ≡
            option_or (place_in self.old number object) (one_place key place number object)) }
    {
        if !self.places.contains_key(&key) {
            self.places.insert(key, place)?;
        }
        Ok(())
    }

    /// The places of these entries.
    pub(crate) fn of<T: Keyed>(alloc: Global, entries: &[T]) -> Result<Places, MemFault>
        ensures { IfOk result (λ places. (number object : ℕ) →
            place_in places number object ≡ first_place T.entry_key number object 0 entries.now) }
    {
        let mut places = Places::new(alloc);
        for (at, entry) in entries.iter().enumerate() {
            places.note(entry.key(), at)?;
        }
        Ok(places)
    }

    /// The place that was noted for a key.
    fn get(&self, number: u32, object: u16) -> Option<usize>
        ensures { result ≡ place_in self.now number object }
    {
        self.places.get(&(number, object)).copied()
    }

    /// The first entry with this key, of the list whose places these are.
    pub(crate) fn find<'a, T: Keyed>(
        &self,
        entries: &'a [T],
        number: u32,
        object: u16,
    ) -> Option<&'a T>
        requires { place_in self.now number object
            ≡ first_place T.entry_key number object 0 entries.now }
        ensures { option_copied result ≡ find (has_key T.entry_key number object) entries.now }
    {
        match self.get(number, object) {
            Some(place) => entry_at(entries, place),
            None => None,
        }
    }
}
