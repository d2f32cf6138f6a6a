//! The instructions of what a tree names.

ghost use Rattle.std.specs.Prelude.{◌≡◌, OnOk, IfOk};
ghost use Rattle.dsm_check.specs.Views.{view_location, view_lock};
ghost use Rattle.dsm_semantics.specs.Semantics.{place_of, lock_place_of, lock_line};
ghost use Rattle.dsm_laws_code.specs.Instructions.{array_of, loading, storing, lock_target, lock_depth, depth_at};

use crate::writer::{Writer, sum};
use dsm_base::MemFault;
use dsm_check as check;
use dsm_check::{Location, LockPlace};
use dsm_code::{Array, Instr, Target, Use};
use dsm_syntax::Sharing;

/// An array as instructions name it.
pub fn array_of(array: check::Array) -> Array
    ensures { result ≡ array_of array }
{
    Array {
        first: array.first,
        size: array.size,
    }
}

/// The load of a location, for the use that is made of its value.
pub fn loading(location: &Location, way: Use) -> Instr
    ensures { result ≡ loading (place_of (view_location location.now)) way }
{
    match location {
        Location::Variable(slot) => Instr::LoadSlot(*slot, way),
        Location::Cell(Sharing::Shared, number, line) => {
            Instr::Load(Target::One(*number), way, *line)
        }
        Location::Cell(Sharing::Private, number, line) => {
            Instr::LoadOwn(Target::One(*number), way, *line)
        }
        Location::Element(Sharing::Shared, array, _, line) => {
            Instr::Load(Target::Member(array_of(*array)), way, *line)
        }
        Location::Element(Sharing::Private, array, _, line) => {
            Instr::LoadOwn(Target::Member(array_of(*array)), way, *line)
        }
    }
}

/// A lock as instructions name it.
pub fn lock_target(lock: &LockPlace) -> Target
    ensures { result ≡ lock_target (lock_place_of (view_lock lock.now)) }
{
    match lock {
        LockPlace::Single(lock, _) => Target::One(u32::from(lock.0)),
        LockPlace::Element(array, _, _) => Target::Member(array_of(*array)),
    }
}

/// The line of a lock's name.
pub fn lock_line(lock: &LockPlace) -> u32
    ensures { result ≡ lock_line (lock_place_of (view_lock lock.now)) }
{
    match lock {
        LockPlace::Single(_, line) | LockPlace::Element(_, _, line) => *line,
    }
}

/// The operands before what is done with a lock.
pub fn lock_depth(lock: &LockPlace) -> u32
    ensures { result ≡ lock_depth (view_lock lock.now) }
{
    match lock {
        LockPlace::Single(_, _) => 0,
        LockPlace::Element(_, _, _) => 1,
    }
}

/// The operands before what is done with a location, where so many were there before its index.
pub fn depth_at(depth: u32, location: &Location) -> Result<u32, MemFault>
    ensures { IfOk result (λ at. at ≡ depth_at depth (view_location location.now)) }
{
    match location {
        Location::Variable(_) | Location::Cell(_, _, _) => Ok(depth),
        Location::Element(_, _, _, _) => sum(depth, 1),
    }
}

impl Writer<'_> {
    /// The store to a location, which tells what a shared one is bound to.
    pub fn storing(&self, location: &Location) -> Instr
        ensures { result ≡ storing self.now.pieces (place_of (view_location location.now)) }
    {
        match location {
            Location::Variable(slot) => Instr::StoreSlot(*slot),
            Location::Cell(Sharing::Shared, number, line) => {
                Instr::Store(Target::One(*number), self.bound_of(*number), *line)
            }
            Location::Cell(Sharing::Private, number, line) => {
                Instr::StoreOwn(Target::One(*number), *line)
            }
            Location::Element(Sharing::Shared, array, _, line) => {
                let bound = self.bound_of(array.first);
                Instr::Store(Target::Member(array_of(*array)), bound, *line)
            }
            Location::Element(Sharing::Private, array, _, line) => {
                Instr::StoreOwn(Target::Member(array_of(*array)), *line)
            }
        }
    }
}
