//! What instructions name.

ghost use Rattle.std.specs.Prelude.{◌≡◌, ◌≤◌, IsTrue, MatchOption, Some, None};
ghost use Rattle.dsm_code.specs.Instructions.{index_count, is_below, member_number, number_at, loaded_count};

use crate::instruction::{Array, Target, Use};

/// The number of an array's member, where the index is one of the array's.
fn member_number(array: Array, index: i64) -> Option<u64>
    ensures { result ≡ member_number array index }
{
    let index = u64::try_from(index).ok()?;
    if index < u64::from(array.size) {
        Some(u64::from(array.first) + index)
    } else {
        None
    }
}

impl Target {
    /// How many operands name it: the index of an array's member.
    pub fn indexes(self) -> usize
        ensures count { result ≡ index_count self }
        ensures few { result ≤ 1 }
    {
        match self {
            Target::One(_) => 0,
            Target::Member(_) => 1,
        }
    }

    /// Its number, where the index is one of the array's; the index is of no matter where there is none.
    pub fn number(self, index: i64) -> Option<u64>
        ensures { result ≡ number_at self index }
    {
        match self {
            Target::One(number) => Some(u64::from(number)),
            Target::Member(array) => member_number(array, index),
        }
    }

    /// The same, where the numbers are small.
    pub fn small_number(self, index: i64) -> Option<u16>
        requires { IsTrue (is_below 65536 self) }
        ensures { MatchOption result (number_at self index ≡ None)
            (λ number. number_at self index ≡ Some number) }
    {
        let number = self.number(index)?;
        Some(number as u16)
    }
}

impl Use {
    /// How many operands a load leaves, where so many named what is loaded.
    pub fn loaded_count(self, indexes: usize) -> usize
        requires { indexes ≤ 1 }
        ensures count { result ≡ loaded_count self indexes }
        ensures few { result ≤ 3 }
    {
        match self {
            Use::Value => 1,
            Use::Change => 1 + indexes,
            Use::StepBehind => 2 + indexes,
        }
    }
}
