//! A stack, which contracts see as a list with the top first.

ghost use Rattle.std.specs.Prelude.{◌≡◌, List, [], ◌∷◌, length, reverse, take, drop, OnOk, OnErr, MatchOption};

use crate::errors::MemFault;
use std::alloc::Global;
use std::marker::Model;

/// Items, of which the last comes first.
#[derive(Drop)]
pub struct Stack<T> {
    items: Vec<T>,
}

impl<T> Model for Stack<T> {
    ghost use Rattle.std.specs.Prelude.{List, reverse};
    ghost use Rattle.std.specs.Coded.{coded_list};

    ghost Value = { List T };

    ghost coded = { coded_list T.code };

    ghost view = { λ stack. reverse stack.items.items };
}

impl<T> Stack<T> {
    /// No items.
    pub fn new(alloc: Global) -> Stack<T>
        ensures { result ≡ [] }
    {
        Stack {
            items: Vec::new(alloc),
        }
    }

    /// How many items there are.
    pub fn len(&self) -> usize
        ensures { result ≡ length self.now }
    {
        self.items.len()
    }
}

impl<T: Drop> Stack<T> {
    /// Puts an item on top. After `MemFault`, out of memory, the stack is as before.
    pub fn push(&mut self, item: T) -> Result<(), MemFault>
        ensures ok { OnOk result (self.new ≡ item ∷ self.old) }
        ensures err { OnErr result (self.new ≡ self.old) }
    {
        self.items.push(item)?;
        Ok(())
    }

    /// Takes the item on top.
    pub fn pop(&mut self) -> Option<T>
        ensures { MatchOption result ((self.old ≡ []) × (self.new ≡ []))
            (λ item. self.old ≡ item ∷ self.new) }
    {
        self.items.pop()
    }

    /// Drops everything.
    pub fn clear(&mut self)
        ensures { self.new ≡ [] }
    {
        self.items.clear();
    }
}

impl<T: Drop + Copy> Stack<T> {
    /// The items, of which the first comes first.
    pub fn oldest_first(&self) -> &[T]
        ensures { self.now ≡ reverse result.now }
    {
        self.items.as_slice()
    }

    /// The item on top.
    pub fn top(&self) -> Option<T>
        ensures { MatchOption result (self.now ≡ [])
            (λ item. (rest : List T) × (self.now ≡ item ∷ rest)) }
    {
        self.items.last().copied()
    }

    /// The topmost ones, at most so many, with the top last.
    pub fn topmost(&self, count: usize) -> &[T]
        ensures { result.now ≡ reverse (take count self.now) }
    {
        let kept = self.len().saturating_sub(count);
        &self.items[kept..]
    }

    /// Drops the topmost ones, at most so many.
    pub fn drop_topmost(&mut self, count: usize)
        ensures { self.new ≡ drop count self.old }
    {
        let kept = self.len().saturating_sub(count);
        self.items.truncate(kept);
    }
}
