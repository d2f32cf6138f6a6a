//! Items of a program.

ghost use Rattle.std.specs.Prelude.{◌≤◌, ◌<◌, ◌^◌};
ghost use Rattle.dsm_syntax.specs.Views.{view_item, view_items};
ghost use Rattle.dsm_syntax.specs.Gives.{Gives};
ghost use Rattle.dsm_laws_grammar.specs.Items as r;

use crate::binding::binding;
use crate::declarator::{barriers, locks, private_data, shared_data};
use crate::function::function;
use dsm_syntax::{Cursor, Item, Refusal, Returns, Sign, Word};
use std::alloc::Global;

/// Data or a function, behind the word `int`.
fn int_item(alloc: Global, cursor: &mut Cursor<'_>, most: u32) -> Result<Item, Refusal>
    requires { most < 2 ^ 28 }
    ensures { Gives view_item (r.int_item most cursor.old) result cursor.new }
{
    let name = cursor.name(alloc)?;
    if cursor.is_sign(Sign::ParenOpen) {
        function(alloc, cursor, most, Returns::Int, name)
    } else {
        private_data(alloc, cursor, name)
    }
}

/// A function, behind the word `void`.
fn void_item(alloc: Global, cursor: &mut Cursor<'_>, most: u32) -> Result<Item, Refusal>
    requires { most < 2 ^ 28 }
    ensures { Gives view_item (r.void_item most cursor.old) result cursor.new }
{
    let name = cursor.name(alloc)?;
    function(alloc, cursor, most, Returns::Void, name)
}

/// What a word declares that comes next.
fn declaration(
    alloc: Global,
    cursor: &mut Cursor<'_>,
    most: u32,
    word: Word,
) -> Result<Item, Refusal>
    requires { most < 2 ^ 28 }
    ensures { Gives view_item (r.declaration most word cursor.old) result cursor.new }
{
    match word {
        Word::Shared => {
            cursor.skip();
            shared_data(alloc, cursor)
        }
        Word::Int => {
            cursor.skip();
            int_item(alloc, cursor, most)
        }
        Word::Void => {
            cursor.skip();
            void_item(alloc, cursor, most)
        }
        Word::LockType => {
            cursor.skip();
            locks(alloc, cursor)
        }
        Word::BarrierType => {
            cursor.skip();
            barriers(alloc, cursor)
        }
        _ => Err(Refusal::Unexpected),
    }
}

/// An item, with a body of at most so many nodes on a way down.
fn item(alloc: Global, cursor: &mut Cursor<'_>, most: u32) -> Result<Item, Refusal>
    requires { most < 2 ^ 28 }
    ensures { Gives view_item (r.item most cursor.old) result cursor.new }
{
    if let Some((word, line)) = cursor.placed_word() {
        return binding(alloc, cursor, word, line);
    }
    match cursor.plain_word() {
        Some(word) => declaration(alloc, cursor, most, word),
        None => Err(Refusal::Unexpected),
    }
}

/// All items up to the end of the tokens.
pub fn items(alloc: Global, cursor: &mut Cursor<'_>, most: u32) -> Result<Vec<Item>, Refusal>
    requires some { 1 ≤ most }
    requires fits { most < 2 ^ 28 }
    ensures { Gives (λ all. view_items all.items) (r.items most cursor.old) result cursor.new }
{
    let mut all = Vec::new(alloc);
    while !cursor.is_empty() {
        all.push(item(alloc, cursor, most)?)?;
    }
    Ok(all)
}
