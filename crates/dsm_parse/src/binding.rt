//! Bindings of data to locks and barriers.

ghost use Rattle.dsm_syntax.specs.Views.{view_item};
ghost use Rattle.dsm_syntax.specs.Gives.{Gives};
ghost use Rattle.dsm_laws_grammar.specs.Items as r;

use crate::declarator::size;
use dsm_syntax::{Bind, BindBarrier, BindEach, Cursor, Item, Name, Refusal, Sign, Word};
use std::alloc::Global;

/// A comma and a name.
fn next_name(alloc: Global, cursor: &mut Cursor<'_>) -> Result<Name, Refusal>
    ensures { Gives (λ name. name) (r.next_name cursor.old) result cursor.new }
{
    cursor.expect(Sign::Comma)?;
    cursor.name(alloc)
}

/// A comma and a number.
fn next_number(cursor: &mut Cursor<'_>) -> Result<i64, Refusal>
    ensures { Gives (λ number. number) (r.next_number cursor.old) result cursor.new }
{
    cursor.expect(Sign::Comma)?;
    cursor.number()
}

/// What ends a binding.
fn end(cursor: &mut Cursor<'_>, item: Item) -> Result<Item, Refusal>
    ensures { Gives view_item (r.end_of_binding (view_item item) cursor.old) result cursor.new }
{
    cursor.expect(Sign::ParenClose)?;
    cursor.expect(Sign::Semicolon)?;
    Ok(item)
}

fn bind(alloc: Global, cursor: &mut Cursor<'_>, line: u32) -> Result<Item, Refusal>
    ensures { Gives view_item (r.bind line cursor.old) result cursor.new }
{
    cursor.expect(Sign::ParenOpen)?;
    let lock = cursor.name(alloc)?;
    let index = size(cursor)?;
    let data = next_name(alloc, cursor)?;
    let first = next_number(cursor)?;
    let count = next_number(cursor)?;
    end(
        cursor,
        Item::Bind(Bind {
            line,
            lock,
            index,
            data,
            first,
            count,
        }),
    )
}

fn bind_each(alloc: Global, cursor: &mut Cursor<'_>, line: u32) -> Result<Item, Refusal>
    ensures { Gives view_item (r.bind_each line cursor.old) result cursor.new }
{
    cursor.expect(Sign::ParenOpen)?;
    let locks = cursor.name(alloc)?;
    let data = next_name(alloc, cursor)?;
    let count = next_number(cursor)?;
    end(
        cursor,
        Item::BindEach(BindEach {
            line,
            locks,
            data,
            count,
        }),
    )
}

fn bind_barrier(alloc: Global, cursor: &mut Cursor<'_>, line: u32) -> Result<Item, Refusal>
    ensures { Gives view_item (r.bind_barrier line cursor.old) result cursor.new }
{
    cursor.expect(Sign::ParenOpen)?;
    let barrier = cursor.name(alloc)?;
    let data = next_name(alloc, cursor)?;
    let first = next_number(cursor)?;
    let count = next_number(cursor)?;
    let owner = next_number(cursor)?;
    let phase = next_number(cursor)?;
    let period = next_number(cursor)?;
    let bind = BindBarrier {
        line,
        barrier,
        data,
        first,
        count,
        owner,
        phase,
        period,
    };
    end(cursor, Item::BindBarrier(bind))
}

/// A binding, whose word comes next.
pub fn binding(
    alloc: Global,
    cursor: &mut Cursor<'_>,
    word: Word,
    line: u32,
) -> Result<Item, Refusal>
    ensures { Gives view_item (r.binding word line cursor.old) result cursor.new }
{
    match word {
        Word::Bind => {
            cursor.skip();
            bind(alloc, cursor, line)
        }
        Word::BindEach => {
            cursor.skip();
            bind_each(alloc, cursor, line)
        }
        Word::BindBarrier => {
            cursor.skip();
            bind_barrier(alloc, cursor, line)
        }
        _ => Err(Refusal::Unexpected),
    }
}
