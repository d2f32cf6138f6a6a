//! Data, locks and barriers of a whole program.

ghost use Rattle.std.specs.Prelude.{[], ◌∷◌};
ghost use Rattle.dsm_syntax.specs.Views.{view_item};
ghost use Rattle.dsm_syntax.specs.Gives.{Gives};
ghost use Rattle.dsm_syntax.specs.Reading.{gathered, more_of, list_of};
ghost use Rattle.dsm_syntax.specs.Tokens.{read_name};
ghost use Rattle.dsm_laws_grammar.specs.Items as r;

use dsm_syntax::{Cursor, Declarator, Item, Name, Refusal, Sharing, Sign, Word};
use std::alloc::Global;

/// A number in brackets, where a bracket comes next.
pub fn size(cursor: &mut Cursor<'_>) -> Result<Option<i64>, Refusal>
    ensures { Gives (λ size. size) (r.size cursor.old) result cursor.new }
{
    if !cursor.is_sign(Sign::BracketOpen) {
        return Ok(None);
    }
    cursor.skip();
    let size = cursor.number()?;
    cursor.expect(Sign::BracketClose)?;
    Ok(Some(size))
}

fn declarator_of(cursor: &mut Cursor<'_>, name: Name) -> Result<Declarator, Refusal>
    ensures { Gives (λ declarator. declarator) (r.declarator_of name cursor.old) result cursor.new }
{
    let size = size(cursor)?;
    Ok(Declarator { name, size })
}

fn declarator(alloc: Global, cursor: &mut Cursor<'_>) -> Result<Declarator, Refusal>
    ensures { Gives (λ declarator. declarator) (r.declarator cursor.old) result cursor.new }
{
    let name = cursor.name(alloc)?;
    declarator_of(cursor, name)
}

/// More of them, each after a comma, behind a first one.
fn declarators_behind(
    alloc: Global,
    cursor: &mut Cursor<'_>,
    first: Declarator,
) -> Result<Vec<Declarator>, Refusal>
    ensures { Gives (λ all. all.items) (gathered (first ∷ []) (more_of r.declarator) cursor.old)
        result cursor.new }
{
    let mut all = Vec::new(alloc);
    all.push(first)?;
    while cursor.is_sign(Sign::Comma) {
        cursor.skip();
        all.push(declarator(alloc, cursor)?)?;
    }
    Ok(all)
}

fn declarators(alloc: Global, cursor: &mut Cursor<'_>) -> Result<Vec<Declarator>, Refusal>
    ensures { Gives (λ all. all.items) (list_of r.declarator cursor.old) result cursor.new }
{
    let first = declarator(alloc, cursor)?;
    declarators_behind(alloc, cursor, first)
}

fn names(alloc: Global, cursor: &mut Cursor<'_>) -> Result<Vec<Name>, Refusal>
    ensures { Gives (λ all. all.items) (list_of read_name cursor.old) result cursor.new }
{
    let mut all = Vec::new(alloc);
    all.push(cursor.name(alloc)?)?;
    while cursor.is_sign(Sign::Comma) {
        cursor.skip();
        all.push(cursor.name(alloc)?)?;
    }
    Ok(all)
}

/// Locks, behind their word.
pub fn locks(alloc: Global, cursor: &mut Cursor<'_>) -> Result<Item, Refusal>
    ensures { Gives view_item (r.locks cursor.old) result cursor.new }
{
    let all = declarators(alloc, cursor)?;
    cursor.expect(Sign::Semicolon)?;
    Ok(Item::Locks(all))
}

/// Barriers, behind their word.
pub fn barriers(alloc: Global, cursor: &mut Cursor<'_>) -> Result<Item, Refusal>
    ensures { Gives view_item (r.barriers cursor.old) result cursor.new }
{
    let all = names(alloc, cursor)?;
    cursor.expect(Sign::Semicolon)?;
    Ok(Item::Barriers(all))
}

/// Data that is one memory for all processors, behind the word `shared`.
pub fn shared_data(alloc: Global, cursor: &mut Cursor<'_>) -> Result<Item, Refusal>
    ensures { Gives view_item (r.shared_data cursor.old) result cursor.new }
{
    if !cursor.is_word(Word::Int) {
        return Err(Refusal::Unexpected);
    }
    cursor.skip();
    let all = declarators(alloc, cursor)?;
    cursor.expect(Sign::Semicolon)?;
    Ok(Item::Data(Sharing::Shared, all))
}

/// Data that each processor has for itself, behind its first name.
pub fn private_data(alloc: Global, cursor: &mut Cursor<'_>, name: Name) -> Result<Item, Refusal>
    ensures { Gives view_item (r.private_data name cursor.old) result cursor.new }
{
    let first = declarator_of(cursor, name)?;
    let all = declarators_behind(alloc, cursor, first)?;
    cursor.expect(Sign::Semicolon)?;
    Ok(Item::Data(Sharing::Private, all))
}
