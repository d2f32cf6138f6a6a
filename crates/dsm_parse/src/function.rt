//! Functions.

ghost use Rattle.std.specs.Prelude.{◌<◌, ◌^◌};
ghost use Rattle.dsm_syntax.specs.Views.{view_item, view_params};
ghost use Rattle.dsm_syntax.specs.Gives.{Gives};
ghost use Rattle.dsm_syntax.specs.Reading.{list_of};
ghost use Rattle.dsm_laws_grammar.specs.Items as r;

use crate::statement::body;
use dsm_syntax::{Cursor, Function, Item, Name, Params, Refusal, Returns, Sign, Word};
use std::alloc::Global;

/// The word `int` and a name.
fn param(alloc: Global, cursor: &mut Cursor<'_>) -> Result<Name, Refusal>
    ensures { Gives (λ name. name) (r.param cursor.old) result cursor.new }
{
    if !cursor.is_word(Word::Int) {
        return Err(Refusal::Unexpected);
    }
    cursor.skip();
    cursor.name(alloc)
}

/// Parameters, each after a comma.
fn named_params(alloc: Global, cursor: &mut Cursor<'_>) -> Result<Vec<Name>, Refusal>
    ensures { Gives (λ all. all.items) (list_of r.param cursor.old) result cursor.new }
{
    let mut all = Vec::new(alloc);
    all.push(param(alloc, cursor)?)?;
    while cursor.is_sign(Sign::Comma) {
        cursor.skip();
        all.push(param(alloc, cursor)?)?;
    }
    Ok(all)
}

fn params(alloc: Global, cursor: &mut Cursor<'_>) -> Result<Params, Refusal>
    ensures { Gives view_params (r.params cursor.old) result cursor.new }
{
    if cursor.is_word(Word::Void) {
        cursor.skip();
        return Ok(Params::Void);
    }
    if !cursor.is_word(Word::Int) {
        return Ok(Params::Nothing);
    }
    Ok(Params::Names(named_params(alloc, cursor)?))
}

/// A function behind its name, with a body of at most so many nodes on a way down.
pub fn function(
    alloc: Global,
    cursor: &mut Cursor<'_>,
    most: u32,
    returns: Returns,
    name: Name,
) -> Result<Item, Refusal>
    requires { most < 2 ^ 28 }
    ensures { Gives view_item (r.function_of most returns name cursor.old) result cursor.new }
{
    cursor.expect(Sign::ParenOpen)?;
    let params = params(alloc, cursor)?;
    cursor.expect(Sign::ParenClose)?;
    let body = body(alloc, cursor, most)?;
    Ok(Item::Function(Function {
        returns,
        name,
        params,
        body,
    }))
}
