//! Whole programs.

ghost use Rattle.std.specs.Prelude.{◌≡◌, ◌≢◌, ◌⊎◌, List, IfOk, IfErr, MatchResult};
ghost use Rattle.dsm_syntax.specs.declared.errors.ProgErr.{ProgErr};
ghost use Rattle.dsm_syntax.specs.Tree.{Item};
ghost use Rattle.dsm_syntax.specs.Programs.{view_tree};
ghost use Rattle.dsm_syntax.specs.Views.{view_items};
ghost use Rattle.dsm_syntax.specs.Lexemes.{lexemes};
ghost use Rattle.dsm_laws_grammar.specs.Programs.{IsProgramOf};
ghost use Rattle.dsm_laws_grammar.specs.Refusals.{line_at, IsRefused};

use crate::item::items;
use dsm_syntax::{Cursor, ProgErr, Refusal, Token, Tokens, Tree, Which};
use std::alloc::Global;

/// How many nodes there may be on a way down in a function.
const MOST_HEIGHT: u32 = 64;

/// The line of the token at a place, or of the last one.
fn line_at(tokens: &[Token], place: usize) -> u32
    ensures { result ≡ line_at tokens.now place }
{
    if tokens.is_empty() {
        return 1;
    }
    tokens[place.min(tokens.len() - 1)].line
}

/// The items that the tokens spell, of at most such a height.
fn read(alloc: Global, tokens: &[Token], most: u32) -> Result<Vec<dsm_syntax::Item>, ProgErr>
    requires { most ≡ 64 }
    ensures found { IfOk result (λ all. IsProgramOf (lexemes tokens.now) (view_items all.items)) }
    ensures refused { IfErr result (IsRefused tokens.now) }
{
    let mut cursor = Cursor::new(tokens);
    match items(alloc, &mut cursor, most) {
        Ok(items) => Ok(items),
        Err(Refusal::Unexpected) => Err(ProgErr::Unexpected {
            line: line_at(tokens, tokens.len() - cursor.len()),
        }),
        Err(Refusal::TooHigh) => Err(ProgErr::Limit {
            which: Which::Nesting,
            count: most + 1,
        }),
        Err(Refusal::Memory) => Err(ProgErr::Memory),
    }
}

/// The tree of a program that the tokens spell.
///
/// - `Unexpected` comes for the first token at which no program begins with the tokens up to it,
///   with its line. The end of the text is a last token, in the line of the token before it.
/// - `Limit` of `Nesting` comes, with 65, for the first token at which only programs with a
///   function higher than 64 do.
/// - `Memory` comes where memory runs out.
pub fn parse(alloc: Global, tokens: &Tokens) -> Result<Tree, ProgErr>
    ensures found { IfOk result (λ tree. IsProgramOf (lexemes tokens.now) (view_tree tree)) }
    ensures refused { IfErr result (IsRefused tokens.now) }
    ensures each_program { (items : List Item) → IsProgramOf (lexemes tokens.now) items →
        MatchResult result (λ tree. view_tree tree ≡ items) (λ e. e ≡ ProgErr.Memory) }
    ensures each_fault { (e : ProgErr) → e ≢ ProgErr.Memory → IsRefused tokens.now e →
        MatchResult result (λ tree. ⊥) (λ f. (f ≡ e) ⊎ (f ≡ ProgErr.Memory)) }
{
    let items = read(alloc, tokens.as_slice(), MOST_HEIGHT)?;
    Ok(Tree::new(items))
}
