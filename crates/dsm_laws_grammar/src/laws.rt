//! Laws of the grammar of trees. Each is proved of all tokens, and calls nothing.

ghost use Rattle.std.specs.Prelude.{◌≡◌, ◌≢◌, ◌⊎◌, ◌<◌, ◌+◌, ◌++◌, ℕ, List, length, take};
ghost use Rattle.dsm_syntax.specs.declared.errors.ProgErr.{ProgErr};
ghost use Rattle.dsm_syntax.specs.declared.token.Token.{Token};
ghost use Rattle.dsm_syntax.specs.Tree.{Item};
ghost use Rattle.dsm_syntax.specs.Lexemes.{Lexeme, lexemes};
ghost use Rattle.dsm_laws_grammar.specs.Grammar.{spell_program};
ghost use Rattle.dsm_laws_grammar.specs.Programs.{IsProgram, IsProgramOf};
ghost use Rattle.dsm_laws_grammar.specs.Refusals.{IsUnexpected, IsTooHigh, IsStopped, IsRefused};
ghost use Rattle.dsm_laws_grammar.specs.TextPrograms.{IsProgramText, IsNoProgram};

/// No tokens have two trees, however high.
pub fn one_tree()
    ensures { (items others : List Item) → IsProgram items → IsProgram others →
        spell_program items ≡ spell_program others → items ≡ others }
{}

/// Tokens are those of a program that isn't too high or are refused, never both, and they are
/// refused at one place for one reason.
pub fn tree_or_refusal()
    ensures each_list { (tokens : List Token) →
        ((items : List Item) × IsProgramOf (lexemes tokens) items)
        ⊎ ((e : ProgErr) × (e ≢ ProgErr.Memory) × IsRefused tokens e) }
    ensures not_both { (tokens : List Token) (items : List Item) (e : ProgErr) →
        e ≢ ProgErr.Memory → IsProgramOf (lexemes tokens) items → IsRefused tokens e → ⊥ }
    ensures one_refusal { (tokens : List Token) (e f : ProgErr) →
        e ≢ ProgErr.Memory → f ≢ ProgErr.Memory →
        IsRefused tokens e → IsRefused tokens f → e ≡ f }
    ensures one_place { (tokens : List Lexeme) (place other : ℕ) →
        IsStopped tokens place → IsStopped tokens other → place ≡ other }
{}

/// Each text is a program or is refused, never both; it is one program, and it is refused for one
/// reason: by the grammar of tokens for the text, or by that of trees for its tokens.
pub fn program_or_refusal()
    ensures each_text { (text : List ℕ) →
        ((items : List Item) × IsProgramText text items) ⊎ ((e : ProgErr) × IsNoProgram text e) }
    ensures not_both { (text : List ℕ) (items : List Item) (e : ProgErr) →
        IsProgramText text items → IsNoProgram text e → ⊥ }
    ensures one_program { (text : List ℕ) (items others : List Item) →
        IsProgramText text items → IsProgramText text others → items ≡ others }
    ensures one_refusal { (text : List ℕ) (e f : ProgErr) →
        IsNoProgram text e → IsNoProgram text f → e ≡ f }
{}

/// What stands before a refused token can be completed to a program that isn't too high; with that
/// token it can't be, and it is refused there whatever comes behind.
pub fn refused_for_good()
    ensures completed { (tokens : List Lexeme) (place : ℕ) → IsStopped tokens place →
        (missing : List Lexeme) × (items : List Item)
        × IsProgramOf (take place tokens ++ missing) items }
    ensures hopeless { (tokens more : List Lexeme) (place : ℕ) (items : List Item) →
        place < length tokens → IsStopped tokens place →
        ¬ IsProgramOf (take (place + 1) tokens ++ more) items }
    ensures unexpected { (tokens more : List Lexeme) (place : ℕ) →
        place < length tokens → IsUnexpected tokens place →
        IsUnexpected (take (place + 1) tokens ++ more) place }
    ensures too_high { (tokens more : List Lexeme) (place : ℕ) →
        place < length tokens → IsTooHigh tokens place →
        IsTooHigh (take (place + 1) tokens ++ more) place }
{}
