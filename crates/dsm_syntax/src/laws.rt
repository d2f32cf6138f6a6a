//! Laws of the grammar of tokens. Each is proved of all texts, and calls nothing.

ghost use Rattle.std.specs.Prelude.{◌≡◌, ◌⊎◌, ◌++◌, ℕ, List};
ghost use Rattle.dsm_syntax.specs.declared.errors.ProgErr.{ProgErr};
ghost use Rattle.dsm_syntax.specs.declared.token.Token.{Token};
ghost use Rattle.dsm_syntax.specs.Texts.{Spells, IsLexed, IsRefused};
ghost use Rattle.dsm_syntax.specs.Places.{AreInPlace, joined};
ghost use Rattle.dsm_syntax.specs.OpenEnds.{EndsOpen};

/// No text has two lists of tokens.
pub fn one_list_of_tokens()
    ensures { (text : List ℕ) (tokens others : List Token) →
        Spells tokens text → Spells others text → tokens ≡ others }
{}

/// Each text has its tokens or is refused, never both, and it is refused for one reason.
pub fn tokens_or_refusal()
    ensures each_text { (text : List ℕ) →
        ((tokens : List Token) × IsLexed text tokens) ⊎ ((e : ProgErr) × IsRefused text e) }
    ensures not_both { (text : List ℕ) (tokens : List Token) (e : ProgErr) →
        IsLexed text tokens → IsRefused text e → ⊥ }
    ensures one_refusal { (text : List ℕ) (e f : ProgErr) → IsRefused text e → IsRefused text f →
        e ≡ f }
{}

/// The tokens of a text stand in it in order, each with its slice and its line; their slices, with
/// what stands between them, are the text.
pub fn tokens_in_place()
    ensures placed { (text : List ℕ) (tokens : List Token) →
        Spells tokens text → AreInPlace text 0 tokens }
    ensures joined { (text : List ℕ) (tokens : List Token) →
        Spells tokens text → joined text 0 tokens ≡ text }
{}

/// A refused text is refused however it goes on, unless its end alone is at fault: it leaves a
/// string, a comment or a slash open. With what is missing there it is right.
pub fn refused_for_good()
    ensures refused { (text more : List ℕ) (e : ProgErr) →
        IsRefused text e → ((missing : List ℕ) → ¬ EndsOpen text missing) →
        (f : ProgErr) × IsRefused (text ++ more) f }
    ensures completed { (text missing : List ℕ) →
        EndsOpen text missing → (tokens : List Token) × IsLexed (text ++ missing) tokens }
{}
