//! What the definitions say together.

ghost use Rattle.std.specs.Prelude.{◌≡◌, ◌≢◌, ◌⊎◌, ℕ, List, true, [], ◌∷◌, ◌++◌};
ghost use Rattle.es_lexer.specs.Tokens.{Tokens};
ghost use Rattle.es_lexer.specs.declared.token_types.Token.{Token};
ghost use Rattle.es_expressions.specs.Roles.{front, joint};
ghost use Rattle.es_expressions.specs.Phrases.{Phrase};
ghost use Rattle.es_expressions.specs.Beginnings.{IsWhole, Begins, least, goes_on_with};
ghost use Rattle.es_expressions.specs.Sources.{AreLexemes};
ghost use Rattle.es_expressions.specs.declared.lexemes.Lexeme.{Lexeme};
ghost use Rattle.es_expressions.specs.declared.expressions.Extent.{Extent};
ghost use Rattle.es_expressions.specs.declared.roles.Front.TheVariants.{Nothing};

use es_lexer::law_of_tokens;

/// Tokens are those of at most one expression, and so of at most one tree.
pub fn law_of_expressions()
    ensures { (extent : Extent) (tokens : List Lexeme) (one other : Phrase)
        → IsWhole (least extent) tokens one → IsWhole (least extent) tokens other → one ≡ other }
{}

/// Where expressions end and begin. A `)`, `]` or `:`, a `;`, a brace, a word such as `in` or any
/// other token that does nothing behind an operand never goes on with a whole expression, and a `,`
/// only where a list with commas is read. An expression has a first token, and that is one with
/// which an operand begins.
pub fn law_of_ends()
    ensures goes_on { (extent : Extent) (tokens : List Lexeme) (e : Phrase) (t : Lexeme)
        → IsWhole (least extent) tokens e → Begins (least extent) (tokens ++ t ∷ [])
        → goes_on_with extent (joint t) ≡ true }
    ensures first { (extent : Extent) (t : Lexeme) (more : List Lexeme)
        → Begins (least extent) (t ∷ more) → front t ≢ Nothing }
    ensures some { (extent : Extent) (e : Phrase) → IsWhole (least extent) [] e → ⊥ }
{}

/// Of all tokens it can be told whether an expression begins with them, and whether they are one,
/// and which.
pub fn law_of_beginnings()
    ensures begins { (extent : Extent) (tokens : List Lexeme)
        → Begins (least extent) tokens ⊎ (Begins (least extent) tokens → ⊥) }
    ensures whole { (extent : Extent) (tokens : List Lexeme)
        → ((e : Phrase) × IsWhole (least extent) tokens e)
        ⊎ ((e : Phrase) → IsWhole (least extent) tokens e → ⊥) }
{}

/// A text has at most one list of tokens with their symbols.
pub fn law_of_sources()
    ensures { (text : List ℕ) (tokens others : List Token) (lexemes more : List Lexeme)
        → Tokens text tokens → AreLexemes text tokens lexemes
        → Tokens text others → AreLexemes text others more → lexemes ≡ more }
{
    law_of_tokens();
}
