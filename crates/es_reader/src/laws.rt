//! What the definitions say together.

ghost use Rattle.std.specs.Prelude.{◌≡◌, ◌⊎◌, ℕ, List};
ghost use Rattle.es_expressions.specs.declared.lexemes.Lexeme.{Lexeme};
ghost use Rattle.es_reader.specs.Statements.{Item};
ghost use Rattle.es_reader.specs.Grammar.{IsProgram};
ghost use Rattle.es_reader.specs.Programs.{IsBadAt};

use es_expressions::{law_of_beginnings, law_of_ends, law_of_expressions};

/// Tokens are those of at most one program. They have at most one place at which they can't go on
/// to one, and none where they are one.
pub fn law_of_programs()
    ensures one { (tokens : List Lexeme) (items others : List Item)
        → IsProgram tokens items → IsProgram tokens others → items ≡ others }
    ensures not_both { (tokens : List Lexeme) (items : List Item) (place : ℕ)
        → IsProgram tokens items → IsBadAt tokens place → ⊥ }
    ensures one_place { (tokens : List Lexeme) (place other : ℕ)
        → IsBadAt tokens place → IsBadAt tokens other → place ≡ other }
{
    law_of_expressions();
    law_of_ends();
}

/// All tokens are a program, or there is a place at which they can't go on to one.
pub fn law_of_reading()
    ensures { (tokens : List Lexeme)
        → ((items : List Item) × IsProgram tokens items) ⊎ ((place : ℕ) × IsBadAt tokens place) }
{
    law_of_expressions();
    law_of_ends();
    law_of_beginnings();
}
