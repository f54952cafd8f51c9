//! What the definitions say of texts.

ghost use Rattle.std.specs.Prelude.{◌≡◌, ◌⊎◌, ℕ, List, Some, None};
ghost use Rattle.es_expressions.specs.declared.lexemes.Lexeme.{Lexeme};
ghost use Rattle.es_reader.specs.Statements.{Item};
ghost use Rattle.es_reader.specs.Grammar.{IsProgram};
ghost use Rattle.es_reader.specs.Programs.{ToldProgram, Tells};
ghost use Rattle.es_reader.specs.Readers.{Reader, IsReader, IsWritten, IsNoProgram};
ghost use Rattle.es_reader.specs.Sources.{AreLexemesOf, IsProgramOf, IsTooDeep, IsBad};

use crate::laws::{law_of_programs, law_of_reading};
use es_expressions::law_of_sources;
use es_lexer::{law_of_spans, law_of_tokens};

/// A text is at most one program, and bad at one place at most. No text is two of these: a program
/// of at most 64 levels, one that is nested deeper, and bad.
pub fn law_of_texts()
    ensures program { (text : List ℕ) (lexemes others : List Lexeme) (items more : List Item)
        → AreLexemesOf text lexemes → IsProgram lexemes items
        → AreLexemesOf text others → IsProgram others more → items ≡ more }
    ensures one_place { (text : List ℕ) (place other : ℕ)
        → IsBad text place → IsBad text other → place ≡ other }
    ensures not_bad { (text : List ℕ) (told : ToldProgram) (place : ℕ)
        → IsProgramOf text told → IsBad text place → ⊥ }
    ensures not_deep { (text : List ℕ) (told : ToldProgram)
        → IsProgramOf text told → IsTooDeep text → ⊥ }
    ensures deep_not_bad { (text : List ℕ) (place : ℕ)
        → IsTooDeep text → IsBad text place → ⊥ }
{
    law_of_tokens();
    law_of_sources();
    law_of_programs();
}

/// A reader tells of each text the program that was read of it, and none of a text that was
/// refused; so there is one at most. And there is something to be told of each text: it is a
/// program of at most 64 levels, or one of more, or bad at some place.
pub fn law_of_readers()
    ensures program { (read : Reader) (text : List ℕ) (told : ToldProgram) → IsReader read
        → IsProgramOf text told
        → (items : List Item) × (read text ≡ Some items) × Tells items told }
    ensures deep { (read : Reader) (text : List ℕ) → IsReader read
        → IsTooDeep text → read text ≡ None }
    ensures bad { (read : Reader) (text : List ℕ) (place : ℕ) → IsReader read
        → IsBad text place → read text ≡ None }
    ensures one { (read other : Reader) (text : List ℕ)
        → IsReader read → IsReader other → read text ≡ other text }
    ensures each { (text : List ℕ)
        → ((items : List Item) × IsWritten text items) ⊎ IsNoProgram text }
{
    law_of_tokens();
    law_of_spans();
    law_of_sources();
    law_of_programs();
    law_of_reading();
}

/// There is a reader, and by `law_of_readers` no other.
pub fn law_of_the_reader()
    ensures { (read : Reader) × IsReader read }
{
    law_of_readers();
}
