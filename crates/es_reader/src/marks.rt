//! Tokens that have to stand at a place.

ghost use Rattle.std.specs.Prelude.{◌≡◌, ◌<◌, ◌↔◌, Some, None, IsTrue, MatchOption, IfOk, IfErr, slice_get};
ghost use Rattle.es_expressions.specs.declared.lexemes.Lexeme.{Lexeme};
ghost use Rattle.es_expressions.specs.declared.lexemes.Symbol.TheVariants.{Name as NameSymbol};
ghost use Rattle.es_reader.specs.Grammar.{IsMark, IsWord, IsName};
ghost use Rattle.es_reader.specs.Parts.{IsThere, Lacks};

use crate::faults::PartFault;
use bml_bytes::Text;
use es_expressions::{Lexeme, Symbol};
use es_lexer::{Punctuator, ReservedWord};

/// The token at the place, and None behind the last one.
pub fn token_at(tokens: &[Lexeme], place: usize) -> Option<&Lexeme>
    ensures { MatchOption result (slice_get tokens.now place ≡ None)
        (λ token. slice_get tokens.now place ≡ Some token.now) }
{
    tokens.get(place)
}

/// Whether the token is this mark.
pub fn is_mark(token: &Lexeme, mark: Punctuator) -> bool
    ensures { IsTrue result ↔ IsMark mark token.now }
{
    match &token.symbol {
        Symbol::Mark(there) => *there == mark,
        _ => false,
    }
}

/// Whether the token is this word.
pub fn is_word(token: &Lexeme, word: ReservedWord) -> bool
    ensures { IsTrue result ↔ IsWord word token.now }
{
    match &token.symbol {
        Symbol::Word(there) => *there == word,
        _ => false,
    }
}

/// Whether this mark stands at the place.
pub fn is_mark_at(tokens: &[Lexeme], place: usize, mark: Punctuator) -> bool
    ensures { IsTrue result ↔ IsThere (IsMark mark) tokens.now place }
{
    match token_at(tokens, place) {
        Some(token) => is_mark(token, mark),
        None => false,
    }
}

/// Whether this word stands at the place.
pub fn is_word_at(tokens: &[Lexeme], place: usize, word: ReservedWord) -> bool
    ensures { IsTrue result ↔ IsThere (IsWord word) tokens.now place }
{
    match token_at(tokens, place) {
        Some(token) => is_word(token, word),
        None => false,
    }
}

/// The mark at the place, which is Bad where another token stands there or none.
pub fn expect_mark(tokens: &[Lexeme], place: usize, mark: Punctuator) -> Result<&Lexeme, PartFault>
    ensures there { IfOk result (λ token. slice_get tokens.now place ≡ Some token.now) }
    ensures mark { IfOk result (λ token. IsMark mark token.now) }
    ensures lacks { IfErr result (Lacks (IsMark mark) tokens.now place) }
{
    match token_at(tokens, place) {
        Some(token) if is_mark(token, mark) => Ok(token),
        _ => Err(PartFault::Bad(place)),
    }
}

/// The name at the place, which is Bad where another token stands there or none.
pub fn expect_name(tokens: &[Lexeme], place: usize) -> Result<&Text, PartFault>
    ensures name { IfOk result (λ name. IsThere
        (λ token. token.symbol ≡ NameSymbol name.now) tokens.now place) }
    ensures lacks { IfErr result (Lacks IsName tokens.now place) }
{
    match token_at(tokens, place) {
        Some(token) => match &token.symbol {
            Symbol::Name(name) => Ok(name),
            _ => Err(PartFault::Bad(place)),
        },
        None => Err(PartFault::Bad(place)),
    }
}
