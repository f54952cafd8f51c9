//! The tokens of a text, as the grammar sees them.

ghost use Rattle.std.specs.Prelude.{◌≡◌, ◌≢◌, ℕ, ◌≤◌, List, [], ◌∷◌, ◌++◌, length};
ghost use Rattle.std.specs.Prelude.{slice_range, IfOk, OnOk, MatchResult, Err};
ghost use Rattle.es_lexer.specs.Tokens.{Tokens, IsBadAt, IsSpelled};
ghost use Rattle.es_lexer.specs.declared.token_types.Token.{Token};
ghost use Rattle.es_expressions.specs.declared.lexemes.Lexeme.{Lexeme};
ghost use Rattle.es_expressions.specs.Sources.{IsSymbol, IsLexeme, AreLexemes};

use crate::lexemes::{Lexeme, Symbol};
use bml_bytes::{NoMemory, Text};
use es_lexer::{
    LexRefusal, Token, TokenKind, law_of_spans, punctuator_of, reserved_word_of, tokens,
};
use std::alloc::Global;

/// The tokens of a text in their order, each with what its codes spell. Where the text has none,
/// tells the first place at which nothing stands, as [`tokens`] does.
pub fn lexemes_of(alloc: Global, text: &Text) -> Result<Vec<Lexeme>, LexRefusal>
    ensures ok { IfOk result (λ lexemes. (tokens : List Token)
        × Tokens text.now tokens × AreLexemes text.now tokens lexemes.items) }
    ensures bad { (place : ℕ) → result ≡ Err (LexRefusal.Bad place) → IsBadAt text.now place }
    ensures bad_only { (place : ℕ) → IsBadAt text.now place
        → MatchResult result (λ _. ⊥)
        (λ refusal. refusal ≢ LexRefusal.NoMemory → refusal ≡ LexRefusal.Bad place) }
{
    law_of_spans();
    let found = tokens(alloc, text)?;
    let mut lexemes = Vec::with_capacity(alloc, found.len())?;
    for token in &found {
        push_lexeme(alloc, text, token, &mut lexemes)?;
    }
    Ok(lexemes)
}

// One token of a text more, with its symbol.
fn push_lexeme(
    alloc: Global,
    text: &Text,
    token: &Token,
    lexemes: &mut Vec<Lexeme>,
) -> Result<(), NoMemory>
    requires from { token.now.start ≤ token.now.end }
    requires within { token.now.end ≤ length text.now }
    requires spelled { IsSpelled token.now.kind
        (slice_range text.now token.now.start token.now.end) }
    ensures { OnOk result ((lexeme : Lexeme) × IsLexeme text.now token.now lexeme
        × (lexemes.new.items ≡ lexemes.old.items ++ lexeme ∷ [])) }
{
    let spelling = &text.codes()[token.start..token.end];
    let symbol = symbol_of(alloc, &token.kind, spelling)?;
    lexemes.push(Lexeme {
        symbol,
        start: token.start,
        end: token.end,
        after_break: token.after_break,
    })?;
    Ok(())
}

// The symbol of a token, by the codes that spell it.
fn symbol_of(alloc: Global, kind: &TokenKind, spelling: &[u16]) -> Result<Symbol, NoMemory>
    requires { IsSpelled kind.now spelling.now }
    ensures { IfOk result (λ symbol. IsSymbol kind.now spelling.now symbol) }
{
    match kind {
        TokenKind::Name => Ok(Symbol::Name(Text::of_codes(alloc, spelling)?)),
        TokenKind::Word => match reserved_word_of(spelling) {
            Some(word) => Ok(Symbol::Word(word)),
            None => unreachable!(),
        },
        TokenKind::Mark => match punctuator_of(spelling) {
            Some(mark) => Ok(Symbol::Mark(mark)),
            None => unreachable!(),
        },
        TokenKind::Number(number) => Ok(Symbol::Number(*number)),
        TokenKind::Words(words) => Ok(Symbol::Words(words.share()?)),
    }
}
