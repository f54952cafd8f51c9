//! The tokens of a text.

ghost use Rattle.std.specs.Prelude.{◌≡◌, ◌≢◌, ℕ, List, IfOk, MatchResult, Err};
ghost use Rattle.es_lexer.specs.Tokens.{Tokens, IsBadAt};
ghost use Rattle.es_lexer.specs.declared.token_types.Token.{Token};

use crate::elements::{Element, element_at_front};
use crate::token_types::{LexRefusal, Token};
use bml_bytes::Text;
use std::alloc::Global;

/// The tokens of a text, in their order. Where the text has none, tells the first place at which
/// nothing stands.
pub fn tokens(alloc: Global, text: &Text) -> Result<Vec<Token>, LexRefusal>
    ensures ok { IfOk result (λ found. Tokens text.now found.items) }
    ensures only { (tokens : List Token) → Tokens text.now tokens
        → MatchResult result (λ found. found.items ≡ tokens)
        (λ refusal. refusal ≡ LexRefusal.NoMemory) }
    ensures bad { (place : ℕ) → result ≡ Err (LexRefusal.Bad place) → IsBadAt text.now place }
    ensures bad_only { (place : ℕ) → IsBadAt text.now place
        → MatchResult result (λ _. ⊥)
        (λ refusal. refusal ≢ LexRefusal.NoMemory → refusal ≡ LexRefusal.Bad place) }
{
    let mut tokens = Vec::new(alloc);
    let mut rest = text.codes();
    let mut after_break = false;
    let mut unclosed = false;
    'elements: while !rest.is_empty() {
        let start = text.len() - rest.len();
        match element_at_front(alloc, rest, &mut unclosed)? {
            None => return Err(LexRefusal::Bad { place: start }),
            Some((element, behind)) => {
                match element {
                    Element::Blank => {}
                    Element::Break => after_break = true,
                    Element::Token(kind) => {
                        let end = text.len() - behind.len();
                        tokens.push(Token {
                            kind,
                            start,
                            end,
                            after_break,
                        })?;
                        after_break = false;
                    }
                }
                rest = behind;
            }
        }
    }
    Ok(tokens)
}
