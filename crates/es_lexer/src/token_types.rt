//! Tokens, and why a text has none.

use bml_bytes::{NoMemory as MemoryGone, Text};
use std::alloc::{AllocError, AllocFailed};

/// What a token is (ECMA-262 second edition, 7.4).
#[derive(Debug, Drop)]
pub enum TokenKind {
    /// An identifier that isn't reserved.
    Name,
    /// A reserved word.
    Word,
    /// A punctuator.
    Mark,
    /// A number, with its value: 0 to 2,147,483,647.
    Number(i32),
    /// A text literal, with the text that it means.
    Words(Text),
}

/// A token of a text: what it is, the place of its first code and the place behind its last one,
/// counted from 0, and whether a line break stands between it and the token before it, or the
/// beginning of the text.
#[derive(Debug, Drop)]
pub struct Token {
    pub kind: TokenKind,
    pub start: usize,
    pub end: usize,
    pub after_break: bool,
}

/// Why a text has no tokens.
#[derive(Clone, Copy, Debug, PartialEq, Eq)]
pub enum LexRefusal {
    /// No token, white space or comment stands at this place, and one stands at each place before it
    /// at which an earlier one ends, from the first place on.
    Bad { place: usize },
    /// Want of memory, and nothing else.
    NoMemory,
}

impl From<MemoryGone> for LexRefusal {
    ghost use Rattle.std.specs.Prelude.{◌≡◌};
    ghost use Rattle.es_lexer.specs.declared.token_types.LexRefusal.TheVariants.{NoMemory};

    ghost from_gives = { λ _ refusal. refusal ≡ NoMemory };

    fn from(_error: MemoryGone) -> LexRefusal {
        LexRefusal::NoMemory
    }
}

impl From<AllocError> for LexRefusal {
    ghost use Rattle.std.specs.Prelude.{◌≡◌};
    ghost use Rattle.es_lexer.specs.declared.token_types.LexRefusal.TheVariants.{NoMemory};

    ghost from_gives = { λ _ refusal. refusal ≡ NoMemory };

    fn from(_error: AllocError) -> LexRefusal {
        LexRefusal::NoMemory
    }
}

impl<T: Drop> From<AllocFailed<T>> for LexRefusal {
    ghost use Rattle.std.specs.Prelude.{◌≡◌};
    ghost use Rattle.es_lexer.specs.declared.token_types.LexRefusal.TheVariants.{NoMemory};

    ghost from_gives = { λ _ refusal. refusal ≡ NoMemory };

    fn from(_error: AllocFailed<T>) -> LexRefusal {
        LexRefusal::NoMemory
    }
}
