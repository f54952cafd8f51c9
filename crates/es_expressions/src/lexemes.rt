//! Tokens, as the grammar sees them.

ghost use Rattle.std.specs.Prelude.{◌≡◌, IfOk};
ghost use Rattle.es_expressions.specs.Roles.{is_name as spec_is_name};

use bml_bytes::{NoMemory, Text};
use es_lexer::{Punctuator, ReservedWord};

/// What a token is and what it means: a name with its codes, a reserved word, a punctuator, a
/// number with its value, or a text literal with the text that it means.
#[derive(Debug, Drop)]
pub enum Symbol {
    Name(Text),
    Word(ReservedWord),
    Mark(Punctuator),
    Number(i32),
    Words(Text),
}

/// A token with its symbol, the place of its first code and the place behind its last one, and
/// whether a line break stands in front of it.
#[derive(Debug, Drop)]
pub struct Lexeme {
    pub symbol: Symbol,
    pub start: usize,
    pub end: usize,
    pub after_break: bool,
}

impl Symbol {
    /// The same symbol again. Both share their codes.
    pub fn share(&self) -> Result<Symbol, NoMemory>
        ensures { IfOk result (λ symbol. symbol ≡ self.now) }
    {
        match self {
            Symbol::Name(name) => Ok(Symbol::Name(name.share()?)),
            Symbol::Word(word) => Ok(Symbol::Word(*word)),
            Symbol::Mark(mark) => Ok(Symbol::Mark(*mark)),
            Symbol::Number(number) => Ok(Symbol::Number(*number)),
            Symbol::Words(words) => Ok(Symbol::Words(words.share()?)),
        }
    }
    /// Whether it is a name.
    pub fn is_name(&self) -> bool
        ensures { result ≡ spec_is_name self.now }
    {
        matches!(self, Symbol::Name(_))
    }
}
