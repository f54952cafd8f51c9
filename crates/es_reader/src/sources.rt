//! Programs of texts.

ghost use Rattle.std.specs.Prelude.{◌≡◌, ℕ, Err, IfOk, length};
ghost use Rattle.es_reader.specs.Sources.{IsProgramOf, IsTooDeep, IsBad, place_in_text as spec_place_in_text};

use crate::programs::Program;
use crate::reader::{Reading, read_tokens};
use bml_bytes::{NoMemory as MemoryGone, Text};
use es_expressions::{Lexeme, lexemes_of};
use es_lexer::LexRefusal;
use std::alloc::Global;
use thiserror::Error;

/// Why a text wasn't read as a program.
#[derive(Clone, Copy, Debug, PartialEq, Eq, Error)]
pub enum SyntaxFault {
    /// It is none. No token stands at this place; or, where the text has tokens, the first begins
    /// here with which no program goes on, or the text ends here too early. Counted in codes, from
    /// 0.
    #[error("Bad")]
    Bad { place: usize },
    /// It is a program of more than 64 levels.
    #[error("TooDeep")]
    TooDeep,
    /// Want of memory, and nothing else.
    #[error("NoMemory")]
    NoMemory,
}

impl From<MemoryGone> for SyntaxFault {
    ghost use Rattle.std.specs.Prelude.{◌≡◌};
    ghost use Rattle.es_reader.specs.declared.sources.SyntaxFault.TheVariants.{NoMemory};

    ghost from_gives = { λ _ fault. fault ≡ NoMemory };

    fn from(_error: MemoryGone) -> SyntaxFault {
        SyntaxFault::NoMemory
    }
}

impl From<LexRefusal> for SyntaxFault {
    ghost use Rattle.std.specs.Prelude.{◌≡◌};
    ghost use Rattle.es_reader.specs.Sources.{fault_of};

    ghost from_gives = { λ refusal fault. fault ≡ fault_of refusal };

    fn from(refusal: LexRefusal) -> SyntaxFault {
        match refusal {
            LexRefusal::Bad { place } => SyntaxFault::Bad { place },
            LexRefusal::NoMemory => SyntaxFault::NoMemory,
        }
    }
}

/// Reads a text as a program: gives the program that it is, where it is one of at most 64 levels.
/// In time it is linear in the text.
pub fn read_program(alloc: Global, text: &Text) -> Result<Program, SyntaxFault>
    ensures program { IfOk result (λ program. IsProgramOf text.now program) }
    ensures bad { (place : ℕ) → result ≡ Err (SyntaxFault.Bad place) → IsBad text.now place }
    ensures too_deep { result ≡ Err SyntaxFault.TooDeep → IsTooDeep text.now }
{
    let lexemes = lexemes_of(alloc, text)?;
    match read_tokens(alloc, lexemes.as_slice())? {
        Reading::Whole(program) => Ok(program),
        Reading::TooDeep => Err(SyntaxFault::TooDeep),
        Reading::Bad(at) => {
            let place = place_in_text(text, lexemes.as_slice(), at);
            Err(SyntaxFault::Bad { place })
        }
    }
}

// Where the token with this number begins, and the text's length behind the last one.
fn place_in_text(text: &Text, lexemes: &[Lexeme], at: usize) -> usize
    ensures { result ≡ spec_place_in_text text.now lexemes.now at }
{
    match lexemes.get(at) {
        Some(lexeme) => lexeme.start,
        None => text.len(),
    }
}
