//! The tokens of texts, and the places where others have none, by the lexical grammar.

use crate::lines::Line;
use crate::value_words::push_codes;
use bml_bytes::{NoMemory, Text};
use es_lexer::{LexRefusal, Token, TokenKind, punctuator_of, reserved_word_of, tokens};
use std::alloc::Global;

/// Appends the tokens of a text, each with `^` behind a line break, a letter for its kind, its two
/// places and its value, or the place where nothing stands. A code that isn't printed in ASCII is
/// its number in braces.
pub fn push_told(alloc: Global, bytes: &[u8], out: &mut Line) -> Result<(), NoMemory> {
    let text = Text::of_bytes(alloc, bytes)?;
    match tokens(alloc, &text) {
        Ok(found) => {
            for token in &found {
                push_token(token, out);
            }
            out.shorten();
            Ok(())
        }
        Err(refusal) => push_refusal(refusal, out),
    }
}

fn push_refusal(refusal: LexRefusal, out: &mut Line) -> Result<(), NoMemory> {
    match refusal {
        LexRefusal::Bad { place } => {
            out.word(b"bad ");
            out.count(place as u64);
            Ok(())
        }
        LexRefusal::NoMemory => Err(NoMemory),
    }
}

fn push_token(token: &Token, out: &mut Line) {
    if token.after_break {
        out.byte(b'^');
    }
    out.byte(match &token.kind {
        TokenKind::Name => b'n',
        TokenKind::Word => b'w',
        TokenKind::Mark => b'm',
        TokenKind::Number(_) => b'd',
        TokenKind::Words(_) => b't',
    });
    out.count(token.start as u64);
    out.byte(b'-');
    out.count(token.end as u64);
    push_value(&token.kind, out);
    out.byte(b' ');
}

fn push_value(kind: &TokenKind, out: &mut Line) {
    match kind {
        TokenKind::Number(number) => {
            out.byte(b'=');
            out.number(i64::from(*number));
        }
        TokenKind::Words(text) => {
            out.byte(b'=');
            push_codes(text, out);
        }
        _ => {}
    }
}

/// Appends how many tokens a text has that is this piece so many times, or the place where nothing
/// stands.
pub fn push_long(alloc: Global, piece: &[u8], count: u32, out: &mut Line) -> Result<(), NoMemory> {
    let mut bytes = Line::new(alloc);
    for _ in 0..count {
        bytes.word(piece);
    }
    let text = Text::of_bytes(alloc, bytes.told())?;
    match tokens(alloc, &text) {
        Ok(found) => {
            out.count(found.len() as u64);
            Ok(())
        }
        Err(refusal) => push_refusal(refusal, out),
    }
}

/// Appends the reserved word and the punctuator that a text spells, and how the word is spelled.
pub fn push_spelled(alloc: Global, spelling: &[u8], out: &mut Line) -> Result<(), NoMemory> {
    let text = Text::of_bytes(alloc, spelling)?;
    let word = reserved_word_of(text.codes());
    let mark = punctuator_of(text.codes());
    out.word(format!(in alloc; "{word:?} {mark:?}")?.as_bytes());
    if let Some(word) = word {
        out.byte(b' ');
        out.word(word.spelling());
    }
    Ok(())
}
