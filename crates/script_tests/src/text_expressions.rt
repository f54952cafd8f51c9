//! What is read of texts as expressions.

use crate::lines::Line;
use bml_bytes::{NoMemory, Text};
use es_expressions::{Extent, Form, Found, Lexeme, Nodes, lexemes_of, read_expression};
use es_lexer::LexRefusal;
use std::alloc::Global;

fn letter_of(form: Form) -> u8 {
    match form {
        Form::Name => b'n',
        Form::Index => b'i',
        Form::Member => b'm',
        Form::Call => b'c',
        Form::New => b'w',
        Form::Postfix => b's',
        Form::Prefix => b'p',
        Form::Binary => b'b',
        Form::Choice => b'q',
        Form::Assignment => b'a',
        Form::Comma => b'k',
        _ => b'o',
    }
}

fn push_found(nodes: &Nodes, found: Found, out: &mut Line) {
    out.byte(b' ');
    if let Some(node) = nodes.node(found.node) {
        out.byte(letter_of(node.form));
    }
    out.count(u64::from(found.height));
    if found.is_target {
        out.byte(b'=');
    }
}

// The number of tokens that are read, and where they are a whole expression a letter for its form,
// its height, and `=` where it is a target.
fn push_reading(alloc: Global, lexemes: &[Lexeme], out: &mut Line) -> Result<(), NoMemory> {
    let mut nodes = Nodes::new(alloc);
    let reading = read_expression(lexemes, 0, Extent::WithCommas, &mut nodes)?;
    out.count(reading.end as u64);
    if let Some(found) = reading.found {
        push_found(&nodes, found, out);
    }
    Ok(())
}

/// Appends what is read of a text, or `!` and the place at which it has no token.
pub fn push_told(alloc: Global, bytes: &[u8], out: &mut Line) -> Result<(), NoMemory> {
    let text = Text::of_bytes(alloc, bytes)?;
    match lexemes_of(alloc, &text) {
        Ok(lexemes) => push_reading(alloc, &lexemes, out),
        Err(LexRefusal::Bad { place }) => {
            out.byte(b'!');
            out.count(place as u64);
            Ok(())
        }
        Err(LexRefusal::NoMemory) => Err(NoMemory),
    }
}
