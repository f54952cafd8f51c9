//! Declarations.

ghost use Rattle.std.specs.Prelude.{◌≡◌, ◌++◌, IfOk, OnOk};
ghost use Rattle.std.specs.Option.{option_to_list};
ghost use Rattle.style_reader.specs.Declarations.{declaration_of as spec_declaration_of, declarations_in as spec_declarations_in, property_of as spec_property_of};

use crate::characters::trimmed;
use crate::pieces::{first_piece, split_at_code};
use crate::properties::{Property, StyleValue};
use crate::values::value_in;
use bml_bytes::{NoMemory, is_word_in_any_case};
use std::alloc::Global;

/// A property, and what it is given.
#[derive(Clone, Copy, Debug, PartialEq, Eq)]
pub struct Declaration {
    pub property: Property,
    pub value: StyleValue,
}

const COLON: u16 = 0x3A;

const SEMICOLON: u16 = 0x3B;

/// The declarations of a block or of an inline text, in order.
pub fn declarations_in(alloc: Global, text: &[u16]) -> Result<Vec<Declaration>, NoMemory>
    ensures { IfOk result (λ found. found.items ≡ spec_declarations_in text.now) }
{
    let mut declarations = Vec::new(alloc);
    let mut rest = text;
    'declarations: loop {
        let (piece, behind) = first_piece(rest, SEMICOLON);
        push_declaration(piece, &mut declarations)?;
        match behind {
            Some(more) => rest = more,
            None => return Ok(declarations),
        }
    }
}

// Appends the declaration that a text is, where it is one.
fn push_declaration(text: &[u16], out: &mut Vec<Declaration>) -> Result<(), NoMemory>
    ensures { OnOk result
        (out.new.items ≡ out.old.items ++ option_to_list (spec_declaration_of text.now)) }
{
    if let Some(declaration) = declaration_of(text) {
        out.push(declaration)?;
    }
    Ok(())
}

// The declaration that a text is, where it is one.
fn declaration_of(text: &[u16]) -> Option<Declaration>
    ensures { result ≡ spec_declaration_of text.now }
{
    let (name, value) = split_at_code(text, COLON)?;
    let property = property_of(trimmed(name))?;
    let value = value_in(property, value)?;
    Some(Declaration { property, value })
}

// The property of that name.
fn property_of(name: &[u16]) -> Option<Property>
    ensures { result ≡ spec_property_of name.now }
{
    Property::all()
        .iter()
        .copied()
        .find(|property| is_word_in_any_case(name, property.name()))
}
