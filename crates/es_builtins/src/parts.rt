//! The parts of a text between the places of a separator.

ghost use Rattle.std.specs.Prelude.{◌≡◌, ◌<◌, ◌≤◌, ◌++◌, ◌∷◌, [], length, map, IfOk, OnOk};
ghost use Rattle.std.specs.Option.{option_copied};
ghost use Rattle.es_values.specs.declared.values.Value.TheVariants.{Str};
ghost use Rattle.es_builtins.specs.Fronts.{AreFronts};
ghost use Rattle.es_builtins.specs.Texts.{parts_within, split as spec_split};

use crate::separators::{fronts_of, separator_place};
use bml_bytes::{NoMemory, Text};
use es_values::Value;
use std::alloc::Global;

/// The parts of a text, parted at each place of a separator from the front on: the whole text
/// without one, and each code by an empty one. (`split`, ECMA-262 second edition, 15.5.4.8.)
pub fn split(alloc: Global, text: &Text, separator: Option<&Text>) -> Result<Vec<Value>, NoMemory>
    ensures { IfOk result (λ parts. parts.items
        ≡ map (λ part. Str part) (spec_split text.now (option_copied separator.entry))) }
{
    let mut parts = Vec::new(alloc);
    match separator {
        None => parts.push(Value::Str(text.share()?))?,
        Some(separator) if separator.len() == 0 => push_characters(text.codes(), &mut parts)?,
        Some(separator) => push_parts(separator.codes(), text.codes(), &mut parts)?,
    }
    Ok(parts)
}

// Appends a text of each code.
fn push_characters(text: &[u16], parts: &mut Vec<Value>) -> Result<(), NoMemory>
    ensures { OnOk result (parts.new.items
        ≡ parts.old.items ++ map (λ part. Str part) (map (λ code. code ∷ []) text.now)) }
{
    for code in text {
        push_part(&[*code], parts)?;
    }
    Ok(())
}

// Appends the parts between the places of a separator, of which there are none in a shorter text.
fn push_parts(separator: &[u16], text: &[u16], parts: &mut Vec<Value>) -> Result<(), NoMemory>
    requires { 0 < length separator.now }
    ensures { OnOk result (parts.new.items ≡ parts.old.items
        ++ map (λ part. Str part) (parts_within (length text.now) separator.now text.now)) }
{
    if text.len() < separator.len() {
        return push_part(text, parts);
    }
    let fronts = fronts_of(*parts.allocator(), separator)?;
    push_parted(separator, &fronts, text, parts)
}

fn push_parted(
    separator: &[u16],
    fronts: &[usize],
    text: &[u16],
    parts: &mut Vec<Value>,
) -> Result<(), NoMemory>
    requires some { 0 < length separator.now }
    requires fronts { AreFronts separator.now fronts.now }
    requires all { length separator.now ≤ length fronts.now }
    ensures { OnOk result (parts.new.items ≡ parts.old.items
        ++ map (λ part. Str part) (parts_within (length text.now) separator.now text.now)) }
{
    let mut rest = text;
    'places: while let Some(place) = separator_place(separator, fronts, rest) {
        push_part(&rest[..place], parts)?;
        rest = &rest[place + separator.len()..];
    }
    push_part(rest, parts)
}

// Appends a part as a text.
fn push_part(part: &[u16], parts: &mut Vec<Value>) -> Result<(), NoMemory>
    ensures { OnOk result (parts.new.items ≡ parts.old.items ++ Str part.now ∷ []) }
{
    let text = Text::of_codes(*parts.allocator(), part)?;
    parts.push(Value::Str(text))?;
    Ok(())
}
