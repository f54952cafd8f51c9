//! Tags: names, attributes, ends.

ghost use Rattle.std.specs.Prelude.{◌≡◌, ◌∷◌, ◌++◌, option_map, is_some, not, true, IfOk, None, Some, length, suc, []};
ghost use Rattle.bml_bytes.specs.Codes.{codes};
ghost use Rattle.dom_tree.specs.Items.{value_in};
ghost use Rattle.bml_reader.specs.devices.AttributeViews.{attributes_in_map};
ghost use Rattle.bml_reader.specs.devices.Lexing.{name_at, equals_at, value_at, closed_value, attribute_at, value_of_name, tag_end_at, inner_at};
ghost use Rattle.bml_reader.specs.devices.Views.{found_bytes, found_written, found_flag};
ghost use Rattle.bml_reader.specs.References.{read_references};
ghost use Rattle.bml_reader.specs.devices.TagViews.{found_end, found_inner};
ghost use Rattle.std.specs.Option.{option_and_then, option_copied};

use crate::bytes::{ByteClass, behind_mark, behind_run, is_name_start, split_run};
use crate::references::referring_text;
use bml_bytes::{NoMemory, Text};
use indexmap::IndexMap;
use std::alloc::Global;

/// What stands in a start tag behind its name: the attributes, in the order written, and whether
/// the element ends with the tag.
#[derive(Drop)]
pub struct Inside {
    pub attributes: IndexMap<Text, Text>,
    pub is_empty: bool,
}

/// The name at the front, and what stands behind it.
#[tactic(auto, unfolding(crate::specs::devices::Lexing::name_at))]
pub fn name(bytes: &[u8]) -> Option<(&[u8], &[u8])>
    ensures { option_map found_bytes result ≡ name_at bytes.now }
{
    match bytes.split_first() {
        Some((byte, _)) if is_name_start(*byte) => Some(split_run(ByteClass::NameByte, bytes)),
        _ => None,
    }
}

/// What stands in a start tag behind its name, and what stands behind the tag.
pub fn inside_tag(alloc: Global, bytes: &[u8]) -> Result<Option<(Inside, &[u8])>, NoMemory>
    ensures { IfOk result
        (λ found. option_map found_inner found ≡ inner_at (suc (length bytes.now)) [] bytes.now) }
{
    let mut attributes: IndexMap<Text, Text> = IndexMap::new(alloc);
    match read_attributes(alloc, bytes, &mut attributes)? {
        Some((is_empty, behind)) => {
            let inside = Inside {
                attributes,
                is_empty,
            };
            Ok(Some((inside, behind)))
        }
        None => Ok(None),
    }
}

// Adds the attributes up to the end of the tag. Answers whether the element ends with the tag, and
// what stands behind it.
fn read_attributes<'a>(
    alloc: Global,
    bytes: &'a [u8],
    attributes: &mut IndexMap<Text, Text>,
) -> Result<Option<(bool, &'a [u8])>, NoMemory>
    ensures { IfOk result
        (λ end. option_map (found_end (attributes_in_map attributes.new)) end
        ≡ inner_at (suc (length bytes.now)) (attributes_in_map attributes.old) bytes.now) }
{
    let mut rest = bytes;
    'attributes: loop {
        match tag_end(rest) {
            Some((is_empty, behind)) => return Ok(Some((is_empty, behind))),
            None => {}
        }
        match attribute(rest) {
            None => return Ok(None),
            Some((name, value, behind)) => {
                if !read_attribute(alloc, name, value, attributes)? {
                    return Ok(None);
                }
                rest = behind;
            }
        }
    }
}

// Adds an attribute that is written so, unless one of its name is there. Answers whether it was
// added.
fn read_attribute(
    alloc: Global,
    name: &[u8],
    value: &[u8],
    attributes: &mut IndexMap<Text, Text>,
) -> Result<bool, NoMemory>
    ensures new { IfOk result
        (λ added. is_some (value_in (attributes_in_map attributes.old) (codes name.now))
        ≡ not added) }
    ensures last { IfOk result (λ added. added ≡ true
        → attributes_in_map attributes.new
        ≡ attributes_in_map attributes.old
        ++ record { name = codes name.now; value = codes (read_references value.now) } ∷ []) }
{
    let name = Text::of_bytes(alloc, name)?;
    let value = referring_text(alloc, value)?;
    add_attribute(attributes, name, value)
}

// Adds an attribute, unless one of that name is there. Answers whether it was added.
fn add_attribute(
    attributes: &mut IndexMap<Text, Text>,
    name: Text,
    value: Text,
) -> Result<bool, NoMemory>
    ensures new { IfOk result
        (λ added. is_some (value_in (attributes_in_map attributes.old) name) ≡ not added) }
    ensures last { IfOk result (λ added. added ≡ true
        → attributes_in_map attributes.new
        ≡ attributes_in_map attributes.old ++ record { name = name; value = value } ∷ []) }
{
    match attributes.get(&name) {
        Some(_) => Ok(false),
        None => {
            attributes.insert(name, value)?;
            Ok(true)
        }
    }
}

// Whether the tag ends at the front, behind white, and the element with it.
#[tactic(auto, unfolding(crate::specs::devices::Lexing::tag_end_at))]
fn tag_end(bytes: &[u8]) -> Option<(bool, &[u8])>
    ensures { option_map found_flag result ≡ tag_end_at bytes.now }
{
    let bytes = behind_run(ByteClass::White, bytes);
    match behind_mark(bytes, b">") {
        Some(rest) => return Some((false, rest)),
        None => {}
    }
    let rest = behind_mark(bytes, b"/>")?;
    Some((true, rest))
}

// The name and the value of the attribute at the front, which begins with white, and what stands
// behind it.
#[tactic(auto, unfolding(crate::specs::devices::Lexing::attribute_at))]
fn attribute(bytes: &[u8]) -> Option<(&[u8], &[u8], &[u8])>
    ensures { option_map found_written result ≡ attribute_at bytes.now }
{
    let (byte, _) = bytes.split_first()?;
    if !ByteClass::White.has(*byte) {
        return None;
    }
    named_value(behind_run(ByteClass::White, bytes))
}

// The name and the value at the front, and what stands behind them.
#[tactic(auto, unfolding(crate::specs::devices::Lexing::value_of_name))]
fn named_value(bytes: &[u8]) -> Option<(&[u8], &[u8], &[u8])>
    ensures { option_map found_written result
        ≡ option_and_then value_of_name (name_at bytes.now) }
{
    let (name, rest) = name(bytes)?;
    let (value, rest) = value(equals(rest)?)?;
    Some((name, value, rest))
}

// What stands behind `=` and the white round it.
#[tactic(auto, unfolding(crate::specs::devices::Lexing::equals_at))]
fn equals(bytes: &[u8]) -> Option<&[u8]>
    ensures { option_copied result ≡ equals_at bytes.now }
{
    let rest = behind_mark(behind_run(ByteClass::White, bytes), b"=")?;
    Some(behind_run(ByteClass::White, rest))
}

// The bytes of the value in quotes at the front, and what stands behind it.
#[tactic(auto, unfolding(crate::specs::devices::Lexing::value_at, crate::specs::devices::Lexing::closed_value, crate::specs::Bytes::is_quote))]
fn value(bytes: &[u8]) -> Option<(&[u8], &[u8])>
    ensures { option_map found_bytes result ≡ value_at bytes.now }
{
    let (quote, rest) = bytes.split_first()?;
    if *quote != b'"' && *quote != b'\'' {
        return None;
    }
    let (value, rest) = split_run(ByteClass::ValueByte(*quote), rest);
    let rest = behind_mark(rest, &[*quote])?;
    Some((value, rest))
}
