//! The values of properties.

ghost use Rattle.std.specs.Prelude.{◌≡◌, ◌++◌, IsTrue, OnOk};
ghost use Rattle.std.specs.Io.{StartsWith};
ghost use Rattle.bml_bytes.specs.Numerals.{signed_decimal_digits};
ghost use Rattle.style_reader.specs.Values.{fits as spec_fits, is_among as spec_is_among, printed, unit_behind, value_among as spec_value_among, value_of as spec_value_of};
ghost use Rattle.style_reader.specs.Properties.Values.{KeyGroups, NumbersOrNone, VisibleOrHidden};
ghost use Rattle.style_reader.specs.devices.Views.{seen_values};

use crate::characters::trimmed;
use crate::keys::{group_text, key_groups};
use crate::numbers::{Unit, whole};
use crate::properties::{Property, StyleValue, Values};
use bml_bytes::{NoMemory, Text, is_word_in_any_case, push_decimal, push_word};

/// The value that a text gives a property, and None exactly where the text is no value of it.
/// Letters go without ASCII case, and white may stand at both ends.
pub fn value_of(property: Property, text: &Text) -> Option<StyleValue>
    ensures { result ≡ spec_value_of property text.now }
{
    value_in(property, text.codes())
}

/// The same of a part of a text.
#[tactic(auto, unfolding(crate::specs::Values::value_of))]
pub fn value_in(property: Property, text: &[u16]) -> Option<StyleValue>
    ensures { result ≡ spec_value_of property text.now }
{
    value_among(property.values(), trimmed(text))
}

// The value that a text without white at its ends is.
fn value_among(values: Values, text: &[u16]) -> Option<StyleValue>
    ensures { result ≡ spec_value_among (seen_values values) text.now }
{
    match values {
        Values::Pixels(least, most) => whole(Unit::Pixels, least, most, text),
        Values::Numbers(least, most) => whole(Unit::Plain, least, most, text),
        Values::NumbersOrNone(least, most) => number_or_none(least, most, text),
        Values::VisibleOrHidden => visibility(text),
        Values::KeyGroups => groups_or_none(text),
    }
}

fn number_or_none(least: i32, most: i32, text: &[u16]) -> Option<StyleValue>
    ensures { result ≡ spec_value_among (NumbersOrNone least most) text.now }
{
    if is_word_in_any_case(text, "none") {
        Some(StyleValue::NoValue)
    } else {
        whole(Unit::Plain, least, most, text)
    }
}

fn groups_or_none(text: &[u16]) -> Option<StyleValue>
    ensures { result ≡ spec_value_among KeyGroups text.now }
{
    if is_word_in_any_case(text, "none") {
        Some(StyleValue::NoValue)
    } else {
        key_groups(text)
    }
}

fn visibility(text: &[u16]) -> Option<StyleValue>
    ensures { result ≡ spec_value_among VisibleOrHidden text.now }
{
    if is_word_in_any_case(text, "visible") {
        Some(StyleValue::Visible)
    } else if is_word_in_any_case(text, "hidden") {
        Some(StyleValue::Hidden)
    } else {
        None
    }
}

/// Whether the value is one that a text gives the property.
#[tactic(auto, unfolding(crate::specs::Values::fits))]
pub fn fits(property: Property, value: StyleValue) -> bool
    ensures { result ≡ spec_fits property value }
{
    is_among(property.values(), value)
}

fn is_among(values: Values, value: StyleValue) -> bool
    ensures { result ≡ spec_is_among (seen_values values) value }
{
    match (values, value) {
        (Values::Pixels(least, most), StyleValue::Whole(number)) => least <= number
            && number <= most,
        (Values::Numbers(least, most), StyleValue::Whole(number)) => least <= number
            && number <= most,
        (Values::NumbersOrNone(least, most), StyleValue::Whole(number)) => {
            least <= number && number <= most
        }
        (Values::NumbersOrNone(_, _), StyleValue::NoValue) => true,
        (Values::VisibleOrHidden, StyleValue::Visible) => true,
        (Values::VisibleOrHidden, StyleValue::Hidden) => true,
        (Values::KeyGroups, StyleValue::Keys(groups)) => 1 <= groups && groups <= 7,
        (Values::KeyGroups, StyleValue::NoValue) => true,
        _ => false,
    }
}

/// Appends a value of the property as a script reads it: `10px`, `3`, `none`, `visible`, `basic
/// data-button`. It reads back as that value.
#[tactic(auto, unfolding(crate::specs::Values::printed, crate::specs::Values::fits))]
pub fn push_value(property: Property, value: StyleValue, out: &mut Vec<u8>) -> Result<(), NoMemory>
    requires { IsTrue (spec_fits property value) }
    ensures ok { OnOk result (out.new.items ≡ out.old.items ++ printed property value) }
    ensures grows { StartsWith out.new.items out.old.items }
{
    match value {
        StyleValue::Whole(number) => push_whole(number, property.values(), out),
        StyleValue::NoValue => push_word("none", out),
        StyleValue::Visible => push_word("visible", out),
        StyleValue::Hidden => push_word("hidden", out),
        StyleValue::Keys(groups) => push_word(group_text(groups), out),
    }
}

// Appends a number, and `px` where it is one of pixels.
fn push_whole(number: i32, values: Values, out: &mut Vec<u8>) -> Result<(), NoMemory>
    ensures ok { OnOk result (out.new.items
        ≡ out.old.items ++ (signed_decimal_digits number ++ unit_behind (seen_values values))) }
    ensures grows { StartsWith out.new.items out.old.items }
{
    push_decimal(i64::from(number), out)?;
    if let Values::Pixels(_, _) = values {
        push_word("px", out)?;
    }
    Ok(())
}
