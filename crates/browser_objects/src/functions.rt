//! The function that the text of a timer names.

ghost use Rattle.std.specs.Prelude.{◌≡◌, option_copied};
ghost use Rattle.std.specs.List.{list_all};
ghost use Rattle.browser_objects.specs.Functions.{before_ending as spec_before_ending, is_name as spec_is_name, is_name_part as spec_is_name_part, is_name_start as spec_is_name_start, name_before as spec_name_before, name_in as spec_name_in, named_function as spec_named_function};

use bml_bytes::is_word;

/// The name of the function that a text calls: `name`, `name()` or `name();`. None exactly where it is
/// of no such form.
pub fn named_function(text: &[u16]) -> Option<&[u16]>
    ensures { option_copied result ≡ spec_named_function text.now }
{
    if let Some(name) = name_in(text) {
        return Some(name);
    }
    if let Some(name) = name_before(text, "()") {
        return Some(name);
    }
    name_before(text, "();")
}

fn name_in(text: &[u16]) -> Option<&[u16]>
    ensures { option_copied result ≡ spec_name_in text.now }
{
    if is_name(text) { Some(text) } else { None }
}

fn name_before<'a>(text: &'a [u16], ending: &str) -> Option<&'a [u16]>
    ensures { option_copied result ≡ spec_name_before ending.now text.now }
{
    let name = before_ending(text, ending)?;
    name_in(name)
}

// What stands before an ending.
fn before_ending<'a>(text: &'a [u16], ending: &str) -> Option<&'a [u16]>
    ensures { option_copied result ≡ spec_before_ending ending.now text.now }
{
    if text.len() < ending.len() {
        return None;
    }
    let (front, end) = text.split_at(text.len() - ending.len());
    if is_word(end, ending) {
        Some(front)
    } else {
        None
    }
}

fn is_name(text: &[u16]) -> bool
    ensures { result ≡ spec_is_name text.now }
{
    match text.split_first() {
        None => false,
        Some((first, rest)) => is_name_start(*first) && are_name_parts(rest),
    }
}

fn are_name_parts(codes: &[u16]) -> bool
    ensures { result ≡ list_all spec_is_name_part codes.now }
{
    codes.iter().all(|code| is_name_part(*code))
}

fn is_name_start(code: u16) -> bool
    ensures { result ≡ spec_is_name_start code }
{
    matches!(code, 0x41..=0x5A | 0x61..=0x7A | 0x24 | 0x5F)
}

fn is_name_part(code: u16) -> bool
    ensures { result ≡ spec_is_name_part code }
{
    is_name_start(code) || (0x30..=0x39).contains(&code)
}
