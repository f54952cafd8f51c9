//! Paths of resources.

ghost use Rattle.std.specs.Prelude.{◌≡◌, ◌<◌, ◌≤◌, ◌^◌, ◌++◌, [], ◌∷◌, IfOk, IfSome, MatchOption, OnOk, is_some, option_copied, option_map, position};
ghost use Rattle.std.specs.Io.{StartsWith};
ghost use Rattle.multipart_entities.specs.Paths.{component_of, fields_of, hex_field, hex_value, is_hex_digit, is_slash, name_field, path_text, name_text, path_of_text};
ghost use Rattle.multipart_entities.specs.PathForms.{behind_host as spec_behind_host, behind_root as spec_behind_root, component_path_in, module_in, name_in, path_of, relative_in, resource_in};

use bml_bytes::{Escapes, NoMemory, Text, is_word, law_of_digits, push_hex, push_word};
use std::alloc::Global;

const SLASH: u16 = 0x2F;

/// How many codes a name has at most.
const MOST_NAME_CODES: usize = 64;

/// The path of a resource: the component_tag of its component, the number of its module, and the
/// name of a part of the module, which is empty where the module is the resource.
#[derive(Drop)]
pub struct Path {
    pub component: u8,
    pub module: u16,
    pub name: Text,
}

// A path whose name is a place in a text.
#[derive(Clone, Copy)]
struct FoundPath<'a> {
    component: u8,
    module: u16,
    name: &'a [u16],
}

impl Path {
    /// The path that a text names, seen from a base: `/cc/mmmm` and `/cc/mmmm/name`, these behind
    /// `arib-dc://` and codes without `/`, `../mmmm/name` in the base's component, and `name` in
    /// the base's module. None exactly where the text is of no such form. Memory is taken for the
    /// name alone.
    pub fn resolve(alloc: Global, text: &Text, base: &Path) -> Result<Option<Path>, NoMemory>
        ensures { IfOk result (λ found. found ≡ path_of_text text.now base.now) }
    {
        match found_path(text.codes(), base) {
            None => Ok(None),
            Some(found) => {
                let name = Text::of_codes(alloc, found.name)?;
                Ok(Some(Path {
                    component: found.component,
                    module: found.module,
                    name,
                }))
            }
        }
    }

    /// Appends the path as it is printed: absolute, with digits in lower case, and the name with
    /// `%HH` for the bytes 0x00 to 0x20, 0x7F and `%`. After `NoMemory` a front of it may stand
    /// behind what `out` held.
    pub fn push(&self, out: &mut Vec<u8>) -> Result<(), NoMemory>
        ensures ok { OnOk result (out.new.items ≡ out.old.items ++ path_text self.now) }
        ensures grows { StartsWith out.new.items out.old.items }
    {
        push_word("/", out)?;
        push_hex(u32::from(self.component), 2, out)?;
        push_word("/", out)?;
        push_hex(u32::from(self.module), 4, out)?;
        push_name(&self.name, out)?;
        Ok(())
    }
}

/// The component that a text names: `/cc`, or the same behind `arib-dc://` and codes without `/`.
/// None exactly where the text is of no such form. This takes no memory.
pub fn component_ref(text: &Text) -> Option<u8>
    ensures { result ≡ component_of text.now }
{
    let codes = behind_root(text.codes())?;
    match split_at_slash(codes) {
        None => component_number(codes),
        Some(_) => None,
    }
}

fn found_path<'a>(codes: &'a [u16], base: &Path) -> Option<FoundPath<'a>>
    ensures { option_map path_of result ≡ path_of_text codes.now base.now }
{
    match behind_root(codes) {
        None => relative_path(codes, base),
        Some(rest) => component_path(rest),
    }
}

// What stands behind the slash that a path with a component begins with: `/`, or `arib-dc://` with
// a host and a slash.
fn behind_root(codes: &[u16]) -> Option<&[u16]>
    ensures { option_map (λ rest. fields_of rest.now) result
        ≡ spec_behind_root (fields_of codes.now) }
{
    let (front, rest) = split_at_slash(codes)?;
    if front.is_empty() {
        Some(rest)
    } else if is_word(front, "arib-dc:") {
        behind_host(rest)
    } else {
        None
    }
}

// The same behind `arib-dc:/`.
fn behind_host(codes: &[u16]) -> Option<&[u16]>
    ensures { option_map (λ rest. fields_of rest.now) result
        ≡ spec_behind_host (fields_of codes.now) }
{
    let (empty, rest) = split_at_slash(codes)?;
    let (_host, rest) = split_at_slash(rest)?;
    if empty.is_empty() { Some(rest) } else { None }
}

// `cc/mmmm` and `cc/mmmm/name`.
fn component_path(codes: &[u16]) -> Option<FoundPath<'_>>
    ensures { option_map path_of result ≡ component_path_in (fields_of codes.now) }
{
    let (field, rest) = split_at_slash(codes)?;
    let component = component_number(field)?;
    module_path(component, rest)
}

// `mmmm` and `mmmm/name`, in a component.
fn module_path(component: u8, codes: &[u16]) -> Option<FoundPath<'_>>
    ensures { option_map path_of result ≡ module_in component (fields_of codes.now) }
{
    match split_at_slash(codes) {
        Some((field, rest)) => resource_path(component, field, rest),
        None => {
            let module = hex_number(codes, 4)?;
            Some(FoundPath {
                component,
                module,
                name: &[],
            })
        }
    }
}

// `name`, in the module whose digits are told.
fn resource_path<'a>(component: u8, field: &[u16], name: &'a [u16]) -> Option<FoundPath<'a>>
    ensures { option_map path_of result ≡ resource_in component field.now (fields_of name.now) }
{
    let module = hex_number(field, 4)?;
    let name = name_of(name)?;
    Some(FoundPath {
        component,
        module,
        name,
    })
}

// `name` and `../mmmm/name`, seen from a base.
fn relative_path<'a>(codes: &'a [u16], base: &Path) -> Option<FoundPath<'a>>
    ensures { option_map path_of result ≡ relative_in base.now (fields_of codes.now) }
{
    match split_at_slash(codes) {
        None => {
            let name = short_name(codes)?;
            Some(FoundPath {
                component: base.component,
                module: base.module,
                name,
            })
        }
        Some((front, rest)) => {
            if is_word(front, "..") {
                let (field, name) = split_at_slash(rest)?;
                resource_path(base.component, field, name)
            } else {
                None
            }
        }
    }
}

// The one name that is left, and None where there is a slash.
fn name_of(codes: &[u16]) -> Option<&[u16]>
    ensures { option_copied result ≡ name_in (fields_of codes.now) }
{
    match split_at_slash(codes) {
        None => short_name(codes),
        Some(_) => None,
    }
}

fn short_name(field: &[u16]) -> Option<&[u16]>
    ensures { option_copied result ≡ name_field field.now }
{
    if field.is_empty() || field.len() > MOST_NAME_CODES {
        return None;
    }
    Some(field)
}

// What stands before the first slash and what stands behind it, and None where there is no slash.
fn split_at_slash(codes: &[u16]) -> Option<(&[u16], &[u16])>
    ensures { MatchOption result (fields_of codes.now
        ≡ codes.now ∷ []) (λ parts. fields_of codes.now ≡ parts.0.now ∷ fields_of parts.1.now) }
{
    let place = place_of_slash(codes)?;
    Some((&codes[..place], &codes[place + 1..]))
}

fn place_of_slash(codes: &[u16]) -> Option<usize>
    ensures { result ≡ position is_slash codes.now }
{
    codes.iter().position(|code| *code == SLASH)
}

fn component_number(field: &[u16]) -> Option<u8>
    ensures { result ≡ hex_field 2 field.now }
{
    let number = hex_number(field, 2)?;
    u8::try_from(number).ok()
}

// The number of a field of so many hexadecimal digits, and None exactly where it is no such field.
fn hex_number(field: &[u16], count: usize) -> Option<u16>
    requires { count ≤ 4 }
    ensures value { result ≡ hex_field count field.now }
    ensures small { IfSome result (λ number. number < 16 ^ count) }
{
    if field.len() != count {
        return None;
    }
    law_of_digits();
    let mut number: u16 = 0;
    'digits: for code in field {
        number = number * 16 + hex_digit(*code)?;
    }
    Some(number)
}

fn hex_digit(code: u16) -> Option<u16>
    ensures digit { is_some result ≡ is_hex_digit code }
    ensures value { IfSome result (λ digit. digit ≡ hex_value code) }
    ensures small { IfSome result (λ digit. digit < 16) }
{
    match u8::try_from(code).ok()? {
        digit @ b'0'..=b'9' => Some(u16::from(digit - b'0')),
        digit @ b'A'..=b'F' => Some(u16::from(digit - b'A' + 10)),
        digit @ b'a'..=b'f' => Some(u16::from(digit - b'a' + 10)),
        _ => None,
    }
}

// Appends a name behind a slash, and nothing where it is empty.
fn push_name(name: &Text, out: &mut Vec<u8>) -> Result<(), NoMemory>
    ensures ok { OnOk result (out.new.items ≡ out.old.items ++ name_text name.now) }
    ensures grows { StartsWith out.new.items out.old.items }
{
    if name.len() == 0 {
        return Ok(());
    }
    push_word("/", out)?;
    Escapes::ControlsAndSpace.push(name, out)?;
    Ok(())
}
