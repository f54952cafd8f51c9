//! Descriptors (ISO/IEC 13818-1, 2.6.1): a tag, a length, and that many bytes.

ghost use Rattle.std.specs.Prelude.{◌≡◌, ◌∷◌, [], MatchOption, option_map};
ghost use Rattle.table_fields.specs.Borrowed.{descriptor_of};
ghost use Rattle.table_fields.specs.Descriptors.{descriptor_at, descriptors_in};

use bml_bytes::{Cursor, law_of_fields};
use std::marker::Model;

/// A descriptor. Its bytes are a part of those that it was read from.
#[derive(Clone, Copy, Debug)]
pub struct Descriptor<'a> {
    pub tag: u8,
    pub bytes: &'a [u8],
}

/// Descriptors that stand end to end, read from the front. Contracts see the list of those that are left.
#[derive(Debug, Drop)]
pub struct Descriptors<'a> {
    left: &'a [u8],
}

impl<'a> Model for Descriptors<'a> {
    ghost use Rattle.std.specs.Prelude.{◌≡◌, List, [], is_some, true, unwrap_or};
    ghost use Rattle.table_fields.specs.Descriptors.{Descriptor, descriptors_in};

    ghost Value = { List Descriptor };

    ghost view = { λ descriptors. unwrap_or (descriptors_in descriptors.left.now) [] };

    ghost invariant = { λ descriptors. is_some (descriptors_in descriptors.left.now) ≡ true };
}

impl<'a> Descriptors<'a> {
    /// The descriptors that the bytes are; None where the bytes aren't descriptors end to end. This takes no
    /// memory.
    pub fn of_bytes(bytes: &'a [u8]) -> Option<Descriptors<'a>>
        ensures { result ≡ descriptors_in bytes.now }
    {
        law_of_fields();
        let mut rest = bytes;
        'descriptors: while !rest.is_empty() {
            let (_descriptor, behind) = first_descriptor(rest)?;
            rest = behind;
        }
        Some(Descriptors { left: bytes })
    }

    /// The next descriptor; None where none is left.
    pub fn next(&mut self) -> Option<Descriptor<'a>>
        ensures next { MatchOption result (self.old ≡ [])
            (λ next. self.old ≡ descriptor_of next ∷ self.new) }
        ensures none { MatchOption result (self.new ≡ []) (λ _. Unit {0}) }
    {
        law_of_fields();
        let (descriptor, behind) = first_descriptor(self.left)?;
        self.left = behind;
        Some(descriptor)
    }
}

// The descriptor in front, and the bytes behind it.
#[tactic(auto, unfolding(crate::specs::Descriptors::descriptor_at))]
fn first_descriptor(bytes: &[u8]) -> Option<(Descriptor<'_>, &[u8])>
    ensures { option_map (λ found. (descriptor_of found.0, found.1.now)) result
        ≡ descriptor_at bytes.now }
{
    let mut cursor = Cursor::new(bytes);
    let tag = cursor.u8()?;
    let length = cursor.u8()?;
    let bytes = cursor.take(usize::from(length))?;
    Some((Descriptor { tag, bytes }, cursor.left()))
}
