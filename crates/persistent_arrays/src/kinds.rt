//! The kinds of fields, and how each is spelled.

ghost use Rattle.std.specs.Prelude.{◌≡◌, ◌≤◌, ◌&&◌, ◌==◌, nat_le, option_map};
ghost use Rattle.persistent_arrays.specs.Arrays.{array_size};
ghost use Rattle.persistent_arrays.specs.devices.Spelling.{has_letters as letters_are, is_number_size as is_size_of_number, kind_at, kind_with as kind_of, size_at as size_in};

use crate::arrays::ARRAY_SIZE;
use crate::spelling::{next_code, numeral_at};

/// The kind of a field, after ARIB STD-B24, volume 2.
#[derive(Clone, Copy, Debug, PartialEq, Eq)]
pub enum FieldKind {
    /// One bit, `B:1b`.
    Bit,
    /// A number without a sign in 1, 2 or 4 bytes, `U:nB`.
    Unsigned(u8),
    /// A number with a sign in 1, 2 or 4 bytes, `I:nB`.
    Signed(u8),
    /// A text that is filled up to a size of 1 to 64 bytes, those of an array, `S:nB`.
    Fixed(u8),
    /// A text of at most 255 bytes behind its length, `S:1V`.
    Varying,
}

// The field in front of some codes, and the codes behind it.
#[tactic(auto, unfolding(crate::specs::devices::Spelling::kind_at))]
pub(crate) fn read_kind(codes: &[u16]) -> Option<(FieldKind, &[u16])>
    ensures { option_map (λ found. (found.0, found.1.now)) result ≡ kind_at codes.now }
{
    let (letter, behind) = next_code(codes)?;
    let (size, behind) = size_at(behind)?;
    let (unit, behind) = next_code(behind)?;
    let kind = kind_with(letter, size, unit)?;
    Some((kind, behind))
}

// The size behind a colon, and the codes behind it.
#[tactic(auto, unfolding(crate::specs::devices::Spelling::size_at))]
fn size_at(codes: &[u16]) -> Option<(u8, &[u16])>
    ensures { option_map (λ found. (found.0, found.1.now)) result ≡ size_in codes.now }
{
    let (colon, behind) = next_code(codes)?;
    let size = numeral_at(behind)?;
    (colon == u16::from(b':')).then_some(size)
}

// The field that is spelled with this letter, size and unit.
#[tactic(auto, unfolding(crate::specs::devices::Spelling::kind_with))]
fn kind_with(letter: u16, size: u8, unit: u16) -> Option<FieldKind>
    ensures { result ≡ kind_of letter size unit }
{
    if has_letters(letter, unit, b'B', b'b') {
        (size == 1).then_some(FieldKind::Bit)
    } else if has_letters(letter, unit, b'U', b'B') {
        is_number_size(size).then_some(FieldKind::Unsigned(size))
    } else if has_letters(letter, unit, b'I', b'B') {
        is_number_size(size).then_some(FieldKind::Signed(size))
    } else if has_letters(letter, unit, b'S', b'B') {
        is_text_size(size).then_some(FieldKind::Fixed(size))
    } else if has_letters(letter, unit, b'S', b'V') {
        (size == 1).then_some(FieldKind::Varying)
    } else {
        None
    }
}

fn has_letters(letter: u16, unit: u16, first: u8, last: u8) -> bool
    ensures { result ≡ letters_are letter unit first last }
{
    letter == u16::from(first) && unit == u16::from(last)
}

fn is_number_size(size: u8) -> bool
    ensures { result ≡ is_size_of_number size }
{
    size == 1 || size == 2 || size == 4
}

fn is_text_size(size: u8) -> bool
    ensures { result ≡ (nat_le 1 size && nat_le size array_size) }
{
    1 <= size && usize::from(size) <= ARRAY_SIZE
}
