//! Writing values into an array.

ghost use Rattle.std.specs.Prelude.{◌≡◌, ◌↔◌, ◌<◌, ◌≤◌, ◌+◌, ◌++◌, [], ℕ, All, Option, length, option_map, IsSome, MatchOption, OnSome, None, Some};
ghost use Rattle.bml_bytes.specs.Codes.{bytes_of, code_bytes};
ghost use Rattle.persistent_arrays.specs.Arrays.{area_after, array_count, array_size};
ghost use Rattle.persistent_arrays.specs.Fields.{field_bytes as bytes_of_field, filled};
ghost use Rattle.persistent_arrays.specs.Packing.{packed, packed_in_array, weighed, within_array};
ghost use Rattle.persistent_arrays.specs.Structures.{IsKind};
ghost use Rattle.persistent_arrays.specs.declared.fields.Field.TheVariants.{Bit as bit_value, Whole, Words};
ghost use Rattle.persistent_arrays.specs.declared.kinds.FieldKind.TheVariants.{Bit, Unsigned, Fixed, Varying};
ghost use Rattle.persistent_arrays.specs.devices.Packers.{IsPushed, bit_in as bit_of, shared_byte as byte_shared};

use crate::arrays::{ARRAY_SIZE, write_array};
use crate::fields::Field;
use crate::kinds::FieldKind;
use crate::structures::Structure;
use arrayvec::ArrayVec;
use bml_bytes::AreaBytes;

/// Writes values into an array of the area, from its first byte on, and gives the number of the bytes that were
/// written. None comes exactly where the values don't fit the structure or their bytes the array. This takes no memory.
pub fn pack(structure: &Structure, fields: &[Field], area: &mut AreaBytes, slot: u8) -> Option<u8>
    requires { slot < array_count }
    ensures size { result ≡ option_map length (packed_in_array structure.now fields.now) }
    ensures area { area.new ≡ area_after area.old slot (packed_in_array structure.now fields.now) }
{
    let bytes = packed_bytes(structure.kinds(), fields)?;
    let bytes = bytes.as_slice();
    write_array(area, slot, bytes);
    Some(bytes.len() as u8)
}

// The bytes of fields with these values, where an array has room for them.
fn packed_bytes(kinds: &[FieldKind], fields: &[Field]) -> Option<ArrayVec<u8, ARRAY_SIZE>>
    requires { All IsKind kinds.now }
    ensures { MatchOption result (packed_in_array kinds.now fields.now ≡ None)
        (λ bytes. packed kinds.now fields.now ≡ Some bytes.items) }
{
    if kinds.len() != fields.len() {
        return None;
    }
    let mut packer = Packer {
        bytes: ArrayVec::new(),
        bits: ArrayVec::new(),
    };
    'fields: for place in 0..kinds.len() {
        packer.push(kinds[place], &fields[place])?;
    }
    packer.close()?;
    Some(packer.bytes)
}

// The bytes of the fields so far, and the bits that share the next byte.
#[derive(Drop)]
struct Packer {
    bytes: ArrayVec<u8, ARRAY_SIZE>,
    bits: ArrayVec<bool, 8>,
}

impl Packer {
    // Packs one more field, where its value fits it and its bytes the array.
    fn push(&mut self, kind: FieldKind, field: &Field) -> Option<()>
        requires { IsKind kind }
        ensures { IsPushed result kind field.now (self.old.bytes.items, self.old.bits.items)
            (self.new.bytes.items, self.new.bits.items) }
    {
        if let Some(bit) = bit_in(kind, field) {
            return self.push_bit(bit);
        }
        let bytes = field_bytes(kind, field)?;
        self.close()?;
        self.bytes.try_extend_from_slice(bytes.as_slice()).ok()
    }

    // Packs one more bit.
    fn push_bit(&mut self, bit: bool) -> Option<()>
        ensures { IsPushed result Bit (bit_value bit) (self.old.bytes.items, self.old.bits.items)
            (self.new.bytes.items, self.new.bits.items) }
    {
        if self.bits.is_full() {
            self.close()?;
        }
        self.bits.push(bit);
        Some(())
    }

    // Ends the byte that bits share.
    fn close(&mut self) -> Option<()>
        ensures bytes { MatchOption result
            (array_size < length (self.old.bytes.items ++ byte_shared self.old.bits.items))
            (λ _. self.new.bytes.items ≡ self.old.bytes.items ++ byte_shared self.old.bits.items) }
        ensures bits { OnSome result (self.new.bits.items ≡ []) }
    {
        let bits = self.bits.as_slice();
        if bits.is_empty() {
            return Some(());
        }
        let byte = shared_byte(bits);
        self.bytes.try_push(byte).ok()?;
        self.bits.clear();
        Some(())
    }
}

fn bit_in(kind: FieldKind, field: &Field) -> Option<bool>
    ensures { result ≡ bit_of kind field.now }
{
    match (kind, field) {
        (FieldKind::Bit, Field::Bit(bit)) => Some(*bit),
        _ => None,
    }
}

// The byte that bits share, from the top bit on.
fn shared_byte(bits: &[bool]) -> u8
    ensures { result ≡ weighed 128 bits.now }
{
    let mut byte: u8 = 0;
    let mut weight: u8 = 128;
    'bits: for bit in bits {
        if *bit {
            byte += weight;
        }
        weight /= 2;
    }
    byte
}

// The bytes of a field that is no bit, where the value fits it and its bytes an array.
fn field_bytes(kind: FieldKind, field: &Field) -> Option<ArrayVec<u8, ARRAY_SIZE>>
    requires { IsKind kind }
    ensures { option_map (λ bytes. bytes.items) result
        ≡ within_array (bytes_of_field kind field.now) }
{
    match (kind, field) {
        (FieldKind::Unsigned(size) | FieldKind::Signed(size), Field::Whole(number)) => {
            number_bytes(size, *number)
        }
        (FieldKind::Fixed(size), Field::Words(text)) => fixed_bytes(size, text.codes()),
        (FieldKind::Varying, Field::Words(text)) => varying_bytes(text.codes()),
        _ => None,
    }
}

// The low bytes of a number.
fn number_bytes(size: u8, number: i32) -> Option<ArrayVec<u8, ARRAY_SIZE>>
    requires { IsKind (Unsigned size) }
    ensures { option_map (λ bytes. bytes.items) result
        ≡ within_array (bytes_of_field (Unsigned size) (Whole number)) }
{
    let bits = number.cast_unsigned();
    let all = bits.to_be_bytes();
    bytes_in(&all[4 - usize::from(size)..])
}

// The bytes, where an array has room for them.
fn bytes_in(bytes: &[u8]) -> Option<ArrayVec<u8, ARRAY_SIZE>>
    ensures { option_map (λ made. made.items) result ≡ within_array (Some bytes.now) }
{
    ArrayVec::try_from(bytes).ok()
}

// The bytes of a text that is filled up to a size.
fn fixed_bytes(size: u8, text: &[u16]) -> Option<ArrayVec<u8, ARRAY_SIZE>>
    requires { IsKind (Fixed size) }
    ensures { option_map (λ bytes. bytes.items) result
        ≡ within_array (bytes_of_field (Fixed size) (Words text.now)) }
{
    let mut bytes = text_bytes(text)?;
    fill(usize::from(size), &mut bytes)?;
    Some(bytes)
}

// Fills bytes up to a size, where they don't pass it.
fn fill(size: usize, bytes: &mut ArrayVec<u8, ARRAY_SIZE>) -> Option<()>
    requires { size ≤ array_size }
    ensures fits { IsSome result ↔ (length bytes.old.items ≤ size) }
    ensures bytes { OnSome result (bytes.new.items ≡ filled size bytes.old.items) }
{
    let missing = size.checked_sub(bytes.len())?;
    'zeros: for _ in 0..missing {
        bytes.try_push(0).ok()?;
    }
    Some(())
}

// The bytes of a text behind their number.
fn varying_bytes(text: &[u16]) -> Option<ArrayVec<u8, ARRAY_SIZE>>
    ensures { option_map (λ bytes. bytes.items) result
        ≡ within_array (bytes_of_field Varying (Words text.now)) }
{
    let mut bytes = text_bytes(text)?;
    let count = bytes.len() as u8;
    bytes.try_insert(0, count).ok()?;
    Some(bytes)
}

// The bytes of a text, where an array has room for them.
fn text_bytes(text: &[u16]) -> Option<ArrayVec<u8, ARRAY_SIZE>>
    ensures { option_map (λ bytes. bytes.items) result ≡ within_array (Some (bytes_of text.now)) }
{
    let mut bytes = ArrayVec::new();
    'codes: for code in text {
        push_code(*code, &mut bytes)?;
    }
    Some(bytes)
}

fn push_code(code: u16, bytes: &mut ArrayVec<u8, ARRAY_SIZE>) -> Option<()>
    ensures bytes { MatchOption result (array_size < length (bytes.old.items ++ code_bytes code))
        (λ _. bytes.new.items ≡ bytes.old.items ++ code_bytes code) }
    ensures room { OnSome result (length bytes.new.items ≤ array_size) }
{
    match u8::try_from(code) {
        Ok(byte) => bytes.try_push(byte).ok(),
        Err(_) => bytes.try_extend_from_slice(&code.to_be_bytes()).ok(),
    }
}
