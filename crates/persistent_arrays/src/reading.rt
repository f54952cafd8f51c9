//! Reading values from an array.

ghost use Rattle.std.specs.Prelude.{◌≡◌, ◌↔◌, ◌<◌, ◌≤◌, ◌^◌, All, IsTrue, length, option_map, slice_get, IfOk};
ghost use Rattle.bml_bytes.specs.Fields.{with_left};
ghost use Rattle.bml_bytes.specs.Numbers.{big_number};
ghost use Rattle.persistent_arrays.specs.Arrays.{array_count, array_in};
ghost use Rattle.persistent_arrays.specs.Fields.{field_value as value_of_field, signed_number as number_with_sign, without_last_zeros as without_zeros};
ghost use Rattle.persistent_arrays.specs.Reading.{bits_of as bits_of_byte, field_at as field_in, unpacked};
ghost use Rattle.persistent_arrays.specs.Structures.{IsKind};
ghost use Rattle.persistent_arrays.specs.declared.fields.Field.TheVariants.{Bit as bit_value};
ghost use Rattle.persistent_arrays.specs.declared.kinds.FieldKind.TheVariants.{Bit, Signed};
ghost use Rattle.persistent_arrays.specs.devices.Unpackers.{HasSize, IsTaken, unpacked_behind};

use crate::arrays::array_of;
use crate::fields::Field;
use crate::kinds::FieldKind;
use crate::structures::Structure;
use arrayvec::ArrayVec;
use bml_bytes::{AreaBytes, Cursor, NoMemory, Text, law_of_digits};
use std::alloc::Global;

/// The values of the fields in an array of the area, and None exactly where a field, with the length that it tells,
/// passes the array's end.
pub fn unpack(
    alloc: Global,
    structure: &Structure,
    area: &AreaBytes,
    slot: u8,
) -> Result<Option<Vec<Field>>, NoMemory>
    requires { slot < array_count }
    ensures { IfOk result (λ found. option_map (λ fields. fields.items) found
        ≡ unpacked structure.now (array_in area.now slot)) }
{
    let mut unpacker = Unpacker {
        bits: ArrayVec::new(),
        bytes: Cursor::new(array_of(area, slot)),
    };
    unpacker.fields(alloc, structure.kinds())
}

/// The value of the field at the front of bytes, and None exactly where the field, with the length that it tells, passes
/// their end. A bit has no bytes of its own, so there is none.
pub fn value_at(alloc: Global, kind: FieldKind, bytes: &[u8]) -> Result<Option<Field>, NoMemory>
    requires { IsKind kind }
    ensures { IfOk result (λ found. found
        ≡ option_map (λ read. value_of_field kind read.0) (field_in kind bytes.now)) }
{
    let mut left = Cursor::new(bytes);
    let Some(part) = field_at(kind, &mut left) else {
        return Ok(None);
    };
    let value = field_value(alloc, kind, part)?;
    Ok(Some(value))
}

/// A bit of a byte, counted from the top, and None past its eight bits. This takes no memory.
pub fn bit_at(byte: u8, place: usize) -> Option<bool>
    ensures { result ≡ slice_get (bits_of_byte byte) place }
{
    let bits = bits_of(byte);
    bits.as_slice().get(place).copied()
}

// What is left of the bytes, and of the bits of an open byte.
#[derive(Drop)]
struct Unpacker<'a> {
    bits: ArrayVec<bool, 8>,
    bytes: Cursor<'a>,
}

impl Unpacker<'_> {
    // The values of fields.
    fn fields(&mut self, alloc: Global, kinds: &[FieldKind]) -> Result<Option<Vec<Field>>, NoMemory>
        requires { All IsKind kinds.now }
        ensures { IfOk result (λ found. option_map (λ fields. fields.items) found
            ≡ unpacked_behind self.old.bits.items kinds.now self.old.bytes) }
    {
        let mut fields = Vec::new(alloc);
        'fields: for kind in kinds {
            let Some(field) = self.next(alloc, *kind)? else {
                return Ok(None);
            };
            fields.push(field)?;
        }
        Ok(Some(fields))
    }

    // The value of the next field.
    fn next(&mut self, alloc: Global, kind: FieldKind) -> Result<Option<Field>, NoMemory>
        requires { IsKind kind }
        ensures { IfOk result (λ found. IsTaken found kind (self.old.bits.items, self.old.bytes)
            (self.new.bits.items, self.new.bytes)) }
    {
        if is_bit(kind) {
            return Ok(self.next_bit().map(Field::Bit));
        }
        let Some(bytes) = field_at(kind, &mut self.bytes) else {
            return Ok(None);
        };
        self.bits.clear();
        let value = field_value(alloc, kind, bytes)?;
        Ok(Some(value))
    }

    // The next bit.
    fn next_bit(&mut self) -> Option<bool>
        ensures { IsTaken (option_map bit_value result) Bit (self.old.bits.items, self.old.bytes)
            (self.new.bits.items, self.new.bytes) }
    {
        if let Some(bit) = self.bits.pop_at(0) {
            return Some(bit);
        }
        let byte = self.bytes.u8()?;
        self.bits = bits_of(byte);
        self.bits.pop_at(0)
    }
}

fn is_bit(kind: FieldKind) -> bool
    ensures { IsTrue result ↔ (kind ≡ Bit) }
{
    match kind {
        FieldKind::Bit => true,
        _ => false,
    }
}

// The bits of a byte, from the top.
fn bits_of(byte: u8) -> ArrayVec<bool, 8>
    ensures { result.items ≡ bits_of_byte byte }
{
    ArrayVec::from_array_in(
        (),
        [
            byte / 128 % 2 == 1,
            byte / 64 % 2 == 1,
            byte / 32 % 2 == 1,
            byte / 16 % 2 == 1,
            byte / 8 % 2 == 1,
            byte / 4 % 2 == 1,
            byte / 2 % 2 == 1,
            byte % 2 == 1,
        ],
    )
}

// The bytes of a field that is no bit; those of a text of varying size without their length.
fn field_at<'a>(kind: FieldKind, bytes: &mut Cursor<'a>) -> Option<&'a [u8]>
    ensures { with_left (λ part. part.now) result bytes.new ≡ field_in kind bytes.old }
{
    match kind {
        FieldKind::Bit => None,
        FieldKind::Unsigned(size) | FieldKind::Signed(size) | FieldKind::Fixed(size) => {
            bytes.take(usize::from(size))
        }
        FieldKind::Varying => {
            let size = bytes.u8()?;
            bytes.take(usize::from(size))
        }
    }
}

// The value that the bytes of a field are read as.
fn field_value(alloc: Global, kind: FieldKind, bytes: &[u8]) -> Result<Field, NoMemory>
    requires { HasSize kind bytes.now }
    ensures { IfOk result (λ value. value ≡ value_of_field kind bytes.now) }
{
    match kind {
        FieldKind::Bit => Ok(Field::Bit(false)),
        FieldKind::Unsigned(_) => Ok(Field::Whole(number_of(bytes).cast_signed())),
        FieldKind::Signed(size) => Ok(Field::Whole(signed_number(size, number_of(bytes)))),
        FieldKind::Fixed(_) => {
            let words = Text::of_bytes(alloc, without_last_zeros(bytes))?;
            Ok(Field::Words(words))
        }
        FieldKind::Varying => {
            let words = Text::of_bytes(alloc, bytes)?;
            Ok(Field::Words(words))
        }
    }
}

// The number that up to four bytes are.
fn number_of(bytes: &[u8]) -> u32
    requires { length bytes.now ≤ 4 }
    ensures number { result ≡ big_number bytes.now }
    ensures fits { result < 256 ^ length bytes.now }
{
    law_of_digits();
    let mut number: u32 = 0;
    'bytes: for byte in bytes {
        number = number * 256 + u32::from(*byte);
    }
    number
}

// A number of so many bytes, as one with a sign.
fn signed_number(size: u8, number: u32) -> i32
    requires size { IsKind (Signed size) }
    requires fits { number < 256 ^ size }
    ensures { result ≡ number_with_sign size number }
{
    match size {
        1 => i32::from((number as u8).cast_signed()),
        2 => i32::from((number as u16).cast_signed()),
        _ => number.cast_signed(),
    }
}

// The bytes without those at their end that are 0.
fn without_last_zeros(bytes: &[u8]) -> &[u8]
    ensures { result.now ≡ without_zeros bytes.now }
{
    let mut left = bytes;
    'zeros: while let Some((last, front)) = left.split_last() {
        if *last != 0 {
            break;
        }
        left = front;
    }
    left
}
