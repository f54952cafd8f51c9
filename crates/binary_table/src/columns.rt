//! Where the fields of a column stand in their rows.

ghost use Rattle.std.specs.Prelude.{◌≡◌, drop, option_map, IfOk};
ghost use Rattle.persistent_arrays.specs.Structures.{IsKind};
ghost use Rattle.persistent_arrays.specs.declared.fields.Field.TheVariants.{Bit as bit_value};
ghost use Rattle.persistent_arrays.specs.declared.kinds.FieldKind.TheVariants.{Bit};
ghost use Rattle.binary_table.specs.devices.Places.{look, rests, value_in};

use bml_bytes::{Cursor, NoMemory};
use persistent_arrays::{Field, FieldKind, bit_at, value_at};
use std::alloc::Global;

// The fields of a column. Each is counted from its row's first byte, or from the end of the last text of varying size
// before it.
#[derive(Clone, Copy)]
pub(crate) struct Column {
    pub(crate) kind: FieldKind,
    // which bit of its byte a bit is, from the top
    pub(crate) bit: u8,
    // how many texts of varying size stand before it in its row
    pub(crate) varying: u32,
    // how many bytes behind the last of these it begins
    pub(crate) offset: usize,
}

impl Column {
    // The value in this column of the row with these places.
    pub(crate) fn value(
        &self,
        alloc: Global,
        bytes: &[u8],
        places: &[usize],
    ) -> Result<Option<Field>, NoMemory>
        requires { IsKind self.now.kind }
        ensures { IfOk result (λ found. found ≡ look (rests bytes.now places.now) self.now) }
    {
        let Some(place) = places.get(self.varying as usize) else {
            return Ok(None);
        };
        let mut left = Cursor::new(behind(bytes, *place));
        let Some(_) = left.take(self.offset) else {
            return Ok(None);
        };
        value_of(alloc, self.kind, self.bit, left.left())
    }
}

// The bytes behind a place, of which there are none past the end.
pub(crate) fn behind(bytes: &[u8], place: usize) -> &[u8]
    ensures { result.now ≡ drop place bytes.now }
{
    if place <= bytes.len() {
        &bytes[place..]
    } else {
        &[]
    }
}

// The value of the field in front of some bytes.
fn value_of(
    alloc: Global,
    kind: FieldKind,
    bit: u8,
    bytes: &[u8],
) -> Result<Option<Field>, NoMemory>
    requires { IsKind kind }
    ensures { IfOk result (λ found. found ≡ value_in kind bit bytes.now) }
{
    match kind {
        FieldKind::Bit => Ok(bit_of(bit, bytes).map(Field::Bit)),
        _ => value_at(alloc, kind, bytes),
    }
}

// A bit of the first byte.
fn bit_of(bit: u8, bytes: &[u8]) -> Option<bool>
    ensures { option_map bit_value result ≡ value_in Bit bit bytes.now }
{
    let byte = bytes.first()?;
    bit_at(*byte, usize::from(bit))
}
