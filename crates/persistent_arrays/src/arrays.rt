//! Where the arrays lie in the area.

ghost use Rattle.std.specs.Prelude.{◌≡◌, ◌<◌, ◌≤◌, ◌+◌, ◌++◌, length, take, drop};
ghost use Rattle.persistent_arrays.specs.Arrays.{array_count, array_in, array_size, with_array};

use bml_bytes::AreaBytes;

/// How many bytes an array has.
pub(crate) const ARRAY_SIZE: usize = 64;

// The bytes of an array.
pub(crate) fn array_of(area: &AreaBytes, slot: u8) -> &[u8]
    requires { slot < array_count }
    ensures { result.now ≡ array_in area.now slot }
{
    let first = ARRAY_SIZE * usize::from(slot);
    &area.bytes()[first..first + ARRAY_SIZE]
}

// Writes bytes into an array, from its first byte on.
pub(crate) fn write_array(area: &mut AreaBytes, slot: u8, bytes: &[u8])
    requires slot { slot < array_count }
    requires room { length bytes.now ≤ array_size }
    ensures { area.new ≡ with_array area.old slot bytes.now }
{
    put(&mut area.bytes, ARRAY_SIZE * usize::from(slot), bytes);
}

// Writes bytes at a place.
fn put(whole: &mut [u8], place: usize, bytes: &[u8])
    requires { place + length bytes.now ≤ length whole.old }
    ensures { whole.new ≡ take place whole.old
        ++ (bytes.now ++ drop (place + length bytes.now) whole.old) }
{
    whole[place..place + bytes.len()].copy_from_slice(bytes);
}
