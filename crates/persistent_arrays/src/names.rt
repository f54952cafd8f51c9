//! The names of persistent arrays.

ghost use Rattle.std.specs.Prelude.{◌≡◌, ◌<◌, ◌==◌, ◌&&◌, ℕ, nat_lt, length, IfSome, MatchOption};
ghost use Rattle.persistent_arrays.specs.Arrays.{array_count};
ghost use Rattle.persistent_arrays.specs.Names.{Names, array_named};
ghost use Rattle.persistent_arrays.specs.devices.Spelling.{number_of_array};

use crate::spelling::numeral_at;
use bml_bytes::{Text, is_word};

/// What stands in front of an array's number in its name.
const FRONT: &str = "nvram://~/";

/// How many arrays there are.
const ARRAY_COUNT: u8 = 48;

/// The number of the array that a text names, and None exactly where it names none. This takes no memory.
pub fn slot_of(name: &Text) -> Option<u8>
    ensures names { MatchOption result ((slot : ℕ) → ¬ Names name.now slot)
        (λ slot. Names name.now slot) }
    ensures named { result ≡ array_named name.now }
    ensures bound { IfSome result (λ slot. slot < array_count) }
{
    let codes = name.codes();
    if codes.len() < FRONT.len() {
        return None;
    }
    let (front, digits) = codes.split_at(FRONT.len());
    if !is_word(front, FRONT) {
        return None;
    }
    array_number(digits)
}

// The number of an array that some digits are.
fn array_number(digits: &[u16]) -> Option<u8>
    ensures { result ≡ number_of_array digits.now }
{
    let (slot, behind) = numeral_at(digits)?;
    is_array(slot, behind).then_some(slot)
}

// Whether there is such an array, and nothing stands behind its number.
fn is_array(slot: u8, behind: &[u16]) -> bool
    ensures { result ≡ ((length behind.now == 0) && nat_lt slot array_count) }
{
    behind.is_empty() && slot < ARRAY_COUNT
}
