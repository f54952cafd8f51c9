//! Sounds.

ghost use Rattle.std.specs.Prelude.{◌≡◌, ◌&&◌, All, IfOk, length, nat_le};
ghost use Rattle.std.specs.List.{list_all};
ghost use Rattle.bml_bytes.specs.Numerals.{decimal_field, is_decimal_digit as spec_is_decimal_digit};
ghost use Rattle.es_values.specs.Heaps.{IsLive};
ghost use Rattle.browser_objects.specs.Calls.{Answers, BrowserParts, play_sound as spec_play_sound, sound_of as spec_sound_of};

use crate::arguments::text_argument;
use crate::effects::{Effect, refusal, whole};
use bml_bytes::{NoMemory, is_word};
use es_values::{Heap, Value, number_of_digits};

/// What stands in front of the number of a sound.
const FRONT: &str = "romsound://";

/// How many decimal digits a number has at most, zeros in front included.
const MOST_DIGITS: usize = 10;

/// `playRomSound(text)`: 1, and NaN where the text names no sound.
pub fn play_sound(args: &[Value], heap: &Heap) -> Result<(Value, Effect), NoMemory>
    requires { All (IsLive heap.now) args.now }
    ensures { (s : BrowserParts) → IfOk result
        (λ answer. Answers (spec_play_sound args.now heap.now s) answer s) }
{
    let text = text_argument(heap, args, 0)?;
    match sound_of(text.codes()) {
        Some(sound) => Ok((whole(1), Effect::Sound(sound))),
        None => Ok(refusal()),
    }
}

// The number of the sound that a text names.
fn sound_of(text: &[u16]) -> Option<u32>
    ensures { result ≡ spec_sound_of text.now }
{
    if text.len() < FRONT.len() {
        return None;
    }
    let (front, digits) = text.split_at(FRONT.len());
    if is_word(front, FRONT) {
        decimal_number(digits)
    } else {
        None
    }
}

// The number of a field of 1 to 10 decimal digits.
fn decimal_number(digits: &[u16]) -> Option<u32>
    ensures { result ≡ decimal_field digits.now }
{
    if is_field(digits) {
        u32::try_from(number_of_digits(10, digits)).ok()
    } else {
        None
    }
}

// Whether there are 1 to 10 codes, all of them decimal digits.
fn is_field(codes: &[u16]) -> bool
    ensures { result ≡ (list_all spec_is_decimal_digit codes.now
        && (nat_le 1 (length codes.now) && nat_le (length codes.now) 10)) }
{
    are_decimal_digits(codes) && !codes.is_empty() && codes.len() <= MOST_DIGITS
}

fn are_decimal_digits(codes: &[u16]) -> bool
    ensures { result ≡ list_all spec_is_decimal_digit codes.now }
{
    codes.iter().all(|code| is_decimal_digit(*code))
}

fn is_decimal_digit(code: u16) -> bool
    ensures { result ≡ spec_is_decimal_digit code }
{
    (0x30..=0x39).contains(&code)
}
