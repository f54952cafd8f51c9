//! The groups of the keys.

ghost use Rattle.std.specs.Prelude.{◌≡◌, ◌∷◌, [], ⊤, codes, option_map};
ghost use Rattle.focus_keys.specs.KeyTables.{basic, data_button, key_group, key_of, numeric_tuning, passes_list};
ghost use Rattle.focus_keys.specs.Views.{bits_of};

use crate::keys::Key;
use bitflags::{Flag, Flags, bitflag_items};
use style_reader::StyleValue;

/// Groups of keys, after the used-key-list of BML, ARIB STD-B24 volume 2.
#[derive(Clone, Copy, Debug, PartialEq, Eq)]
pub struct KeyGroups(u8);

bitflag_items! {
    impl KeyGroups: u8 {
        const BASIC = 1;
        const DATA_BUTTON = 2;
        const NUMERIC_TUNING = 4;
    }
}

impl Flags for KeyGroups {
    type Bits = u8;

    ghost exact = { ⊤ };

    ghost table = { (codes "BASIC", basic) ∷ (codes "DATA_BUTTON", data_button)
        ∷ (codes "NUMERIC_TUNING", numeric_tuning) ∷ [] };

    ghost set_of = { bits_of };

    fn flags<'a>() -> &'a [Flag<KeyGroups>] {
        KeyGroups::FLAGS
    }

    fn bits(&self) -> u8 {
        self.0
    }

    fn from_bits_retain(bits: u8) -> KeyGroups {
        KeyGroups(bits)
    }
}

/// The group of the key of this number, one of the three; None exactly where the number is no key.
pub fn group_of(code: u8) -> Option<KeyGroups>
    ensures { option_map bits_of result ≡ option_map key_group (key_of code) }
{
    match Key::of_number(code) {
        Some(key) => Some(key.group()),
        None => None,
    }
}

/// Whether a used-key-list lets the key of this number pass: it has the key's group. `none` lets no
/// key pass, and a number that is no key never passes.
pub fn passes(list: StyleValue, code: u8) -> bool
    ensures { result ≡ passes_list list code }
{
    let StyleValue::Keys(bits) = list else {
        return false;
    };
    match Key::of_number(code) {
        Some(key) => KeyGroups::from_bits_retain(bits).contains(key.group()),
        None => false,
    }
}
