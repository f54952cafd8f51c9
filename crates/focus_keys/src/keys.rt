//! The keys of a remote control.

ghost use Rattle.std.specs.Prelude.{◌≡◌, Some};
ghost use Rattle.focus_keys.specs.KeyTables.{all_keys, key_group, key_number, key_of};
ghost use Rattle.focus_keys.specs.Views.{bits_of};

use crate::groups::KeyGroups;

/// A key of a remote control (after the key codes of BML, ARIB STD-B24 volume 2; the choice of keys
/// is this project's own).
#[derive(Clone, Copy, Debug, PartialEq, Eq)]
pub enum Key {
    Up,
    Down,
    Left,
    Right,
    Digit0,
    Digit1,
    Digit2,
    Digit3,
    Digit4,
    Digit5,
    Digit6,
    Digit7,
    Digit8,
    Digit9,
    Enter,
    Back,
    Data,
    Blue,
    Red,
    Green,
    Yellow,
}

impl Key {
    /// All keys, in the order of their numbers.
    pub fn all() -> [Key; 21]
        ensures { result ≡ all_keys }
    {
        [
            Key::Up,
            Key::Down,
            Key::Left,
            Key::Right,
            Key::Digit0,
            Key::Digit1,
            Key::Digit2,
            Key::Digit3,
            Key::Digit4,
            Key::Digit5,
            Key::Digit6,
            Key::Digit7,
            Key::Digit8,
            Key::Digit9,
            Key::Enter,
            Key::Back,
            Key::Data,
            Key::Blue,
            Key::Red,
            Key::Green,
            Key::Yellow,
        ]
    }

    /// The key of this number; None exactly where the number is no key.
    #[tactic(auto, unfolding(crate::specs::KeyTables::key_of))]
    pub fn of_number(number: u8) -> Option<Key>
        ensures { result ≡ key_of number }
    {
        Key::all()
            .iter()
            .copied()
            .find(|key| key.number() == number)
    }

    /// Its number, which is that of no other key.
    #[tactic(auto, unfolding(crate::specs::KeyTables::key_of))]
    pub fn number(self) -> u8
        ensures number { result ≡ key_number self }
        ensures found { key_of result ≡ Some self }
    {
        match self {
            Key::Up => 1,
            Key::Down => 2,
            Key::Left => 3,
            Key::Right => 4,
            Key::Digit0 => 5,
            Key::Digit1 => 6,
            Key::Digit2 => 7,
            Key::Digit3 => 8,
            Key::Digit4 => 9,
            Key::Digit5 => 10,
            Key::Digit6 => 11,
            Key::Digit7 => 12,
            Key::Digit8 => 13,
            Key::Digit9 => 14,
            Key::Enter => 18,
            Key::Back => 19,
            Key::Data => 20,
            Key::Blue => 21,
            Key::Red => 22,
            Key::Green => 23,
            Key::Yellow => 24,
        }
    }

    /// Its group, one of the three.
    pub fn group(self) -> KeyGroups
        ensures { bits_of result ≡ key_group self }
    {
        match self {
            Key::Up | Key::Down | Key::Left | Key::Right | Key::Enter | Key::Back => {
                KeyGroups::BASIC
            }
            Key::Data | Key::Blue | Key::Red | Key::Green | Key::Yellow => KeyGroups::DATA_BUTTON,
            Key::Digit0
            | Key::Digit1
            | Key::Digit2
            | Key::Digit3
            | Key::Digit4
            | Key::Digit5
            | Key::Digit6
            | Key::Digit7
            | Key::Digit8
            | Key::Digit9 => KeyGroups::NUMERIC_TUNING,
        }
    }
}
