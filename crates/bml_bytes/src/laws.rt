//! What the definitions of this crate say together. Each function is a law: its contract is what it is
//! for, and it does nothing when it runs.

ghost use Rattle.std.specs.Prelude.{◌≡◌, ◌≢◌, ◌<◌, ◌≤◌, ◌^◌, ◌+◌, ◌-◌, ◌*◌, ◌&&◌, ◌||◌, ◌↔◌, ◌⊎◌, ℕ, Bool, true, false, not, List, [], ◌∷◌, ◌++◌, length, take, drop, slice_get, All, Some};
ghost use Rattle.std.specs.Int.{to_be_bytes, w16, w32};
ghost use Rattle.std.specs.Io.{StartsWith};
ghost use Rattle.std.specs.List.{AllPass};
ghost use Rattle.bml_bytes.specs.Codes.{AreBytes, IsByteOrPair, bytes_of, codes};
ghost use Rattle.bml_bytes.specs.Fields.{FieldLaws};
ghost use Rattle.bml_bytes.specs.Numbers.{big_bytes, big_number, digits_in, number_in};
ghost use Rattle.bml_bytes.specs.Numerals.{decimal_digits, decimal_field, decimal_number, is_decimal_digit};
ghost use Rattle.bml_bytes.specs.Words.{is_same};

/// A text that was read from bytes is written back as those bytes, and ASCII bytes are their own codes.
/// What isn't so is that codes are read back from their bytes, since a script can put two codes below
/// 256 side by side that are a pair.
pub fn law_of_codes()
    ensures written_back { (bytes : List ℕ) → AreBytes bytes → bytes_of (codes bytes) ≡ bytes }
    ensures ascii { (bytes : List ℕ) → All (λ byte. byte < 128) bytes → codes bytes ≡ bytes }
{}

/// A text that is read again from its own bytes has no other codes than bytes and pairs, and its bytes
/// are bytes.
pub fn law_of_own_codes()
    ensures codes { (text : List ℕ) → codes (bytes_of text) ≡ text → All IsByteOrPair text }
    ensures bytes { (text : List ℕ) → All IsByteOrPair text → AreBytes (bytes_of text) }
{}

/// A number has as many digits in a base as are asked for, each below the base. They are read back as the
/// number where it fits them, and a digit more makes it the base times itself and the digit.
pub fn law_of_digits()
    ensures read_back { (base count number : ℕ) → 0 < base → number < base ^ count →
        number_in base (digits_in base count number) ≡ number }
    ensures below { (base count number : ℕ) → 0 < base →
        All (λ digit. digit < base) (digits_in base count number) }
    ensures count { (base count number : ℕ) → length (digits_in base count number) ≡ count }
    ensures more { (base : ℕ) (digits : List ℕ) (digit : ℕ) →
        number_in base (digits ++ digit ∷ []) ≡ number_in base digits * base + digit }
{}

/// Writing a number in bytes and reading bytes as a number undo each other.
pub fn law_of_big_numbers()
    ensures read_back { (count number : ℕ) → number < 256 ^ count →
        big_number (big_bytes count number) ≡ number }
    ensures written_back { (bytes : List ℕ) → AreBytes bytes →
        big_bytes (length bytes) (big_number bytes) ≡ bytes }
    ensures fits { (bytes : List ℕ) → AreBytes bytes → big_number bytes < 256 ^ length bytes }
    ensures bytes { (count number : ℕ) → AreBytes (big_bytes count number) }
    ensures byte { (byte : ℕ) → byte < 256 → big_bytes 1 byte ≡ byte ∷ [] }
    ensures count { (count number : ℕ) → length (big_bytes count number) ≡ count }
{}

/// The bytes in which Rust writes a number of 16 or of 32 bits, the highest first, are those of these
/// definitions.
pub fn law_of_written_numbers()
    ensures two { (number : ℕ) → to_be_bytes w16 number ≡ big_bytes 2 number }
    ensures four { (number : ℕ) → to_be_bytes w32 number ≡ big_bytes 4 number }
{}

/// What is read as a field stands in front of the bytes behind it, and what was written there is read again.
pub fn law_of_fields()
    ensures { FieldLaws }
{}

/// A number is printed in base ten as the one numeral that it has: digits, whose number it is, with no
/// zero in front of another digit. A field of these digits is read back, and a digit more makes a number
/// ten times itself and the digit.
pub fn law_of_decimals()
    ensures digits { (number : ℕ) → AllPass is_decimal_digit (decimal_digits number) }
    ensures number { (number : ℕ) → decimal_number (decimal_digits number) ≡ number }
    ensures first { (number : ℕ) → 10 ≤ number → slice_get (decimal_digits number) 0 ≢ Some 48 }
    ensures one { (number : ℕ) → number < 10 → decimal_digits number ≡ (48 + number) ∷ [] }
    ensures field { (number : ℕ) → number < 2 ^ 32
        → decimal_field (decimal_digits number) ≡ Some number }
    ensures more { (digits : List ℕ) (digit : ℕ) →
        decimal_number (digits ++ digit ∷ []) ≡ decimal_number digits * 10 + (digit - 48) }
{}

/// What begins with a list begins with each front of that list: so a call that appends to what another
/// call left keeps what stood before both.
pub fn law_of_fronts()
    ensures { (front more whole longer : List ℕ) → whole ≡ front ++ more → StartsWith longer whole →
        StartsWith longer front }
{}

/// Two texts have the same codes exactly where they are the same.
pub fn law_of_same_texts()
    ensures { (text other : List ℕ) → (is_same text other ≡ true) ↔ (text ≡ other) }
{}

/// What tests that are joined say.
pub fn law_of_tests()
    ensures both { (a b : Bool) → ((a && b) ≡ true) ↔ ((a ≡ true) × (b ≡ true)) }
    ensures one { (a b : Bool) → ((a || b) ≡ true) ↔ ((a ≡ true) ⊎ (b ≡ true)) }
    ensures neither { (a b : Bool) → ((a || b) ≡ false) ↔ ((a ≡ false) × (b ≡ false)) }
    ensures other { (a : Bool) → (not a ≡ true) ↔ (a ≡ false) }
{}
