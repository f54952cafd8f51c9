//! What the definitions of this crate say together. A law's contract is what it is for, and it does nothing when it
//! runs.

ghost use Rattle.std.specs.Prelude.{◌≡◌, ◌≢◌, ◌↔◌, ◌<◌, ◌≤◌, ◌-◌, ◌*◌, ◌^◌, ◌++◌, ◌-ℤ◌, ℕ, ℤ, pos};
ghost use Rattle.std.specs.Prelude.{Bool, false, List, Some, length, replicate};
ghost use Rattle.bml_bytes.specs.Areas.{area_length};
ghost use Rattle.bml_bytes.specs.Codes.{bytes_of, codes};
ghost use Rattle.persistent_arrays.specs.declared.fields.Field.{Field};
ghost use Rattle.persistent_arrays.specs.declared.fields.Field.TheVariants.{Whole, Words};
ghost use Rattle.persistent_arrays.specs.declared.kinds.FieldKind.{FieldKind};
ghost use Rattle.persistent_arrays.specs.declared.kinds.FieldKind.TheVariants.{Unsigned, Signed, Varying};
ghost use Rattle.persistent_arrays.specs.Arrays.{array_count, array_in, array_size, with_array};
ghost use Rattle.persistent_arrays.specs.Kept.{kept_value, kept_values};
ghost use Rattle.persistent_arrays.specs.Names.{Names, array_named};
ghost use Rattle.persistent_arrays.specs.Packing.{packed, packed_in_array, weighed};
ghost use Rattle.persistent_arrays.specs.Reading.{HasOwnBytes, Run, Spelled, bits_of, run_at, unpacked};
ghost use Rattle.persistent_arrays.specs.Structures.{IsKind, Spells, structure_spelled};

use bml_bytes::{law_of_big_numbers, law_of_fields};

/// A text spells at most one structure, which is the one that is worked out.
pub fn law_of_structures()
    ensures one { (text : List ℕ) (kinds others : List FieldKind) →
        Spells text kinds → Spells text others → kinds ≡ others }
    ensures spelled { (text : List ℕ) (kinds : List FieldKind) →
        (structure_spelled text ≡ Some kinds) ↔ Spells text kinds }
{}

/// A text names at most one array, which is the one that is worked out.
pub fn law_of_array_names()
    ensures one { (name : List ℕ) (slot other : ℕ)
        → Names name slot → Names name other → slot ≡ other }
    ensures named { (name : List ℕ) (slot : ℕ) → (array_named name ≡ Some slot) ↔ Names name slot }
{}

/// A run is read of bytes of its own, whatever stands behind them.
pub fn law_of_runs()
    ensures { (run : Run) (bytes rest : List ℕ) (values : List Field) →
        run_at run bytes ≡ Some (values, rest) → HasOwnBytes run bytes values rest }
{
    law_of_fields();
}

/// Bytes that spell values are read as these, whatever stands behind them; and what is read of bytes is spelled at their
/// front.
pub fn law_of_spelled_fields()
    ensures read { (kinds : List FieldKind) (values : List Field) (bytes behind : List ℕ) →
        Spelled kinds bytes values → unpacked kinds (bytes ++ behind) ≡ Some values }
    ensures spelled { (kinds : List FieldKind) (values : List Field) (bytes : List ℕ) →
        unpacked kinds bytes ≡ Some values →
        (front behind : List ℕ) × (bytes ≡ front ++ behind) × Spelled kinds front values }
{
    law_of_runs();
}

/// What was packed is spelled by its bytes with nothing left over, and is read again as it is kept: from the bytes,
/// whatever stands behind them, and so from the array of an area that they were written to.
pub fn law_of_kept_fields()
    ensures spelled { (kinds : List FieldKind) (values : List Field) (bytes : List ℕ) →
        packed kinds values ≡ Some bytes → Spelled kinds bytes (kept_values kinds values) }
    ensures bytes { (kinds : List FieldKind) (values : List Field) (bytes behind : List ℕ) →
        packed kinds values ≡ Some bytes →
        unpacked kinds (bytes ++ behind) ≡ Some (kept_values kinds values) }
    ensures array { (kinds : List FieldKind) (values : List Field) (bytes area : List ℕ) (slot : ℕ)
        → length area ≡ area_length → slot < array_count
        → packed_in_array kinds values ≡ Some bytes
        → unpacked kinds (array_in (with_array area slot bytes) slot)
        ≡ Some (kept_values kinds values) }
{
    law_of_fields();
    law_of_big_numbers();
}

/// A number that its field has room for is kept as it is, and so is a text of varying size that its
/// own bytes are read as.
pub fn law_of_kept_values()
    ensures unsigned { (size number : ℕ) → IsKind (Unsigned size) →
        number < 256 ^ size → number < 2 ^ 31 →
        kept_value (Unsigned size) (Whole (pos number)) ≡ Whole (pos number) }
    ensures signed { (size number : ℕ) → IsKind (Signed size) → number * 2 < 256 ^ size →
        kept_value (Signed size) (Whole (pos number)) ≡ Whole (pos number) }
    ensures negative { (size number : ℕ) → IsKind (Signed size) → number * 2 ≤ 256 ^ size →
        kept_value (Signed size) (Whole (pos 0 -ℤ pos number)) ≡ Whole (pos 0 -ℤ pos number) }
    ensures text { (text : List ℕ) → codes (bytes_of text) ≡ text →
        kept_value Varying (Words text) ≡ Words text }
{}

/// The arrays fill the area. What is written to an array leaves the area's size and each other array as they were.
pub fn law_of_arrays()
    ensures whole { array_size * array_count ≡ area_length }
    ensures size { (area bytes : List ℕ) (slot : ℕ) → length area ≡ area_length
        → slot < array_count → length bytes ≤ array_size
        → length (with_array area slot bytes) ≡ area_length }
    ensures others { (area bytes : List ℕ) (slot other : ℕ) → length area ≡ area_length →
        slot < array_count → other < array_count → length bytes ≤ array_size → slot ≢ other →
        array_in (with_array area slot bytes) other ≡ array_in area other }
{}

/// Up to eight bits that share a byte are its first bits from the top on, and no other of its bits is set.
pub fn law_of_shared_bits()
    ensures { (bits : List Bool) → length bits ≤ 8 →
        bits_of (weighed 128 bits) ≡ bits ++ replicate (8 - length bits) false }
{}
