//! What the definitions of this crate say together. Each function is a law: its contract is what it
//! is for, and it does nothing when it runs.

ghost use Rattle.std.specs.Prelude.{◌≡◌, ◌<◌, ◌≤◌, ◌^◌, ◌+◌, ◌-◌, ◌++◌, ◌||◌, ◌+ℤ◌, ℕ, ℤ, pos, List, [], ◌∷◌, All, Bool, Some, None, true, false, if◌then◌else◌, FitsSigned, is_some, length, max, nat_lt, slice_get};
ghost use Rattle.std.specs.Int.{w32};
ghost use Rattle.std.specs.List.{list_any};
ghost use Rattle.std.specs.Map.{lookup};
ghost use Rattle.std.specs.Option.{ForSome};
ghost use Rattle.std.specs.Set.{remove_key};
ghost use Rattle.bml_bytes.specs.Numerals.{decimal_digits};
ghost use Rattle.bml_bytes.specs.Words.{is_same};
ghost use Rattle.es_values.specs.declared.numbers.Num.{Num};
ghost use Rattle.es_values.specs.declared.numbers.Num.TheVariants.{Whole};
ghost use Rattle.es_values.specs.declared.values.Value.{Value};
ghost use Rattle.es_values.specs.Arrays.{array_of, element_at, elements_of, turned_object, with_first_elements};
ghost use Rattle.es_values.specs.Numbers.{wrapped};
ghost use Rattle.es_values.specs.Objects.{ObjectState};
ghost use Rattle.es_values.specs.Values.{is_function};
ghost use Rattle.es_values.specs.Heaps.{HasSoundLength, HaveSoundLengths, IsLive, IsSound, holds_function, index_of, is_array_length, is_length, names_of, new_object, object_at, value_of, with_length, with_property, without_property, with_object};
ghost use Rattle.es_values.specs.Operators.{with_put};

use bml_bytes::law_of_decimals;

/// What is left of a number in 32 bits fits them, is the number where that fits, and is the same
/// for a number and one that is 2^32 more.
pub fn law_of_wrapping()
    ensures fits { (z : ℤ) → FitsSigned w32 (wrapped z) }
    ensures same { (z : ℤ) → FitsSigned w32 z → wrapped z ≡ z }
    ensures turn { (z : ℤ) → wrapped (z +ℤ pos (2 ^ 32)) ≡ wrapped z }
{}

/// The names that are indices are exactly the decimal texts of 0 to 2,147,483,646. No number's
/// decimal text is `length`.
pub fn law_of_indices()
    ensures digits { (index : ℕ) → index < 2147483647
        → index_of (decimal_digits index) ≡ Some index }
    ensures text { (name : List ℕ) (index : ℕ) → index_of name ≡ Some index →
        (name ≡ decimal_digits index) × (index < 2147483647) }
    ensures others { (number : ℕ) → is_length (decimal_digits number) ≡ false }
{
    law_of_decimals();
}

/// A property that is put, for a name other than an array's length, is there with its value, and
/// every other name but `length` has the value that it had. The names that are listed are exactly
/// those that a look-up finds.
pub fn law_of_properties()
    ensures put { (object : ObjectState) (name : List ℕ) (value : Value)
        → is_array_length object name ≡ false
        → value_of (with_property object name value) name ≡ value }
    ensures others { (object : ObjectState) (name other : List ℕ) (value : Value)
        → is_same name other ≡ false → is_array_length object other ≡ false
        → value_of (with_property object name value) other ≡ value_of object other }
    ensures names { (object : ObjectState) (name : List ℕ)
        → list_any (is_same name) (names_of object)
        ≡ is_some (lookup (is_same name) object.properties) }
{}

/// A put leaves the names in their order and adds a new one behind the last, and a removal takes a
/// name away and leaves the others in their order. An element at an array's length or behind it makes
/// the array as long as it needs. A length takes the elements at it and behind it away, and leaves
/// those in front of it. (8.6.2.2, 8.6.2.5 and 15.4.5.1; the order is this project's own.)
pub fn law_of_insertion()
    ensures put { (object : ObjectState) (name : List ℕ) (value : Value)
        → names_of (with_property object name value)
        ≡ (if list_any (is_same name) (names_of object) then names_of object
        else names_of object ++ name ∷ []) }
    ensures removed { (object : ObjectState) (name : List ℕ) → is_array_length object name ≡ false
        → names_of (without_property object name) ≡ remove_key (is_same name) (names_of object) }
    ensures longer { (object : ObjectState) (name : List ℕ) (value : Value) (count index : ℕ)
        → object.array_length ≡ Some count → index_of name ≡ Some index
        → (with_property object name value).array_length ≡ Some (max count (index + 1)) }
    ensures shorter { (object : ObjectState) (count index : ℕ) → index < 2147483647
        → element_at (with_length object (Whole (pos count))).properties index
        ≡ (if nat_lt index count then element_at object.properties index else None) }
{
    law_of_decimals();
}

/// An array that is made of values has each at its place, no other elements, and as many as its length.
/// Where values become an object's elements, each is at its place, and each place behind the last is
/// missing.
pub fn law_of_elements()
    ensures made { (values : List Value) (place : ℕ)
        → element_at (array_of values).properties place ≡ slice_get values place }
    ensures size { (values : List Value) → length values ≤ 2147483647
        → (array_of values).array_length ≡ Some (length values) }
    ensures set { (object : ObjectState) (values : List Value) (place : ℕ) → place < 2147483647
        → element_at (with_first_elements object values).properties place ≡ slice_get values place }
{
    law_of_decimals();
}

/// An array's index is below its length, in a heap that is made by the operations of this crate. A heap
/// without objects has such lengths, and so has one with a new object or an array of values. A put, a
/// length and a removal keep them, and so does an array that is turned round. Values become an object's
/// elements in place of its own where they are no more than its length says. (15.4.)
pub fn law_of_lengths()
    ensures below { (object : ObjectState) (count index : ℕ) → HasSoundLength object
        → object.array_length ≡ Some count → index < 2147483647
        → is_some (element_at object.properties index) ≡ true → index < count }
    ensures nothing { HaveSoundLengths [] }
    ensures added { (heap : List ObjectState) (array : Bool) → HaveSoundLengths heap
        → HaveSoundLengths (heap ++ new_object array ∷ []) }
    ensures made { (heap : List ObjectState) (values : List Value) → HaveSoundLengths heap
        → HaveSoundLengths (heap ++ array_of values ∷ []) }
    ensures put { (heap : List ObjectState) (object : ℕ) (name : List ℕ) (value : Value)
        → HaveSoundLengths heap → HaveSoundLengths (with_put heap object name value) }
    ensures removed { (heap : List ObjectState) (object : ℕ) (name : List ℕ)
        → HaveSoundLengths heap → HaveSoundLengths
        (with_object heap object (without_property (object_at heap object) name)) }
    ensures set { (heap : List ObjectState) (object : ℕ) (values : List Value)
        → HaveSoundLengths heap
        → ForSome (object_at heap object).array_length (λ count. length values ≤ count)
        → HaveSoundLengths
        (with_object heap object (with_first_elements (object_at heap object) values)) }
    ensures reversed { (heap : List ObjectState) (object : ℕ) → HaveSoundLengths heap
        → HaveSoundLengths (with_object heap object (turned_object (object_at heap object))) }
{
    law_of_decimals();
}

/// Where an array is turned round, the elements at k and length - 1 - k have changed places, and one that
/// is missing is missing at the other. What a name has that is no element's stays. (15.4.4.4.)
pub fn law_of_reversal()
    ensures elements { (object : ObjectState) (count place : ℕ)
        → object.array_length ≡ Some count → count ≤ 2147483647 → place < count
        → element_at (turned_object object).properties place
        ≡ element_at object.properties (count - 1 - place) }
    ensures others { (object : ObjectState) (count : ℕ) (name : List ℕ)
        → object.array_length ≡ Some count → count ≤ 2147483647 → index_of name ≡ None
        → lookup (is_same name) (turned_object object).properties
        ≡ lookup (is_same name) object.properties }
{
    law_of_decimals();
}

/// A new object leaves a sound heap sound. A put to it of a value that is live in it leaves a sound
/// heap with as many objects, and what is read there is live. What is live in a heap is live in
/// each that has as many objects or more.
pub fn law_of_live_values()
    ensures stays { (heap more : List ObjectState) (value : Value) → length heap ≤ length more
        → IsLive heap value → IsLive more value }
    ensures added { (heap : List ObjectState) (array : Bool) → IsSound heap
        → IsSound (heap ++ new_object array ∷ []) }
    ensures read { (heap : List ObjectState) (object : ℕ) (name : List ℕ) → IsSound heap
        → IsLive heap (value_of (object_at heap object) name) }
    ensures put { (heap : List ObjectState) (object : ℕ) (name : List ℕ) (value : Value)
        → IsSound heap → IsLive heap value → IsSound (with_put heap object name value) }
    ensures count { (heap : List ObjectState) (object : ℕ) (name : List ℕ) (value : Value)
        → length (with_put heap object name value) ≡ length heap }
{}

/// A function is read only where the heap holds it, and the heap holds no other than before and
/// those that are put.
pub fn law_of_functions()
    ensures read { (heap : List ObjectState) (object number : ℕ) (name : List ℕ)
        → is_function number (value_of (object_at heap object) name) ≡ true
        → holds_function number heap ≡ true }
    ensures put { (heap : List ObjectState) (object number : ℕ) (name : List ℕ) (value : Value)
        → holds_function number (with_put heap object name value) ≡ true
        → (holds_function number heap || is_function number value) ≡ true }
    ensures removed { (heap : List ObjectState) (object number : ℕ) (name : List ℕ)
        → holds_function number
        (with_object heap object (without_property (object_at heap object) name)) ≡ true
        → holds_function number heap ≡ true }
    ensures added { (heap : List ObjectState) (array : Bool) (number : ℕ)
        → holds_function number (heap ++ new_object array ∷ []) ≡ holds_function number heap }
{}

/// A sound heap stays sound where an array is added that is made of live values or of a length
/// alone, and where the elements of one become live values or are turned round. Each element of an
/// array of a sound heap is live.
pub fn law_of_arrays()
    ensures made { (heap : List ObjectState) (values : List Value) → IsSound heap
        → All (IsLive heap) values → IsSound (heap ++ array_of values ∷ []) }
    ensures empty { (heap : List ObjectState) (size : Num) → IsSound heap
        → IsSound (heap ++ with_length (new_object true) size ∷ []) }
    ensures elements { (heap : List ObjectState) (object : ℕ) → IsSound heap
        → All (IsLive heap) (elements_of (object_at heap object)) }
    ensures set { (heap : List ObjectState) (object : ℕ) (values : List Value) → IsSound heap
        → All (IsLive heap) values → IsSound
        (with_object heap object (with_first_elements (object_at heap object) values)) }
    ensures turned { (heap : List ObjectState) (object : ℕ) → IsSound heap
        → IsSound (with_object heap object (turned_object (object_at heap object))) }
{}

/// Where an array is added that is made of values, or its elements become values, the heap holds no
/// functions but those that it held and those among the values. Where it is made of a length alone,
/// or its elements are turned round, no function comes in. A heap holds what the elements of its
/// arrays are.
pub fn law_of_array_functions()
    ensures made { (heap : List ObjectState) (number : ℕ) (values : List Value)
        → holds_function number (heap ++ array_of values ∷ []) ≡ true
        → (holds_function number heap || list_any (is_function number) values) ≡ true }
    ensures empty { (heap : List ObjectState) (number : ℕ) (size : Num)
        → holds_function number (heap ++ with_length (new_object true) size ∷ []) ≡ true
        → holds_function number heap ≡ true }
    ensures elements { (heap : List ObjectState) (object number : ℕ)
        → list_any (is_function number) (elements_of (object_at heap object)) ≡ true
        → holds_function number heap ≡ true }
    ensures set { (heap : List ObjectState) (object number : ℕ) (values : List Value)
        → holds_function number
        (with_object heap object (with_first_elements (object_at heap object) values)) ≡ true
        → (holds_function number heap || list_any (is_function number) values) ≡ true }
    ensures turned { (heap : List ObjectState) (object number : ℕ)
        → holds_function number
        (with_object heap object (turned_object (object_at heap object))) ≡ true
        → holds_function number heap ≡ true }
{}
