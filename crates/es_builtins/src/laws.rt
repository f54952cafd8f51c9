//! What all rows keep, and what the definitions of arrays say together. Each function is a law: its
//! contract is what it is for, and it does nothing when it runs.

ghost use Rattle.std.specs.Prelude.{◌≡◌, ◌<◌, ◌≤◌, ◌^◌, ℕ, suc, List, ◌∷◌, All, Some, pos, negsuc, true, false, length, slice_get};
ghost use Rattle.std.specs.List.{list_all};
ghost use Rattle.std.specs.Cmp.Lexicographic.{slice_cmp};
ghost use Rattle.std.specs.List.Sorted.{IsPermutation, IsSortedByKey, IsStableByKey};
ghost use Rattle.std.specs.Ordering.{nat_cmp};
ghost use Rattle.es_values.specs.declared.numbers.Num.TheVariants.{Whole};
ghost use Rattle.es_values.specs.declared.values.Value.{Value};
ghost use Rattle.es_values.specs.Arrays.{element_at, elements_of};
ghost use Rattle.es_values.specs.Heaps.{IsLive, IsSound};
ghost use Rattle.es_values.specs.Numerals.{is_digit_in, number_written};
ghost use Rattle.es_values.specs.Objects.{ObjectState};
ghost use Rattle.es_builtins.specs.Arrays.{sorted, sorted_object};
ghost use Rattle.es_builtins.specs.Functions.{construction_row, function_row};
ghost use Rattle.es_builtins.specs.Keeping.{RowKeeps};
ghost use Rattle.es_builtins.specs.Methods.{method_row};
ghost use Rattle.es_builtins.specs.Numerals.{number_text_in};
ghost use Rattle.es_builtins.specs.Sorting.{sort_key};
ghost use Rattle.es_builtins.specs.Splitting.{joined_by};
ghost use Rattle.es_builtins.specs.Texts.{split, stands_at};

use date_objects::law_of_new_dates;
use es_values::{
    law_of_array_functions, law_of_arrays, law_of_elements, law_of_functions, law_of_live_values,
};

/// A row keeps each object, leaves a sound heap, and gives a value that lives in it. No function
/// comes into the heap or out of it that wasn't in the heap, among the arguments or what was
/// called.
pub fn law_of_rows()
    ensures functions { (heap : List ObjectState) (number : ℕ) (arguments : List Value)
        → IsSound heap → All (IsLive heap) arguments
        → RowKeeps heap arguments (function_row heap number arguments) }
    ensures constructions { (heap : List ObjectState) (number : ℕ) (arguments : List Value)
        → IsSound heap → All (IsLive heap) arguments
        → RowKeeps heap arguments (construction_row heap number arguments) }
    ensures methods { (heap : List ObjectState) (base : Value) (name : List ℕ)
        (arguments : List Value) → IsSound heap → IsLive heap base → All (IsLive heap) arguments
        → RowKeeps heap (base ∷ arguments) (method_row heap base name arguments) }
{
    law_of_live_values();
    law_of_functions();
    law_of_arrays();
    law_of_array_functions();
    law_of_new_dates();
}

/// What `sort` leaves are the same elements. They ascend by the codes of their texts, with
/// Undefined behind all texts, and those of equal text stand as they stood before. No other list is
/// so.
pub fn law_of_sorting()
    ensures permutation { (heap : List ObjectState) (values : List Value)
        → IsPermutation values (sorted heap values) }
    ensures ascending { (heap : List ObjectState) (values : List Value)
        → IsSortedByKey (sort_key heap) (slice_cmp nat_cmp) (sorted heap values) }
    ensures stable { (heap : List ObjectState) (values : List Value)
        → IsStableByKey (sort_key heap) (slice_cmp nat_cmp) values (sorted heap values) }
    ensures only { (heap : List ObjectState) (values others : List Value)
        → IsSortedByKey (sort_key heap) (slice_cmp nat_cmp) others
        → IsStableByKey (sort_key heap) (slice_cmp nat_cmp) values others
        → others ≡ sorted heap values }
{}

/// Place k of an array that `sort` leaves has the k-th of the sorted values, and each place behind the
/// last of them is missing. The length stays.
pub fn law_of_sorted_arrays()
    ensures elements { (heap : List ObjectState) (object : ObjectState) (place : ℕ)
        → place < 2147483647
        → element_at (sorted_object heap object).properties place
        ≡ slice_get (sorted heap (elements_of object)) place }
    ensures size { (heap : List ObjectState) (object : ObjectState)
        → (sorted_object heap object).array_length ≡ object.array_length }
{
    law_of_elements();
}

/// The parts that `split` gives are the text where they are joined with the separator, and a separator
/// with codes stands in none of them.
pub fn law_of_splitting()
    ensures joined { (text separator : List ℕ)
        → joined_by separator (split text (Some separator)) ≡ text }
    ensures apart { (text separator : List ℕ) → 0 < length separator
        → All (λ part. (place : ℕ) → stands_at separator part place ≡ false)
        (split text (Some separator)) }
{}

/// What `toString` gives of a whole number are digits of its base, which read back as the number, behind
/// a minus sign where it is negative.
pub fn law_of_digits()
    ensures written { (base number : ℕ) → 2 ≤ base → base ≤ 36 → number < 2 ^ 32
        → number_written base (number_text_in base (Whole (pos number))) ≡ number }
    ensures digits { (base number : ℕ) → 2 ≤ base → base ≤ 36
        → list_all (is_digit_in base) (number_text_in base (Whole (pos number))) ≡ true }
    ensures negative { (base number : ℕ) → number_text_in base (Whole (negsuc number))
        ≡ 45 ∷ number_text_in base (Whole (pos (suc number))) }
{}
