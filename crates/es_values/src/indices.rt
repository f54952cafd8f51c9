//! The indices of elements in ascending order, so that those at a place and behind it are found without
//! a look at the others.

ghost use Rattle.std.specs.Prelude.{◌≡◌, ◌<◌, ◌+◌, ◌&&◌, ◌++◌, ◌∷◌, [], ℕ, List, None, Bool, true, false, is_some, count_by, option_to_list, IfSome};
ghost use Rattle.std.specs.BTreeMap.{is_at};
ghost use Rattle.std.specs.List.{sum_by};
ghost use Rattle.std.specs.Map.{lookup, remove_entry};
ghost use Rattle.std.specs.Ordering.{is_le, nat_cmp};
ghost use Rattle.bml_bytes.specs.Numerals.{decimal_digits};
ghost use Rattle.bml_bytes.specs.Words.{is_same};
ghost use Rattle.es_values.specs.declared.values.Value.{Value};
ghost use Rattle.es_values.specs.Heaps.{index_of};
ghost use Rattle.es_values.specs.devices.Indices.{AreKept, indices_of};

use crate::texts::index_of_name;
use bml_bytes::{Text, law_of_decimals};
use std::collections::BTreeSet;

/// The indices of elements, as long as there is memory for them. (This project's own.)
pub type Indices = Option<BTreeSet<u32>>;

/// What is kept of indices once there is a property of a new name.
pub fn with_name(kept: Indices, name: &Text) -> Indices
    ensures { (properties : List (List ℕ × Value)) → AreKept kept (indices_of properties)
        → lookup (is_same name.now) properties ≡ None
        → AreKept result (indices_of properties ++ option_to_list (index_of name.now)) }
{
    match index_of_name(name) {
        Some(index) => with_index(kept, index),
        None => kept,
    }
}

/// What is kept of indices once the property of a name is gone.
pub fn without_name(kept: Indices, name: &Text) -> Indices
    ensures { (properties : List (List ℕ × Value)) → AreKept kept (indices_of properties)
        → is_some (lookup (is_same name.now) properties) ≡ true
        → AreKept result (indices_of (remove_entry (is_same name.now) properties)) }
{
    match index_of_name(name) {
        Some(index) => without_index(kept, index),
        None => kept,
    }
}

/// How many indices are kept from a place on, if any are kept.
pub fn indices_from(kept: &Indices, place: u32) -> Option<usize>
    ensures { IfSome result (λ count. (indices : List ℕ) → AreKept kept.now indices
        → count ≡ count_by (λ index. is_le (nat_cmp place index) && true) indices) }
{
    let indices = kept.as_ref()?;
    Some(indices.range(place..).count())
}

/// Whether indices are kept, and one isn't among them.
pub fn lacks(kept: &Indices, index: u32) -> bool
    ensures { result ≡ true → (properties : List (List ℕ × Value))
        → AreKept kept.now (indices_of properties) → index < 2147483647
        → lookup (is_same (decimal_digits index)) properties ≡ None }
{
    law_of_decimals();
    match kept.as_ref() {
        Some(indices) => !indices.contains(&index),
        None => false,
    }
}

/// The greatest index that is kept.
pub fn greatest(kept: &Indices) -> Option<u32>
    ensures { IfSome result (λ index. (indices : List ℕ) → AreKept kept.now indices
        → (test : ℕ → Bool) → count_by test indices ≡ 0 → test index ≡ false) }
{
    let indices = kept.as_ref()?;
    match indices.last() {
        Some(index) => Some(*index),
        None => None,
    }
}

fn with_index(kept: Indices, index: u32) -> Indices
    ensures { (indices : List ℕ) → AreKept kept indices
        → count_by (is_at (nat_cmp index)) indices ≡ 0
        → AreKept result (indices ++ index ∷ []) }
{
    match kept {
        Some(mut indices) => match indices.insert(index) {
            Ok(_) => Some(indices),
            Err(_) => None,
        },
        None => None,
    }
}

fn without_index(kept: Indices, index: u32) -> Indices
    ensures { (before after : List ℕ) → AreKept kept before
        → ((weight : ℕ → ℕ) → sum_by weight before ≡ sum_by weight after + weight index)
        → AreKept result after }
{
    match kept {
        Some(mut indices) => {
            indices.remove(&index);
            Some(indices)
        }
        None => None,
    }
}
