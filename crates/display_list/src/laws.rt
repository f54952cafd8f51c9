//! What the definitions of a display list say. The function is a law: its contract is what it is
//! for, and it does nothing when it runs.

ghost use Rattle.std.specs.Prelude.{ℕ, ℤ, List};
ghost use Rattle.std.specs.List.Sorted.{IsPermutation, IsSortedByKey, IsStableByKey};
ghost use Rattle.std.specs.Ordering.{int_cmp};
ghost use Rattle.display_list.specs.Places.{in_order};

/// Nodes in order by their levels are the same nodes, their levels never fall, and those of one
/// level stand as they stood before.
pub fn law_of_order()
    ensures permutation { (level : ℕ → ℤ) (nodes : List ℕ) →
        IsPermutation nodes (in_order level nodes) }
    ensures sorted { (level : ℕ → ℤ) (nodes : List ℕ) →
        IsSortedByKey level int_cmp (in_order level nodes) }
    ensures stable { (level : ℕ → ℤ) (nodes : List ℕ) →
        IsStableByKey level int_cmp nodes (in_order level nodes) }
{}
