//! What the definitions of this crate say together. A law's contract is what it is for, and it does nothing when it
//! runs.

ghost use Rattle.std.specs.Prelude.{◌≡◌, ◌↔◌, ◌≤◌, ℕ, true, List, Contains, Some, length};
ghost use Rattle.std.specs.List.Sorted.{IsStrictlyIncreasing};
ghost use Rattle.persistent_arrays.specs.declared.fields.Field.{Field};
ghost use Rattle.persistent_arrays.specs.declared.kinds.FieldKind.{FieldKind};
ghost use Rattle.persistent_arrays.specs.Reading.{runs};
ghost use Rattle.persistent_arrays.specs.Structures.{IsStructure};
ghost use Rattle.binary_table.specs.Tables.{Table, cell_of, is_value, rows_in, rows_with};

use bml_bytes::law_of_same_texts;
use persistent_arrays::law_of_runs;

/// Bytes have at most one list of rows, which is the one that is worked out.
pub fn law_of_tables()
    ensures one { (bytes : List ℕ) (kinds : List FieldKind) (rows others : List (List Field)) →
        IsStructure kinds → Table bytes kinds rows → Table bytes kinds others
        → rows ≡ others }
    ensures worked_out { (bytes : List ℕ) (kinds : List FieldKind) (rows : List (List Field))
        (most : ℕ) → IsStructure kinds →
        (rows_in most (runs kinds) bytes ≡ Some rows)
        ↔ (Table bytes kinds rows × (length rows ≤ most)) }
{
    law_of_runs();
}

/// The rows that a search looks for are those at or after the first whose value in the column is the one that is wanted, in
/// ascending order, each once.
pub fn law_of_search()
    ensures same { (value wanted : Field)
        → (is_value value wanted ≡ true) ↔ (value ≡ wanted) }
    ensures members { (rows : List (List Field)) (from column : ℕ) (wanted : Field) (row : ℕ)
        → Contains (rows_with rows from column wanted) row
        ↔ ((from ≤ row) × (cell_of rows row column ≡ Some wanted)) }
    ensures ascending { (rows : List (List Field)) (from column : ℕ) (wanted : Field) →
        IsStrictlyIncreasing (rows_with rows from column wanted) }
{
    law_of_same_texts();
}
