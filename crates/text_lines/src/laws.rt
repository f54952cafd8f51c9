//! What the definitions of this crate say together. Each function is a law: its contract is what it is
//! for, and it does nothing when it runs.

ghost use Rattle.std.specs.Prelude.{◌≡◌, ◌+◌, ◌^◌, ◌<◌, ◌==◌, ℕ, ℤ, List, length, count_by, Some};
ghost use Rattle.std.specs.List.{join_with_byte};
ghost use Rattle.std.specs.Int.Signed.{mag};
ghost use Rattle.bml_bytes.specs.Codes.{AreBytes, codes};
ghost use Rattle.bml_bytes.specs.Escapes.{escaped};
ghost use Rattle.bml_bytes.specs.declared.line_fields.Escapes.TheVariants.{Controls};
ghost use Rattle.text_lines.specs.declared.rows.Row.{Row};
ghost use Rattle.text_lines.specs.Breaking.{AreRows, pieces_of};
ghost use Rattle.text_lines.specs.Measures.{Measures};
ghost use Rattle.text_lines.specs.ReadBack.{text_in, text_line, unescaped};
ghost use Rattle.text_lines.specs.devices.RowsAhead.{rows_of};

use bml_bytes::law_of_decimals;

/// The pieces with a code 10 between them are the text, and they are one more than it has such codes.
pub fn law_of_pieces()
    ensures joined { (text : List ℕ) → join_with_byte 10 (pieces_of text) ≡ text }
    ensures count { (text : List ℕ)
        → length (pieces_of text) ≡ count_by (λ code. code == 10) text + 1 }
{}

/// A text has rows, and only one list of them.
pub fn law_of_rows()
    ensures rows { (m : Measures) (text : List ℕ) → AreRows m text (rows_of m text) }
    ensures only { (m : Measures) (text : List ℕ) (rows : List Row)
        → AreRows m text rows → rows ≡ rows_of m text }
{}

/// What was printed of a text is read back: its bytes, and its numbers if they fit 32 bits beside their sign.
pub fn law_of_shown_texts()
    ensures bytes { (bytes : List ℕ) → AreBytes bytes
        → unescaped (escaped Controls bytes) ≡ bytes }
    ensures line { (x y height color : ℤ) (width size : ℕ) (bytes : List ℕ) → AreBytes bytes
        → mag x < 2 ^ 31 → mag y < 2 ^ 31 → width < 2 ^ 32 → size < 2 ^ 32
        → text_in (text_line x y width height color size bytes)
        ≡ Some (record { x = x; y = y; width = width; size = size; text = codes bytes }) }
{
    law_of_decimals();
}
