//! What the definitions of a record say together. Each function is a law: its contract is what it
//! is for, and it does nothing when it runs.

ghost use Rattle.std.specs.Prelude.{◌≡◌, ◌≢◌, ◌+◌, ◌-◌, ◌<◌, ◌≤◌, ℕ, true, false, List, [], ◌∷◌};
ghost use Rattle.std.specs.Prelude.{◌++◌, All as Each, length, slice_index, Some, None};
ghost use Rattle.std.specs.List.{filter_map};
ghost use Rattle.std.specs.Str.Lines.{lines};
ghost use Rattle.replay_run.specs.Record.{carriage_return, line_feed, line_limit, is_blank, fields};
ghost use Rattle.replay_run.specs.Record.{line_of, lines_of, items_before_bad, first_bad, item_in};
ghost use Rattle.replay_run.specs.Record.{AsksNothing, IsWritten};
ghost use Rattle.replay_run.specs.declared.record.RecordItem.{RecordItem};
ghost use Rattle.replay_run.specs.declared.record.Line.{Line as ALine};
ghost use Rattle.replay_run.specs.declared.record.Line.TheVariants.{Item as Read, Nothing, Bad};

/// A record without a bad line has the items of its lines. Where a bad line stands behind others,
/// the items are those of these, and the bad line's number is one more than theirs; lines that ask
/// for nothing count.
pub fn law_of_records()
    ensures all { (bytes : List ℕ) → Each (λ line. line ≢ Bad) (lines_of bytes)
        → items_before_bad bytes ≡ filter_map item_in (lines_of bytes) }
    ensures none_bad { (bytes : List ℕ) → Each (λ line. line ≢ Bad) (lines_of bytes)
        → first_bad bytes ≡ None }
    ensures before_bad { (bytes : List ℕ) (before rest : List ALine)
        → lines_of bytes ≡ before ++ Bad ∷ rest
        → Each (λ line. line ≢ Bad) before → items_before_bad bytes ≡ filter_map item_in before }
    ensures number { (bytes : List ℕ) (before rest : List ALine)
        → lines_of bytes ≡ before ++ Bad ∷ rest
        → Each (λ line. line ≢ Bad) before → first_bad bytes ≡ Some (length before + 1) }
{}

/// The lines of some bytes, by how they are written: a line and a line feed, or a carriage return
/// and a line feed, are that line and the lines behind; bytes with no line feed are one line, and
/// no bytes are none.
pub fn law_of_lines()
    ensures ended { (line rest : List ℕ) → Each (λ byte. byte ≢ line_feed) line
        → slice_index line (length line - 1) ≢ carriage_return
        → lines (line ++ line_feed ∷ rest) ≡ line ∷ lines rest }
    ensures with_return { (line rest : List ℕ) → Each (λ byte. byte ≢ line_feed) line
        → lines (line ++ carriage_return ∷ line_feed ∷ rest) ≡ line ∷ lines rest }
    ensures last { (line : List ℕ) → Each (λ byte. byte ≢ line_feed) line → 0 < length line
        → lines line ≡ line ∷ [] }
    ensures nothing { lines [] ≡ [] }
{}

/// A line is an item, and it asks for nothing, exactly where it is no longer than 128 bytes and its
/// fields are written so.
pub fn law_of_items()
    ensures item { (line : List ℕ) (item : RecordItem) → length line ≤ line_limit
        → IsWritten item (fields line) → line_of line ≡ Read item }
    ensures only_items { (line : List ℕ) (item : RecordItem) → line_of line ≡ Read item
        → (length line ≤ line_limit) × IsWritten item (fields line) }
    ensures nothing { (line : List ℕ) → length line ≤ line_limit → AsksNothing (fields line)
        → line_of line ≡ Nothing }
    ensures only_nothing { (line : List ℕ) → line_of line ≡ Nothing
        → (length line ≤ line_limit) × AsksNothing (fields line) }
{}

/// The fields of a line, by how it is written: a blank in front changes nothing; bytes up to a
/// blank, or to the end, are a field.
pub fn law_of_line_fields()
    ensures blank { (byte : ℕ) (line : List ℕ) → is_blank byte ≡ true
        → fields (byte ∷ line) ≡ fields line }
    ensures field { (field line : List ℕ) (byte : ℕ) → Each (λ b. is_blank b ≡ false) field
        → 0 < length field → is_blank byte ≡ true
        → fields (field ++ byte ∷ line) ≡ field ∷ fields line }
    ensures last { (field : List ℕ) → Each (λ b. is_blank b ≡ false) field → 0 < length field
        → fields field ≡ field ∷ [] }
    ensures nothing { fields [] ≡ [] }
{}
