//! What the definitions of this crate say together. Each function is a law: its contract is what it
//! is for, and it does nothing when it runs.

ghost use Rattle.std.specs.Prelude.{◌≡◌, ◌≢◌, ◌+◌, ◌∷◌, ◌++◌, [], ℕ, true, false, List, None, All, length, codes as ascii};
ghost use Rattle.std.specs.List.{join_by};
ghost use Rattle.multipart_entities.specs.Boundaries.{delimiter_at, placed_delimiters};
ghost use Rattle.multipart_entities.specs.Lines.{behind_first, line_then, lines_of};

/// The lines of some bytes with CR LF between them are these bytes, and in no line stands CR LF.
pub fn law_of_lines()
    ensures joined { (bytes : List ℕ)
        → join_by (λ line. line) (13 ∷ 10 ∷ []) (lines_of bytes) ≡ bytes }
    ensures apart { (bytes : List ℕ)
        → All (λ line. (before behind : List ℕ)
        → line ≢ before ++ 13 ∷ 10 ∷ behind) (lines_of bytes) }
{}

/// A line and what stands behind the CR LF that ends it have the lines of the one and of the other, whatever they are.
/// Bytes without CR are one line.
pub fn law_of_ended_lines()
    ensures both { (line rest : List ℕ)
        → lines_of (line_then line rest) ≡ lines_of line ++ lines_of rest }
    ensures one { (line : List ℕ)
        → All (λ byte. byte ≢ 13) line → lines_of line ≡ line ∷ [] }
{}

/// So have they the delimiter lines of the one and of the other. None stands in bytes in which `--` and the boundary
/// don't stand; and these are a delimiter line by themselves, and with `--` behind them the last one.
pub fn law_of_delimiters()
    ensures both { (boundary line rest : List ℕ) (place : ℕ)
        → placed_delimiters boundary place (line_then line rest)
        ≡ placed_delimiters boundary place line
        ++ placed_delimiters boundary (place + length line + 2) rest }
    ensures none { (boundary bytes : List ℕ) (place : ℕ)
        → behind_first (ascii "--" ++ boundary) bytes ≡ None
        → placed_delimiters boundary place bytes ≡ [] }
    ensures inner { (boundary : List ℕ) (place : ℕ) → All (λ byte. byte ≢ 13) boundary
        → placed_delimiters boundary place (ascii "--" ++ boundary)
        ≡ delimiter_at (record { place = place; line = ascii "--" ++ boundary }) false ∷ [] }
    ensures last { (boundary : List ℕ) (place : ℕ) → All (λ byte. byte ≢ 13) boundary
        → placed_delimiters boundary place (ascii "--" ++ (boundary ++ ascii "--"))
        ≡ delimiter_at (record { place = place; line = ascii "--" ++ (boundary ++ ascii "--") })
        true ∷ [] }
{}
