//! What the definitions of kept areas say together. The function is a law: its contract is what it
//! is for, and it does nothing when it runs.

ghost use Rattle.std.specs.Prelude.{◌≡◌, ℕ, List, [], All, length};
ghost use Rattle.receiver_core.specs.Outputs.{Piece};
ghost use Rattle.bml_bytes.specs.Areas.{area_length};
ghost use Rattle.replay_run.specs.Kept.{area_after, area_of_kept, kept_behind, stores};

/// Behind pieces whose areas are as long as an area is, what is kept is the area behind the last of
/// them. Where no piece changes the area, nothing is stored.
pub fn law_of_kept_areas()
    ensures last { (kept : List ℕ) (pieces : List Piece)
        → All (λ (piece : Piece). length piece.area ≡ area_length) pieces
        → area_of_kept (kept_behind kept (stores (area_of_kept kept) pieces))
        ≡ area_after (area_of_kept kept) pieces }
    ensures none { (area : List ℕ) (pieces : List Piece)
        → All (λ (piece : Piece). piece.area ≡ area) pieces → stores area pieces ≡ [] }
{}
