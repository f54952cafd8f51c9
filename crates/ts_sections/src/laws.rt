//! Laws of the definitions, each the contract of a function with an empty body.
ghost use Rattle.std.specs.Prelude.{◌≡◌, ℕ, true, List, [], ◌∷◌, ◌++◌, take, drop, replicate, All, if◌then◌else◌};
ghost use Rattle.std.specs.List.{flat_map};
ghost use Rattle.ts_packets.specs.Packet.{is_readable};
ghost use Rattle.ts_sections.specs.Sections.{sections, completed_by, pieces, pieces_of_run, sections_of_piece, begins_whole, section_size};
ghost use Rattle.ts_sections.specs.Sending.{FollowEachOther, IsSection, marked_piece};

/// A packet behind others takes no section away and changes none: it completes some more, or none.
pub fn sections_only_grow()
    ensures { (packets : List (List ℕ)) (packet : List ℕ)
        → sections (packets ++ packet ∷ []) ≡ sections packets ++ completed_by packets packet }
{}

/// Sections lie end to end: where a whole one begins a piece it is the first, and the others are
/// those of what is behind it; where none does, there is none.
pub fn sections_lie_end_to_end()
    ensures { (piece : List ℕ)
        → sections_of_piece piece ≡ (if begins_whole piece
        then take (section_size piece) piece ∷ sections_of_piece (drop (section_size piece) piece)
        else []) }
{}

/// Packets that are all read, each following the one before it, are one run: none is left out, and
/// their sections are those of the run's pieces.
pub fn packets_in_one_run()
    ensures { (packets : List (List ℕ)) → All (λ packet. is_readable packet ≡ true) packets
        → FollowEachOther packets
        → sections packets ≡ flat_map sections_of_piece (pieces_of_run packets) }
{}

/// Pieces laid out with a mark before each are cut into just these pieces.
pub fn pieces_behind_their_marks()
    ensures { (list : List (List ℕ)) → pieces (flat_map marked_piece list) ≡ list }
{}

/// A section with stuffing behind it, however much, is the one section of its piece.
pub fn section_before_stuffing()
    ensures { (section : List ℕ) (count : ℕ) → IsSection section
        → sections_of_piece (section ++ replicate count 0xFF) ≡ section ∷ [] }
{}
