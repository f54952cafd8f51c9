//! Bytes that are cut where one byte stands.

ghost use Rattle.std.specs.Prelude.{◌≡◌, ◌<◌, ◌==◌, [], ◌∷◌, length, position, IfSome, MatchOption};
ghost use Rattle.std.specs.List.{slice_split};

/// What stands before the first such byte, and what stands behind it. None where there is no such byte.
pub fn cut_at(byte: u8, bytes: &[u8]) -> Option<(&[u8], &[u8])>
    ensures cut { MatchOption result
        (slice_split (λ other. other == byte) bytes.now ≡ bytes.now ∷ [])
        (λ found. slice_split (λ other. other == byte) bytes.now
        ≡ found.0.now ∷ slice_split (λ other. other == byte) found.1.now) }
    ensures shorter { IfSome result (λ found. length found.1.now < length bytes.now) }
{
    let place = place_of(byte, bytes)?;
    Some((&bytes[..place], &bytes[place + 1..]))
}

// The first place of a byte.
fn place_of(byte: u8, bytes: &[u8]) -> Option<usize>
    ensures { result ≡ position (λ other. other == byte) bytes.now }
{
    bytes.iter().position(|other| *other == byte)
}
