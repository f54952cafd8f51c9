//! Lines of bytes.

ghost use Rattle.std.specs.Prelude.{◌≡◌, ◌≤◌, ◌+◌, ◌∷◌, [], length, drop, option_copied, IfSome, None};
ghost use Rattle.std.specs.Option.{option_map_or};
ghost use Rattle.multipart_entities.specs.Lines.{lines_of};

use crate::bytes::behind_first;

/// The first line of some bytes, and what stands behind the CR LF that ends it: None where nothing
/// ends it, so that it is the last one.
pub fn next_line(bytes: &[u8]) -> (&[u8], Option<&[u8]>)
    ensures lines { lines_of bytes.now
        ≡ result.0.now ∷ option_map_or lines_of (option_copied result.1) [] }
    ensures size { IfSome (option_copied result.1) (λ rest. length result.0.now + 2 + length rest
        ≡ length bytes.now) }
    ensures rest { IfSome (option_copied result.1) (λ rest. rest
        ≡ drop (length result.0.now + 2) bytes.now) }
    ensures last { option_copied result.1 ≡ None → result.0.now ≡ bytes.now }
    ensures bound { length result.0.now ≤ length bytes.now }
{
    match behind_first(b"\r\n", bytes) {
        Some(rest) => (&bytes[..bytes.len() - rest.len() - 2], Some(rest)),
        None => (bytes, None),
    }
}
