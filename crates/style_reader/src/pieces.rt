//! A text parted at a code.

ghost use Rattle.std.specs.Prelude.{◌≡◌, ◌<◌, length, option_copied, position, false, IfSome, MatchOption};
ghost use Rattle.std.specs.List.{list_any, slice_split};
ghost use Rattle.style_reader.specs.devices.Views.{IsParted, is_code, pieces_from};

/// What stands before the first such code, and what stands behind it. None where it stands nowhere.
pub fn split_at_code(text: &[u16], sought: u16) -> Option<(&[u16], &[u16])>
    ensures pieces { MatchOption result (list_any (is_code sought) text.now ≡ false)
        (λ found. IsParted (is_code sought) text.now found.0.now found.1.now) }
    ensures shorter { IfSome result (λ found. length found.1.now < length text.now) }
{
    let place = place_of(text, sought)?;
    Some((&text[..place], &text[place + 1..]))
}

/// What stands before the first such code, or all of a text without one, and what stands behind it.
pub fn first_piece(text: &[u16], sought: u16) -> (&[u16], Option<&[u16]>)
    ensures pieces { slice_split (is_code sought) text.now
        ≡ pieces_from (is_code sought) result.0.now (option_copied result.1) }
    ensures shorter { IfSome result.1 (λ more. length more.now < length text.now) }
{
    match split_at_code(text, sought) {
        Some((piece, more)) => (piece, Some(more)),
        None => (text, None),
    }
}

fn place_of(text: &[u16], sought: u16) -> Option<usize>
    ensures { result ≡ position (is_code sought) text.now }
{
    text.iter().position(|code| *code == sought)
}
