//! Heights: how deep nodes are nested, where more than 64 levels count as 65.

ghost use Rattle.std.specs.Prelude.{◌≡◌, ◌+◌, max, min};

/// One level more.
pub fn deeper(height: u8) -> u8
    ensures { result ≡ min 65 (height + 1) }
{
    if height < 64 { height + 1 } else { 65 }
}

/// The greater one of two heights.
pub fn higher(one: u8, other: u8) -> u8
    ensures { result ≡ max one other }
{
    if one < other { other } else { one }
}
