//! What stands at the front and at the end of some bytes.

ghost use Rattle.std.specs.Prelude.{◌≡◌, ◌≤◌, length, option_copied};
ghost use Rattle.std.specs.List.{list_all, prefix_len, suffix_len};
ghost use Rattle.std.specs.Str.{str_eq_ignore_ascii_case};
ghost use Rattle.multipart_entities.specs.Lines.{behind as spec_behind, behind_first as spec_behind_first, is_blank as spec_is_blank, without_blanks as spec_without_blanks};

/// Whether the byte is a blank: a space or a tab.
pub fn is_blank(byte: u8) -> bool
    ensures { result ≡ spec_is_blank byte }
{
    byte == b' ' || byte == b'\t'
}

/// Whether all of the bytes are blanks.
pub fn are_blanks(bytes: &[u8]) -> bool
    ensures { result ≡ list_all spec_is_blank bytes.now }
{
    bytes.iter().all(|byte| is_blank(*byte))
}

/// The bytes without the blanks at both ends.
pub fn without_blanks(bytes: &[u8]) -> &[u8]
    ensures { result.now ≡ spec_without_blanks bytes.now }
{
    let bytes = &bytes[blanks_before(bytes)..];
    &bytes[..bytes.len() - blanks_behind(bytes)]
}

// With how many blanks the bytes begin.
fn blanks_before(bytes: &[u8]) -> usize
    ensures count { result ≡ prefix_len spec_is_blank bytes.now }
    ensures bound { result ≤ length bytes.now }
{
    bytes.iter().take_while(|byte| is_blank(**byte)).count()
}

// With how many blanks the bytes end.
fn blanks_behind(bytes: &[u8]) -> usize
    ensures count { result ≡ suffix_len spec_is_blank bytes.now }
    ensures bound { result ≤ length bytes.now }
{
    bytes
        .iter()
        .rev()
        .take_while(|byte| is_blank(**byte))
        .count()
}

/// Whether two texts are the same without ASCII case.
pub fn is_same_text(a: &[u8], b: &[u8]) -> bool
    ensures { result ≡ str_eq_ignore_ascii_case a.now b.now }
{
    a.eq_ignore_ascii_case(b)
}

/// What stands behind a front of the bytes, and None where they begin otherwise. Both are compared
/// only as far as the shorter one goes.
pub fn behind<'a>(front: &[u8], bytes: &'a [u8]) -> Option<&'a [u8]>
    ensures { option_copied result ≡ spec_behind front.now bytes.now }
{
    if bytes.starts_with(front) {
        Some(&bytes[front.len()..])
    } else {
        None
    }
}

/// What stands behind the first place at which a word stands, and None where there is none.
#[tactic(auto, unfolding(crate::specs::Lines::behind_first))]
pub fn behind_first<'a>(word: &[u8], bytes: &'a [u8]) -> Option<&'a [u8]>
    ensures { option_copied result ≡ spec_behind_first word.now bytes.now }
{
    let mut rest = bytes;
    'places: loop {
        if let Some(found) = behind(word, rest) {
            return Some(found);
        }
        match rest.split_first() {
            Some((_, more)) => rest = more,
            None => return None,
        }
    }
}
