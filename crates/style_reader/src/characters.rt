//! The characters of a style's text.

ghost use Rattle.std.specs.Prelude.{◌≡◌, ◌≤◌, length};
ghost use Rattle.std.specs.List.{list_all};
ghost use Rattle.bml_bytes.specs.Numerals.{is_decimal_digit};
ghost use Rattle.style_reader.specs.Characters.{is_letter as spec_is_letter, is_name as spec_is_name, is_name_code as spec_is_name_code, is_name_start as spec_is_name_start, is_white as spec_is_white, trimmed as spec_trimmed, without_white_end, without_white_front as spec_without_white_front};

/// How many codes are tested at once.
pub const BLOCK: usize = 64;

/// Space, tab, line feed, carriage return.
#[tactic(auto, unfolding(crate::specs::Characters::is_white))]
pub fn is_white(code: u16) -> bool
    ensures { result ≡ spec_is_white code }
{
    (code == 0x20) | (code == 0x09) | (code == 0x0A) | (code == 0x0D)
}

/// Whether the text is a name in a selector.
pub fn is_name(text: &[u16]) -> bool
    ensures { result ≡ spec_is_name text.now }
{
    match text.split_first() {
        Some((first, more)) => { is_name_start(*first) && are_name_codes(more) }
        None => false,
    }
}

/// The text without the white at its front.
pub fn without_white_front(text: &[u16]) -> &[u16]
    ensures text { result.now ≡ spec_without_white_front text.now }
    ensures bound { length result.now ≤ length text.now }
{
    let mut rest = behind_white_blocks(text);
    'front: while let Some((first, more)) = rest.split_first() {
        if !is_white(*first) {
            return rest;
        }
        rest = more;
    }
    rest
}

/// The text without the white at both ends.
pub fn trimmed(text: &[u16]) -> &[u16]
    ensures { result.now ≡ spec_trimmed text.now }
{
    let mut rest = before_white_blocks(without_white_front(text));
    'end: while let Some((last, fewer)) = rest.split_last() {
        if !is_white(*last) {
            return rest;
        }
        rest = fewer;
    }
    rest
}

// The text behind the blocks of white at its front.
fn behind_white_blocks(text: &[u16]) -> &[u16]
    ensures text { spec_without_white_front result.now ≡ spec_without_white_front text.now }
    ensures bound { length result.now ≤ length text.now }
{
    let mut rest = text;
    'white: while let Some((block, more)) = rest.split_first_chunk::<BLOCK>() {
        if !is_white(block[0]) || !is_all_white(block) {
            return rest;
        }
        rest = more;
    }
    rest
}

// The text before the blocks of white at its end.
fn before_white_blocks(text: &[u16]) -> &[u16]
    ensures { without_white_end result.now ≡ without_white_end text.now }
{
    let mut rest = text;
    'white: while let Some((fewer, block)) = rest.split_last_chunk::<BLOCK>() {
        if !is_white(block[BLOCK - 1]) || !is_all_white(block) {
            return rest;
        }
        rest = fewer;
    }
    rest
}

// Whether a block is white. Each code is tested, so that many can be tested at once.
fn is_all_white(block: &[u16; BLOCK]) -> bool
    ensures { result ≡ list_all spec_is_white block.now }
{
    let mut all = true;
    'codes: for code in block {
        all &= is_white(*code);
    }
    all
}

fn are_name_codes(text: &[u16]) -> bool
    ensures { result ≡ list_all spec_is_name_code text.now }
{
    text.iter().all(|code| is_name_code(*code))
}

#[tactic(auto, unfolding(crate::specs::Characters::is_name_start))]
fn is_name_start(code: u16) -> bool
    ensures { result ≡ spec_is_name_start code }
{
    is_letter(code) || code == 0x5F
}

#[tactic(auto, unfolding(crate::specs::Characters::is_name_code))]
fn is_name_code(code: u16) -> bool
    ensures { result ≡ spec_is_name_code code }
{
    is_name_start(code) || is_digit(code) || code == 0x2D
}

#[tactic(auto, unfolding(crate::specs::Characters::is_letter))]
fn is_letter(code: u16) -> bool
    ensures { result ≡ spec_is_letter code }
{
    (0x41..=0x5A).contains(&code) || (0x61..=0x7A).contains(&code)
}

fn is_digit(code: u16) -> bool
    ensures { result ≡ is_decimal_digit code }
{
    (0x30..=0x39).contains(&code)
}
