//! Groups of keys.

ghost use Rattle.std.specs.Prelude.{◌≡◌, ◌≤◌, ◌<◌, [], ◌∷◌, length, position, MatchOption, IfSome, if◌then◌else◌};
ghost use Rattle.std.specs.List.{join_with_byte};
ghost use Rattle.style_reader.specs.Characters.{is_white as spec_is_white};
ghost use Rattle.style_reader.specs.Values.{group_words, key_groups as spec_key_groups, words_of};

use crate::characters::{is_white, without_white_front};
use crate::properties::StyleValue;
use bml_bytes::is_word_in_any_case;

/// The groups that the words of a text name, at least one, in any order. The text is read once.
pub fn key_groups(text: &[u16]) -> Option<StyleValue>
    ensures { result ≡ spec_key_groups (words_of text.now) }
{
    let mut some = false;
    let mut basic = false;
    let mut data_button = false;
    let mut numeric_tuning = false;
    let mut rest = text;
    'words: while let Some((word, more)) = next_word(rest) {
        let is_basic = is_word_in_any_case(word, "basic");
        let is_data_button = is_word_in_any_case(word, "data-button");
        let is_numeric_tuning = is_word_in_any_case(word, "numeric-tuning");
        if !(is_basic | is_data_button | is_numeric_tuning) {
            return None;
        }
        some = true;
        basic |= is_basic;
        data_button |= is_data_button;
        numeric_tuning |= is_numeric_tuning;
        rest = more;
    }
    if !some {
        return None;
    }
    let groups = group_if(basic, 1) + (group_if(data_button, 2) + group_if(numeric_tuning, 4));
    Some(StyleValue::Keys(groups))
}

/// The words of the groups, in the order of their numbers.
pub fn group_text(groups: u8) -> &'static str
    requires some { 1 ≤ groups }
    requires most { groups ≤ 7 }
    ensures { result.now ≡ join_with_byte 32 (group_words groups) }
{
    match groups {
        1 => "basic",
        2 => "data-button",
        3 => "basic data-button",
        4 => "numeric-tuning",
        5 => "basic numeric-tuning",
        6 => "data-button numeric-tuning",
        7 => "basic data-button numeric-tuning",
        _ => unreachable!(),
    }
}

// The group, where it is named, and else 0.
fn group_if(named: bool, group: u8) -> u8
    ensures value { result ≡ (if named then group else 0) }
    ensures small { result ≤ group }
{
    if named { group } else { 0 }
}

/// The first word of a text, parted by white, and what stands behind it. None where it has none.
pub fn next_word(text: &[u16]) -> Option<(&[u16], &[u16])>
    ensures first { MatchOption result (words_of text.now ≡ [])
        (λ found. words_of text.now ≡ found.0.now ∷ words_of found.1.now) }
    ensures shorter { IfSome result (λ found. length found.1.now < length text.now) }
{
    let text = without_white_front(text);
    if text.is_empty() {
        return None;
    }
    match place_of_white(text) {
        Some(end) => Some((&text[..end], &text[end + 1..])),
        None => Some((text, &text[text.len()..])),
    }
}

fn place_of_white(text: &[u16]) -> Option<usize>
    ensures { result ≡ position spec_is_white text.now }
{
    text.iter().position(|code| is_white(*code))
}
