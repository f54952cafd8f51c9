//! Codes, places and parts of texts.

ghost use Rattle.std.specs.Prelude.{◌≡◌, ◌≤◌, ◌+◌, ◌∷◌, [], ℕ, false, filter, nat_le, length, slice_get, option_and_then, IfNone, IfSome};
ghost use Rattle.std.specs.List.{range_with_len};
ghost use Rattle.es_builtins.specs.Texts.{between as spec_between, bound as spec_bound, code_at as spec_code_at, first_place as spec_first_place, is_up_to, last, last_place as spec_last_place, least_place as spec_least_place, number_of_place as spec_number_of_place, place_named as spec_place_named, stands_at as spec_stands_at, substring as spec_substring};

use es_values::Num;

/// The code at the place that a number names: NaN names the first one, and a negative number none.
/// (`charAt` and `charCodeAt`, ECMA-262 second edition, 15.5.4.4 and 15.5.4.5.)
pub fn code_at(text: &[u16], number: Num) -> Option<u16>
    ensures { result ≡ option_and_then (slice_get text.now) (spec_place_named number) }
{
    let place = place_named(number)?;
    text.get(place).copied()
}

fn place_named(number: Num) -> Option<usize>
    ensures { result ≡ spec_place_named number }
{
    match number {
        Num::NotANumber => Some(0),
        Num::Whole(place) => usize::try_from(place).ok(),
    }
}

// The place that a number names, and the first one where it names none.
fn least_place(number: Num) -> usize
    ensures { result ≡ spec_least_place number }
{
    place_named(number).unwrap_or(0)
}

/// The first place at a number or behind it where a text stands in another, and None where there is
/// none. It tries each place. (`indexOf`, 15.5.4.6.)
pub fn first_place(wanted: &[u16], text: &[u16], least: Num) -> Option<usize>
    ensures { result ≡ spec_first_place wanted.now text.now (spec_least_place least) }
{
    let start = least_place(least);
    for place in start..text.len() + 1 {
        if stands_at(wanted, text, place) {
            return Some(place);
        }
    }
    None
}

/// The last place at a number or in front of it where a text stands in another, and None where
/// there is none; NaN is the text's length. It tries each place. (`lastIndexOf`, 15.5.4.7.)
pub fn last_place(wanted: &[u16], text: &[u16], most: Num) -> Option<usize>
    ensures { result ≡ spec_last_place wanted.now text.now most }
{
    let start = last_start(most, text.len())?;
    last_of(wanted, text, start + 1)
}

// The last of the first places, so many of them, where a text stands in another.
fn last_of(wanted: &[u16], text: &[u16], count: usize) -> Option<usize>
    requires { count ≤ length text.now + 1 }
    ensures { result
        ≡ last (filter (spec_stands_at wanted.now text.now) (range_with_len 0 count)) }
{
    for place in (0..count).rev() {
        if stands_at(wanted, text, place) {
            return Some(place);
        }
    }
    None
}

// The greatest place that is asked for, and None where none is.
fn last_start(most: Num, size: usize) -> Option<usize>
    ensures none { IfNone result ((place : ℕ) → is_up_to most size place ≡ false) }
    ensures places { IfSome result (λ start. (place : ℕ) → place ≤ size
        → is_up_to most size place ≡ nat_le place start) }
    ensures within { IfSome result (λ start. start ≤ size) }
{
    match most {
        Num::NotANumber => Some(size),
        Num::Whole(place) => {
            let place = usize::try_from(place).ok()?;
            Some(place.min(size))
        }
    }
}

fn stands_at(wanted: &[u16], text: &[u16], place: usize) -> bool
    requires { place ≤ length text.now }
    ensures { result ≡ spec_stands_at wanted.now text.now place }
{
    text[place..].starts_with(wanted)
}

/// A place as a number, and -1 for none.
pub fn number_of_place(place: Option<usize>) -> Num
    ensures { result ≡ spec_number_of_place place }
{
    match place {
        Some(place) => Num::of_count(place),
        None => Num::Whole(-1),
    }
}

/// What stands between two places, in whichever order they are given; without a second the rest of
/// the text. NaN and what is negative are 0, and what is past the text its length. (`substring`,
/// 15.5.4.9 and 15.5.4.10.)
pub fn substring(text: &[u16], one: Num, other: Option<Num>) -> &[u16]
    ensures { result.now ≡ spec_substring text.now one other }
{
    let size = text.len();
    let one = bound(size, one);
    match other {
        Some(other) => between(text, one, bound(size, other)),
        None => &text[one..],
    }
}

fn bound(size: usize, number: Num) -> usize
    ensures bound { result ≡ spec_bound size number }
    ensures within { result ≤ size }
{
    least_place(number).min(size)
}

fn between(text: &[u16], one: usize, other: usize) -> &[u16]
    requires one { one ≤ length text.now }
    requires other { other ≤ length text.now }
    ensures { result.now ≡ spec_between text.now one other }
{
    if other < one {
        &text[other..one]
    } else {
        &text[one..other]
    }
}
