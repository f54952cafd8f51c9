//! Places of a separator in a text, found in a time that is linear in both. `split` is charged for
//! the text alone, which doesn't pay for trying the whole separator at each place.

ghost use Rattle.std.specs.Prelude.{◌≡◌, ◌+◌, ◌-◌, ◌<◌, ◌≤◌, ◌^◌, nat_lt, length, if◌then◌else◌, IfOk, IfSome};
ghost use Rattle.es_builtins.specs.Fronts.{AreFronts, IsWindow, common_front as spec_common_front, front_at as spec_front_at};
ghost use Rattle.es_builtins.specs.Texts.{first_place};

use bml_bytes::NoMemory;
use std::alloc::Global;

// What is known of a text that is searched: from `start` to `end` it is the front of what is
// wanted.
#[derive(Clone, Copy)]
struct Window {
    start: usize,
    end: usize,
}

impl Window {
    // The window that reaches further, where a front of that size stands at a place.
    fn or_at(self, place: usize, size: usize) -> Window
        requires { place + size < 2 ^ 64 }
        ensures { result ≡ (if nat_lt self.end (place + size)
            then record { start = place; end = place + size } else self) }
    {
        if self.end < place + size {
            Window {
                start: place,
                end: place + size,
            }
        } else {
            self
        }
    }
}

/// For each place of a text how far its own front stands there.
pub fn fronts_of(alloc: Global, wanted: &[u16]) -> Result<Vec<usize>, NoMemory>
    requires some { 0 < length wanted.now }
    ensures fronts { IfOk result (λ fronts. AreFronts wanted.now fronts.items) }
    ensures all { IfOk result (λ fronts. length wanted.now ≤ length fronts.items) }
{
    let mut fronts = Vec::with_capacity(alloc, wanted.len())?;
    fronts.push(wanted.len())?;
    let mut window = Window { start: 1, end: 1 };
    for place in 1..wanted.len() {
        let size = front_at(wanted, &fronts, wanted, place, window);
        fronts.push(size)?;
        window = window.or_at(place, size);
    }
    Ok(fronts)
}

/// The first place where a text, of which [`fronts_of`] gave the fronts, stands in another, and
/// None where there is none. It compares at most twice as many codes as the other text has.
pub fn separator_place(wanted: &[u16], fronts: &[usize], text: &[u16]) -> Option<usize>
    requires some { 0 < length wanted.now }
    requires fronts { AreFronts wanted.now fronts.now }
    requires all { length wanted.now ≤ length fronts.now }
    ensures place { result ≡ first_place wanted.now text.now 0 }
    ensures within { IfSome result (λ place. place + length wanted.now ≤ length text.now) }
{
    let mut window = Window { start: 0, end: 0 };
    for place in 0..text.len() {
        let size = front_at(wanted, fronts, text, place, window);
        if size == wanted.len() {
            return Some(place);
        }
        window = window.or_at(place, size);
    }
    None
}

// How far the front of the wanted text stands at a place, from what is known of the text.
#[tactic(auto, using(crate::proofs::FrontLemmas::known_within))]
fn front_at(wanted: &[u16], fronts: &[usize], text: &[u16], place: usize, window: Window) -> usize
    requires fronts { AreFronts wanted.now fronts.now }
    requires window { IsWindow wanted.now text.now window.start window.end }
    requires place { place ≤ length text.now }
    requires behind { window.start ≤ place }
    requires known { place < window.end → place - window.start < length fronts.now }
    ensures { result ≡ spec_front_at wanted.now text.now place }
{
    if place >= window.end {
        return common_front(wanted, &text[place..]);
    }
    let known = fronts[place - window.start];
    let seen = window.end - place;
    if known < seen {
        return known;
    }
    seen + common_front(&wanted[seen..], &text[window.end..])
}

// How many codes two texts have in common at their fronts.
fn common_front(one: &[u16], other: &[u16]) -> usize
    ensures { result ≡ spec_common_front one.now other.now }
{
    one.iter()
        .zip(other)
        .take_while(|(code, other)| code == other)
        .count()
}
