//! Random numbers.

ghost use Rattle.std.specs.Prelude.{◌≡◌, ◌<◌, All, IfOk, OnErr};
ghost use Rattle.es_values.specs.Heaps.{IsLive};
ghost use Rattle.browser_objects.specs.Calls.{Answers, draw_up_to, first_word, other_words, draw_random};

use crate::arguments::count_argument;
use crate::effects::{Effect, refusal, whole};
use crate::states::BrowserState;
use bml_bytes::NoMemory;
use es_values::{Heap, Value};
use std::collections::VecDeque;

/// `random(n)`: a number from 1 to n, by the next random word, which is 0 where none is left.
pub fn random(
    state: &mut BrowserState,
    args: &[Value],
    heap: &Heap,
) -> Result<(Value, Effect), NoMemory>
    requires args { All (IsLive heap.now) args.now }
    ensures answers { IfOk result (λ answer. Answers
        (draw_random args.now heap.now state.old) answer state.new) }
    ensures err { OnErr result (state.new ≡ state.old) }
{
    match count_argument(heap, args, 0)? {
        Some(most) => Ok(draw(state, most)),
        None => Ok(refusal()),
    }
}

fn draw(state: &mut BrowserState, most: u32) -> (Value, Effect)
    requires { most < 2147483648 }
    ensures { Answers (draw_up_to most state.old) result state.new }
{
    if most == 0 {
        return refusal();
    }
    let word = next_word(&mut state.random);
    (whole(1 + word % most), Effect::Nothing)
}

fn next_word(words: &mut VecDeque<u32>) -> u32
    ensures word { result ≡ first_word words.old.items }
    ensures rest { words.new.items ≡ other_words words.old.items }
{
    match words.pop_front() {
        Some(word) => word,
        None => 0,
    }
}
