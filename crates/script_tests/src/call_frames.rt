//! The frames of calls, one operation after the other.

use crate::lines::Line;
use bml_bytes::{NoMemory, read_decimal};
use es_frames::{Frames, MOST_CALLS};
use es_values::{Num, Value};
use std::alloc::Global;

fn number_value(number: u32) -> Value {
    Value::Number(Num::of_count(number as usize))
}

// Appends a whole number, `U` for another value, and `-` for none.
fn push_value(value: Option<&Value>, out: &mut Line) {
    match value {
        Some(Value::Number(Num::Whole(whole))) => out.number(i64::from(*whole)),
        Some(_) => out.byte(b'U'),
        None => out.byte(b'-'),
    }
}

// Appends a place or an item, and `-` for none.
fn push_number(number: Option<u32>, out: &mut Line) {
    match number {
        Some(number) => out.count(u64::from(number)),
        None => out.byte(b'-'),
    }
}

// Adds a frame with two values.
fn call(frames: &mut Frames<u32>, this: u32) -> Result<(), NoMemory> {
    if frames.depth() <= MOST_CALLS {
        frames.push(2, number_value(this))?;
    }
    Ok(())
}

fn put(frames: &mut Frames<u32>, item: u32) -> Result<(), NoMemory> {
    if frames.depth() > 0 {
        frames.put(item)?;
    }
    Ok(())
}

// Appends whether a place was given the value.
fn set(frames: &mut Frames<u32>, place: u32, number: u32, out: &mut Line) {
    let there = frames.set_slot(place, number_value(number));
    out.word(if there { b"yes" } else { b"no" });
}

// Does what a word says: `c` and a `this` is a call, which adds a frame, and `r` takes it; `p` and
// an item puts it, and `t` takes one; `s` and `z`, each with a number, give the places 1 and 2
// another value. Appends what is asked for: `d` for the depth, `h` for the `this`, `v` and a place
// for its value.
fn act(frames: &mut Frames<u32>, word: &[u8], out: &mut Line) -> Result<(), NoMemory> {
    let Some((kind, rest)) = word.split_first() else {
        return Ok(());
    };
    let number = read_decimal(rest).unwrap_or(0);
    match *kind {
        b'c' => call(frames, number),
        b'p' => put(frames, number),
        _ => {
            answer(frames, *kind, number, out);
            Ok(())
        }
    }
}

// Does what takes no memory.
fn answer(frames: &mut Frames<u32>, kind: u8, number: u32, out: &mut Line) {
    match kind {
        b'r' => push_value(frames.pop().as_ref(), out),
        b't' => push_number(frames.take(), out),
        b's' => set(frames, 1, number, out),
        b'z' => set(frames, 2, number, out),
        b'd' => out.count(u64::from(frames.depth())),
        b'h' => push_value(frames.this(), out),
        _ => push_value(frames.slot(number), out),
    }
}

/// Appends what frames answer to words.
pub fn push_told(alloc: Global, words: &[u8], out: &mut Line) -> Result<(), NoMemory> {
    let mut frames = Frames::new(alloc);
    push_acts(&mut frames, words, out)
}

fn push_acts(frames: &mut Frames<u32>, words: &[u8], out: &mut Line) -> Result<(), NoMemory> {
    for word in words.split(|code| *code == b' ') {
        let before = out.told().len();
        act(frames, word, out)?;
        if out.told().len() > before {
            out.byte(b' ');
        }
    }
    Ok(())
}
