//! Objects and arrays: what stands where after each change.

ghost use Rattle.std.specs.Prelude.{◌≡◌, ◌<◌, length};

use crate::lines::Line;
use crate::object_words::{letter_of, letter_values, push_letter, push_words, put_word};
use bml_bytes::{NoMemory, Text};
use es_values::{Heap, Value, number_of_text};
use std::alloc::Global;

// The properties as words, the letters of the elements, and the length.
fn push_state(heap: &Heap, object: u64, out: &mut Line)
    requires { object < length heap.now }
{
    push_words(heap, object, out);
    out.byte(b'|');
    match heap.elements(object) {
        Ok(elements) => push_letters(&elements, out),
        Err(NoMemory) => out.fail(),
    }
    out.byte(b'|');
    match heap.array_length(object) {
        Some(count) => out.count(u64::from(count)),
        None => out.byte(b'-'),
    }
}

fn push_letters(elements: &[Value], out: &mut Line) {
    for element in elements {
        out.byte(letter_of(element));
    }
}

// Appends what is asked for, and a blank: `?` and a name asks whether there is such a property, `.`
// and a name for its value's letter, `$` for the object's text, and `!` for how it stands.
fn push_answer(heap: &Heap, object: u64, asked: u8, name: &Text, out: &mut Line)
    requires { object < length heap.now }
{
    match asked {
        b'?' => out.word(if heap.has(object, name) {
            b"yes"
        } else {
            b"no"
        }),
        b'.' => push_letter(heap, object, name, out),
        b'$' => push_text(heap, object, out),
        _ => push_state(heap, object, out),
    }
    out.byte(b' ');
}

fn push_text(heap: &Heap, object: u64, out: &mut Line)
    requires { object < length heap.now }
{
    match heap.to_text(&Value::Object(object)) {
        Ok(text) => out.text(&text),
        Err(NoMemory) => out.fail(),
    }
}

// Does what a word says: `=` and letters makes these the first elements, `~` turns them round, `-`
// and a name takes that property away, `#` and a number is put as the length, a word of
// `push_answer` asks, and each other word is a property that is put.
fn act(heap: &mut Heap, object: u64, word: &[u8], out: &mut Line) -> Result<(), NoMemory>
    requires { object < length heap.old }
    ensures { length heap.new ≡ length heap.old }
{
    match word {
        [] => Ok(()),
        [b'=', letters @ ..] => put_elements(heap, object, letters),
        [b'~', ..] => heap.reverse(object),
        [b'#', number @ ..] => put_length(heap, object, number),
        [kind @ (b'-' | b'?' | b'.' | b'$' | b'!'), name @ ..] => {
            let name = Text::of_bytes(heap.allocator(), name)?;
            if *kind == b'-' {
                heap.remove(object, &name);
            } else {
                push_answer(heap, object, *kind, &name, out);
            }
            Ok(())
        }
        property => put_word(heap, object, property),
    }
}

fn put_elements(heap: &mut Heap, object: u64, letters: &[u8]) -> Result<(), NoMemory>
    requires { object < length heap.old }
    ensures { length heap.new ≡ length heap.old }
{
    let elements = letter_values(heap, letters)?;
    heap.set_elements(object, elements)
}

fn put_length(heap: &mut Heap, object: u64, number: &[u8]) -> Result<(), NoMemory>
    requires { object < length heap.old }
    ensures { length heap.new ≡ length heap.old }
{
    let length = Text::of_bytes(heap.allocator(), b"length")?;
    let number = Text::of_bytes(heap.allocator(), number)?;
    heap.put(
        object,
        &length,
        Value::Number(number_of_text(number.codes())),
    )
}

/// Appends what an object answers to words, and how it stands behind them; `+` and letters is an
/// array of these elements, to which the words behind it go.
pub fn push_told(alloc: Global, array: bool, words: &[u8], out: &mut Line) -> Result<(), NoMemory> {
    let mut heap = Heap::new(alloc);
    push_changes(&mut heap, array, words, out)
}

fn push_changes(
    heap: &mut Heap,
    array: bool,
    words: &[u8],
    out: &mut Line,
) -> Result<(), NoMemory> {
    let mut object = heap.add(array)?;
    for word in words.split(|code| *code == b' ') {
        object = behind(heap, object, word, out)?;
    }
    if object < heap.len() {
        push_state(heap, object, out);
    }
    Ok(())
}

// Does what a word says, and gives the object to which the next one goes.
fn behind(heap: &mut Heap, object: u64, word: &[u8], out: &mut Line) -> Result<u64, NoMemory> {
    if let [b'+', letters @ ..] = word {
        let elements = letter_values(heap, letters)?;
        return heap.add_array(elements);
    }
    if object < heap.len() {
        act(heap, object, word, out)?;
    }
    Ok(object)
}
