//! Objects as words: each property is its name and one letter as its value.
//!
//! `U` is Undefined, `N` Null, `T` true, `F` a function, `A` and `O` are the objects 0 and 1, `E`
//! is the empty text, `S` the text ` 1 `, `X` and `Y` are 10 and 17, `i` and `x` the texts `1` and
//! `10`, a digit is its number, and every other letter its own text.

ghost use Rattle.std.specs.Prelude.{◌≡◌, ◌<◌, length, All, IfOk};
ghost use Rattle.es_values.specs.Heaps.{IsLive};

use crate::lines::Line;
use crate::value_words::object_of;
use bml_bytes::{NoMemory, Text};
use es_values::{Heap, Num, Value};

/// The value of a letter.
pub fn letter_value(heap: &Heap, letter: u8) -> Result<Value, NoMemory>
    ensures { IfOk result (λ value. IsLive heap.now value) }
{
    match letter {
        b'U' => Ok(Value::Undefined),
        b'N' => Ok(Value::Null),
        b'T' => Ok(Value::Bool(true)),
        b'F' => Ok(Value::Function(5)),
        b'0'..=b'9' => Ok(Value::Number(Num::of_count(usize::from(letter - b'0')))),
        b'X' => Ok(Value::Number(Num::Whole(10))),
        b'Y' => Ok(Value::Number(Num::Whole(17))),
        b'A' => Ok(object_of(heap, 0)),
        b'O' => Ok(object_of(heap, 1)),
        b'E' => text_value(heap, b""),
        b'S' => text_value(heap, b" 1 "),
        b'i' => text_value(heap, b"1"),
        b'x' => text_value(heap, b"10"),
        _ => text_value(heap, &[letter]),
    }
}

fn text_value(heap: &Heap, bytes: &[u8]) -> Result<Value, NoMemory>
    ensures { IfOk result (λ value. IsLive heap.now value) }
{
    let text = Text::of_bytes(heap.allocator(), bytes)?;
    Ok(Value::Str(text))
}

/// The values of letters.
pub fn letter_values(heap: &Heap, letters: &[u8]) -> Result<Vec<Value>, NoMemory>
    ensures { IfOk result (λ values. All (IsLive heap.now) values.items) }
{
    let mut values = Vec::new(heap.allocator());
    for letter in letters {
        let value = letter_value(heap, *letter)?;
        values.push(value)?;
    }
    Ok(values)
}

/// The letter of a value.
pub fn letter_of(value: &Value) -> u8 {
    match value {
        Value::Undefined => b'U',
        Value::Null => b'N',
        Value::Bool(_) => b'T',
        Value::Function(_) => b'F',
        Value::Object(0) => b'A',
        Value::Object(_) => b'O',
        Value::Number(Num::Whole(10)) => b'X',
        Value::Number(Num::Whole(number)) => b'0' + (number.unsigned_abs() % 10) as u8,
        Value::Str(text) => letter_of_text(text.codes()),
        _ => b'?',
    }
}

fn letter_of_text(codes: &[u16]) -> u8 {
    match codes {
        [] => b'E',
        [0x31] => b'i',
        [code] => (*code % 256) as u8,
        _ => b'x',
    }
}

/// Adds an object, or an array, with the properties of these words.
pub fn add_object(heap: &mut Heap, array: bool, words: &[u8]) -> Result<u64, NoMemory> {
    let object = heap.add(array)?;
    for word in words.split(|code| *code == b' ') {
        if object < heap.len() {
            put_word(heap, object, word)?;
        }
    }
    Ok(object)
}

/// Puts the property of a word.
pub fn put_word(heap: &mut Heap, object: u64, word: &[u8]) -> Result<(), NoMemory>
    requires { object < length heap.old }
    ensures { length heap.new ≡ length heap.old }
{
    if let Some((letter, name)) = word.split_last() {
        let name = Text::of_bytes(heap.allocator(), name)?;
        let value = letter_value(heap, *letter)?;
        heap.put(object, &name, value)?;
    }
    Ok(())
}

/// Appends the words of an object's properties, each with a blank behind it.
pub fn push_words(heap: &Heap, object: u64, out: &mut Line)
    requires { object < length heap.now }
{
    match heap.names(object) {
        Ok(names) => push_properties(heap, object, &names, out),
        Err(NoMemory) => out.fail(),
    }
}

fn push_properties(heap: &Heap, object: u64, names: &[Text], out: &mut Line)
    requires { object < length heap.now }
{
    for name in names {
        out.text(name);
        push_letter(heap, object, name, out);
        out.byte(b' ');
    }
}

/// Appends the letter of the value of an object's property.
pub fn push_letter(heap: &Heap, object: u64, name: &Text, out: &mut Line)
    requires { object < length heap.now }
{
    match heap.get(object, name) {
        Ok(value) => out.byte(letter_of(&value)),
        Err(NoMemory) => out.fail(),
    }
}
