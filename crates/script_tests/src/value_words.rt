//! Values as words.
//!
//! A value is `#` and a number, `"` and a text, `@` and an object's number, `F` and a function's
//! number, or a letter: `U` for Undefined, `N` for Null, `t` and `f` for a Bool, `D` for the
//! document, and `1` and `2` for two nodes. In what is told, `H` is a host reference but the
//! document, a code that isn't printed in ASCII is its number in braces, and an object is shown
//! with its text, an array with its length in front of it.

ghost use Rattle.std.specs.Prelude.{◌≡◌, ◌<◌, length, All, IfOk, OnOk};
ghost use Rattle.es_values.specs.Heaps.{IsLive};

use crate::lines::Line;
use bml_bytes::{NoMemory, Text};
use es_values::{Heap, HostRef, Num, Value, number_of_text};

/// The values of words with `|` between them.
pub fn values_of(heap: &Heap, words: &[u8]) -> Result<Vec<Value>, NoMemory>
    ensures { IfOk result (λ values. All (IsLive heap.now) values.items) }
{
    let mut values = Vec::new(heap.allocator());
    if words.is_empty() {
        return Ok(values);
    }
    push_values(heap, words, &mut values)?;
    Ok(values)
}

fn push_values(heap: &Heap, words: &[u8], values: &mut Vec<Value>) -> Result<(), NoMemory>
    requires { All (IsLive heap.now) values.old.items }
    ensures { OnOk result (All (IsLive heap.now) values.new.items) }
{
    for word in words.split(|byte| *byte == b'|') {
        values.push(value_of(heap, word)?)?;
    }
    Ok(())
}

/// The value of a word.
pub fn value_of(heap: &Heap, word: &[u8]) -> Result<Value, NoMemory>
    ensures { IfOk result (λ value. IsLive heap.now value) }
{
    let Some((kind, rest)) = word.split_first() else {
        return Ok(Value::Undefined);
    };
    let text = Text::of_bytes(heap.allocator(), rest)?;
    let number = number_of_text(text.codes());
    Ok(match *kind {
        b'#' => Value::Number(number),
        b'"' => Value::Str(text),
        b'@' => object_of(heap, count_of(number)),
        b'F' => Value::Function(count_of(number)),
        b'N' => Value::Null,
        b't' => Value::Bool(true),
        b'f' => Value::Bool(false),
        b'D' => Value::Host(HostRef::Document),
        b'1' => Value::Host(HostRef::Node(1)),
        b'2' => Value::Host(HostRef::Node(2)),
        _ => Value::Undefined,
    })
}

/// The object of a number, and Undefined where there is none.
pub fn object_of(heap: &Heap, object: u64) -> Value
    ensures { IsLive heap.now result }
{
    if object < heap.len() {
        Value::Object(object)
    } else {
        Value::Undefined
    }
}

fn count_of(number: Num) -> u64 {
    match number {
        Num::NotANumber => 1000,
        Num::Whole(whole) => u64::try_from(whole).unwrap_or(1000),
    }
}

/// Appends the word of a value.
pub fn push_value(heap: &Heap, value: &Value, out: &mut Line) {
    match value {
        Value::Undefined => out.byte(b'U'),
        Value::Null => out.byte(b'N'),
        Value::Bool(true) => out.byte(b't'),
        Value::Bool(false) => out.byte(b'f'),
        Value::Number(Num::NotANumber) => out.word(b"#NaN"),
        Value::Number(Num::Whole(whole)) => push_number(b'#', i64::from(*whole), out),
        Value::Str(text) => push_text(text, out),
        Value::Object(object) => push_object(heap, *object, out),
        Value::Function(number) => push_number(b'F', i64::try_from(*number).unwrap_or(-1), out),
        Value::Host(HostRef::Document) => out.byte(b'D'),
        Value::Host(_) => out.byte(b'H'),
    }
}

fn push_object(heap: &Heap, object: u64, out: &mut Line) {
    push_number(b'@', i64::try_from(object).unwrap_or(-1), out);
    if object < heap.len() {
        if let Some(count) = heap.array_length(object) {
            push_number(b':', i64::from(count), out);
        }
        match heap.to_text(&Value::Object(object)) {
            Ok(text) => push_text(&text, out),
            Err(NoMemory) => out.fail(),
        }
    }
}

fn push_text(text: &Text, out: &mut Line) {
    out.byte(b'"');
    push_codes(text, out);
}

/// Appends the codes of a text, those that aren't printed in ASCII as numbers in braces.
pub fn push_codes(text: &Text, out: &mut Line) {
    for code in text.codes() {
        push_code(*code, out);
    }
}

fn push_code(code: u16, out: &mut Line) {
    match u8::try_from(code) {
        Ok(byte) if 32 <= byte && byte < 127 => out.byte(byte),
        _ => {
            push_number(b'{', i64::from(code), out);
            out.byte(b'}');
        }
    }
}

fn push_number(mark: u8, number: i64, out: &mut Line) {
    out.byte(mark);
    out.number(number);
}
