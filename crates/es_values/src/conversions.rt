//! Conversions of values over a heap, and the operators `+`, `==` and `<` of values.

ghost use Rattle.std.specs.Prelude.{◌≡◌, ◌<◌, ◌++◌, codes, length, IfOk, OnOk};
ghost use Rattle.es_values.specs.Heaps.{IsLive, object_at};
ghost use Rattle.es_values.specs.Conversions.{join_of, number_of, number_of_truth as spec_number_of_truth, object_text, text_of};
ghost use Rattle.es_values.specs.Operators.{addition_of, adds_texts as spec_adds_texts, equality_of_reduced as spec_equality_of_reduced, equality_of_unlike as spec_equality_of_unlike, is_equal, is_textual as spec_is_textual, order_of, order_of_numbers as spec_order_of_numbers, reduced as spec_reduced};

use crate::heaps::Heap;
use crate::numbers::Num;
use crate::numerals::number_of_text;
use crate::texts::{plain_length, push_plain_text, push_word};
use crate::values::Value;
use bml_bytes::{NoMemory, Text};
use std::cmp::Ordering;

impl Heap {
    /// The text of a value: of an array its elements' texts with commas between them, of another object
    /// `[object Object]`. (ToString, ECMA-262 second edition, 9.8.)
    pub fn to_text(&self, value: &Value) -> Result<Text, NoMemory>
        requires { IsLive self.now value.now }
        ensures { IfOk result (λ text. text ≡ text_of self.now value.now) }
    {
        if let Value::Str(text) = value {
            return text.share();
        }
        let alloc = self.allocator();
        let mut codes = Vec::with_capacity(alloc, plain_length(value))?;
        self.push_text(value, &mut codes)?;
        // Only the text of an array hasn't exactly the room that it was given.
        codes.shrink_to_fit();
        Text::of_vec(codes)
    }

    /// The number of a value: of objects, functions and host references that of their text. (ToNumber,
    /// 9.3.)
    pub fn to_number(&self, value: &Value) -> Result<Num, NoMemory>
        requires { IsLive self.now value.now }
        ensures { IfOk result (λ number. number ≡ number_of self.now value.now) }
    {
        match value {
            Value::Undefined => Ok(Num::NotANumber),
            Value::Null => Ok(Num::Whole(0)),
            Value::Bool(truth) => Ok(number_of_truth(*truth)),
            Value::Number(number) => Ok(*number),
            Value::Str(text) => Ok(number_of_text(text.codes())),
            Value::Object(_) | Value::Function(_) | Value::Host(_) => {
                let text = self.to_text(value)?;
                Ok(number_of_text(text.codes()))
            }
        }
    }

    /// An array's elements' texts with a separator between them, where Undefined, Null and missing
    /// elements give no codes and elements that are objects `[object Object]`; nothing of an object that
    /// is no array. (15.4.4.3.)
    pub fn join(&self, object: u64, separator: &Text) -> Result<Text, NoMemory>
        requires { object < length self.now }
        ensures { IfOk result (λ text. text ≡ join_of (object_at self.now object) separator.now) }
    {
        let alloc = self.allocator();
        let mut codes = Vec::new(alloc);
        self.object(object)
            .push_joined(separator.codes(), &mut codes)?;
        Text::of_codes(alloc, &codes)
    }

    /// The operator `+`: it joins texts where one side is a text or an object, and else adds numbers.
    /// (11.6.1.)
    pub fn addition(&self, left: &Value, right: &Value) -> Result<Value, NoMemory>
        requires left { IsLive self.now left.now }
        requires right { IsLive self.now right.now }
        ensures { IfOk result (λ value. value ≡ addition_of self.now left.now right.now) }
    {
        if adds_texts(left, right) {
            let alloc = self.allocator();
            let room = plain_length(left).saturating_add(plain_length(right));
            let mut codes = Vec::with_capacity(alloc, room)?;
            self.push_text(left, &mut codes)?;
            self.push_text(right, &mut codes)?;
            // Only with an array on a side is the room not exactly used.
            codes.shrink_to_fit();
            let text = Text::of_vec(codes)?;
            return Ok(Value::Str(text));
        }
        let left = self.to_number(left)?;
        let right = self.to_number(right)?;
        Ok(Value::Number(left.add(right)))
    }

    /// The operator `==`. (11.9.3.)
    pub fn equality(&self, left: &Value, right: &Value) -> Result<bool, NoMemory>
        requires left { IsLive self.now left.now }
        requires right { IsLive self.now right.now }
        ensures { IfOk result (λ equal. equal ≡ is_equal self.now left.now right.now) }
    {
        if let Some(equal) = left.equality_in_kind(right) {
            return Ok(equal);
        }
        let left = self.reduced(left)?;
        let right = self.reduced(right)?;
        Ok(equality_of_reduced(&left, &right))
    }

    /// How the operators `<`, `>`, `<=` and `>=` find two values: two texts by their codes, and others by
    /// their numbers. It is None beside NaN, where each of the operators is false. (11.8.5.)
    pub fn order(&self, left: &Value, right: &Value) -> Result<Option<Ordering>, NoMemory>
        requires left { IsLive self.now left.now }
        requires right { IsLive self.now right.now }
        ensures { IfOk result (λ order. order ≡ order_of self.now left.now right.now) }
    {
        match (left, right) {
            (Value::Str(text), Value::Str(other)) => Ok(Some(text.order(other))),
            _ => {
                let left = self.to_number(left)?;
                let right = self.to_number(right)?;
                Ok(order_of_numbers(left, right))
            }
        }
    }

    // A Bool as its number, and an object as its text.
    fn reduced(&self, value: &Value) -> Result<Value, NoMemory>
        requires { IsLive self.now value.now }
        ensures { IfOk result (λ reduced. reduced ≡ spec_reduced self.now value.now) }
    {
        match value {
            Value::Bool(truth) => Ok(Value::Number(number_of_truth(*truth))),
            Value::Object(_) => {
                let text = self.to_text(value)?;
                Ok(Value::Str(text))
            }
            _ => value.share(),
        }
    }

    // Appends the text of a value.
    fn push_text(&self, value: &Value, out: &mut Vec<u16>) -> Result<(), NoMemory>
        requires { IsLive self.now value.now }
        ensures { OnOk result (out.new.items ≡ out.old.items ++ text_of self.now value.now) }
    {
        match value {
            Value::Object(object) => self.push_object_text(*object, out),
            _ => push_plain_text(value, out),
        }
    }

    fn push_object_text(&self, object: u64, out: &mut Vec<u16>) -> Result<(), NoMemory>
        requires { object < length self.now }
        ensures { OnOk result (out.new.items
            ≡ out.old.items ++ object_text (object_at self.now object)) }
    {
        if self.is_array(object) {
            self.object(object).push_joined(&[COMMA], out)
        } else {
            push_word("[object Object]", out)
        }
    }
}

pub const COMMA: u16 = 0x2C;

fn number_of_truth(truth: bool) -> Num
    ensures { result ≡ spec_number_of_truth truth }
{
    if truth { Num::Whole(1) } else { Num::Whole(0) }
}

fn is_textual(value: &Value) -> bool
    ensures { result ≡ spec_is_textual value.now }
{
    match value {
        Value::Str(_) | Value::Object(_) => true,
        _ => false,
    }
}

pub fn adds_texts(left: &Value, right: &Value) -> bool
    ensures { result ≡ spec_adds_texts left.now right.now }
{
    is_textual(left) || is_textual(right)
}

fn equality_of_reduced(left: &Value, right: &Value) -> bool
    ensures { result ≡ spec_equality_of_reduced left.now right.now }
{
    match left.equality_in_kind(right) {
        Some(equal) => equal,
        None => equality_of_unlike(left, right),
    }
}

fn equality_of_unlike(left: &Value, right: &Value) -> bool
    ensures { result ≡ spec_equality_of_unlike left.now right.now }
{
    match (left, right) {
        (Value::Undefined, Value::Null) => true,
        (Value::Null, Value::Undefined) => true,
        (Value::Number(number), Value::Str(text)) => number.equals(number_of_text(text.codes())),
        (Value::Str(text), Value::Number(number)) => number_of_text(text.codes()).equals(*number),
        _ => false,
    }
}

fn order_of_numbers(left: Num, right: Num) -> Option<Ordering>
    ensures { result ≡ spec_order_of_numbers left right }
{
    if left.is_not_a_number() || right.is_not_a_number() {
        None
    } else if left.is_less_than(right) {
        Some(Ordering::Less)
    } else if right.is_less_than(left) {
        Some(Ordering::Greater)
    } else {
        Some(Ordering::Equal)
    }
}
