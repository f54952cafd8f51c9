//! What conversions and operators are charged, as far as a budget goes. Nothing is converted for it.

ghost use Rattle.std.specs.Prelude.{◌≡◌, ◌<◌, ◌≤◌, ◌^◌, ◌+◌, ℕ, Option, length};
ghost use Rattle.std.specs.Option.{option_map};
ghost use Rattle.es_values.specs.Capped.{capped, saturated};
ghost use Rattle.es_values.specs.Charges.{addition_charge, begun_sixteens as spec_begun_sixteens, charge_of_shorter, conversion_charge, equality_charge, join_charge, order_charge, text_size as spec_text_size};
ghost use Rattle.es_values.specs.Conversions.{text_of};
ghost use Rattle.es_values.specs.Heaps.{IsLive, cut_count, object_at};
ghost use Rattle.es_values.specs.Operators.{reduced};

use crate::conversions::{COMMA, adds_texts};
use crate::heaps::Heap;
use crate::numbers::Num;
use crate::texts::plain_length;
use crate::values::Value;

// The begun sixteens of a count.
pub fn begun_sixteens(count: u64) -> u64
    ensures charge { result ≡ spec_begun_sixteens count }
    ensures small { result ≤ 2 ^ 60 }
{
    count.div_ceil(16)
}

impl Heap {
    pub(crate) fn join_charge(&self, object: u64, separator: &[u16]) -> u64
        requires { object < length self.now }
        ensures charge { capped result
            ≡ capped (join_charge (object_at self.now object) separator.now) }
        ensures small { result ≤ 2 ^ 60 }
    {
        self.object(object).join_charge(separator.len())
    }

    pub(crate) fn conversion_charge(&self, value: &Value) -> u64
        requires { IsLive self.now value.now }
        ensures charge { capped result ≡ capped (conversion_charge self.now value.now) }
        ensures small { result ≤ 2 ^ 60 }
    {
        match value {
            Value::Object(object) => self.join_charge(*object, &[COMMA]),
            _ => 0,
        }
    }

    pub(crate) fn addition_charge(&self, left: &Value, right: &Value) -> u64
        requires left { IsLive self.now left.now }
        requires right { IsLive self.now right.now }
        ensures { capped result ≡ capped (addition_charge self.now left.now right.now) }
    {
        if adds_texts(left, right) {
            self.conversions_charge(left, right) + self.texts_charge(left, right)
        } else {
            0
        }
    }

    pub(crate) fn equality_charge(&self, left: &Value, right: &Value) -> u64
        requires left { IsLive self.now left.now }
        requires right { IsLive self.now right.now }
        ensures { capped result ≡ capped (equality_charge self.now left.now right.now) }
    {
        if left.equality_in_kind(right).is_some() {
            comparison_charge(text_size(left), text_size(right))
        } else {
            self.conversions_charge(left, right)
                + comparison_charge(self.reduced_size(left), self.reduced_size(right))
        }
    }

    pub(crate) fn order_charge(&self, left: &Value, right: &Value) -> u64
        requires left { IsLive self.now left.now }
        requires right { IsLive self.now right.now }
        ensures { capped result ≡ capped (order_charge self.now left.now right.now) }
    {
        let size = text_size(left);
        let other = text_size(right);
        if size.is_some() && other.is_some() {
            comparison_charge(size, other)
        } else {
            self.conversions_charge(left, right)
        }
    }

    // The elements that go with a length.
    pub(crate) fn cut_charge(&self, object: u64, number: Num) -> u64
        requires { object < length self.now }
        ensures charge { result
            ≡ spec_begun_sixteens (cut_count (object_at self.now object) number) }
        ensures small { result ≤ 2 ^ 60 }
    {
        begun_sixteens(self.object(object).cut_count(number) as u64)
    }

    // Two values that become texts or numbers.
    fn conversions_charge(&self, left: &Value, right: &Value) -> u64
        requires left { IsLive self.now left.now }
        requires right { IsLive self.now right.now }
        ensures charge { capped result
            ≡ capped (conversion_charge self.now left.now + conversion_charge self.now right.now) }
        ensures small { result ≤ 2 ^ 61 }
    {
        self.conversion_charge(left) + self.conversion_charge(right)
    }

    // The codes of two texts.
    fn texts_charge(&self, left: &Value, right: &Value) -> u64
        requires left { IsLive self.now left.now }
        requires right { IsLive self.now right.now }
        ensures charge { capped result
            ≡ capped (spec_begun_sixteens
            (length (text_of self.now left.now) + length (text_of self.now right.now))) }
        ensures small { result ≤ 2 ^ 60 }
    {
        let codes = self
            .text_length(left)
            .saturating_add(self.text_length(right));
        begun_sixteens(codes)
    }

    // How many codes the text of a value has.
    fn text_length(&self, value: &Value) -> u64
        requires { IsLive self.now value.now }
        ensures { result ≡ saturated (length (text_of self.now value.now)) }
    {
        match value {
            Value::Object(object) => self.object(*object).text_length(),
            _ => plain_length(value) as u64,
        }
    }

    // How many codes a value has that is a text, once objects became texts.
    fn reduced_size(&self, value: &Value) -> Option<u64>
        requires { IsLive self.now value.now }
        ensures { result ≡ option_map saturated (spec_text_size (reduced self.now value.now)) }
    {
        match value {
            Value::Object(object) => Some(self.object(*object).text_length()),
            _ => text_size(value),
        }
    }
}

// How many codes a text has.
fn text_size(value: &Value) -> Option<u64>
    ensures { result ≡ option_map saturated (spec_text_size value.now) }
{
    match value {
        Value::Str(text) => Some(text.len() as u64),
        _ => None,
    }
}

// The charge of the shorter of two texts.
fn comparison_charge(size: Option<u64>, other: Option<u64>) -> u64
    ensures charge { (exact exact_other : Option ℕ) → size ≡ option_map saturated exact
        → other ≡ option_map saturated exact_other
        → capped result ≡ capped (charge_of_shorter exact exact_other) }
    ensures small { result ≤ 2 ^ 60 }
{
    match size {
        Some(size) => match other {
            Some(other) => begun_sixteens(size.min(other)),
            None => 0,
        },
        None => 0,
    }
}
