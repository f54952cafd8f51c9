//! The steps that a script has left, and what conversions and operators are charged.

ghost use Rattle.std.specs.Prelude.{◌≡◌, ◌<◌, ℕ, length, IfOk, OnErr};
ghost use Rattle.es_values.specs.Capped.{capped};
ghost use Rattle.es_values.specs.Charges.{Charges, addition_charge, begun_sixteens as spec_begun_sixteens, conversion_charge, equality_charge, join_charge, order_charge, put_charge};
ghost use Rattle.es_values.specs.Heaps.{IsLive, object_at};

use crate::charges::begun_sixteens;
use crate::heaps::Heap;
use crate::values::Value;
use bml_bytes::{NoMemory, Text};

/// The steps that a script has left. What takes long is charged by its size, 1 step for each sixteen that
/// it begins, and before it is done: where fewer steps are left, none is taken, and the script stops.
#[derive(Clone, Copy, Debug, PartialEq, Eq)]
pub struct Budget {
    pub left: u32,
}

impl Budget {
    /// Takes so many steps, and is false exactly where fewer are left.
    pub fn charge(&mut self, steps: u32) -> bool
        ensures { Charges steps self.old result self.new }
    {
        self.take(u64::from(steps))
    }

    /// Takes a step for each sixteen that a count begins.
    pub fn charge_sixteens(&mut self, count: u64) -> bool
        ensures { Charges (spec_begun_sixteens count) self.old result self.new }
    {
        self.take(begun_sixteens(count))
    }

    /// Takes the steps of a value that becomes a text, or a number by way of its text.
    pub fn charge_conversion(&mut self, heap: &Heap, value: &Value) -> bool
        requires { IsLive heap.now value.now }
        ensures { Charges (conversion_charge heap.now value.now) self.old result self.new }
    {
        self.take(heap.conversion_charge(value))
    }

    /// Takes the steps of a put: of an array's `length` those of the value's conversion and of the
    /// elements that go, and else none. The value is converted only where those of its conversion are
    /// left.
    pub fn charge_put(
        &mut self,
        heap: &Heap,
        object: u64,
        name: &Text,
        value: &Value,
    ) -> Result<bool, NoMemory>
        requires object { object < length heap.now }
        requires value { IsLive heap.now value.now }
        ensures ok { IfOk result (λ taken. Charges (put_charge heap.now object name.now value.now)
            self.old taken self.new) }
        ensures err { OnErr result (self.new ≡ self.old) }
    {
        if !heap.is_array_length(object, name) {
            return Ok(self.take(0));
        }
        let conversion = heap.conversion_charge(value);
        if conversion > u64::from(self.left) {
            return Ok(false);
        }
        let number = heap.to_number(value)?;
        let taken = self.take(conversion + heap.cut_charge(object, number));
        Ok(taken)
    }

    /// Takes the steps of an array's `join`.
    pub fn charge_join(&mut self, heap: &Heap, object: u64, separator: &Text) -> bool
        requires { object < length heap.now }
        ensures { Charges (join_charge (object_at heap.now object) separator.now)
            self.old result self.new }
    {
        self.take(heap.join_charge(object, separator.codes()))
    }

    /// Takes the steps of `+`.
    pub fn charge_addition(&mut self, heap: &Heap, left: &Value, right: &Value) -> bool
        requires left { IsLive heap.now left.now }
        requires right { IsLive heap.now right.now }
        ensures { Charges (addition_charge heap.now left.now right.now) self.old result self.new }
    {
        self.take(heap.addition_charge(left, right))
    }

    /// Takes the steps of `==`.
    pub fn charge_equality(&mut self, heap: &Heap, left: &Value, right: &Value) -> bool
        requires left { IsLive heap.now left.now }
        requires right { IsLive heap.now right.now }
        ensures { Charges (equality_charge heap.now left.now right.now) self.old result self.new }
    {
        self.take(heap.equality_charge(left, right))
    }

    /// Takes the steps of `<` and its kin.
    pub fn charge_order(&mut self, heap: &Heap, left: &Value, right: &Value) -> bool
        requires left { IsLive heap.now left.now }
        requires right { IsLive heap.now right.now }
        ensures { Charges (order_charge heap.now left.now right.now) self.old result self.new }
    {
        self.take(heap.order_charge(left, right))
    }

    // Takes a charge that is exact as far as a budget goes.
    fn take(&mut self, charge: u64) -> bool
        ensures { (exact : ℕ) → capped charge ≡ capped exact
            → Charges exact self.old result self.new }
    {
        if charge > u64::from(self.left) {
            return false;
        }
        self.left -= charge as u32;
        true
    }
}
