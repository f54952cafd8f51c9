//! The steps of a call, which are taken all or none.

ghost use Rattle.std.specs.Prelude.{◌≡◌, ◌<◌, ◌≤◌, ◌*◌, max, length, All};
ghost use Rattle.std.specs.List.{sum_by};
ghost use Rattle.es_values.specs.Charges.{begun_sixteens, conversion_charge, join_charge};
ghost use Rattle.es_values.specs.Heaps.{IsLive, object_at};
ghost use Rattle.es_builtins.specs.Methods.{search_charge, two_charges};
ghost use Rattle.es_builtins.specs.Rows.{argument_charge};
ghost use Rattle.es_builtins.specs.Tills.{Takes};

use bml_bytes::Text;
use es_values::{Budget, Heap, Value};
use std::marker::Model;

/// What is left of a budget while a call is charged for. The budget itself changes only in
/// [`Till::close`], when each charge was there: a call that stops before it has taken nothing.
/// Contracts see the number of steps.
#[derive(Drop)]
pub struct Till {
    left: Budget,
}

impl Model for Till {
    ghost use Rattle.std.specs.Prelude.{ℕ};

    ghost Value = { ℕ };

    ghost view = { λ till. till.left.left };
}

impl Till {
    /// Begins to charge for a call.
    pub fn open(budget: &Budget) -> Till
        ensures { result ≡ budget.now.left }
    {
        Till { left: *budget }
    }

    /// Takes the steps of a value that becomes a text or a number, where so many are left.
    pub fn take_conversion(&mut self, heap: &Heap, value: &Value) -> bool
        requires { IsLive heap.now value.now }
        ensures { Takes (conversion_charge heap.now value.now) self.old result self.new }
    {
        self.left.charge_conversion(heap, value)
    }

    /// Takes the steps of the argument at a place, which becomes a text or a number.
    pub fn take_argument(&mut self, heap: &Heap, args: &[Value], place: usize) -> bool
        requires { All (IsLive heap.now) args.now }
        ensures { Takes (argument_charge heap.now args.now place) self.old result self.new }
    {
        match args.get(place) {
            Some(value) => self.take_conversion(heap, value),
            None => true,
        }
    }

    /// Takes the steps of the first two arguments.
    pub fn take_two(&mut self, heap: &Heap, args: &[Value]) -> bool
        requires { All (IsLive heap.now) args.now }
        ensures { Takes (two_charges heap.now args.now) self.old result self.new }
    {
        if !self.take_argument(heap, args, 0) {
            return false;
        }
        self.take_argument(heap, args, 1)
    }

    /// Takes the steps of values that become texts or numbers.
    pub fn take_conversions(&mut self, heap: &Heap, values: &[Value]) -> bool
        requires { All (IsLive heap.now) values.now }
        ensures { Takes (sum_by (conversion_charge heap.now) values.now) self.old result self.new }
    {
        for value in values {
            if !self.take_conversion(heap, value) {
                return false;
            }
        }
        true
    }

    /// Takes the steps of an array's `join`.
    pub fn take_join(&mut self, heap: &Heap, object: u64, separator: &Text) -> bool
        requires { object < length heap.now }
        ensures { Takes (join_charge (object_at heap.now object) separator.now)
            self.old result self.new }
    {
        self.left.charge_join(heap, object, separator)
    }

    /// Takes a step for each sixteen that a count begins.
    pub fn take_sixteens(&mut self, count: usize) -> bool
        ensures { Takes (begun_sixteens count) self.old result self.new }
    {
        self.left.charge_sixteens(count as u64)
    }

    /// Takes the steps of looking for a text in another.
    pub fn take_search(&mut self, text: &[u16], wanted: &[u16]) -> bool
        requires { self.old ≤ 100000 }
        ensures { Takes (search_charge text.now wanted.now) self.old result self.new }
    {
        let sixteens = wanted.len().div_ceil(16).max(1);
        self.take_sixteens(text.len().saturating_mul(sixteens))
    }

    /// Takes of the budget what the call was charged.
    pub fn close(self, budget: &mut Budget)
        ensures { budget.new.left ≡ self }
    {
        *budget = self.left;
    }
}
