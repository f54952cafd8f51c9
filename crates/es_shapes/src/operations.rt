//! Operators of two values, with their charges.

ghost use Rattle.std.specs.Prelude.{◌≡◌, All, IfOk, List, Option};
ghost use Rattle.std.specs.List.{sum_by};
ghost use Rattle.es_values.specs.Charges.{Charges, conversion_charge};
ghost use Rattle.es_values.specs.Heaps.{IsLive};
ghost use Rattle.es_values.specs.Objects.{ObjectState};
ghost use Rattle.es_values.specs.Operators.{is_equal, order_of};
ghost use Rattle.es_values.specs.declared.numbers.Num.TheVariants.{Whole};
ghost use Rattle.es_values.specs.declared.values.Value.TheVariants.{Bool as Boolean, Number};
ghost use Rattle.es_shapes.specs.devices.Calculations.{calculated as spec_calculated, compared as spec_compared, ordered as spec_ordered};
ghost use Rattle.es_shapes.specs.Operators.{is_greater as spec_is_greater, is_less as spec_is_less, is_strictly_equal as spec_is_strictly_equal, numbers_charge, operated as spec_operated, operation_charge, or_same, strict_equality_charge};

use crate::operators::Operator;
use bml_bytes::NoMemory;
use es_values::{Budget, Heap, Num, Value};
use std::cmp::Ordering;

/// Takes the steps of an operator, where they are left.
pub fn charge_operation(
    operator: Operator,
    left: &Value,
    right: &Value,
    heap: &Heap,
    steps: &mut Budget,
) -> bool
    requires left { IsLive heap.now left.now }
    requires right { IsLive heap.now right.now }
    ensures { Charges (operation_charge heap.now operator left.now right.now) steps.old result
        steps.new }
{
    match operator {
        Operator::Plus => steps.charge_addition(heap, left, right),
        Operator::Equal | Operator::NotEqual => steps.charge_equality(heap, left, right),
        Operator::StrictEqual | Operator::StrictNotEqual => {
            charge_strict_equality(left, right, heap, steps)
        }
        Operator::Less | Operator::Greater | Operator::LessOrEqual | Operator::GreaterOrEqual =>
            steps.charge_order(heap, left, right),
        _ => charge_conversions(left, right, heap, steps),
    }
}

// Takes the steps of `===`: within one kind those of `==`, and otherwise none.
fn charge_strict_equality(left: &Value, right: &Value, heap: &Heap, steps: &mut Budget) -> bool
    requires left { IsLive heap.now left.now }
    requires right { IsLive heap.now right.now }
    ensures { Charges (strict_equality_charge heap.now left.now right.now) steps.old result
        steps.new }
{
    if left.equality_in_kind(right).is_some() {
        steps.charge_equality(heap, left, right)
    } else {
        steps.charge(0)
    }
}

// Takes the steps of two values that become numbers.
fn charge_conversions(left: &Value, right: &Value, heap: &Heap, steps: &mut Budget) -> bool
    requires left { IsLive heap.now left.now }
    requires right { IsLive heap.now right.now }
    ensures { Charges (numbers_charge heap.now left.now right.now) steps.old result steps.new }
{
    let before = *steps;
    if steps.charge_conversion(heap, left) && steps.charge_conversion(heap, right) {
        return true;
    }
    *steps = before;
    false
}

/// Takes the steps of values that become texts, where they are left.
pub fn charge_all(values: &[Value], heap: &Heap, steps: &mut Budget) -> bool
    requires { All (IsLive heap.now) values.now }
    ensures { Charges (sum_by (conversion_charge heap.now) values.now) steps.old result steps.new }
{
    let before = *steps;
    for value in values {
        if !steps.charge_conversion(heap, value) {
            *steps = before;
            return false;
        }
    }
    true
}

/// What an operator gives.
pub fn operated(
    operator: Operator,
    left: &Value,
    right: &Value,
    heap: &Heap,
) -> Result<Value, NoMemory>
    requires left { IsLive heap.now left.now }
    requires right { IsLive heap.now right.now }
    ensures value { IfOk result
        (λ value. value ≡ spec_operated heap.now operator left.now right.now) }
    ensures live { IfOk result (λ value. IsLive heap.now value) }
{
    match operator {
        Operator::Plus => heap.addition(left, right),
        Operator::Equal | Operator::NotEqual => compared(operator, left, right, heap),
        Operator::StrictEqual => Ok(Value::Bool(is_strictly_equal(left, right))),
        Operator::StrictNotEqual => Ok(Value::Bool(!is_strictly_equal(left, right))),
        Operator::Less | Operator::Greater | Operator::LessOrEqual | Operator::GreaterOrEqual =>
            ordered(operator, left, right, heap),
        _ => {
            let left = heap.to_number(left)?;
            let right = heap.to_number(right)?;
            Ok(Value::Number(calculated(operator, left, right)))
        }
    }
}

/// What an operator gives of two whole numbers, which is charged nothing.
pub fn operated_wholes(operator: Operator, left: i32, right: i32) -> Value
    ensures value { (heap : List ObjectState)
        → spec_operated heap operator (Number (Whole left)) (Number (Whole right)) ≡ result }
    ensures free { (heap : List ObjectState)
        → operation_charge heap operator (Number (Whole left)) (Number (Whole right)) ≡ 0 }
    ensures live { (heap : List ObjectState) → IsLive heap result }
{
    match operator {
        Operator::Plus => Value::Number(Num::Whole(left).add(Num::Whole(right))),
        Operator::Equal => Value::Bool(left == right),
        Operator::NotEqual => Value::Bool(left != right),
        Operator::StrictEqual => Value::Bool(left == right),
        Operator::StrictNotEqual => Value::Bool(left != right),
        Operator::Less => Value::Bool(left < right),
        Operator::Greater => Value::Bool(left > right),
        Operator::LessOrEqual => Value::Bool(left <= right),
        Operator::GreaterOrEqual => Value::Bool(left >= right),
        _ => Value::Number(calculated(operator, Num::Whole(left), Num::Whole(right))),
    }
}

// What `==` gives; every other operator is `!=`.
fn compared(operator: Operator, left: &Value, right: &Value, heap: &Heap) -> Result<Value, NoMemory>
    requires left { IsLive heap.now left.now }
    requires right { IsLive heap.now right.now }
    ensures { IfOk result (λ value. value
        ≡ Boolean (spec_compared operator (is_equal heap.now left.now right.now))) }
{
    let same = heap.equality(left, right)?;
    Ok(Value::Bool(match operator {
        Operator::Equal => same,
        _ => !same,
    }))
}

// What `===` gives.
fn is_strictly_equal(left: &Value, right: &Value) -> bool
    ensures { result ≡ spec_is_strictly_equal left.now right.now }
{
    left.equality_in_kind(right).unwrap_or(false)
}

// What an operator that compares numbers or texts gives; every other operator is `>=`.
fn ordered(operator: Operator, left: &Value, right: &Value, heap: &Heap) -> Result<Value, NoMemory>
    requires left { IsLive heap.now left.now }
    requires right { IsLive heap.now right.now }
    ensures { IfOk result (λ value. value
        ≡ Boolean (spec_ordered operator (order_of heap.now left.now right.now))) }
{
    let order = heap.order(left, right)?;
    Ok(Value::Bool(match operator {
        Operator::Less => is_less(order),
        Operator::Greater => is_greater(order),
        Operator::LessOrEqual => is_less_or_same(order),
        _ => is_greater_or_same(order),
    }))
}

// The number that an operator of numbers gives; every other operator's is that of `|`.
fn calculated(operator: Operator, left: Num, right: Num) -> Num
    ensures { result ≡ spec_calculated operator left right }
{
    match operator {
        Operator::Times => left.multiply(right),
        Operator::Divide => left.divide(right),
        Operator::Remainder => left.remainder(right),
        Operator::Minus => left.subtract(right),
        Operator::ShiftLeft => left.left_shift(right),
        Operator::ShiftRight => left.signed_right_shift(right),
        Operator::UnsignedShiftRight => left.unsigned_right_shift(right),
        Operator::BitAnd => left.bitwise_and(right),
        Operator::BitXor => left.bitwise_xor(right),
        _ => left.bitwise_or(right),
    }
}

fn is_less(order: Option<Ordering>) -> bool
    ensures { result ≡ spec_is_less order }
{
    order == Some(Ordering::Less)
}

fn is_greater(order: Option<Ordering>) -> bool
    ensures { result ≡ spec_is_greater order }
{
    order == Some(Ordering::Greater)
}

fn is_less_or_same(order: Option<Ordering>) -> bool
    ensures { result ≡ or_same spec_is_less order }
{
    matches!(order, Some(Ordering::Less | Ordering::Equal))
}

fn is_greater_or_same(order: Option<Ordering>) -> bool
    ensures { result ≡ or_same spec_is_greater order }
{
    matches!(order, Some(Ordering::Greater | Ordering::Equal))
}
