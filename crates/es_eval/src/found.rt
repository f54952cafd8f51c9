//! What is found once the values of all parts are there: of a leaf, of a name that is written or
//! stepped, and of an operator. Nothing waits for it.

ghost use Rattle.std.specs.Prelude.{◌≡◌, ℕ, List, true, IfOk, IfSome, None, Some, if◌then◌else◌};
ghost use Rattle.es_reader.specs.Programs.{ToldProgram};
ghost use Rattle.es_values.specs.declared.numbers.Num.TheVariants.{Whole};
ghost use Rattle.es_values.specs.declared.values.Value.{Value as AnyValue};
ghost use Rattle.es_values.specs.declared.values.Value.TheVariants.{Number};
ghost use Rattle.es_values.specs.Heaps.{IsLive};
ghost use Rattle.es_eval.specs.Actions.{Next, and_then, behind, gives, step};
ghost use Rattle.es_eval.specs.Members.{named, read_name as spec_read_name, write_name};
ghost use Rattle.es_eval.specs.Members.Place.{NamePlace};
ghost use Rattle.es_eval.specs.Operations.{operates, signs};
ghost use Rattle.es_eval.specs.Rows.{expression_row, step_row};
ghost use Rattle.es_eval.specs.Unbounded.{called};
ghost use Rattle.es_eval.specs.declared.found.Found.TheVariants.{Value as FoundValue};
ghost use Rattle.es_eval.specs.devices.Finding.{Finds, is_single, values_of_found};
ghost use Rattle.es_eval.specs.devices.Machines.{AreLive, Stays, world_of};
ghost use Rattle.es_eval.specs.devices.Works.{enters, evaluates, steps_from};
ghost use Rattle.es_shapes.specs.Codes.{declared_by};
ghost use Rattle.es_shapes.specs.Operators.{stepped as spec_stepped};
ghost use Rattle.es_shapes.specs.devices.Shapes.{shaped};

use crate::laws::law_of_unfolding;
use crate::machine::Machine;
use crate::operands::signed;
use crate::outcomes::StopCause;
use crate::targets::{if_in_front, stepped};
use bml_bytes::{NoMemory, Text};
use es_reader::Program;
use es_shapes::{Code, Leaf, Operator, Shape, Sign, leaf_at, operated_wholes};
use es_values::{Num, Value};

/// What is found, or why the script is stopped there.
#[derive(Drop)]
pub enum Found {
    Value(Value),
    Stopped(StopCause),
}

impl Machine {
    // The `this` of the call that runs.
    fn this_found(&self) -> Result<Found, NoMemory>
        ensures finds { IfOk result (λ found. (programs : List ToldProgram)
            → Finds programs (λ w go. go w.this w) self.now self.now found) }
        ensures live { IfOk result (λ found. AreLive self.now.heap (values_of_found found)) }
    {
        Ok(Found::Value(self.this()?))
    }

    // The value of a name.
    pub fn name_found(
        &self,
        programs: &[Program],
        code: Code,
        name: &Text,
    ) -> Result<Found, NoMemory>
        ensures finds { IfOk result (Finds programs.now (spec_read_name name.now)
            self.now self.now) }
        ensures live { IfOk result (λ found. AreLive self.now.heap (values_of_found found)) }
    {
        match self.read_name(programs, code, name)? {
            Some(value) => Ok(Found::Value(value)),
            None => Ok(Found::Stopped(StopCause::Unresolved)),
        }
    }

    // ---- whole numbers, which are read where they are held

    // The value that a local or a global of this name holds. It is None of every other name, and
    // where there is no memory to find the local.
    fn held_value(&self, programs: &[Program], code: Code, name: &Text) -> Option<&Value>
        ensures { IfSome result
            (λ value. named (world_of programs.now self.now) name.now ≡ Some value.now) }
    {
        match self.slot_of(programs, code, name) {
            Ok(Some(place)) => self.frames.slot(place),
            Ok(None) => self.globals.get(name),
            Err(_) => None,
        }
    }

    // The whole number that a local or a global of this name holds, if it holds one.
    fn whole_named(&self, programs: &[Program], code: Code, name: &Text) -> Option<i32>
        ensures { IfSome result (λ number. named (world_of programs.now self.now) name.now
            ≡ Some (Number (Whole number))) }
    {
        match self.held_value(programs, code, name)? {
            Value::Number(Num::Whole(number)) => Some(*number),
            _ => None,
        }
    }

    // The whole number that a leaf gives behind its step, if it gives one, however many steps are
    // left.
    fn whole_at(&self, programs: &[Program], code: Code) -> Option<i32>
        ensures { IfSome result (λ number. (left : ℕ) (next : Next AnyValue)
            → evaluates programs.now code
            (record (world_of programs.now self.now) { left = left }) next
            ≡ step (gives (Number (Whole number)))
            (record (world_of programs.now self.now) { left = left }) next) }
    {
        law_of_unfolding();
        match leaf_at(programs, code) {
            Leaf::Name(name) => self.whole_named(programs, code, name),
            Leaf::Number(number) => Some(number),
            Leaf::Other => None,
        }
    }

    // What an operator gives of two leaves that give whole numbers, behind the steps of both. It is
    // None where a leaf gives something else or too few steps are left, and then none is taken.
    #[tactic(auto, using(crate::proofs::MachineLemmas::stays_where_less))]
    pub fn whole_operands(
        &mut self,
        programs: &[Program],
        operator: Operator,
        left: Code,
        right: Code,
    ) -> Option<Value>
        ensures finds { IfSome result (λ value. Finds programs.now
            (behind (evaluates programs.now left)
            (λ value. behind (evaluates programs.now right) (operates operator value)))
            self.old self.new (FoundValue value)) }
        ensures live { IfSome result (λ value. IsLive self.new.heap value) }
        ensures stays { Stays self.old self.new }
        ensures same { result ≡ None → self.new ≡ self.old }
    {
        let left = self.whole_at(programs, left)?;
        let right = self.whole_at(programs, right)?;
        if !self.steps.charge(2) {
            return None;
        }
        Some(operated_wholes(operator, left, right))
    }

    /// What a leaf gives.
    #[tactic(auto, unfolding(es_shapes::specs::devices::Shapes::shaped))]
    pub fn single_value(
        &mut self,
        programs: &[Program],
        code: Code,
        shape: Shape,
    ) -> Result<Found, NoMemory>
        requires { is_single shape ≡ true }
        ensures finds { IfOk result (Finds programs.now
            (expression_row (declared_by programs.now) (called (declared_by programs.now))
            (enters programs.now) (shaped programs.now code shape)) self.old self.new) }
        ensures live { IfOk result (λ found. AreLive self.new.heap (values_of_found found)) }
        ensures stays { Stays self.old self.new }
    {
        match shape {
            Shape::This => self.this_found(),
            Shape::Null => Ok(Found::Value(Value::Null)),
            Shape::Truth(truth) => Ok(Found::Value(Value::Bool(truth))),
            Shape::Number(number) => Ok(Found::Value(Value::Number(Num::Whole(number)))),
            Shape::Text(text) => Ok(Found::Value(Value::Str(text))),
            Shape::Name(name) => self.name_found(programs, code, &name),
            _ => unreachable!(),
        }
    }

    // ---- operators

    // What an operator gives.
    pub fn operated_value(
        &mut self,
        operator: Operator,
        left: &Value,
        right: &Value,
    ) -> Result<Found, NoMemory>
        requires left { IsLive self.old.heap left.now }
        requires right { IsLive self.old.heap right.now }
        ensures finds { IfOk result (λ found. (programs : List ToldProgram)
            → Finds programs (operates operator left.now right.now) self.old self.new found) }
        ensures live { IfOk result (λ found. AreLive self.new.heap (values_of_found found)) }
        ensures stays { Stays self.old self.new }
    {
        match self.operate(operator, left, right)? {
            Some(found) => Ok(Found::Value(found)),
            None => Ok(Found::Stopped(StopCause::Budget)),
        }
    }

    // What an operator in front of a value gives.
    pub fn signed_value(&mut self, sign: Sign, operand: &Value) -> Result<Found, NoMemory>
        requires { IsLive self.old.heap operand.now }
        ensures finds { IfOk result (λ found. (programs : List ToldProgram)
            → Finds programs (signs sign operand.now) self.old self.new found) }
        ensures live { IfOk result (λ found. AreLive self.new.heap (values_of_found found)) }
        ensures stays { Stays self.old self.new }
    {
        if let Sign::Not = sign {
            return Ok(Found::Value(Value::Bool(!operand.truth())));
        }
        match self.to_number(operand)? {
            Some(number) => Ok(Found::Value(Value::Number(signed(sign, number)))),
            None => Ok(Found::Stopped(StopCause::Budget)),
        }
    }

    // ---- names that are stepped

    // The value of the name, and then its number.
    pub fn step_name(
        &mut self,
        programs: &[Program],
        in_front: bool,
        down: bool,
        name: &Text,
        code: Code,
    ) -> Result<Found, NoMemory>
        ensures finds { IfOk result (Finds programs.now
            (step_row in_front down (NamePlace name.now)) self.old self.new) }
        ensures live { IfOk result (λ found. AreLive self.new.heap (values_of_found found)) }
        ensures stays { Stays self.old self.new }
    {
        if let Some(number) = self.whole_named(programs, code, name) {
            return self.step_number(programs, in_front, down, name, code, Num::Whole(number));
        }
        match self.read_name(programs, code, name)? {
            Some(before) => self.step_value(programs, in_front, down, name, code, &before),
            None => Ok(Found::Stopped(StopCause::Unresolved)),
        }
    }

    // The number of the name's value.
    fn step_value(
        &mut self,
        programs: &[Program],
        in_front: bool,
        down: bool,
        name: &Text,
        code: Code,
        before: &Value,
    ) -> Result<Found, NoMemory>
        requires { IsLive self.old.heap before.now }
        ensures finds { IfOk result (Finds programs.now
            (steps_from in_front down (NamePlace name.now) before.now) self.old self.new) }
        ensures live { IfOk result (λ found. AreLive self.new.heap (values_of_found found)) }
        ensures stays { Stays self.old self.new }
    {
        match self.to_number(before)? {
            Some(number) => self.step_number(programs, in_front, down, name, code, number),
            None => Ok(Found::Stopped(StopCause::Budget)),
        }
    }

    // One more or one less is written, and the number behind or before that is given.
    fn step_number(
        &mut self,
        programs: &[Program],
        in_front: bool,
        down: bool,
        name: &Text,
        code: Code,
        number: Num,
    ) -> Result<Found, NoMemory>
        ensures finds { IfOk result (Finds programs.now (and_then
            (write_name name.now (Number (spec_stepped down number)))
            (gives (Number (if in_front then spec_stepped down number else number))))
            self.old self.new) }
        ensures live { IfOk result (λ found. AreLive self.new.heap (values_of_found found)) }
        ensures stays { Stays self.old self.new }
    {
        let behind = stepped(down, number);
        let given = if_in_front(in_front, behind, number);
        self.write_name(programs, code, name, Value::Number(behind))?;
        Ok(Found::Value(Value::Number(given)))
    }

    // ---- assignments

    // Writes a value to a name, and gives it.
    pub fn written_value(
        &mut self,
        programs: &[Program],
        name: &Text,
        code: Code,
        value: Value,
    ) -> Result<Found, NoMemory>
        requires { IsLive self.old.heap value }
        ensures finds { IfOk result (Finds programs.now (write_name name.now value)
            self.old self.new) }
        ensures live { IfOk result (λ found. AreLive self.new.heap (values_of_found found)) }
        ensures stays { Stays self.old self.new }
    {
        self.write_name(programs, code, name, value.share()?)?;
        Ok(Found::Value(value))
    }

    // What the operator gives, which is written.
    pub fn update_with(
        &mut self,
        programs: &[Program],
        operator: Operator,
        name: &Text,
        code: Code,
        before: &Value,
        value: &Value,
    ) -> Result<Found, NoMemory>
        requires before { IsLive self.old.heap before.now }
        requires value { IsLive self.old.heap value.now }
        ensures finds { IfOk result (Finds programs.now
            (behind (operates operator before.now value.now) (write_name name.now))
            self.old self.new) }
        ensures live { IfOk result (λ found. AreLive self.new.heap (values_of_found found)) }
        ensures stays { Stays self.old self.new }
    {
        match self.operate(operator, before, value)? {
            Some(behind) => self.written_value(programs, name, code, behind),
            None => Ok(Found::Stopped(StopCause::Budget)),
        }
    }
}
