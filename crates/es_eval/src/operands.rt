//! Operators of expressions: what is done with the values of their operands.

ghost use Rattle.std.specs.Prelude.{◌≡◌, List, IfOk};
ghost use Rattle.es_reader.specs.Programs.{ToldProgram};
ghost use Rattle.es_values.specs.declared.values.Value.TheVariants.{Number};
ghost use Rattle.es_values.specs.Heaps.{IsLive};
ghost use Rattle.es_eval.specs.declared.works.Work.TheVariants.{Operand as OperandItem};
ghost use Rattle.es_eval.specs.devices.Machines.{GoesOn, IsLess, IsNextLive, IsWorkLive};
ghost use Rattle.es_eval.specs.Actions.{behind, gives};
ghost use Rattle.es_eval.specs.Operations.{operates, signs};
ghost use Rattle.es_shapes.specs.Operators.{signed_number, type_text as spec_type_text};
ghost use Rattle.es_eval.specs.Rows.{last_value};
ghost use Rattle.es_shapes.specs.devices.Parts.{parts_from};
ghost use Rattle.es_eval.specs.devices.Works.{as_value, enters, evaluates, operand_row};

use crate::held::{Held, Reached};
use crate::machine::Machine;
use crate::nexts::{stopped, value};
use crate::outcomes::StopCause;
use crate::works::{Now, OperandWork, Work, discard};
use bml_bytes::{NoMemory, Text};
use es_reader::Program;
use es_shapes::{Code, Operator, Sign, part};
use es_values::{Num, Value};

impl Machine {
    /// What is done with the value of an operand.
    pub fn on_operand(
        &mut self,
        programs: &[Program],
        item: OperandWork,
        given: Value,
    ) -> Result<Now, NoMemory>
        requires item { IsWorkLive self.old.heap (OperandItem item) }
        requires given { IsLive self.old.heap given }
        ensures run { IfOk result (λ next. GoesOn programs.now self.old
            (as_value (operand_row programs.now item given)) self.new next) }
        ensures live { IfOk result (IsNextLive self.new) }
        ensures less { IfOk result (IsLess self.old self.new) }
    {
        match item {
            OperandWork::Left(operator, right) => {
                self.operate_right(programs, operator, given, right)
            }
            OperandWork::Right(operator, left) => self.operates(operator, &left, &given),
            OperandWork::And(right) => {
                if given.truth() {
                    self.evaluate(programs, right)
                } else {
                    Ok(value(given))
                }
            }
            OperandWork::Or(right) => {
                if given.truth() {
                    Ok(value(given))
                } else {
                    self.evaluate(programs, right)
                }
            }
            OperandWork::Choice(first, second) => {
                let chosen = if given.truth() { first } else { second };
                self.evaluate(programs, chosen)
            }
            OperandWork::Comma(code, next) => self.evaluate_parts(programs, code, next, given),
            OperandWork::Sign(sign) => self.sign(sign, &given),
            OperandWork::Typeof => self.typed(&given),
            OperandWork::Void => Ok(value(Value::Undefined)),
            OperandWork::Instead(other) => Ok(value(other)),
        }
    }

    // The right operand, behind the left one's value, and then what the operator gives.
    fn operate_right(
        &mut self,
        programs: &[Program],
        operator: Operator,
        left: Value,
        right: Code,
    ) -> Result<Now, NoMemory>
        requires { IsLive self.old.heap left }
        ensures run { IfOk result (λ next. GoesOn programs.now self.old
            (as_value (behind (evaluates programs.now right) (operates operator left))) self.new
            next) }
        ensures live { IfOk result (IsNextLive self.new) }
        ensures less { IfOk result (IsLess self.old self.new) }
    {
        let mut held = Held::new(self.heap.allocator());
        match self.reach(programs, right, &mut held)? {
            Reached::Value(given) => {
                discard(held);
                self.operates(operator, &left, &given)
            }
            Reached::Stopped(cause) => {
                discard(held);
                Ok(stopped(cause))
            }
            Reached::Waits => {
                held.hold(Work::Operand(OperandWork::Right(operator, left)))?;
                self.put_held(held)
            }
        }
    }

    // The name of a value's type.
    fn typed(&self, operand: &Value) -> Result<Now, NoMemory>
        ensures run { IfOk result (λ next. (programs : List ToldProgram)
            → GoesOn programs self.now (as_value (gives (spec_type_text operand.now))) self.now
            next) }
        ensures live { IfOk result (IsNextLive self.now) }
        ensures less { IfOk result (IsLess self.now self.now) }
    {
        Ok(value(self.type_text(operand)?))
    }

    // What an operator gives, where its charge is left.
    fn operates(&mut self, operator: Operator, left: &Value, right: &Value) -> Result<Now, NoMemory>
        requires left { IsLive self.old.heap left.now }
        requires right { IsLive self.old.heap right.now }
        ensures run { IfOk result (λ next. (programs : List ToldProgram)
            → GoesOn programs self.old (as_value (operates operator left.now right.now)) self.new
            next) }
        ensures live { IfOk result (IsNextLive self.new) }
        ensures less { IfOk result (IsLess self.old self.new) }
    {
        match self.operate(operator, left, right)? {
            Some(found) => Ok(value(found)),
            None => Ok(stopped(StopCause::Budget)),
        }
    }

    /// The parts of a list with commas from a place on; the value is that of the last, and this one
    /// where there is none.
    pub fn evaluate_parts(
        &mut self,
        programs: &[Program],
        code: Code,
        next: usize,
        before: Value,
    ) -> Result<Now, NoMemory>
        requires { IsLive self.old.heap before }
        ensures run { IfOk result (λ now. GoesOn programs.now self.old
            (as_value (last_value (enters programs.now) before
            (parts_from programs.now code next))) self.new now) }
        ensures live { IfOk result (IsNextLive self.new) }
        ensures less { IfOk result (IsLess self.old self.new) }
    {
        match part(programs, code, next) {
            Some(part) => {
                self.evaluate_then(Work::Operand(OperandWork::Comma(code, next + 1)), part)
            }
            None => Ok(value(before)),
        }
    }

    // What an operator in front of a value gives.
    fn sign(&mut self, sign: Sign, operand: &Value) -> Result<Now, NoMemory>
        requires { IsLive self.old.heap operand.now }
        ensures run { IfOk result (λ next. (programs : List ToldProgram)
            → GoesOn programs self.old (as_value (signs sign operand.now)) self.new next) }
        ensures live { IfOk result (IsNextLive self.new) }
        ensures less { IfOk result (IsLess self.old self.new) }
    {
        if let Sign::Not = sign {
            return Ok(value(Value::Bool(!operand.truth())));
        }
        match self.to_number(operand)? {
            Some(number) => Ok(value(Value::Number(signed(sign, number)))),
            None => Ok(stopped(StopCause::Budget)),
        }
    }

    /// The name of a value's type, as a text.
    pub fn type_text(&self, operand: &Value) -> Result<Value, NoMemory>
        ensures { IfOk result (λ text. text ≡ spec_type_text operand.now) }
    {
        let name = Text::of_bytes(self.heap.allocator(), operand.type_name().as_bytes())?;
        Ok(Value::Str(name))
    }
}

/// What a sign makes of a number.
pub fn signed(sign: Sign, number: Num) -> Num
    ensures { Number result ≡ signed_number sign number }
{
    match sign {
        Sign::Minus => number.negate(),
        Sign::Complement => number.bitwise_not(),
        Sign::Plus | Sign::Not => number,
    }
}
