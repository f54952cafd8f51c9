//! Expressions, which are evaluated at once as far as they can be: their parts are evaluated by
//! recursion, down to so many levels, and what can't be evaluated at once waits.

ghost use Rattle.std.specs.Prelude.{◌≡◌, ◌<◌, List, Option, Some, None, true, false, IfOk, if◌then◌else◌};
ghost use Rattle.std.specs.Option.{option_map_or};
ghost use Rattle.es_reader.specs.Programs.{ToldProgram};
ghost use Rattle.es_values.specs.Heaps.{IsLive};
ghost use Rattle.es_values.specs.Values.{truth_of};
ghost use Rattle.es_shapes.specs.Codes.{declared_by};
ghost use Rattle.es_shapes.specs.Sources.{target_of};
ghost use Rattle.es_shapes.specs.Syntax.Expression.{Name, Number as Numeral};
ghost use Rattle.es_shapes.specs.declared.codes.Code.{Code as AnyCode};
ghost use Rattle.es_shapes.specs.devices.Parts.{expression_at};
ghost use Rattle.es_shapes.specs.devices.Leaves.{is_name};
ghost use Rattle.es_shapes.specs.devices.Shapes.{shaped};
ghost use Rattle.es_eval.specs.Actions.{behind, gives};
ghost use Rattle.es_eval.specs.Operations.{operates, signs};
ghost use Rattle.es_eval.specs.Rows.{entered_place, expression_row, step_row};
ghost use Rattle.es_eval.specs.Unbounded.{called};
ghost use Rattle.es_eval.specs.devices.Held.{IsClear, Reaches, HoldsBranch, ReachesBehind, is_direct as spec_is_direct, reached_of_found};
ghost use Rattle.es_eval.specs.devices.Machines.{AreLive, Stays};
ghost use Rattle.es_eval.specs.devices.Finding.{Finds, values_of_found};
ghost use Rattle.es_eval.specs.devices.Works.{enters, evaluates};

use crate::found::Found;
use crate::held::{Held, Reached};
use crate::laws::law_of_unfolding;
use crate::machine::Machine;
use crate::outcomes::StopCause;
use crate::works::{Now, OperandWork, Work};
use bml_bytes::{NoMemory, Text};
use es_reader::Program;
use es_shapes::{Code, Leaf, Operator, Shape, Sign, expression, leaf_at, name_at};
use es_values::{Num, Value};

/// How many levels of expressions, and of statements, are evaluated at once.
pub const LEVELS: u32 = 8;

impl Machine {
    /// An expression, with its step: what it has in it is evaluated at once, down to so many levels.
    #[cycle(value)]
    pub fn value_of(
        &mut self,
        programs: &[Program],
        code: Code,
        levels: u32,
        held: &mut Held,
    ) -> Result<Reached, NoMemory>
        requires { IsClear held.old }
        ensures { IfOk result (λ reached. Reaches programs.now (evaluates programs.now code)
            self.old self.new reached held.new) }
    {
        match leaf_at(programs, code) {
            Leaf::Name(name) => return self.stepped_name(programs, code, name),
            Leaf::Number(number) => return Ok(self.stepped_number(number)),
            Leaf::Other => {}
        }
        let shape = expression(programs, code)?;
        if levels == 0 || !is_direct(programs, &shape) {
            held.next = Now::Evaluate(code);
            return Ok(Reached::Waits);
        }
        if !self.take_step() {
            return Ok(Reached::Stopped(StopCause::Budget));
        }
        law_of_unfolding();
        self.shape_of(programs, code, shape, levels - 1, held)
    }

    // The value of a name, with its step.
    fn stepped_name(
        &mut self,
        programs: &[Program],
        code: Code,
        name: &Text,
    ) -> Result<Reached, NoMemory>
        requires { expression_at programs.now code ≡ Name name.now }
        ensures { IfOk result (λ reached. (held : Held) → IsClear held
            → Reaches programs.now (evaluates programs.now code) self.old self.new reached held) }
    {
        if !self.take_step() {
            return Ok(Reached::Stopped(StopCause::Budget));
        }
        law_of_unfolding();
        let found = self.name_found(programs, code, name)?;
        Ok(reached(found))
    }

    // A whole number, with its step.
    fn stepped_number(&mut self, number: i32) -> Reached
        ensures { (programs : List ToldProgram) (code : AnyCode) (held : Held)
            → expression_at programs code ≡ Numeral number → IsClear held
            → Reaches programs (evaluates programs code) self.old self.new result held }
    {
        if !self.take_step() {
            return Reached::Stopped(StopCause::Budget);
        }
        law_of_unfolding();
        Reached::Value(Value::Number(Num::Whole(number)))
    }

    /// What an expression of this shape comes to, behind its step.
    #[cycle(value)]
    #[tactic(auto, unfolding(es_shapes::specs::devices::Shapes::shaped))]
    pub fn shape_of(
        &mut self,
        programs: &[Program],
        code: Code,
        shape: Shape,
        levels: u32,
        held: &mut Held,
    ) -> Result<Reached, NoMemory>
        requires held { IsClear held.old }
        requires direct { spec_is_direct programs.now shape ≡ true }
        ensures { IfOk result (λ reached. ReachesBehind programs.now
            (expression_row (declared_by programs.now) (called (declared_by programs.now))
            (enters programs.now) (shaped programs.now code shape))
            self.old self.new reached held.new) }
    {
        match shape {
            Shape::Signed(sign, operand) => self.sign_of(programs, sign, operand, levels, held),
            Shape::Binary(operator, left, right) => {
                self.left_of(programs, operator, left, right, levels, held)
            }
            Shape::And(left, right) => {
                self.branch_of(programs, left, Some(right), None, levels, held)
            }
            Shape::Or(left, right) => {
                self.branch_of(programs, left, None, Some(right), levels, held)
            }
            Shape::Choice(test, first, second) => {
                self.branch_of(programs, test, Some(first), Some(second), levels, held)
            }
            Shape::Call(callee) => self.call_of(programs, code, callee, levels, held),
            Shape::New(callee) => self.new_of(programs, code, callee, levels, held),
            Shape::Member(base, name) => self.member_of(programs, base, name, levels, held),
            Shape::Index(base, key) => self.index_of(programs, base, key, levels, held),
            Shape::Assign(target, right) => self.assign_of(programs, target, right, levels, held),
            Shape::Update(operator, target, right) => {
                self.update_of(programs, operator, target, right, levels, held)
            }
            Shape::Stepped(in_front, down, target) => {
                let found = self.named_step(programs, in_front, down, target)?;
                Ok(reached(found))
            }
            other => {
                let found = self.single_value(programs, code, other)?;
                Ok(reached(found))
            }
        }
    }

    // The step of the name that is stepped, and then its value.
    pub fn named_step(
        &mut self,
        programs: &[Program],
        in_front: bool,
        down: bool,
        target: Code,
    ) -> Result<Found, NoMemory>
        requires { is_name (expression_at programs.now target) ≡ true }
        ensures finds { IfOk result (Finds programs.now
            (behind (entered_place (enters programs.now)
            (target_of (expression_at programs.now target))) (step_row in_front down))
            self.old self.new) }
        ensures live { IfOk result (λ found. AreLive self.new.heap (values_of_found found)) }
        ensures stays { Stays self.old self.new }
    {
        if !self.take_step() {
            return Ok(Found::Stopped(StopCause::Budget));
        }
        match name_at(programs, target) {
            Some(name) => self.step_name(programs, in_front, down, name, target),
            None => unreachable!(),
        }
    }

    // ---- operators

    // The operands of an operator. Two leaves that are whole numbers are read where they are held.
    #[cycle(value)]
    fn left_of(
        &mut self,
        programs: &[Program],
        operator: Operator,
        left: Code,
        right: Code,
        levels: u32,
        held: &mut Held,
    ) -> Result<Reached, NoMemory>
        requires { IsClear held.old }
        ensures { IfOk result (λ reached. ReachesBehind programs.now
            (behind (evaluates programs.now left)
            (λ value. behind (evaluates programs.now right) (operates operator value)))
            self.old self.new reached held.new) }
    {
        match self.whole_operands(programs, operator, left, right) {
            Some(value) => Ok(Reached::Value(value)),
            None => self.left_from(programs, operator, left, right, levels, held),
        }
    }

    // The same from the left one on, whatever they are.
    #[cycle(value)]
    fn left_from(
        &mut self,
        programs: &[Program],
        operator: Operator,
        left: Code,
        right: Code,
        levels: u32,
        held: &mut Held,
    ) -> Result<Reached, NoMemory>
        requires { IsClear held.old }
        ensures { IfOk result (λ reached. ReachesBehind programs.now
            (behind (evaluates programs.now left)
            (λ value. behind (evaluates programs.now right) (operates operator value)))
            self.old self.new reached held.new) }
    {
        match self.value_of(programs, left, levels, held)? {
            Reached::Value(value) => self.right_of(programs, operator, value, right, levels, held),
            Reached::Stopped(cause) => Ok(Reached::Stopped(cause)),
            Reached::Waits => held.keeps(Work::Operand(OperandWork::Left(operator, right))),
        }
    }

    // The right one, once the left one's value is there.
    #[cycle(value)]
    fn right_of(
        &mut self,
        programs: &[Program],
        operator: Operator,
        left: Value,
        right: Code,
        levels: u32,
        held: &mut Held,
    ) -> Result<Reached, NoMemory>
        requires held { IsClear held.old }
        requires left { IsLive self.old.heap left }
        ensures { IfOk result (λ reached. ReachesBehind programs.now
            (behind (evaluates programs.now right)
            (operates operator left)) self.old self.new reached held.new) }
    {
        match self.value_of(programs, right, levels, held)? {
            Reached::Value(value) => {
                let found = self.operated_value(operator, &left, &value)?;
                Ok(reached(found))
            }
            Reached::Stopped(cause) => Ok(Reached::Stopped(cause)),
            Reached::Waits => held.keeps(Work::Operand(OperandWork::Right(operator, left))),
        }
    }

    // An operator in front.
    #[cycle(value)]
    fn sign_of(
        &mut self,
        programs: &[Program],
        sign: Sign,
        operand: Code,
        levels: u32,
        held: &mut Held,
    ) -> Result<Reached, NoMemory>
        requires { IsClear held.old }
        ensures { IfOk result (λ reached. ReachesBehind programs.now
            (behind (evaluates programs.now operand)
            (signs sign)) self.old self.new reached held.new) }
    {
        match self.value_of(programs, operand, levels, held)? {
            Reached::Value(value) => {
                let found = self.signed_value(sign, &value)?;
                Ok(reached(found))
            }
            Reached::Stopped(cause) => Ok(Reached::Stopped(cause)),
            Reached::Waits => held.keeps(Work::Operand(OperandWork::Sign(sign))),
        }
    }

    // The one of two that a test chooses, and the test's own value where that one is None.
    #[cycle(value)]
    fn branch_of(
        &mut self,
        programs: &[Program],
        test: Code,
        first: Option<Code>,
        second: Option<Code>,
        levels: u32,
        held: &mut Held,
    ) -> Result<Reached, NoMemory>
        requires { IsClear held.old }
        ensures { IfOk result (λ reached. ReachesBehind programs.now
            (behind (evaluates programs.now test)
            (λ value. option_map_or (evaluates programs.now)
            (if truth_of value then first else second) (gives value)))
            self.old self.new reached held.new) }
    {
        match self.value_of(programs, test, levels, held)? {
            Reached::Value(value) => {
                let chosen = if value.truth() { first } else { second };
                match chosen {
                    Some(code) => self.value_of(programs, code, levels, held),
                    None => Ok(Reached::Value(value)),
                }
            }
            Reached::Stopped(cause) => Ok(Reached::Stopped(cause)),
            Reached::Waits => branch_waits(first, second, held),
        }
    }
}

/// Whether an expression of this shape is evaluated at once. `typeof`, `void`, `delete` and lists
/// with commas aren't, nor are members that are stepped or assigned to with an operator.
pub fn is_direct(programs: &[Program], shape: &Shape) -> bool
    ensures { result ≡ spec_is_direct programs.now shape.now }
{
    match shape {
        Shape::Typeof(_) | Shape::Void(_) | Shape::Delete(_) | Shape::Comma => false,
        Shape::Stepped(_, _, target) | Shape::Update(_, target, _) => {
            name_at(programs, *target).is_some()
        }
        _ => true,
    }
}

// What waits for the test of a branch.
fn branch_waits(
    first: Option<Code>,
    second: Option<Code>,
    held: &mut Held,
) -> Result<Reached, NoMemory>
    ensures { IfOk result (λ reached. HoldsBranch first second reached held.old held.new) }
{
    match (first, second) {
        (Some(first), Some(second)) => {
            held.keeps(Work::Operand(OperandWork::Choice(first, second)))
        }
        (Some(right), None) => held.keeps(Work::Operand(OperandWork::And(right))),
        (None, Some(right)) => held.keeps(Work::Operand(OperandWork::Or(right))),
        (None, None) => Ok(Reached::Waits),
    }
}

// What is found, as what is reached.
pub fn reached(found: Found) -> Reached
    ensures { result ≡ reached_of_found found }
{
    match found {
        Found::Value(value) => Reached::Value(value),
        Found::Stopped(cause) => Reached::Stopped(cause),
    }
}
