//! Expressions.

ghost use Rattle.std.specs.Prelude.{◌≡◌, ◌≤◌, [], List, IfOk, false};
ghost use Rattle.es_reader.specs.Programs.{ToldProgram};
ghost use Rattle.es_eval.specs.declared.works.Given.TheVariants.{Value as GivenValue};
ghost use Rattle.es_eval.specs.Actions.{behind, step};
ghost use Rattle.es_shapes.specs.Codes.{declared_by};
ghost use Rattle.es_shapes.specs.devices.Parts.{expression_at};
ghost use Rattle.es_eval.specs.devices.Held.{is_direct as spec_is_direct};
ghost use Rattle.es_eval.specs.devices.Machines.{GoesOn, IsLess, IsNextLive, IsWorkLive, burden, weight};
ghost use Rattle.es_eval.specs.Rows.{delete_row, expression_row, typeof_name as spec_typeof_name};
ghost use Rattle.es_shapes.specs.devices.Shapes.{shaped};
ghost use Rattle.es_shapes.specs.Syntax.Expression.{Name, Typeof};
ghost use Rattle.es_eval.specs.Unbounded.{called};
ghost use Rattle.es_eval.specs.devices.Works.{as_value, does, enters, evaluates};

use crate::held::Held;
use crate::laws::law_of_unfolding;
use crate::machine::Machine;
use crate::nexts::{stopped, value};
use crate::outcomes::StopCause;
use crate::values::{LEVELS, is_direct};
use crate::works::{MemberWork, Now, OperandWork, Use, Work, discard};
use bml_bytes::{NoMemory, Text};
use es_reader::Program;
use es_shapes::{Code, Shape, expression};
use es_values::Value;

impl Machine {
    /// An expression, with its step: it is evaluated at once as far as that can be, and what waits is
    /// put on the control stack.
    pub fn evaluate(&mut self, programs: &[Program], code: Code) -> Result<Now, NoMemory>
        ensures run { IfOk result (λ next. GoesOn programs.now self.old
            (as_value (enters programs.now (expression_at programs.now code))) self.new next) }
        ensures live { IfOk result (IsNextLive self.new) }
        ensures less { IfOk result (λ next. weight self.new next ≤ burden self.old) }
    {
        if !self.take_step() {
            return Ok(stopped(StopCause::Budget));
        }
        law_of_unfolding();
        let shape = expression(programs, code)?;
        if is_direct(programs, &shape) {
            let mut held = Held::new(self.heap.allocator());
            let reached = self.shape_of(programs, code, shape, LEVELS, &mut held)?;
            return self.settle(reached, held);
        }
        self.begin(programs, code, shape)
    }

    // What an expression of this shape does first, where it isn't evaluated at once.
    #[tactic(auto, unfolding(es_shapes::specs::devices::Shapes::shaped))]
    fn begin(&mut self, programs: &[Program], code: Code, shape: Shape) -> Result<Now, NoMemory>
        requires { spec_is_direct programs.now shape ≡ false }
        ensures run { IfOk result (λ next. GoesOn programs.now self.old
            (as_value (expression_row (declared_by programs.now)
            (called (declared_by programs.now)) (enters programs.now)
            (shaped programs.now code shape))) self.new next) }
        ensures live { IfOk result (IsNextLive self.new) }
        ensures less { IfOk result (IsLess self.old self.new) }
    {
        match shape {
            Shape::Typeof(operand) => self.enter_typeof(programs, operand),
            Shape::Void(operand) => self.evaluate_then(Work::Operand(OperandWork::Void), operand),
            Shape::Delete(operand) => self.enter_delete(programs, operand),
            Shape::Stepped(in_front, down, target) => {
                self.enter_target(programs, target, Use::Step(in_front, down))
            }
            Shape::Update(operator, target, right) => {
                self.enter_target(programs, target, Use::Update(operator, right))
            }
            Shape::Comma => self.evaluate_parts(programs, code, 0, Value::Undefined),
            _ => unreachable!(),
        }
    }

    // `typeof`: of a name that nothing has it is `undefined`.
    fn enter_typeof(&mut self, programs: &[Program], operand: Code) -> Result<Now, NoMemory>
        ensures run { IfOk result (λ next. GoesOn programs.now self.old
            (as_value (expression_row (declared_by programs.now)
            (called (declared_by programs.now)) (enters programs.now)
            (Typeof (expression_at programs.now operand)))) self.new next) }
        ensures live { IfOk result (IsNextLive self.new) }
        ensures less { IfOk result (IsLess self.old self.new) }
    {
        match expression(programs, operand)? {
            Shape::Name(name) => self.typeof_name(programs, operand, &name),
            _ => self.evaluate_then(Work::Operand(OperandWork::Typeof), operand),
        }
    }

    // The name of the type of a name's value.
    fn typeof_name(
        &mut self,
        programs: &[Program],
        code: Code,
        name: &Text,
    ) -> Result<Now, NoMemory>
        ensures run { IfOk result (λ next. GoesOn programs.now self.old
            (as_value (step (spec_typeof_name name.now))) self.new next) }
        ensures live { IfOk result (IsNextLive self.new) }
        ensures less { IfOk result (IsLess self.old self.new) }
    {
        if !self.take_step() {
            return Ok(stopped(StopCause::Budget));
        }
        let found = self
            .read_name(programs, code, name)?
            .unwrap_or(Value::Undefined);
        Ok(value(self.type_text(&found)?))
    }

    // `delete`: of what is no member it is false, and a name isn't read.
    fn enter_delete(&mut self, programs: &[Program], operand: Code) -> Result<Now, NoMemory>
        ensures run { IfOk result (λ next. GoesOn programs.now self.old
            (as_value (delete_row (enters programs.now) (expression_at programs.now operand)))
            self.new next) }
        ensures live { IfOk result (IsNextLive self.new) }
        ensures less { IfOk result (IsLess self.old self.new) }
    {
        let shape = expression(programs, operand)?;
        match shape {
            Shape::Name(_) => {
                if !self.take_step() {
                    return Ok(stopped(StopCause::Budget));
                }
                Ok(value(Value::Bool(false)))
            }
            Shape::Index(base, key) => {
                self.step_then(Work::Member(MemberWork::DeleteIndexBase(key)), base)
            }
            Shape::Member(base, name) => {
                self.step_then(Work::Member(MemberWork::DeleteMember(name)), base)
            }
            _ => self.evaluate_then(Work::Member(MemberWork::DeleteOther), operand),
        }
    }

    // The step of a member that isn't read here; then its base is entered.
    fn step_then(&mut self, item: Work, base: Code) -> Result<Now, NoMemory>
        requires { IsWorkLive self.old.heap item }
        ensures run { IfOk result (λ next. (programs : List ToldProgram)
            → GoesOn programs self.old (step (λ w next. evaluates programs base w
            (λ value after. does programs item (GivenValue value) after next))) self.new next) }
        ensures live { IfOk result (IsNextLive self.new) }
        ensures less { IfOk result (IsLess self.old self.new) }
    {
        if !self.take_step() {
            discard(item);
            return Ok(stopped(StopCause::Budget));
        }
        self.evaluate_then(item, base)
    }
}
