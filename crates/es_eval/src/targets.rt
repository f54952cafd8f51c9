//! Targets: what is written to.

ghost use Rattle.std.specs.Prelude.{[], ◌≡◌, ◌+◌, ◌<◌, ◌≤◌, List, length, IfOk, if◌then◌else◌};
ghost use Rattle.es_reader.specs.Programs.{ToldProgram};
ghost use Rattle.es_values.specs.declared.values.Value.TheVariants.{Host as OfHost, Number, Object as AnObject};
ghost use Rattle.es_values.specs.Heaps.{IsLive};
ghost use Rattle.es_eval.specs.declared.works.TargetWork.TheVariants.{IndexKey, UpdateRight};
ghost use Rattle.es_eval.specs.declared.works.Use.TheVariants.{Step as StepUse, Update as UpdateUse, Visit as VisitUse};
ghost use Rattle.es_eval.specs.declared.works.Work.TheVariants.{Target as TargetItem};
ghost use Rattle.es_eval.specs.Actions.{and_then, behind, gives};
ghost use Rattle.es_shapes.specs.devices.Parts.{expression_at};
ghost use Rattle.es_eval.specs.devices.Machines.{AreLive, GoesOn, IsLess, IsLessAfter, IsLittle, IsNextLive, IsWorkLive, burden, values_of_place, values_of_use, weight};
ghost use Rattle.es_eval.specs.Members.{read_name as spec_read_name, read_place as spec_read_place, write_member as spec_write_member, write_place as spec_write_place};
ghost use Rattle.es_shapes.specs.Operators.{stepped as spec_stepped};
ghost use Rattle.es_eval.specs.Members.Place.{NamePlace};
ghost use Rattle.es_eval.specs.Rows.{entered_place, place_row};
ghost use Rattle.es_shapes.specs.devices.Shapes.{shaped};
ghost use Rattle.es_shapes.specs.Sources.{target_of};
ghost use Rattle.es_eval.specs.devices.Works.{as_value, enters, place_of, steps_from, target_row, use_row};

use crate::machine::Machine;
use crate::nexts::{stopped, value};
use crate::outcomes::StopCause;
use crate::works::{Now, OperandWork, Place, StatementWork, TargetWork, Use, Visit, Work, discard};
use bml_bytes::{NoMemory, Text};
use es_reader::Program;
use es_shapes::{Code, Operator, Shape, expression};
use es_values::{HostRef, Num, Value};

impl Machine {
    /// A target is entered, with its step, and then what it names is put to a use.
    pub fn enter_target(
        &mut self,
        programs: &[Program],
        target: Code,
        purpose: Use,
    ) -> Result<Now, NoMemory>
        requires { AreLive self.old.heap (values_of_use purpose) }
        ensures run { IfOk result (λ next. GoesOn programs.now self.old
            (behind (entered_place (enters programs.now)
            (target_of (expression_at programs.now target))) (use_row programs.now purpose))
            self.new next) }
        ensures live { IfOk result (IsNextLive self.new) }
        ensures less { IfOk result (IsLess self.old self.new) }
    {
        if !self.take_step() {
            discard(purpose);
            return Ok(stopped(StopCause::Budget));
        }
        match expression(programs, target) {
            Ok(shape) => self.enter_shaped(programs, target, shape, purpose),
            Err(NoMemory) => {
                discard(purpose);
                Err(NoMemory)
            }
        }
    }

    // A target of this shape, behind its step.
    #[tactic(auto, unfolding(es_shapes::specs::devices::Shapes::shaped))]
    fn enter_shaped(
        &mut self,
        programs: &[Program],
        code: Code,
        shape: Shape,
        purpose: Use,
    ) -> Result<Now, NoMemory>
        requires { AreLive self.old.heap (values_of_use purpose) }
        ensures run { IfOk result (λ next. GoesOn programs.now self.old
            (behind (place_row (enters programs.now) (target_of (shaped programs.now code shape)))
            (use_row programs.now purpose)) self.new next) }
        ensures live { IfOk result (IsNextLive self.new) }
        ensures less { IfOk result (IsLittle self.old self.new) }
    {
        match shape {
            Shape::Name(name) => self.on_place(programs, purpose, Place::Name(name, code)),
            Shape::Index(base, key) => {
                self.evaluate_then(Work::Target(TargetWork::IndexBase(key, purpose)), base)
            }
            Shape::Member(base, name) => {
                self.evaluate_then(Work::Target(TargetWork::MemberBase(name, purpose)), base)
            }
            other => {
                discard(other);
                self.on_no_target(programs, code, purpose)
            }
        }
    }

    // What is no target is a name without codes.
    fn on_no_target(
        &mut self,
        programs: &[Program],
        code: Code,
        purpose: Use,
    ) -> Result<Now, NoMemory>
        requires { AreLive self.old.heap (values_of_use purpose) }
        ensures run { IfOk result (λ next. GoesOn programs.now self.old
            (use_row programs.now purpose (NamePlace [])) self.new next) }
        ensures live { IfOk result (IsNextLive self.new) }
        ensures less { IfOk result (IsLittle self.old self.new) }
    {
        match Text::of_codes(self.heap.allocator(), &[]) {
            Ok(name) => self.on_place(programs, purpose, Place::Name(name, code)),
            Err(NoMemory) => {
                discard(purpose);
                Err(NoMemory)
            }
        }
    }

    /// What is done with what a target names.
    pub fn on_place(
        &mut self,
        programs: &[Program],
        purpose: Use,
        place: Place,
    ) -> Result<Now, NoMemory>
        requires purpose { AreLive self.old.heap (values_of_use purpose) }
        requires place { AreLive self.old.heap (values_of_place place) }
        ensures run { IfOk result (λ next. GoesOn programs.now self.old
            (use_row programs.now purpose (place_of place)) self.new next) }
        ensures live { IfOk result (IsNextLive self.new) }
        ensures less { IfOk result (IsLittle self.old self.new) }
    {
        match purpose {
            Use::Assign(right) => self.evaluate_then(Work::Target(TargetWork::Write(place)), right),
            Use::Update(operator, right) => self.update_place(programs, operator, right, place),
            Use::Step(in_front, down) => self.read_to_step(programs, in_front, down, place),
            Use::Visit(name, visit) => self.visit_place(programs, name, visit, place),
        }
    }

    // The value before an operator with assignment is read, behind which its right side follows.
    fn update_place(
        &mut self,
        programs: &[Program],
        operator: Operator,
        right: Code,
        place: Place,
    ) -> Result<Now, NoMemory>
        requires { AreLive self.old.heap (values_of_place place) }
        ensures run { IfOk result (λ next. GoesOn programs.now self.old
            (use_row programs.now (UpdateUse operator right)
            (place_of place)) self.new next) }
        ensures live { IfOk result (IsNextLive self.new) }
        ensures less { IfOk result (IsLittle self.old self.new) }
    {
        let there = match place.share() {
            Ok(there) => there,
            Err(NoMemory) => {
                discard(place);
                return Err(NoMemory);
            }
        };
        match self.put(Work::Target(TargetWork::UpdateRead(operator, there, right))) {
            Ok(()) => self.read_place(programs, place),
            Err(NoMemory) => {
                discard(place);
                Err(NoMemory)
            }
        }
    }

    // The value before `++` or `--` is read.
    fn read_to_step(
        &mut self,
        programs: &[Program],
        in_front: bool,
        down: bool,
        place: Place,
    ) -> Result<Now, NoMemory>
        requires { AreLive self.old.heap (values_of_place place) }
        ensures run { IfOk result (λ next. GoesOn programs.now self.old
            (use_row programs.now (StepUse in_front down)
            (place_of place)) self.new next) }
        ensures live { IfOk result (IsNextLive self.new) }
        ensures less { IfOk result (IsLittle self.old self.new) }
    {
        let there = match place.share() {
            Ok(there) => there,
            Err(NoMemory) => {
                discard(place);
                return Err(NoMemory);
            }
        };
        match self.put(Work::Target(TargetWork::StepRead(in_front, down, there))) {
            Ok(()) => self.read_place(programs, place),
            Err(NoMemory) => {
                discard(place);
                Err(NoMemory)
            }
        }
    }

    // The name that is visited is written, and then the body runs.
    fn visit_place(
        &mut self,
        programs: &[Program],
        name: Text,
        visit: Visit,
        place: Place,
    ) -> Result<Now, NoMemory>
        requires visit { visit.object < length self.old.heap }
        requires place { AreLive self.old.heap (values_of_place place) }
        ensures run { IfOk result (λ next. GoesOn programs.now self.old
            (use_row programs.now (VisitUse name visit)
            (place_of place)) self.new next) }
        ensures live { IfOk result (IsNextLive self.new) }
        ensures less { IfOk result (IsLittle self.old self.new) }
    {
        match self.put(Work::Target(TargetWork::Visited(visit))) {
            Ok(()) => self.write_place(programs, place, Value::Str(name)),
            Err(NoMemory) => {
                discard(place);
                Err(NoMemory)
            }
        }
    }

    /// What is done with a part of a target, or with what was written to one.
    pub fn on_target(
        &mut self,
        programs: &[Program],
        item: TargetWork,
        given: Value,
    ) -> Result<Now, NoMemory>
        requires item { IsWorkLive self.old.heap (TargetItem item) }
        requires given { IsLive self.old.heap given }
        ensures run { IfOk result (λ next. GoesOn programs.now self.old
            (target_row programs.now item given) self.new next) }
        ensures live { IfOk result (IsNextLive self.new) }
        ensures less { IfOk result (IsLessAfter (TargetItem item) self.old self.new) }
    {
        match item {
            TargetWork::IndexBase(key, purpose) => {
                self.evaluate_then(Work::Target(TargetWork::IndexKey(given, purpose)), key)
            }
            TargetWork::IndexKey(base, purpose) => self.on_key(programs, base, purpose, &given),
            TargetWork::MemberBase(name, purpose) => {
                self.on_place(programs, purpose, Place::Member(given, name))
            }
            TargetWork::Write(place) => self.write_place(programs, place, given),
            TargetWork::UpdateRead(operator, place, right) => {
                self.evaluate_then(
                    Work::Target(TargetWork::UpdateRight(operator, place, given)),
                    right,
                )
            }
            TargetWork::UpdateRight(operator, place, before) => {
                self.write_updated(programs, operator, place, &before, &given)
            }
            TargetWork::StepRead(in_front, down, place) => {
                self.step_place(programs, in_front, down, place, &given)
            }
            TargetWork::Visited(visit) => {
                let body = visit.body;
                self.execute_then(Work::Statement(StatementWork::Visiting(visit)), body)
            }
        }
    }

    // The key of a target is there, and becomes a text.
    fn on_key(
        &mut self,
        programs: &[Program],
        base: Value,
        purpose: Use,
        key: &Value,
    ) -> Result<Now, NoMemory>
        requires base { IsLive self.old.heap base }
        requires purpose { AreLive self.old.heap (values_of_use purpose) }
        requires key { IsLive self.old.heap key.now }
        ensures run { IfOk result (λ next. GoesOn programs.now self.old
            (target_row programs.now (IndexKey base purpose) key.now)
            self.new next) }
        ensures live { IfOk result (IsNextLive self.new) }
        ensures less { IfOk result (IsLittle self.old self.new) }
    {
        let found = match self.to_text(key) {
            Ok(found) => found,
            Err(NoMemory) => {
                discard(purpose);
                return Err(NoMemory);
            }
        };
        match found {
            Some(key) => self.on_place(programs, purpose, Place::Member(base, key)),
            None => {
                discard(purpose);
                Ok(stopped(StopCause::Budget))
            }
        }
    }

    // What an operator with assignment gives is written.
    fn write_updated(
        &mut self,
        programs: &[Program],
        operator: Operator,
        place: Place,
        before: &Value,
        given: &Value,
    ) -> Result<Now, NoMemory>
        requires place { AreLive self.old.heap (values_of_place place) }
        requires before { IsLive self.old.heap before.now }
        requires given { IsLive self.old.heap given.now }
        ensures run { IfOk result (λ next. GoesOn programs.now self.old
            (target_row programs.now (UpdateRight operator place before.now) given.now) self.new
            next) }
        ensures live { IfOk result (IsNextLive self.new) }
        ensures less { IfOk result (IsLess self.old self.new) }
    {
        let found = match self.operate(operator, before, given) {
            Ok(found) => found,
            Err(NoMemory) => {
                discard(place);
                return Err(NoMemory);
            }
        };
        match found {
            Some(behind) => self.write_place(programs, place, behind),
            None => {
                discard(place);
                Ok(stopped(StopCause::Budget))
            }
        }
    }

    // Writes one more or one less than a value, and gives the number behind or before that.
    fn step_place(
        &mut self,
        programs: &[Program],
        in_front: bool,
        down: bool,
        place: Place,
        before: &Value,
    ) -> Result<Now, NoMemory>
        requires place { AreLive self.old.heap (values_of_place place) }
        requires before { IsLive self.old.heap before.now }
        ensures run { IfOk result (λ next. GoesOn programs.now self.old
            (as_value (steps_from in_front down (place_of place) before.now)) self.new next) }
        ensures live { IfOk result (IsNextLive self.new) }
        ensures less { IfOk result (λ next. weight self.new next ≤ burden self.old + 14) }
    {
        let found = match self.to_number(before) {
            Ok(found) => found,
            Err(NoMemory) => {
                discard(place);
                return Err(NoMemory);
            }
        };
        match found {
            Some(number) => self.write_step(programs, in_front, down, place, number),
            None => {
                discard(place);
                Ok(stopped(StopCause::Budget))
            }
        }
    }

    // Writes one more or one less than a number, and gives the number behind or before that.
    fn write_step(
        &mut self,
        programs: &[Program],
        in_front: bool,
        down: bool,
        place: Place,
        number: Num,
    ) -> Result<Now, NoMemory>
        requires { AreLive self.old.heap (values_of_place place) }
        ensures run { IfOk result (λ next. GoesOn programs.now self.old
            (as_value (and_then
            (spec_write_place (place_of place) (Number (spec_stepped down number)))
            (gives (Number (if in_front then spec_stepped down number else number))))) self.new
            next) }
        ensures live { IfOk result (IsNextLive self.new) }
        ensures less { IfOk result (λ next. weight self.new next ≤ burden self.old + 14) }
    {
        let behind = stepped(down, number);
        let given = if_in_front(in_front, behind, number);
        match self.put(Work::Operand(OperandWork::Instead(Value::Number(given)))) {
            Ok(()) => self.write_place(programs, place, Value::Number(behind)),
            Err(NoMemory) => {
                discard(place);
                Err(NoMemory)
            }
        }
    }

    /// The value of what a target names.
    fn read_place(&mut self, programs: &[Program], place: Place) -> Result<Now, NoMemory>
        requires { AreLive self.old.heap (values_of_place place) }
        ensures run { IfOk result (λ next. GoesOn programs.now self.old
            (as_value (spec_read_place (place_of place))) self.new
            next) }
        ensures live { IfOk result (IsNextLive self.new) }
        ensures less { IfOk result (IsLess self.old self.new) }
    {
        match place {
            Place::Name(name, code) => self.name_value(programs, code, &name),
            Place::Member(base, key) => self.read_member(base, key),
        }
    }

    /// The value of the name of a node, where something has it.
    pub fn name_value(
        &mut self,
        programs: &[Program],
        code: Code,
        name: &Text,
    ) -> Result<Now, NoMemory>
        ensures run { IfOk result (λ next. GoesOn programs.now self.old
            (as_value (spec_read_name name.now)) self.new next) }
        ensures live { IfOk result (IsNextLive self.new) }
        ensures less { IfOk result (IsLess self.old self.new) }
    {
        match self.read_name(programs, code, name)? {
            Some(found) => Ok(value(found)),
            None => Ok(stopped(StopCause::Unresolved)),
        }
    }

    /// Writes a value to what a target names, and gives it.
    fn write_place(
        &mut self,
        programs: &[Program],
        place: Place,
        given: Value,
    ) -> Result<Now, NoMemory>
        requires place { AreLive self.old.heap (values_of_place place) }
        requires given { IsLive self.old.heap given }
        ensures run { IfOk result (λ next. GoesOn programs.now self.old
            (as_value (spec_write_place (place_of place) given))
            self.new next) }
        ensures live { IfOk result (IsNextLive self.new) }
        ensures less { IfOk result (IsLess self.old self.new) }
    {
        match place {
            Place::Name(name, code) => {
                self.write_name(programs, code, &name, given.share()?)?;
                Ok(value(given))
            }
            Place::Member(base, key) => self.write_member(base, key, given),
        }
    }

    // Writes a value to a member, and gives it.
    fn write_member(&mut self, base: Value, key: Text, given: Value) -> Result<Now, NoMemory>
        requires base { IsLive self.old.heap base }
        requires given { IsLive self.old.heap given }
        ensures run { IfOk result (λ next. (programs : List ToldProgram)
            → GoesOn programs self.old (as_value (spec_write_member base key given)) self.new
            next) }
        ensures live { IfOk result (IsNextLive self.new) }
        ensures less { IfOk result (IsLess self.old self.new) }
    {
        match base {
            Value::Undefined | Value::Null => Ok(stopped(StopCause::NotObject)),
            Value::Object(object) => self.put_in_object(object, &key, given),
            Value::Host(reference) => Ok(self.write_to_host(reference, key, given)),
            Value::Bool(_) | Value::Number(_) | Value::Str(_) | Value::Function(_) => {
                Ok(value(given))
            }
        }
    }

    // Gives a property of an object a value, and gives that.
    fn put_in_object(&mut self, object: u64, key: &Text, given: Value) -> Result<Now, NoMemory>
        requires object { object < length self.old.heap }
        requires given { IsLive self.old.heap given }
        ensures run { IfOk result (λ next. (programs : List ToldProgram)
            → GoesOn programs self.old
            (as_value (spec_write_member (AnObject object) key.now given)) self.new next) }
        ensures live { IfOk result (IsNextLive self.new) }
        ensures less { IfOk result (IsLess self.old self.new) }
    {
        if !self.put_property(object, key, &given)? {
            return Ok(stopped(StopCause::Budget));
        }
        Ok(value(given))
    }

    // Asks the host to write a member, and gives what is written.
    fn write_to_host(&mut self, reference: HostRef, key: Text, given: Value) -> Now
        requires { IsLive self.old.heap given }
        ensures run { (programs : List ToldProgram)
            → GoesOn programs self.old
            (as_value (spec_write_member (OfHost reference) key given)) self.new result }
        ensures live { IsNextLive self.new result }
        ensures less { IsLess self.old self.new result }
    {
        if !self.charge_conversion(&given) {
            return stopped(StopCause::Budget);
        }
        Now::Writes(reference, key, given)
    }
}

impl Place {
    /// The same place again, which takes no memory.
    fn share(&self) -> Result<Place, NoMemory>
        ensures { IfOk result (λ place. place ≡ self.now) }
    {
        match self {
            Place::Name(name, code) => Ok(Place::Name(name.share()?, *code)),
            Place::Member(base, key) => Ok(Place::Member(base.share()?, key.share()?)),
        }
    }
}

/// One less or one more.
pub fn stepped(down: bool, number: Num) -> Num
    ensures { result ≡ spec_stepped down number }
{
    if down {
        number.add(Num::Whole(-1))
    } else {
        number.add(Num::Whole(1))
    }
}

/// The number behind a step where its operator stands in front, and else the one before it.
pub fn if_in_front(in_front: bool, behind: Num, before: Num) -> Num
    ensures { result ≡ (if in_front then behind else before) }
{
    if in_front { behind } else { before }
}
