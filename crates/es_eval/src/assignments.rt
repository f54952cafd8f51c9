//! Assignments, which are made at once as far as they can be (ECMA-262 second edition, 11.13).

ghost use Rattle.std.specs.Prelude.{◌≡◌, ◌<◌, List, Some, None, Bool, true, length, IfOk, if◌then◌else◌};
ghost use Rattle.es_reader.specs.Programs.{ToldProgram};
ghost use Rattle.es_values.specs.declared.values.Value.TheVariants.{Host as OfHost, Object as AnObject};
ghost use Rattle.es_values.specs.Heaps.{IsLive};
ghost use Rattle.es_shapes.specs.Sources.{target_of};
ghost use Rattle.es_shapes.specs.Syntax.Expression.{Name};
ghost use Rattle.es_shapes.specs.devices.Parts.{expression_at};
ghost use Rattle.es_shapes.specs.devices.Leaves.{is_name};
ghost use Rattle.es_shapes.specs.devices.Shapes.{shaped};
ghost use Rattle.es_eval.specs.Actions.{as_text, behind};
ghost use Rattle.es_eval.specs.Members.{read_place, write_member as spec_write_member, write_name, write_place};
ghost use Rattle.es_eval.specs.Operations.{operates};
ghost use Rattle.es_eval.specs.Rows.{entered_place, place_row};
ghost use Rattle.es_eval.specs.devices.Held.{IsClear, ReachesBehind};
ghost use Rattle.es_eval.specs.devices.Works.{enters, evaluates};

use crate::held::{Held, Reached};
use crate::machine::Machine;
use crate::outcomes::StopCause;
use crate::values::reached;
use crate::works::{Now, Place, TargetWork, Use, Work, discard};
use bml_bytes::{NoMemory, Text};
use es_reader::Program;
use es_shapes::{Code, Operator, Shape, expression, name_at};
use es_values::{HostRef, Value};

/// How many levels of expressions, and of statements, are evaluated at once.
pub const LEVELS: u32 = 8;

impl Machine {
    // The step of a target, and then what it names, to which the right side is written.
    #[cycle(value)]
    pub fn assign_of(
        &mut self,
        programs: &[Program],
        target: Code,
        right: Code,
        levels: u32,
        held: &mut Held,
    ) -> Result<Reached, NoMemory>
        requires { IsClear held.old }
        ensures { IfOk result (λ reached. ReachesBehind programs.now
            (behind (entered_place (enters programs.now)
            (target_of (expression_at programs.now target)))
            (λ place. behind (evaluates programs.now right) (write_place place)))
            self.old self.new reached held.new) }
    {
        if !self.take_step() {
            return Ok(Reached::Stopped(StopCause::Budget));
        }
        match name_at(programs, target) {
            Some(name) => self.assign_name(programs, name, target, right, levels, held),
            None => self.assign_part(programs, target, right, levels, held),
        }
    }

    // The same where the target is no name, behind its step. What is no target is a name without
    // codes.
    #[cycle(value)]
    fn assign_part(
        &mut self,
        programs: &[Program],
        target: Code,
        right: Code,
        levels: u32,
        held: &mut Held,
    ) -> Result<Reached, NoMemory>
        requires { IsClear held.old }
        ensures { IfOk result (λ reached. ReachesBehind programs.now
            (behind (place_row (enters programs.now)
            (target_of (expression_at programs.now target)))
            (λ place. behind (evaluates programs.now right) (write_place place)))
            self.old self.new reached held.new) }
    {
        let shape = expression(programs, target)?;
        self.assign_shape(programs, target, shape, right, levels, held)
    }

    // The same of a target of this shape.
    #[cycle(value)]
    #[tactic(auto, unfolding(es_shapes::specs::devices::Shapes::shaped))]
    fn assign_shape(
        &mut self,
        programs: &[Program],
        target: Code,
        shape: Shape,
        right: Code,
        levels: u32,
        held: &mut Held,
    ) -> Result<Reached, NoMemory>
        requires { IsClear held.old }
        ensures { IfOk result (λ reached. ReachesBehind programs.now
            (behind (place_row (enters programs.now)
            (target_of (shaped programs.now target shape)))
            (λ place. behind (evaluates programs.now right) (write_place place)))
            self.old self.new reached held.new) }
    {
        match shape {
            Shape::Name(name) => self.assign_name(programs, &name, target, right, levels, held),
            Shape::Member(base, name) => {
                self.assign_member(programs, base, name, right, levels, held)
            }
            Shape::Index(base, key) => {
                self.assign_index(programs, base, key, right, levels, held)
            }
            other => {
                discard(other);
                let name = Text::of_codes(self.heap.allocator(), &[])?;
                self.assign_name(programs, &name, target, right, levels, held)
            }
        }
    }

    // What is assigned to a name.
    #[cycle(value)]
    fn assign_name(
        &mut self,
        programs: &[Program],
        name: &Text,
        code: Code,
        right: Code,
        levels: u32,
        held: &mut Held,
    ) -> Result<Reached, NoMemory>
        requires { IsClear held.old }
        ensures { IfOk result (λ reached. ReachesBehind programs.now
            (behind (evaluates programs.now right)
            (write_name name.now)) self.old self.new reached held.new) }
    {
        match self.value_of(programs, right, levels, held)? {
            Reached::Value(value) => {
                let found = self.written_value(programs, name, code, value)?;
                Ok(reached(found))
            }
            Reached::Stopped(cause) => Ok(Reached::Stopped(cause)),
            Reached::Waits => {
                let place = Place::Name(name.share()?, code);
                held.keeps(Work::Target(TargetWork::Write(place)))
            }
        }
    }

    // What is assigned to a member by its name: first the base.
    #[cycle(value)]
    fn assign_member(
        &mut self,
        programs: &[Program],
        base: Code,
        name: Text,
        right: Code,
        levels: u32,
        held: &mut Held,
    ) -> Result<Reached, NoMemory>
        requires { IsClear held.old }
        ensures { IfOk result (λ reached. ReachesBehind programs.now
            (behind (evaluates programs.now base)
            (λ base. behind (evaluates programs.now right) (spec_write_member base name)))
            self.old self.new reached held.new) }
    {
        match self.value_of(programs, base, levels, held)? {
            Reached::Value(base) => self.assign_to(programs, base, name, right, levels, held),
            Reached::Stopped(cause) => Ok(Reached::Stopped(cause)),
            Reached::Waits => {
                held.keeps(Work::Target(TargetWork::MemberBase(name, Use::Assign(right))))
            }
        }
    }

    // What is assigned to a member by a key: first the base.
    #[cycle(value)]
    fn assign_index(
        &mut self,
        programs: &[Program],
        base: Code,
        key: Code,
        right: Code,
        levels: u32,
        held: &mut Held,
    ) -> Result<Reached, NoMemory>
        requires { IsClear held.old }
        ensures { IfOk result (λ reached. ReachesBehind programs.now
            (behind (evaluates programs.now base)
            (λ base. behind (evaluates programs.now key) (λ key. behind (as_text key)
            (λ key. behind (evaluates programs.now right) (spec_write_member base key)))))
            self.old self.new reached held.new) }
    {
        match self.value_of(programs, base, levels, held)? {
            Reached::Value(base) => self.assign_key(programs, base, key, right, levels, held),
            Reached::Stopped(cause) => Ok(Reached::Stopped(cause)),
            Reached::Waits => {
                held.keeps(Work::Target(TargetWork::IndexBase(key, Use::Assign(right))))
            }
        }
    }

    // The key, once the base is there.
    #[cycle(value)]
    fn assign_key(
        &mut self,
        programs: &[Program],
        base: Value,
        key: Code,
        right: Code,
        levels: u32,
        held: &mut Held,
    ) -> Result<Reached, NoMemory>
        requires held { IsClear held.old }
        requires base { IsLive self.old.heap base }
        ensures { IfOk result (λ reached. ReachesBehind programs.now
            (behind (evaluates programs.now key)
            (λ key. behind (as_text key)
            (λ key. behind (evaluates programs.now right) (spec_write_member base key))))
            self.old self.new reached held.new) }
    {
        match self.value_of(programs, key, levels, held)? {
            Reached::Value(key) => self.assign_text(programs, base, &key, right, levels, held),
            Reached::Stopped(cause) => {
                discard(base);
                Ok(Reached::Stopped(cause))
            }
            Reached::Waits => {
                held.keeps(Work::Target(TargetWork::IndexKey(base, Use::Assign(right))))
            }
        }
    }

    // The key becomes a text.
    #[cycle(value)]
    fn assign_text(
        &mut self,
        programs: &[Program],
        base: Value,
        key: &Value,
        right: Code,
        levels: u32,
        held: &mut Held,
    ) -> Result<Reached, NoMemory>
        requires held { IsClear held.old }
        requires base { IsLive self.old.heap base }
        requires key { IsLive self.old.heap key.now }
        ensures { IfOk result (λ reached. ReachesBehind programs.now (behind (as_text key.now)
            (λ key. behind (evaluates programs.now right) (spec_write_member base key)))
            self.old self.new reached held.new) }
    {
        match self.to_text(key)? {
            Some(key) => self.assign_to(programs, base, key, right, levels, held),
            None => {
                discard(base);
                Ok(Reached::Stopped(StopCause::Budget))
            }
        }
    }

    // What is assigned to a member, once its base and key are there.
    #[cycle(value)]
    fn assign_to(
        &mut self,
        programs: &[Program],
        base: Value,
        key: Text,
        right: Code,
        levels: u32,
        held: &mut Held,
    ) -> Result<Reached, NoMemory>
        requires held { IsClear held.old }
        requires base { IsLive self.old.heap base }
        ensures { IfOk result (λ reached. ReachesBehind programs.now
            (behind (evaluates programs.now right)
            (spec_write_member base key)) self.old self.new reached held.new) }
    {
        match self.value_of(programs, right, levels, held)? {
            Reached::Value(value) => self.reach_write(base, key, value, held),
            Reached::Stopped(cause) => {
                discard(base);
                discard(key);
                Ok(Reached::Stopped(cause))
            }
            Reached::Waits => held.keeps(Work::Target(TargetWork::Write(Place::Member(base, key)))),
        }
    }

    // ---- members that are written

    // Writes a value to a member, and gives it. A host is asked to write it.
    fn reach_write(
        &mut self,
        base: Value,
        key: Text,
        given: Value,
        held: &mut Held,
    ) -> Result<Reached, NoMemory>
        requires held { IsClear held.old }
        requires base { IsLive self.old.heap base }
        requires given { IsLive self.old.heap given }
        ensures { IfOk result (λ reached. (programs : List ToldProgram) → ReachesBehind programs
            (spec_write_member base key given) self.old self.new reached held.new) }
    {
        match base {
            Value::Undefined | Value::Null => Ok(Reached::Stopped(StopCause::NotObject)),
            Value::Object(object) => self.reach_put(object, &key, given),
            Value::Host(reference) => Ok(self.reach_host(reference, key, given, held)),
            Value::Bool(_) | Value::Number(_) | Value::Str(_) | Value::Function(_) => {
                Ok(Reached::Value(given))
            }
        }
    }

    // Gives a property of an object a value, and gives that.
    fn reach_put(&mut self, object: u64, key: &Text, given: Value) -> Result<Reached, NoMemory>
        requires object { object < length self.old.heap }
        requires given { IsLive self.old.heap given }
        ensures { IfOk result (λ reached. (programs : List ToldProgram) (held : Held)
            → IsClear held → ReachesBehind programs
            (spec_write_member (AnObject object) key.now given) self.old self.new reached held) }
    {
        if !self.put_property(object, key, &given)? {
            return Ok(Reached::Stopped(StopCause::Budget));
        }
        Ok(Reached::Value(given))
    }

    // Asks the host to write a member, and gives what is written.
    fn reach_host(
        &mut self,
        reference: HostRef,
        key: Text,
        given: Value,
        held: &mut Held,
    ) -> Reached
        requires held { IsClear held.old }
        requires given { IsLive self.old.heap given }
        ensures { (programs : List ToldProgram) → ReachesBehind programs
            (spec_write_member (OfHost reference) key given) self.old self.new result held.new }
    {
        if !self.charge_conversion(&given) {
            return Reached::Stopped(StopCause::Budget);
        }
        held.next = Now::Writes(reference, key, given);
        Reached::Waits
    }

    // ---- assignments with an operator

    // The step of a name, and then its value, behind which the right side follows.
    #[cycle(value)]
    pub fn update_of(
        &mut self,
        programs: &[Program],
        operator: Operator,
        target: Code,
        right: Code,
        levels: u32,
        held: &mut Held,
    ) -> Result<Reached, NoMemory>
        requires held { IsClear held.old }
        requires target { is_name (expression_at programs.now target) ≡ true }
        ensures { IfOk result (λ reached. ReachesBehind programs.now
            (behind (entered_place (enters programs.now)
            (target_of (expression_at programs.now target))) (λ place. behind (read_place place)
            (λ before. behind (evaluates programs.now right) (λ value. behind
            (operates operator before value) (write_place place)))))
            self.old self.new reached held.new) }
    {
        if !self.take_step() {
            return Ok(Reached::Stopped(StopCause::Budget));
        }
        let Some(name) = name_at(programs, target) else {
            unreachable!()
        };
        match self.read_name(programs, target, name)? {
            Some(before) => {
                self.update_from(
                    programs, operator, name, target, before, right, levels, held,
                )
            }
            None => Ok(Reached::Stopped(StopCause::Unresolved)),
        }
    }

    // The right side, behind the value before.
    #[cycle(value)]
    fn update_from(
        &mut self,
        programs: &[Program],
        operator: Operator,
        name: &Text,
        code: Code,
        before: Value,
        right: Code,
        levels: u32,
        held: &mut Held,
    ) -> Result<Reached, NoMemory>
        requires held { IsClear held.old }
        requires before { IsLive self.old.heap before }
        ensures { IfOk result (λ reached. ReachesBehind programs.now
            (behind (evaluates programs.now right)
            (λ value. behind (operates operator before value) (write_name name.now)))
            self.old self.new reached held.new) }
    {
        match self.value_of(programs, right, levels, held)? {
            Reached::Value(value) => {
                let found = self.update_with(programs, operator, name, code, &before, &value)?;
                Ok(reached(found))
            }
            Reached::Stopped(cause) => Ok(Reached::Stopped(cause)),
            Reached::Waits => {
                let place = Place::Name(name.share()?, code);
                held.keeps(Work::Target(TargetWork::UpdateRight(operator, place, before)))
            }
        }
    }
}
