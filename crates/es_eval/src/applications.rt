//! Calls that are evaluated at once as far as they can be: the callee, the arguments, and built-in
//! methods. The call of a function of a program waits, and so does that of a host.

ghost use Rattle.std.specs.Prelude.{◌≡◌, List, IfOk, [], true};
ghost use Rattle.es_reader.specs.Programs.{ToldProgram};
ghost use Rattle.es_values.specs.Heaps.{IsLive};
ghost use Rattle.es_shapes.specs.Codes.{declared_by};
ghost use Rattle.es_shapes.specs.devices.Parts.{expression_at, parts_from};
ghost use Rattle.es_eval.specs.declared.works.Callee.TheVariants.{Constructor as CalleeConstructor, Member as CalleeMember, Value as CalleeValue};
ghost use Rattle.es_eval.specs.Actions.{as_text, behind, step};
ghost use Rattle.es_eval.specs.Rows.{call_row, with_members};
ghost use Rattle.es_eval.specs.Unbounded.{called};
ghost use Rattle.es_eval.specs.devices.Held.{Gathers, IsBuiltIn, IsClear, ReachesBehind, reached_of_built};
ghost use Rattle.es_eval.specs.devices.Machines.{AreLive, values_of_callee};
ghost use Rattle.es_eval.specs.devices.Works.{calls_callee, calls_with, enters, evaluates};

use crate::held::{Held, Reached};
use crate::machine::Machine;
use crate::members::has_no_members;
use crate::outcomes::StopCause;
use crate::works::{CallWork, Callee, Now, OpenCall, Work, discard};
use bml_bytes::{NoMemory, Text};
use es_builtins::Built;
use es_reader::Program;
use es_shapes::{Code, Shape, expression, part};
use es_values::Value;

/// How far the arguments of a call came: all are there, or the script is stopped, or one waits for
/// what is held.
#[derive(Clone, Copy)]
pub enum Gathered {
    All,
    Stopped(StopCause),
    Waits,
}

impl Machine {
    // ---- callees

    // A callee: of a member its base, and its key, with the member's own step.
    #[cycle(value)]
    pub fn call_of(
        &mut self,
        programs: &[Program],
        call: Code,
        callee: Code,
        levels: u32,
        held: &mut Held,
    ) -> Result<Reached, NoMemory>
        requires { IsClear held.old }
        ensures { IfOk result (λ reached. ReachesBehind programs.now
            (call_row (declared_by programs.now) (called (declared_by programs.now))
            (enters programs.now) (expression_at programs.now callee)
            (parts_from programs.now call 1)) self.old self.new reached held.new) }
    {
        match expression(programs, callee)? {
            Shape::Member(base, name) => {
                self.called_member(programs, call, base, name, levels, held)
            }
            Shape::Index(base, key) => self.called_index(programs, call, base, key, levels, held),
            other => {
                discard(other);
                self.called_value(programs, call, callee, levels, held)
            }
        }
    }

    // A callee that is no member.
    #[cycle(value)]
    fn called_value(
        &mut self,
        programs: &[Program],
        call: Code,
        callee: Code,
        levels: u32,
        held: &mut Held,
    ) -> Result<Reached, NoMemory>
        requires { IsClear held.old }
        ensures { IfOk result (λ reached. ReachesBehind programs.now
            (behind (evaluates programs.now callee)
            (λ value. calls_with programs.now (CalleeValue value) [] call 1))
            self.old self.new reached held.new) }
    {
        match self.value_of(programs, callee, levels, held)? {
            Reached::Value(value) => {
                self.arguments_of(programs, Callee::Value(value), call, levels, held)
            }
            Reached::Stopped(cause) => Ok(Reached::Stopped(cause)),
            Reached::Waits => held.keeps(Work::Call(CallWork::Callee(call))),
        }
    }

    // What `new` makes of a value.
    #[cycle(value)]
    pub fn new_of(
        &mut self,
        programs: &[Program],
        call: Code,
        callee: Code,
        levels: u32,
        held: &mut Held,
    ) -> Result<Reached, NoMemory>
        requires { IsClear held.old }
        ensures { IfOk result (λ reached. ReachesBehind programs.now
            (behind (evaluates programs.now callee)
            (λ value. calls_with programs.now (CalleeConstructor value) [] call 1))
            self.old self.new reached held.new) }
    {
        match self.value_of(programs, callee, levels, held)? {
            Reached::Value(value) => {
                self.arguments_of(programs, Callee::Constructor(value), call, levels, held)
            }
            Reached::Stopped(cause) => Ok(Reached::Stopped(cause)),
            Reached::Waits => held.keeps(Work::Call(CallWork::Constructor(call))),
        }
    }

    // A member by its name that is called, with its own step: first its base.
    #[cycle(value)]
    fn called_member(
        &mut self,
        programs: &[Program],
        call: Code,
        base: Code,
        name: Text,
        levels: u32,
        held: &mut Held,
    ) -> Result<Reached, NoMemory>
        requires { IsClear held.old }
        ensures { IfOk result (λ reached. ReachesBehind programs.now
            (step (behind (evaluates programs.now base) (λ base. with_members base
            (calls_with programs.now (CalleeMember base name) [] call 1))))
            self.old self.new reached held.new) }
    {
        if !self.take_step() {
            discard(name);
            return Ok(Reached::Stopped(StopCause::Budget));
        }
        match self.value_of(programs, base, levels, held)? {
            Reached::Value(base) => self.called_on(programs, call, base, name, levels, held),
            Reached::Stopped(cause) => {
                discard(name);
                Ok(Reached::Stopped(cause))
            }
            Reached::Waits => held.keeps(Work::Call(CallWork::MemberBase(name, call))),
        }
    }

    // A member that is called has its base and its name.
    #[cycle(value)]
    fn called_on(
        &mut self,
        programs: &[Program],
        call: Code,
        base: Value,
        name: Text,
        levels: u32,
        held: &mut Held,
    ) -> Result<Reached, NoMemory>
        requires held { IsClear held.old }
        requires base { IsLive self.old.heap base }
        ensures { IfOk result (λ reached. ReachesBehind programs.now
            (with_members base (calls_with programs.now (CalleeMember base name) [] call 1))
            self.old self.new reached held.new) }
    {
        if has_no_members(&base) {
            discard(base);
            discard(name);
            return Ok(Reached::Stopped(StopCause::NotObject));
        }
        self.arguments_of(programs, Callee::Member(base, name), call, levels, held)
    }

    // A member by a key that is called, with its own step: first its base.
    #[cycle(value)]
    fn called_index(
        &mut self,
        programs: &[Program],
        call: Code,
        base: Code,
        key: Code,
        levels: u32,
        held: &mut Held,
    ) -> Result<Reached, NoMemory>
        requires { IsClear held.old }
        ensures { IfOk result (λ reached. ReachesBehind programs.now
            (step (behind (evaluates programs.now base) (λ base. behind
            (evaluates programs.now key) (λ key. with_members base (behind (as_text key)
            (λ key. calls_with programs.now (CalleeMember base key) [] call 1))))))
            self.old self.new reached held.new) }
    {
        if !self.take_step() {
            return Ok(Reached::Stopped(StopCause::Budget));
        }
        match self.value_of(programs, base, levels, held)? {
            Reached::Value(base) => self.called_key(programs, call, base, key, levels, held),
            Reached::Stopped(cause) => Ok(Reached::Stopped(cause)),
            Reached::Waits => held.keeps(Work::Call(CallWork::IndexBase(key, call))),
        }
    }

    // The key of a member that is called, once its base is there.
    #[cycle(value)]
    fn called_key(
        &mut self,
        programs: &[Program],
        call: Code,
        base: Value,
        key: Code,
        levels: u32,
        held: &mut Held,
    ) -> Result<Reached, NoMemory>
        requires held { IsClear held.old }
        requires base { IsLive self.old.heap base }
        ensures { IfOk result (λ reached. ReachesBehind programs.now
            (behind (evaluates programs.now key) (λ key. with_members base (behind (as_text key)
            (λ key. calls_with programs.now (CalleeMember base key) [] call 1))))
            self.old self.new reached held.new) }
    {
        match self.value_of(programs, key, levels, held)? {
            Reached::Value(key) => self.called_text(programs, call, base, &key, levels, held),
            Reached::Stopped(cause) => {
                discard(base);
                Ok(Reached::Stopped(cause))
            }
            Reached::Waits => held.keeps(Work::Call(CallWork::IndexKey(base, call))),
        }
    }

    // The key of a member that is called becomes a text.
    #[cycle(value)]
    fn called_text(
        &mut self,
        programs: &[Program],
        call: Code,
        base: Value,
        key: &Value,
        levels: u32,
        held: &mut Held,
    ) -> Result<Reached, NoMemory>
        requires held { IsClear held.old }
        requires base { IsLive self.old.heap base }
        requires key { IsLive self.old.heap key.now }
        ensures { IfOk result (λ reached. ReachesBehind programs.now
            (with_members base (behind (as_text key.now)
            (λ key. calls_with programs.now (CalleeMember base key) [] call 1)))
            self.old self.new reached held.new) }
    {
        if has_no_members(&base) {
            discard(base);
            return Ok(Reached::Stopped(StopCause::NotObject));
        }
        match self.to_text(key)? {
            Some(key) => {
                self.arguments_of(programs, Callee::Member(base, key), call, levels, held)
            }
            None => {
                discard(base);
                Ok(Reached::Stopped(StopCause::Budget))
            }
        }
    }

    // ---- arguments

    // The arguments of a call whose callee is there, and then the call.
    #[cycle(value)]
    fn arguments_of(
        &mut self,
        programs: &[Program],
        callee: Callee,
        call: Code,
        levels: u32,
        held: &mut Held,
    ) -> Result<Reached, NoMemory>
        requires held { IsClear held.old }
        requires callee { AreLive self.old.heap (values_of_callee callee) }
        ensures { IfOk result (λ reached. ReachesBehind programs.now
            (calls_with programs.now callee [] call 1) self.old self.new reached held.new) }
    {
        let mut opened = OpenCall {
            callee,
            given: Vec::new(self.heap.allocator()),
            call,
            next: 1,
        };
        match self.gather(programs, &mut opened, levels, held)? {
            Gathered::All => self.apply(opened.callee, opened.given, held),
            Gathered::Stopped(cause) => {
                discard(opened);
                Ok(Reached::Stopped(cause))
            }
            Gathered::Waits => held.keeps(Work::Call(CallWork::Argument(opened))),
        }
    }

    // The arguments of a call that are still to come.
    #[cycle(value)]
    pub fn gather(
        &mut self,
        programs: &[Program],
        opened: &mut OpenCall,
        levels: u32,
        held: &mut Held,
    ) -> Result<Gathered, NoMemory>
        requires held { IsClear held.old }
        requires given { AreLive self.old.heap opened.old.given.items }
        ensures callee { opened.new.callee ≡ opened.old.callee }
        ensures call { opened.new.call ≡ opened.old.call }
        ensures gathers { IfOk result (λ gathered. Gathers programs.now self.old self.new
            opened.old opened.new gathered held.new) }
    {
        'arguments: while let Some(argument) = part(programs, opened.call, opened.next) {
            opened.next += 1;
            match self.value_of(programs, argument, levels, held)? {
                Reached::Value(value) => opened.given.push(value)?,
                Reached::Stopped(cause) => return Ok(Gathered::Stopped(cause)),
                Reached::Waits => return Ok(Gathered::Waits),
            }
        }
        Ok(Gathered::All)
    }

    // ---- calls

    // A call is made, with all its arguments. What isn't built in waits.
    fn apply(
        &mut self,
        callee: Callee,
        given: Vec<Value>,
        held: &mut Held,
    ) -> Result<Reached, NoMemory>
        requires held { IsClear held.old }
        requires callee { AreLive self.old.heap (values_of_callee callee) }
        requires given { AreLive self.old.heap given.items }
        ensures { IfOk result (λ reached. (programs : List ToldProgram) → ReachesBehind programs
            (calls_callee programs callee given.items) self.old self.new reached held.new) }
    {
        match callee {
            Callee::Member(base, key) => self.apply_member(base, key, given, held),
            other => {
                held.next = Now::Applies(other, given);
                Ok(Reached::Waits)
            }
        }
    }

    // The same of a member: a built-in method is called at once.
    fn apply_member(
        &mut self,
        base: Value,
        key: Text,
        given: Vec<Value>,
        held: &mut Held,
    ) -> Result<Reached, NoMemory>
        requires held { IsClear held.old }
        requires base { IsLive self.old.heap base }
        requires given { AreLive self.old.heap given.items }
        ensures { IfOk result (λ reached. (programs : List ToldProgram) → ReachesBehind programs
            (calls_callee programs (CalleeMember base key) given.items) self.old self.new reached
            held.new) }
    {
        if !self.is_built_in(&base, &key)? {
            held.next = Now::Applies(Callee::Member(base, key), given);
            return Ok(Reached::Waits);
        }
        let built = self.call_built_in_method(&base, &key, &given)?;
        Ok(reached_of(built))
    }

    // Whether what a member of a base names is a built-in method, if anything: the base is no host,
    // and an object has no function of its own there.
    fn is_built_in(&self, base: &Value, key: &Text) -> Result<bool, NoMemory>
        requires { IsLive self.now.heap base.now }
        ensures { IfOk result (λ built. built ≡ true → IsBuiltIn self.now.heap base.now key.now) }
    {
        match base {
            Value::Undefined | Value::Null | Value::Host(_) => Ok(false),
            Value::Object(object) => match self.property(*object, key)? {
                Value::Function(_) => Ok(false),
                other => {
                    discard(other);
                    Ok(true)
                }
            },
            Value::Bool(_) | Value::Number(_) | Value::Str(_) | Value::Function(_) => Ok(true),
        }
    }
}

// What a built-in method answered, as what is reached.
fn reached_of(built: Built) -> Reached
    ensures { result ≡ reached_of_built built }
{
    match built {
        Built::Value(value) => Reached::Value(value),
        Built::NotCallable => Reached::Stopped(StopCause::NotCallable),
        Built::OverBudget => Reached::Stopped(StopCause::Budget),
    }
}
