//! Members that are read, as far as it can be done at once (ECMA-262 second edition, 11.2.1).

ghost use Rattle.std.specs.Prelude.{◌<◌, List, Some, None, Bool, IfOk, if◌then◌else◌};
ghost use Rattle.es_reader.specs.Programs.{ToldProgram};
ghost use Rattle.es_values.specs.Heaps.{IsLive};
ghost use Rattle.es_eval.specs.Actions.{as_text, behind};
ghost use Rattle.es_eval.specs.Members.{read_member as spec_read_member};
ghost use Rattle.es_eval.specs.Rows.{with_members};
ghost use Rattle.es_eval.specs.devices.Held.{IsClear, ReachesBehind};
ghost use Rattle.es_eval.specs.devices.Works.{evaluates};

use crate::held::{Held, Reached};
use crate::machine::Machine;
use crate::members::{has_no_members, text_member};
use crate::outcomes::StopCause;
use crate::works::{MemberWork, Now, Work, discard};
use bml_bytes::{NoMemory, Text};
use es_builtins::function_member;
use es_reader::Program;
use es_shapes::Code;
use es_values::Value;

/// How many levels of expressions, and of statements, are evaluated at once.
pub const LEVELS: u32 = 8;

impl Machine {
    // A member by its name: first its base.
    #[cycle(value)]
    pub fn member_of(
        &mut self,
        programs: &[Program],
        base: Code,
        name: Text,
        levels: u32,
        held: &mut Held,
    ) -> Result<Reached, NoMemory>
        requires { IsClear held.old }
        ensures { IfOk result (λ reached. ReachesBehind programs.now
            (behind (evaluates programs.now base)
            (λ base. spec_read_member base name)) self.old self.new reached held.new) }
    {
        match self.value_of(programs, base, levels, held)? {
            Reached::Value(base) => self.reach_member(base, name, held),
            Reached::Stopped(cause) => Ok(Reached::Stopped(cause)),
            Reached::Waits => held.keeps(Work::Member(MemberWork::MemberBase(name))),
        }
    }

    // A member by a key: first its base.
    #[cycle(value)]
    pub fn index_of(
        &mut self,
        programs: &[Program],
        base: Code,
        key: Code,
        levels: u32,
        held: &mut Held,
    ) -> Result<Reached, NoMemory>
        requires { IsClear held.old }
        ensures { IfOk result (λ reached. ReachesBehind programs.now
            (behind (evaluates programs.now base)
            (λ base. behind (evaluates programs.now key) (λ key. with_members base
            (behind (as_text key) (λ key. spec_read_member base key)))))
            self.old self.new reached held.new) }
    {
        match self.value_of(programs, base, levels, held)? {
            Reached::Value(base) => self.key_of(programs, base, key, levels, held),
            Reached::Stopped(cause) => Ok(Reached::Stopped(cause)),
            Reached::Waits => held.keeps(Work::Member(MemberWork::IndexBase(key))),
        }
    }

    // The key of a member, once its base is there.
    #[cycle(value)]
    fn key_of(
        &mut self,
        programs: &[Program],
        base: Value,
        key: Code,
        levels: u32,
        held: &mut Held,
    ) -> Result<Reached, NoMemory>
        requires held { IsClear held.old }
        requires base { IsLive self.old.heap base }
        ensures { IfOk result (λ reached. ReachesBehind programs.now
            (behind (evaluates programs.now key)
            (λ key. with_members base (behind (as_text key)
            (λ key. spec_read_member base key)))) self.old self.new reached held.new) }
    {
        match self.value_of(programs, key, levels, held)? {
            Reached::Value(key) => self.reach_index(base, &key, held),
            Reached::Stopped(cause) => {
                discard(base);
                Ok(Reached::Stopped(cause))
            }
            Reached::Waits => held.keeps(Work::Member(MemberWork::IndexKey(base))),
        }
    }

    // The member of a base by a key that becomes a text.
    fn reach_index(
        &mut self,
        base: Value,
        key: &Value,
        held: &mut Held,
    ) -> Result<Reached, NoMemory>
        requires held { IsClear held.old }
        requires base { IsLive self.old.heap base }
        requires key { IsLive self.old.heap key.now }
        ensures { IfOk result (λ reached. (programs : List ToldProgram) → ReachesBehind programs
            (with_members base (behind (as_text key.now) (λ key. spec_read_member base key)))
            self.old self.new reached held.new) }
    {
        if has_no_members(&base) {
            return Ok(Reached::Stopped(StopCause::NotObject));
        }
        match self.to_text(key)? {
            Some(key) => self.reach_member(base, key, held),
            None => Ok(Reached::Stopped(StopCause::Budget)),
        }
    }

    // The member of a base by its name. A host is asked for it.
    pub fn reach_member(
        &mut self,
        base: Value,
        key: Text,
        held: &mut Held,
    ) -> Result<Reached, NoMemory>
        requires held { IsClear held.old }
        requires base { IsLive self.old.heap base }
        ensures { IfOk result (λ reached. (programs : List ToldProgram) → ReachesBehind programs
            (spec_read_member base key) self.old self.new reached held.new) }
    {
        match base {
            Value::Undefined | Value::Null => Ok(Reached::Stopped(StopCause::NotObject)),
            Value::Bool(_) | Value::Number(_) => Ok(Reached::Value(Value::Undefined)),
            Value::Str(text) => Ok(Reached::Value(text_member(&text, &key))),
            Value::Object(object) => Ok(Reached::Value(self.property(object, &key)?)),
            Value::Function(number) => Ok(Reached::Value(function_member(number, &key))),
            Value::Host(reference) => {
                held.next = Now::Reads(reference, key);
                Ok(Reached::Waits)
            }
        }
    }
}
