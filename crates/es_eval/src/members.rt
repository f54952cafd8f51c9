//! Members that are read and deleted.

ghost use Rattle.std.specs.Prelude.{◌≡◌, List, IfOk};
ghost use Rattle.es_reader.specs.Programs.{ToldProgram};
ghost use Rattle.es_values.specs.Heaps.{IsLive};
ghost use Rattle.es_eval.specs.declared.works.Work.TheVariants.{Member as MemberItem};
ghost use Rattle.es_eval.specs.Actions.{as_text, behind};
ghost use Rattle.es_eval.specs.devices.Machines.{GoesOn, IsLess, IsNextLive, IsWorkLive};
ghost use Rattle.es_eval.specs.Members.{delete_index as spec_delete_index, delete_member as spec_delete_member, read_member as spec_read_member, text_member as spec_text_member};
ghost use Rattle.es_eval.specs.Rows.{with_members};
ghost use Rattle.es_eval.specs.devices.Works.{as_value, is_without_members, member_row};

use crate::machine::Machine;
use crate::nexts::{stopped, value};
use crate::outcomes::StopCause;
use crate::works::{MemberWork, Now, Work};
use bml_bytes::{NoMemory, Text};
use es_builtins::function_member;
use es_values::{Num, Value};

impl Machine {
    /// What is done with the base or key of a member that is read or deleted.
    pub fn on_member(&mut self, item: MemberWork, given: Value) -> Result<Now, NoMemory>
        requires item { IsWorkLive self.old.heap (MemberItem item) }
        requires given { IsLive self.old.heap given }
        ensures run { IfOk result (λ next. (programs : List ToldProgram)
            → GoesOn programs self.old (as_value (member_row programs item given)) self.new next) }
        ensures live { IfOk result (IsNextLive self.new) }
        ensures less { IfOk result (IsLess self.old self.new) }
    {
        match item {
            MemberWork::IndexBase(key) => {
                self.evaluate_then(Work::Member(MemberWork::IndexKey(given)), key)
            }
            MemberWork::IndexKey(base) => self.read_index(base, &given),
            MemberWork::MemberBase(name) => self.read_member(given, name),
            MemberWork::DeleteIndexBase(key) => {
                self.evaluate_then(Work::Member(MemberWork::DeleteIndexKey(given)), key)
            }
            MemberWork::DeleteIndexKey(base) => self.delete_index(&base, &given),
            MemberWork::DeleteMember(name) => Ok(self.delete_member(&given, &name)),
            MemberWork::DeleteOther => Ok(value(Value::Bool(false))),
        }
    }

    /// The member of a base by a key that becomes a text.
    fn read_index(&mut self, base: Value, key: &Value) -> Result<Now, NoMemory>
        requires base { IsLive self.old.heap base }
        requires key { IsLive self.old.heap key.now }
        ensures run { IfOk result (λ next. (programs : List ToldProgram)
            → GoesOn programs self.old (as_value (with_members base
            (behind (as_text key.now) (λ key. spec_read_member base key)))) self.new next) }
        ensures live { IfOk result (IsNextLive self.new) }
        ensures less { IfOk result (IsLess self.old self.new) }
    {
        if has_no_members(&base) {
            return Ok(stopped(StopCause::NotObject));
        }
        match self.to_text(key)? {
            Some(key) => self.read_member(base, key),
            None => Ok(stopped(StopCause::Budget)),
        }
    }

    /// The member of a base by its name.
    pub fn read_member(&mut self, base: Value, key: Text) -> Result<Now, NoMemory>
        requires { IsLive self.old.heap base }
        ensures run { IfOk result (λ next. (programs : List ToldProgram)
            → GoesOn programs self.old (as_value (spec_read_member base key)) self.new next) }
        ensures live { IfOk result (IsNextLive self.new) }
        ensures less { IfOk result (IsLess self.old self.new) }
    {
        match base {
            Value::Undefined | Value::Null => Ok(stopped(StopCause::NotObject)),
            Value::Bool(_) | Value::Number(_) => Ok(value(Value::Undefined)),
            Value::Str(text) => Ok(value(text_member(&text, &key))),
            Value::Object(object) => Ok(value(self.property(object, &key)?)),
            Value::Function(number) => Ok(value(function_member(number, &key))),
            Value::Host(reference) => Ok(Now::Reads(reference, key)),
        }
    }

    // Deletes the member of a base by a key that becomes a text where the base is an object.
    fn delete_index(&mut self, base: &Value, key: &Value) -> Result<Now, NoMemory>
        requires base { IsLive self.old.heap base.now }
        requires key { IsLive self.old.heap key.now }
        ensures run { IfOk result (λ next. (programs : List ToldProgram)
            → GoesOn programs self.old (as_value (spec_delete_index base.now key.now)) self.new
            next) }
        ensures live { IfOk result (IsNextLive self.new) }
        ensures less { IfOk result (IsLess self.old self.new) }
    {
        let Value::Object(object) = base else {
            return Ok(value(Value::Bool(false)));
        };
        match self.to_text(key)? {
            Some(key) => Ok(value(Value::Bool(self.delete(*object, &key)))),
            None => Ok(stopped(StopCause::Budget)),
        }
    }

    // Deletes the member of a base by its name.
    fn delete_member(&mut self, base: &Value, name: &Text) -> Now
        requires { IsLive self.old.heap base.now }
        ensures run { (programs : List ToldProgram)
            → GoesOn programs self.old (as_value (spec_delete_member base.now name.now)) self.new
            result }
        ensures live { IsNextLive self.new result }
        ensures less { IsLess self.old self.new result }
    {
        match base {
            Value::Object(object) => value(Value::Bool(self.delete(*object, name))),
            _ => value(Value::Bool(false)),
        }
    }
}

/// Whether a base has no member that could be read, called or written.
pub fn has_no_members(base: &Value) -> bool
    ensures { result ≡ is_without_members base.now }
{
    matches!(base, Value::Undefined | Value::Null)
}

// A member of a text: its length, and Undefined for any other name.
pub fn text_member(text: &Text, name: &Text) -> Value
    ensures { result ≡ spec_text_member text.now name.now }
{
    if name.is_word("length") {
        Value::Number(Num::of_count(text.len()))
    } else {
        Value::Undefined
    }
}
