//! Calls: their callees and arguments, and what is called.

ghost use Rattle.std.specs.Prelude.{◌≡◌, ◌<◌, ◌≤◌, ◌+◌, [], List, Some, IfOk, length};
ghost use Rattle.std.specs.Option.{option_map_or};
ghost use Rattle.es_expressions.specs.Trees.Trees.{NoTrees, OneMore};
ghost use Rattle.es_reader.specs.Programs.{ToldProgram};
ghost use Rattle.es_builtins.specs.Methods.{method_row};
ghost use Rattle.es_values.specs.declared.values.Value.TheVariants.{Host as HostValue, Object as AnObject};
ghost use Rattle.es_values.specs.Heaps.{IsLive};
ghost use Rattle.es_frames.specs.Depth.{most_calls};
ghost use Rattle.es_eval.specs.declared.works.Work.TheVariants.{Call as CallItem};
ghost use Rattle.es_eval.specs.declared.works.CallWork.TheVariants.{Argument, IndexKey, MemberBase};
ghost use Rattle.es_shapes.specs.Syntax.{Function};
ghost use Rattle.es_eval.specs.Actions.{by_row};
ghost use Rattle.es_eval.specs.Calls.{call_member as spec_call_member, call_number as spec_call_number, call_value as spec_call_value, construct as spec_construct, enter as spec_enter, inside, outside, new_value as spec_new_value};
ghost use Rattle.es_shapes.specs.devices.Parts.{declared_at, function_trees, tree_of};
ghost use Rattle.es_shapes.specs.Codes.{declared_by};
ghost use Rattle.es_eval.specs.devices.Machines.{AreLive, GoesOn, IsLessAfter, IsLessOfCall, IsNextLive, IsWorkLive, MachineState, built_run, burden, run_from, value_rest, values_of_built, values_of_callee, values_of_next, weight, weight_of_next, world_of};
ghost use Rattle.es_eval.specs.Unbounded.{called};
ghost use Rattle.es_eval.specs.devices.Works.{as_value, call_work_row, calls_callee, calls_with};

use crate::applications::Gathered;
use crate::held::Held;
use crate::machine::Machine;
use crate::members::has_no_members;
use crate::nexts::{stopped, value};
use crate::outcomes::StopCause;
use crate::values::LEVELS;
use crate::works::{CallWork, Callee, Now, OpenCall, Work, discard};
use bml_bytes::{NoMemory, Text};
use es_builtins::Built;
use es_frames::MOST_CALLS;
use es_reader::Program;
use es_shapes::{Code, Declared, Listing, Programs, declaration};
use es_values::{HostRef, Value};

impl Machine {
    /// What is done with a part of a call.
    pub fn on_call(
        &mut self,
        programs: &mut Programs<'_>,
        item: CallWork,
        given: Value,
    ) -> Result<Now, NoMemory>
        requires item { IsWorkLive self.old.heap (CallItem item) }
        requires given { IsLive self.old.heap given }
        ensures run { IfOk result (λ next. GoesOn programs.old self.old
            (as_value (call_work_row programs.old item given)) self.new next) }
        ensures live { IfOk result (IsNextLive self.new) }
        ensures less { IfOk result (IsLessAfter (CallItem item) self.old self.new) }
        ensures programs { programs.new ≡ programs.old }
    {
        match item {
            CallWork::IndexBase(key, call) => {
                self.evaluate_then(Work::Call(CallWork::IndexKey(given, call)), key)
            }
            CallWork::IndexKey(base, call) => self.call_index(programs, base, &given, call),
            CallWork::MemberBase(name, call) => self.open_member(programs, given, name, call),
            CallWork::Callee(call) => self.open_call(programs, Callee::Value(given), call),
            CallWork::Constructor(call) => {
                self.open_call(programs, Callee::Constructor(given), call)
            }
            CallWork::Argument(opened) => self.add_argument(programs, opened, given),
            CallWork::Constructed(new) => Ok(value(match given {
                Value::Object(object) => Value::Object(object),
                _ => new,
            })),
        }
    }

    // An argument is there, and the next one follows.
    fn add_argument(
        &mut self,
        programs: &mut Programs<'_>,
        mut opened: OpenCall,
        given: Value,
    ) -> Result<Now, NoMemory>
        requires item { IsWorkLive self.old.heap (CallItem (Argument opened)) }
        requires given { IsLive self.old.heap given }
        ensures run { IfOk result (λ next. GoesOn programs.old self.old
            (as_value (call_work_row programs.old (Argument opened) given)) self.new next) }
        ensures live { IfOk result (IsNextLive self.new) }
        ensures less { IfOk result (IsLessOfCall self.old self.new) }
        ensures programs { programs.new ≡ programs.old }
    {
        opened.given.push(given)?;
        self.go_on(programs, opened)
    }

    // A member that is called has its base.
    fn open_member(
        &mut self,
        programs: &mut Programs<'_>,
        given: Value,
        name: Text,
        call: Code,
    ) -> Result<Now, NoMemory>
        requires { IsLive self.old.heap given }
        ensures run { IfOk result (λ next. GoesOn programs.old self.old
            (as_value (call_work_row programs.old (MemberBase name call) given)) self.new next) }
        ensures live { IfOk result (IsNextLive self.new) }
        ensures less { IfOk result (IsLessOfCall self.old self.new) }
        ensures programs { programs.new ≡ programs.old }
    {
        if has_no_members(&given) {
            return Ok(stopped(StopCause::NotObject));
        }
        self.open_call(programs, Callee::Member(given, name), call)
    }

    // Calls the member of a base by a key that becomes a text.
    fn call_index(
        &mut self,
        programs: &mut Programs<'_>,
        base: Value,
        key: &Value,
        call: Code,
    ) -> Result<Now, NoMemory>
        requires base { IsLive self.old.heap base }
        requires key { IsLive self.old.heap key.now }
        ensures run { IfOk result (λ next. GoesOn programs.old self.old
            (as_value (call_work_row programs.old (IndexKey base call) key.now)) self.new next) }
        ensures live { IfOk result (IsNextLive self.new) }
        ensures less { IfOk result (IsLessOfCall self.old self.new) }
        ensures programs { programs.new ≡ programs.old }
    {
        if has_no_members(&base) {
            return Ok(stopped(StopCause::NotObject));
        }
        match self.to_text(key)? {
            Some(key) => self.open_call(programs, Callee::Member(base, key), call),
            None => Ok(stopped(StopCause::Budget)),
        }
    }

    // A callee is there, and its arguments follow.
    fn open_call(
        &mut self,
        programs: &mut Programs<'_>,
        callee: Callee,
        call: Code,
    ) -> Result<Now, NoMemory>
        requires { AreLive self.old.heap (values_of_callee callee) }
        ensures run { IfOk result (λ next. GoesOn programs.old self.old
            (as_value (calls_with programs.old callee [] call 1)) self.new next) }
        ensures live { IfOk result (IsNextLive self.new) }
        ensures less { IfOk result (IsLessOfCall self.old self.new) }
        ensures programs { programs.new ≡ programs.old }
    {
        let given = Vec::new(self.heap.allocator());
        self.go_on(
            programs,
            OpenCall {
                callee,
                given,
                call,
                next: 1,
            },
        )
    }

    // The arguments that follow, and then the call.
    fn go_on(&mut self, programs: &mut Programs<'_>, opened: OpenCall) -> Result<Now, NoMemory>
        requires callee { AreLive self.old.heap (values_of_callee opened.callee) }
        requires given { AreLive self.old.heap opened.given.items }
        ensures run { IfOk result (λ next. GoesOn programs.old self.old
            (as_value (calls_with programs.old opened.callee opened.given.items opened.call
            opened.next)) self.new next) }
        ensures live { IfOk result (IsNextLive self.new) }
        ensures less { IfOk result (IsLessOfCall self.old self.new) }
        ensures programs { programs.new ≡ programs.old }
    {
        let mut opened = opened;
        let mut held = Held::new(self.heap.allocator());
        match self.gather(programs.list(), &mut opened, LEVELS, &mut held)? {
            Gathered::All => {
                discard(held);
                self.call_callee(programs, opened.callee, opened.given)
            }
            Gathered::Stopped(cause) => {
                discard(held);
                discard(opened);
                Ok(stopped(cause))
            }
            Gathered::Waits => {
                held.hold(Work::Call(CallWork::Argument(opened)))?;
                self.put_held(held)
            }
        }
    }

    // The call is made, with all its arguments.
    pub fn call_callee(
        &mut self,
        programs: &mut Programs<'_>,
        callee: Callee,
        given: Vec<Value>,
    ) -> Result<Now, NoMemory>
        requires callee { AreLive self.old.heap (values_of_callee callee) }
        requires given { AreLive self.old.heap given.items }
        ensures run { IfOk result (λ next. GoesOn programs.old self.old
            (as_value (calls_callee programs.old callee given.items)) self.new next) }
        ensures live { IfOk result (IsNextLive self.new) }
        ensures less { IfOk result (IsLessOfCall self.old self.new) }
        ensures programs { programs.new ≡ programs.old }
    {
        match callee {
            Callee::Value(function) => self.call_value(programs, &function, given),
            Callee::Constructor(function) => self.construct_value(programs, &function, given),
            Callee::Member(base, key) => self.call_member(programs, base, key, given),
        }
    }

    // Calls a value that is no member.
    fn call_value(
        &mut self,
        programs: &mut Programs<'_>,
        function: &Value,
        args: Vec<Value>,
    ) -> Result<Now, NoMemory>
        requires { AreLive self.old.heap args.items }
        ensures run { IfOk result (λ next. GoesOn programs.old self.old
            (as_value (spec_call_value (declared_by programs.old)
            (called (declared_by programs.old)) function.now args.items)) self.new next) }
        ensures live { IfOk result (IsNextLive self.new) }
        ensures less { IfOk result (IsLessOfCall self.old self.new) }
        ensures programs { programs.new ≡ programs.old }
    {
        match function {
            Value::Function(number) => self.call_number(programs, *number, Value::Undefined, args),
            _ => Ok(stopped(StopCause::NotCallable)),
        }
    }

    /// Calls the function of a number, with this `this`.
    pub fn call_number(
        &mut self,
        programs: &mut Programs<'_>,
        number: u64,
        this: Value,
        args: Vec<Value>,
    ) -> Result<Now, NoMemory>
        requires this { IsLive self.old.heap this }
        requires args { AreLive self.old.heap args.items }
        ensures run { IfOk result (λ next. GoesOn programs.old self.old
            (as_value (spec_call_number (declared_by programs.old)
            (called (declared_by programs.old)) number this args.items)) self.new next) }
        ensures live { IfOk result (IsNextLive self.new) }
        ensures less { IfOk result (IsLessOfCall self.old self.new) }
        ensures programs { programs.new ≡ programs.old }
    {
        match programs.function(number)? {
            Some(declared) => self.enter(programs, declared, this, args),
            None => {
                let built = self.call_built_in_function(number, &args)?;
                Ok(answered(built))
            }
        }
    }

    // Enters a function, where a call more may be open.
    fn enter(
        &mut self,
        programs: &mut Programs<'_>,
        declared: Declared,
        this: Value,
        args: Vec<Value>,
    ) -> Result<Now, NoMemory>
        requires this { IsLive self.old.heap this }
        requires args { AreLive self.old.heap args.items }
        ensures run { IfOk result (λ next. (function : Function)
            → declared_at programs.old declared ≡ Some function
            → GoesOn programs.old self.old
            (as_value (spec_enter (called (declared_by programs.old)) function this args.items))
            self.new next) }
        ensures live { IfOk result (IsNextLive self.new) }
        ensures less { IfOk result (IsLessOfCall self.old self.new) }
        ensures programs { programs.new ≡ programs.old }
    {
        if self.frames.depth() > MOST_CALLS {
            return Ok(stopped(StopCause::Depth));
        }
        self.enter_at(programs.list(), declared, this, args)
    }

    // Opens the call of a function and runs its statements.
    fn enter_at(
        &mut self,
        programs: &[Program],
        declared: Declared,
        this: Value,
        args: Vec<Value>,
    ) -> Result<Now, NoMemory>
        requires this { IsLive self.old.heap this }
        requires args { AreLive self.old.heap args.items }
        requires depth { length self.old.frames ≤ most_calls }
        ensures run { IfOk result (λ next. (function : Function)
            → declared_at programs.now declared ≡ Some function
            → GoesOn programs.now self.old (as_value (λ caller after.
            called (declared_by programs.now) function.body
            (inside function this args.items caller)
            (λ value w. after value (outside caller w)))) self.new next) }
        ensures live { IfOk result (IsNextLive self.new) }
        ensures less { IfOk result (λ next. weight self.new next ≤ burden self.old + 13) }
    {
        // A machine always has a frame.
        let _ = &self.frames;
        let Some(function) = declaration(programs, declared) else {
            return Ok(stopped(StopCause::NotCallable));
        };
        self.open_function(declared, function, this, args)?;
        let listing = Listing::Body(declared.program, declared.function);
        self.run_listed(programs, listing, 0)
    }

    // What `new` makes of a value.
    fn construct_value(
        &mut self,
        programs: &mut Programs<'_>,
        function: &Value,
        args: Vec<Value>,
    ) -> Result<Now, NoMemory>
        requires { AreLive self.old.heap args.items }
        ensures run { IfOk result (λ next. GoesOn programs.old self.old
            (as_value (spec_new_value (declared_by programs.old)
            (called (declared_by programs.old)) function.now args.items)) self.new next) }
        ensures live { IfOk result (IsNextLive self.new) }
        ensures less { IfOk result (IsLessOfCall self.old self.new) }
        ensures programs { programs.new ≡ programs.old }
    {
        let Value::Function(number) = function else {
            return Ok(stopped(StopCause::NotCallable));
        };
        match programs.function(*number)? {
            Some(declared) => self.construct_declared(programs, declared, args),
            None => {
                let built = self.construct_built_in(*number, &args)?;
                Ok(answered(built))
            }
        }
    }

    // Enters a function with a new object as its `this`, which is given where it returns no object.
    fn construct_declared(
        &mut self,
        programs: &mut Programs<'_>,
        declared: Declared,
        args: Vec<Value>,
    ) -> Result<Now, NoMemory>
        requires { AreLive self.old.heap args.items }
        ensures run { IfOk result (λ next. (function : Function)
            → declared_at programs.old declared ≡ Some function
            → GoesOn programs.old self.old
            (as_value (spec_construct (called (declared_by programs.old)) function args.items))
            self.new next) }
        ensures live { IfOk result (IsNextLive self.new) }
        ensures less { IfOk result (IsLessOfCall self.old self.new) }
        ensures programs { programs.new ≡ programs.old }
    {
        if self.frames.depth() > MOST_CALLS {
            return Ok(stopped(StopCause::Depth));
        }
        let object = self.add_object()?;
        self.put(Work::Call(CallWork::Constructed(Value::Object(object))))?;
        self.enter_at(programs.list(), declared, Value::Object(object), args)
    }

    // Calls a member: an own property that is a function, a built-in method, or the host's.
    fn call_member(
        &mut self,
        programs: &mut Programs<'_>,
        base: Value,
        key: Text,
        args: Vec<Value>,
    ) -> Result<Now, NoMemory>
        requires base { IsLive self.old.heap base }
        requires args { AreLive self.old.heap args.items }
        ensures run { IfOk result (λ next. GoesOn programs.old self.old
            (as_value (spec_call_member (declared_by programs.old)
            (called (declared_by programs.old)) base key args.items)) self.new next) }
        ensures live { IfOk result (IsNextLive self.new) }
        ensures less { IfOk result (IsLessOfCall self.old self.new) }
        ensures programs { programs.new ≡ programs.old }
    {
        match base {
            Value::Undefined | Value::Null => Ok(stopped(StopCause::NotObject)),
            Value::Host(reference) => Ok(self.call_host(reference, key, args)),
            Value::Object(object) => self.call_property(programs, object, &key, args),
            _ => self.call_built_in(&base, &key, &args),
        }
    }

    // Calls an own property that is a function, and else a built-in method.
    fn call_property(
        &mut self,
        programs: &mut Programs<'_>,
        object: u64,
        key: &Text,
        args: Vec<Value>,
    ) -> Result<Now, NoMemory>
        requires object { object < length self.old.heap }
        requires args { AreLive self.old.heap args.items }
        ensures run { IfOk result (λ next. GoesOn programs.old self.old
            (as_value (spec_call_member (declared_by programs.old)
            (called (declared_by programs.old)) (AnObject object) key.now args.items)) self.new
            next) }
        ensures live { IfOk result (IsNextLive self.new) }
        ensures less { IfOk result (IsLessOfCall self.old self.new) }
        ensures programs { programs.new ≡ programs.old }
    {
        match self.property(object, key)? {
            Value::Function(number) => {
                self.call_number(programs, number, Value::Object(object), args)
            }
            _ => self.call_built_in(&Value::Object(object), key, &args),
        }
    }

    // Calls a built-in method.
    fn call_built_in(&mut self, base: &Value, key: &Text, args: &[Value]) -> Result<Now, NoMemory>
        requires base { IsLive self.old.heap base.now }
        requires args { AreLive self.old.heap args.now }
        ensures run { IfOk result (λ next. (programs : List ToldProgram)
            → GoesOn programs self.old (as_value (by_row (λ heap.
            method_row heap base.now key.now args.now))) self.new next) }
        ensures live { IfOk result (IsNextLive self.new) }
        ensures less { IfOk result (IsLessOfCall self.old self.new) }
    {
        let built = self.call_built_in_method(base, key, args)?;
        Ok(answered(built))
    }

    // Asks the host, where what the arguments are charged is left.
    fn call_host(&mut self, base: HostRef, key: Text, args: Vec<Value>) -> Now
        requires { AreLive self.old.heap args.items }
        ensures run { (programs : List ToldProgram) → GoesOn programs self.old
            (as_value (spec_call_member (declared_by programs) (called (declared_by programs))
            (HostValue base) key args.items)) self.new result }
        ensures live { IsNextLive self.new result }
        ensures less { IsLessOfCall self.old self.new result }
    {
        if self.charge_conversions(&args) {
            Now::Calls(base, key, args)
        } else {
            stopped(StopCause::Budget)
        }
    }
}

// What a built-in answered.
fn answered(built: Built) -> Now
    ensures run { (programs : List ToldProgram) (m : MachineState) → run_from programs m result
        ≡ built_run built (world_of programs m) (value_rest programs m.frames) }
    ensures live { values_of_next result ≡ values_of_built built }
    ensures less { weight_of_next result ≤ 11 }
{
    match built {
        Built::Value(found) => value(found),
        Built::NotCallable => stopped(StopCause::NotCallable),
        Built::OverBudget => stopped(StopCause::Budget),
    }
}
