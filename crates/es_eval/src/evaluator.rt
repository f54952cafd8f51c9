//! The evaluator's loop: what is next is done until the script is over.

ghost use Rattle.std.specs.Prelude.{◌≡◌, ◌<◌, ◌+◌, List, IfOk};
ghost use Rattle.es_reader.specs.Programs.{ToldProgram};
ghost use Rattle.es_values.specs.Heaps.{IsLive, IsSound};
ghost use Rattle.es_eval.specs.declared.works.Given.TheVariants.{Value as GivenValue};
ghost use Rattle.es_eval.specs.declared.outcomes.Outcome.{Outcome as OutcomeOf};
ghost use Rattle.es_eval.specs.declared.works.Now.TheVariants.{Calls, Gives, Over as IsOver, Reads, Writes};
ghost use Rattle.es_eval.specs.Endings.{MayEnd};
ghost use Rattle.es_eval.specs.devices.Machines.{AreLive, GoesOn, GoesPast, IsLessAfter, IsNextLive, IsWorkLive, burden, next_behind as spec_next_behind, run_from, value_of_call as spec_value_of_call, values_of_given, weight, world_of};
ghost use Rattle.es_eval.specs.devices.Leading.{LeadsTo};
ghost use Rattle.es_eval.specs.devices.Works.{does};

use crate::globals::Globals;
use crate::machine::Machine;
use crate::nexts::{stopped, value};
use crate::outcomes::{Outcome, StopCause};
use crate::works::{Given, Now, Work, discard};
use bml_bytes::{NoMemory, Text};
use es_reader::Program;
use es_shapes::Programs;
use es_values::{Heap, Host, HostAnswer, HostRef, Value};

impl Machine {
    // Gives something to the item that was put last. What is returned goes past them all. Where the
    // call that runs has none, its value goes to the call below, and behind the lowest the script is
    // at its end.
    fn hand(&mut self, programs: &mut Programs<'_>, given: Given) -> Result<Now, NoMemory>
        requires { AreLive self.old.heap (values_of_given given) }
        ensures run { IfOk result (λ next. run_from programs.old self.new next
            ≡ run_from programs.old self.old (Gives given)) }
        ensures live { IfOk result (IsNextLive self.new) }
        ensures less { IfOk result (λ next. weight self.new next < burden self.old + 11) }
        ensures programs { programs.new ≡ programs.old }
    {
        let given = match given {
            Given::Returned(value) => return Ok(self.leave(Given::Returned(value))),
            other => other,
        };
        let Some(item) = self.take() else {
            return Ok(self.leave(given));
        };
        let item = match item {
            Work::Statement(item) => return self.on_statement(programs.list(), item, given),
            other => other,
        };
        match given {
            Given::Value(value) => self.on_value(programs, item, value),
            other => {
                discard(item);
                Ok(Now::Gives(other))
            }
        }
    }

    // What an item of an expression does with a value.
    fn on_value(
        &mut self,
        programs: &mut Programs<'_>,
        item: Work,
        given: Value,
    ) -> Result<Now, NoMemory>
        requires item { IsWorkLive self.old.heap item }
        requires given { IsLive self.old.heap given }
        ensures run { IfOk result (λ next. GoesOn programs.old self.old
            (does programs.old item (GivenValue given)) self.new next) }
        ensures live { IfOk result (IsNextLive self.new) }
        ensures less { IfOk result (IsLessAfter item self.old self.new) }
        ensures programs { programs.new ≡ programs.old }
    {
        match item {
            Work::Operand(item) => self.on_operand(programs.list(), item, given),
            Work::Member(item) => self.on_member(item, given),
            Work::Call(item) => self.on_call(programs, item, given),
            Work::Target(item) => self.on_target(programs.list(), item, given),
            Work::Statement(item) => {
                self.on_statement(programs.list(), item, Given::Value(given))
            }
        }
    }

    /// The call that runs is left, with what goes past its items.
    pub fn leave(&mut self, given: Given) -> Now
        requires live { AreLive self.old.heap (values_of_given given) }
        requires past { (programs : List ToldProgram) → GoesPast programs self.old.frames given }
        ensures run { (programs : List ToldProgram) → run_from programs self.new result
            ≡ run_from programs self.old (Gives given) }
        ensures live { IsNextLive self.new result }
        ensures less { weight self.new result < burden self.old + 11 }
    {
        if self.close_function() {
            Now::Gives(value_of_call(given))
        } else {
            Now::Over(Outcome::Normal)
        }
    }

    // Does what is next until the script is over.
    pub fn run_to_end<H: Host>(
        &mut self,
        programs: &mut Programs<'_>,
        host: &mut H,
        first: Now,
    ) -> Result<Outcome, NoMemory>
        requires { IsNextLive self.old first }
        ensures ends { IfOk result (λ outcome. MayEnd H.reads H.writes H.calls
            (run_from programs.old self.old first) host.old outcome (world_of programs.old self.new)
            host.new) }
    {
        let mut now = first;
        'script: loop {
            now = match now {
                Now::Over(outcome) => return Ok(outcome),
                other => self.advance(programs, host, other)?,
            };
        }
    }

    // Does what is next, where the script isn't over.
    fn advance<H: Host>(
        &mut self,
        programs: &mut Programs<'_>,
        host: &mut H,
        now: Now,
    ) -> Result<Now, NoMemory>
        requires live { IsNextLive self.old now }
        requires goes_on { (outcome : OutcomeOf) → now ≡ IsOver outcome → ⊥ }
        ensures leads { IfOk result (λ next. LeadsTo H.reads H.writes H.calls
            (run_from programs.old self.new next) host.new
            (run_from programs.old self.old now) host.old) }
        ensures live { IfOk result (IsNextLive self.new) }
        ensures less { IfOk result (λ next. weight self.new next < weight self.old now) }
        ensures programs { programs.new ≡ programs.old }
    {
        match now {
            Now::Over(outcome) => Ok(Now::Over(outcome)),
            Now::Evaluate(code) => self.evaluate(programs.list(), code),
            Now::Execute(code) => self.execute(programs.list(), code),
            Now::Gives(given) => self.hand(programs, given),
            Now::Reads(base, name) => self.read_host(host, base, name),
            Now::Writes(base, name, written) => self.write_host(host, base, name, written),
            Now::Calls(base, name, args) => self.ask_host(host, base, name, args),
            Now::Applies(callee, args) => self.call_callee(programs, callee, args),
        }
    }

    // Reads a member of the host.
    fn read_host<H: Host>(&self, host: &mut H, base: HostRef, name: Text) -> Result<Now, NoMemory>
        ensures leads { IfOk result (λ next. (programs : List ToldProgram)
            → LeadsTo H.reads H.writes H.calls (run_from programs self.now next) host.new
            (run_from programs self.now (Reads base name)) host.old) }
        ensures live { IfOk result (IsNextLive self.now) }
        ensures less { IfOk result (λ next. weight self.now next
            < weight self.now (Reads base name)) }
    {
        Ok(value(host.get(base, &name)?))
    }

    // Writes a member of the host.
    fn write_host<H: Host>(
        &self,
        host: &mut H,
        base: HostRef,
        name: Text,
        written: Value,
    ) -> Result<Now, NoMemory>
        requires { IsNextLive self.now (Writes base name written) }
        ensures leads { IfOk result (λ next. (programs : List ToldProgram)
            → LeadsTo H.reads H.writes H.calls (run_from programs self.now next) host.new
            (run_from programs self.now (Writes base name written)) host.old) }
        ensures live { IfOk result (IsNextLive self.now) }
        ensures less { IfOk result (λ next. weight self.now next
            < weight self.now (Writes base name written)) }
    {
        host.set(base, &name, &written, &self.heap)?;
        Ok(value(written))
    }

    // Calls a member of the host.
    fn ask_host<H: Host>(
        &mut self,
        host: &mut H,
        base: HostRef,
        name: Text,
        args: Vec<Value>,
    ) -> Result<Now, NoMemory>
        requires { IsNextLive self.old (Calls base name args) }
        ensures leads { IfOk result (λ next. (programs : List ToldProgram)
            → LeadsTo H.reads H.writes H.calls (run_from programs self.new next) host.new
            (run_from programs self.old (Calls base name args)) host.old) }
        ensures live { IfOk result (IsNextLive self.new) }
        ensures less { IfOk result (λ next. weight self.new next
            < weight self.old (Calls base name args)) }
    {
        let answer = host.call(base, &name, &args, &mut self.heap)?;
        Ok(next_behind(answer, &self.heap))
    }
}

// What a call gives, whose body came to this.
fn value_of_call(given: Given) -> Given
    ensures { result ≡ spec_value_of_call given }
{
    match given {
        Given::Returned(found) => Given::Value(found),
        _ => Given::Value(Value::Undefined),
    }
}

// What comes next behind a host's answer to a call, which left this heap.
fn next_behind(answer: HostAnswer, heap: &Heap) -> Now
    ensures next { result ≡ spec_next_behind answer }
    ensures sound { IsSound heap.now }
{
    heap.is_sound();
    match answer {
        HostAnswer::Value(found) => value(found),
        HostAnswer::Ended => Now::Over(Outcome::Ended),
        HostAnswer::NotCallable => stopped(StopCause::NotCallable),
    }
}
