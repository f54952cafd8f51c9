//! Programs and globals that are run.

ghost use Rattle.std.specs.Prelude.{◌≡◌, ◌≤◌, ◌<◌, ◌+◌, ◌^◌, List, None, length, map, All, IfOk, OnOk};
ghost use Rattle.std.specs.List.{AllZip};
ghost use Rattle.es_reader.specs.Programs.{Tells, ToldProgram};
ghost use Rattle.es_reader.specs.Statements.{Item};
ghost use Rattle.es_reader.specs.declared.programs.FunctionDecl.{FunctionDecl};
ghost use Rattle.es_values.specs.Objects.{ObjectState};
ghost use Rattle.es_shapes.specs.Codes.{declared_by};
ghost use Rattle.es_eval.specs.devices.Declaring.{with_new, with_new_one, with_numbered};
ghost use Rattle.es_eval.specs.Endings.{EndsWith, MayEnd};
ghost use Rattle.es_eval.specs.Evaluation.{global_run, run_at, with_variables};
ghost use Rattle.es_eval.specs.Worlds.{IsNamedLive};
ghost use Rattle.es_eval.specs.devices.Machines.{IsNextLive, opened, run_from, told_global_run, told_run, variables_of, with_declared, world_of};
ghost use Rattle.es_eval.specs.devices.OpenCalls.{next_item};
ghost use Rattle.es_shapes.specs.Sources.{program_of};
ghost use Rattle.es_eval.specs.Worlds.{global};

use crate::globals::Globals;
use crate::machine::Machine;
use crate::nexts::stopped;
use crate::open_calls::OpenCalls;
use crate::outcomes::{Outcome, StopCause};
use crate::works::Now;
use bml_bytes::{NoMemory, Text};
use es_reader::{FunctionDecl, Program};
use es_shapes::{FIRST_FUNCTION, Listing, Programs, function_count, law_of_told_programs};
use es_values::{Budget, Heap, Host, Value};
use std::mem;

/// Runs the program at a place of the list, with so many steps. Functions that are called may be of
/// any of the programs. It ends at the program's end, where the host ends it, or where it is
/// stopped, and what the globals, the objects and the host are then is what the rows of evaluation
/// say (ECMA-262 second edition, 14, in this profile). After `NoMemory` they may be changed in part.
pub fn run<H: Host>(
    programs: &[Program],
    which: usize,
    globals: &mut Globals,
    heap: &mut Heap,
    host: &mut H,
    budget: u32,
) -> Result<Outcome, NoMemory>
    requires which { which < length programs.now }
    requires budget { budget ≤ 100000 }
    requires functions { length (declared_by programs.now) < 2 ^ 48 }
    requires live { All (IsNamedLive heap.old) globals.old }
    ensures ends { IfOk result (λ outcome. (sources : List (List Item))
        → AllZip Tells sources programs.now → EndsWith H.reads H.writes H.calls
        (run_at (map program_of sources) which globals.old heap.old budget) host.old outcome
        globals.new heap.new host.new) }
    ensures live { All (IsNamedLive heap.new) globals.new }
{
    law_of_told_programs();
    let mut machine = Machine::over(globals, heap, budget)?;
    let ended = machine.run_program(&mut Programs::new(heap.allocator(), programs), which, host);
    machine.give_back(globals, heap);
    ended
}

/// Calls a global without arguments, with so many steps.
pub fn run_global<H: Host>(
    programs: &[Program],
    name: &Text,
    globals: &mut Globals,
    heap: &mut Heap,
    host: &mut H,
    budget: u32,
) -> Result<Outcome, NoMemory>
    requires budget { budget ≤ 100000 }
    requires functions { length (declared_by programs.now) < 2 ^ 48 }
    requires live { All (IsNamedLive heap.old) globals.old }
    ensures ends { IfOk result (λ outcome. (sources : List (List Item))
        → AllZip Tells sources programs.now → EndsWith H.reads H.writes H.calls
        (global_run (map program_of sources) name.now globals.old heap.old budget) host.old outcome
        globals.new heap.new host.new) }
    ensures live { All (IsNamedLive heap.new) globals.new }
{
    law_of_told_programs();
    let mut machine = Machine::over(globals, heap, budget)?;
    let ended = machine.run_global(&mut Programs::new(heap.allocator(), programs), name, host);
    machine.give_back(globals, heap);
    ended
}

impl Machine {
    // A machine with the globals and the objects, and only the lowest frame. What is lent has none
    // until they are given back.
    fn over(globals: &mut Globals, heap: &mut Heap, budget: u32) -> Result<Machine, NoMemory>
        requires budget { budget ≤ 100000 }
        requires live { All (IsNamedLive heap.old) globals.old }
        ensures machine { IfOk result (λ machine. machine ≡ opened globals.old heap.old budget) }
        ensures live { All (IsNamedLive heap.new) globals.new }
    {
        let alloc = heap.allocator();
        let mut frames = OpenCalls::new(alloc);
        frames.push(None, 0, Value::Undefined)?;
        let none = Globals::new(alloc)?;
        Ok(Machine {
            globals: mem::replace(globals, none),
            heap: mem::replace(heap, Heap::new(alloc)),
            frames,
            steps: Budget { left: budget },
        })
    }

    fn give_back(self, globals: &mut Globals, heap: &mut Heap)
        ensures globals { globals.new ≡ self.globals }
        ensures heap { heap.new ≡ self.heap }
        ensures live { All (IsNamedLive heap.new) globals.new }
    {
        *globals = self.globals;
        *heap = self.heap;
    }

    // Runs the program at a place.
    fn run_program<H: Host>(
        &mut self,
        programs: &mut Programs<'_>,
        which: usize,
        host: &mut H,
    ) -> Result<Outcome, NoMemory>
        requires which { which < length programs.old }
        requires functions { length (declared_by programs.old) < 2 ^ 48 }
        requires lowest { length self.old.frames ≡ 1 }
        requires idle { next_item self.old.frames ≡ None }
        ensures ends { IfOk result (λ outcome. MayEnd H.reads H.writes H.calls
            (told_run programs.old which (world_of programs.old self.old)) host.old outcome
            (world_of programs.old self.new) host.new) }
    {
        let list = programs.list();
        self.declare_functions(list, which)?;
        self.declare_variables(list, which)?;
        let first = self.run_listed(list, Listing::Top(which), 0)?;
        self.run_to_end(programs, host, first)
    }

    // The functions of a program become globals.
    fn declare_functions(&mut self, programs: &[Program], which: usize) -> Result<(), NoMemory>
        requires which { which < length programs.now }
        requires functions { length (declared_by programs.now) < 2 ^ 48 }
        ensures world { OnOk result (world_of programs.now self.new
            ≡ with_declared programs.now which (world_of programs.now self.old)) }
        ensures frames { self.new.frames ≡ self.old.frames }
    {
        let functions = programs[which].functions();
        if functions.is_empty() {
            return Ok(());
        }
        let first = FIRST_FUNCTION + function_count(&programs[..which]);
        name_functions(&mut self.globals, functions, first)
    }

    // The variables of a program become globals where they are new.
    fn declare_variables(&mut self, programs: &[Program], which: usize) -> Result<(), NoMemory>
        requires which { which < length programs.now }
        ensures world { OnOk result (world_of programs.now self.new
            ≡ with_variables (variables_of programs.now which) (world_of programs.now self.old)) }
        ensures frames { self.new.frames ≡ self.old.frames }
    {
        name_variables(&mut self.globals, programs[which].variables())
    }

    // Calls a global without arguments.
    fn run_global<H: Host>(
        &mut self,
        programs: &mut Programs<'_>,
        name: &Text,
        host: &mut H,
    ) -> Result<Outcome, NoMemory>
        requires lowest { length self.old.frames ≡ 1 }
        requires idle { next_item self.old.frames ≡ None }
        ensures ends { IfOk result (λ outcome. MayEnd H.reads H.writes H.calls
            (told_global_run programs.old name.now (world_of programs.old self.old)) host.old
            outcome (world_of programs.old self.new) host.new) }
    {
        let first = self.call_global(programs, name)?;
        self.run_to_end(programs, host, first)
    }

    // What comes first where a global is called without arguments.
    fn call_global(&mut self, programs: &mut Programs<'_>, name: &Text) -> Result<Now, NoMemory>
        requires lowest { length self.old.frames ≡ 1 }
        requires idle { next_item self.old.frames ≡ None }
        ensures run { IfOk result (λ first. run_from programs.old self.new first
            ≡ told_global_run programs.old name.now (world_of programs.old self.old)) }
        ensures live { IfOk result (IsNextLive self.new) }
        ensures programs { programs.new ≡ programs.old }
    {
        let Some(value) = self.global(name)? else {
            return Ok(stopped(StopCause::Unresolved));
        };
        let Value::Function(number) = value else {
            return Ok(stopped(StopCause::NotCallable));
        };
        let none = Vec::new(self.heap.allocator());
        self.call_number(programs, number, Value::Undefined, none)
    }

    // The value of a global.
    fn global(&self, name: &Text) -> Result<Option<Value>, NoMemory>
        ensures { IfOk result (λ found. (programs : List ToldProgram)
            → found ≡ global (world_of programs self.now) name.now) }
    {
        match self.globals.get(name) {
            Some(value) => Ok(Some(value.share()?)),
            None => Ok(None),
        }
    }
}

// Functions become globals under their names, with the numbers from this one on.
fn name_functions(
    globals: &mut Globals,
    functions: &[FunctionDecl],
    first: u64,
) -> Result<(), NoMemory>
    requires { first + length functions.now < 2 ^ 63 }
    ensures globals { OnOk result (globals.new
        ≡ with_numbered first (map (λ (f : FunctionDecl). f.name) functions.now) globals.old) }
    ensures live { (heap : List ObjectState)
        → All (IsNamedLive heap) globals.old → All (IsNamedLive heap) globals.new }
{
    let mut number = first;
    for function in functions {
        globals.set(&function.name, Value::Function(number))?;
        number += 1;
    }
    Ok(())
}

// Names become globals with Undefined where they are new.
fn name_variables(globals: &mut Globals, names: &[Text]) -> Result<(), NoMemory>
    ensures globals { OnOk result (globals.new ≡ with_new names.now globals.old) }
    ensures live { (heap : List ObjectState)
        → All (IsNamedLive heap) globals.old → All (IsNamedLive heap) globals.new }
{
    for name in names {
        name_variable(globals, name)?;
    }
    Ok(())
}

// A name becomes a global with Undefined where it is new.
fn name_variable(globals: &mut Globals, name: &Text) -> Result<(), NoMemory>
    ensures ok { OnOk result (globals.new ≡ with_new_one globals.old name.now) }
    ensures live { (heap : List ObjectState)
        → All (IsNamedLive heap) globals.old → All (IsNamedLive heap) globals.new }
{
    if globals.get(name).is_some() {
        return Ok(());
    }
    globals.set(name, Value::Undefined)
}
