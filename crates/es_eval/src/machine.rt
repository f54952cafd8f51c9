//! The evaluator's state: the globals, the objects, the control stack and the steps that are left.

ghost use Rattle.std.specs.Prelude.{◌≡◌, ◌≤◌, ◌+◌, ◌*◌, ◌^◌, ◌<◌, [], List, length, true, false, Some, None, IfOk, IfSome, OnOk, if◌then◌else◌, option_map};
ghost use Rattle.std.specs.List.{position, sum_by};
ghost use Rattle.es_builtins.specs.Functions.{construction_row, function_row};
ghost use Rattle.es_builtins.specs.Methods.{method_row};
ghost use Rattle.es_reader.specs.Programs.{ToldProgram};
ghost use Rattle.es_reader.specs.Told.{told_function};
ghost use Rattle.es_values.specs.declared.values.Value.{Value as AnyValue};
ghost use Rattle.es_values.specs.declared.values.Value.TheVariants.{Bool as Boolean};
ghost use Rattle.es_values.specs.Charges.{conversion_charge, put_charge};
ghost use Rattle.es_values.specs.Heaps.{IsLive, has_property, object_at, value_of};
ghost use Rattle.bml_bytes.specs.Words.{is_same};
ghost use Rattle.es_frames.specs.Depth.{most_calls};
ghost use Rattle.es_eval.specs.declared.outcomes.Outcome.TheVariants.{Normal as AtEnd, Stopped};
ghost use Rattle.es_eval.specs.declared.outcomes.StopCause.TheVariants.{Budget as OutOfSteps};
ghost use Rattle.es_eval.specs.declared.works.Given.{Given};
ghost use Rattle.es_eval.specs.declared.works.Given.TheVariants.{Value as GivenValue};
ghost use Rattle.es_eval.specs.declared.works.Now.TheVariants.{Gives};
ghost use Rattle.es_eval.specs.Actions.{Action, Next, as_number, as_text, by_row, charged, step};
ghost use Rattle.es_eval.specs.Calls.{bound, with_new_object};
ghost use Rattle.es_eval.specs.devices.OpenCalls.{below_last, function_of, names_at, names_in as local_names, next_item, with_item, without_item};
ghost use Rattle.es_eval.specs.devices.Machines.{AreLive, CarriesOn, GoesPast, IsWorkLive, Stays, behind_frame, built_run, burden, names_in, rest, run_from, this_in, turns_of, value_of_call, values_of_built, values_of_next, weight, world_of};
ghost use Rattle.es_eval.specs.Members.{delete_in, named, put_member};
ghost use Rattle.es_eval.specs.Operations.{operates};
ghost use Rattle.es_eval.specs.devices.Slots.{IsSlotOf, with_values};
ghost use Rattle.es_eval.specs.devices.Works.{completed, does, evaluates, executes};
ghost use Rattle.es_eval.specs.Worlds.{local as spec_local, with_name};
ghost use Rattle.es_eval.specs.Worlds.Run.{Over};

use crate::globals::Globals;
use crate::open_calls::OpenCalls;
use crate::works::{Now, Work};
use bml_bytes::{NoMemory, Text};
use es_builtins::{Built, call_function, call_method, construct, law_of_rows, value_named};
use es_reader::{FunctionDecl, Program};
use es_shapes::{
    Code, Declared, Operator, charge_all, charge_operation, declaration, known_place, operated,
};
use es_values::{Budget, Heap, Num, Value};
use std::marker::Model;

/// The state of a script that runs. Contracts see its parts.
#[derive(Drop)]
pub struct Machine {
    pub globals: Globals,
    pub heap: Heap,
    pub frames: OpenCalls,
    pub steps: Budget,
}

impl Model for Machine {
    ghost use Rattle.es_eval.specs.devices.Machines.{IsMachine, MachineState};

    ghost Value = { MachineState };

    ghost view = { λ machine. record {
      globals = machine.globals;
      heap = machine.heap;
      frames = machine.frames;
      left = machine.steps.left;
    } };

    ghost invariant = { λ machine. IsMachine (record {
      globals = machine.globals;
      heap = machine.heap;
      frames = machine.frames;
      left = machine.steps.left;
    }) };
}

impl Machine {
    // ---- the control stack

    /// Puts an item on those of the call that runs.
    pub fn put(&mut self, item: Work) -> Result<(), NoMemory>
        requires { IsWorkLive self.old.heap item }
        ensures frames { OnOk result
            (self.new ≡ record self.old { frames = with_item self.old.frames item }) }
        ensures rest { OnOk result ((programs : List ToldProgram) → rest programs self.new.frames
            ≡ (λ handed w. does programs item handed w (rest programs self.old.frames))) }
        ensures world { OnOk result ((programs : List ToldProgram)
            → world_of programs self.new ≡ world_of programs self.old) }
        ensures more { OnOk result (burden self.new ≡ burden self.old + 2 * turns_of item) }
    {
        self.frames.put(item)?;
        Ok(())
    }

    /// Takes the item that was put last, where the call that runs has one.
    pub fn take(&mut self) -> Option<Work>
        ensures item { result ≡ next_item self.old.frames }
        ensures live { IfSome result (λ item. IsWorkLive self.new.heap item) }
        ensures without { self.new ≡ record self.old { frames = without_item self.old.frames } }
        ensures rest { IfSome result (λ item. (programs : List ToldProgram)
            → rest programs self.old.frames
            ≡ (λ handed w. does programs item handed w (rest programs self.new.frames))) }
        ensures done { result ≡ None → (programs : List ToldProgram)
            → rest programs self.old.frames
            ≡ behind_frame programs (below_last self.old.frames) }
        ensures world { (programs : List ToldProgram)
            → world_of programs self.new ≡ world_of programs self.old }
        ensures less { IfSome result
            (λ item. burden self.old ≡ burden self.new + 2 * turns_of item) }
    {
        self.frames.take()
    }

    /// An expression is entered, and then this item is given its value.
    pub fn evaluate_then(&mut self, item: Work, code: Code) -> Result<Now, NoMemory>
        requires { IsWorkLive self.old.heap item }
        ensures run { IfOk result (λ next. (programs : List ToldProgram)
            → run_from programs self.new next ≡ evaluates programs code (world_of programs self.old)
            (λ value w. does programs item (GivenValue value) w (rest programs self.old.frames))) }
        ensures live { IfOk result (λ next. values_of_next next ≡ []) }
        ensures less { IfOk result (λ next. weight self.new next
            ≡ burden self.old + (2 * turns_of item + 1)) }
    {
        self.put(item)?;
        Ok(Now::Evaluate(code))
    }

    /// A statement is entered, and then this item is given how it is completed.
    pub fn execute_then(&mut self, item: Work, code: Code) -> Result<Now, NoMemory>
        requires { IsWorkLive self.old.heap item }
        ensures run { IfOk result (λ next. (programs : List ToldProgram)
            → run_from programs self.new next ≡ executes programs code (world_of programs self.old)
            (λ completion w. does programs item (completed completion) w
            (rest programs self.old.frames))) }
        ensures live { IfOk result (λ next. values_of_next next ≡ []) }
        ensures less { IfOk result (λ next. weight self.new next
            ≡ burden self.old + (2 * turns_of item + 1)) }
    {
        self.put(item)?;
        Ok(Now::Execute(code))
    }

    // ---- steps and conversions

    /// Takes a step, where one is left.
    #[tactic(auto, using(crate::proofs::MachineLemmas::stays_where_less))]
    pub fn take_step(&mut self) -> bool
        ensures step { (programs : List ToldProgram) (action : Action AnyValue)
            (next : Next AnyValue) → step action (world_of programs self.old) next
            ≡ (if result then action (world_of programs self.new) next
            else Over (Stopped OutOfSteps) (world_of programs self.new)) }
        ensures less { result ≡ true → burden self.new + 40 ≤ burden self.old }
        ensures stays { Stays self.old self.new }
    {
        self.steps.charge(1)
    }

    /// The text of a value, where what it is charged is left.
    #[tactic(auto, using(crate::proofs::MachineLemmas::stays_where_less))]
    pub fn to_text(&mut self, value: &Value) -> Result<Option<Text>, NoMemory>
        requires { IsLive self.old.heap value.now }
        ensures text { IfOk result
            (λ found. CarriesOn (as_text value.now) self.old found self.new) }
        ensures stays { Stays self.old self.new }
    {
        if self.steps.charge_conversion(&self.heap, value) {
            Ok(Some(self.heap.to_text(value)?))
        } else {
            Ok(None)
        }
    }

    /// Takes what is charged for a value that becomes a text, where it is left.
    #[tactic(auto, using(crate::proofs::MachineLemmas::stays_where_less))]
    pub fn charge_conversion(&mut self, value: &Value) -> bool
        requires { IsLive self.old.heap value.now }
        ensures charge { (programs : List ToldProgram) (action : Action AnyValue)
            (next : Next AnyValue) → charged (λ heap. conversion_charge heap value.now) action
            (world_of programs self.old) next
            ≡ (if result then action (world_of programs self.new) next
            else Over (Stopped OutOfSteps) (world_of programs self.new)) }
        ensures stays { Stays self.old self.new }
    {
        self.steps.charge_conversion(&self.heap, value)
    }

    /// The number of a value, where what it is charged is left.
    #[tactic(auto, using(crate::proofs::MachineLemmas::stays_where_less))]
    pub fn to_number(&mut self, value: &Value) -> Result<Option<Num>, NoMemory>
        requires { IsLive self.old.heap value.now }
        ensures number { IfOk result
            (λ found. CarriesOn (as_number value.now) self.old found self.new) }
        ensures stays { Stays self.old self.new }
    {
        if self.steps.charge_conversion(&self.heap, value) {
            Ok(Some(self.heap.to_number(value)?))
        } else {
            Ok(None)
        }
    }

    // ---- names

    /// The `this` of the call that runs.
    #[tactic(auto, using(crate::proofs::NameLemmas::live_this))]
    pub fn this(&self) -> Result<Value, NoMemory>
        ensures this { IfOk result (λ value. value ≡ this_in self.now.frames) }
        ensures live { IfOk result (λ value. IsLive self.now.heap value) }
    {
        match self.frames.this() {
            Some(this) => this.share(),
            None => Ok(Value::Undefined),
        }
    }

    /// The value of the name of a node: a local, else a global, else what is built in.
    #[tactic(auto, using(crate::proofs::NameLemmas::live_global))]
    pub fn read_name(
        &self,
        programs: &[Program],
        code: Code,
        name: &Text,
    ) -> Result<Option<Value>, NoMemory>
        ensures value { IfOk result
            (λ found. found ≡ named (world_of programs.now self.now) name.now) }
        ensures live { IfOk result (λ found. IfSome found (λ value. IsLive self.now.heap value)) }
    {
        if let Some(value) = self.local(programs, code, name)? {
            return Ok(Some(value));
        }
        match self.globals.get(name) {
            Some(value) => Ok(Some(value.share()?)),
            None => Ok(value_named(name)),
        }
    }

    // The value of a local.
    #[tactic(auto, using(crate::proofs::NameLemmas::no_local, crate::proofs::NameLemmas::local_at, crate::proofs::NameLemmas::live_at))]
    fn local(
        &self,
        programs: &[Program],
        code: Code,
        name: &Text,
    ) -> Result<Option<Value>, NoMemory>
        ensures value { IfOk result
            (λ found. found ≡ spec_local (world_of programs.now self.now) name.now) }
        ensures live { IfOk result (λ found. IfSome found (λ value. IsLive self.now.heap value)) }
    {
        let Some(place) = self.filled_slot(programs, code, name)? else {
            return Ok(None);
        };
        match self.frames.slot(place) {
            Some(value) => Ok(Some(value.share()?)),
            None => Ok(None),
        }
    }

    /// The place of the name of a node among the locals of the function that runs, where it is one
    /// of them. A node of that function tells it.
    pub fn slot_of(
        &self,
        programs: &[Program],
        code: Code,
        name: &Text,
    ) -> Result<Option<u32>, NoMemory>
        ensures { IfOk result (λ found. found ≡ position (is_same name.now)
            (local_names programs.now (function_of self.now.frames))) }
    {
        let Some(declared) = self.frames.function() else {
            return Ok(None);
        };
        match known_place(programs, code, declared, name) {
            Some(place) => Ok(place),
            None => place_by_name(programs, declared, name),
        }
    }

    // The same, where the call that runs has a value there, as it always does.
    #[tactic(auto, using(crate::proofs::NameLemmas::no_local, crate::proofs::NameLemmas::no_value))]
    fn filled_slot(
        &self,
        programs: &[Program],
        code: Code,
        name: &Text,
    ) -> Result<Option<u32>, NoMemory>
        ensures { IfOk result (IsSlotOf programs.now self.now.frames name.now) }
    {
        let Some(place) = self.slot_of(programs, code, name)? else {
            return Ok(None);
        };
        if self.frames.slot(place).is_some() {
            Ok(Some(place))
        } else {
            Ok(None)
        }
    }

    /// Gives the name of a node a value: a local, and else a global, which is made where it is new.
    #[tactic(auto, using(crate::proofs::MachineLemmas::stays_where_less))]
    pub fn write_name(
        &mut self,
        programs: &[Program],
        code: Code,
        name: &Text,
        value: Value,
    ) -> Result<(), NoMemory>
        requires { IsLive self.old.heap value }
        ensures name { OnOk result (world_of programs.now self.new
            ≡ with_name name.now value (world_of programs.now self.old)) }
        ensures stays { Stays self.old self.new }
    {
        match self.filled_slot(programs, code, name)? {
            Some(place) => {
                self.frames.set_slot(place, value);
                Ok(())
            }
            None => self.globals.set(name, value),
        }
    }

    // ---- objects

    /// The value of an object's property, or an array's length.
    pub fn property(&self, object: u64, name: &Text) -> Result<Value, NoMemory>
        requires { object < length self.now.heap }
        ensures value { IfOk result
            (λ value. value ≡ value_of (object_at self.now.heap object) name.now) }
        ensures live { IfOk result (λ value. IsLive self.now.heap value) }
    {
        self.heap.get(object, name)
    }

    /// Whether an object has a property of this name that can go.
    pub fn has_property(&self, object: u64, name: &Text) -> bool
        requires { object < length self.now.heap }
        ensures { result ≡ has_property (object_at self.now.heap object) name.now }
    {
        self.heap.has(object, name)
    }

    /// The names of an object's properties, where the steps for them are left.
    #[tactic(auto, using(crate::proofs::MachineLemmas::stays_where_less))]
    pub fn names(&mut self, object: u64) -> Result<Option<Vec<Text>>, NoMemory>
        requires { object < length self.old.heap }
        ensures names { IfOk result (λ found. CarriesOn (names_in object) self.old
            (option_map (λ names. names.items) found) self.new) }
        ensures stays { Stays self.old self.new }
    {
        let names = self.heap.names(object)?;
        if self.steps.charge_sixteens(names.len() as u64) {
            Ok(Some(names))
        } else {
            Ok(None)
        }
    }

    /// Takes a property away, and answers whether there was one that can go.
    #[tactic(auto, using(crate::proofs::MachineLemmas::stays_where_less))]
    pub fn delete(&mut self, object: u64, name: &Text) -> bool
        requires { object < length self.old.heap }
        ensures delete { (programs : List ToldProgram) (next : Next AnyValue)
            → delete_in object name.now (world_of programs self.old) next
            ≡ next (Boolean result) (world_of programs self.new) }
        ensures stays { Stays self.old self.new }
    {
        self.heap.remove(object, name)
    }

    /// Gives a property a value, where what that is charged is left, and answers whether it was.
    #[tactic(auto, using(crate::proofs::MachineLemmas::stays_where_less))]
    pub fn put_property(
        &mut self,
        object: u64,
        name: &Text,
        value: &Value,
    ) -> Result<bool, NoMemory>
        requires object { object < length self.old.heap }
        requires value { IsLive self.old.heap value.now }
        ensures put { IfOk result (λ put. CarriesOn
            (charged (λ heap. put_charge heap object name.now value.now)
            (put_member object name.now value.now)) self.old
            (if put then Some value.now else None) self.new) }
        ensures stays { Stays self.old self.new }
    {
        if !self.steps.charge_put(&self.heap, object, name, value)? {
            return Ok(false);
        }
        self.heap.put(object, name, value.share()?)?;
        Ok(true)
    }

    /// What an operator gives, where what it is charged is left.
    #[tactic(auto, using(crate::proofs::MachineLemmas::stays_where_less), unfolding(crate::specs::Operations::operates))]
    pub fn operate(
        &mut self,
        operator: Operator,
        left: &Value,
        right: &Value,
    ) -> Result<Option<Value>, NoMemory>
        requires left { IsLive self.old.heap left.now }
        requires right { IsLive self.old.heap right.now }
        ensures value { IfOk result (λ found. CarriesOn (operates operator left.now right.now)
            self.old found self.new) }
        ensures live { IfOk result (λ found. IfSome found (λ value. IsLive self.new.heap value)) }
        ensures stays { Stays self.old self.new }
    {
        if charge_operation(operator, left, right, &self.heap, &mut self.steps) {
            Ok(Some(operated(operator, left, right, &self.heap)?))
        } else {
            Ok(None)
        }
    }

    // ---- calls

    /// Opens the frame of a call of a function with these arguments, which has no item yet.
    pub fn open_function(
        &mut self,
        declared: Declared,
        function: &FunctionDecl,
        this: Value,
        mut args: Vec<Value>,
    ) -> Result<(), NoMemory>
        requires this { IsLive self.old.heap this }
        requires args { AreLive self.old.heap args.items }
        requires depth { length self.old.frames ≤ most_calls }
        ensures world { OnOk result ((programs : List ToldProgram)
            → names_at programs declared ≡ (told_function function.now).locals
            → world_of programs self.new ≡ record (world_of programs self.old) {
              locals = bound (told_function function.now).locals function.now.parameters args.items;
              this = this;
              depth = (world_of programs self.old).depth + 1;
            }) }
        ensures rest { OnOk result ((programs : List ToldProgram)
            → rest programs self.new.frames ≡ behind_frame programs self.old.frames) }
        ensures less { OnOk result (burden self.new ≤ burden self.old + 1) }
        ensures heap { self.new.heap ≡ self.old.heap }
    {
        let Ok(locals) = u32::try_from(function.locals.len()) else {
            return Err(NoMemory);
        };
        self.frames.push(Some(declared), locals, this)?;
        args.truncate(function.parameters as usize);
        set_slots(&mut self.frames, args);
        Ok(())
    }

    /// Closes the frame of the call that runs, with its items, where it isn't the lowest, and answers
    /// whether it did.
    pub fn close_function(&mut self) -> bool
        ensures run { (programs : List ToldProgram) (handed : Given)
            → GoesPast programs self.old.frames handed → run_from programs self.old (Gives handed)
            ≡ (if result then run_from programs self.new (Gives (value_of_call handed))
            else Over AtEnd (world_of programs self.new)) }
        ensures less { result ≡ true → burden self.new + 1 ≤ burden self.old }
        ensures same { result ≡ false → self.new ≡ self.old }
        ensures heap { self.new.heap ≡ self.old.heap }
    {
        if self.frames.depth() > 1 {
            self.frames.pop();
            true
        } else {
            false
        }
    }

    /// Takes what is charged for values that become texts, where it is left.
    #[tactic(auto, using(crate::proofs::MachineLemmas::stays_where_less))]
    pub fn charge_conversions(&mut self, values: &[Value]) -> bool
        requires { AreLive self.old.heap values.now }
        ensures charge { (programs : List ToldProgram) (action : Action AnyValue)
            (next : Next AnyValue)
            → charged (λ heap. sum_by (conversion_charge heap) values.now) action
            (world_of programs self.old) next
            ≡ (if result then action (world_of programs self.new) next
            else Over (Stopped OutOfSteps) (world_of programs self.new)) }
        ensures stays { Stays self.old self.new }
    {
        charge_all(values, &self.heap, &mut self.steps)
    }

    /// Adds an object without properties, and gives its number.
    #[tactic(auto, using(crate::proofs::MachineLemmas::stays_where_less))]
    pub fn add_object(&mut self) -> Result<u64, NoMemory>
        ensures world { IfOk result (λ object. (object ≡ length self.old.heap)
            × ((programs : List ToldProgram)
            → world_of programs self.new ≡ with_new_object (world_of programs self.old))) }
        ensures live { IfOk result (λ object. object < length self.new.heap) }
        ensures stays { Stays self.old self.new }
    {
        let object = self.heap.add(false)?;
        Ok(object)
    }

    /// Calls the built-in function of a number.
    #[tactic(auto, using(crate::proofs::MachineLemmas::stays_where_less))]
    pub fn call_built_in_function(&mut self, number: u64, args: &[Value]) -> Result<Built, NoMemory>
        requires { AreLive self.old.heap args.now }
        ensures run { IfOk result (λ built. (programs : List ToldProgram) (next : Next AnyValue)
            → by_row (λ heap. function_row heap number args.now)
            (world_of programs self.old) next
            ≡ built_run built (world_of programs self.new) next) }
        ensures live { IfOk result (λ built. AreLive self.new.heap (values_of_built built)) }
        ensures stays { Stays self.old self.new }
    {
        // What a row gives of a sound heap is live.
        self.heap.is_sound();
        law_of_rows();
        call_function(number, args, &mut self.heap, &mut self.steps)
    }

    /// Makes a `new` of the built-in function of a number.
    #[tactic(auto, using(crate::proofs::MachineLemmas::stays_where_less))]
    pub fn construct_built_in(&mut self, number: u64, args: &[Value]) -> Result<Built, NoMemory>
        requires { AreLive self.old.heap args.now }
        ensures run { IfOk result (λ built. (programs : List ToldProgram) (next : Next AnyValue)
            → by_row (λ heap. construction_row heap number args.now)
            (world_of programs self.old) next
            ≡ built_run built (world_of programs self.new) next) }
        ensures live { IfOk result (λ built. AreLive self.new.heap (values_of_built built)) }
        ensures stays { Stays self.old self.new }
    {
        // What a row gives of a sound heap is live.
        self.heap.is_sound();
        law_of_rows();
        construct(number, args, &mut self.heap, &mut self.steps)
    }

    /// Calls the built-in method of a value.
    #[tactic(auto, using(crate::proofs::MachineLemmas::stays_where_less))]
    pub fn call_built_in_method(
        &mut self,
        base: &Value,
        name: &Text,
        args: &[Value],
    ) -> Result<Built, NoMemory>
        requires base { IsLive self.old.heap base.now }
        requires args { AreLive self.old.heap args.now }
        ensures run { IfOk result (λ built. (programs : List ToldProgram) (next : Next AnyValue)
            → by_row (λ heap. method_row heap base.now name.now args.now)
            (world_of programs self.old) next
            ≡ built_run built (world_of programs self.new) next) }
        ensures live { IfOk result (λ built. AreLive self.new.heap (values_of_built built)) }
        ensures stays { Stays self.old self.new }
    {
        // What a row gives of a sound heap is live.
        self.heap.is_sound();
        law_of_rows();
        call_method(base, name, args, &mut self.heap, &mut self.steps)
    }
}

// The place of a name among the locals of a function, which are looked through. It is asked only of
// a node that isn't told to stand in the function.
fn place_by_name(
    programs: &[Program],
    declared: Declared,
    name: &Text,
) -> Result<Option<u32>, NoMemory>
    ensures { IfOk result (λ found. found
        ≡ position (is_same name.now) (names_at programs.now declared)) }
{
    let Some(function) = declaration(programs, declared) else {
        return Ok(None);
    };
    match u32::try_from(function.locals.len()) {
        Ok(_) => Ok(place_among(&function.locals, name)),
        Err(_) => Err(NoMemory),
    }
}

// The place of a name, from 0, where it is one of the locals.
fn place_among(locals: &[Text], name: &Text) -> Option<u32>
    requires { length locals.now < 2 ^ 32 }
    ensures { result ≡ position (is_same name.now) locals.now }
{
    let mut place = 0;
    for local in locals {
        if name == local {
            return Some(place);
        }
        place += 1;
    }
    None
}

// Gives the first places of the last frame these values, as far as it has places.
fn set_slots(frames: &mut OpenCalls, values: Vec<Value>)
    requires { length values.items < 2 ^ 32 }
    ensures { frames.new ≡ with_values frames.old 0 values.items }
{
    let mut place = 0;
    for value in values {
        frames.set_slot(place, value);
        place += 1;
    }
}
