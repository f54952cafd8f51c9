//! The host of the scripts of a document: what they read, write and call.

ghost use Rattle.std.specs.Prelude.{◌≡◌, All, IfOk};
ghost use Rattle.es_values.specs.Heaps.{IsLive};
ghost use Rattle.es_values.specs.Hosts.{IsAnswer, KeepsHeap};
ghost use Rattle.es_values.specs.declared.hosts.HostAnswer.TheVariants.{Value as Answer};
ghost use Rattle.browser_objects.specs.Calls.{number};
ghost use Rattle.module_locks.specs.Standing.{ForModules};
ghost use Rattle.document_stages.specs.Calling.{HasCalled, HasRead, HasWritten, Replies};
ghost use Rattle.document_stages.specs.Hosting.{browser_call, reply_of_effect, lock as spec_lock};
ghost use Rattle.document_stages.specs.Hosting.{open_table as spec_open_table, unlock as spec_unlock};

use crate::stages::{Stage, refusal};
use bml_bytes::{NoMemory, Text};
use browser_objects::{Effect, law_of_call_outcomes};
use dom_tree::NodeId;
use es_values::{Heap, Host, HostAnswer, HostRef, Num, Value};
use module_locks::{LockAnswer, Look, Modules};
use multipart_entities::Path;
use persistent_arrays::Structure;

/// What the scripts of a document act on: its stage, and the modules that it is lent.
#[derive(Drop)]
pub struct ScriptHost {
    pub stage: Stage,
    pub modules: Modules,
}

impl Host for ScriptHost {
    ghost reads = { HasRead };

    ghost writes = { HasWritten };

    ghost calls = { HasCalled };

    fn get(&mut self, base: HostRef, name: &Text) -> Result<Value, NoMemory> {
        self.stage.read(base, name)
    }

    fn set(
        &mut self,
        base: HostRef,
        name: &Text,
        value: &Value,
        heap: &Heap,
    ) -> Result<(), NoMemory> {
        self.stage.write(base, name, value, heap)
    }

    #[tactic(auto, unfolding(crate::specs::Hosting::reply_of_call))]
    fn call(
        &mut self,
        base: HostRef,
        name: &Text,
        args: &[Value],
        heap: &mut Heap,
    ) -> Result<HostAnswer, NoMemory> {
        match base {
            HostRef::Document => self.stage.call_document(name, args, heap),
            HostRef::Node(number) => self.stage.call_node(NodeId(number), name),
            HostRef::Browser => self.call_browser(name, args, heap),
            HostRef::Ureg | HostRef::Greg | HostRef::Event | HostRef::Style(_, _) => {
                Ok(HostAnswer::NotCallable)
            }
        }
    }
}

impl ScriptHost {
    // Calls the browser object, and does what this comes to.
    fn call_browser(
        &mut self,
        name: &Text,
        args: &[Value],
        heap: &mut Heap,
    ) -> Result<HostAnswer, NoMemory>
        requires { All (IsLive heap.old) args.now }
        ensures replies { IfOk result (λ answer. ForModules self.old.modules (λ modules.
            Replies self.new answer heap.new (browser_call
            (record { acting = self.old.stage.acting; modules = modules })
            name.now args.now heap.old))) }
        ensures safe { IfOk result (λ answer. IsAnswer heap.new answer) }
        ensures heap { KeepsHeap heap.old args.now heap.new }
    {
        law_of_call_outcomes();
        let (value, effect) = self.stage.ask_browser(name, args, heap)?;
        self.do_effect(effect, value, heap)
    }

    // Does what is left to do for a call that would give this value: a line is printed, a document
    // is launched, a module is locked or unlocked, or a table is opened.
    fn do_effect(
        &mut self,
        effect: Effect,
        value: Value,
        heap: &Heap,
    ) -> Result<HostAnswer, NoMemory>
        requires { IsAnswer heap.now (Answer value) }
        ensures replies { IfOk result (λ answer. ForModules self.old.modules (λ modules.
            Replies self.new answer heap.now (reply_of_effect effect value
            (record { acting = self.old.stage.acting; modules = modules }) heap.now))) }
        ensures safe { IfOk result (λ answer. IsAnswer heap.now answer) }
    {
        match effect {
            Effect::Nothing => Ok(HostAnswer::Value(value)),
            Effect::Sound(sound) => self.stage.tell_sound(sound, value),
            Effect::Kept(slot, size) => self.stage.tell_kept(slot, size, value),
            Effect::Launch(path) => {
                drop(value);
                self.stage.launch(path)
            }
            Effect::Lock(path) => {
                drop(value);
                self.lock(&path, heap)
            }
            Effect::Unlock(path) => {
                drop(value);
                Ok(self.unlock(&path, heap))
            }
            Effect::Table(path, structure) => {
                drop(value);
                self.open_table(&path, &structure, heap)
            }
        }
    }

    // Locks the module of a path: 1 where a lock stands on it then, and else NaN. The items are told
    // of a module that is kept from now on.
    fn lock(&mut self, path: &Path, heap: &Heap) -> Result<HostAnswer, NoMemory>
        ensures replies { IfOk result (λ answer. ForModules self.old.modules (λ modules.
            Replies self.new answer heap.now (spec_lock path.now
            (record { acting = self.old.stage.acting; modules = modules }) heap.now))) }
        ensures safe { IfOk result (λ answer. IsAnswer heap.now answer) }
    {
        match self.modules.lock(path.component, path.module)? {
            LockAnswer::Kept => {
                self.stage.post_locked(path.component, path.module)?;
                Ok(success())
            }
            LockAnswer::Had | LockAnswer::Wanted => Ok(success()),
            LockAnswer::NoEntry | LockAnswer::Full => Ok(refusal()),
        }
    }

    // Unlocks the module of a path: 1, and NaN where no lock stood on it.
    fn unlock(&mut self, path: &Path, heap: &Heap) -> HostAnswer
        ensures replies { ForModules self.old.modules (λ modules.
            Replies self.new result heap.now (spec_unlock path.now
            (record { acting = self.old.stage.acting; modules = modules }) heap.now)) }
        ensures safe { IsAnswer heap.now result }
    {
        if self.modules.unlock(path.component, path.module) {
            success()
        } else {
            refusal()
        }
    }

    // Looks up what is at a path now, and tries to open it as a table of these fields.
    fn open_table(
        &mut self,
        path: &Path,
        structure: &Structure,
        heap: &Heap,
    ) -> Result<HostAnswer, NoMemory>
        ensures replies { IfOk result (λ answer. ForModules self.old.modules (λ modules.
            Replies self.new answer heap.now (spec_open_table path.now structure.now
            (record { acting = self.old.stage.acting; modules = modules }) heap.now))) }
        ensures safe { IfOk result (λ answer. IsAnswer heap.now answer) }
    {
        let found = match self.modules.resource(path) {
            Look::Found(bytes) => Some(bytes),
            Look::Waiting | Look::Missing => None,
        };
        self.stage.open_table(found, structure)
    }
}

// 1.
fn success() -> HostAnswer
    ensures { result ≡ Answer (number 1) }
{
    HostAnswer::Value(Value::Number(Num::Whole(1)))
}
