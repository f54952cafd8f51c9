//! What scripts ask of their host.

ghost use Rattle.std.specs.Prelude.{◌≡◌, ℕ, List, true, All, IfOk, OnOk};
ghost use Rattle.es_values.specs.declared.values.HostRef.{HostRef};
ghost use Rattle.es_values.specs.declared.values.Value.{Value};
ghost use Rattle.es_values.specs.declared.hosts.HostAnswer.{HostAnswer};
ghost use Rattle.es_values.specs.Hosts.{IsAnswer, KeepsHeap};
ghost use Rattle.es_values.specs.Heaps.{IsLive};
ghost use Rattle.es_values.specs.Objects.{ObjectState};
ghost use Rattle.es_values.specs.Values.{is_plain};

use crate::heaps::Heap;
use crate::values::{HostRef, Value};
use bml_bytes::{NoMemory, Text};

/// What a host answers to a call: a value, that the script ends here, or that nothing can be called.
#[derive(Debug, Drop)]
pub enum HostAnswer {
    Value(Value),
    Ended,
    NotCallable,
}

/// What a script reads, writes and calls that isn't its own. A host is a state, and its three calls are
/// relations on states: `reads`, `writes` and `calls` say which value or answer may come in a state, and
/// which state and heap it leaves. Whoever runs a script uses the answers that it is given.
pub trait Host {
    // The state before, the reference, the name, the value read and the state after.
    ghost reads: { Self → HostRef → List ℕ → Value → Self → Type 0 };

    // The state before, the reference, the name, the value, the heap and the state after.
    ghost writes: { Self → HostRef → List ℕ → Value → List ObjectState → Self → Type 0 };

    // The state before, the reference, the name, the arguments, the heap before, the answer, and the state
    // and the heap after.
    ghost calls: { Self → HostRef → List ℕ → List Value → List ObjectState
        → HostAnswer → Self → List ObjectState → Type 0 };

    /// The value of a member. It is neither an object nor a function.
    fn get(&mut self, base: HostRef, name: &Text) -> Result<Value, NoMemory>
        ensures read { IfOk result (λ value. reads self.old base name.now value self.new) }
        ensures plain { IfOk result (λ value. is_plain value ≡ true) };

    /// Gives a member a value.
    fn set(
        &mut self,
        base: HostRef,
        name: &Text,
        value: &Value,
        heap: &Heap,
    ) -> Result<(), NoMemory>
        requires { IsLive heap.now value.now }
        ensures { OnOk result (writes self.old base name.now value.now heap.now self.new) };

    /// Calls a member. An answer's value is no function, and an object that it is lives in the heap. The
    /// call may add objects and put properties, but no object goes, and no function comes into the heap
    /// that wasn't there or among the arguments.
    fn call(
        &mut self,
        base: HostRef,
        name: &Text,
        args: &[Value],
        heap: &mut Heap,
    ) -> Result<HostAnswer, NoMemory>
        requires { All (λ value. IsLive heap.old value) args.now }
        ensures called { IfOk result (λ answer.
            calls self.old base name.now args.now heap.old answer self.new heap.new) }
        ensures answer { IfOk result (λ answer. IsAnswer heap.new answer) }
        ensures heap { KeepsHeap heap.old args.now heap.new };
}
