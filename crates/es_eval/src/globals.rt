//! The globals of scripts.

ghost use Rattle.std.specs.Prelude.{◌≡◌, [], List, All, IfOk, IfSome, OnOk, OnErr};
ghost use Rattle.std.specs.Map.{lookup};
ghost use Rattle.std.specs.Option.{option_copied};
ghost use Rattle.bml_bytes.specs.Words.{is_same};
ghost use Rattle.es_values.specs.Heaps.{IsLive, with_value};
ghost use Rattle.es_values.specs.Objects.{ObjectState};
ghost use Rattle.es_eval.specs.Worlds.{IsNamedLive};

use bml_bytes::{NoMemory, Text};
use es_values::Value;
use indexmap::IndexMap;
use std::alloc::Global;
use std::marker::Model;

/// The global variables of a document's scripts: names with values. Contracts see the list of them,
/// in the order in which the names came first. (ECMA-262 second edition, 10.1.5, in this profile.)
#[derive(Drop)]
pub struct Globals {
    values: IndexMap<Text, Value>,
}

impl Model for Globals {
    ghost use Rattle.std.specs.Prelude.{List, ℕ};
    ghost use Rattle.es_values.specs.declared.values.Value.{Value as AnyValue};

    ghost Value = { List (List ℕ × AnyValue) };

    ghost view = { λ globals. globals.values.entries };
}

impl Globals {
    /// No globals.
    pub fn new(alloc: Global) -> Result<Globals, NoMemory>
        ensures { IfOk result (λ globals. globals ≡ []) }
    {
        Ok(Globals {
            values: IndexMap::new(alloc),
        })
    }

    /// The value of a global, and None where there is none of the name.
    pub fn get(&self, name: &Text) -> Option<&Value>
        ensures value { option_copied result ≡ lookup (is_same name.now) self.now }
        ensures live { (heap : List ObjectState) → All (IsNamedLive heap) self.now
            → IfSome result (λ value. IsLive heap value.now) }
    {
        self.values.get(name)
    }

    /// Gives a global a value. One that is there keeps its place, and a new one goes last.
    pub fn set(&mut self, name: &Text, value: Value) -> Result<(), NoMemory>
        ensures ok { OnOk result (self.new ≡ with_value self.old name.now value) }
        ensures err { OnErr result (self.new ≡ self.old) }
    {
        self.values.insert(name.share()?, value)?;
        Ok(())
    }
}
