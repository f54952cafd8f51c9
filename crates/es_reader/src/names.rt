//! Names in the order of the text, each once.

ghost use Rattle.std.specs.Prelude.{◌≡◌, [], length, not, IfOk};
ghost use Rattle.es_reader.specs.Programs.{is_among};
ghost use Rattle.es_reader.specs.Told.{with_name};

use bml_bytes::{NoMemory, Text};
use indexmap::IndexSet;
use std::alloc::Global;
use std::marker::Model;

/// Names in the order in which they came first. Contracts see the list of them.
#[derive(Drop)]
pub struct Names {
    set: IndexSet<Text>,
}

impl Model for Names {
    ghost use Rattle.std.specs.Prelude.{ℕ, List};

    ghost Value = { List (List ℕ) };

    ghost view = { λ names. names.set.keys };
}

impl Names {
    /// None yet.
    pub fn new(alloc: Global) -> Names
        ensures { result ≡ [] }
    {
        Names {
            set: IndexSet::new(alloc),
        }
    }

    /// One name more, unless it is there. Answers whether it was added.
    pub fn add(&mut self, name: &Text) -> Result<bool, NoMemory>
        ensures added { IfOk result (λ added. added ≡ not (is_among name.now self.old)) }
        ensures names { IfOk result (λ _. self.new ≡ with_name self.old name.now) }
    {
        let added = self.set.insert(name.share()?)?;
        Ok(added)
    }

    /// How many they are.
    pub fn len(&self) -> usize
        ensures { result ≡ length self.now }
    {
        self.set.len()
    }

    /// The names as texts, in their order.
    pub fn texts(&self) -> Result<Vec<Text>, NoMemory>
        ensures { IfOk result (λ texts. texts.items ≡ self.now) }
    {
        let mut texts = Vec::new(*self.set.allocator());
        for name in self.set.as_slice() {
            texts.push(name.share()?)?;
        }
        Ok(texts)
    }
}
