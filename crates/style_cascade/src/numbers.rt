//! The numbers of the names that selectors ask for.

ghost use Rattle.std.specs.Prelude.{◌≡◌, Contains, IfOk, IfSome, IsSome, OnOk, option_copied};
ghost use Rattle.style_reader.specs.declared.rules.Rule.{Rule};
ghost use Rattle.style_reader.specs.declared.selectors.Selector.{Selector};
ghost use Rattle.style_cascade.specs.devices.Keys.{AreClasses, AreKnown, IsCounted, IsKeyOf, IsKnown, KnowsMore, class_in, id_in, number_in};

use crate::keys::{Asked, Key, when_of};
use bml_bytes::{NoMemory, Text};
use indexmap::IndexSet;
use std::alloc::Global;
use style_reader::{Mark, Rule, Selector};

/// The names that selectors ask for. The number of each is its place.
#[derive(Drop)]
pub struct Numbers {
    pub names: IndexSet<Text>,
}

// The class that a mark asks for.
fn class_of(mark: &Option<Mark>) -> Option<&Text>
    ensures { option_copied result ≡ class_in mark.now }
{
    match mark {
        Some(Mark::Class(name)) => Some(name),
        Some(Mark::Id(_)) => None,
        None => None,
    }
}

// The id that a mark asks for.
fn id_of(mark: &Option<Mark>) -> Option<&Text>
    ensures { option_copied result ≡ id_in mark.now }
{
    match mark {
        Some(Mark::Id(name)) => Some(name),
        Some(Mark::Class(_)) => None,
        None => None,
    }
}

impl Numbers {
    /// The numbers of all names that selectors of the rules ask for.
    pub fn of_rules(alloc: Global, rules: &[Rule]) -> Result<Numbers, NoMemory>
        ensures { IfOk result (λ numbers. (rule : Rule) (selector : Selector) →
            Contains rules.now rule → Contains rule.selectors selector →
            AreKnown numbers.names.keys selector) }
    {
        let mut numbers = Numbers {
            names: IndexSet::new(alloc),
        };
        'rules: for place in 0..rules.len() {
            numbers.note_rule(&rules[place])?;
        }
        Ok(numbers)
    }

    // Gives a number to each name that selectors of a rule ask for.
    fn note_rule(&mut self, rule: &Rule) -> Result<(), NoMemory>
        ensures more { OnOk result (KnowsMore self.old.names.keys self.new.names.keys) }
        ensures known { OnOk result ((selector : Selector) →
            Contains rule.now.selectors selector → AreKnown self.new.names.keys selector) }
    {
        let selectors = rule.selectors.as_slice();
        'selectors: for place in 0..selectors.len() {
            self.note_selector(&selectors[place])?;
        }
        Ok(())
    }

    fn note_selector(&mut self, selector: &Selector) -> Result<(), NoMemory>
        ensures more { OnOk result (KnowsMore self.old.names.keys self.new.names.keys) }
        ensures known { OnOk result (AreKnown self.new.names.keys selector.now) }
    {
        self.note(selector.tag.as_ref())?;
        self.note(class_of(&selector.mark))?;
        self.note(id_of(&selector.mark))
    }

    // Gives a number to a name, unless it has one.
    fn note(&mut self, name: Option<&Text>) -> Result<(), NoMemory>
        ensures more { OnOk result (KnowsMore self.old.names.keys self.new.names.keys) }
        ensures known { OnOk result (IsKnown self.new.names.keys (option_copied name.entry)) }
    {
        if let Some(name) = name {
            let name = name.share()?;
            self.names.insert(name)?;
        }
        Ok(())
    }

    /// The number of a name, where one is asked for, and None where it has none.
    pub fn number(&self, name: Option<&Text>) -> Option<Option<usize>>
        ensures number { result ≡ number_in self.now.names.keys (option_copied name.entry) }
        ensures known { IsKnown self.now.names.keys (option_copied name.entry) → IsSome result }
    {
        match name {
            None => Some(None),
            Some(name) => match self.names.get_index_of(name) {
                None => None,
                Some(number) => Some(Some(number)),
            },
        }
    }

    /// The selector with the numbers of its names, where it asks for none that has no number.
    pub fn key_of(&self, selector: &Selector) -> Option<Key>
        ensures key { IfSome result (λ key. IsKeyOf self.now.names.keys key selector.now) }
        ensures known { AreKnown self.now.names.keys selector.now → IsSome result }
    {
        let tag = self.number(selector.tag.as_ref())?;
        let class = self.number(class_of(&selector.mark))?;
        let id = self.number(id_of(&selector.mark))?;
        let asked = Asked { tag, class, id };
        let when = when_of(selector.pseudo_class);
        Some(Key { asked, when })
    }

    /// The numbers of those classes that have one, each once.
    pub fn classes(&self, alloc: Global, classes: &[Text]) -> Result<IndexSet<usize>, NoMemory>
        ensures { IfOk result
            (λ numbers. AreClasses self.now.names.keys classes.now numbers.keys) }
    {
        let mut numbers = IndexSet::new(alloc);
        let mut rest = classes;
        'classes: while let Some((first, more)) = rest.split_first() {
            self.count(first, &mut numbers)?;
            rest = more;
        }
        Ok(numbers)
    }

    // Adds the number of a class, if it has one.
    fn count(&self, class: &Text, numbers: &mut IndexSet<usize>) -> Result<(), NoMemory>
        ensures { OnOk result
            (IsCounted self.now.names.keys class.now numbers.old.keys numbers.new.keys) }
    {
        match self.names.get_index_of(class) {
            Some(number) => {
                numbers.insert(number)?;
                Ok(())
            }
            None => Ok(()),
        }
    }
}
