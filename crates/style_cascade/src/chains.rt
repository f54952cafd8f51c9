//! Chains of rules, one for each selector.

ghost use Rattle.std.specs.Prelude.{◌≡◌, ℕ, ◌⊎◌, true, false, Contains, IfOk, IsTrue, OnOk, None, cond};
ghost use Rattle.indexmap.specs.IndexMap.{get};
ghost use Rattle.style_reader.specs.declared.properties.Property.{Property};
ghost use Rattle.style_reader.specs.declared.selectors.Selector.{Selector};
ghost use Rattle.style_cascade.specs.devices.Chains.{AreSeen, GivesIn, GivesSome, HasSeen, IsGiving, IsNoted, KeepsChains, Notes, chain_at};
ghost use Rattle.style_cascade.specs.devices.Keys.{AreKnown, HasKey, IsKeyOf, is_among, same_key};
ghost use Rattle.style_cascade.specs.declared.keys.Key.{Key};

use crate::given::{declarations_of, has_property};
use crate::keys::Key;
use crate::numbers::Numbers;
use bml_bytes::{NoMemory, Sequence};
use indexmap::IndexMap;
use std::alloc::Global;
use style_reader::{Declaration, Property, Rule, Selector};

/// The rules with one selector that give something which later ones don't, the latest first. There
/// are no more than 17.
#[derive(Drop)]
pub struct Chain {
    // the number of the rule that was noted last, whether it stands in the chain or not
    pub seen: usize,
    pub rules: Vec<usize>,
}

/// The chains of all selectors.
#[derive(Drop)]
pub struct Chains {
    pub chains: IndexMap<Key, Chain>,
}

impl Chains {
    /// Notes the rule of this number for each of its selectors. Later rules were noted before.
    pub fn note_rule(
        &mut self,
        alloc: Global,
        numbers: &Numbers,
        given: &[Sequence<Declaration>],
        rule: &Rule,
        number: usize,
    ) -> Result<(), NoMemory>
        requires { AreSeen given.now number self.old.chains }
        ensures seen { OnOk result (AreSeen given.now number self.new.chains) }
        ensures kept { OnOk result (KeepsChains self.old.chains self.new.chains) }
        ensures only { OnOk result ((key : Key) (other : ℕ) →
            is_among other (chain_at self.new.chains key) ≡ true →
            (is_among other (chain_at self.old.chains key) ≡ true)
            ⊎ ((other ≡ number) × HasKey numbers.now.names.keys key rule.now.selectors)) }
        ensures noted { OnOk result ((selector : Selector) →
            Contains rule.now.selectors selector → AreKnown numbers.now.names.keys selector →
            IsNoted numbers.now.names.keys given.now number self.new.chains selector) }
    {
        let selectors = rule.selectors.as_slice();
        'selectors: for place in 0..selectors.len() {
            self.note_selector(alloc, numbers, given, &selectors[place], number)?;
        }
        Ok(())
    }

    // Notes the rule of this number for a selector whose names have numbers.
    fn note_selector(
        &mut self,
        alloc: Global,
        numbers: &Numbers,
        given: &[Sequence<Declaration>],
        selector: &Selector,
        number: usize,
    ) -> Result<(), NoMemory>
        requires { AreSeen given.now number self.old.chains }
        ensures seen { OnOk result (AreSeen given.now number self.new.chains) }
        ensures kept { OnOk result (KeepsChains self.old.chains self.new.chains) }
        ensures only { OnOk result ((key : Key) (other : ℕ) →
            is_among other (chain_at self.new.chains key) ≡ true →
            (is_among other (chain_at self.old.chains key) ≡ true)
            ⊎ ((other ≡ number) × IsKeyOf numbers.now.names.keys key selector.now)) }
        ensures noted { OnOk result (AreKnown numbers.now.names.keys selector.now →
            IsNoted numbers.now.names.keys given.now number self.new.chains selector.now) }
    {
        match numbers.key_of(selector) {
            Some(key) => self.note(alloc, given, key, number),
            None => Ok(()),
        }
    }

    // Notes the rule of this number for the selector of this key.
    fn note(
        &mut self,
        alloc: Global,
        given: &[Sequence<Declaration>],
        key: Key,
        number: usize,
    ) -> Result<(), NoMemory>
        requires { AreSeen given.now number self.old.chains }
        ensures seen { OnOk result (AreSeen given.now number self.new.chains) }
        ensures kept { OnOk result (KeepsChains self.old.chains self.new.chains) }
        ensures only { OnOk result ((at : Key) (other : ℕ) →
            is_among other (chain_at self.new.chains at) ≡ true →
            (is_among other (chain_at self.old.chains at) ≡ true)
            ⊎ ((other ≡ number) × (key ≡ at))) }
        ensures noted { OnOk result ((property : Property) →
            IsGiving given.now number property →
            GivesSome given.now (chain_at self.new.chains key) number property) }
    {
        if self.has_seen(key, number) {
            return Ok(());
        }
        let before = self.take(alloc, key);
        let rules = noted(before, given, number)?;
        let seen = number;
        self.chains.insert(key, Chain { seen, rules })?;
        Ok(())
    }

    // Whether the rule was the last one that was noted for the selector.
    fn has_seen(&self, key: Key, number: usize) -> bool
        ensures { IsTrue result → HasSeen self.now.chains key number }
    {
        match self.chains.get(&key) {
            Some(chain) => chain.seen == number,
            None => false,
        }
    }

    // Takes the chain of a selector out.
    fn take(&mut self, alloc: Global, key: Key) -> Vec<usize>
        ensures rules { result.items ≡ chain_at self.old.chains key }
        ensures others { (other : Key) → get same_key self.new.chains other
            ≡ cond (same_key key other) None (get same_key self.old.chains other) }
    {
        match self.chains.swap_remove(&key) {
            Some(chain) => chain.rules,
            None => Vec::new(alloc),
        }
    }
}

// The chain with one more rule, if that gives something which the others don't.
fn noted(
    rules: Vec<usize>,
    given: &[Sequence<Declaration>],
    number: usize,
) -> Result<Vec<usize>, NoMemory>
    ensures { IfOk result (λ more. Notes given.now rules.items number more.items) }
{
    let mut rules = rules;
    if adds(rules.as_slice(), given, number) {
        rules.push(number)?;
    }
    Ok(rules)
}

// Whether a rule gives something that no rule of a chain does.
fn adds(rules: &[usize], given: &[Sequence<Declaration>], number: usize) -> bool
    ensures { result ≡ false → (property : Property) → IsGiving given.now number property →
        GivesIn given.now rules.now property }
{
    let mut rest = declarations_of(given, number);
    'declarations: while let Some((first, more)) = rest.split_first() {
        if !is_given(rules, given, first.property) {
            return true;
        }
        rest = more;
    }
    false
}

// Whether a rule of a chain gives the property.
fn is_given(rules: &[usize], given: &[Sequence<Declaration>], property: Property) -> bool
    ensures { IsTrue result → GivesIn given.now rules.now property }
{
    let mut rest = rules;
    'rules: while let Some((first, more)) = rest.split_first() {
        if gives(given, *first, property) {
            return true;
        }
        rest = more;
    }
    false
}

// Whether the rule of this number gives the property.
fn gives(given: &[Sequence<Declaration>], number: usize, property: Property) -> bool
    ensures { IsTrue result → IsGiving given.now number property }
{
    match given.get(number) {
        Some(declarations) => has_property(declarations.as_slice(), property),
        None => false,
    }
}
