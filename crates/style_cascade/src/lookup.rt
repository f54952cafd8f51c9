//! The search of the chains of those selectors that may match an element.

ghost use Rattle.std.specs.Prelude.{◌≡◌, ℕ, List, None, Some, true, OnOk};
ghost use Rattle.style_reader.specs.declared.rules.Rule.{Rule};
ghost use Rattle.style_reader.specs.declared.selectors.Selector.{Selector};
ghost use Rattle.style_cascade.specs.Matching.{has_mark, matches};
ghost use Rattle.style_cascade.specs.devices.Chains.{AreNoted};
ghost use Rattle.style_cascade.specs.devices.Keys.{AreClasses, IsFor, IsForTag, IsKeyOf, asked_with, is_among, is_for_when, key_with, number_of};
ghost use Rattle.style_cascade.specs.devices.Rows.{AreSound, Changes, CoversAsked, CoversKey, CoversRules, KeepsEach};
ghost use Rattle.style_cascade.specs.declared.keys.Key.{Key};
ghost use Rattle.style_cascade.specs.declared.keys.When.{When};
ghost use Rattle.style_cascade.specs.declared.states.State.{State};
ghost use Rattle.style_cascade.specs.declared.subjects.Subject.{Subject};

use crate::given::declarations_of;
use crate::index::Index;
use crate::keys::{Asked, Key, When};
use crate::rows::Row;
use crate::states::State;
use crate::subjects::Subject;
use bml_bytes::NoMemory;
use std::alloc::Global;

impl Index {
    /// Offers what the rules give the element.
    pub fn search(&self, alloc: Global, subject: &Subject, row: &mut Row) -> Result<(), NoMemory>
        ensures sound { OnOk result ((rules : List Rule) →
            AreNoted rules self.now.numbers.names.keys
            self.now.given.items self.now.chains.chains →
            AreSound rules subject.now row.old → AreSound rules subject.now row.new) }
        ensures covers { OnOk result ((selector : Selector) (key : Key) (state : State) →
            IsKeyOf self.now.numbers.names.keys key selector →
            matches selector subject.now state ≡ true →
            CoversKey self.now.given.items self.now.chains.chains row.new state key) }
    {
        let classes = self.numbers.classes(alloc, subject.classes.as_slice())?;
        self.search_tags(subject, classes.as_slice(), row);
        Ok(())
    }

    // Offers what the rules give the element. These are the numbers of its classes.
    fn search_tags(&self, subject: &Subject, classes: &[usize], row: &mut Row)
        requires { AreClasses self.now.numbers.names.keys subject.now.classes classes.now }
        ensures sound { (rules : List Rule) → AreNoted rules self.now.numbers.names.keys
            self.now.given.items self.now.chains.chains →
            AreSound rules subject.now row.old → AreSound rules subject.now row.new }
        ensures covers { (selector : Selector) (key : Key) (state : State) →
            IsKeyOf self.now.numbers.names.keys key selector →
            matches selector subject.now state ≡ true →
            CoversKey self.now.given.items self.now.chains.chains row.new state key }
    {
        self.search_tag(None, subject, classes, row);
        match self.numbers.number(Some(&subject.tag)) {
            Some(tag) => self.search_tag(tag, subject, classes, row),
            None => {}
        }
    }

    // Offers what is given by rules that ask for this tag, or for none.
    fn search_tag(&self, tag: Option<usize>, subject: &Subject, classes: &[usize], row: &mut Row)
        requires { AreClasses self.now.numbers.names.keys subject.now.classes classes.now }
        ensures keeps { KeepsEach row.old row.new }
        ensures sound { (rules : List Rule) → AreNoted rules self.now.numbers.names.keys
            self.now.given.items self.now.chains.chains →
            IsForTag self.now.numbers.names.keys subject.now tag →
            AreSound rules subject.now row.old → AreSound rules subject.now row.new }
        ensures covers { (selector : Selector) (key : Key) (state : State) →
            IsKeyOf self.now.numbers.names.keys key selector → key.asked.tag ≡ tag →
            has_mark selector.mark subject.now ≡ true → is_for_when key.when state ≡ true →
            CoversKey self.now.given.items self.now.chains.chains row.new state key }
    {
        let class = None;
        let id = None;
        self.search_asked(Asked { tag, class, id }, row);
        self.search_id(tag, subject, row);
        self.search_classes(tag, classes, row);
    }

    // Offers what is given by rules that ask for the element's id.
    fn search_id(&self, tag: Option<usize>, subject: &Subject, row: &mut Row)
        ensures keeps { KeepsEach row.old row.new }
        ensures sound { (rules : List Rule) → AreNoted rules self.now.numbers.names.keys
            self.now.given.items self.now.chains.chains →
            IsForTag self.now.numbers.names.keys subject.now tag →
            AreSound rules subject.now row.old → AreSound rules subject.now row.new }
        ensures covers { (name : List ℕ) (number : ℕ) → subject.now.id ≡ Some name →
            number_of self.now.numbers.names.keys name ≡ Some number →
            CoversAsked self.now.given.items self.now.chains.chains row.new
            (asked_with tag None (Some number)) }
    {
        let Some(name) = &subject.id else {
            return;
        };
        let class = None;
        if let Some(id) = self.numbers.number(Some(name)) {
            self.search_asked(Asked { tag, class, id }, row);
        }
    }

    // Offers what is given by rules that ask for one of the classes.
    fn search_classes(&self, tag: Option<usize>, classes: &[usize], row: &mut Row)
        ensures keeps { KeepsEach row.old row.new }
        ensures sound { (rules : List Rule) (subject : Subject) →
            AreNoted rules self.now.numbers.names.keys
            self.now.given.items self.now.chains.chains →
            IsForTag self.now.numbers.names.keys subject tag →
            AreClasses self.now.numbers.names.keys subject.classes classes.now →
            AreSound rules subject row.old → AreSound rules subject row.new }
        ensures covers { (number : ℕ) → is_among number classes.now ≡ true →
            CoversAsked self.now.given.items self.now.chains.chains row.new
            (asked_with tag (Some number) None) }
    {
        let id = None;
        let mut rest = classes;
        'classes: while let Some((first, more)) = rest.split_first() {
            let class = Some(*first);
            self.search_asked(Asked { tag, class, id }, row);
            rest = more;
        }
    }

    // Offers what is given in each state by rules that ask so.
    fn search_asked(&self, asked: Asked, row: &mut Row)
        ensures keeps { KeepsEach row.old row.new }
        ensures sound { (rules : List Rule) (subject : Subject) →
            AreNoted rules self.now.numbers.names.keys
            self.now.given.items self.now.chains.chains →
            IsFor self.now.numbers.names.keys subject asked →
            AreSound rules subject row.old → AreSound rules subject row.new }
        ensures covers { CoversAsked self.now.given.items self.now.chains.chains row.new asked }
    {
        self.search_state(asked, State::Normal, row);
        self.search_state(asked, State::Focus, row);
        self.search_state(asked, State::Active, row);
    }

    // Offers what is given in the state by rules that ask so.
    fn search_state(&self, asked: Asked, state: State, row: &mut Row)
        ensures keeps { KeepsEach row.old row.new }
        ensures sound { (rules : List Rule) (subject : Subject) →
            AreNoted rules self.now.numbers.names.keys
            self.now.given.items self.now.chains.chains →
            IsFor self.now.numbers.names.keys subject asked →
            AreSound rules subject row.old → AreSound rules subject row.new }
        ensures covers { (when : When) → is_for_when when state ≡ true →
            CoversKey self.now.given.items self.now.chains.chains row.new state
            (key_with asked when) }
    {
        let when = When::Always;
        self.search_key(Key { asked, when }, state, row);
        match state {
            State::Normal => {}
            State::Focus => {
                let when = When::Focused;
                self.search_key(Key { asked, when }, state, row);
            }
            State::Active => {
                let when = When::Active;
                self.search_key(Key { asked, when }, state, row);
            }
        }
    }

    // Offers what is given in the state by the rules in the chain of a selector.
    fn search_key(&self, key: Key, state: State, row: &mut Row)
        ensures keeps { KeepsEach row.old row.new }
        ensures sound { (rules : List Rule) (subject : Subject) →
            AreNoted rules self.now.numbers.names.keys
            self.now.given.items self.now.chains.chains →
            IsFor self.now.numbers.names.keys subject key.asked →
            is_for_when key.when state ≡ true →
            AreSound rules subject row.old → AreSound rules subject row.new }
        ensures covers { CoversKey self.now.given.items self.now.chains.chains row.new state key }
    {
        let Some(chain) = self.chains.chains.get(&key) else {
            return;
        };
        self.search_rules(chain.rules.as_slice(), state, key.specificity(), row);
    }

    // Offers what the rules of these numbers give to a selector as specific as this.
    fn search_rules(&self, numbers: &[usize], state: State, specificity: u8, row: &mut Row)
        ensures keeps { KeepsEach row.old row.new }
        ensures changes { Changes self.now.given.items numbers.now specificity state
            row.old row.new }
        ensures covers { CoversRules self.now.given.items numbers.now specificity state row.new }
    {
        let mut rest = numbers;
        'numbers: while let Some((first, more)) = rest.split_first() {
            let declarations = declarations_of(self.given.as_slice(), *first);
            row.offer_each(state, specificity, declarations, *first);
            rest = more;
        }
    }
}
