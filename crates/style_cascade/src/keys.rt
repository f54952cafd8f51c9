//! Selectors with a number in place of each name.

ghost use Rattle.std.specs.Prelude.{◌≡◌, ◌≤◌};
ghost use Rattle.style_reader.specs.Selectors.{one_if_some as spec_one_if_some};
ghost use Rattle.style_cascade.specs.devices.Keys.{key_specificity, when_of as spec_when_of, when_weight};

use style_reader::PseudoClass;

/// The state that a selector asks for.
#[derive(Clone, Copy, PartialEq, Eq, Hash)]
pub enum When {
    Always,
    Focused,
    Active,
}

/// What a selector asks of an element itself, with a number in place of each name.
#[derive(Clone, Copy, PartialEq, Eq, Hash)]
pub struct Asked {
    pub tag: Option<usize>,
    pub class: Option<usize>,
    pub id: Option<usize>,
}

/// A selector with a number in place of each name.
#[derive(Clone, Copy, PartialEq, Eq, Hash)]
pub struct Key {
    pub asked: Asked,
    pub when: When,
}

impl When {
    fn weight(self) -> u8
        ensures weight { result ≡ when_weight self }
        ensures small { result ≤ 10 }
    {
        match self {
            When::Always => 0,
            When::Focused | When::Active => 10,
        }
    }
}

impl Key {
    /// How specific the selector is.
    #[tactic(auto, unfolding(crate::specs::devices::Keys::key_specificity))]
    pub fn specificity(&self) -> u8
        ensures { result ≡ key_specificity self.now }
    {
        let id = one_if_some(self.asked.id);
        let class = one_if_some(self.asked.class);
        let tag = one_if_some(self.asked.tag);
        100 * id + 10 * class + self.when.weight() + tag
    }
}

fn one_if_some(number: Option<usize>) -> u8
    ensures one { result ≡ spec_one_if_some number }
    ensures small { result ≤ 1 }
{
    match number {
        Some(_) => 1,
        None => 0,
    }
}

/// The state that a pseudo-class asks for.
pub fn when_of(pseudo_class: Option<PseudoClass>) -> When
    ensures { result ≡ spec_when_of pseudo_class }
{
    match pseudo_class {
        None => When::Always,
        Some(PseudoClass::Focus) => When::Focused,
        Some(PseudoClass::Active) => When::Active,
    }
}
