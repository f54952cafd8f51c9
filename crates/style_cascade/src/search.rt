//! The selectors of a rule that match an element.

ghost use Rattle.std.specs.Prelude.{◌≡◌, None};
ghost use Rattle.style_cascade.specs.devices.Searching.{greatest_of, greatest_with as spec_greatest_with};

use crate::states::State;
use crate::subjects::Subject;
use style_reader::{Selector, StyleValue};

/// A value that is given, and how specific the selector is that it is given to.
#[derive(Clone, Copy)]
pub struct Candidate {
    pub specificity: u8,
    pub value: StyleValue,
}

/// How specific the most specific selector is that matches, if one does.
pub fn greatest_match(selectors: &[Selector], subject: &Subject, state: State) -> Option<u8>
    ensures { result ≡ greatest_of subject.now state None selectors.now }
{
    let mut greatest = None;
    let mut rest = selectors;
    'selectors: while let Some((selector, more)) = rest.split_first() {
        greatest = greatest_with(selector, subject, state, greatest);
        rest = more;
    }
    greatest
}

#[tactic(auto, unfolding(crate::specs::devices::Searching::greatest_with))]
fn greatest_with(
    selector: &Selector,
    subject: &Subject,
    state: State,
    before: Option<u8>,
) -> Option<u8>
    ensures { result ≡ spec_greatest_with subject.now state before selector.now }
{
    if !subject.matches(selector, state) {
        return before;
    }
    let specificity = selector.specificity();
    match before {
        Some(before) if specificity < before => Some(before),
        _ => Some(specificity),
    }
}
