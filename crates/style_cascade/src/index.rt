//! Rules by their selectors.

ghost use Rattle.std.specs.Prelude.{◌≡◌, ℕ, true, Contains, IfOk, Some, slice_get};
ghost use Rattle.style_reader.specs.declared.rules.Rule.{Rule};
ghost use Rattle.style_reader.specs.declared.selectors.Selector.{Selector};
ghost use Rattle.style_cascade.specs.devices.Chains.{AreNoted, HasRule, IsNoted, chain_at};
ghost use Rattle.style_cascade.specs.devices.Keys.{AreKnown, is_among};
ghost use Rattle.style_cascade.specs.declared.keys.Key.{Key};

use crate::chains::Chains;
use crate::given::given_by;
use crate::numbers::Numbers;
use bml_bytes::{NoMemory, Sequence};
use indexmap::IndexMap;
use std::alloc::Global;
use style_reader::{Declaration, Rule};

/// The rules by their selectors: the numbers of the names that these ask for, what each rule gives,
/// and the chain of each selector.
#[derive(Drop)]
pub struct Index {
    pub numbers: Numbers,
    pub given: Vec<Sequence<Declaration>>,
    pub chains: Chains,
}

impl Index {
    /// The rules by their selectors. The time grows with the number of these.
    pub fn of_rules(alloc: Global, rules: &[Rule]) -> Result<Index, NoMemory>
        ensures { IfOk result (λ index. AreNoted rules.now
            index.numbers.names.keys index.given.items index.chains.chains) }
    {
        let numbers = Numbers::of_rules(alloc, rules)?;
        let given = given_by(alloc, rules)?;
        let chains = chains_of(alloc, &numbers, given.as_slice(), rules)?;
        Ok(Index {
            numbers,
            given,
            chains,
        })
    }
}

// The chains of all selectors of the rules. The rules are noted from the last one on.
fn chains_of(
    alloc: Global,
    numbers: &Numbers,
    given: &[Sequence<Declaration>],
    rules: &[Rule],
) -> Result<Chains, NoMemory>
    ensures only { IfOk result (λ made. (key : Key) (number : ℕ) →
        is_among number (chain_at made.chains key) ≡ true →
        HasRule numbers.now.names.keys rules.now key number) }
    ensures noted { IfOk result (λ made. (number : ℕ) (rule : Rule) (selector : Selector) →
        slice_get rules.now number ≡ Some rule → Contains rule.selectors selector →
        AreKnown numbers.now.names.keys selector →
        IsNoted numbers.now.names.keys given.now number made.chains selector) }
{
    let mut chains = Chains {
        chains: IndexMap::new(alloc),
    };
    let mut number = rules.len();
    'rules: while number > 0 {
        number -= 1;
        chains.note_rule(alloc, numbers, given, &rules[number], number)?;
    }
    Ok(chains)
}
