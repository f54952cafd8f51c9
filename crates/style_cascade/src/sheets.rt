//! The rules of a document's style texts.

ghost use Rattle.std.specs.Prelude.{◌≡◌, IfOk, IfSome, IsTrue};
ghost use Rattle.style_reader.specs.Values.{fits};
ghost use Rattle.style_cascade.specs.Candidates.{declared_value};
ghost use Rattle.style_cascade.specs.devices.Rows.{value_at};
ghost use Rattle.style_cascade.specs.declared.states.State.{State};
ghost use Rattle.style_reader.specs.declared.properties.Property.{Property};

use crate::index::Index;
use crate::rows::Row;
use crate::subjects::Subject;
use bml_bytes::NoMemory;
use std::alloc::Global;
use std::marker::Model;
use style_reader::Rules;

/// The rules of a document's style texts, with the chains of their selectors. Contracts see the list
/// of them.
#[derive(Drop)]
pub struct Sheet {
    rules: Rules,
    index: Index,
}

impl Model for Sheet {
    ghost use Rattle.std.specs.Prelude.{List};
    ghost use Rattle.style_reader.specs.declared.rules.Rule.{Rule};

    ghost Value = { List Rule };

    ghost use Rattle.style_reader.specs.Rules.{AreFitting};
    ghost use Rattle.style_cascade.specs.devices.Chains.{AreNoted};

    ghost view = { λ sheet. sheet.rules };

    ghost invariant = { λ sheet. AreFitting sheet.rules × AreNoted sheet.rules
        sheet.index.numbers.names.keys sheet.index.given.items sheet.index.chains.chains };
}

impl Sheet {
    /// These rules. The time grows with the number of their selectors.
    pub fn new(alloc: Global, rules: Rules) -> Result<Sheet, NoMemory>
        ensures { IfOk result (λ sheet. sheet ≡ rules) }
    {
        let index = Index::of_rules(alloc, rules.as_slice())?;
        Ok(Sheet { rules, index })
    }

    /// The best of what the rules give an element. Only those chains are searched whose selectors
    /// may match it: they ask for its tag or for none, and for its id, a class of it or neither.
    pub fn best(&self, alloc: Global, subject: &Subject) -> Result<Row, NoMemory>
        ensures best { IfOk result (λ row. (state : State) (property : Property) →
            value_at row state property ≡ declared_value self.now subject.now state property) }
        ensures fits { IfOk result (λ row. (state : State) (property : Property) →
            IfSome (value_at row state property) (λ value. IsTrue (fits property value))) }
    {
        let mut row = Row::new(alloc)?;
        self.index.search(alloc, subject, &mut row)?;
        Ok(row)
    }

    /// The rules alone.
    pub fn into_rules(self) -> Rules
        ensures { result ≡ self }
    {
        self.rules
    }
}
