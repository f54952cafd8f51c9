//! What each rule gives: the last of its declarations of each property.

ghost use Rattle.std.specs.Prelude.{◌≡◌, ℕ, is_some, IfOk};
ghost use Rattle.style_reader.specs.declared.properties.Property.{Property};
ghost use Rattle.style_cascade.specs.Candidates.{last_value};
ghost use Rattle.style_cascade.specs.devices.Chains.{given_value, value_in};

use bml_bytes::{NoMemory, Sequence};
use std::alloc::Global;
use style_reader::{Declaration, Property, Rule};

/// The last declarations of each property, rule by rule. There are no more than 17 of a rule.
pub fn given_by(alloc: Global, rules: &[Rule]) -> Result<Vec<Sequence<Declaration>>, NoMemory>
    ensures { IfOk result (λ given. (number : ℕ) (property : Property) →
        given_value given.items number property ≡ value_in rules.now number property) }
{
    let mut given = Vec::new(alloc);
    'rules: for number in 0..rules.len() {
        let declarations = last_declarations(alloc, rules[number].declarations.as_slice())?;
        given.push(Sequence::from(declarations))?;
    }
    Ok(given)
}

// The last declaration of each property.
fn last_declarations(
    alloc: Global,
    declarations: &[Declaration],
) -> Result<Vec<Declaration>, NoMemory>
    ensures { IfOk result (λ found. (property : Property) →
        last_value property found.items ≡ last_value property declarations.now) }
{
    let mut found: Vec<Declaration> = Vec::new(alloc);
    let mut rest = declarations;
    'declarations: while let Some((last, front)) = rest.split_last() {
        if !has_property(found.as_slice(), last.property) {
            found.push(*last)?;
        }
        rest = front;
    }
    Ok(found)
}

/// What the rule of this number gives, and nothing where there is none.
pub fn declarations_of(given: &[Sequence<Declaration>], number: usize) -> &[Declaration]
    ensures { (property : Property) →
        last_value property result.now ≡ given_value given.now number property }
{
    match given.get(number) {
        Some(declarations) => declarations.as_slice(),
        None => &[],
    }
}

/// Whether one of the declarations is of the property.
pub fn has_property(declarations: &[Declaration], property: Property) -> bool
    ensures { result ≡ is_some (last_value property declarations.now) }
{
    let mut rest = declarations;
    'declarations: while let Some((first, more)) = rest.split_first() {
        if first.property == property {
            return true;
        }
        rest = more;
    }
    false
}
