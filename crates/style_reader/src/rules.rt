//! Rules, and the texts that they are read from.

ghost use Rattle.std.specs.Prelude.{◌≡◌, ◌++◌, [], IfOk, OnErr, OnOk};
ghost use Rattle.std.specs.Option.{option_to_list};
ghost use Rattle.style_reader.specs.Readings.{inline_rules_by, inline_rules_of, plain_text as spec_plain_text, rules_by, rules_in, rules_of, sheet_of};
ghost use Rattle.style_reader.specs.Rules.{AreFitting};
ghost use Rattle.style_reader.specs.devices.Views.{KeepsFront, rules_by_part};

use crate::comments::{has_comment, plain_text};
use crate::declarations::{Declaration, declarations_in};
use crate::selectors::{Selector, copied_selectors, selectors_of};
use crate::sheets::{Part, next_part};
use bml_bytes::{NoMemory, Sequence, Text};
use std::alloc::Global;
use std::marker::Model;

/// A rule: each element that one of its selectors matches is given its declarations.
#[derive(Debug, Drop)]
pub struct Rule {
    pub selectors: Sequence<Selector>,
    /// In the order written.
    pub declarations: Sequence<Declaration>,
}

/// The rules of style texts, in order. Contracts see the list of them.
#[derive(Debug, Drop)]
pub struct Rules {
    rules: Vec<Rule>,
}

impl Model for Rules {
    ghost use Rattle.std.specs.Prelude.{List};
    ghost use Rattle.style_reader.specs.declared.rules.Rule.{Rule};

    ghost Value = { List Rule };

    ghost use Rattle.style_reader.specs.Rules.{AreFitting};

    ghost view = { λ rules. rules.rules.items };

    ghost invariant = { λ rules. AreFitting rules.rules.items };
}

impl Rules {
    /// No rules. This takes no memory.
    pub fn new(alloc: Global) -> Rules
        ensures { result ≡ [] }
    {
        Rules {
            rules: Vec::new(alloc),
        }
    }

    /// All of them, in order. Each value that they declare fits its property.
    pub fn as_slice(&self) -> &[Rule]
        ensures all { result.now ≡ self.now }
        ensures fitting { AreFitting self.now }
    {
        self.rules.as_slice()
    }

    /// Equal rules of their own: what is appended to one of the two doesn't change the other. They
    /// share their texts. The cost is the number of selectors and declarations.
    pub fn copy(&self) -> Result<Rules, NoMemory>
        ensures { IfOk result (λ rules. rules ≡ self.now) }
    {
        let rules = copied_rules(*self.rules.allocator(), self.rules.as_slice())?;
        Ok(Rules { rules })
    }

    // Appends the rules of a sheet whose comments are spaces.
    fn push_sheet(&mut self, text: &[u16]) -> Result<(), NoMemory>
        ensures ok { OnOk result (self.new ≡ self.old ++ rules_in (sheet_of text.now)) }
        ensures err { OnErr result (self.new ≡ self.old) }
    {
        let before = self.rules.len();
        match push_rules(text, &mut self.rules) {
            Ok(()) => Ok(()),
            Err(error) => {
                self.rules.truncate(before);
                Err(error)
            }
        }
    }
}

/// Reads the text of a sheet, and appends its rules to those of the texts read before. For want of
/// memory the rules stay as they were. Each code is read a bounded number of times.
#[tactic(auto, unfolding(crate::specs::Readings::rules_of))]
pub fn read_sheet(text: &Text, rules: &mut Rules) -> Result<(), NoMemory>
    ensures ok { OnOk result (rules.new ≡ rules.old ++ rules_of text.now) }
    ensures err { OnErr result (rules.new ≡ rules.old) }
{
    let codes = text.codes();
    if !has_comment(codes) {
        return rules.push_sheet(codes);
    }
    let plain = plain_text(*rules.rules.allocator(), codes)?;
    rules.push_sheet(plain.as_slice())
}

/// Reads an inline text, which is declarations alone. They are those of one rule with the selector
/// `*`.
#[tactic(auto, unfolding(crate::specs::Readings::inline_rules_of))]
pub fn read_inline(alloc: Global, text: &Text) -> Result<Rules, NoMemory>
    ensures { IfOk result (λ rules. rules ≡ inline_rules_of text.now) }
{
    let codes = text.codes();
    if !has_comment(codes) {
        return inline_rules(alloc, codes);
    }
    let plain = plain_text(alloc, codes)?;
    inline_rules(alloc, plain.as_slice())
}

// The rule of an inline text whose comments are spaces.
fn inline_rules(alloc: Global, text: &[u16]) -> Result<Rules, NoMemory>
    ensures { IfOk result (λ rules. rules ≡ inline_rules_by text.now) }
{
    let mut selectors = Vec::new(alloc);
    selectors.push(Selector {
        tag: None,
        mark: None,
        pseudo_class: None,
    })?;
    let declarations = declarations_in(alloc, text)?;
    let mut rules = Vec::new(alloc);
    rules.push(Rule {
        selectors: Sequence::from(selectors),
        declarations: Sequence::from(declarations),
    })?;
    Ok(Rules { rules })
}

// Appends the rules of a sheet whose comments are spaces.
fn push_rules(text: &[u16], rules: &mut Vec<Rule>) -> Result<(), NoMemory>
    ensures ok { OnOk result (rules.new.items ≡ rules.old.items ++ rules_in (sheet_of text.now)) }
    ensures grows { KeepsFront rules.old.items rules.new.items }
{
    let mut rest = text;
    'parts: while let Some((part, behind)) = next_part(rest) {
        push_part(part, rules)?;
        rest = behind;
    }
    Ok(())
}

// Appends the rule that a part of a sheet is, where it is a good one.
fn push_part(part: Part<'_>, rules: &mut Vec<Rule>) -> Result<(), NoMemory>
    ensures ok { OnOk result (rules.new.items ≡ rules.old.items ++ rules_by_part part.entry) }
    ensures grows { KeepsFront rules.old.items rules.new.items }
{
    match part {
        Part::AtRule => Ok(()),
        Part::Rule(selectors, block) => push_rule(selectors, block, rules),
    }
}

// Appends a rule, where each of its selectors is one.
fn push_rule(selectors: &[u16], block: &[u16], rules: &mut Vec<Rule>) -> Result<(), NoMemory>
    ensures ok { OnOk result
        (rules.new.items ≡ rules.old.items ++ rules_by selectors.now block.now) }
    ensures grows { KeepsFront rules.old.items rules.new.items }
{
    let alloc = *rules.allocator();
    if let Some(selectors) = selectors_of(alloc, selectors)? {
        let declarations = declarations_in(alloc, block)?;
        rules.push(Rule {
            selectors: Sequence::from(selectors),
            declarations: Sequence::from(declarations),
        })?;
    }
    Ok(())
}

// The same rules in a vector of their own.
fn copied_rules(alloc: Global, rules: &[Rule]) -> Result<Vec<Rule>, NoMemory>
    ensures { IfOk result (λ copy. copy.items ≡ rules.now) }
{
    let mut copy = Vec::with_capacity(alloc, rules.len())?;
    'rules: for rule in rules {
        copy.push(copied_rule(alloc, rule)?)?;
    }
    Ok(copy)
}

// The same rule again.
fn copied_rule(alloc: Global, rule: &Rule) -> Result<Rule, NoMemory>
    ensures { IfOk result (λ copy. copy ≡ rule.now) }
{
    let selectors = copied_selectors(alloc, rule.selectors.as_slice())?;
    let declarations = Vec::from_slice(alloc, rule.declarations.as_slice())?;
    Ok(Rule {
        selectors: Sequence::from(selectors),
        declarations: Sequence::from(declarations),
    })
}
