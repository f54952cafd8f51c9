//! The best of some rules for each state and property at once.

ghost use Rattle.std.specs.Prelude.{◌≡◌, ◌≢◌, ◌<◌, None, Some, IfOk, not};
ghost use Rattle.style_cascade.specs.Candidates.{declared_value, last_value};
ghost use Rattle.style_cascade.specs.devices.Indexing.{better_of as spec_better_of, is_weaker, offer_of, question, rule_offer, with_offer};
ghost use Rattle.style_cascade.specs.devices.Rows.{found_in, value_at};
ghost use Rattle.style_cascade.specs.devices.Searching.{best_with_both};
ghost use Rattle.style_cascade.specs.declared.states.State.{State};
ghost use Rattle.style_reader.specs.declared.properties.Property.{Property};

use crate::search::{Candidate, greatest_match};
use crate::states::State;
use crate::subjects::Subject;
use crate::tables::{CELLS, row_place};
use bml_bytes::NoMemory;
use std::alloc::Global;
use std::marker::Model;
use style_reader::{Declaration, Property, Rule, StyleValue};

/// The best so far, and the number of its rule.
#[derive(Clone, Copy)]
pub struct Found {
    pub rule: usize,
    pub candidate: Candidate,
}

/// The best so far for each state and property. Contracts see the list of them.
#[derive(Drop)]
pub struct Row {
    cells: Vec<Option<Found>>,
}

impl Model for Row {
    ghost use Rattle.std.specs.Prelude.{◌≡◌, List, Option, length};
    ghost use Rattle.style_cascade.specs.declared.rows.Found.{Found};

    ghost Value = { List (Option Found) };

    ghost view = { λ row. row.cells.items };

    ghost invariant = { λ row. length row.cells.items ≡ 51 };
}

// The better of the best and of what a rule gives, which may stand before it or behind it.
fn better_of(best: Option<Found>, rule: usize, candidate: Candidate) -> Found
    ensures { result ≡ spec_better_of best rule candidate }
{
    match best {
        Some(found) if is_stronger(found, rule, candidate) => found,
        _ => Found { rule, candidate },
    }
}

// Whether it is stronger than what that rule gives.
fn is_stronger(found: Found, rule: usize, candidate: Candidate) -> bool
    ensures { result ≡ not (is_weaker found rule candidate) }
{
    let best = found.candidate.specificity;
    candidate.specificity < best || (candidate.specificity == best && rule < found.rule)
}

impl Row {
    /// A row in which nothing is found.
    pub fn new(alloc: Global) -> Result<Row, NoMemory>
        ensures { IfOk result (λ row. (state : State) (property : Property) →
            found_in row state property ≡ None) }
    {
        let mut cells = Vec::with_capacity(alloc, CELLS)?;
        'cells: while cells.len() < CELLS {
            cells.push(None)?;
        }
        Ok(Row { cells })
    }

    /// The best of all of these rules.
    pub fn of_rules(alloc: Global, rules: &[Rule], subject: &Subject) -> Result<Row, NoMemory>
        ensures { IfOk result (λ row. (state : State) (property : Property) →
            value_at row state property ≡ declared_value rules.now subject.now state property) }
    {
        let mut row = Row::new(alloc)?;
        'rules: for number in 0..rules.len() {
            row.offer_rule(rules, number, subject);
        }
        Ok(row)
    }

    /// The value of the best.
    pub fn value(&self, state: State, property: Property) -> Option<StyleValue>
        ensures { result ≡ value_at self.now state property }
    {
        match self.get(state, property) {
            Some(Found { candidate, .. }) => Some(candidate.value),
            None => None,
        }
    }

    fn get(&self, state: State, property: Property) -> Option<Found>
        ensures { result ≡ found_in self.now state property }
    {
        match self.cells.get(row_place(state, property)) {
            Some(found) => *found,
            None => None,
        }
    }

    /// Offers what the rule of that number gives an element.
    pub fn offer_rule(&mut self, rules: &[Rule], number: usize, subject: &Subject)
        ensures { (state : State) (property : Property) → found_in self.new state property
            ≡ with_offer (found_in self.old state property) number
            (offer_of (question rules.now subject.now state property) number) }
    {
        let Some(rule) = rules.get(number) else {
            return;
        };
        self.offer_in(State::Normal, rule, number, subject);
        self.offer_in(State::Focus, rule, number, subject);
        self.offer_in(State::Active, rule, number, subject);
    }

    // Offers what a rule gives an element in a state: its declarations, given to the most specific
    // of its selectors that match.
    fn offer_in(&mut self, state: State, rule: &Rule, number: usize, subject: &Subject)
        ensures here { (property : Property) → found_in self.new state property
            ≡ with_offer (found_in self.old state property) number
            (rule_offer subject.now state property rule.now) }
        ensures others { (at : State) (property : Property) → at ≢ state →
            found_in self.new at property ≡ found_in self.old at property }
    {
        let Some(specificity) = greatest_match(rule.selectors.as_slice(), subject, state) else {
            return;
        };
        self.offer_each(state, specificity, rule.declarations.as_slice(), number);
    }

    // Offers declarations of a rule. Of those of one property the last one counts.
    pub fn offer_each(
        &mut self,
        state: State,
        specificity: u8,
        declarations: &[Declaration],
        number: usize,
    )
        ensures here { (property : Property) → found_in self.new state property
            ≡ with_offer (found_in self.old state property) number
            (best_with_both None (Some specificity) (last_value property declarations.now)) }
        ensures others { (at : State) (property : Property) → at ≢ state →
            found_in self.new at property ≡ found_in self.old at property }
    {
        let mut rest = declarations;
        'declarations: while let Some((declaration, more)) = rest.split_first() {
            let value = declaration.value;
            let candidate = Candidate { specificity, value };
            self.offer(state, declaration.property, number, candidate);
            rest = more;
        }
    }

    fn offer(&mut self, state: State, property: Property, number: usize, candidate: Candidate)
        ensures here { found_in self.new state property
            ≡ with_offer (found_in self.old state property) number (Some candidate) }
        ensures others { (at : State) (of : Property) → ((at ≡ state) × (of ≡ property) → ⊥) →
            found_in self.new at of ≡ found_in self.old at of }
    {
        let best = better_of(self.get(state, property), number, candidate);
        self.cells[row_place(state, property)] = Some(best);
    }
}
