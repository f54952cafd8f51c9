//! What rules and inline texts say of elements.

ghost use Rattle.std.specs.Prelude.{◌≡◌, ◌≢◌, ◌+◌, ◌*◌, ◌<◌, ◌≤◌, ℕ, None, length, IfOk, IfSome, IsTrue, OnOk};
ghost use Rattle.style_reader.specs.Values.{fits};
ghost use Rattle.style_cascade.specs.Cascade.{said_value};
ghost use Rattle.style_cascade.specs.devices.Kept.{said_of};
ghost use Rattle.style_cascade.specs.devices.Rows.{said_in};
ghost use Rattle.style_cascade.specs.devices.Tables.{cell_of};
ghost use Rattle.style_cascade.specs.declared.states.State.{State};
ghost use Rattle.style_reader.specs.declared.properties.Property.{Property};

use crate::rows::Row;
use crate::sheets::Sheet;
use crate::states::State;
use crate::subjects::{Names, Styled, styled_at};
use crate::tables::Table;
use bml_bytes::NoMemory;
use dom_tree::{NodeId, Tree};
use std::alloc::Global;
use style_reader::{Property, StyleValue};

/// The best inline declarations for an element, and the best of the rules.
#[derive(Drop)]
pub struct Said {
    pub inline: Row,
    pub declared: Row,
}

/// What is said of each node of a tree: of an element what the rules and its inline text say, and
/// nothing of a text. For each element the chains of those selectors are searched that may match it.
pub fn said_table(alloc: Global, tree: &Tree, sheet: &Sheet) -> Result<Table, NoMemory>
    ensures length { IfOk result (λ table. length table ≡ 51 * length tree.now) }
    ensures said { IfOk result (λ table. (node : ℕ) (state : State) (property : Property) →
        node < length tree.now →
        cell_of table node state property ≡ said_value tree.now sheet.now node state property) }
{
    let mut table = Table::new(alloc, tree.node_count())?;
    put_each(alloc, tree, sheet, &mut table)?;
    Ok(table)
}

// Puts what is said of each node into a table that has nothing of any.
fn put_each(alloc: Global, tree: &Tree, sheet: &Sheet, table: &mut Table) -> Result<(), NoMemory>
    requires room { length table.old ≡ 51 * length tree.now }
    requires empty { (node : ℕ) (state : State) (property : Property) →
        cell_of table.old node state property ≡ None }
    ensures length { OnOk result (length table.new ≡ length table.old) }
    ensures said { OnOk result ((node : ℕ) (state : State) (property : Property) →
        node < length tree.now → cell_of table.new node state property
        ≡ said_value tree.now sheet.now node state property) }
{
    let names = Names::new(alloc)?;
    put_nodes(alloc, tree, sheet, &names, table)
}

fn put_nodes(
    alloc: Global,
    tree: &Tree,
    sheet: &Sheet,
    names: &Names,
    table: &mut Table,
) -> Result<(), NoMemory>
    requires room { length table.old ≡ 51 * length tree.now }
    requires empty { (node : ℕ) (state : State) (property : Property) →
        cell_of table.old node state property ≡ None }
    ensures length { OnOk result (length table.new ≡ length table.old) }
    ensures said { OnOk result ((node : ℕ) (state : State) (property : Property) →
        node < length tree.now → cell_of table.new node state property
        ≡ said_value tree.now sheet.now node state property) }
{
    'nodes: for number in 0..tree.node_count() {
        put_node(alloc, tree, sheet, names, NodeId(number), table)?;
    }
    Ok(())
}

// Puts what is said of a node into a table that has nothing of it.
fn put_node(
    alloc: Global,
    tree: &Tree,
    sheet: &Sheet,
    names: &Names,
    node: NodeId,
    table: &mut Table,
) -> Result<(), NoMemory>
    requires node { node.0 < length tree.now }
    requires room { 51 * node.0 + 51 ≤ length table.old }
    requires empty { (state : State) (property : Property) →
        cell_of table.old node.0 state property ≡ None }
    ensures length { OnOk result (length table.new ≡ length table.old) }
    ensures here { OnOk result ((state : State) (property : Property) →
        cell_of table.new node.0 state property
        ≡ said_value tree.now sheet.now node.0 state property) }
    ensures others { OnOk result ((other : ℕ) (state : State) (property : Property) →
        other ≢ node.0 →
        cell_of table.new other state property ≡ cell_of table.old other state property) }
{
    match styled_at(alloc, tree, names, node)? {
        Some(styled) => put_styled(alloc, sheet, &styled, node, table),
        None => Ok(()),
    }
}

// Puts what is said of an element.
fn put_styled(
    alloc: Global,
    sheet: &Sheet,
    styled: &Styled,
    node: NodeId,
    table: &mut Table,
) -> Result<(), NoMemory>
    requires { 51 * node.0 + 51 ≤ length table.old }
    ensures length { OnOk result (length table.new ≡ length table.old) }
    ensures here { OnOk result ((state : State) (property : Property) →
        cell_of table.new node.0 state property
        ≡ said_of sheet.now state property styled.now) }
    ensures others { OnOk result ((other : ℕ) (state : State) (property : Property) →
        other ≢ node.0 →
        cell_of table.new other state property ≡ cell_of table.old other state property) }
{
    let inline = Row::of_rules(alloc, styled.inline.as_slice(), &styled.subject)?;
    let declared = sheet.best(alloc, &styled.subject)?;
    let said = Said { inline, declared };
    said.put(State::Normal, node, table);
    said.put(State::Focus, node, table);
    said.put(State::Active, node, table);
    Ok(())
}

impl Said {
    // Puts what is said for a state into a table.
    fn put(&self, state: State, node: NodeId, table: &mut Table)
        requires within { 51 * node.0 + 51 ≤ length table.old }
        requires fits { (property : Property) →
            IfSome (said_in self.now state property) (λ value. IsTrue (fits property value)) }
        ensures length { length table.new ≡ length table.old }
        ensures here { (property : Property) →
            cell_of table.new node.0 state property ≡ said_in self.now state property }
        ensures others { (other : ℕ) (at : State) (property : Property) →
            ((other ≡ node.0) × (at ≡ state) → ⊥) →
            cell_of table.new other at property ≡ cell_of table.old other at property }
    {
        let properties = Property::all();
        'properties: for index in 0..17 {
            let property = properties[index];
            table.put(node, state, property, self.value(state, property));
        }
    }

    // An inline declaration stands over those of the rules.
    fn value(&self, state: State, property: Property) -> Option<StyleValue>
        ensures { result ≡ said_in self.now state property }
    {
        let declared = self.declared.value(state, property);
        self.inline.value(state, property).or(declared)
    }
}
