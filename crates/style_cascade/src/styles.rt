//! The styles of a document.

ghost use Rattle.std.specs.Prelude.{◌≡◌, ◌≢◌, ◌+◌, ◌-◌, ◌^◌, ◌<◌, ℕ, Some, None, length, min, IfOk, IfSome, IsFalse, IsTrue};
ghost use Rattle.dom_tree.specs.Items.{IsElement};
ghost use Rattle.dom_tree.specs.NodeNumbers.{number_of};
ghost use Rattle.style_reader.specs.Properties.{is_inherited};
ghost use Rattle.style_reader.specs.Values.{fits as spec_fits};
ghost use Rattle.style_cascade.specs.States.{present_state};
ghost use Rattle.style_cascade.specs.devices.Kept.{ForgetsBelow, KeepsOthers, Unsets, element_around};
ghost use Rattle.style_cascade.specs.declared.states.State.{State};
ghost use Rattle.style_reader.specs.declared.properties.Property.{Property};

use crate::said::said_table;
use crate::sheets::Sheet;
use crate::states::{Focus, State};
use crate::tables::Table;
use crate::values::Values;
use bml_bytes::NoMemory;
use dom_tree::{NodeId, Tree, law_of_parents, law_of_paths};
use std::alloc::Global;
use std::marker::Model;
use style_reader::{Property, Rules, StyleValue};

/// The styles of a document: its rules, its inline texts, what scripts have written, and the values
/// that were worked out. Contracts see the rules and the writes, and which values are kept; whether
/// the styles are those of a tree as it is now is the relation `IsRight`. The tree may be changed
/// by other texts, and by attributes other than `id`, `class` and `style`.
#[derive(Drop)]
pub struct Styles {
    // what contracts see: all that they say is in the table
    rules: Rules,
    said: Table,
    writes: Table,

    // the values that are kept
    values: Values,

    // how many values were worked out
    worked: u64,
}

// What is said of the nodes of a document, what scripts have written, and the values that are kept.
#[derive(Drop)]
struct Tables {
    said: Table,
    writes: Table,
    values: Values,
}

impl Model for Styles {
    ghost use Rattle.std.specs.Prelude.{◌-◌, ◌^◌, ◌≤◌};
    ghost use Rattle.style_cascade.specs.Keeping.{StylesState};
    ghost use Rattle.style_cascade.specs.devices.Tables.{writes_in};

    ghost Value = { StylesState };

    ghost view = { λ styles. record {
      sources = record { rules = styles.rules; writes = writes_in styles.writes };
      worked = styles.worked;
      kept = record { said = styles.said; written = styles.writes; values = styles.values };
    } };

    ghost invariant = { λ styles. styles.worked ≤ 2 ^ 64 - 1 };
}

impl Tables {
    ghost use Rattle.std.specs.Prelude.{◌*◌, replicate};
    ghost use Rattle.dom_tree.specs.Walks.{IsTree};
    ghost use Rattle.style_cascade.specs.Cascade.{said_value};
    ghost use Rattle.style_cascade.specs.devices.Tables.{cell_of};

    // Those of a document of which scripts have written nothing.
    fn new(alloc: Global, tree: &Tree, sheet: &Sheet) -> Result<Tables, NoMemory>
        ensures unwritten { IfOk result
            (λ tables. tables.writes ≡ replicate (51 * length tree.now) None) }
        ensures empty { IfOk result
            (λ tables. (node : ℕ) (state : State) (property : Property) →
            cell_of tables.writes node state property ≡ None) }
        ensures unkept { IfOk result
            (λ tables. (node : ℕ) (state : State) (property : Property) →
            cell_of tables.values node state property ≡ None) }
        ensures room { IfOk result (λ tables. length tables.writes ≡ 51 * length tree.now) }
        ensures room_kept { IfOk result (λ tables. length tables.values ≡ 51 * length tree.now) }
        ensures tree { IfOk result (λ tables. IsTree tree.now) }
        ensures said { IfOk result (λ tables. (node : ℕ) (state : State) (property : Property) →
            node < length tree.now → cell_of tables.said node state property
            ≡ said_value tree.now sheet.now node state property) }
    {
        let nodes = tree.node_count();
        let writes = Table::new(alloc, nodes)?;
        let values = Values::new(alloc, nodes)?;
        let said = said_table(alloc, tree, sheet)?;
        Ok(Tables {
            said,
            writes,
            values,
        })
    }
}

impl Styles {
    ghost use Rattle.std.specs.Prelude.{◌*◌, ◌≤◌, ◌⊎◌, Contains, true, false};
    ghost use Rattle.dom_tree.specs.Walks.{IsEndOf, path_of};
    ghost use Rattle.style_cascade.specs.Cascade.{Place, chain_of, place, style_value, unwritten, with_write, write_of};
    ghost use Rattle.style_cascade.specs.Keeping.{IsRight, is_kept, owed, unkept};
    ghost use Rattle.style_cascade.specs.devices.Getting.{Gets, with_kept};
    ghost use Rattle.style_cascade.specs.devices.Kept.{kept_value};

    /// The styles of a document with these rules. Nothing is written yet, and no value is kept.
    /// What rules and inline texts say is worked out here, in a time that grows with the number of
    /// selectors and declarations, and with the number of elements and of their different classes.
    pub fn new(alloc: Global, tree: &Tree, rules: Rules) -> Result<Styles, NoMemory>
        ensures sources { IfOk result (λ styles. styles.sources ≡ unwritten rules) }
        ensures rules { IfOk result (λ styles. styles.sources.rules ≡ rules) }
        ensures unwritten { IfOk result
            (λ styles. (node : ℕ) (state : State) (property : Property) →
            write_of styles.sources node state property ≡ None) }
        ensures worked { IfOk result (λ styles. styles.worked ≡ 0) }
        ensures unkept { IfOk result
            (λ styles. (node : ℕ) (state : State) (property : Property) →
            is_kept styles node state property ≡ false) }
        ensures owed { IfOk result (λ styles. (states : ℕ → State) →
            owed tree.now states styles ≤ 17 * length tree.now) }
        ensures right { IfOk result
            (λ styles. (states : ℕ → State) → IsRight tree.now states styles) }
    {
        law_of_paths();
        law_of_parents();
        let sheet = Sheet::new(alloc, rules)?;
        let tables = Tables::new(alloc, tree, &sheet)?;
        Ok(Styles {
            rules: sheet.into_rules(),
            said: tables.said,
            writes: tables.writes,
            values: tables.values,
            worked: 0,
        })
    }

    /// The number of values, each of one property of one node in one state, that were worked out
    /// since `new`: those that were asked for, by a caller or for another value, and weren't kept.
    /// What rules and inline texts say of each node is found in `new`, and isn't counted. The
    /// number stands still at 2^64 - 1.
    pub fn worked(&self) -> u64
        ensures { result ≡ self.now.worked }
    {
        self.worked
    }

    /// The value that an element has for a property in a state. An inherited one that nothing gives
    /// it is that of the element above in the state that this one has by the focus. The values of
    /// its chain that weren't kept are worked out, and are kept then.
    pub fn get(
        &mut self,
        tree: &Tree,
        node: NodeId,
        state: State,
        focus: &Focus,
        property: Property,
    ) -> StyleValue
        requires element { IsElement tree.now node.0 }
        requires right { IsRight tree.now (present_state focus.now) self.old }
        ensures value { result
            ≡ style_value tree.now self.old.sources (present_state focus.now) node.0 state
            property }
        ensures fits { IsTrue (spec_fits property result) }
        ensures sources { self.new.sources ≡ self.old.sources }
        ensures worked { self.new.worked ≡ min (self.old.worked
            + unkept tree.now (present_state focus.now) self.old node.0 state property)
            (2 ^ 64 - 1) }
        ensures kept { (at : Place) →
            Contains (chain_of tree.now self.old.sources (present_state focus.now) node.0 state
            property) at → is_kept self.new at.node at.state property ≡ true }
        ensures kept_still { (other : ℕ) (at : State) (of : Property) →
            is_kept self.old other at of ≡ true → is_kept self.new other at of ≡ true }
        ensures kept_only { (other : ℕ) (at : State) (of : Property) →
            is_kept self.new other at of ≡ true → (is_kept self.old other at of ≡ true)
            ⊎ ((of ≡ property) × Contains (chain_of tree.now self.old.sources
            (present_state focus.now) node.0 state property) (place other at)) }
        ensures owed { state ≡ present_state focus.now node.0 →
            self.new.worked + owed tree.now (present_state focus.now) self.new
            ≤ self.old.worked + owed tree.now (present_state focus.now) self.old }
        ensures right { IsRight tree.now (present_state focus.now) self.new }
    {
        self.found(tree, node, state, focus, property)
    }

    /// A script writes a value into the style of an element for a state. Values that may hang on it
    /// aren't kept any more: those of the property, of the element and, where it is inherited, of
    /// all in it. That clears a byte for each of them and each state, and none where the property
    /// is inherited and none of its values was kept for the element itself.
    pub fn set(
        &mut self,
        tree: &Tree,
        node: NodeId,
        state: State,
        property: Property,
        value: StyleValue,
    )
        requires element { IsElement tree.now node.0 }
        requires fits { IsTrue (spec_fits property value) }
        requires right { (states : ℕ → State) × IsRight tree.now states self.old }
        ensures sources { self.new.sources
            ≡ with_write node.0 state property value self.old.sources }
        ensures written { write_of self.new.sources node.0 state property ≡ Some value }
        ensures others { (other : ℕ) (at : State) (of : Property) →
            ((other ≡ node.0) × (at ≡ state) × (of ≡ property) → ⊥) →
            write_of self.new.sources other at of ≡ write_of self.old.sources other at of }
        ensures rules { self.new.sources.rules ≡ self.old.sources.rules }
        ensures worked { self.new.worked ≡ self.old.worked }
        ensures kept { (other : ℕ) (at : State) (of : Property) →
            other < length tree.now → (Contains (path_of tree.now other) node.0 → ⊥) →
            is_kept self.new other at of ≡ is_kept self.old other at of }
        ensures kept_only { (other : ℕ) (at : State) (of : Property) →
            is_kept self.new other at of ≡ true → is_kept self.old other at of ≡ true }
        ensures kept_others { (other : ℕ) (at : State) (of : Property) → of ≢ property →
            is_kept self.new other at of ≡ is_kept self.old other at of }
        ensures owed { (states : ℕ → State) (end : ℕ) → IsEndOf tree.now node.0 end →
            owed tree.now states self.new
            ≤ owed tree.now states self.old + 17 * (end - node.0) }
        ensures right { (states : ℕ → State) →
            IsRight tree.now states self.old → IsRight tree.now states self.new }
    {
        forget_written(&mut self.values, tree, node, property);
        self.writes.put(node, state, property, Some(value));
    }

    /// Says that the state of an element changed. The inherited values of all in it aren't kept any
    /// more. That clears a byte for each of them and each state, and none for a property of which
    /// no value was kept for the element itself.
    pub fn touch(&mut self, tree: &Tree, node: NodeId)
        requires { IsElement tree.now node.0 }
        ensures sources { self.new.sources ≡ self.old.sources }
        ensures worked { self.new.worked ≡ self.old.worked }
        ensures kept { (other : ℕ) (at : State) (of : Property) →
            other < length tree.now → (Contains (path_of tree.now other) node.0 → ⊥) →
            is_kept self.new other at of ≡ is_kept self.old other at of }
        ensures kept_only { (other : ℕ) (at : State) (of : Property) →
            is_kept self.new other at of ≡ true → is_kept self.old other at of ≡ true }
        ensures kept_here { (at : State) (of : Property) →
            is_kept self.new node.0 at of ≡ is_kept self.old node.0 at of }
        ensures kept_others { (other : ℕ) (at : State) (of : Property) →
            IsFalse (is_inherited of) →
            is_kept self.new other at of ≡ is_kept self.old other at of }
        ensures owed { (before after : ℕ → State) (end : ℕ) → IsEndOf tree.now node.0 end →
            ((other : ℕ) → other ≢ node.0 → after other ≡ before other) →
            owed tree.now after self.new
            ≤ owed tree.now before self.old + 17 * (end - node.0) }
        ensures right { (before after : ℕ → State) →
            ((other : ℕ) → other ≢ node.0 → after other ≡ before other) →
            IsRight tree.now before self.old → IsRight tree.now after self.new }
    {
        let behind = number_behind(tree, node);
        forget_below(&mut self.values, tree, node, Property::Visibility, behind);
        forget_below(&mut self.values, tree, node, Property::ColorIndex, behind);
        forget_below(&mut self.values, tree, node, Property::FontSize, behind);
    }

    // The value, which is kept then. Where it wasn't, and nothing is said of the element itself, it
    // is that of the element above. So it goes up as far as values aren't kept.
    fn found(
        &mut self,
        tree: &Tree,
        node: NodeId,
        state: State,
        focus: &Focus,
        property: Property,
    ) -> StyleValue
        requires element { IsElement tree.now node.0 }
        requires right { IsRight tree.now (present_state focus.now) self.old }
        ensures { Gets tree.now (present_state focus.now) self.old self.new
            (place node.0 state) property result }
    {
        if let Some(value) = self.values.get(node, state, property) {
            return value;
        }
        if let Some(value) = self.own(node, state, property) {
            self.keep(tree, node, state, property, value);
            return value;
        }
        let Some(up) = around(tree, node, property) else {
            let value = property.initial();
            self.keep(tree, node, state, property, value);
            return value;
        };
        let value = self.found(tree, up, focus.state_of(up), focus, property);
        self.keep(tree, node, state, property, value);
        value
    }

    // Keeps a value, and counts it.
    fn keep(
        &mut self,
        tree: &Tree,
        node: NodeId,
        state: State,
        property: Property,
        value: StyleValue,
    )
        requires element { IsElement tree.now node.0 }
        requires right { (states : ℕ → State) × IsRight tree.now states self.old }
        requires fits { IsTrue (spec_fits property value) }
        ensures { self.new ≡ with_kept self.old (place node.0 state) property value }
    {
        self.values.put(node, state, property, value);
        self.worked = self.worked.saturating_add(1);
    }

    // What is said of the element itself.
    fn own(&self, node: NodeId, state: State, property: Property) -> Option<StyleValue>
        ensures value { result ≡ kept_value self.now.kept node.0 state property }
        ensures fits { IfSome result (λ value. IsTrue (spec_fits property value)) }
    {
        let written = self.writes.get(node, state, property);
        if written.is_some() {
            return written;
        }
        let written = self.writes.get(node, State::Normal, property);
        if written.is_some() {
            return written;
        }
        self.said.get(node, state, property)
    }
}

// The element whose value the node has where nothing is said of the node.
#[tactic(auto, unfolding(crate::specs::devices::Kept::element_around))]
fn around(tree: &Tree, node: NodeId, property: Property) -> Option<NodeId>
    requires { IsElement tree.now node.0 }
    ensures element { number_of result ≡ element_around tree.now node.0 property }
    ensures before { IfSome result (λ up. (up.0 < node.0) × IsElement tree.now up.0) }
{
    if property.is_inherited() {
        tree.parent(node)
    } else {
        None
    }
}

// Forgets the values that hang on what is written of a property of an element.
fn forget_written(values: &mut Values, tree: &Tree, node: NodeId, property: Property)
    requires { IsElement tree.now node.0 }
    ensures { Unsets tree.now values.old values.new node.0 property }
{
    let inherits = property.is_inherited();
    if inherits {
        forget_below(values, tree, node, property, node.0);
    } else {
        values.forget(property, node.0, number_behind(tree, node));
    }
}

// The number that follows the node's.
fn number_behind(tree: &Tree, node: NodeId) -> u32
    requires { IsElement tree.now node.0 }
    ensures { result ≡ node.0 + 1 }
{
    let _nodes = tree.node_count();
    node.0 + 1
}

// Forgets the values of a property in an element, from this node on, unless the element itself has
// none: then what is kept in it hangs on nothing above.
fn forget_below(values: &mut Values, tree: &Tree, node: NodeId, property: Property, first: u32)
    requires { IsElement tree.now node.0 }
    ensures column { ForgetsBelow tree.now values.old values.new node.0 property first }
    ensures others { KeepsOthers values.old values.new property }
    ensures long { length values.new ≡ length values.old }
{
    if values.has(node, property) {
        let end = tree.subtree_end(node);
        values.forget(property, first, end);
    }
}
