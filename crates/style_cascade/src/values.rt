//! The values that styles keep.

ghost use Rattle.std.specs.Prelude.{◌≡◌, ◌+◌, ◌*◌, ◌<◌, ◌≤◌, ℕ, Some, None, length, slice_set, IfOk, IfSome, IsTrue};
ghost use Rattle.style_reader.specs.Values.{fits};
ghost use Rattle.style_cascade.specs.devices.Marks.{Unmarks, has_mark, mark_place as spec_mark_place};
ghost use Rattle.style_cascade.specs.devices.Tables.{cell_place};
ghost use Rattle.style_cascade.specs.declared.states.State.{State};
ghost use Rattle.style_reader.specs.declared.properties.Property.{Property};

use crate::states::State;
use crate::tables::{CELLS, Table, row_place};
use bml_bytes::NoMemory;
use dom_tree::NodeId;
use std::alloc::Global;
use std::marker::Model;
use style_reader::{Property, StyleValue};

/// The values that are kept by node, state and property. Contracts see the list of the cells. To
/// forget the values of a property takes their marks away, of which a node has one byte each.
#[derive(Drop)]
pub struct Values {
    // what was put last into each cell
    table: Table,

    // whether that is kept: for each state and property the marks of all nodes follow each other
    marks: Vec<bool>,

    nodes: u32,
}

impl Model for Values {
    ghost use Rattle.std.specs.Prelude.{List, Option};
    ghost use Rattle.style_reader.specs.declared.properties.StyleValue.{StyleValue};
    ghost use Rattle.style_cascade.specs.devices.Marks.{AreMarked, marked_cells};

    ghost Value = { List (Option StyleValue) };

    ghost view = { λ values. marked_cells values.nodes values.marks.items values.table };

    ghost invariant = { λ values. AreMarked values.nodes values.marks.items values.table };
}

impl Values {
    ghost use Rattle.style_cascade.specs.devices.Tables.{Forgets, ForgetsIn, cell_of, has_value};

    /// No values, of so many nodes.
    pub fn new(alloc: Global, nodes: u32) -> Result<Values, NoMemory>
        ensures length { IfOk result (λ values. length values ≡ 51 * nodes) }
        ensures empty { IfOk result (λ values. (node : ℕ) (state : State) (property : Property) →
            cell_of values node state property ≡ None) }
    {
        let table = Table::new(alloc, nodes)?;
        let marks = vec![in alloc; false; CELLS * nodes as usize]?;
        Ok(Values {
            table,
            marks,
            nodes,
        })
    }

    /// The value of a cell, if one is kept.
    pub fn get(&self, node: NodeId, state: State, property: Property) -> Option<StyleValue>
        ensures value { result ≡ cell_of self.now node.0 state property }
        ensures fits { IfSome result (λ value. IsTrue (fits property value)) }
    {
        let place = mark_place(self.nodes, node, state, property);
        if is_marked(&self.marks, place) {
            self.table.get(node, state, property)
        } else {
            None
        }
    }

    /// Keeps a value for a cell.
    pub fn put(&mut self, node: NodeId, state: State, property: Property, value: StyleValue)
        requires within { 51 * node.0 + 51 ≤ length self.old }
        requires fits { IsTrue (fits property value) }
        ensures { self.new ≡ slice_set self.old (cell_place node.0 state property) (Some value) }
    {
        self.table.put(node, state, property, Some(value));
        let place = mark_place(self.nodes, node, state, property);
        self.marks[place] = true;
    }

    /// Whether a value of a property is kept for a node in some state.
    #[tactic(auto, unfolding(crate::specs::devices::Tables::has_value))]
    pub fn has(&self, node: NodeId, property: Property) -> bool
        ensures { result ≡ has_value self.now node.0 property }
    {
        self.get(node, State::Normal, property).is_some()
            || self.get(node, State::Focus, property).is_some()
            || self.get(node, State::Active, property).is_some()
    }

    /// Forgets the values of a property that are kept for the nodes from the first one on, in each
    /// state, up to the end.
    pub fn forget(&mut self, property: Property, first: u32, end: u32)
        ensures { Forgets self.old self.new property first end }
    {
        self.forget_in(State::Normal, property, first, end);
        self.forget_in(State::Focus, property, first, end);
        self.forget_in(State::Active, property, first, end);
    }

    // Forgets those of one state.
    fn forget_in(&mut self, state: State, property: Property, first: u32, end: u32)
        ensures { ForgetsIn self.old self.new state property first end }
    {
        let last = end.min(self.nodes);
        if first < last {
            let from = mark_place(self.nodes, NodeId(first), state, property);
            let to = from + (last - first) as usize;
            unmark(&mut self.marks, from, to);
        }
    }
}

// The place of a cell's mark, where there are so many nodes.
fn mark_place(nodes: u32, node: NodeId, state: State, property: Property) -> usize
    ensures place { result ≡ spec_mark_place nodes node.0 state property }
    ensures within { result + nodes ≤ 51 * nodes + node.0 }
{
    row_place(state, property) * nodes as usize + node.0 as usize
}

fn is_marked(marks: &[bool], place: usize) -> bool
    ensures { result ≡ has_mark marks.now place }
{
    match marks.get(place) {
        Some(mark) => *mark,
        None => false,
    }
}

// Takes the marks of these places away.
fn unmark(marks: &mut [bool], from: usize, end: usize)
    requires order { from ≤ end }
    requires within { end ≤ length marks.old }
    ensures { Unmarks marks.old marks.new from end }
{
    marks[from..end].fill(false);
}
