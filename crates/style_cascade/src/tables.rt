//! Tables of values by node, state and property.

ghost use Rattle.std.specs.Prelude.{◌≡◌, ◌||◌, ◌+◌, ◌*◌, ◌<◌, ◌≤◌, ℕ, None, is_some, length, replicate, slice_set, IfOk, IfSome, IsTrue};
ghost use Rattle.style_reader.specs.Values.{fits};
ghost use Rattle.style_cascade.specs.Candidates.{property_place};
ghost use Rattle.style_cascade.specs.devices.Tables.{cell_place as spec_cell_place};
ghost use Rattle.style_cascade.specs.declared.states.State.{State};
ghost use Rattle.style_reader.specs.declared.properties.Property.{Property};

use crate::states::State;
use bml_bytes::NoMemory;
use dom_tree::NodeId;
use std::alloc::Global;
use std::marker::Model;
use style_reader::{Property, StyleValue};

/// The cells of a node, 17 for each of the three states.
pub const CELLS: usize = 51;

const STATE_CELLS: usize = 17;

/// A value or none for each node, state and property. Contracts see the list of the cells.
#[derive(Drop)]
pub struct Table {
    cells: Vec<Option<StyleValue>>,
}

impl Model for Table {
    ghost use Rattle.std.specs.Prelude.{List, Option};
    ghost use Rattle.style_reader.specs.declared.properties.StyleValue.{StyleValue};

    ghost Value = { List (Option StyleValue) };

    ghost use Rattle.style_cascade.specs.devices.Tables.{AreFitting};

    ghost view = { λ table. table.cells.items };

    ghost invariant = { λ table. AreFitting table.cells.items };
}

impl Table {
    ghost use Rattle.style_cascade.specs.devices.Tables.{cell_of};

    /// A table without values, for so many nodes.
    pub fn new(alloc: Global, nodes: u32) -> Result<Table, NoMemory>
        ensures length { IfOk result (λ table. length table ≡ 51 * nodes) }
        ensures cells { IfOk result (λ table. table ≡ replicate (51 * nodes) None) }
        ensures empty { IfOk result (λ table. (node : ℕ) (state : State) (property : Property) →
            cell_of table node state property ≡ None) }
    {
        let count = CELLS * nodes as usize;
        let mut cells = Vec::with_capacity(alloc, count)?;
        'cells: while cells.len() < count {
            cells.push(None)?;
        }
        Ok(Table { cells })
    }

    /// The value of a cell.
    pub fn get(&self, node: NodeId, state: State, property: Property) -> Option<StyleValue>
        ensures value { result ≡ cell_of self.now node.0 state property }
        ensures fits { IfSome result (λ value. IsTrue (fits property value)) }
    {
        match self.cells.get(cell_place(node, state, property)) {
            Some(value) => *value,
            None => None,
        }
    }

    /// Gives a cell a value, or none.
    pub fn put(&mut self, node: NodeId, state: State, property: Property, value: Option<StyleValue>)
        requires within { 51 * node.0 + 51 ≤ length self.old }
        requires fits { IfSome value (λ value. IsTrue (fits property value)) }
        ensures { self.new ≡ slice_set self.old (spec_cell_place node.0 state property) value }
    {
        self.cells[cell_place(node, state, property)] = value;
    }
}

fn cell_place(node: NodeId, state: State, property: Property) -> usize
    ensures place { result ≡ spec_cell_place node.0 state property }
    ensures within { result < 51 * node.0 + 51 }
{
    CELLS * node.0 as usize + row_place(state, property)
}

/// The place of a state and a property among those of a node.
pub fn row_place(state: State, property: Property) -> usize
    ensures place { result ≡ spec_cell_place 0 state property }
    ensures within { result < 51 }
{
    STATE_CELLS * state as usize + place_of(property)
}

// The place of a property among all.
fn place_of(property: Property) -> usize
    ensures { result ≡ property_place property }
{
    property as usize
}
