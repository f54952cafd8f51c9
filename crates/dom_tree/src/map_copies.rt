//! Copies of maps whose keys are texts. A copy shares the texts.

ghost use Rattle.std.specs.Prelude.{◌≡◌, ◌++◌, ◌∷◌, [], None, IfOk, OnOk};
ghost use Rattle.indexmap.specs.IndexMap.{get};
ghost use Rattle.bml_bytes.specs.Words.{is_same};

use crate::node_ids::NodeId;
use bml_bytes::{NoMemory, Text};
use indexmap::IndexMap;

/// The attributes in a map of its own, in the same order.
pub fn copied_attributes(
    attributes: &IndexMap<Text, Text>,
) -> Result<IndexMap<Text, Text>, NoMemory>
    ensures { IfOk result (λ copy. copy.entries ≡ attributes.now.entries) }
{
    let mut copy = IndexMap::with_capacity(*attributes.allocator(), attributes.len())?;
    push_attributes(attributes, &mut copy)?;
    Ok(copy)
}

/// The nodes of ids in a map of its own.
pub fn copied_ids(ids: &IndexMap<Text, NodeId>) -> Result<IndexMap<Text, NodeId>, NoMemory>
    ensures { IfOk result (λ copy. copy.entries ≡ ids.now.entries) }
{
    let mut copy = IndexMap::with_capacity(*ids.allocator(), ids.len())?;
    push_ids(ids, &mut copy)?;
    Ok(copy)
}

// Puts attributes into a map that has none.
fn push_attributes(
    attributes: &IndexMap<Text, Text>,
    copy: &mut IndexMap<Text, Text>,
) -> Result<(), NoMemory>
    requires { copy.old.entries ≡ [] }
    ensures { OnOk result (copy.new.entries ≡ attributes.now.entries) }
{
    'entries: for place in 0..attributes.len() {
        match attributes.get_index(place) {
            Some((name, value)) => push_attribute(copy, name, value)?,
            None => unreachable!(),
        }
    }
    Ok(())
}

// Puts ids into a map that has none.
fn push_ids(ids: &IndexMap<Text, NodeId>, copy: &mut IndexMap<Text, NodeId>) -> Result<(), NoMemory>
    requires { copy.old.entries ≡ [] }
    ensures { OnOk result (copy.new.entries ≡ ids.now.entries) }
{
    'entries: for place in 0..ids.len() {
        match ids.get_index(place) {
            Some((id, node)) => push_id(copy, id, *node)?,
            None => unreachable!(),
        }
    }
    Ok(())
}

// Puts an attribute behind those that are there.
fn push_attribute(
    copy: &mut IndexMap<Text, Text>,
    name: &Text,
    value: &Text,
) -> Result<(), NoMemory>
    requires { get is_same copy.old name.now ≡ None }
    ensures { OnOk result (copy.new.entries ≡ copy.old.entries ++ (name.now, value.now) ∷ []) }
{
    let name = name.share()?;
    let value = value.share()?;
    copy.insert(name, value)?;
    Ok(())
}

// Puts an id and its node behind those that are there.
fn push_id(copy: &mut IndexMap<Text, NodeId>, id: &Text, node: NodeId) -> Result<(), NoMemory>
    requires { get is_same copy.old id.now ≡ None }
    ensures { OnOk result (copy.new.entries ≡ copy.old.entries ++ (id.now, node) ∷ []) }
{
    let id = id.share()?;
    copy.insert(id, node)?;
    Ok(())
}
