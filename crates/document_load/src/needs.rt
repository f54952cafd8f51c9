//! The resources that the nodes of a document need.

ghost use Rattle.std.specs.Prelude.{◌≡◌, ◌<◌, IfOk, length, option_and_then, option_copied, slice_get};
ghost use Rattle.document_load.specs.Needs.{need_in, named_by, needs_of, reference_in};
ghost use Rattle.document_load.specs.NeedViews.{AreNames};

use bml_bytes::{NoMemory, Text};
use dom_tree::{NodeId, Tree};
use multipart_entities::Path;
use std::alloc::Global;

// The names of the attributes that name resources.
#[derive(Drop)]
struct AttributeNames {
    href: Text,
    src: Text,
}

/// The needs of a document, in document order.
#[derive(Drop)]
pub struct Needs {
    pub paths: Vec<Path>,
    /// For each the number of the node that names it.
    pub named: Vec<u32>,
}

/// The needs of a document at a path. Each node is looked at once.
pub fn needs_of(alloc: Global, tree: &Tree, base: &Path) -> Result<Needs, NoMemory>
    ensures paths { IfOk result (λ needs. needs.paths.items ≡ needs_of base.now tree.now) }
    ensures named { IfOk result (λ needs. needs.named.items ≡ named_by base.now tree.now) }
{
    let names = attribute_names(alloc)?;
    let mut paths = Vec::new(alloc);
    let mut named = Vec::new(alloc);
    'nodes: for number in 0..tree.node_count() {
        if let Some(need) = need_of(alloc, tree, NodeId(number), base, &names)? {
            paths.push(need)?;
            named.push(number)?;
        }
    }
    Ok(Needs { paths, named })
}

fn attribute_names(alloc: Global) -> Result<AttributeNames, NoMemory>
    ensures { IfOk result AreNames }
{
    let href = Text::of_bytes(alloc, b"href")?;
    let src = Text::of_bytes(alloc, b"src")?;
    Ok(AttributeNames { href, src })
}

// The path that a node names, and None of a node that names none.
fn need_of(
    alloc: Global,
    tree: &Tree,
    node: NodeId,
    base: &Path,
    names: &AttributeNames,
) -> Result<Option<Path>, NoMemory>
    requires node { node.0 < length tree.now }
    requires names { AreNames names.now }
    ensures { IfOk result
        (λ need. need ≡ option_and_then (need_in base.now) (slice_get tree.now node.0)) }
{
    match reference_of(tree, node, names) {
        None => Ok(None),
        Some(text) => Path::resolve(alloc, text, base),
    }
}

// The text by which a node names a resource.
fn reference_of<'a>(tree: &'a Tree, node: NodeId, names: &AttributeNames) -> Option<&'a Text>
    requires node { node.0 < length tree.now }
    requires names { AreNames names.now }
    ensures { option_copied result
        ≡ option_and_then (λ item. reference_in item.content) (slice_get tree.now node.0) }
{
    let tag = tree.tag(node)?;
    if tag.is_word("link") {
        tree.attribute(node, &names.href)
    } else if tag.is_word("script") {
        tree.attribute(node, &names.src)
    } else {
        None
    }
}
