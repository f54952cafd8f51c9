//! A test of `dom_objects`: a small document is read and written.

ghost use Rattle.std.specs.Prelude.{ℕ};
ghost use Rattle.style_cascade.specs.Keeping.{IsRight};
ghost use Rattle.style_cascade.specs.declared.states.State.{State};

use crate::small_documents::{NO_FOCUS, styles_of, tree_of, word};
use dom_objects::*;
use dom_tree::Tree;
use es_values::HostRef;
use std::alloc::Global;
use std::process::Abort;
use style_cascade::Styles;

const NO_EVENT: CurrentEvent = CurrentEvent {
    event: None,
    target: 0,
};

// Writes a text under a name of a reference.
fn write(
    rt: &impl Abort,
    alloc: Global,
    tree: &mut Tree,
    styles: &mut Styles,
    base: HostRef,
    name: &[u8],
)
    requires { (states : ℕ → State) → IsRight tree.old states styles.old }
    ensures { (states : ℕ → State) → IsRight tree.new states styles.new }
{
    let name = word(rt, alloc, name);
    let text = word(rt, alloc, b"12px");
    let set = set_node(tree, styles, base, &name, &text);
    assert!(rt; set.is_ok());
}

#[test]
fn nodes_are_read_and_written(rt: HostRuntime) {
    let alloc = rt.alloc();
    // 0 bml, 1 its text, 2 object
    let mut tree = tree_of(&rt, alloc, b"<bml>a<object/></bml>");
    let mut styles = styles_of(&rt, alloc, &tree, b"");
    write(
        &rt,
        alloc,
        &mut tree,
        &mut styles,
        HostRef::Node(1),
        b"data",
    );
    write(
        &rt,
        alloc,
        &mut tree,
        &mut styles,
        HostRef::Node(2),
        b"data",
    );
    write(
        &rt,
        alloc,
        &mut tree,
        &mut styles,
        HostRef::Style(2, 0),
        b"left",
    );
    let (base, name) = (HostRef::Style(2, 0), word(&rt, alloc, b"left"));
    let value = get_node(alloc, &tree, &mut styles, &NO_FOCUS, &NO_EVENT, base, &name);
    assert!(rt; value.is_ok());
}

#[test]
fn no_event_is_seen_outside_of_handlers(rt: HostRuntime) {
    let event = CurrentEvent::none();
    let seen = event.seen();
    assert!(rt; seen.is_none());
}
