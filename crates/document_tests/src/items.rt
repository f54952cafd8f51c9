//! Tests of `event_items` and `event_messages`: the items of a small document, and what they fire for.

use crate::small_documents::{tree_of, word};
use event_items::*;
use event_messages::*;
use multipart_entities::Path;

#[test]
fn items_of_a_document(rt: HostRuntime) {
    let alloc = rt.alloc();
    let path = Path {
        component: 0x40,
        module: 0,
        name: word(&rt, alloc, b""),
    };
    let tree = tree_of(&rt, alloc, b"<bml><beitem type='ModuleUpdated'/></bml>");
    let items = event_items(alloc, &path, &tree).expect(&rt, "memory");
    assert!(rt; items.len() == 1);
    assert!(rt; Items::new(alloc, &path, &tree).is_ok());
}

#[test]
fn items_of_a_data_event(rt: HostRuntime) {
    let alloc = rt.alloc();
    let path = Path {
        component: 0x40,
        module: 0,
        name: word(&rt, alloc, b""),
    };
    let document = b"<bml><beitem type='DataEventChanged' subscribe='subscribe'/></bml>";
    let tree = tree_of(&rt, alloc, document);
    let items = Items::new(alloc, &path, &tree).expect(&rt, "memory");
    let nodes = items.data_event_items(alloc).expect(&rt, "memory");
    assert!(rt; nodes.len() == 1);
}

#[test]
fn messages_are_noted(rt: HostRuntime) {
    let alloc = rt.alloc();
    // One descriptor of a message, of group 1, id 7 and version 3.
    let section = [
        0x3D, 0xB0, 22, 0, 0, 0xC1, 0, 0, 0x40, 11, 0, 0x1F, 0, 0, 0, 0, 0, 0, 0, 7, 3, 0, 0, 0, 0,
    ];
    let messages = read_messages(alloc, &section).ok().expect(&rt, "memory");
    assert!(rt; messages.len() == 1);
    assert!(rt; messages[0].share().is_ok());
    let message = Message {
        group: 1,
        kind: 0,
        id: 7,
        version: 3,
        extra: word(&rt, alloc, b""),
    };
    let mut firings = Firings::new(alloc);
    assert!(rt; firings.note(&message).is_ok());
    let mut fired = Fired::new(alloc);
    assert!(rt; fired.note(0, &message).is_ok());
}
