//! Tests of `style_reader`, `style_cascade` and `display_list`: texts, and a small document.

use crate::small_documents::{NO_FOCUS, styles_of, tree_of, word};
use display_list::*;
use style_reader::*;

#[test]
fn style_texts_are_read(rt: HostRuntime) {
    let alloc = rt.alloc();
    let mut rules = Rules::new(alloc);
    assert!(rt; read_sheet(&word(&rt, alloc, b"p/**/{}"), &mut rules).is_ok());
    assert!(rt; read_inline(alloc, &word(&rt, alloc, b"left/**/:1px")).is_ok());
    let mut out = Vec::new(alloc);
    assert!(rt; fits(Property::UsedKeyList, StyleValue::Keys(6)));
    assert!(rt; push_value(Property::UsedKeyList, StyleValue::Keys(6), &mut out).is_ok());
}

#[test]
fn a_document_is_shown(rt: HostRuntime) {
    let alloc = rt.alloc();
    let tree = tree_of(&rt, alloc, b"<bml><body><p>a</p></body></bml>");
    let mut styles = styles_of(&rt, alloc, &tree, b"p { color-index: 5 }");
    let mut out = Vec::new(alloc);
    assert!(rt; push_clock_line(0, &mut out).is_ok());
    let shown = Shower::new().show(&tree, &mut styles, &NO_FOCUS, &mut out);
    assert!(rt; shown.is_ok());
}
