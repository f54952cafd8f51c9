//! A test of `document_load`: a document with a sheet and scripts is made of what is given.

use bml_bytes::Text;
use document_load::*;
use multipart_entities::Path;

#[test]
fn a_document_is_made(rt: HostRuntime) {
    let alloc = rt.alloc();
    let path = Path {
        component: 0x40,
        module: 0,
        name: Text::of_bytes(alloc, b"").expect(&rt, "memory"),
    };
    let bytes = b"<bml><link href='x'/><p style='top: 1px' onclick=')'>a</p></bml>";
    let mut draft = read_draft(alloc, bytes, &path).expect(&rt, "a document");
    assert!(rt; draft.need(0).is_some());
    assert!(rt; draft.give(0, b"p { left: 2px }").is_ok());
    assert!(rt; draft.finish().is_ok());
}
