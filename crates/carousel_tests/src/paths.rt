//! Tests of the paths of `multipart_entities`: which a text names, and how they are printed. What
//! is expected is from the forms of the texts.

use bml_bytes::{NoMemory, Text};
use multipart_entities::*;
use std::alloc::Global;
use std::test::Fail;

// The path that a text names seen from `/50/1234/doc.bml`, as it is printed, and nothing of one
// that names none.
fn resolved(alloc: Global, bytes: &[u8]) -> Result<Vec<u8>, NoMemory> {
    let base = Path {
        component: 0x50,
        module: 0x1234,
        name: Text::of_bytes(alloc, b"doc.bml")?,
    };
    let mut out = Vec::new(alloc);
    if let Some(path) = Path::resolve(alloc, &Text::of_bytes(alloc, bytes)?, &base)? {
        path.push(&mut out)?;
    }
    Ok(out)
}

// Texts, and the paths that they name.
const CASES: [(&[u8], &[u8]); 4] = [
    (b"arib-dc://4.7/4A/00fF/x", b"/4a/00ff/x"),
    (b"../FFFF/a b%", b"/50/ffff/a%20b%25"),
    (b"\xA4\xA2\x7F", b"/50/1234/\xA4\xA2%7F"),
    (b"/40/000G", b""),
];

#[test]
fn texts_that_name_paths(rt: HostRuntime) -> Result<(), Fail> {
    for (text, expected) in CASES {
        let path = resolved(rt.alloc(), text)?;
        assert_eq!(rt; path.as_slice(), expected, "of {text:?}");
    }
    Ok(())
}
