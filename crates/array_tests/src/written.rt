//! What the tests write down: structures, texts and the values that were read.

use bml_bytes::{Text, push_decimal};
use persistent_arrays::{Field, Structure};
use std::alloc::Global;
use std::process::Abort;

/// The structure that is spelled so.
pub fn structure(rt: &impl Abort, alloc: Global, spelled: &[u8]) -> Structure {
    let text = Text::of_bytes(alloc, spelled).expect(rt, "memory");
    let found = Structure::read(alloc, &text).expect(rt, "memory");
    found.expect(rt, "a structure")
}

/// The value of a text of these bytes.
pub fn words(rt: &impl Abort, alloc: Global, bytes: &[u8]) -> Field {
    Field::Words(Text::of_bytes(alloc, bytes).expect(rt, "memory"))
}

/// The values as they are written, with a `,` behind each.
pub fn told(rt: &impl Abort, alloc: Global, fields: &[Field]) -> Vec<u8> {
    let mut out = Vec::new(alloc);
    for field in fields {
        match field {
            Field::Bit(bit) => out
                .push(if *bit { b'+' } else { b'-' })
                .expect(rt, "memory"),
            Field::Whole(number) => push_decimal(i64::from(*number), &mut out).expect(rt, "memory"),
            Field::Words(text) => text.push_bytes(&mut out).expect(rt, "memory"),
        }
        out.push(b',').expect(rt, "memory");
    }
    out
}
