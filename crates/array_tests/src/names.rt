//! Tests of structures and names.

use bml_bytes::Text;
use persistent_arrays::*;

#[test]
fn structures(rt: HostRuntime) {
    let text = Text::of_bytes(rt.alloc(), b"B:1b,I:4B,S:64B").expect(&rt, "memory");
    let found = Structure::read(rt.alloc(), &text).expect(&rt, "memory");
    let structure = found.expect(&rt, "a structure");
    assert!(rt; structure.kind(0) == Some(FieldKind::Bit));
    assert!(rt; structure.kind(1) == Some(FieldKind::Signed(4)));
    assert!(rt; structure.kind(2) == Some(FieldKind::Fixed(64)) && structure.kind(3).is_none());
    for spelled in [
        b"U:3B".as_slice(),
        b"S:65B",
        b"S:01B",
        b"B:1B",
        b"U:1B,",
        b"U:1B, U:1B",
        b"",
    ] {
        let text = Text::of_bytes(rt.alloc(), spelled).expect(&rt, "memory");
        assert!(rt;
            Structure::read(rt.alloc(), &text)
                .expect(&rt, "memory")
                .is_none()
        );
    }
}

#[test]
fn names(rt: HostRuntime) {
    let name = Text::of_bytes(rt.alloc(), b"nvram://~/47").expect(&rt, "memory");
    assert!(rt; slot_of(&name) == Some(47));
    for other in [
        b"nvram://~/48".as_slice(),
        b"nvram://~/05",
        b"nvram://~/",
        b"nvram:///0",
    ] {
        let name = Text::of_bytes(rt.alloc(), other).expect(&rt, "memory");
        assert!(rt; slot_of(&name).is_none());
    }
}
