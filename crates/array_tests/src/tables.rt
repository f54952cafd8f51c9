//! Tests of tables.

use crate::written::{structure, told, words};
use binary_table::BinaryTable;
use persistent_arrays::Field;
use std::alloc::Global;
use std::process::Abort;

// The table of these bytes.
fn table(rt: &impl Abort, alloc: Global, spelled: &[u8], bytes: &[u8]) -> Option<BinaryTable> {
    BinaryTable::read(alloc, bytes, &structure(rt, alloc, spelled)).expect(rt, "memory")
}

// Whether the table of these bytes has these cells, with a `,` behind each and a `;` behind each row.
fn has(
    rt: &impl Abort,
    alloc: Global,
    spelled: &[u8],
    bytes: &[u8],
    expected: Option<&[u8]>,
) -> bool {
    let Some(table) = table(rt, alloc, spelled, bytes) else {
        return expected.is_none();
    };
    let mut out = Vec::new(alloc);
    for row in 0..table.rows() {
        for column in 0..table.columns() {
            let cell = table.cell(row, column).expect(rt, "memory");
            let field = cell.expect(rt, "a value");
            let written = told(rt, alloc, &[field]);
            out.extend_from_slice(&written).expect(rt, "memory");
        }
        out.push(b';').expect(rt, "memory");
    }
    expected == Some(out.as_slice())
}

#[test]
fn rows(rt: HostRuntime) {
    let alloc = rt.alloc();
    assert!(rt;
        has(
            &rt,
            alloc,
            b"S:1V,U:1B",
            b"\x02ab\x07\x01c\x09",
            Some(b"ab,7,;c,9,;")
        )
    );
    assert!(rt; has(&rt, alloc, b"S:1V,U:1B", b"\x02ab\x07\x01c", None));
    assert!(rt; has(&rt, alloc, b"S:1V,U:1B", b"", Some(b"")));
    assert!(rt;
        has(
            &rt,
            alloc,
            b"B:1b,B:1b,B:1b",
            b"\xA0\x5F",
            Some(b"+,-,+,;-,+,-,;")
        )
    );
    assert!(rt;
        has(
            &rt,
            alloc,
            b"B:1b,S:2B,B:1b,I:1B",
            b"\x80a\0\x7F\xFF",
            Some(b"+,a,-,-1,;")
        )
    );
    assert!(rt; has(&rt, alloc, b"U:2B", b"\x01\x02\x03", None));
}

#[test]
fn places(rt: HostRuntime) {
    let alloc = rt.alloc();
    let mut bytes = Vec::new(alloc);
    for _ in 0..4096 {
        bytes.push(7).expect(&rt, "memory");
    }
    let found = table(&rt, alloc, b"U:1B", &bytes).expect(&rt, "a table");
    assert!(rt; found.rows() == 4096 && found.columns() == 1);
    assert!(rt; found.cell(4095, 0).expect(&rt, "memory").is_some());
    assert!(rt; found.cell(4096, 0).expect(&rt, "memory").is_none());
    assert!(rt; found.cell(0, 1).expect(&rt, "memory").is_none());
    bytes.push(7).expect(&rt, "memory");
    assert!(rt; table(&rt, alloc, b"U:1B", &bytes).is_none());
}

// Whether a search for at most two rows finds these.
fn finds(
    rt: &impl Abort,
    table: &BinaryTable,
    from: u32,
    column: u32,
    wanted: &Field,
    expected: &[u32],
) -> bool {
    let found = table.search(from, column, wanted, 2).expect(rt, "memory");
    found.as_slice() == expected
}

#[test]
fn searches(rt: HostRuntime) {
    let alloc = rt.alloc();
    let numbers = table(&rt, alloc, b"U:1B", b"\x09\x2C\x09\x09").expect(&rt, "a table");
    let nine = Field::Whole(9);
    assert!(rt; finds(&rt, &numbers, 0, 0, &nine, &[0, 2]));
    assert!(rt; finds(&rt, &numbers, 2, 0, &nine, &[2, 3]));
    assert!(rt; finds(&rt, &numbers, 3, 0, &nine, &[3]));
    assert!(rt; finds(&rt, &numbers, 4, 0, &nine, &[]));
    assert!(rt; finds(&rt, &numbers, 0, 1, &nine, &[]));
    assert!(rt; finds(&rt, &numbers, 0, 0, &Field::Whole(300), &[]));
    let texts = table(&rt, alloc, b"S:2B,B:1b", b"a\0\x80ab\0").expect(&rt, "a table");
    assert!(rt; finds(&rt, &texts, 0, 0, &words(&rt, alloc, b"a"), &[0]));
    assert!(rt; finds(&rt, &texts, 0, 0, &words(&rt, alloc, b"a\0"), &[]));
    assert!(rt; finds(&rt, &texts, 0, 1, &Field::Bit(false), &[1]));
}
