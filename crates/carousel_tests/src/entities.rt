//! Tests of `multipart_entities`: an entity and its parts, by the rules of MIME.

use bml_bytes::Text;
use multipart_entities::*;
use std::test::Fail;

// A delimiter line with a blank behind it, and a line that ends with a delimiter.
const ENTITY: &[u8] =
    b"Content-Type: multipart/mixed;boundary=b\r\n\r\n--b \r\nContent-Location: x\r\n\r\n --b\r\n--b--";

#[test]
fn parts_are_read(rt: HostRuntime) -> Result<(), Fail> {
    let parts = entity_parts(rt.alloc(), ENTITY)?;
    let name = Text::of_bytes(rt.alloc(), b"x")?;
    let (start, end) = parts.find(&name).ok_or("no part")?;
    assert!(rt; ENTITY.get(start..end) == Some(b" --b".as_slice()));
    Ok(())
}
