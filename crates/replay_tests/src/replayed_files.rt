//! What files come to when their stream is replayed.

use bml_bytes::Text;
use carousel_writer::{FileModule, Files, WriteRefusal};
use replay_run::replay_files;
use std::test::Fail;

const DOCUMENT: &[u8] = b"<bml><body><p>a</p></body></bml>";

#[test]
fn files_are_replayed(rt: HostRuntime) -> Result<(), Fail> {
    let alloc = rt.alloc();
    let mut modules = Vec::new(alloc);
    modules.push(FileModule {
        id: 0,
        version: 1,
        media: Text::of_bytes(alloc, b"text/X-arib-bml")?,
        bytes: Vec::from_slice(alloc, DOCUMENT)?,
    })?;
    let mut files = Files {
        pid: 256,
        transaction: 1,
        download: 1,
        block_size: 100,
        rounds: 1,
        modules,
    };
    let mut out = Vec::from_slice(alloc, b"before\n")?;
    replay_files(alloc, &files, &mut out)?;
    let wanted: &[u8] = b"before\npackets 2\nbytes 32\nlines 7\n";
    assert!(rt; out.as_slice() == wanted);
    files.rounds = 0;
    assert!(rt; replay_files(alloc, &files, &mut out).err() == Some(WriteRefusal::BadFiles));
    assert!(rt; out.as_slice() == wanted);
    Ok(())
}
