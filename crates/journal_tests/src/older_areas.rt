//! What an older keeper keeps, which is loaded and never written.

use crate::journals::{CALLS, area_of};
use bml_bytes::AREA_LENGTH;
use bml_ports::{Keeper, MemoryKeeper};
use nv_journal::{Journal, MemoryDisk};
use std::test::Fail;

// An area of 1,024 bytes that was kept before. It is loaded until a store has succeeded.
#[test]
fn an_older_area(rt: HostRuntime) -> Result<(), Fail> {
    let alloc = rt.alloc();
    let kept = vec![in alloc; 6; 1_024]?;
    let older = MemoryKeeper::new(kept, Vec::new(alloc));
    // The calls are a sync and two reads for the load, and a read for the store.
    let disk = MemoryDisk::new(alloc, Vec::new(alloc), vec![in alloc; 4]?, CALLS)?;
    let mut journal = Journal::new(disk, older);
    let mut area = area_of(1);
    assert_eq!(rt; journal.load(&mut area), Ok(1_024));
    assert_eq!(rt; (area.bytes[1_023], area.bytes[1_024]), (6, 0));
    assert!(rt; journal.store(&area_of(3)).is_err());
    assert_eq!(rt; journal.load(&mut area), Ok(1_024));
    assert_eq!(rt; journal.store(&area_of(3)), Ok(()));
    assert_eq!(rt; journal.load(&mut area), Ok(AREA_LENGTH as u64));
    assert_eq!(rt; (area.bytes[0], area.bytes[AREA_LENGTH - 1]), (3, 3));
    assert_eq!(rt; journal.older().kept(), [6; 1_024].as_slice());
    assert_eq!(rt; journal.disk().bytes().first_chunk::<2>(), Some(&[1, 0]));
    Ok(())
}
