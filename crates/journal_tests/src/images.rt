//! The byte lists that a disk in memory leaves.

use nv_journal::{Disk, MemoryDisk};
use std::test::Fail;

// A pick, and what it gives where 5, 6 and 7 are written from place 2 on over four bytes 9.
const ROWS: &[(u64, &[u8])] = &[
    (0, &[9, 9, 5, 6, 7]),
    (1, &[9, 9, 5, 6]),
    (2, &[9, 9, 9, 9, 0]),
    (3, &[9, 9, 9, 9]),
    (4, &[9, 9, 0, 0, 0]),
    (7, &[9, 9, 1, 1]),
    (8, &[9, 9, 2, 2, 2]),
    (10, &[9, 9, 2, 3, 4]),
    (12, &[9, 9, 5, 9, 7]),
    (14, &[9, 9, 9, 6, 0]),
    (16, &[9, 9, 5, 6]),
    (40, &[9, 9, 2, 2]),
];

#[test]
fn images_of_picks(rt: HostRuntime) -> Result<(), Fail> {
    let alloc = rt.alloc();
    let bytes = vec![in alloc; 9, 9, 9, 9]?;
    let mut disk = MemoryDisk::new(alloc, bytes, vec![in alloc; 2]?, 3)?;
    assert_eq!(rt; disk.write_at(2, &[5, 6, 7]), Ok(()));
    assert!(rt; disk.sync().is_err());
    assert_eq!(rt; disk.bytes(), [9, 9, 5, 6, 7].as_slice());
    for (pick, image) in ROWS {
        assert_eq!(rt;
            disk.crashed(alloc, *pick)?.as_slice(),
            *image,
            "for pick {pick}"
        );
    }
    assert_eq!(rt; disk.sync(), Ok(()));
    for (pick, _) in ROWS {
        assert_eq!(rt; disk.crashed(alloc, *pick)?.as_slice(), disk.bytes());
    }
    assert!(rt; disk.sync().is_err());
    Ok(())
}

// A failed write may have left any part of it, and what is read is as before.
#[test]
fn images_of_a_failed_write(rt: HostRuntime) -> Result<(), Fail> {
    let alloc = rt.alloc();
    let mut disk = MemoryDisk::new(alloc, Vec::new(alloc), vec![in alloc; 1]?, 2)?;
    assert!(rt; disk.write_at(0, &[1, 2]).is_err());
    assert_eq!(rt; disk.bytes(), b"".as_slice());
    assert_eq!(rt; disk.crashed(alloc, 8)?.as_slice(), [2, 2].as_slice());
    assert_eq!(rt; disk.crashed(alloc, 9)?.as_slice(), b"".as_slice());
    Ok(())
}
