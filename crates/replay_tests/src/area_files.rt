//! The files of the area: what is stored in the journal is loaded again, and the older file is read alone.

use bml_bytes::AREA_LENGTH;
use bml_ports::{AreaBytes, Keeper};
use bml_ports_std::{AreaFile, DiskFile};
use nv_journal::Journal;
use std::fs;
use std::test::Fail;

#[test]
fn an_area_is_kept_in_its_file(rt: HostRuntime) -> Result<(), Fail> {
    let mut area = AreaBytes {
        bytes: [7; AREA_LENGTH],
    };
    let _ = fs::remove_file(&rt, "nvram.jnl");
    fs::write(&rt, "nvram.bin", b"abc".as_slice())?;
    let mut journal = Journal::new(DiskFile::new(rt), AreaFile::new(rt));
    assert_eq!(rt; journal.load(&mut area), Ok(3));
    assert!(rt; area.bytes.as_slice().starts_with(b"abc\0"));
    assert!(rt;
        fs::metadata(&rt, "nvram.jnl").is_err(),
        "a load makes no file"
    );
    area.bytes[AREA_LENGTH - 1] = 5;
    assert_eq!(rt; journal.store(&area), Ok(()));

    // A second one is refused as long as the first is there.
    let mut second = Journal::new(DiskFile::new(rt), AreaFile::new(rt));
    assert!(rt; second.load(&mut area).is_err());
    assert_eq!(rt; journal.store(&area), Ok(()));
    drop(journal);
    area.bytes[AREA_LENGTH - 1] = 6;
    assert_eq!(rt;
        (second.load(&mut area), area.bytes[AREA_LENGTH - 1]),
        (Ok(AREA_LENGTH as u64), 5)
    );
    assert!(rt; AreaFile::new(rt).store(&area).is_err());
    assert_eq!(rt; fs::read(&rt, "nvram.bin")?.as_slice(), b"abc".as_slice());
    fs::remove_file(&rt, "nvram.bin")?;
    fs::remove_file(&rt, "nvram.jnl")?;
    Ok(())
}
