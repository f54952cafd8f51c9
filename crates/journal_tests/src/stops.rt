//! Stops at each call on a disk, with byte lists that such a stop may leave.

ghost use Rattle.std.specs.Prelude.{◌≤◌, length};
ghost use Rattle.nv_journal.specs.Slots.{journal_length};

use crate::journals::{CALLS, Loaded, Tested, area_of, journal_over, load_of};
use bml_bytes::NoMemory;
use bml_ports::Keeper;
use nv_journal::MemoryDisk;
use std::alloc::Global;
use std::test::Fail;

// The calls of one store on a disk without bytes, and of two.
const ONE_STORE: u64 = 10;

const TWO_STORES: u64 = 17;

// The calls of a store on a journal that knows nothing of its slots, at most.
const THIRD_STORE: u64 = 10;

// How many bytes are cut off the longest images: none, one, half of an area, and all but the gate.
const CUTS: &[u32] = &[0, 1, 1_536, 3_073];

const FIRST: Loaded = Loaded::Area(7);

const SECOND: Loaded = Loaded::Area(8);

const THIRD: Loaded = Loaded::Area(9);

// A journal after its last call, and what a new one may load then.
#[derive(Drop)]
struct Stopped {
    journal: Tested,
    allowed: [Loaded; 3],
}

// One store or two on a disk without bytes, of which a call fails, and each past so many.
fn stop_at(
    alloc: Global,
    failing: u64,
    calls: usize,
    is_second: bool,
) -> Result<Stopped, NoMemory> {
    let mut journal = journal_over(alloc, Vec::new(alloc), failing, calls)?;
    let mut allowed = match journal.store(&area_of(7)) {
        Ok(()) => [FIRST; 3],
        Err(_) => [Loaded::Nothing, FIRST, FIRST],
    };
    if is_second {
        match journal.store(&area_of(8)) {
            Ok(()) => allowed = [SECOND; 3],
            Err(_) => allowed[2] = SECOND,
        }
    }
    Ok(Stopped { journal, allowed })
}

// What a new journal loads that isn't allowed, over each image of a cut.
fn refused(
    alloc: Global,
    disk: &MemoryDisk,
    cut: u32,
    allowed: &[Loaded],
) -> Result<Option<Loaded>, NoMemory> {
    for pick in 0..16 {
        let image = disk.crashed(alloc, u64::from(cut) * 16 + pick)?;
        let found = load_of(&mut journal_over(alloc, image, 0, CALLS)?);
        if !allowed.contains(&found) {
            return Ok(Some(found));
        }
    }
    Ok(None)
}

// One store, each call in turn failing alone, and failing with all after it. The last number is of
// no call.
#[test]
fn one_store(rt: HostRuntime) -> Result<(), Fail> {
    for failing in 1..=ONE_STORE + 1 {
        for calls in [CALLS, failing as usize - 1] {
            let stop = stop_at(rt.alloc(), failing, calls, false)?;
            for cut in CUTS {
                let other = refused(rt.alloc(), stop.journal.disk(), *cut, &stop.allowed)?;
                assert_eq!(rt; other, None, "call {failing} of {calls}");
            }
        }
    }
    Ok(())
}

#[test]
fn two_stores(rt: HostRuntime) -> Result<(), Fail> {
    for failing in 1..=TWO_STORES + 1 {
        for calls in [CALLS, failing as usize - 1] {
            let stop = stop_at(rt.alloc(), failing, calls, true)?;
            let other = refused(rt.alloc(), stop.journal.disk(), 0, &stop.allowed)?;
            assert_eq!(rt; other, None, "call {failing} of {calls}");
        }
    }
    Ok(())
}

// What a third store on these bytes leaves that isn't allowed, each call in turn failing.
fn refused_third(alloc: Global, bytes: &[u8]) -> Result<Option<Loaded>, NoMemory>
    requires { length bytes.now ≤ journal_length }
{
    let stood = load_of(&mut journal_over(alloc, Vec::from_slice(alloc, bytes)?, 0, CALLS)?);
    for failing in 1..=THIRD_STORE {
        let mut journal = journal_over(alloc, Vec::from_slice(alloc, bytes)?, failing, CALLS)?;
        let allowed = match journal.store(&area_of(9)) {
            Ok(()) => [THIRD; 2],
            Err(_) => [stood, THIRD],
        };
        let other = refused(alloc, journal.disk(), 0, &allowed)?;
        if other.is_some() {
            return Ok(other);
        }
    }
    Ok(None)
}

// A third store over each image that differs from the one before it, of two stores of which a call
// failed.
#[test]
fn a_third_store(rt: HostRuntime) -> Result<(), Fail> {
    let alloc = rt.alloc();
    for failing in 1..=TWO_STORES + 1 {
        let stop = stop_at(alloc, failing, CALLS, failing > ONE_STORE)?;
        let mut last = Vec::new(alloc);
        for pick in 0..16 {
            let image = stop.journal.disk().crashed(alloc, pick)?;
            if pick == 0 || image != last {
                let other = refused_third(alloc, image.as_slice())?;
                assert_eq!(rt; other, None, "call {failing}, pick {pick}");
            }
            last = image;
        }
    }
    Ok(())
}

// Each of what may be loaded is loaded after some stop.
#[test]
fn all_that_may_be_loaded(rt: HostRuntime) -> Result<(), Fail> {
    let mut seen = [false; 3];
    for failing in 1..=TWO_STORES {
        let stop = stop_at(rt.alloc(), failing, failing as usize - 1, true)?;
        for pick in 0..16 {
            let image = stop.journal.disk().crashed(rt.alloc(), pick)?;
            match load_of(&mut journal_over(rt.alloc(), image, 0, CALLS)?) {
                Loaded::Nothing => seen[0] = true,
                FIRST => seen[1] = true,
                SECOND => seen[2] = true,
                _ => {}
            }
        }
    }
    assert_eq!(rt; seen, [true; 3]);
    Ok(())
}
