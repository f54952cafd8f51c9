//! Tests of `bml_ports`: the keeper in memory, through its trait. The world and the sink in memory are
//! those of `replay_tests`.

use bml_ports::*;

fn load_and_store<K: Keeper>(keeper: &mut K, area: &mut AreaBytes) -> (Option<u64>, bool) {
    let loaded = keeper.load(area).ok();
    let is_stored = keeper.store(area).is_ok();
    (loaded, is_stored)
}

// The first storing, which is the second call, fails.
#[test]
fn what_is_kept(rt: HostRuntime) -> Result<(), NoMemory> {
    let failing = vec![in rt.alloc(); 2]?;
    let mut keeper = MemoryKeeper::new(vec![in rt.alloc(); 5, 2]?, failing);
    let mut area = AreaBytes::zeros();
    assert!(rt; load_and_store(&mut keeper, &mut area) == (Some(2), false));
    assert!(rt; keeper.kept() == [5, 2].as_slice());
    assert!(rt; load_and_store(&mut keeper, &mut area) == (Some(2), true));
    assert!(rt; keeper.kept() == area.bytes());
    Ok(())
}
