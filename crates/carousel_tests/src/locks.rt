//! A test of `module_locks`: what comes of locks, up to the last place.

use crate::messages::DII;
use module_locks::{LockAnswer, Modules};
use psi_tables::{Selection, Services};
use std::test::Fail;

// A DII of its own transactionId that announces three modules: one of this number without bytes, which
// is whole with it, module 1, and module 2, which is too large.
fn announcement(number: u8) -> [u8; 74] {
    let mut dii = DII;
    dii[15] = number;
    dii[43] = number;
    dii[47] = 0;
    // The module's info has a type in place of a compression.
    dii[50] = 0x01;
    dii
}

// Each DII takes the module of the one before away, whose lock stays.
#[test]
fn sixty_four_locks_stand(rt: HostRuntime) -> Result<(), Fail> {
    let mut modules = Modules::new(rt.alloc());
    modules.set_components(&Services::new(rt.alloc(), Selection::Pid(256)))?;
    assert_eq!(rt; modules.lock(0x40, 3)?, LockAnswer::NoEntry);
    for number in 3..67 {
        modules.feed(0x40, &announcement(number))?;
        assert_eq!(rt; modules.lock(0x40, u16::from(number))?, LockAnswer::Kept);
    }
    modules.feed(0x40, &announcement(67))?;
    assert_eq!(rt; modules.seen_number(0x40, 67), Some(65));
    assert!(rt; modules.seen_number(0x40, 1).is_none());
    assert_eq!(rt; modules.lock(0x40, 67)?, LockAnswer::Full);
    assert_eq!(rt; modules.lock(0x40, 1)?, LockAnswer::Full);
    assert_eq!(rt; modules.lock(0x40, 2)?, LockAnswer::NoEntry);
    assert_eq!(rt; modules.lock(0x40, 66)?, LockAnswer::NoEntry);
    assert!(rt; modules.unlock(0x40, 66) && !modules.unlock(0x40, 66));
    assert_eq!(rt; modules.lock(0x40, 67)?, LockAnswer::Kept);
    assert_eq!(rt; modules.lock(0x40, 67)?, LockAnswer::Had);
    modules.feed(0x40, &announcement(3))?;
    assert_eq!(rt;
        (
            modules.seen_number(0x40, 3),
            modules.delivery_number(0x40, 3)
        ),
        (Some(1), Some(66))
    );
    assert!(rt; modules.unlock(0x40, 3));
    assert_eq!(rt; modules.seen_number(0x40, 3), Some(66));
    assert_eq!(rt; modules.lock(0x40, 1)?, LockAnswer::Wanted);
    Ok(())
}
