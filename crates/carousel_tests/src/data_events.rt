//! Tests of data events: which DII is one, by the carousel's data_event_id and by a service with its
//! locks.

use crate::messages::DII;
use carousel_blocks::{Carousel, Change, ChangeLine, data_event_between};
use dsmcc_messages::read_dii;
use module_locks::{LockAnswer, Modules, push_change_line};
use psi_tables::{Selection, Services};
use std::alloc::Global;
use std::test::Fail;

// A PAT with program 1 on PID 496.
const PAT: [u8; 16] = [
    0x00, 0xB0, 0x0D, 0x00, 0x01, 0xC1, 0x00, 0x00, 0x00, 0x01, 0xE1, 0xF0, 0x00, 0x00, 0x00, 0x00,
];

// The PMT of program 1: the components 0x40 on PID 256 and 0x41 on PID 257.
const PMT: [u8; 32] = [
    // the section's header, with program_number
    0x02, 0xB0, 0x1D, 0x00, 0x01, 0xC1, 0x00, 0x00,
    // PCR_PID, program_info_length
    0xFF, 0xFF, 0xF0, 0x00,
    // stream_type, elementary_PID, ES_info_length, and the stream identifier descriptor
    0x0D, 0xE1, 0x00, 0xF0, 0x03, 0x52, 0x01, 0x40,
    // the other stream
    0x0D, 0xE1, 0x01, 0xF0, 0x03, 0x52, 0x01, 0x41,
    // room for CRC_32
    0x00, 0x00, 0x00, 0x00,
];

// A DII with this transactionId and these first and last bytes of downloadId. It announces module 3
// without bytes, which is whole with it, module 1 with 20 bytes, and module 2, which is too large.
fn announcement(transaction: u8, first: u8, last: u8) -> [u8; 74] {
    let mut dii = DII;
    dii[15] = transaction;
    dii[22] = first;
    dii[25] = last;
    dii[43] = 3;
    dii[47] = 0;
    // The module's info has a type in place of a compression.
    dii[50] = 0x01;
    dii
}

// The same with module 1 in the place of module 3: it is whole with this DII.
fn delivery(transaction: u8, first: u8) -> [u8; 74] {
    let mut dii = announcement(transaction, first, 1);
    dii[43] = 1;
    dii
}

// The modules of a service with both components.
fn of_two_components(alloc: Global) -> Result<Modules, Fail> {
    let mut services = Services::new(alloc, Selection::First);
    services.feed(0, &PAT)?;
    services.feed(496, &PMT)?;
    let mut modules = Modules::new(alloc);
    modules.set_components(&services)?;
    Ok(modules)
}

#[test]
fn top_four_bits_of_a_download_id(rt: HostRuntime) -> Result<(), Fail> {
    let mut carousel = Carousel::new(rt.alloc());
    assert!(rt; carousel.data_event_id().is_none());
    carousel.set_dii(read_dii(rt.alloc(), &announcement(1, 0x0F, 1))?)?;
    assert_eq!(rt; carousel.data_event_id(), Some(0));
    carousel.set_dii(read_dii(rt.alloc(), &announcement(2, 0xF0, 1))?)?;
    assert_eq!(rt; carousel.data_event_id(), Some(15));
    carousel.set_dii(read_dii(rt.alloc(), &announcement(2, 0x70, 1))?)?;
    assert_eq!(rt; carousel.data_event_id(), Some(15));
    Ok(())
}

#[test]
fn between_two_data_event_ids(rt: HostRuntime) -> Result<(), Fail> {
    let event = Change::data_event(2, 9);
    assert_eq!(rt;
        (event.module, event.status, event.locked),
        (0, None, false)
    );
    assert_eq!(rt;
        event.line,
        Some(ChangeLine::DataEvent {
            before: 2,
            after: 9
        })
    );
    let mut line = Vec::new(rt.alloc());
    push_change_line(0x40, &Change::data_event(2, 15), &mut line)?;
    assert!(rt; line.as_slice() == b"dataevent 40 2 15\n".as_slice());
    assert_eq!(rt; data_event_between(Some(2), Some(9)), Some(event));
    assert_eq!(rt; data_event_between(Some(9), Some(9)), None);
    assert_eq!(rt; data_event_between(None, Some(9)), None);
    assert_eq!(rt; data_event_between(Some(2), None), None);
    Ok(())
}

#[test]
fn which_sections_are_data_events(rt: HostRuntime) -> Result<(), Fail> {
    let mut modules = of_two_components(rt.alloc())?;
    // The first DII is none, whatever its downloadId.
    assert_eq!(rt;
        modules.feed(0x40, &announcement(1, 0x30, 1))?.data_event,
        None
    );
    // The transactionId in force is not looked at further.
    assert_eq!(rt;
        modules.feed(0x40, &announcement(1, 0x40, 1))?.data_event,
        None
    );
    // The other 28 bits may change.
    assert_eq!(rt;
        modules.feed(0x40, &announcement(2, 0x3F, 9))?.data_event,
        None
    );
    // Another component has none.
    assert_eq!(rt;
        modules.feed(0x41, &announcement(1, 0x30, 1))?.data_event,
        None
    );
    assert_eq!(rt;
        modules.feed(0x41, &announcement(2, 0x50, 1))?.data_event,
        None
    );
    let event = modules.feed(0x40, &announcement(3, 0x4F, 9))?.data_event;
    assert_eq!(rt; event, Some(Change::data_event(3, 4)));
    // On another PID the component begins anew.
    modules.set_components(&Services::new(rt.alloc(), Selection::Pid(300)))?;
    assert_eq!(rt;
        modules.feed(0x40, &announcement(4, 0x50, 1))?.data_event,
        None
    );
    Ok(())
}

// Kept and wanted locks of both components end.
#[test]
fn locks_end_at_a_data_event(rt: HostRuntime) -> Result<(), Fail> {
    let mut modules = of_two_components(rt.alloc())?;
    modules.feed(0x40, &announcement(1, 0x00, 1))?;
    modules.feed(0x41, &announcement(1, 0x00, 1))?;
    assert_eq!(rt; modules.lock(0x40, 3)?, LockAnswer::Kept);
    assert_eq!(rt; modules.lock(0x40, 1)?, LockAnswer::Wanted);
    assert_eq!(rt; modules.lock(0x41, 3)?, LockAnswer::Kept);
    assert_eq!(rt; modules.lock(0x41, 1)?, LockAnswer::Wanted);
    // Another downloadId with the same data_event_id ends none.
    modules.feed(0x40, &announcement(2, 0x01, 1))?;
    assert_eq!(rt; modules.lock(0x40, 3)?, LockAnswer::Had);
    assert_eq!(rt; modules.seen_number(0x40, 3), Some(1));
    modules.feed(0x40, &announcement(3, 0x10, 1))?;
    assert!(rt; !modules.unlock(0x40, 3) && !modules.unlock(0x40, 1));
    assert!(rt; !modules.unlock(0x41, 3) && !modules.unlock(0x41, 1));
    assert_eq!(rt; modules.seen_number(0x40, 3), Some(4));
    Ok(())
}

// A DII that brings module 1, on which a lock is wanted: whether a change of it tells that the lock got
// its bytes, and whether the module is there then.
fn fills_the_lock(alloc: Global, first: u8) -> Result<(bool, bool), Fail> {
    let mut modules = of_two_components(alloc)?;
    modules.feed(0x40, &announcement(1, 0x00, 1))?;
    modules.lock(0x40, 1)?;
    let changes = modules.feed(0x40, &delivery(2, first))?.modules;
    let is_locked = changes.iter().any(|change| change.locked);
    Ok((is_locked, modules.seen_number(0x40, 1).is_some()))
}

#[test]
fn no_delivery_of_a_data_event_is_locked(rt: HostRuntime) -> Result<(), Fail> {
    assert_eq!(rt; fills_the_lock(rt.alloc(), 0x00)?, (true, true));
    assert_eq!(rt; fills_the_lock(rt.alloc(), 0x10)?, (false, true));
    Ok(())
}
