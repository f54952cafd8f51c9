//! A test of the two calls of `carousel_blocks` that no run makes: a block of a module, by the
//! messages as they were read.

use crate::messages::DII;
use carousel_blocks::{Carousel, Put};
use dsmcc_messages::{Ddb, read_dii};
use std::test::Fail;

#[test]
fn a_block_is_kept_once(rt: HostRuntime) -> Result<(), Fail> {
    // The module's info has a type in place of a compression.
    let mut dii = DII;
    dii[50] = 0x01;
    let mut carousel = Carousel::new(rt.alloc());
    carousel.set_dii(read_dii(rt.alloc(), &dii)?)?;
    let block = Ddb {
        download: 1,
        module: 1,
        version: 1,
        number: 2,
        block: b"ij",
    };
    assert_eq!(rt; carousel.put(&block)?, Put::Kept);
    assert_eq!(rt; carousel.put(&block)?, Put::Ignored);
    Ok(())
}
