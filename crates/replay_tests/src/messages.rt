//! Messages that several tests send: a module of ten bytes in three blocks, and an empty one.

use test_streams::{Entry, Sent};

pub const EMPTY: Sent = Sent::Indication(1, 4, &[Entry(1, 1, 0, &[])]);

pub const FIRST: Sent = Sent::Block(1, 1, 0, b"abcd");

pub const SECOND: Sent = Sent::Block(1, 1, 1, b"efgh");

pub const THIRD: Sent = Sent::Block(1, 1, 2, b"ij");
