//! Tests of the libraries that bring modules: bytes and texts, ports in memory, packets, sections,
//! tables, messages, carousels, entities and locks on modules, and of those that write and draw them.
//! It has no code of its own.
//!
//! What they answer is stated exactly by their contracts, so a test has values from outside, as bytes
//! written out by hand, and calls with memory to spare. What whole runs show has no test here: the
//! packets of several PIDs, carousels but for two calls, components and their store, and most forms that streams,
//! messages and entities take. These are rows of `tables/`, and runs in `replay_tests`.
//!
//! They stand here since a crate with tests is proved twice, and these libraries are proved once. A
//! file has the tests of one library, but for `packets`, which has those of three.
#![tactic(auto)]

#[cfg(test)]
mod carousels;
#[cfg(test)]
mod data_events;
#[cfg(test)]
mod entities;
#[cfg(test)]
mod generated;
#[cfg(test)]
mod locks;
#[cfg(test)]
mod messages;
#[cfg(test)]
mod packets;
#[cfg(test)]
mod paths;
#[cfg(test)]
mod ports;
#[cfg(test)]
mod remainders;
#[cfg(test)]
mod tables;
#[cfg(test)]
mod texts;
#[cfg(test)]
mod writers;
