//! Tests that cross crates: runs over ports in memory, of streams that `test_streams` writes. It has no
//! code of its own.
//!
//! What the built program shows over files stands in the rows of `tables/` and in those of the tools
//! that run them, which cost no proof; and here what they can't show: openings, reads and writes that
//! fail in the middle, a stream in pieces, a record without end, and what a page counts and no run
//! prints. All have ample memory, and compare what was answered and written, so a layer that answers
//! `NoMemory` fails here.
//!
//! `area_files` is of `bml_ports_std` alone, `receivers` of `receiver_core`, `remembered` of `page` over
//! the modules that its sections bring, and `replayed_files` of `replay_files`.
//!
//! `Done` is reached in `pieces`, `BadRecord`, `OpenFault`, `ReadFault` and `WriteFault` in `faults`,
//! `KeepFault` and `BadArea` in `kept_areas`, `TooLong` in `long_records`, and `Usage` by rows of
//! commands.
#![tactic(auto)]

#[cfg(test)]
mod area_files;
#[cfg(test)]
mod faults;
#[cfg(test)]
mod journals;
#[cfg(test)]
mod kept_areas;
#[cfg(test)]
mod long_records;
#[cfg(test)]
mod messages;
#[cfg(test)]
mod piece_sinks;
#[cfg(test)]
mod pieces;
#[cfg(test)]
mod receivers;
#[cfg(test)]
mod remembered;
#[cfg(test)]
mod replayed_files;
#[cfg(test)]
mod runs;
