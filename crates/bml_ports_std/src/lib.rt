//! The outside of a replay, by the calls of the operating system: the two files that are read, standard
//! output, the file of the journal in which the area is kept, and the one in which it was kept before.
//!
//! Each adapter makes the real calls, takes an interrupted one up again, counts each call that fails, and
//! hands on what the call gave. What a real file holds is told of none.
#![tactic(auto)]

mod area_file;
mod disk_file;
mod faults;
mod file_world;
mod read_port;
mod writer_sink;

pub use area_file::AreaFile;
pub use disk_file::DiskFile;
pub use file_world::FileWorld;
pub use writer_sink::{StandardOutput, WriterSink};
