//! Streams and entities of given files, which are read again as these files.
//!
//! [`write_stream`] writes the transport stream of some modules: a DownloadInfoIndication, all of their blocks, each
//! section in packets of its own, so many rounds (ISO/IEC 13818-1 and 13818-6; ARIB STD-B24, volume 3). The packets are
//! cut again without rest, their sections are those sent and are intact, and held are exactly the modules given, with
//! their bytes, versions and media types. [`write_entity`] writes some parts as one entity (ARIB STD-B24, volume 2, after
//! MIME, RFC 2046), whose parts are exactly those given, in their order, with their names and bytes, and with their media
//! types but for blanks at both ends. What can't be written so is refused as
//! [`BadFiles`](WriteRefusal::BadFiles); `specs/GoodFiles` and `specs/GoodParts` say which that is.
#![tactic(auto)]

mod dii;
mod entities;
mod files;
mod good_files;
mod good_parts;
mod laws;
mod messages;
mod refusals;
mod streams;
mod write;

pub use crate::files::{FileModule, FilePart, Files};
pub use crate::laws::{law_of_entities, law_of_file_sizes, law_of_streams};
pub use crate::refusals::WriteRefusal;
pub use crate::write::{write_entity, write_stream};
