//! The run of the program over ports that its caller gives.
//!
//! [`run`] reads the words of the command line, hands the receiver what the items of the record ask
//! for, packets of the stream, keys, time and wishes to see the display, writes what it prints, and
//! stores the persistent area after each turn that changed it. Its contract is the program's
//! theorem: where the world tells its files, the keeper what it keeps and the sink what is written,
//! however reads are cut, what is written and kept is what the definitions in `specs/Meaning` give
//! for the words, the whole stream, the whole record and the kept bytes, and where something fails
//! a front of that. Told or not, each fault was counted by the port that it came from.
//!
//! Below it stand, each exact: the words ([`read_command`]), the lines of the record
//! ([`RecordReader`]), the status with its number and line ([`Status`]), and the last line
//! ([`push_end_line`]). Beside it, [`replay_files`] says what the stream of files comes to, and
//! [`gen_files`] gives files of random bytes.
#![tactic(auto)]

mod generating;
mod kept_laws;
mod lines;
mod output;
mod player;
mod record;
mod record_items;
mod record_laws;
mod replay;
mod run_command;
mod standing_areas;
mod status;
mod word_laws;
mod words;

pub use crate::generating::replay_files;
pub use crate::kept_laws::law_of_kept_areas;
pub use crate::lines::push_end_line;
pub use crate::record::{Line, NextLine, RecordItem, RecordReader};
pub use crate::record_laws::{law_of_items, law_of_line_fields, law_of_lines, law_of_records};
pub use crate::run_command::run;
pub use crate::status::Status;
pub use crate::word_laws::law_of_commands;
pub use crate::words::{Command, Replay, read_command};
pub use file_generator::gen_files;
