//! Program specific information: the PAT, which says on which PID each program's map comes, the PMT, which says
//! which streams a program has, and `Services`, which follows both from section to section.
//!
//! For each table there is a relation between bytes and fields, in the direction in which they are written, and the
//! readers answer the fields that stand in it with the section handed in. They refuse a section exactly where it
//! is of another kind, or of the kind and without fields, or where memory runs out. Which service is played and
//! which components it has are functions of all sections handled so far; [`Services`] stands for that history, and
//! each of its answers follows from it.
#![tactic(auto)]

mod components;
mod descriptor;
mod laws;
mod pat;
mod pmt;
mod services;
mod table;

pub use crate::components::{COMPONENT_LIMIT, Component};
pub use crate::laws::{
    law_of_component_map, law_of_components, law_of_pat, law_of_pmt, law_of_unread_sections,
    law_of_wanted_pids,
};
pub use crate::pat::{PAT_PID, PatEntry, read_pat};
pub use crate::pmt::{Pmt, PmtStream, read_pmt};
pub use crate::services::{Selection, Services};
