//! The browser object as scripts call it, and its registers (after ARIB STD-B24 volume 2, in this
//! project's own profile).
//!
//! `specs/Calls.antt` is the table of the calls: what each gives, what the page has to do beside,
//! and what it leaves of timers, random words, the persistent area and the objects of scripts.
//! [`call_browser`] does just that. An [`Effect`] is handed to the page, which alone knows
//! documents, modules and sounds. `specs/Registers.antt` has the texts of Ureg and Greg, and
//! `specs/Functions.antt` how a text names the function of a timer. `specs/ArrayCalls.antt` says
//! how values of scripts become those of persistent arrays, and back, and `specs/Dates.antt` how
//! dates are reckoned with. `specs/OpenTables.antt` has the binary tables that a document opens: the
//! page looks a resource up, and [`open_table`] opens what it found.
#![tactic(auto)]

mod arguments;
mod array_calls;
mod array_fields;
mod calls;
mod date_calls;
mod effects;
mod functions;
mod laws;
mod open_tables;
mod page_calls;
mod random_calls;
mod registers;
mod sounds;
mod states;
mod table_calls;
mod timer_calls;

pub use crate::calls::{BrowserCall, call_browser};
pub use crate::effects::Effect;
pub use crate::laws::{
    law_of_call_outcomes, law_of_function_texts, law_of_new_objects, law_of_register_names,
};
pub use crate::open_tables::{OpenTables, open_table};
pub use crate::registers::{register, set_register};
pub use crate::states::BrowserState;
