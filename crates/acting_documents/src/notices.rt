//! What a document is told.

use carousel_blocks::Change;
use event_messages::Message;

/// What a document is told while no handler of it runs: a key that is pressed (`down`) or released,
/// a message or a change in a module of a component, or the moment to which the clock goes, in
/// milliseconds.
#[derive(Clone, Copy)]
pub enum Notice<'a> {
    Key { key: u8, down: bool },
    Message { component: u8, message: &'a Message },
    Change { component: u8, change: &'a Change },
    Moment(u64),
}
