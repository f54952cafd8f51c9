//! The two slots of a journal.

ghost use Rattle.std.specs.Prelude.{◌≡◌};
ghost use Rattle.nv_journal.specs.Slots.{place_of, other};

use bml_bytes::AREA_LENGTH;

/// The gate of a slot whose number and area are whole. A gate is the first byte of its slot.
pub const OPEN: u8 = 1;

/// The gate that is written before a number and an area are.
pub const CLOSED: u8 = 0;

/// How many numbers there are: they are 0, 1 and 2, and 0 follows 2.
pub const NUMBER_COUNT: u8 = 3;

/// Where the number of a slot stands, from the slot's place on.
pub const NUMBER_OFFSET: usize = 1;

/// Where the area of a slot stands, from the slot's place on.
pub const AREA_OFFSET: usize = 2;

/// How many bytes a slot has.
pub const SLOT_LENGTH: usize = AREA_OFFSET + AREA_LENGTH;

/// How many bytes both slots have.
pub const JOURNAL_LENGTH: usize = 2 * SLOT_LENGTH;

/// The two slots. The second stands after the first.
#[derive(Clone, Copy, PartialEq, Eq)]
pub enum Slot {
    First,
    Second,
}

impl Slot {
    /// Where the slot begins.
    pub fn place(self) -> u64
        ensures { result ≡ place_of self }
    {
        match self {
            Slot::First => 0,
            Slot::Second => SLOT_LENGTH as u64,
        }
    }

    /// The other slot.
    pub fn other(self) -> Slot
        ensures { result ≡ other self }
    {
        match self {
            Slot::First => Slot::Second,
            Slot::Second => Slot::First,
        }
    }
}
