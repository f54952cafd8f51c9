//! The piece that is being read: what stands between a mark and the next, and the section in the
//! making.
ghost use Rattle.std.specs.Prelude.{◌≡◌, ◌≢◌, ℕ, ◌+◌, ◌-◌, ◌*◌, ◌%◌, ◌<◌, ◌≤◌, true, false, List, [], ◌∷◌, ◌++◌, length, take, min, slice_index, Some, None, IsTrue, ◌↔◌};
ghost use Rattle.ts_sections.specs.Sections.{section_size, begins_whole};
ghost use Rattle.ts_sections.specs.devices.Ahead.{sections_of_open};
ghost use Rattle.ts_sections.specs.devices.Piece.{IsPart, Takes, ends_in};

use arrayvec::ArrayVec;
use std::marker::Model;

/// Stands where a table_id would: what comes up to the next mark is stuffing (ISO/IEC 13818-1,
/// 2.4.4).
const STUFFING: u8 = 0xFF;

/// The bytes of a section up to the end of its section_length (ISO/IEC 13818-1, 2.4.4.11).
const HEADER_LENGTH: usize = 3;

/// The bytes of the longest section: its header, and the most that 12 bits count.
const SECTION_LIMIT: usize = 3 + 0xFFF;

/// How far the piece is read.
#[derive(Clone, Copy)]
enum Stage {
    /// No piece began in this run, or the rest of it is stuffing.
    Unread,
    /// The buffer holds the first bytes of a section.
    Gathering,
    /// The buffer holds a section that was given.
    Given,
}

/// What taking in bytes of a packet came to.
#[derive(Clone, Copy)]
pub enum Taken {
    /// No section ended in them.
    All,
    /// A section ended with the first so many, and the buffer holds it.
    Joined(usize),
    /// The first so many are a section.
    Whole(usize),
}

/// The piece that is being read, behind its last whole section.
#[derive(Drop)]
pub struct Piece {
    stage: Stage,
    buffer: ArrayVec<u8, SECTION_LIMIT>,
}

impl Model for Piece {
    ghost use Rattle.ts_sections.specs.devices.Piece.{PieceState, known_of, IsSound};

    ghost Value = { PieceState };

    ghost view = { λ p. record {
      known = known_of p.stage p.buffer.items;
      gathered = p.buffer.items;
    } };

    ghost invariant = { λ p. IsSound p.stage p.buffer.items };
}

impl Piece {
    /// Before the first mark.
    pub fn new() -> Piece
        ensures { result.known ≡ None }
    {
        Piece {
            stage: Stage::Unread,
            buffer: ArrayVec::new(),
        }
    }

    /// A mark stands here: what is left of the piece is no section, and another piece begins.
    pub fn begin(&mut self)
        ensures known { self.new.known ≡ Some [] }
        ensures ended { sections_of_open self.old.known [] ≡ [] }
    {
        self.stage = Stage::Gathering;
        self.buffer.clear();
    }

    /// The run ends here: what is left of the piece is no section.
    pub fn abandon(&mut self)
        ensures known { self.new.known ≡ None }
        ensures ended { sections_of_open self.old.known [] ≡ [] }
    {
        self.stage = Stage::Unread;
    }

    /// The bytes that were gathered last.
    pub fn gathered(&self) -> &[u8]
        ensures { result.now ≡ self.now.gathered }
    {
        self.buffer.as_slice()
    }

    /// Whether a section ends in bytes that come next.
    pub fn ends_in(&self, bytes: &[u8]) -> bool
        ensures { result ≡ ends_in self.now.known bytes.now }
    {
        match self.stage {
            Stage::Unread => false,
            Stage::Gathering => both_start_section(self.buffer.as_slice(), bytes),
            Stage::Given => starts_section(bytes),
        }
    }

    /// Takes in bytes, up to the end of the next section that ends in them.
    pub fn take(&mut self, bytes: &[u8]) -> Taken
        ensures { Takes self.old bytes.now self.new result }
    {
        match self.stage {
            Stage::Unread => Taken::All,
            Stage::Given => self.start(bytes),
            Stage::Gathering => {
                if self.buffer.is_empty() {
                    self.start(bytes)
                } else {
                    self.go_on(bytes)
                }
            }
        }
    }

    fn start(&mut self, bytes: &[u8]) -> Taken
        requires begins { self.old.known ≡ Some [] }
        ensures { Takes self.old bytes.now self.new result }
    {
        self.stage = Stage::Gathering;
        self.buffer.clear();
        if starts_section(bytes) {
            return Taken::Whole(size_of_section(bytes));
        }
        if starts_stuffing(bytes) {
            self.stage = Stage::Unread;
        } else {
            append(&mut self.buffer, bytes);
        }
        Taken::All
    }

    fn go_on(&mut self, bytes: &[u8]) -> Taken
        requires known { self.old.known ≡ Some self.old.gathered }
        requires begun { 0 < length self.old.gathered }
        ensures { Takes self.old bytes.now self.new result }
    {
        let count = gather(&mut self.buffer, bytes);
        if !starts_section(self.buffer.as_slice()) {
            return Taken::All;
        }
        self.stage = Stage::Given;
        Taken::Joined(count)
    }
}

/// Whether a whole section begins the bytes.
pub fn starts_section(bytes: &[u8]) -> bool
    ensures { result ≡ begins_whole bytes.now }
{
    bytes.len() >= HEADER_LENGTH && bytes[0] != STUFFING && bytes.len() >= size_of_section(bytes)
}

/// Whether a whole section begins these bytes and those behind them.
fn both_start_section(bytes: &[u8], behind: &[u8]) -> bool
    ensures { result ≡ begins_whole (bytes.now ++ behind.now) }
{
    let length = bytes.len() + behind.len();
    if length < HEADER_LENGTH || byte_of_both(bytes, behind, 0) == STUFFING {
        return false;
    }
    let high = byte_of_both(bytes, behind, 1);
    let low = byte_of_both(bytes, behind, 2);
    length >= size_in(high, low)
}

/// The byte at a place of these bytes and those behind them.
fn byte_of_both(bytes: &[u8], behind: &[u8], place: usize) -> u8
    requires within { place < length bytes.now + length behind.now }
    ensures { result ≡ slice_index (bytes.now ++ behind.now) place }
{
    if place < bytes.len() {
        bytes[place]
    } else {
        behind[place - bytes.len()]
    }
}

/// Whether stuffing begins the bytes.
fn starts_stuffing(bytes: &[u8]) -> bool
    ensures { IsTrue result ↔ (slice_index bytes.now 0 ≡ 255) }
{
    !bytes.is_empty() && bytes[0] == STUFFING
}

/// The size of the section that begins the bytes.
fn size_of_section(bytes: &[u8]) -> usize
    requires header { 3 ≤ length bytes.now }
    ensures size { result ≡ section_size bytes.now }
    ensures limit { result ≤ 4098 }
{
    size_in(bytes[1], bytes[2])
}

/// The size of a section of which these bytes hold the section_length.
fn size_in(high: u8, low: u8) -> usize
    ensures { result ≡ 3 + (high % 16 * 256 + low) }
{
    HEADER_LENGTH + (high as usize % 16 * 256 + low as usize)
}

/// Appends to the first bytes of a section those that follow, up to its end, and says how many they
/// are.
fn gather(buffer: &mut ArrayVec<u8, SECTION_LIMIT>, bytes: &[u8]) -> usize
    requires part { IsPart buffer.old.items }
    requires begun { 0 < length buffer.old.items }
    ensures within { result ≤ length bytes.now }
    ensures items { buffer.new.items ≡ buffer.old.items ++ take result bytes.now }
    ensures whole { begins_whole buffer.new.items ≡ true
        → section_size buffer.new.items ≡ length buffer.new.items }
    ensures part { begins_whole buffer.new.items ≡ false
        → (result ≡ length bytes.now) × IsPart buffer.new.items }
{
    let header = fill(buffer, HEADER_LENGTH, bytes);
    if buffer.len() < HEADER_LENGTH {
        return header;
    }
    let size = size_of_section(buffer.as_slice());
    header + fill(buffer, size, &bytes[header..])
}

/// Appends the first bytes until there are `size` in all, and says how many they are.
fn fill(buffer: &mut ArrayVec<u8, SECTION_LIMIT>, size: usize, bytes: &[u8]) -> usize
    requires limit { size ≤ 4098 }
    ensures count { result ≡ min (size - length buffer.old.items) (length bytes.now) }
    ensures items { buffer.new.items ≡ buffer.old.items ++ take result bytes.now }
{
    let count = size.saturating_sub(buffer.len()).min(bytes.len());
    append(buffer, &bytes[..count]);
    count
}

fn append(buffer: &mut ArrayVec<u8, SECTION_LIMIT>, bytes: &[u8])
    requires room { length buffer.old.items + length bytes.now ≤ 4098 }
    ensures items { buffer.new.items ≡ buffer.old.items ++ bytes.now }
{
    match buffer.try_extend_from_slice(bytes) {
        Ok(()) => (),
        Err(_) => unreachable!(),
    }
}
